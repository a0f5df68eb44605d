// Octets given as a hexadecimal dump (docs/COMMAND.md, "Dumps"): lines of an offset, octets and, in some forms, the same octets as text. A
// character moves the state of the dump (`state`), and the octets that are completed are laid into a lent buffer. Nothing is taken on trust:
// an offset must be the number of octets before its line, and a text column must show the octets beside it.
#![tactic(auto)]

ghost use Rattle.std.specs.Prelude.{◌≡◌, ◌-◌, ◌<◌, ◌≤◌, length};
ghost use Rattle.inputs.specs.Read.{read_in, unread_in};
ghost use Rattle.dumps.specs.Held.{state_in, reach_in, turn_in, stopped_at};
ghost use Rattle.dumps.specs.Dumps.{repeated_of, Filled, lay_of, take_of, Turned, Dumped};
ghost use Rattle.dumps.specs.declared.Stop.TheVariants.{Bad};

mod line;
mod state;

use inputs::{Unread, Why, character};
use state::{Mode, State};

// How a tool writes its dumps.
#[derive(Clone, Copy)]
pub struct Style {
    // Digits of an offset.
    pub digits: usize,
    // Whether 0x stands before it; then a blank octet is shown as a dot (tcpdump).
    pub prefix: bool,
    // Whether a colon stands after it.
    pub colon: bool,
    // Whether two octets may make a group.
    pub pairs: bool,
    // What stands before the text column and after it. Where nothing does, two blanks end the octets.
    pub opening: Option<u8>,
    pub closing: Option<u8>,
    // Whether every line has a text column; where not, every line has one after the first that has.
    pub column: bool,
    // Whether a dump may end in an offset that stands alone; where not, none does.
    pub ends: bool,
}

// Why a character is not taken: the text is no dump; or there is no room.
#[derive(Clone, Copy)]
pub enum Stop {
    Bad(Why),
    Long,
}

impl From<Why> for Stop {
    ghost from_gives = { λ w s. s ≡ Bad w };

    fn from(why: Why) -> Stop {
        Stop::Bad(why)
    }
}

impl Stop {
    // The same of the character at `at`.
    fn at(self, at: usize) -> Unread
        ensures { unread_in result ≡ stopped_at at self }
    {
        match self {
            Stop::Bad(why) => Unread::Bad { at, why },
            Stop::Long => Unread::Long,
        }
    }
}

// Lays the octets from `from` on again from n on, up to `upto`.
fn repeat(out: &mut [u8], from: usize, n: usize, upto: usize)
    requires { (from < n) × (upto ≤ length out.old) }
    ensures { out.new ≡ repeated_of (upto - n) from n out.old }
{
    let back = n - from;
    for i in n..upto {
        out[i] = out[i - back];
    }
}

// A star stands for whole lines like the line before it, which begins at `from`, up to `upto`: how many octets there are then.
fn fill(out: &mut [u8], from: usize, n: usize, upto: usize) -> Result<usize, Stop>
    ensures { Filled from n upto out.old (reach_in result) out.new }
{
    if upto <= n {
        return Ok(n);
    }
    if n <= from {
        return Err(Stop::Bad(Why::Offset));
    }
    if (upto - n) % (n - from) != 0 {
        return Err(Stop::Bad(Why::Offset));
    }
    if out.len() < upto {
        return Err(Stop::Long);
    }
    repeat(out, from, n, upto);
    Ok(upto)
}

// Lays an octet that is complete.
fn lay(s: State, n: usize, out: &mut [u8]) -> Result<(State, usize), Stop>
    ensures { Turned (lay_of (state_in s) n out.old) (turn_in result) out.new }
{
    let Mode::Low = s.mode else {
        return Ok((s, n));
    };
    if out.len() <= n {
        return Err(Stop::Long);
    }
    out[n] = s.octet;
    Ok((s, n + 1))
}

// Takes a character after n octets: where the dump stands then, and how many octets there are.
fn take(style: Style, s: State, x: u8, n: usize, out: &mut [u8]) -> Result<(State, usize), Stop>
    requires { n ≤ length out.old }
    ensures { Turned (take_of style (state_in s) x n out.old) (turn_in result) out.new }
{
    let t = s.moved(style, x, &out[..n])?;
    let m = fill(out, t.before, n, t.upto)?;
    lay(t, m, out)
}

// Reads a dump into `out`.
pub fn read(style: Style, text: &[u8], out: &mut [u8]) -> Result<usize, Unread>
    ensures { Dumped style text.now out.old (read_in result) out.new }
{
    let mut s = State::begun();
    let mut n = 0;
    for i in 0..=text.len() {
        match take(style, s, character(text, i), n, out) {
            Ok((t, m)) => {
                s = t;
                n = m;
            }
            Err(stop) => return Err(stop.at(i)),
        }
    }
    if s.star {
        return Err(Unread::Bad {
            at: text.len(),
            why: Why::Form,
        });
    }
    Ok(n)
}
