// Octets given as a list of hexadecimal digits in groups (docs/COMMAND.md, "Lists"): blanks, colons, commas or dashes between them, or 0x before
// each. A character moves the state of the list (`state`), and the octets that are completed are laid into a lent buffer. A text whose groups
// may be words or offsets is refused: in such a group the octets may stand in another order, or be none.
#![tactic(auto)]

ghost use Rattle.groups.specs.Groups.{Grouped};
ghost use Rattle.inputs.specs.Read.{read_in};

pub mod escapes;
mod moves;
mod state;

use inputs::{Unread, character};
use state::State;

// A kind of list.
#[derive(Clone, Copy)]
pub struct Kind {
    // Whether 0x stands before each group.
    pub prefix: bool,
    // What may stand between groups besides blanks, or 0; whether it must, between two of a line.
    pub mark: u8,
    pub marked: bool,
    // Whether a single digit may be an octet.
    pub single: bool,
    // Whether a group of more digits than two may stand: alone on its line, or alone in the list.
    pub lines: bool,
    pub whole: bool,
}

// Reads a list into `out`.
pub fn read(kind: Kind, text: &[u8], out: &mut [u8]) -> Result<usize, Unread>
    ensures { Grouped kind text.now out.old (read_in result) out.new }
{
    let mut s = State::begun(kind);
    let mut n = 0;
    for i in 0..text.len() + 1 {
        if let Err(why) = s.moved(character(text, i)) {
            return Err(Unread::Bad { at: i, why });
        }
        if s.complete {
            if out.len() <= n {
                return Err(Unread::Long);
            }
            out[n] = s.octet;
            n += 1;
        }
    }
    Ok(n)
}
