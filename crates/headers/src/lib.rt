// The values of options, as DHCP clients hand them to hooks, made options again (docs/COMMAND.md, "Input"). A value is the octets of an option
// after its header; it gets its header back as writing has it (RULES E2, E3, W6): in carrier 1 as options 162 of 255 octets and a last one with
// the rest, in carrier 3 with zeros up to a unit of eight. Nothing here looks inside a value.
#![tactic(auto)]

ghost use Rattle.std.specs.Prelude.{◌≡◌, false, ◌+◌, ◌≤◌, ◌<◌, length};
ghost use Rattle.inputs.specs.Read.{read_in};
ghost use Rattle.octets.specs.Numbers.{zeros};
ghost use Rattle.octets.specs.Over.{Wrote};
ghost use Rattle.carriers.specs.Carriers.{is_joined};
ghost use Rattle.pieces.specs.Pieces.{cut_of};
ghost use Rattle.frames.specs.Emit.{option_of};
ghost use Rattle.headers.specs.Headers.{most_of, gap_of, padded_of, headed_of, put_of, add_of, Puts, Adds, size_of, unread_of};

use carriers::Carrier;
use inputs::{Unread, Why};
use numbers::Limit;

// The most octets that a length of two octets says.
const MOST: usize = 65535;

// Why the options of a value are not put.
#[derive(Clone, Copy, PartialEq, Eq)]
pub enum Misfit {
    // There is no room for them.
    NoRoom,
    // No option of the carrier holds it.
    Large,
}

impl From<Misfit> for Unread {
    ghost from_gives = { λ m u. u ≡ unread_of m };

    fn from(m: Misfit) -> Unread {
        match m {
            Misfit::NoRoom => Unread::Long,
            Misfit::Large => Unread::Bad {
                at: 0,
                why: Why::Value,
            },
        }
    }
}

// The most octets of a value.
fn most(c: Carrier) -> usize
    ensures { result ≡ most_of c }
{
    let f = c.facts();
    let header = c.header_size();
    if f.eights {
        return Limit::OPTION - header;
    }
    MOST
}

// The zeros after a value of n octets.
fn gap(c: Carrier, n: usize) -> usize
    requires { n < 65536 }
    ensures { (result ≡ gap_of c n) × (result < 8) }
{
    let f = c.facts();
    let whole = c.header_size() + n;
    if f.eights {
        return (Carrier::UNIT - whole % Carrier::UNIT) % Carrier::UNIT;
    }
    0
}

// Octets of the options of a value of n octets.
fn size(c: Carrier, n: usize) -> usize
    requires { n < 65536 }
    ensures { result ≡ size_of c n }
{
    let f = c.facts();
    let whole = c.header_size() + (n + gap(c, n));
    if f.joined {
        return pieces::cut_size(n);
    }
    whole
}

// Writes n zeros.
fn put_zeros(out: &mut [u8], at: usize, n: usize) -> usize
    requires { (at + n ≤ length out.old) × (n < 8) }
    ensures { Wrote at (zeros n) out.old result out.new }
{
    let padding = [0u8; Carrier::UNIT];
    octets::copy(out, at, &padding[..n])
}

// Writes the one option of a value to the front.
fn put_option(out: &mut [u8], c: Carrier, value: &[u8]) -> usize
    requires c_value { (is_joined c ≡ false) × (length value.now ≤ most_of c) }
    requires value_in_bounds { length (option_of c (padded_of c value.now)) ≤ length out.old }
    ensures { Wrote 0 (option_of c (padded_of c value.now)) out.old result out.new }
{
    let n = value.len();
    let zeros = gap(c, n);
    let body = frames::put_header(out, 0, c, n + zeros);
    let end = octets::copy(out, body, value);
    put_zeros(out, end, zeros)
}

// Writes the options 162 of a value to the front: it is copied to where they end, and cut there.
fn put_cut(out: &mut [u8], value: &[u8]) -> usize
    requires { (length value.now < 65536) × (length (cut_of value.now) ≤ length out.old) }
    ensures { Wrote 0 (cut_of value.now) out.old result out.new }
{
    let n = value.len();
    let from = pieces::cut_size(n) - n;
    octets::copy(out, from, value);
    pieces::cut_within(out, from, n)
}

// Writes the options of a value to the front.
fn lay(out: &mut [u8], c: Carrier, value: &[u8]) -> usize
    requires value_len_bound { length value.now ≤ most_of c }
    requires value_in_bounds { length (headed_of c value.now) ≤ length out.old }
    ensures { Wrote 0 (headed_of c value.now) out.old result out.new }
{
    let f = c.facts();
    if f.joined {
        return put_cut(out, value);
    }
    put_option(out, c, value)
}

// Puts the options of a value to the front of `out`, and returns how many octets they have; a value of no octets has none.
pub fn put(out: &mut [u8], c: Carrier, value: &[u8]) -> Result<usize, Misfit>
    ensures { Puts (put_of out.old c value.now) result out.new }
{
    let n = value.len();
    if n == 0 {
        return Ok(0);
    }
    if most(c) < n {
        return Err(Misfit::Large);
    }
    if out.len() < size(c, n) {
        return Err(Misfit::NoRoom);
    }
    Ok(lay(out, c, value))
}

// Puts the options of a value after the first n octets of `out`.
pub fn add(out: &mut [u8], n: usize, c: Carrier, value: &[u8]) -> Result<usize, Unread>
    requires { n ≤ length out.old }
    ensures { Adds (add_of out.old n c value.now) (read_in result) out.new }
{
    let size = put(&mut out[n..], c, value)?;
    Ok(n + size)
}
