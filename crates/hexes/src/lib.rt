// Octets given as hexadecimal text, as Wireshark copies a byte string: digits in pairs, upper or lower case, with or without spaces,
// tabs, colons and line breaks between the pairs. `decode` reads such a text into a lent buffer: a first pass checks and counts, then
// the room is tested, and a second pass writes, so that a text that is refused leaves the buffer as it was. `put_octet` and `put_octets` write
// the digits of octets, as far as there is room. Nothing here knows what the octets mean.
#![tactic(auto)]

ghost use Rattle.std.specs.Prelude.{◌≡◌, true, ◌+◌, ◌≤◌, ◌<◌, length};
ghost use Rattle.octets.specs.Over.{Wrote};
ghost use Rattle.io.specs.Counts.{IsPrefixLen};
ghost use Rattle.chars.specs.Puts.{Puts};
ghost use Rattle.hexes.specs.Hexes as hexes;
ghost use Rattle.hexes.specs.Hexes.{read_hex, digit_of, two, hex_of};
ghost use Rattle.hexes.specs.Decoding.{Decoded, octets_in, size_in, counted};

use chars::put;

// Why a text is not decoded.
#[derive(Clone, Copy, PartialEq, Eq)]
pub enum Undecoded {
    // The buffer has no room for the octets.
    NoRoom,
    // The text is no hexadecimal text.
    Other,
}

// Whether x is a digit, of either case.
pub fn is_digit(x: u8) -> bool
    ensures { result ≡ hexes.digit x }
{
    x.is_ascii_hexdigit()
}

// The value of a digit.
pub fn value(x: u8) -> u8
    requires { hexes.digit x ≡ true }
    ensures value { result ≡ hexes.value x }
    ensures upper_bound { result < 16 }
{
    match x {
        ..b'A' => x - b'0',
        b'A'..b'a' => x - b'A' + 10,
        _ => x - b'a' + 10,
    }
}

// Whether x may stand before, between and after pairs.
#[tactic(auto, unfolding(crate::specs::Hexes::separator))]
pub fn is_separator(x: u8) -> bool
    ensures { result ≡ hexes.separator x }
{
    matches!(x, b' ' | b'\t' | b'\n' | b'\r' | b':')
}

// How many octets a hexadecimal text spells, one at least.
fn count(text: &[u8]) -> Option<usize>
    ensures { result ≡ counted (read_hex text.now) }
{
    let mut n = 0;
    let mut rest = text;
    while let [x, after @ ..] = rest {
        rest = after;
        if is_separator(*x) {
            continue;
        }
        let [y, after @ ..] = rest else {
            return None;
        };
        if !is_digit(*x) {
            return None;
        }
        if !is_digit(*y) {
            return None;
        }
        rest = after;
        n += 1;
    }
    (0 < n).then_some(n)
}

// Writes the octets of a hexadecimal text at the front of `out`, and returns how many.
fn lay(text: &[u8], out: &mut [u8]) -> usize
    requires { (1 ≤ size_in (read_hex text.now)) × (size_in (read_hex text.now) ≤ length out.old) }
    ensures { Wrote 0 (octets_in (read_hex text.now)) out.old result out.new }
{
    let mut n = 0;
    let mut rest = text;
    while let [x, after @ ..] = rest {
        rest = after;
        if is_separator(*x) {
            continue;
        }
        let [y, after @ ..] = rest else {
            unreachable!();
        };
        out[n] = value(*x) * 16 + value(*y);
        rest = after;
        n += 1;
    }
    n
}

// Reads hexadecimal text into `out`: how many octets; or why it is not decoded, and then nothing is written.
pub fn decode(text: &[u8], out: &mut [u8]) -> Result<usize, Undecoded>
    ensures { Decoded text.now out.old result out.new }
{
    let n = count(text).ok_or(Undecoded::Other)?;
    if out.len() < n {
        return Err(Undecoded::NoRoom);
    }
    Ok(lay(text, out))
}

// The digit of a value below 16, in lower case.
fn digit_of(v: u8) -> u8
    requires { v < 16 }
    ensures { result ≡ digit_of v }
{
    if v < 10 {
        return b'0' + v;
    }
    b'a' - 10 + v
}

// Writes the two digits of b, in lower case.
pub fn put_octet(out: &mut [u8], at: usize, b: u8) -> usize
    ensures prefix_len { IsPrefixLen result out.new }
    ensures puts { Puts at (two b) out.old result out.new }
{
    let next = put(out, at, digit_of(b / 16));
    put(out, next, digit_of(b % 16))
}

// Writes the digits of the octets of s.
pub fn put_octets(out: &mut [u8], at: usize, s: &[u8]) -> usize
    ensures prefix_len { IsPrefixLen result out.new }
    ensures puts { Puts at (hex_of s.now) out.old result out.new }
{
    let mut o = at.min(out.len());
    for b in s {
        o = put_octet(out, o, *b);
    }
    o
}
