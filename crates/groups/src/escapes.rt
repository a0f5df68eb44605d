// Octets as C and the shell write them in strings: \x and two digits each, with blanks and quotation marks between them.
ghost use Rattle.std.specs.Prelude.{◌≡◌};
ghost use Rattle.inputs.specs.Read.{read_in};
ghost use Rattle.groups.specs.Escapes as escapes;
ghost use Rattle.groups.specs.Escapes.{Escaped};
ghost use Rattle.groups.specs.EscapesHeld.{number_of, at_in};

use hexes::{is_digit, value};
use inputs::{Unread, Why, character};

// Where such a text stands.
#[derive(Clone, Copy)]
pub enum At {
    // Between octets.
    Between,
    // After the backslash.
    Backslash,
    // After the x.
    Ex,
    // After the first digit, and the second.
    High,
    Low,
}

// Where a character leads, if it may stand there.
fn next(at: At, x: u8) -> Option<At>
    ensures { at_in result ≡ escapes.next (number_of at) x }
{
    match at {
        At::Backslash if x == b'x' => Some(At::Ex),
        At::Ex if is_digit(x) => Some(At::High),
        At::High if is_digit(x) => Some(At::Low),
        At::Between | At::Low => match x {
            b'\\' => Some(At::Backslash),
            b'"' | b' ' | b'\t' | b'\r' | b'\n' => Some(At::Between),
            _ => None,
        },
        _ => None,
    }
}

// The octet of two digits; of other characters any octet.
fn octet(high: u8, low: u8) -> u8
    ensures { result ≡ escapes.octet_of high low }
{
    if is_digit(high) && is_digit(low) {
        return value(high) * 16 + value(low);
    }
    0
}

// Reads such a text into `out`.
pub fn read(text: &[u8], out: &mut [u8]) -> Result<usize, Unread>
    ensures { Escaped text.now out.old (read_in result) out.new }
{
    let mut at = At::Between;
    let mut high = b'0';
    let mut n = 0;
    for i in 0..=text.len() {
        let x = character(text, i);
        let Some(to) = next(at, x) else {
            return Err(Unread::Bad {
                at: i,
                why: Why::Form,
            });
        };
        at = to;
        if let At::Low = to {
            if out.len() <= n {
                return Err(Unread::Long);
            }
            out[n] = octet(high, x);
            n += 1;
        }
        high = x;
    }
    Ok(n)
}
