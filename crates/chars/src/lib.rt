// Characters and decimal numbers as text, written as far as the buffer has room: what has none is left out, and the index that is returned
// then is the buffer's end (`Puts`). Nothing here knows what the text is of.
#![tactic(auto)]

ghost use Rattle.std.specs.Prelude.{◌≡◌, [], ◌∷◌};
ghost use Rattle.io.specs.Counts.{IsPrefixLen};
ghost use Rattle.chars.specs.Puts.{Puts};
ghost use Rattle.chars.specs.Ascii.{decimal_of};

// Writes b, if there is room.
pub fn put(out: &mut [u8], at: usize, b: u8) -> usize
    ensures prefix_len { IsPrefixLen result out.new }
    ensures puts { Puts at (b ∷ []) out.old result out.new }
{
    if at < out.len() {
        out[at] = b;
        return at + 1;
    }
    out.len()
}

// Writes the octets of s. (By an index, so that the loop's head has a number that a must-fail edit can change: docs/DESIGN-PASS.md, 3.)
pub fn put_all(out: &mut [u8], at: usize, s: &[u8]) -> usize
    ensures prefix_len { IsPrefixLen result out.new }
    ensures puts { Puts at s.now out.old result out.new }
{
    let mut o = at.min(out.len());
    for i in 0..s.len() {
        o = put(out, o, s[i]);
    }
    o
}

// Writes n in decimal.
pub fn put_number(out: &mut [u8], at: usize, n: usize) -> usize
    ensures prefix_len { IsPrefixLen result out.new }
    ensures puts { Puts at (decimal_of n) out.old result out.new }
{
    let mut digits = [0u8; 20];
    let k = io::decimal(n as u64, &mut digits);
    put_all(out, at, &digits[..k])
}
