// Names as text, as carriers 4 and 5 have them (RULES N4: the labels joined by dots, without a final dot, 1 to 253 octets), and
// the two conversions between a name's text and its wire form, which the record sheet holds.
// The check answers the place of the first octet at which no acceptable name can continue. The label rule itself is the crate `names`'s.
// A conversion judges nothing: it takes any octets that fit, and its laws say what holds of acceptable ones.
#![tactic(auto)]

ghost use Rattle.std.specs.Prelude.{◌≡◌, ◌+◌, ◌-◌, ◌≤◌, length};
ghost use Rattle.octets.specs.Over.{Wrote};
ghost use Rattle.names.specs.Answered.{answer_in};
ghost use Rattle.texts.specs.Texts.{wire_of, text_of};
ghost use Rattle.texts.specs.TextCheck.{text_check, text_automaton, letter, hyphen, after};
ghost use Rattle.texts.specs.Right.{Right};

use names::GOOD;

// A label has at most 63 octets: so many after its first.
const REST: usize = 62;

// So many octets decide: the 254th is never good, whatever follows.
const DECIDING: usize = 254;

// How many octets a label may have after its first at `at`, within the text's 253.
fn left_after(at: usize) -> usize
    requires { at ≤ 252 }
    ensures { result ≡ after at }
{
    REST.min(252 - at)
}

// The place at which the first n octets of `text` stop being a name, or GOOD: after a letter or a digit of a label that may have `label`
// octets more, where `left` of the n are left. Each call has fewer, and the place is n - left.
// Over a reference to the slice, and with a number as the answer, the calls compile to jumps.
#[cycle(after_hyphen_after_letter)]
fn after_letter(text: &&[u8], n: usize, left: usize, label: usize) -> usize
    requires { (n ≤ 254) × (n ≤ length text.now.now) × (left ≤ n) }
    ensures { result ≡ answer_in text_automaton text.now.now n (letter label) left }
{
    if left == 0 {
        return GOOD;
    }
    let at = n - left;
    let rest = left - 1;
    let b = text[at];
    if names::is_alnum(b) {
        if label == 0 {
            return at;
        }
        return after_letter(text, n, rest, label - 1);
    }
    if b == b'-' {
        if label <= 1 {
            return at;
        }
        return after_hyphen(text, n, rest, label - 1);
    }
    if b != b'.' {
        return at;
    }
    if 251 < at {
        return at;
    }
    if rest == 0 {
        return n;
    }
    let first = at + 1;
    if names::is_alnum(text[first]) {
        return after_letter(text, n, rest - 1, left_after(first));
    }
    first
}

// The same after a hyphen, where one octet at least is to come.
#[cycle(after_hyphen_after_letter)]
fn after_hyphen(text: &&[u8], n: usize, left: usize, label: usize) -> usize
    requires { (n ≤ 254) × (n ≤ length text.now.now) × (left ≤ n) × (1 ≤ label) }
    ensures { result ≡ answer_in text_automaton text.now.now n (hyphen label) left }
{
    if left == 0 {
        return n;
    }
    let at = n - left;
    let rest = left - 1;
    let b = text[at];
    if names::is_alnum(b) {
        return after_letter(text, n, rest, label - 1);
    }
    if b != b'-' {
        return at;
    }
    if label <= 1 {
        return at;
    }
    after_hyphen(text, n, rest, label - 1)
}

// Whether s is a name as text, filling s exactly, and the first bad place if it is not.
pub fn check_text(s: &[u8]) -> Result<(), usize>
    ensures value { result ≡ text_check s.now }
    ensures right { Right s.now result }
{
    let [first, ..] = s else {
        return Err(0);
    };
    if !names::is_alnum(*first) {
        return Err(0);
    }
    let n = DECIDING.min(s.len());
    let text = &s[..];
    names::name_of(after_letter(&text, n, n - 1, REST))
}

// Writes the wire form of a text at `at`, and returns the index after it. It goes from the end to the front, so that the length of a
// label is known where its length octet stands.
pub fn to_wire(out: &mut [u8], at: usize, text: &[u8]) -> usize
    requires { (at + length text.now + 2 ≤ length out.old) × (length text.now ≤ 253) }
    ensures { Wrote at (wire_of text.now) out.old result out.new }
{
    let n = text.len();
    let first = at + 1;
    let mut label: u8 = 0;
    out[first + n] = 0;
    for i in (0..n).rev() {
        let b = text[i];
        if b == b'.' {
            out[first + i] = label;
            label = 0;
        } else {
            out[first + i] = b;
            label += 1;
        }
    }
    out[at] = label;
    first + n + 1
}

// Writes the text of a wire form at `at`, and returns the index after it.
pub fn to_text(out: &mut [u8], at: usize, wire: &[u8]) -> usize
    requires { (2 ≤ length wire.now) × (at + (length wire.now - 2) ≤ length out.old) }
    ensures { Wrote at (text_of wire.now) out.old result out.new }
{
    let n = wire.len() - 2;
    let mut left = wire[0];
    for i in 0..n {
        let place = at + i;
        let b = wire[i + 1];
        if left == 0 {
            out[place] = b'.';
            left = b;
        } else {
            out[place] = b;
            left -= 1;
        }
    }
    at + n
}
