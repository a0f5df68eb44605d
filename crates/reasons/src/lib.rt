// What is wrong in a name or in a field of service parameters, more closely than by the fault's number: why a name is no host name
// (RULES R22), by the octet at its first bad place (`labels`), and which parameter is at fault (RULES R26 to R28, `fields`). For people: no
// call of the library asks here, and nothing is judged anew. `Exactly` says that what is given is true.
#![tactic(auto)]

ghost use Rattle.std.specs.Prelude.{◌≡◌, ◌<◌, IfSome};
ghost use Rattle.reasons.specs.Reason as reason;
ghost use Rattle.reasons.specs.Names.{name_reason};
ghost use Rattle.reasons.specs.Params.{param_of, param_for};

mod fields;
mod labels;

use fields::{unordered, wrong};
use labels::{text_reason, wire_reason};

// Why a name is no host name.
#[derive(Clone, Copy, PartialEq, Eq)]
pub enum Reason {
    // The octets stop before the root octet, or within a label.
    Cut = 1,
    // There is no label.
    Empty = 2,
    // A pointer into a message (RFC 1035 §4.1.4) in the place of a length.
    Pointer = 3,
    // A label of more than 63 octets.
    Label = 4,
    // A name of more than 255 octets, as text of more than 253.
    Long = 5,
    // Octets after the root octet.
    After = 6,
    Underscore = 7,
    // A hyphen at the beginning or the end of a label.
    Hyphen = 8,
    // A dot at the beginning or the end, or two side by side.
    Dot = 9,
    // An octet that is no letter, digit or hyphen.
    Octet = 10,
}

impl Reason {
    // The number under which `words` has its words.
    pub fn number(self) -> usize
        ensures { result ≡ reason.number_of self }
    {
        self as usize
    }
}

// The number of a reason, or 0 for none.
pub fn number_in(known: Option<Reason>) -> usize
    ensures { result ≡ reason.number_in known }
{
    match known {
        Some(known) => known.number(),
        None => 0,
    }
}

// What stands at a place of a name in wire form.
#[derive(Clone, Copy)]
pub enum Mark {
    // A length octet, or the root octet.
    Length,
    // An octet of a label.
    Label,
    // What follows the root octet.
    After,
}

// A service parameter: where in its field it begins, and its key, where its octets are all there. Where there is no parameter, the place is 0,
// without a key: no Option of a parameter, since what is believed (`specs/Params`) has one answer for both.
#[derive(Clone, Copy)]
pub struct Param {
    pub at: usize,
    pub key: Option<usize>,
}

impl Param {
    // Above every key of 16 bits: the number of no key.
    pub const NONE: usize = 65536;
}

// Why a name that is bad at a place is no host name, as text (RULES N4) or in wire form (RULES N1).
pub fn name_reason(text: bool, s: &[u8], at: usize) -> Reason
    ensures { reason.number_of result ≡ name_reason text s.now at }
{
    if text {
        return text_reason(s, at);
    }
    wire_reason(s, at)
}

// The parameter that the fault of a field is about (RULES R26 to R28): the first that breaks its rule. No other number is about a parameter.
pub fn param_for(fault: usize, p: &[u8]) -> Param
    ensures value { param_of result ≡ param_for fault p.now }
    ensures key { IfSome result.key (λ k. k < 65536) }
{
    match fault {
        26 => unordered(p),
        27 => wrong(true, p),
        28 => wrong(false, p),
        _ => Param { at: 0, key: None },
    }
}
