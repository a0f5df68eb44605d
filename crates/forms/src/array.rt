// A C array: what stands before its brace is passed over; after its closing brace nothing follows but a semicolon and the number of its octets, as xxd -i
// writes it.
ghost use Rattle.std.specs.Prelude.{◌≡◌, ◌<◌, length};
ghost use Rattle.inputs.specs.Read.{read_in};
ghost use Rattle.forms.specs.Arrays as arrays;
ghost use Rattle.forms.specs.Arrays.{phase_in, after_in, Stepped};

use crate::places;
use groups::Kind;
use inputs::{Unread, Why, character, is_blank};

// Before what the tail of an array stands.
#[derive(Clone, Copy)]
pub enum Phase {
    // The array's semicolon, or the end.
    Semicolon,
    // The declaration of a length, or the end.
    Declaration,
    // Its =.
    Equals,
    // The length.
    Length,
    // The rest of it.
    Digits,
    // Its semicolon.
    Close,
    // The end.
    End,
}

// How far the tail of an array has been read, and the length so far.
#[derive(Clone, Copy)]
pub struct After {
    pub phase: Phase,
    pub length: usize,
}

// Whether x may stand in the declaration of a length, before its =; blanks may too.
#[tactic(auto, unfolding(crate::specs::Arrays::word, crate::specs::Arrays::decimal, crate::specs::Arrays::letter))]
fn is_word(x: u8) -> bool
    ensures { result ≡ arrays.word x }
{
    matches!(x, b'0'..=b'9' | b'A'..=b'Z' | b'a'..=b'z' | b'[' | b']' | b'_')
}

impl After {
    fn begun() -> Self
        ensures { after_in result ≡ arrays.begun }
    {
        Self {
            phase: Phase::Semicolon,
            length: 0,
        }
    }

    fn to(self, phase: Phase) -> Self
        ensures { after_in result ≡ arrays.to (phase_in phase) (after_in self) }
    {
        Self { phase, ..self }
    }

    // A digit of the length, of the value v; no input has 65,536 octets.
    fn digit(self, v: u8) -> Result<Self, Why>
        ensures { Stepped result (arrays.digit_of v (after_in self)) }
    {
        if 65535 < self.length {
            return Err(Why::Count);
        }
        Ok(Self {
            phase: Phase::Digits,
            length: 10 * self.length + usize::from(v),
        })
    }

    // The rest of the length, which is the number n of octets.
    #[tactic(auto, unfolding(crate::specs::Arrays::digits, crate::specs::Arrays::decimal))]
    fn digits(self, x: u8, n: usize) -> Result<Self, Why>
        ensures { Stepped result (arrays.digits x n (after_in self)) }
    {
        match x {
            b'0'..=b'9' => self.digit(x - b'0'),
            _ if self.length != n => Err(Why::Count),
            _ if is_blank(x) => Ok(self.to(Phase::Close)),
            b';' => Ok(self.to(Phase::End)),
            _ => Err(Why::Form),
        }
    }

    // After a character.
    #[tactic(auto, unfolding(crate::specs::Arrays::after, crate::specs::Arrays::early, crate::specs::Arrays::late, crate::specs::Arrays::decimal))]
    fn after(self, x: u8, n: usize) -> Result<Self, Why>
        ensures { Stepped result (arrays.after x n (after_in self)) }
    {
        match (self.phase, x) {
            (Phase::Digits, _) => self.digits(x, n),
            _ if is_blank(x) => Ok(self),
            (Phase::Semicolon, b';') => Ok(self.to(Phase::Declaration)),
            (Phase::Declaration, _) if is_word(x) => Ok(self.to(Phase::Equals)),
            (Phase::Equals, _) if is_word(x) => Ok(self),
            (Phase::Equals, b'=') => Ok(self.to(Phase::Length)),
            (Phase::Length, b'0'..=b'9') => self.digit(x - b'0'),
            (Phase::Close, b';') => Ok(self.to(Phase::End)),
            _ => Err(Why::Form),
        }
    }

    // At the end of the text: after the array, or after its length.
    #[tactic(auto, unfolding(crate::specs::Arrays::ended_of))]
    fn ended(self, at: usize, n: usize) -> Result<usize, Unread>
        ensures { read_in result ≡ arrays.ended_of at n (after_in self) }
    {
        match self.phase {
            Phase::Semicolon | Phase::Declaration | Phase::End => Ok(n),
            _ => Err(Unread::Bad { at, why: Why::Form }),
        }
    }
}

// What follows the closing brace of an array of n octets, from `from` on.
fn tail(text: &[u8], from: usize, n: usize) -> Result<usize, Unread>
    ensures { read_in result ≡ arrays.tail_of from n text.now }
{
    let mut s = After::begun();
    for i in from..=text.len() {
        match s.after(character(text, i), n) {
            Ok(t) => s = t,
            Err(why) => {
                return Err(Unread::Bad { at: i, why });
            }
        }
    }
    s.ended(text.len(), n)
}

// After an array's octets: its closing brace stands at `close`, or is missing.
#[tactic(auto, unfolding(crate::specs::Arrays::closed_of))]
fn closed(text: &[u8], close: usize, n: usize) -> Result<usize, Unread>
    ensures { read_in result ≡ arrays.closed_of close n text.now }
{
    if text.len() <= close {
        return Err(Unread::Bad {
            at: text.len(),
            why: Why::Form,
        });
    }
    tail(text, close + 1, n)
}

// The lists of arrays: 0x before each octet, commas between them.
fn elements() -> Kind
    ensures { result ≡ arrays.elements }
{
    Kind {
        prefix: true,
        mark: b',',
        marked: false,
        single: true,
        lines: false,
        whole: false,
    }
}

// Reads an array whose opening brace stands at `brace`.
pub fn read(text: &[u8], brace: usize, out: &mut [u8]) -> Result<usize, Unread>
    requires { brace < length text.now }
    ensures { arrays.Arrayed brace text.now out.old (read_in result) out.new }
{
    let body = brace + 1;
    let close = places::place(text, body, b'}');
    match groups::read(elements(), &text[body..close], out) {
        Ok(n) => closed(text, close, n),
        Err(unread) => Err(unread.back(body)),
    }
}
