// Where a dump stands, and how a character moves it. Octets are counted from the first of the dump; n is how many there are so far.
ghost use Rattle.std.specs.Prelude.{◌≡◌, length, get_or};
ghost use Rattle.dumps.specs.Held.{class_in, Worth, mode_in, state_in, Moved};
ghost use Rattle.dumps.specs.States as states;

use crate::Style;
use hexes::{is_digit, value};
use inputs::Why;

// Before which character of a line the dump stands.
#[derive(Clone, Copy)]
pub enum Mode {
    // The offset.
    Start,
    // The x of 0x.
    Prefix,
    // The rest of the offset.
    Offset,
    // What follows a star: the end of the line.
    Star,
    // What follows a colon: a blank, or the end of the line.
    Gap,
    // The first octet.
    After,
    // The second digit of an octet.
    High,
    // What follows an octet: here alone one is complete.
    Low,
    // What follows one blank after an octet, and two or more.
    One,
    More,
    // The rest of the text column, and what follows it.
    Text,
    Closed,
}

// What a character is, as far as most modes ask; a digit has its value.
#[derive(Clone, Copy)]
pub enum Class {
    Break,
    Blank,
    Digit(u8),
    Other,
}

#[derive(Clone, Copy)]
pub struct State {
    pub mode: Mode,
    // Digits of the offset so far, and their value.
    pub digits: usize,
    pub value: usize,
    // The first digit of an octet, then the octet, and whether it is the second of its group.
    pub octet: u8,
    pub second: bool,
    // The first octet of the line, and of the line before it.
    pub line: usize,
    pub before: usize,
    // The octet that the text column shows next, and the end of those that it has to show.
    pub beside: usize,
    pub solid: usize,
    // Whether a star stands before the line, and up to which octet stars have stood for octets.
    pub star: bool,
    pub upto: usize,
    // Whether an offset stood alone, which ends the dump.
    pub ended: bool,
    // Whether a line has had a text column.
    pub column: bool,
}

#[tactic(auto, unfolding(crate::specs::States::class_of))]
pub fn class_of(x: u8) -> Class
    ensures class { class_in result ≡ states.class_of x }
    ensures worth { Worth x result }
{
    if is_digit(x) {
        return Class::Digit(value(x));
    }
    match x {
        b'\n' => Class::Break,
        b' ' | b'\t' | b'\r' => Class::Blank,
        _ => Class::Other,
    }
}

// The character that a text column has for an octet; `dot` is whether a blank is a dot.
#[tactic(auto, unfolding(crate::specs::States::shown_of))]
pub fn shown(b: u8, dot: bool) -> u8
    ensures { result ≡ states.shown_of dot b }
{
    match b {
        b' ' if dot => b'.',
        b' '..=b'~' => b,
        _ => b'.',
    }
}

impl State {
    pub fn begun() -> Self
        ensures { state_in result ≡ states.begun }
    {
        Self {
            mode: Mode::Start,
            digits: 0,
            value: 0,
            octet: 0,
            second: false,
            line: 0,
            before: 0,
            beside: 0,
            solid: 0,
            star: false,
            upto: 0,
            ended: false,
            column: false,
        }
    }

    pub fn to(self, mode: Mode) -> Self
        ensures { state_in result ≡ states.to (mode_in mode) (state_in self) }
    {
        Self { mode, ..self }
    }

    // Moved by a character, by where the dump stands; `laid` are the octets so far.
    #[tactic(auto, unfolding(crate::specs::States::moved, crate::specs::States::fronted, crate::specs::States::within, crate::specs::States::behind))]
    pub fn moved(self, f: Style, x: u8, laid: &[u8]) -> Result<Self, Why>
        ensures { Moved result (states.moved f x (length laid.now) (get_or laid.now self.beside 0) (state_in self)) }
    {
        match self.mode {
            Mode::Start => self.start(f, x),
            Mode::Prefix => self.prefixed(x),
            Mode::Offset => self.offset(f, x, laid.len()),
            Mode::Star => self.starred(x),
            Mode::Gap => self.gap(f, x),
            Mode::After => self.after(f, x),
            Mode::High => self.low(f, x, laid),
            Mode::Low => self.octet(f, x, laid.len()),
            Mode::One => self.one(f, x, laid.len()),
            Mode::More => self.more(f, x, laid),
            Mode::Text => self.text(f, x, laid),
            Mode::Closed => self.rest(x, laid.len()),
        }
    }

    // ---- a line's front

    // The first digit of an offset, of the value v.
    fn first(self, f: Style, x: u8, v: u8) -> Result<Self, Why>
        ensures { Moved result (states.first_of f x v (state_in self)) }
    {
        if self.ended {
            return Err(Why::Offset);
        }
        if !f.prefix {
            return Ok(Self {
                mode: Mode::Offset,
                digits: 1,
                value: usize::from(v),
                ..self
            });
        }
        if x == b'0' {
            return Ok(self.to(Mode::Prefix));
        }
        Err(Why::Form)
    }

    // The x of 0x.
    #[tactic(auto, unfolding(crate::specs::States::prefixed))]
    fn prefixed(self, x: u8) -> Result<Self, Why>
        ensures { Moved result (states.prefixed x (state_in self)) }
    {
        if x != b'x' {
            return Err(Why::Form);
        }
        Ok(Self {
            mode: Mode::Offset,
            digits: 0,
            value: 0,
            ..self
        })
    }

    // A further digit of an offset. No input has 65,536 octets.
    fn further(self, f: Style, v: u8) -> Result<Self, Why>
        ensures { Moved result (states.further_of f v (state_in self)) }
    {
        if f.digits <= self.digits {
            return Err(Why::Form);
        }
        if 65535 < self.value {
            return Err(Why::Offset);
        }
        Ok(Self {
            digits: self.digits + 1,
            value: 16 * self.value + usize::from(v),
            ..self
        })
    }

    // The offset is whole: it is the number of octets before its line, or after a star a greater one.
    #[tactic(auto, unfolding(crate::specs::States::counted))]
    fn counted(self, f: Style, n: usize) -> Result<Self, Why>
        ensures { Moved result (states.counted f n (state_in self)) }
    {
        if self.digits != f.digits {
            return Err(Why::Form);
        }
        if self.star {
            if self.value <= n {
                return Err(Why::Offset);
            }
            let filled = Self {
                star: false,
                upto: self.value,
                ..self
            };
            return Ok(filled.opened(self.value));
        }
        if self.value != n {
            return Err(Why::Offset);
        }
        Ok(self.opened(n))
    }

    // The line's octets begin.
    fn opened(self, n: usize) -> Self
        ensures { state_in result ≡ states.opened n (state_in self) }
    {
        Self {
            mode: Mode::After,
            line: n,
            beside: n,
            solid: n,
            ..self
        }
    }

    // The dump ends.
    fn finished(self) -> Self
        ensures { state_in result ≡ states.finished (state_in self) }
    {
        Self {
            mode: Mode::Start,
            ended: true,
            ..self
        }
    }

    // An offset stands alone, which ends the dump where the style has such an end.
    #[tactic(auto, unfolding(crate::specs::States::alone))]
    pub fn alone(self, f: Style) -> Result<Self, Why>
        ensures { Moved result (states.alone f (state_in self)) }
    {
        if f.ends {
            return Ok(self.finished());
        }
        Err(Why::Form)
    }

    // What follows the digits of an offset.
    #[tactic(auto, unfolding(crate::specs::States::alone, crate::specs::States::further))]
    fn offset(self, f: Style, x: u8, n: usize) -> Result<Self, Why>
        ensures { Moved result (states.offset f x n (state_in self)) }
    {
        match class_of(x) {
            Class::Digit(v) => self.further(f, v),
            Class::Break if f.ends => Ok(self.counted(f, n)?.finished()),
            Class::Blank if !f.colon => self.counted(f, n),
            Class::Other if f.colon && x == b':' => Ok(self.counted(f, n)?.to(Mode::Gap)),
            _ => Err(Why::Form),
        }
    }

    // What follows a colon.
    fn gap(self, f: Style, x: u8) -> Result<Self, Why>
        ensures { Moved result (states.gap f x (state_in self)) }
    {
        match class_of(x) {
            Class::Break => self.alone(f),
            Class::Blank => Ok(self.to(Mode::After)),
            Class::Digit(_) | Class::Other => Err(Why::Form),
        }
    }

    #[tactic(auto, unfolding(crate::specs::States::first))]
    fn start(self, f: Style, x: u8) -> Result<Self, Why>
        ensures { Moved result (states.start f x (state_in self)) }
    {
        match class_of(x) {
            Class::Break | Class::Blank => Ok(self),
            Class::Digit(v) => self.first(f, x, v),
            Class::Other => self.star(x),
        }
    }

    // A star, after a line that it can stand for.
    #[tactic(auto, unfolding(crate::specs::States::star_at))]
    fn star(self, x: u8) -> Result<Self, Why>
        ensures { Moved result (states.star_at x (state_in self)) }
    {
        if x != b'*' || self.ended || self.star || self.line <= self.before {
            return Err(Why::Form);
        }
        Ok(self.to(Mode::Star))
    }

    fn starred(self, x: u8) -> Result<Self, Why>
        ensures { Moved result (states.starred x (state_in self)) }
    {
        match class_of(x) {
            Class::Break => Ok(Self {
                mode: Mode::Start,
                star: true,
                ..self
            }),
            Class::Blank => Ok(self),
            Class::Digit(_) | Class::Other => Err(Why::Form),
        }
    }
}
