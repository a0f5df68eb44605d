// How the characters of a line after its offset move a dump: octets, and the text column beside them. `laid` are the octets of the dump so far.
ghost use Rattle.std.specs.Prelude.{◌≡◌, length, get_or};
ghost use Rattle.dumps.specs.Held.{state_in, Moved};
ghost use Rattle.dumps.specs.States as states;

use crate::Style;
use crate::state::{Class, Mode, State, class_of, shown};
use inputs::Why;

impl State {
    // ---- its octets

    // The first digit of an octet, the first or the second of its group, of the value v.
    fn high(self, second: bool, v: u8) -> Self
        ensures { state_in result ≡ states.high_of second v (state_in self) }
    {
        Self {
            mode: Mode::High,
            octet: v,
            second,
            ..self
        }
    }

    // The second digit. Blanks at the front of a text column cannot be told from those before it, nor those at its end from none.
    #[tactic(auto, unfolding(crate::specs::States::low, crate::specs::States::class_of))]
    pub fn low(self, f: Style, x: u8, laid: &[u8]) -> Result<Self, Why>
        ensures { Moved result (states.low f x (length laid.now) (state_in self)) }
    {
        let Class::Digit(v) = class_of(x) else {
            return Err(Why::Form);
        };
        let n = laid.len();
        let octet = self.octet % 16 * 16 + v;
        let whole = Self {
            mode: Mode::Low,
            octet,
            ..self
        };
        if shown(octet, f.prefix) != b' ' {
            return Ok(Self {
                solid: n + 1,
                ..whole
            });
        }
        if self.beside == n {
            return Ok(Self {
                beside: n + 1,
                ..whole
            });
        }
        Ok(whole)
    }

    // What follows an octet.
    pub fn octet(self, f: Style, x: u8, n: usize) -> Result<Self, Why>
        ensures { Moved result (states.octet f x n (state_in self)) }
    {
        match class_of(x) {
            Class::Break => self.cut(f, n),
            Class::Blank => Ok(self.to(Mode::One)),
            Class::Digit(v) if f.pairs && !self.second => Ok(self.high(true, v)),
            Class::Digit(_) | Class::Other => Err(Why::Form),
        }
    }

    // The line ends.
    fn closed(self, n: usize) -> Self
        ensures { state_in result ≡ states.closed n (state_in self) }
    {
        Self {
            mode: Mode::Start,
            before: self.line,
            line: n,
            ..self
        }
    }

    // It ends with a text column: every further line has one.
    fn columned(self, n: usize) -> Self
        ensures { state_in result ≡ states.columned n (state_in self) }
    {
        Self {
            column: true,
            ..self.closed(n)
        }
    }

    // It ends without one: its octets are all shown as blanks, or there is no column in the dump so far, and the form does not ask for one.
    #[tactic(auto, unfolding(crate::specs::States::cut))]
    fn cut(self, f: Style, n: usize) -> Result<Self, Why>
        ensures { Moved result (states.cut f n (state_in self)) }
    {
        if self.line < self.solid && (f.column || self.column) {
            return Err(Why::Column);
        }
        Ok(self.closed(n))
    }

    // What follows the offset; octets, or nothing.
    pub fn after(self, f: Style, x: u8) -> Result<Self, Why>
        ensures { Moved result (states.after f x (state_in self)) }
    {
        match class_of(x) {
            Class::Break => self.alone(f),
            Class::Blank => Ok(self),
            Class::Digit(v) => Ok(self.high(false, v)),
            Class::Other => Err(Why::Form),
        }
    }

    // What follows one blank.
    pub fn one(self, f: Style, x: u8, n: usize) -> Result<Self, Why>
        ensures { Moved result (states.one f x n (state_in self)) }
    {
        match class_of(x) {
            Class::Break => self.cut(f, n),
            Class::Blank => Ok(self.to(Mode::More)),
            Class::Digit(v) => Ok(self.high(false, v)),
            Class::Other => Err(Why::Form),
        }
    }

    // ---- its text column

    // What follows two blanks or more.
    pub fn more(self, f: Style, x: u8, laid: &[u8]) -> Result<Self, Why>
        ensures { Moved result (states.more f x (length laid.now) (get_or laid.now self.beside 0) (state_in self)) }
    {
        match class_of(x) {
            Class::Break => self.cut(f, laid.len()),
            Class::Blank => Ok(self),
            _ if f.opening.is_none() => self.beside(f, x, laid),
            Class::Digit(v) => Ok(self.high(false, v)),
            Class::Other => self.fenced(f, x),
        }
    }

    // What stands before a text column.
    #[tactic(auto, unfolding(crate::specs::States::fenced))]
    fn fenced(self, f: Style, x: u8) -> Result<Self, Why>
        ensures { Moved result (states.fenced f x (state_in self)) }
    {
        match f.opening {
            Some(opening) if x == opening => Ok(Self {
                mode: Mode::Text,
                beside: self.line,
                ..self
            }),
            _ => Err(Why::Form),
        }
    }

    // A character of a text column, which shows the next octet; or what follows where all are shown.
    #[tactic(auto, unfolding(crate::specs::States::beside))]
    fn beside(self, f: Style, x: u8, laid: &[u8]) -> Result<Self, Why>
        ensures { Moved result (states.beside f x (length laid.now) (get_or laid.now self.beside 0) (state_in self)) }
    {
        let Some(b) = laid.get(self.beside) else {
            return self.past(f, x);
        };
        if x != shown(*b, f.prefix) {
            return Err(Why::Column);
        }
        Ok(Self {
            mode: Mode::Text,
            beside: self.beside + 1,
            ..self
        })
    }

    // After all octets: what closes the column, or a blank.
    #[tactic(auto, unfolding(crate::specs::States::past))]
    fn past(self, f: Style, x: u8) -> Result<Self, Why>
        ensures { Moved result (states.past f x (state_in self)) }
    {
        match f.closing {
            None if x == b' ' => Ok(self),
            Some(closing) if x == closing => Ok(self.to(Mode::Closed)),
            _ => Err(Why::Column),
        }
    }

    // The rest of the text column; blanks at its end may be missing where nothing closes it. A carriage return may stand before a line break.
    #[tactic(auto, unfolding(crate::specs::States::text))]
    pub fn text(self, f: Style, x: u8, laid: &[u8]) -> Result<Self, Why>
        ensures { Moved result (states.text f x (length laid.now) (get_or laid.now self.beside 0) (state_in self)) }
    {
        match x {
            b'\r' => Ok(self),
            b'\n' => self.broken(f, laid.len()),
            _ => self.beside(f, x, laid),
        }
    }

    // The column ends with its line.
    #[tactic(auto, unfolding(crate::specs::States::broken))]
    fn broken(self, f: Style, n: usize) -> Result<Self, Why>
        ensures { Moved result (states.broken f n (state_in self)) }
    {
        if f.closing.is_some() || self.beside < self.solid {
            return Err(Why::Column);
        }
        Ok(self.columned(n))
    }

    // What follows a closed column.
    pub fn rest(self, x: u8, n: usize) -> Result<Self, Why>
        ensures { Moved result (states.rest x n (state_in self)) }
    {
        match class_of(x) {
            Class::Break => Ok(self.columned(n)),
            Class::Blank => Ok(self),
            Class::Digit(_) | Class::Other => Err(Why::Form),
        }
    }
}
