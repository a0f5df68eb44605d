// How a character moves a list.
ghost use Rattle.std.specs.Prelude.{◌≡◌, true};
ghost use Rattle.hexes.specs.Hexes as hexes;
ghost use Rattle.groups.specs.States as states;
ghost use Rattle.groups.specs.Held.{state_in, Moved, led};

use crate::Kind;
use crate::state::State;
use hexes::{is_digit, value};
use inputs::{Why, is_blank};

// One digit more: 1, 2, and then 3 and 4 in turn.
fn more(digits: usize) -> usize
    ensures { result ≡ states.more digits }
{
    if digits < 4 { digits + 1 } else { 3 }
}

impl State {
    pub fn begun(kind: Kind) -> Self
        ensures begun { state_in result ≡ states.begun }
        ensures kind { result.kind ≡ kind }
    {
        Self {
            kind,
            front: 0,
            digits: 0,
            octet: 0,
            complete: false,
            after: false,
            some: false,
            several: false,
            wide: false,
        }
    }

    // ---- a group

    // A digit. Every second one completes an octet.
    fn digit(&mut self, x: u8)
        requires { hexes.digit x ≡ true }
        ensures moved { state_in self.new ≡ states.digit_on x (state_in self.old) }
        ensures kind { self.new.kind ≡ self.old.kind }
    {
        self.digits = more(self.digits);
        if self.digits % 2 == 1 {
            self.octet = value(x);
            return;
        }
        self.octet = self.octet % 16 * 16 + value(x);
        self.complete = true;
    }

    // A character of 0x.
    fn prefix(&mut self, x: u8) -> Result<(), Why>
        ensures { Moved self.old.kind (led self.new result) (states.prefix x (state_in self.old)) }
    {
        self.front = match (self.front, x) {
            (0, b'0') => 1,
            (1.., b'x' | b'X') => 2,
            _ => return Err(Why::Form),
        };
        Ok(())
    }

    // A character of a group; a mark must stand before it where groups on a line want one.
    fn within(&mut self, x: u8) -> Result<(), Why>
        ensures { Moved self.old.kind (led self.new result) (states.within self.old.kind x (state_in self.old)) }
    {
        if self.kind.marked && self.after {
            return Err(Why::Form);
        }
        if self.kind.prefix && self.front < 2 {
            return self.prefix(x);
        }
        if is_digit(x) {
            self.digit(x);
            return Ok(());
        }
        Err(Why::Form)
    }

    // ---- its end

    // A group has ended. One of more than two digits stands alone on its line, or in the list, if anywhere.
    fn ended(&mut self, wide: bool) -> Result<(), Why>
        ensures { Moved self.old.kind (led self.new result) (states.allowed self.old.kind (states.ended wide (state_in self.old))) }
    {
        let several = self.several || self.some;
        let wide = self.wide || wide;
        if wide && (several || !(self.kind.lines || self.kind.whole)) {
            return Err(Why::Groups);
        }
        self.several = several;
        self.wide = wide;
        self.some = true;
        self.after = true;
        self.front = 0;
        self.digits = 0;
        Ok(())
    }

    // What stands between groups ends one, where one has begun. A group of one digit is an octet, or has a digit too few.
    fn close(&mut self) -> Result<(), Why>
        ensures { Moved self.old.kind (led self.new result) (states.close self.old.kind (state_in self.old)) }
    {
        match self.digits {
            0 if self.front == 0 => Ok(()),
            1 if self.kind.single => {
                self.complete = true;
                self.ended(false)
            }
            0 | 1 | 3 => Err(Why::Form),
            digits => self.ended(2 < digits),
        }
    }

    // ---- between groups

    // A line break: the next line begins.
    fn line(&mut self)
        ensures moved { state_in self.new ≡ states.line self.old.kind (state_in self.old) }
        ensures kind { self.new.kind ≡ self.old.kind }
    {
        self.after = false;
        self.some = self.some && !self.kind.lines;
    }

    // A mark, one between two groups.
    fn mark(&mut self) -> Result<(), Why>
        ensures { Moved self.old.kind (led self.new result) (states.mark (state_in self.old)) }
    {
        if !self.after {
            return Err(Why::Form);
        }
        self.after = false;
        Ok(())
    }

    // Moved by a character.
    #[tactic(auto, unfolding(crate::specs::States::moved))]
    pub fn moved(&mut self, x: u8) -> Result<(), Why>
        ensures { Moved self.old.kind (led self.new result) (states.moved self.old.kind x (state_in self.old)) }
    {
        self.complete = false;
        if x == b'\n' {
            self.close()?;
            self.line();
            return Ok(());
        }
        if is_blank(x) {
            return self.close();
        }
        if self.kind.mark != 0 && x == self.kind.mark {
            self.close()?;
            return self.mark();
        }
        self.within(x)
    }
}
