// Which form the front of a text shows. A dump begins with an offset, before octets of two digits or before a colon. A list whose first two groups stand on
// one line with only blanks between them has blanks. Of any other the first character that is neither a digit nor a blank tells what stands between its groups.
ghost use Rattle.std.specs.Prelude.{◌≡◌, ltb};
ghost use Rattle.forms.specs.Fronts as fronts;

use hexes::is_digit;
use inputs::character;

// The forms.
#[derive(Clone, Copy)]
pub enum Form {
    // Lists of groups: with blanks between them, and with colons, commas or dashes; with 0x before each.
    Blanks,
    Colons,
    Commas,
    Dashes,
    Prefixes,
    // \x and two digits each.
    Escapes,
    // Dumps.
    Wireshark,
    Od,
    Hexdump,
    Xxd,
    Tcpdump,
}

impl Form {
    // Whether it is a dump.
    pub fn is_dump(self) -> bool
        ensures { result ≡ ltb 6 (fronts.number_of self) }
    {
        matches!(
            self,
            Form::Wireshark | Form::Od | Form::Hexdump | Form::Xxd | Form::Tcpdump
        )
    }
}

// Before which character the front stands.
#[derive(Clone, Copy)]
pub enum Phase {
    // The first group.
    Lead,
    // The rest of the first group.
    First,
    // The rest of a first group that begins with 0x.
    Prefix,
    // What follows the colon after the first group.
    Colon,
    // The second group.
    Gap,
    // The rest of the second group.
    Second,
    // Any character of a list.
    List,
}

// What has been seen of a text.
#[derive(Clone, Copy)]
pub struct Front {
    pub phase: Phase,
    // Digits of the first group, up to 9, and whether it began with 0.
    pub digits: usize,
    pub zero: bool,
    // Digits of the second.
    pub second: usize,
    // The form, once it is known.
    pub form: Option<Form>,
}

#[tactic(auto, unfolding(crate::specs::Fronts::gap))]
fn is_gap(x: u8) -> bool
    ensures { result ≡ fronts.gap x }
{
    matches!(x, b' ' | b'\t' | b'\r')
}

// The form of a list by a character that is neither a digit nor a blank.
#[tactic(auto, unfolding(crate::specs::Fronts::marked))]
fn marked(x: u8) -> Form
    ensures { fronts.number_of result ≡ fronts.marked x }
{
    match x {
        b':' => Form::Colons,
        b',' => Form::Commas,
        b'-' => Form::Dashes,
        _ => Form::Blanks,
    }
}

// The form of a dump by the digits of its offset; with others it is a list with blanks.
#[tactic(auto, unfolding(crate::specs::Fronts::dumped))]
fn dumped(digits: usize) -> Form
    ensures { fronts.number_of result ≡ fronts.dumped digits }
{
    match digits {
        4 => Form::Wireshark,
        6 => Form::Od,
        8 => Form::Hexdump,
        _ => Form::Blanks,
    }
}

impl Front {
    fn begun() -> Self
        ensures { fronts.front_in result ≡ fronts.begun }
    {
        Self {
            phase: Phase::Lead,
            digits: 0,
            zero: false,
            second: 0,
            form: None,
        }
    }

    fn to(mut self, phase: Phase) -> Self
        ensures { fronts.front_in result ≡ fronts.to (fronts.place_of phase) (fronts.front_in self) }
    {
        self.phase = phase;
        self
    }

    fn is(mut self, form: Form) -> Self
        ensures { fronts.front_in result ≡ fronts.is (fronts.number_of form) (fronts.front_in self) }
    {
        self.form = Some(form);
        self
    }

    // A character of a list.
    #[tactic(auto, unfolding(crate::specs::Fronts::list))]
    fn list(self, x: u8) -> Self
        ensures { fronts.front_in result ≡ fronts.list x (fronts.front_in self) }
    {
        if is_digit(x) || is_gap(x) || x == b'\n' {
            return self.to(Phase::List);
        }
        self.is(marked(x))
    }

    // Before the first group.
    #[tactic(auto, unfolding(crate::specs::Fronts::lead))]
    fn lead(mut self, x: u8) -> Self
        ensures { fronts.front_in result ≡ fronts.lead x (fronts.front_in self) }
    {
        if is_digit(x) {
            self.digits = 1;
            self.zero = x == b'0';
            return self.to(Phase::First);
        }
        if is_gap(x) || x == b'\n' {
            return self;
        }
        match x {
            b'\\' | b'"' => self.is(Form::Escapes),
            _ => self.is(Form::Blanks),
        }
    }

    // An x after the first group: its 0 was that of 0x.
    #[tactic(auto, unfolding(crate::specs::Fronts::ex))]
    fn ex(self) -> Self
        ensures { fronts.front_in result ≡ fronts.ex (fronts.front_in self) }
    {
        if self.zero && self.digits == 1 {
            return self.to(Phase::Prefix);
        }
        self.is(Form::Blanks)
    }

    // One digit more of the first group.
    #[tactic(auto, unfolding(crate::specs::Fronts::digit_on))]
    fn digit(mut self) -> Self
        ensures { fronts.front_in result ≡ fronts.digit_on (fronts.front_in self) }
    {
        if self.digits < 9 {
            self.digits += 1;
        }
        self
    }

    // After a digit of the first group.
    #[tactic(auto, unfolding(crate::specs::Fronts::first))]
    fn first(self, x: u8) -> Self
        ensures { fronts.front_in result ≡ fronts.first x (fronts.front_in self) }
    {
        if is_digit(x) {
            return self.digit();
        }
        match x {
            b'x' | b'X' => self.ex(),
            b':' => self.to(Phase::Colon),
            _ if is_gap(x) => self.to(Phase::Gap),
            _ => self.list(x),
        }
    }

    // After 0x.
    #[tactic(auto, unfolding(crate::specs::Fronts::prefix))]
    fn prefix(self, x: u8) -> Self
        ensures { fronts.front_in result ≡ fronts.prefix x (fronts.front_in self) }
    {
        if is_digit(x) {
            return self;
        }
        if x == b':' {
            return self.is(Form::Tcpdump);
        }
        self.is(Form::Prefixes)
    }

    // After the colon: a blank where the first group was an offset.
    #[tactic(auto, unfolding(crate::specs::Fronts::colon))]
    fn colon(self, x: u8) -> Self
        ensures { fronts.front_in result ≡ fronts.colon x (fronts.front_in self) }
    {
        if self.digits != 8 || is_digit(x) {
            return self.is(Form::Colons);
        }
        self.is(Form::Xxd)
    }

    // After the first group and a blank.
    #[tactic(auto, unfolding(crate::specs::Fronts::gap_on))]
    fn gap(mut self, x: u8) -> Self
        ensures { fronts.front_in result ≡ fronts.gap_on x (fronts.front_in self) }
    {
        if is_digit(x) {
            self.second = 1;
            return self.to(Phase::Second);
        }
        if is_gap(x) {
            return self;
        }
        self.list(x)
    }

    // After a digit of the second group: octets follow an offset two digits each; any other group is that of a list with blanks.
    #[tactic(auto, unfolding(crate::specs::Fronts::second_on))]
    fn second(mut self, x: u8) -> Self
        ensures { fronts.front_in result ≡ fronts.second_on x (fronts.front_in self) }
    {
        let one = self.second == 1;
        match (is_digit(x), one) {
            (true, true) => {
                self.second = 2;
                self
            }
            (false, false) => self.is(dumped(self.digits)),
            _ => self.is(Form::Blanks),
        }
    }

    // After a character.
    #[tactic(auto, unfolding(crate::specs::Fronts::after, crate::specs::Fronts::early, crate::specs::Fronts::late))]
    fn after(self, x: u8) -> Self
        ensures { fronts.front_in result ≡ fronts.after x (fronts.front_in self) }
    {
        match self.phase {
            Phase::Lead => self.lead(x),
            Phase::First => self.first(x),
            Phase::Prefix => self.prefix(x),
            Phase::Colon => self.colon(x),
            Phase::Gap => self.gap(x),
            Phase::Second => self.second(x),
            Phase::List => self.list(x),
        }
    }
}

// The form that the front of a text shows.
pub fn form_of(text: &[u8]) -> Form
    ensures { fronts.number_of result ≡ fronts.form_of text.now }
{
    let mut s = Front::begun();
    for i in 0..=text.len() {
        s = s.after(character(text, i));
        if let Some(form) = s.form {
            return form;
        }
    }
    Form::Blanks
}
