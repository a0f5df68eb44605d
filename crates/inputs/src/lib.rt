// What comes of a text that is to spell octets (docs/COMMAND.md, "Input"): octets, or why not.
#![tactic(auto)]

ghost use Rattle.std.specs.Prelude.{◌≡◌, ◌+◌, ◌<◌, ◌^◌, get_or};
ghost use Rattle.inputs.specs.Read.{unread_in, place_in, back};
ghost use Rattle.inputs.specs.Text.{blank};
ghost use Rattle.inputs.specs.Why as why;

// Why a text spells no octets.
#[derive(Clone, Copy, PartialEq, Eq)]
pub enum Why {
    // A character does not belong where it stands.
    Form = 1,
    // Groups of digits that may be octets, words or offsets.
    Groups = 2,
    // An offset is not the number of octets before its line.
    Offset = 3,
    // The text column does not show the octets beside it.
    Column = 4,
    // The length that is given is not the number of octets.
    Count = 5,
    // No base64.
    Base64 = 6,
    // A value that no option holds.
    Value = 7,
}

impl Why {
    // The number by which messages know it.
    pub fn number(self) -> usize
        ensures { result ≡ why.number_of self }
    {
        self as usize
    }
}

// Why no octets were read into a buffer: what is wrong, and at which character; or that they are more than the buffer holds.
#[derive(Clone, Copy)]
pub enum Unread {
    Bad { at: usize, why: Why },
    Long,
}

impl Unread {
    // The same, its place counted from n characters further back.
    pub fn back(self, n: usize) -> Unread
        requires { n + place_in (unread_in self) < 2 ^ 64 }
        ensures { unread_in result ≡ back n (unread_in self) }
    {
        match self {
            Unread::Bad { at, why } => Unread::Bad { at: n + at, why },
            Unread::Long => Unread::Long,
        }
    }
}

// The character at i of a text that a line break ends.
pub fn character(text: &[u8], i: usize) -> u8
    ensures { result ≡ get_or text.now i 10 }
{
    text.get(i).copied().unwrap_or(b'\n')
}

// Whether x is a blank.
pub fn is_blank(x: u8) -> bool
    ensures { result ≡ blank x }
{
    matches!(x, b' ' | b'\t' | b'\r' | b'\n')
}
