// Octets given as base64 (RFC 4648 §4): characters of the standard alphabet, four to a quantum, the last quantum padded; blanks may stand anywhere
// between them. A character moves the state of its quantum, and the octets that it completes are laid into a lent buffer. What no encoder writes
// is refused: characters after the padding, and bits under it that are not zero (RFC 4648 §3.5).
#![tactic(auto)]

ghost use Rattle.std.specs.Prelude.{◌≡◌, ◌<◌};
ghost use Rattle.inputs.specs.Read.{read_in};
ghost use Rattle.base64_text.specs.Base64 as base64;
ghost use Rattle.base64_text.specs.Base64.{Answered};
ghost use Rattle.base64_text.specs.Held.{number_of, quantum_in, Moved, Stands, Valued};

use inputs::{Unread, Why, is_blank};

// Where a text stands.
#[derive(Clone, Copy)]
pub enum Place {
    // So many characters of a quantum stand.
    Start,
    One,
    Two,
    Three,
    // After a padding character one more is wanted.
    Padded,
    Ended,
}

#[derive(Clone, Copy)]
pub struct Quantum {
    pub place: Place,
    // The value of the last character.
    pub last: u8,
    // The octet that the last character completed.
    pub octet: Option<u8>,
}

// ---- a character

// The value of a character of the alphabet.
#[tactic(auto, unfolding(crate::specs::Base64::value))]
fn value(x: u8) -> Option<u8>
    ensures { Valued result (base64.value x) }
{
    match x {
        b'A'..=b'Z' => Some(x - b'A'),
        b'a'..=b'z' => Some(x - b'a' + 26),
        b'0'..=b'9' => Some(x - b'0' + 52),
        b'+' => Some(62),
        b'/' => Some(63),
        _ => None,
    }
}

impl Quantum {
    fn begun() -> Self
        ensures { quantum_in result ≡ base64.begun }
    {
        Self {
            place: Place::Start,
            last: 0,
            octet: None,
        }
    }

    fn to(self, place: Place) -> Self
        ensures { Stands result (base64.to (number_of place) (quantum_in self)) }
    {
        Self {
            place,
            last: self.last,
            octet: None,
        }
    }

    // Moved by a padding character: the bits under it are zero.
    #[tactic(auto, unfolding(crate::specs::Base64::padded))]
    fn padded(self) -> Option<Self>
        ensures { Moved result (base64.padded (quantum_in self)) }
    {
        match self.place {
            Place::Two if self.last % 16 == 0 => Some(self.to(Place::Padded)),
            Place::Three if self.last % 4 == 0 => Some(self.to(Place::Ended)),
            Place::Padded => Some(self.to(Place::Ended)),
            _ => None,
        }
    }

    // Moved by a character of value v. The first of a quantum completes no octet.
    #[tactic(auto, unfolding(crate::specs::Base64::filled, crate::specs::Base64::octet_of))]
    fn filled(self, v: u8) -> Option<Self>
        requires { v < 64 }
        ensures { Moved result (base64.filled v (quantum_in self)) }
    {
        let (place, octet) = match self.place {
            Place::Start => (Place::One, None),
            Place::One => (Place::Two, Some(self.last % 64 * 4 + v / 16)),
            Place::Two => (Place::Three, Some(self.last % 16 * 16 + v / 4)),
            Place::Three => (Place::Start, Some(self.last % 4 * 64 + v)),
            Place::Padded | Place::Ended => return None,
        };
        Some(Self {
            place,
            last: v,
            octet,
        })
    }

    #[tactic(auto, unfolding(crate::specs::Base64::moved))]
    fn moved(self, x: u8) -> Option<Self>
        ensures { Moved result (base64.moved x (quantum_in self)) }
    {
        if is_blank(x) {
            return Some(self.to(self.place));
        }
        if x == b'=' {
            return self.padded();
        }
        self.filled(value(x)?)
    }

    // Whether a text may end here.
    fn whole(self) -> bool
        ensures { result ≡ base64.whole (quantum_in self) }
    {
        matches!(self.place, Place::Start | Place::Ended)
    }
}

// ---- a text

// Reads base64 into `out`.
pub fn read(text: &[u8], out: &mut [u8]) -> Result<usize, Unread>
    ensures { Answered text.now out.old (read_in result) out.new }
{
    let mut s = Quantum::begun();
    let mut n = 0;
    for (i, &x) in text.iter().enumerate() {
        let Some(t) = s.moved(x) else {
            return Err(Unread::Bad {
                at: i,
                why: Why::Base64,
            });
        };
        s = t;
        if let Some(b) = t.octet {
            if out.len() <= n {
                return Err(Unread::Long);
            }
            out[n] = b;
            n += 1;
        }
    }
    if s.whole() {
        return Ok(n);
    }
    Err(Unread::Bad {
        at: text.len(),
        why: Why::Base64,
    })
}
