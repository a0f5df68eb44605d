// Where a list stands.
ghost use Rattle.std.specs.Prelude.{◌≡◌, true, false, ◌||◌};

use crate::Kind;

#[derive(Clone, Copy)]
pub struct State {
    // What the list is of.
    pub kind: Kind,
    // How much of 0x has been read: 0, 1 or 2 characters.
    pub front: usize,
    // Digits of the group: 0 to 2, and for more 3 where they are odd, 4 where they are even.
    pub digits: usize,
    // The last digit, or the octet, and whether that was completed by the last character.
    pub octet: u8,
    pub complete: bool,
    // Whether a mark may stand: after a group, on its line.
    pub after: bool,
    // Whether a group stands before: on the line, or in the list.
    pub some: bool,
    // Whether two such groups have stood, and a group of more than two digits. That one stands alone, and the kind has such.
    pub several: bool,
    pub wide: bool,
    ghost alone: { wide ≡ true → (several ≡ false) × (kind.lines || kind.whole ≡ true) },
}
