// How a command ends (docs/COMMAND.md, "Exit status"): `Ok`, or what stops it, once it is said why.
ghost use Rattle.std.specs.Prelude.{◌≡◌};
ghost use Rattle.files.specs.Status as status;

#[derive(Clone, Copy, PartialEq, Eq)]
pub enum Stop {
    // Refused by a number (RULES R1 to R44).
    Refused = 1,
    // Not carried out: wrong use, an input that is no octets, or a file.
    Failed = 2,
    // Done, and the answer is no.
    No = 3,
}

impl Stop {
    // The exit status.
    pub fn number(self) -> u8
        ensures { result ≡ status.number_of self }
    {
        self as u8
    }
}
