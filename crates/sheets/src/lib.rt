// The head of a record sheet, edition 1 (RULES S1): the letters RSV, the version, the carrier and the
// record count. The letters and the version stand here once, for writing a sheet's head and for comparing when a sheet is taken.
#![tactic(auto)]

ghost use Rattle.std.specs.Prelude.{◌≤◌, length};
ghost use Rattle.octets.specs.Over.{Wrote};
ghost use Rattle.sheets.specs.Sheets.{front_size, front_of};

use carriers::Carrier;

// The three letters at a sheet's head.
pub const LETTERS: [u8; 3] = *b"RSV";

// The version of the house edition.
pub const EDITION: usize = 1;

// Octets of a sheet's head, and where version, carrier and record count stand in it.
pub const FRONT: usize = 7;

pub const VERSION_AT: usize = 3;

pub const CARRIER_AT: usize = 5;

pub const COUNT_AT: usize = 6;

// Writes the head of a sheet of `count` records at the front of `out`, and returns the index after it.
pub fn put_front(out: &mut [u8], c: Carrier, count: u8) -> usize
    requires { front_size ≤ length out.old }
    ensures { Wrote 0 (front_of c count) out.old result out.new }
{
    let letters = LETTERS;
    let at_version = octets::copy(out, 0, &letters);
    let at_carrier = octets::put16(out, at_version, EDITION);
    let at_count = octets::put8(out, at_carrier, c.number());
    octets::put8(out, at_count, count)
}
