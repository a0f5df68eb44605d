// The numbers given back (RULES R1 to R44), each under a name. This is the one place where code has them as digits, but
// for the table of `words`, which is proved to have the same. `specs/` has the same names for definitions and contracts (there `record_size`
// and `sheet_size` for RECORD and SHEET).
#![tactic(auto)]

ghost use Rattle.std.specs.Prelude.{◌≡◌};
ghost use Rattle.numbers.specs.Fault as fault;
ghost use Rattle.numbers.specs.Refusal as refusal;

// What a call answers instead of a result.
#[derive(Clone, Copy, PartialEq, Eq)]
pub enum Refusal {
    // Reading: the carrier number is not 1 to 5.
    Carrier = 1,
    // The input is longer than 40,960 octets.
    Input = 2,
    // Area framing: a header or body runs past the end, or carrier 3 length 0.
    Framing = 3,
    // More than 16 records kept, or a sheet's count above 16.
    Records = 4,
    // The output is shorter than the result.
    Room = 5,
    // The sheet is shorter than 7 octets, or does not begin with RSV.
    Sheet = 40,
    // The sheet's version is not 1.
    Version = 41,
    // The sheet's carrier is not 1 to 5.
    SheetCarrier = 42,
    // The sheet does not tile, a mode is not 0 or 1, priorities fall, or a lifetime stands where none belongs.
    Tiling = 43,
    // A carrier 3 record is above 2,040 octets when rounded.
    Large = 44,
}

impl Refusal {
    // The number that is given back.
    pub fn number(self) -> usize
        ensures { result ≡ refusal.number_of self }
    {
        self as usize
    }
}

// Why a block is discarded; all but the first and the last are also answers of writing.
#[derive(Clone, Copy, PartialEq, Eq)]
pub enum Fault {
    // A field runs past its body's end, an instance past the joined data, or there is no instance.
    Field = 20,
    // Priority 0, AliasMode (RFC 9460 §2.4.2).
    Priority = 21,
    // The name.
    Name = 22,
    // An address length of 0 or no multiple, no addresses, or name only in carriers 4 and 5.
    Addresses = 23,
    // More than 63 addresses as carried, or more than 1,024 octets of parameters.
    Limit = 24,
    // Reading: no address is left after dropping; writing: an address to be dropped is present.
    Dropped = 25,
    // Parameters: tiling, order, key 65535.
    Parameters = 26,
    // Key 4 or 6 (ipv4hint, ipv6hint).
    Hint = 27,
    // Key 0, 1, 2 or 3 is not as RULES P4 to P7 say.
    Value = 28,
    // Carrier 3: padding that is not 0 to 7 zeros.
    Padding = 29,
}

impl Fault {
    // The number that is given back.
    pub fn number(self) -> usize
        ensures { result ≡ fault.number_of self }
    {
        self as usize
    }
}

// The limits, house rules (RULES L1 to L6).
#[derive(Drop)]
pub struct Limit();

impl Limit {
    // Octets of input.
    pub const INPUT: usize = 40960;

    // Records of a sheet.
    pub const RECORDS: usize = 16;

    // Addresses of a record.
    pub const ADDRESSES: usize = 63;

    // Octets of a record's parameters.
    pub const PARAMETERS: usize = 1024;

    // Octets of a record in a sheet: a head of 8, a name of 255, an address count of 1, 63 addresses of 16, a parameter length of 2 and
    // 1,024 octets of parameters.
    pub const RECORD: usize = 2298;

    // Octets of a sheet: a head of 7 and 16 such records.
    pub const SHEET: usize = 36775;

    // Octets of a carrier 3 record when rounded: 255 units of 8.
    pub const OPTION: usize = 2040;
}
