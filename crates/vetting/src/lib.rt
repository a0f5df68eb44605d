// Vetting: the one place where a record sheet and its records are tested (RULES T5): 2, 40, 41, 42, 4, 43,
// then 21 to 28 record by record. The sheet is taken, then its records are weighed: judged in order as writing judges, and their octets added
// up. Of a sheet that passes, `vet` also says what 44 and 5 are tested by. Nothing is written here, and nothing is dropped or mended.
#![tactic(auto)]

ghost use Rattle.std.specs.Prelude.{◌≡◌, ◌+◌, ◌<◌, ◌^◌, length};
ghost use Rattle.blocks.specs.Parts.{fields_in};
ghost use Rattle.taking.specs.Sheet.{FitsRecord};
ghost use Rattle.vetting.specs.declared.Unfit.TheVariants.{Refused, Faulty};
ghost use Rattle.vetting.specs.Vetting.{vet_of, told, told_in, number_of, place_of, large_by};
ghost use Rattle.vetting.specs.Weighing.{records_of, TakenAs, share_octets, weighed_in, WeighsOne, Weighs};

use carriers::Carrier;
use judge::{Flaw, Side};
use layouts::Sizes;
use numbers::{Limit, Refusal};
use taking::{Record, Records};

// A sheet that passes: its carrier, how many records it has, and how many octets these take one after another; `large`: one of them is too
// large for its carrier (44).
#[derive(Clone, Copy)]
pub struct Vetted {
    pub carrier: Carrier,
    pub count: usize,
    pub large: bool,
    pub size: usize,
}

// Why a sheet does not pass: it is refused as it is taken, or a record has a fault, whose place is counted from the sheet's first octet.
#[derive(Clone, Copy)]
pub enum Unfit {
    Refused(Refusal),
    Faulty(Flaw),
}

impl From<Refusal> for Unfit {
    ghost from_gives = { λ r u. u ≡ Refused r };

    fn from(r: Refusal) -> Unfit {
        Unfit::Refused(r)
    }
}

impl From<Flaw> for Unfit {
    ghost from_gives = { λ w u. u ≡ Faulty w };

    fn from(w: Flaw) -> Unfit {
        Unfit::Faulty(w)
    }
}

impl Unfit {
    // The number of the first test that fails.
    pub fn number(self) -> usize
        ensures { result ≡ number_of self }
    {
        match self {
            Unfit::Refused(r) => r.number(),
            Unfit::Faulty(w) => w.fault.number(),
        }
    }

    // Of 22 the place in the sheet at which the name is wrong, else 0.
    pub fn place(self) -> usize
        ensures { result ≡ place_of self }
    {
        match self {
            Unfit::Refused(_) => 0,
            Unfit::Faulty(w) => w.place,
        }
    }
}

// What weighing finds of records without a fault: whether one is large, and their octets.
#[derive(Clone, Copy)]
struct Weighed {
    large: bool,
    size: usize,
}

// Octets of a record: in carrier 1 of its instance, else of its option or attribute.
fn share_size(c: Carrier, sizes: Sizes) -> usize
    ensures { result ≡ share_octets c sizes.full sizes.name sizes.addresses sizes.parameters }
{
    if c.facts().joined {
        sizes.instance()
    } else {
        sizes.option(c)
    }
}

// Whether an option of `size` octets is too large for its carrier: only one whose length is in units of eight has such a limit.
fn is_large(c: Carrier, size: usize) -> bool
    ensures { result ≡ large_by c size }
{
    c.facts().eights && Limit::OPTION < size
}

// Judges a record, and finds how many octets it takes. (No `map_err`: of a closure that borrows the record the proof learns nothing to use.)
fn weigh_record(c: Carrier, r: &Record) -> Result<Weighed, Flaw>
    requires within { r.now.name + length r.now.parts.name.now < 2 ^ 63 }
    requires fits_record { FitsRecord c (fields_in r.now.parts) }
    ensures { WeighsOne c r.now.name (fields_in r.now.parts) (weighed_in result) }
{
    let p = r.parts;
    let judged = judge::judge_fields(
        Side::Writing,
        c,
        p.head.priority,
        p.name,
        p.head.full,
        p.addresses,
        p.parameters,
    );
    if let Err(w) = judged {
        return Err(w.back(r.name));
    }
    let size = share_size(c, Sizes::of(&p));
    Ok(Weighed {
        large: is_large(c, size),
        size,
    })
}

// Weighs the records of a sheet, up to the first that has a fault.
fn weigh(c: Carrier, s: &[u8]) -> Result<Weighed, Flaw>
    requires { TakenAs c s.now }
    ensures { Weighs c (records_of s.now) (weighed_in result) }
{
    let mut large = false;
    let mut size = 0;
    for record in Records::of(c, s) {
        let one = weigh_record(c, &record)?;
        large |= one.large;
        size += one.size;
    }
    Ok(Weighed { large, size })
}

// Vets the sheet `s`.
pub fn vet(s: &[u8]) -> Result<Vetted, Unfit>
    ensures { told_in result ≡ told (vet_of s.now) }
{
    let sheet = taking::take(s)?;
    let found = weigh(sheet.carrier, s)?;
    Ok(Vetted {
        carrier: sheet.carrier,
        count: sheet.count,
        large: found.large,
        size: found.size,
    })
}
