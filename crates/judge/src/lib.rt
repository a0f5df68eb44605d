// The one judge of a record's fields: the first of faults 21 to 28 (RULES T2, T5), for reading and for writing.
// The two sides differ at two places: reading takes the name of carriers 4 and 5 as text, and asks at 25 whether an address is left;
// writing asks there whether one is to be dropped. Nothing here drops an address.
#![tactic(auto)]

ghost use Rattle.std.specs.Prelude.{◌≡◌, ◌+◌, ◌<◌, ◌^◌};
ghost use Rattle.addresses.specs.Addresses.{Width, list_of};
ghost use Rattle.numbers.specs.Fault as fault;
ghost use Rattle.judge.specs.Place.{from, flawed, judged_in};
ghost use Rattle.judge.specs.Judge.{name_of, refused_of, tail_fault, name_only_fault, judged_of};

use carriers::Carrier;
use numbers::{Fault, Limit};

#[derive(Clone, Copy)]
pub enum Side {
    Reading,
    Writing,
}

// A fault and its place: of fault 22 the place of the first octet of the name at which no acceptable name can continue, or the name's length
// where it is cut short; of any other 0. The judge counts it from the name's first octet; what is told of a body, a block or a sheet, from where
// that begins (`back`).
#[derive(Clone, Copy)]
pub struct Flaw {
    pub fault: Fault,
    pub place: usize,
}

// A fault that has no place.
impl From<Fault> for Flaw {
    ghost from_gives = { λ f w. w ≡ record { fault = f; place = 0 } };

    fn from(fault: Fault) -> Flaw {
        Flaw { fault, place: 0 }
    }
}

impl Flaw {
    // The same, its place counted from `n` octets further back.
    pub fn back(self, n: usize) -> Flaw
        requires { n + self.place < 2 ^ 63 }
        ensures { flawed result ≡ from n (flawed self) }
    {
        if self.fault == Fault::Name {
            return Flaw {
                fault: self.fault,
                place: n + self.place,
            };
        }
        Flaw::from(self.fault)
    }
}

fn check_name(side: Side, c: Carrier, name: &[u8]) -> Result<(), usize>
    ensures { result ≡ name_of side c name.now }
{
    match side {
        Side::Writing => names::check_wire(name),
        Side::Reading => {
            if c.as_text() {
                texts::check_text(name)
            } else {
                names::check_wire(name)
            }
        }
    }
}

// Fault 25: no address is left, or one is to be dropped.
fn refused(side: Side, w: usize, addresses: &[u8]) -> bool
    requires { Width w }
    ensures { result ≡ refused_of side w (list_of w addresses.now) }
{
    match side {
        Side::Reading => addresses::none_kept(w, addresses),
        Side::Writing => addresses::any_unusable(w, addresses),
    }
}

// Faults 23 to 28 of a record in full form, with addresses of `w` octets.
fn tail_fault(side: Side, w: usize, addresses: &[u8], parameters: &[u8]) -> Result<(), Fault>
    requires { Width w }
    ensures { fault.number_in result ≡ tail_fault side w addresses.now parameters.now }
{
    let n = addresses.len();
    if n == 0 {
        return Err(Fault::Addresses);
    }
    if n % w != 0 {
        return Err(Fault::Addresses);
    }
    if Limit::ADDRESSES < n / w {
        return Err(Fault::Limit);
    }
    if Limit::PARAMETERS < parameters.len() {
        return Err(Fault::Limit);
    }
    if refused(side, w, addresses) {
        return Err(Fault::Dropped);
    }
    svcparams::params_fault(parameters)
}

// Name only skips 24 to 28, and in carriers 1 to 3 also 23.
fn name_only_fault(c: Carrier) -> Result<(), Fault>
    ensures { fault.number_in result ≡ name_only_fault c }
{
    if c.as_text() {
        return Err(Fault::Addresses);
    }
    Ok(())
}

// The first of faults 21 to 28 of a record's fields; a name-only record has neither addresses nor parameters. (`&name[..]`:
// docs/DESIGN.md, Speed.)
pub fn judge_fields(
    side: Side,
    c: Carrier,
    priority: usize,
    name: &[u8],
    full: bool,
    addresses: &[u8],
    parameters: &[u8],
) -> Result<(), Flaw>
    ensures { judged_in result ≡ judged_of side c priority name.now full addresses.now parameters.now }
{
    if priority == 0 {
        return Err(Flaw::from(Fault::Priority));
    }
    check_name(side, c, &name[..]).map_err(|place| Flaw {
        fault: Fault::Name,
        place,
    })?;
    if full {
        tail_fault(side, c.address_width(), &addresses[..], &parameters[..])?;
    } else {
        name_only_fault(c)?;
    }
    Ok(())
}
