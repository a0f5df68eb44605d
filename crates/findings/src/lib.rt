// What is found amiss in the blocks of an area, for people: where the fault of a body stands, why a name is bad and which parameter is at fault
// (RULES R20 to R29), where in the area an octet of joined data stands (RULES W4), and why a name of a sheet is bad (`sheet`). `records` and `reading` decide which fault it is; here it is only
// told more closely, and `findings/Exactly` has that the number is theirs.
#![tactic(auto)]

mod finding;
pub mod sheet;

ghost use Rattle.std.specs.Prelude.{◌≡◌, ◌==◌, not, position, ◌+◌, ◌≤◌, ◌<◌, ◌^◌, length};
ghost use Rattle.numbers.specs.Fault.{number_of};
ghost use Rattle.blocks.specs.Parts.{fields_in};
ghost use Rattle.findings.specs.Troubles as troubles;
ghost use Rattle.findings.specs.Troubles.{padding_at, laid_place, address_length_at, addresses_at, parameters_at, limit_at, field_place};
ghost use Rattle.findings.specs.Troubles.{reason_in, troubled, trouble_in, further, reason_of, fields_trouble, trouble_of, joined_trouble};
ghost use Rattle.findings.specs.Spots.{place_of};

use blocks::Parts;
use carriers::Carrier;
pub use finding::Finding;
use frames::Step;
use judge::{Flaw, Side};
use numbers::{Fault, Limit};
use reasons::Reason;

// Octets of each length in carrier 3, and of an instance's in carrier 1.
const LENGTH: usize = 2;

// Carrier 3: where the ADN length stands, after priority and lifetime, and where the name does.
const ROUTER_LENGTH: usize = blocks::PRIORITY + Carrier::LIFETIME;

const ROUTER_NAME: usize = ROUTER_LENGTH + LENGTH;

// Carriers 4 and 5: where the number of addresses stands, and the addresses, after two numbers of one octet each.
const ATTRIBUTE_COUNT: usize = blocks::PRIORITY;

const ATTRIBUTE_ADDRESSES: usize = ATTRIBUTE_COUNT + 2;

impl Finding {
    // A fault of which its place alone is known.
    fn plain(fault: Fault, at: usize) -> Finding
        ensures { troubled result ≡ troubles.plain (number_of fault) at }
    {
        Finding {
            fault,
            at,
            reason: None,
            key: None,
        }
    }

    // The same, its place counted from `n` octets further back.
    fn back(self, n: usize) -> Finding
        requires { n + self.at < 2 ^ 63 }
        ensures { troubled result ≡ further n (troubled self) }
    {
        Finding {
            fault: self.fault,
            at: n + self.at,
            reason: self.reason,
            key: self.key,
        }
    }
}

// ---- 20 and 29

// The 16-bit number at a place, and 0 where its octets are not all there.
fn near16(b: &[u8], at: usize) -> usize
    ensures value { result ≡ troubles.near16 b.now at }
    ensures upper_bound { result < 65536 }
{
    if b.len() < LENGTH {
        return 0;
    }
    if b.len() - LENGTH < at {
        return 0;
    }
    octets::get16(b, at)
}

// Carrier 3: where the padding begins.
fn padding_at(b: &[u8]) -> usize
    ensures value { result ≡ padding_at b.now }
    ensures upper_bound { result < 262144 }
{
    let name_end = ROUTER_NAME + near16(b, ROUTER_LENGTH);
    if b.len() < name_end + Carrier::UNIT {
        return name_end;
    }
    let addresses_end = name_end + LENGTH + near16(b, name_end);
    addresses_end + LENGTH + near16(b, addresses_end)
}

// The first octet that is not 0.
fn first_other(s: &[u8]) -> Option<usize>
    ensures { result ≡ position (λ x. not (x == 0)) s.now }
{
    s.iter().position(|x| *x != 0)
}

// The first octet that padding cannot have.
fn past_padding(rest: &[u8]) -> usize
    ensures value { result ≡ troubles.past_padding 0 rest.now }
    ensures upper_bound { result < 8 }
{
    let front = &rest[..rest.len().min(Carrier::UNIT - 1)];
    first_other(front).unwrap_or(front.len())
}

// Of a body that is not laid out, by its fault.
fn laid_place(fault: Fault, body: &[u8]) -> usize
    ensures { result ≡ laid_place (number_of fault) body.now }
{
    if fault != Fault::Padding {
        return body.len();
    }
    let from = padding_at(body);
    if body.len() < from {
        return from;
    }
    from + past_padding(&body[from..])
}

// ---- 21 to 28

// The octets of name and addresses of a body: by them its parts stand where they do.
#[derive(Clone, Copy)]
pub struct Lengths {
    pub carrier: Carrier,
    pub name: usize,
    pub addresses: usize,
    ghost room: { name + addresses < 2 ^ 63 },
}

impl Lengths {
    // Those of the parts of a body.
    pub fn of(c: Carrier, parts: Parts<'_>) -> Lengths
        requires { length parts.name.now + length parts.addresses.now < 2 ^ 63 }
        ensures { (result.carrier ≡ c) × (result.name ≡ length parts.entry.name.now) × (result.addresses ≡ length parts.entry.addresses.now) }
    {
        Lengths {
            carrier: c,
            name: parts.name.len(),
            addresses: parts.addresses.len(),
        }
    }

    // Where the address length stands; in carriers 4 and 5 the number of addresses.
    fn address_length_at(self) -> usize
        ensures { result ≡ address_length_at self.carrier self.name }
    {
        if self.carrier.as_text() {
            return ATTRIBUTE_COUNT;
        }
        blocks::name_at(self.carrier, 0) + self.name
    }

    // Where the addresses stand.
    pub fn addresses_at(self) -> usize
        ensures { result ≡ addresses_at self.carrier self.name }
    {
        if self.carrier.as_text() {
            return ATTRIBUTE_ADDRESSES;
        }
        self.address_length_at() + self.carrier.length_width()
    }

    // Where the parameters stand.
    fn parameters_at(self) -> usize
        ensures { result ≡ parameters_at self.carrier self.name self.addresses }
    {
        let c = self.carrier;
        if c.as_text() {
            return ATTRIBUTE_ADDRESSES + self.addresses + self.name;
        }
        let end = self.addresses_at() + self.addresses;
        if c.lifetime_width() == 0 {
            return end;
        }
        end + LENGTH
    }

    // What is too much.
    fn limit_at(self) -> usize
        ensures { result ≡ limit_at self.carrier self.name self.addresses }
    {
        let most = Limit::ADDRESSES * self.carrier.address_width();
        if most < self.addresses {
            return self.addresses_at() + most;
        }
        self.parameters_at() + Limit::PARAMETERS
    }

    // Of a fault of fields: the name is bad at `place`, the parameter at fault stands at `within` in its field.
    fn place(self, fault: Fault, place: usize, within: usize) -> usize
        requires { (self.addresses + place < 2 ^ 63) × (self.name + self.addresses + within < 2 ^ 63) }
        ensures { result ≡ field_place self.carrier (number_of fault) self.name self.addresses place within }
    {
        match fault {
            Fault::Field | Fault::Priority => 0,
            Fault::Name => blocks::name_at(self.carrier, self.addresses) + place,
            Fault::Addresses => self.address_length_at(),
            Fault::Limit => self.limit_at(),
            Fault::Dropped => self.addresses_at(),
            Fault::Parameters | Fault::Hint | Fault::Value | Fault::Padding => {
                self.parameters_at() + within
            }
        }
    }
}

// Why the name is bad, of fault 22.
fn reason_of(c: Carrier, flaw: Flaw, name: &[u8]) -> Option<Reason>
    ensures { reason_in result ≡ reason_of c (number_of flaw.fault) name.now flaw.place }
{
    if flaw.fault == Fault::Name {
        return Some(reasons::name_reason(c.as_text(), name, flaw.place));
    }
    None
}

// The trouble with the parts of a body.
fn examine_parts(c: Carrier, parts: Parts<'_>) -> Result<(), Finding>
    requires { length parts.name.now + length parts.addresses.now + length parts.parameters.now < 2 ^ 63 }
    ensures { trouble_in result ≡ fields_trouble c (fields_in parts.entry) }
{
    let Parts {
        head,
        name,
        addresses,
        parameters,
    } = parts;
    let judged = judge::judge_fields(
        Side::Reading,
        c,
        head.priority,
        name,
        head.full,
        addresses,
        parameters,
    );
    let Err(flaw) = judged else {
        return Ok(());
    };
    let param = reasons::param_for(flaw.fault.number(), parameters);
    let lengths = Lengths::of(c, parts);
    Err(Finding {
        fault: flaw.fault,
        at: lengths.place(flaw.fault, flaw.place, param.at),
        reason: reason_of(c, flaw, name),
        key: param.key,
    })
}

// The trouble with a body.
pub fn examine(c: Carrier, body: &[u8]) -> Result<(), Finding>
    ensures { trouble_in result ≡ trouble_of c body.now }
{
    match blocks::split(c, &body[..]) {
        Ok(parts) => examine_parts(c, parts),
        Err(fault) => Err(Finding::plain(fault, laid_place(fault, body))),
    }
}

// ---- joined data

// The trouble with the joined data of carrier 1.
pub fn examine_joined(joined: &[u8]) -> Result<(), Finding>
    ensures { trouble_in result ≡ joined_trouble joined.now }
{
    if joined.is_empty() {
        return Err(Finding::plain(Fault::Field, 0));
    }
    let mut at: usize = 0;
    while at < joined.len() {
        if joined.len() - at < LENGTH {
            return Err(Finding::plain(Fault::Field, joined.len()));
        }
        let long = octets::get16(&joined[..], at);
        let start = at + LENGTH;
        if joined.len() - start < long {
            return Err(Finding::plain(Fault::Field, joined.len()));
        }
        let end = start + long;
        if let Err(t) = examine(Carrier::Dhcp4, &joined[start..end]) {
            return Err(t.back(start));
        }
        at = end;
    }
    Ok(())
}

// Where in an area of carrier 1 octet j of the joined data stands.
pub fn place(area: &[u8], j: usize) -> usize
    requires { j ≤ length area.now }
    ensures { result ≡ place_of area.now j }
{
    let mut at: usize = 0;
    let mut last: usize = 0;
    let mut left = j;
    loop {
        match frames::next_block(Carrier::Dhcp4, area, at) {
            Ok(Step::Block { start, end }) => {
                let n = end - start;
                if left < n {
                    return start + left;
                }
                left -= n;
                last = end;
                at = end;
            }
            Ok(Step::Skipped { end }) => {
                at = end;
            }
            Ok(Step::End) => {
                return last + left;
            }
            Err(_) => {
                return last + left;
            }
        }
    }
}
