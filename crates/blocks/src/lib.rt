// Blocks: where the fields of a block's body stand (RULES B1; in carrier 1 the body is one instance after its length).
// A body is split where it lies: the answer holds slices of it, and nothing is copied. The faults given here are those of the
// layout: a field past the end, and what is no padding. What priority, name, addresses and parameters may be is not looked at here.
#![tactic(auto)]

ghost use Rattle.std.specs.Prelude.{◌≡◌, true, ◌+◌, ◌^◌, ◌≤◌, ◌<◌, MatchResult};
ghost use Rattle.numbers.specs.declared.Fault.TheVariants.{Field};
ghost use Rattle.octets.specs.Fields.{part, counted};
ghost use Rattle.carriers.specs.Carriers.{as_text};
ghost use Rattle.carriers.specs.declared.Carrier.TheVariants.{Router};
ghost use Rattle.blocks.specs.Block.{name_only, name_at};
ghost use Rattle.blocks.specs.Parse.{short, is_padding, parse};
ghost use Rattle.blocks.specs.Parts.{fields_in, parsed_in, Ranged, Named, Stops, Takes, Counts};

use carriers::Carrier;
use numbers::Fault;

// What a record says in numbers beside its parts: priority, lifetime (0 but in carrier 3), and whether it has the full form (mode 1) or a
// name only (mode 0).
#[derive(Clone, Copy)]
pub struct Head {
    pub priority: usize,
    pub lifetime: usize,
    pub full: bool,
}

// The parts of a record as they lie in a body or a sheet: its numbers, and the octets of name, addresses and parameters. A name only (`head.full`
// is false) has neither addresses nor parameters: both are empty.
#[derive(Clone, Copy)]
pub struct Parts<'a> {
    pub head: Head,
    pub name: &'a [u8],
    pub addresses: &'a [u8],
    pub parameters: &'a [u8],
}

// Octets of a priority, with which every body begins.
pub const PRIORITY: usize = 2;

// Carrier 3: octets of a length; where the ADN length stands, after the lifetime, and where the name does.
const LENGTH: usize = 2;

const ROUTER_LENGTH: usize = PRIORITY + Carrier::LIFETIME;

const ROUTER_NAME: usize = ROUTER_LENGTH + LENGTH;

// Carriers 4 and 5: where the ADN length stands, after the number of addresses, and where the addresses do; each number has one octet.
const ATTRIBUTE_LENGTH: usize = PRIORITY + 1;

const ATTRIBUTE_ADDRESSES: usize = ATTRIBUTE_LENGTH + 1;

impl<'a> Parts<'a> {
    // Of a name only.
    fn alone(priority: usize, lifetime: usize, name: &'a [u8]) -> Parts<'a>
        ensures { fields_in result ≡ name_only priority lifetime name.now }
    {
        let none = &name[..0];
        Parts {
            head: Head {
                priority,
                lifetime,
                full: false,
            },
            name,
            addresses: none,
            parameters: none,
        }
    }
}

// The first n octets and what follows them, or 20 where there are fewer.
fn part(l: &[u8], n: usize) -> Result<(&[u8], &[u8]), Fault>
    ensures { MatchResult result (λ p. Takes n l.now p.0.now p.1.now) (λ k. (k ≡ Field) × Stops (part short n l.now)) }
{
    l.split_at_checked(n).ok_or(Fault::Field)
}

// Octets after their count, a number of `w` octets, and what follows them.
fn counted(l: &[u8], w: usize) -> Result<(&[u8], &[u8]), Fault>
    requires { (0 < w) × (w ≤ 2) }
    ensures { MatchResult result (λ p. Counts w l.now p.0.now p.1.now) (λ k. (k ≡ Field) × Stops (counted short w l.now)) }
{
    let (count, rest) = part(l, w)?;
    part(rest, octets::get_number(count, 0, w))
}

// Whether the octets are padding: 0 to 7 zeros.
fn padding(rest: &[u8]) -> bool
    ensures { result ≡ is_padding rest.now }
{
    rest.len() < Carrier::UNIT && octets::zeros(rest)
}

// A body of carrier 1 or 2.
fn named(carrier: Carrier, body: &[u8]) -> Result<Parts<'_>, Fault>
    requires { Named carrier }
    ensures result_value { parsed_in result ≡ parse carrier body.now }
    ensures ranged { Ranged carrier body.now result }
{
    let w = carrier.length_width();
    let (_, rest) = part(body, PRIORITY + w)?;
    let priority = octets::get16(body, 0);
    let (name, rest) = part(rest, octets::get_number(body, PRIORITY, w))?;
    if rest.is_empty() {
        return Ok(Parts::alone(priority, 0, name));
    }
    let (addresses, parameters) = counted(rest, w)?;
    let head = Head {
        priority,
        lifetime: 0,
        full: true,
    };
    Ok(Parts {
        head,
        name,
        addresses,
        parameters,
    })
}

// A body of carrier 3.
fn router(body: &[u8]) -> Result<Parts<'_>, Fault>
    ensures result_value { parsed_in result ≡ parse Router body.now }
    ensures ranged { Ranged Router body.now result }
{
    let (_, rest) = part(body, ROUTER_NAME)?;
    let priority = octets::get16(body, 0);
    let lifetime = octets::get32(body, PRIORITY);
    let (name, rest) = part(rest, octets::get16(body, ROUTER_LENGTH))?;
    if rest.len() < Carrier::UNIT {
        if padding(rest) {
            return Ok(Parts::alone(priority, lifetime, name));
        }
        return Err(Fault::Padding);
    }
    let (addresses, rest) = counted(rest, LENGTH)?;
    let (parameters, rest) = counted(rest, LENGTH)?;
    if !padding(rest) {
        return Err(Fault::Padding);
    }
    let head = Head {
        priority,
        lifetime,
        full: true,
    };
    Ok(Parts {
        head,
        name,
        addresses,
        parameters,
    })
}

// A body of carrier 4 or 5.
fn attribute(carrier: Carrier, body: &[u8]) -> Result<Parts<'_>, Fault>
    requires { as_text carrier ≡ true }
    ensures result_value { parsed_in result ≡ parse carrier body.now }
    ensures ranged { Ranged carrier body.now result }
{
    let (_, rest) = part(body, ATTRIBUTE_ADDRESSES)?;
    let priority = octets::get16(body, 0);
    let count = usize::from(body[PRIORITY]);
    let (addresses, rest) = part(rest, count * carrier.address_width())?;
    let (name, parameters) = part(rest, usize::from(body[ATTRIBUTE_LENGTH]))?;
    let head = Head {
        priority,
        lifetime: 0,
        full: true,
    };
    Ok(Parts {
        head,
        name,
        addresses,
        parameters,
    })
}

// The parts of a body, or its fault. (`&body[..]`, and one arm for each carrier so that LLVM knows its widths where they are used:
// docs/DESIGN.md, Speed.)
pub fn split(carrier: Carrier, body: &[u8]) -> Result<Parts<'_>, Fault>
    ensures result_value { parsed_in result ≡ parse carrier body.now }
    ensures ranged { Ranged carrier body.now result }
{
    match carrier {
        Carrier::Dhcp4 => named(carrier, &body[..]),
        Carrier::Dhcp6 => named(carrier, &body[..]),
        Carrier::Router => router(&body[..]),
        Carrier::Ike4 => attribute(carrier, &body[..]),
        Carrier::Ike6 => attribute(carrier, &body[..]),
    }
}

// Where the name stands in a body with m octets of addresses (they stand before it in carriers 4 and 5).
pub fn name_at(c: Carrier, m: usize) -> usize
    requires { m < 2 ^ 63 }
    ensures { result ≡ name_at c m }
{
    if c.as_text() {
        return ATTRIBUTE_ADDRESSES + m;
    }
    PRIORITY + c.lifetime_width() + c.length_width()
}
