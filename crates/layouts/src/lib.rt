// Layouts: a record's option, attribute or instance written into a lent buffer, in each carrier (RULES B1).
// A record comes as a sheet holds it, the name in wire form, within the limits. Nothing is judged here: a record that may not be
// written, or has no room, is kept away by the contracts.
#![tactic(auto)]

ghost use Rattle.std.specs.Prelude.{◌≡◌, true, ◌++◌, ◌+◌, ◌^◌, ◌≤◌, ◌<◌, length};
ghost use Rattle.octets.specs.Numbers.{be, zeros};
ghost use Rattle.octets.specs.Over.{Wrote};
ghost use Rattle.carriers.specs.declared.Carrier.TheVariants.{Dhcp4, Router};
ghost use Rattle.carriers.specs.Carriers.{header_of, as_text, Plain};
ghost use Rattle.blocks.specs.Block.{unpadded, padding_after, layout, Fits};
ghost use Rattle.blocks.specs.Parts.{fields_in, Named};
ghost use Rattle.layouts.specs.Layouts.{carried_of, own_option, instance_of};
ghost use Rattle.layouts.specs.Writable.{Writable, overhead, body_octets, option_octets, instance_octets};

use blocks::Parts;
use carriers::{Carrier, Form};

// ---- sizes

// Whether a record has the full form, and how many octets its name in wire form, its addresses and its parameters have.
#[derive(Clone, Copy)]
pub struct Sizes {
    pub full: bool,
    pub name: usize,
    pub addresses: usize,
    pub parameters: usize,
    ghost named: { 2 ≤ name },
    ghost in_range: { name + addresses + parameters < 65536 },
}

impl Sizes {
    // Those of a record's parts.
    pub fn of(p: &Parts) -> Sizes
        requires named { 2 ≤ length p.now.name.now }
        requires in_range { length p.now.name.now + length p.now.addresses.now + length p.now.parameters.now < 65536 }
        ensures full { result.full ≡ p.now.head.full }
        ensures name { result.name ≡ length p.now.name.now }
        ensures addresses { result.addresses ≡ length p.now.addresses.now }
        ensures parameters { result.parameters ≡ length p.now.parameters.now }
    {
        Sizes {
            full: p.head.full,
            name: p.name.len(),
            addresses: p.addresses.len(),
            parameters: p.parameters.len(),
        }
    }

    // Octets of a carrier 3 body before its padding.
    fn unpadded(self) -> usize
        ensures value { result ≡ unpadded self.full self.name self.addresses self.parameters }
        ensures upper_bound { result ≤ overhead + (self.name + self.addresses + self.parameters) }
    {
        if self.full {
            12 + self.name + self.addresses + self.parameters
        } else {
            8 + self.name
        }
    }

    // Octets of a carrier 3 body, its padding counted.
    fn padded(self) -> usize
        ensures { result ≡ body_octets Router self.full self.name self.addresses self.parameters }
    {
        let size = self.unpadded();
        size + padding_size(size)
    }

    // Octets of a record's body; as text its name has two fewer, no first length octet and no root octet.
    fn body(self, c: Carrier) -> usize
        ensures value { result ≡ body_octets c self.full self.name self.addresses self.parameters }
        ensures upper_bound { result ≤ overhead + (self.name + self.addresses + self.parameters) }
    {
        match c.form() {
            Form::Wire => {
                let width = c.length_width();
                if self.full {
                    2 + width + width + self.name + self.addresses + self.parameters
                } else {
                    2 + width + self.name
                }
            }
            Form::Padded => self.padded(),
            Form::Text => 4 + self.addresses + (self.name - 2) + self.parameters,
        }
    }

    // Octets of a record's option or attribute.
    pub fn option(self, c: Carrier) -> usize
        ensures value { result ≡ option_octets c self.full self.name self.addresses self.parameters }
        ensures upper_bound { result ≤ header_of c + (overhead + (self.name + self.addresses + self.parameters)) }
    {
        c.header_size() + self.body(c)
    }

    // Octets of a record's instance in carrier 1, its length counted.
    pub fn instance(self) -> usize
        ensures value { result ≡ instance_octets self.full self.name self.addresses self.parameters }
        ensures upper_bound { result ≤ 2 + (overhead + (self.name + self.addresses + self.parameters)) }
    {
        2 + self.body(Carrier::Dhcp4)
    }
}

// The zeros after a carrier 3 body of `size` octets.
fn padding_size(size: usize) -> usize
    requires { size < overhead + 65536 }
    ensures { (result ≡ padding_after size) × (result < 8) }
{
    let n = Carrier::Router.header_size() + size;
    (Carrier::UNIT - n % Carrier::UNIT) % Carrier::UNIT
}

// ---- parts

// Writes src after its length, in one or two octets.
fn put_counted(out: &mut [u8], at: usize, width: usize, src: &[u8]) -> usize
    requires src_in_bounds { at + width + length src.now ≤ length out.old }
    requires width_nonzero { (0 < width) × (width ≤ 2) × (length src.now < 256 ^ width) }
    ensures { Wrote at (be width (length src.now) ++ src.now) out.old result out.new }
{
    let from = octets::put_number(out, at, width, src.len());
    octets::copy(out, from, src)
}

// Writes n zeros.
pub fn put_zeros(out: &mut [u8], at: usize, n: usize) -> usize
    requires { (at + n ≤ length out.old) × (n < 8) }
    ensures { Wrote at (zeros n) out.old result out.new }
{
    let padding = [0u8; Carrier::UNIT];
    octets::copy(out, at, &padding[..n])
}

// ---- bodies

// A body of carrier 1 or 2.
fn put_named(out: &mut [u8], at: usize, c: Carrier, p: &Parts) -> usize
    requires named { Named c }
    requires fits { Fits c (fields_in p.now) }
    requires in_bounds { at + length (layout c (fields_in p.now)) ≤ length out.old }
    ensures { Wrote at (layout c (fields_in p.now)) out.old result out.new }
{
    let width = c.length_width();
    let at_name = octets::put16(out, at, p.head.priority);
    let end = put_counted(out, at_name, width, p.name);
    if p.head.full {
        let at_parameters = put_counted(out, end, width, p.addresses);
        return octets::copy(out, at_parameters, p.parameters);
    }
    end
}

// A body of carrier 3.
fn put_router(out: &mut [u8], at: usize, p: &Parts) -> usize
    requires named { 2 ≤ length p.now.name.now }
    requires fits { Fits Router (fields_in p.now) }
    requires in_range { length p.now.name.now + length p.now.addresses.now + length p.now.parameters.now < 65536 }
    requires in_bounds { at + length (layout Router (fields_in p.now)) ≤ length out.old }
    ensures { Wrote at (layout Router (fields_in p.now)) out.old result out.new }
{
    let zeros = padding_size(Sizes::of(p).unpadded());
    let at_lifetime = octets::put16(out, at, p.head.priority);
    let at_name = octets::put32(out, at_lifetime, p.head.lifetime);
    let end = put_counted(out, at_name, 2, p.name);
    if p.head.full {
        let at_parameters = put_counted(out, end, 2, p.addresses);
        let at_padding = put_counted(out, at_parameters, 2, p.parameters);
        return put_zeros(out, at_padding, zeros);
    }
    put_zeros(out, end, zeros)
}

// A body of carrier 4 or 5: the name as text.
fn put_attribute(out: &mut [u8], at: usize, c: Carrier, p: &Parts) -> usize
    requires c_value { as_text c ≡ true }
    requires named { 2 ≤ length p.now.name.now }
    requires fits { Fits c (carried_of c (fields_in p.now)) }
    requires in_bounds { at + length (layout c (carried_of c (fields_in p.now))) ≤ length out.old }
    ensures { Wrote at (layout c (carried_of c (fields_in p.now))) out.old result out.new }
{
    let count = p.addresses.len() / c.address_width();
    let at_count = octets::put16(out, at, p.head.priority);
    let at_nlen = octets::put8(out, at_count, count as u8);
    let at_addresses = octets::put8(out, at_nlen, (p.name.len() - 2) as u8);
    let at_name = octets::copy(out, at_addresses, p.addresses);
    let at_parameters = texts::to_text(out, at_name, p.name);
    octets::copy(out, at_parameters, p.parameters)
}

// The body of a record.
fn put_body(out: &mut [u8], at: usize, c: Carrier, p: &Parts) -> usize
    requires writable { Writable c (fields_in p.now) }
    requires in_bounds { at + length (layout c (carried_of c (fields_in p.now))) ≤ length out.old }
    ensures { Wrote at (layout c (carried_of c (fields_in p.now))) out.old result out.new }
{
    match c.form() {
        Form::Wire => put_named(out, at, c, p),
        Form::Padded => put_router(out, at, p),
        Form::Text => put_attribute(out, at, c, p),
    }
}

// ---- options and instances

// Writes a record's option or attribute at `at`, in carriers 2 to 5, and returns the index after it.
pub fn put_option(out: &mut [u8], at: usize, c: Carrier, p: &Parts) -> usize
    requires plain { Plain c }
    requires writable { Writable c (fields_in p.now) }
    requires in_bounds { at + length (own_option c (fields_in p.now)) ≤ length out.old }
    ensures { Wrote at (own_option c (fields_in p.now)) out.old result out.new }
{
    let from = frames::put_header(out, at, c, Sizes::of(p).body(c));
    put_body(out, from, c, p)
}

// Writes a record's instance after its 16-bit length, in carrier 1.
pub fn put_instance(out: &mut [u8], at: usize, p: &Parts) -> usize
    requires writable { Writable Dhcp4 (fields_in p.now) }
    requires in_bounds { at + length (instance_of (fields_in p.now)) ≤ length out.old }
    ensures { Wrote at (instance_of (fields_in p.now)) out.old result out.new }
{
    let c = Carrier::Dhcp4;
    let from = octets::put16(out, at, Sizes::of(p).body(c));
    put_body(out, from, c, p)
}
