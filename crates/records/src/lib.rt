// One body, in carrier 1 one instance: whether it yields a record, how many octets the record has in a sheet, and writing it there.
// `put_fields` puts a record's fields into a sheet, and is the one place where unusable addresses are dropped.
#![tactic(auto)]

ghost use Rattle.std.specs.Prelude.{◌≡◌, true, false, [], ◌+◌, ◌≤◌, ◌<◌, ◌^◌, length, MatchResult, IfOk};
ghost use Rattle.octets.specs.Over.{Wrote};
ghost use Rattle.numbers.specs.Limit as limit;
ghost use Rattle.addresses.specs.Addresses.{Width, list_of, kept_of};
ghost use Rattle.carriers.specs.Carriers.{address_width};
ghost use Rattle.blocks.specs.Block.{head_with, name_at};
ghost use Rattle.blocks.specs.Parts.{fields_in};
ghost use Rattle.records.specs.Records.{name_as, staying, head_size, tail_size};
ghost use Rattle.records.specs.Yielded.{outcome_of, yield_of};
ghost use Rattle.records.specs.Examined.{verdict_in, examined_of, Clean, Kept, octets_in};
ghost use Rattle.records.specs.Given.{record_as, Puttable};
ghost use Rattle.records.specs.Parts.{name_in, name_part, head_part, tail_part};

use blocks::Parts;
use carriers::Carrier;
use judge::{Flaw, Side};

// What is known of a body that yields a record: the record's priority and size in a sheet, and whether every address is known to stay, so that
// the list can be copied as it stands.
#[derive(Clone, Copy)]
pub struct Examined {
    pub priority: usize,
    pub size: usize,
    pub clean: bool,
}

// How the fields of a record are given: whether the name is text or in wire form, how many octets an address has, and whether every
// address is known to stay, so that the list can be copied as it stands.
#[derive(Clone, Copy)]
pub struct Given {
    pub text: bool,
    pub width: usize,
    pub clean: bool,
}

// Octets of a record before its name: priority, lifetime, mode and name length; and where lifetime, mode and name length stand among them.
pub const HEAD: usize = 8;

pub const LIFETIME_AT: usize = 2;

pub const MODE_AT: usize = 6;

pub const NAME_LENGTH_AT: usize = 7;

// Octets that mode 1 adds beside addresses and parameters: address count and parameter length.
pub const TAIL: usize = 3;

// Octets of a name in wire form.
fn wire_size(text: bool, name: &[u8]) -> usize
    ensures { result ≡ length (name_as text name.now) }
{
    if text {
        return name.len() + 2;
    }
    name.len()
}

// Octets in wire form of a name that a carrier brings.
fn name_size(c: Carrier, name: &[u8]) -> usize
    ensures { result ≡ length (name_in c name.now) }
{
    wire_size(c.as_text(), name)
}

// Whether the parts of a body yield a record.
fn examine_parts(c: Carrier, parts: Parts<'_>) -> Result<Examined, Flaw>
    requires named { name_at c (length parts.addresses.now) + length parts.name.now < 2 ^ 63 }
    requires bare { parts.head.full ≡ false → parts.addresses.now ≡ [] }
    ensures value { let at = name_at c (length parts.entry.addresses.now) in
        verdict_in result ≡ examined_of c (yield_of c at (fields_in parts.entry)) (verdict_in result).clean }
    ensures clean { IfOk result (λ e. e.clean ≡ true → staying (address_width c) parts.entry.addresses.now ≡ parts.entry.addresses.now) }
{
    let Parts {
        head,
        name,
        addresses,
        parameters,
    } = parts;
    let judged = judge::judge_fields(
        Side::Reading,
        c,
        head.priority,
        name,
        head.full,
        addresses,
        parameters,
    );
    if let Err(flaw) = judged {
        return Err(flaw.back(blocks::name_at(c, addresses.len())));
    }
    let bare = HEAD + name_size(c, name);
    if head.full {
        let w = c.address_width();
        let staying = addresses::kept_count(w, addresses) * w;
        return Ok(Examined {
            priority: head.priority,
            size: bare + TAIL + staying + parameters.len(),
            clean: staying == addresses.len(),
        });
    }
    Ok(Examined {
        priority: head.priority,
        size: bare,
        clean: true,
    })
}

// Writes a name's length and its wire form.
fn put_name(out: &mut [u8], at: usize, text: bool, name: &[u8]) -> usize
    requires name_len_bound { length (name_as text name.now) ≤ 255 }
    requires name_in_bounds { at + 1 + length (name_as text name.now) ≤ length out.old }
    ensures { Wrote at (name_part (name_as text name.now)) out.old result out.new }
{
    let size = wire_size(text, name);
    let next = octets::put8(out, at, size as u8);
    if text {
        return texts::to_wire(out, next, name);
    }
    octets::copy(out, next, name)
}

// Writes a record to the end of its name. (Numbers one by one: a struct goes through memory to a function that is not inlined.)
fn put_head(
    out: &mut [u8],
    at: usize,
    text: bool,
    priority: usize,
    lifetime: usize,
    full: bool,
    name: &[u8],
) -> usize
    requires priority_bound { (priority < 65536) × (lifetime < 4294967296) }
    requires name_len_bound { length (name_as text name.now) ≤ 255 }
    requires name_in_bounds { at + head_size + length (name_as text name.now) ≤ length out.old }
    ensures { Wrote at (head_part (head_with priority lifetime full) (name_as text name.now)) out.old result out.new }
{
    let after_priority = octets::put16(out, at, priority);
    let after_lifetime = octets::put32(out, after_priority, lifetime);
    let after_mode = octets::put8(out, after_lifetime, u8::from(full));
    put_name(out, after_mode, text, name)
}

// Writes the addresses that stay, of `w` octets each: a list that is known to be clean is not looked at again.
fn put_addresses(out: &mut [u8], at: usize, w: usize, clean: bool, addresses: &[u8]) -> usize
    requires width { Width w }
    requires addresses_value { clean ≡ true → staying w addresses.now ≡ addresses.now }
    requires addresses_in_bounds { at + length (staying w addresses.now) ≤ length out.old }
    ensures { Wrote at (staying w addresses.now) out.old result out.new }
{
    if clean {
        return octets::copy(out, at, addresses);
    }
    addresses::put_kept(out, at, w, addresses)
}

// Writes what mode 1 adds, with the addresses that stay, of `w` octets each.
fn put_tail(
    out: &mut [u8],
    at: usize,
    w: usize,
    clean: bool,
    addresses: &[u8],
    parameters: &[u8],
) -> usize
    requires width { Width w }
    requires addresses_value { clean ≡ true → staying w addresses.now ≡ addresses.now }
    requires addresses_len_bound { (length (kept_of w (list_of w addresses.now)) ≤ limit.addresses) × (length parameters.now ≤ limit.parameters) }
    requires parameters_in_bounds { at + tail_size + length (staying w addresses.now) + length parameters.now ≤ length out.old }
    ensures { Wrote at (tail_part w addresses.now parameters.now) out.old result out.new }
{
    let from = at + 1;
    let after_addresses = put_addresses(out, from, w, clean, addresses);
    let count = (after_addresses - from) / w;
    octets::put8(out, at, count as u8);
    let after_length = octets::put16(out, after_addresses, parameters.len());
    octets::copy(out, after_length, parameters)
}

// Writes the record of these parts at `at`, the name in wire form and the addresses that stay, and returns the index after it.
pub fn put_fields(out: &mut [u8], at: usize, given: Given, parts: Parts<'_>) -> usize
    requires puttable { Puttable given (fields_in parts) }
    requires parameters_in_bounds { at + length (record_as given (fields_in parts)) ≤ length out.old }
    ensures { Wrote at (record_as given (fields_in parts.entry)) out.old result out.new }
{
    let head = parts.head;
    let end = put_head(
        out,
        at,
        given.text,
        head.priority,
        head.lifetime,
        head.full,
        parts.name,
    );
    if head.full {
        return put_tail(
            out,
            end,
            given.width,
            given.clean,
            parts.addresses,
            parts.parameters,
        );
    }
    end
}

// Whether a body yields a record: what is known of it, or the body's fault and its place in the body. (`&body[..]`: docs/DESIGN.md, Speed.)
pub fn examine(c: Carrier, body: &[u8]) -> Result<Examined, Flaw>
    ensures value { verdict_in result ≡ examined_of c (outcome_of c body.now) (verdict_in result).clean }
    ensures bounds { MatchResult result (λ e. (e.priority < 65536) × (e.size ≤ limit.record_size) × (e.clean ≡ true → Clean c body.now))
        (λ w. w.place ≤ length body.now) }
{
    let parts = blocks::split(c, &body[..])?;
    examine_parts(c, parts)
}

// Writes the record that a body yields at `at`, and returns the index after it. `clean`: every address is known to stay.
pub fn put_record(out: &mut [u8], at: usize, c: Carrier, clean: bool, body: &[u8]) -> usize
    requires kept { Kept (outcome_of c body.now) }
    requires clean { clean ≡ true → Clean c body.now }
    requires body_in_bounds { at + length (octets_in c (outcome_of c body.now)) ≤ length out.old }
    ensures { Wrote at (octets_in c (outcome_of c body.now)) out.old result out.new }
{
    let Ok(parts) = blocks::split(c, body) else {
        return at;
    };
    let given = Given {
        text: c.as_text(),
        width: c.address_width(),
        clean,
    };
    put_fields(out, at, given, parts)
}
