// Showing: a record sheet as text for a person or as JSON for a script, where `json` says which (docs/COMMAND.md). A function that writes takes
// the index at which it starts and returns the index after what it wrote; what has no room is left out (`Puts`). A line of text begins with a
// line break, so that the last has none after it. Nothing here judges a sheet: what is shown of one that writing refuses means nothing.
#![tactic(auto)]

ghost use Rattle.std.specs.Prelude.{List, [], ◌∷◌, ◌++◌, map, ◌≤◌, length};
ghost use Rattle.io.specs.Counts.{IsPrefixLen};
ghost use Rattle.blocks.specs.Block.{Fields};
ghost use Rattle.blocks.specs.Parts.{fields_in};
ghost use Rattle.sheets.specs.Sheets.{front_size};
ghost use Rattle.taking.specs.Standing.{Standing};
ghost use Rattle.chars.specs.Puts.{Puts};
ghost use Rattle.values.specs.Values.{before_of, list_of, longest_name};
ghost use Rattle.showing.specs.Showing.{value_by, parameter_of, parameters_of, address_item, addresses_of, lifetime_of, common_of};
ghost use Rattle.showing.specs.Showing.{lists_of, rest_of, record_of, count_of, line_of, object_of, head_of, shown_of};

use blocks::Parts;
use carriers::Carrier;
use chars::{put_all, put_number};
use octets::get16;
use svcparams::Key;
use taking::Records;
use values::{
    put_address, put_carrier, put_comma, put_either, put_json, put_keys, put_label, put_mark,
    put_name, put_protocols, put_span, put_string,
};

// ---- parameters

// Writes the value of a parameter.
fn put_of_key(out: &mut [u8], at: usize, json: bool, key: usize, v: &[u8]) -> usize
    ensures { Puts at (value_by json key v.now) out.old result out.new }
{
    if key == Key::MANDATORY {
        return put_keys(out, at, json, v);
    }
    if key == Key::ALPN {
        return put_protocols(out, at, json, v);
    }
    if key == Key::NO_DEFAULT_ALPN {
        if json {
            return put_all(out, at, b"null");
        }
    }
    if key == Key::PORT {
        if v.len() == 2 {
            return put_number(out, at, get16(v, 0));
        }
    }
    put_string(out, at, json, v)
}

// Writes a parameter: in text a line with nothing after the label where there is no value.
fn put_parameter(out: &mut [u8], at: usize, json: bool, first: bool, key: usize, v: &[u8]) -> usize
    ensures { Puts at (before_of json first ++ parameter_of json (record { key = key; value = v.now })) out.old result out.new }
{
    let from = put_comma(out, at, json, first);
    let named = put_label(out, from, json, key, v.len());
    let end = put_of_key(out, named, json, key, v);
    put_mark(out, end, json, b'}')
}

// Writes the parameters.
fn put_parameters(out: &mut [u8], at: usize, json: bool, p: &[u8]) -> usize
    ensures { Puts at (parameters_of json p.now) out.old result out.new }
{
    let mut o = at.min(out.len());
    let mut first = true;
    let mut rest = p;
    while let Some(n) = svcparams::size(rest) {
        o = put_parameter(out, o, json, first, get16(rest, 0), &rest[4..n]);
        first = false;
        rest = &rest[n..];
    }
    o
}

// ---- records

// Writes an address: in JSON a string, in text a line.
fn put_address_item(out: &mut [u8], at: usize, json: bool, first: bool, a: &[u8]) -> usize
    ensures { Puts at (before_of json first ++ address_item json a.now) out.old result out.new }
{
    let opens = put_comma(out, at, json, first);
    let from = put_either(out, opens, json, b"\"", b"\n    address         ");
    let end = put_address(out, from, a);
    put_mark(out, end, json, b'"')
}

// Writes the addresses of a carrier.
fn put_addresses(out: &mut [u8], at: usize, json: bool, c: Carrier, list: &[u8]) -> usize
    ensures { Puts at (addresses_of json c list.now) out.old result out.new }
{
    let mut o = at.min(out.len());
    let mut first = true;
    for address in list.chunks_exact(c.address_width()) {
        o = put_address_item(out, o, json, first, address);
        first = false;
    }
    o
}

// Writes the lifetime, where the carrier has one.
fn put_lifetime(out: &mut [u8], at: usize, json: bool, c: Carrier, lifetime: usize) -> usize
    ensures { Puts at (lifetime_of json c lifetime) out.old result out.new }
{
    if c.lifetime_width() == 0 {
        return at.min(out.len());
    }
    let from = put_either(out, at, json, b",\"lifetime\":", b"\n    lifetime        ");
    put_span(out, from, json, lifetime)
}

// Writes what mode 1 adds.
fn put_lists(
    out: &mut [u8],
    at: usize,
    json: bool,
    c: Carrier,
    list: &[u8],
    parameters: &[u8],
) -> usize
    ensures { Puts at (lists_of json c list.now parameters.now) out.old result out.new }
{
    let from = put_json(out, at, json, b",\"nameOnly\":false,\"addresses\":[");
    let listed = put_addresses(out, from, json, c, list);
    let next = put_json(out, listed, json, b"],\"parameters\":[");
    let end = put_parameters(out, next, json, parameters);
    put_json(out, end, json, b"]}")
}

// Writes what every record has: name, priority and, where the carrier has one, lifetime.
fn put_common(out: &mut [u8], at: usize, json: bool, c: Carrier, p: &Parts) -> usize
    requires { length p.now.name.now ≤ longest_name }
    ensures { Puts at (common_of json c p.now.head.priority p.now.head.lifetime p.now.name.now) out.old result out.new }
{
    let from = put_either(out, at, json, b"{\"name\":\"", b"\n\n");
    let named = put_name(out, from, p.name);
    let ranked = put_either(
        out,
        named,
        json,
        b"\",\"priority\":",
        b"\n    priority        ",
    );
    let next = put_number(out, ranked, p.head.priority);
    put_lifetime(out, next, json, c, p.head.lifetime)
}

// Writes what a record has by its mode.
fn put_rest(out: &mut [u8], at: usize, json: bool, c: Carrier, p: &Parts) -> usize
    ensures { Puts at (rest_of json c (fields_in p.now)) out.old result out.new }
{
    if p.head.full {
        return put_lists(out, at, json, c, p.addresses, p.parameters);
    }
    put_either(out, at, json, b",\"nameOnly\":true}", b"\n    name only")
}

// Writes a record: in JSON an object, in text lines after an empty one.
fn put_record(out: &mut [u8], at: usize, json: bool, first: bool, c: Carrier, p: &Parts) -> usize
    requires { length p.now.name.now ≤ longest_name }
    ensures { Puts at (before_of json first ++ record_of json c (fields_in p.now)) out.old result out.new }
{
    let from = put_comma(out, at, json, first);
    let next = put_common(out, from, json, c, p);
    put_rest(out, next, json, c, p)
}

// ---- the sheet

// Writes the end of the first line.
fn put_count(out: &mut [u8], at: usize, count: usize) -> usize
    ensures { Puts at (count_of count) out.old result out.new }
{
    let from = put_all(out, at, b"), ");
    let counted = put_number(out, from, count);
    put_either(out, counted, count == 1, b" record", b" records")
}

// Writes the first line.
fn put_line(out: &mut [u8], at: usize, c: Carrier, count: usize) -> usize
    ensures { Puts at (line_of c count) out.old result out.new }
{
    let named = put_carrier(out, at, c);
    let opened = put_all(out, named, b" (carrier ");
    let numbered = put_number(out, opened, usize::from(c.number()));
    put_count(out, numbered, count)
}

// Writes the object up to the records.
fn put_object(out: &mut [u8], at: usize, c: Carrier) -> usize
    ensures { Puts at (object_of c) out.old result out.new }
{
    let from = put_all(out, at, b"{\"carrier\":");
    let numbered = put_number(out, from, usize::from(c.number()));
    let name = put_all(out, numbered, b",\"carrierName\":\"");
    let named = put_carrier(out, name, c);
    put_all(out, named, b"\",\"records\":[")
}

// Writes what stands before the records.
fn put_head(out: &mut [u8], at: usize, json: bool, c: Carrier, count: usize) -> usize
    ensures { Puts at (head_of json c count) out.old result out.new }
{
    if json {
        return put_object(out, at, c);
    }
    put_line(out, at, c, count)
}

// Writes the records of a sheet; of octets that are none nothing is said.
fn put_records(out: &mut [u8], at: usize, json: bool, c: Carrier, s: &[u8]) -> usize
    ensures { (rs : List Fields) → Standing c s.now front_size rs → Puts at (list_of json (map (record_of json c) rs)) out.old result out.new }
{
    let mut o = at.min(out.len());
    let mut first = true;
    for record in Records::of(c, s) {
        o = put_record(out, o, json, first, c, &record.parts);
        first = false;
    }
    o
}

// Writes a sheet without its final line break: one line of JSON, or lines for a person. Of octets that are no sheet, nothing.
pub fn put_sheet(out: &mut [u8], at: usize, s: &[u8], json: bool) -> usize
    ensures { Puts at (shown_of json s.now) out.old result out.new }
{
    let Ok(sheet) = taking::take(s) else {
        return at.min(out.len());
    };
    let from = put_head(out, at, json, sheet.carrier, sheet.count);
    let end = put_records(out, from, json, sheet.carrier, s);
    put_json(out, end, json, b"]}")
}

// Writes a sheet and a line break at the front of `out`, and returns how many octets that is; of octets that are no sheet the line break alone.
pub fn show(s: &[u8], out: &mut [u8], json: bool) -> usize
    ensures prefix_len { IsPrefixLen result out.new }
    ensures puts { Puts 0 (shown_of json s.now ++ (10 ∷ [])) out.old result out.new }
{
    let end = put_sheet(out, 0, s, json);
    chars::put(out, end, b'\n')
}
