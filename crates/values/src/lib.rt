// Values as text and JSON show them, where `json` says which: the octets, keys and lists of parameters, names and addresses
// (docs/COMMAND.md). Octets of values are escaped. A name is shown as its text stands: that of a record that writing accepts has letters,
// digits, hyphens and dots alone. Nothing here judges a value.
#![tactic(auto)]

ghost use Rattle.std.specs.Prelude.{true, cond, [], ◌∷◌, ◌++◌, ◌≤◌, length};
ghost use Rattle.chars.specs.Puts.{Puts};
ghost use Rattle.values.specs.Values.{code_of, escaped_of, value_of, quoted, bracketed, before_of, key_of, gap_of, label_of, keys_of, protocols_of, carrier_of, longest_name, name_of, span_of, address_of};

use carriers::Carrier;
use chars::{put, put_all, put_number};
use octets::wide16;
use svcparams::Key;

// The key of the template of DNS over HTTPS (RFC 9461 §5).
const DOHPATH: usize = 7;

// Characters of a label with the blanks after it.
const COLUMNS: usize = 16;

// The lifetime that never ends: all ones (RFC 9463 §6.1).
const FOREVER: usize = 4294967295;

// Writes `a` in JSON, and else `b`.
pub fn put_either(out: &mut [u8], at: usize, json: bool, a: &[u8], b: &[u8]) -> usize
    ensures { Puts at (cond json a.now b.now) out.old result out.new }
{
    if json {
        return put_all(out, at, a);
    }
    put_all(out, at, b)
}

// Writes `a` in JSON, and else nothing.
pub fn put_json(out: &mut [u8], at: usize, json: bool, a: &[u8]) -> usize
    ensures { Puts at (cond json a.now []) out.old result out.new }
{
    if json {
        return put_all(out, at, a);
    }
    at.min(out.len())
}

// Writes the octet `b` in JSON, and else nothing.
pub fn put_mark(out: &mut [u8], at: usize, json: bool, b: u8) -> usize
    ensures { Puts at (cond json (b ∷ []) []) out.old result out.new }
{
    if json {
        return put(out, at, b);
    }
    at.min(out.len())
}

// ---- octets of a value

// Writes an octet as a backslash and three decimal digits.
fn put_code(out: &mut [u8], at: usize, json: bool, b: u8) -> usize
    ensures { Puts at (code_of json b) out.old result out.new }
{
    let next = put_either(out, at, json, b"\\\\", b"\\");
    let digits = [b'0' + b / 100, b'0' + b / 10 % 10, b'0' + b % 10];
    put_all(out, next, &digits)
}

// Writes an octet of a value: 33 to 126 as they are, but a backslash, a quotation mark and a comma after a backslash, and every other octet as
// a backslash and three decimal digits (in the manner of RFC 9460 appendix A).
fn put_escaped(out: &mut [u8], at: usize, json: bool, b: u8) -> usize
    ensures { Puts at (escaped_of json b) out.old result out.new }
{
    match b {
        b'\\' => put_either(out, at, json, b"\\\\\\\\", b"\\\\"),
        b'"' => put_either(out, at, json, b"\\\\\\\"", b"\\\""),
        b',' => put_either(out, at, json, b"\\\\,", b"\\,"),
        _ if b.is_ascii_graphic() => put(out, at, b),
        _ => put_code(out, at, json, b),
    }
}

// Writes the octets of a value.
fn put_value(out: &mut [u8], at: usize, json: bool, s: &[u8]) -> usize
    ensures { Puts at (value_of json s.now) out.old result out.new }
{
    let mut o = at.min(out.len());
    for &b in s {
        o = put_escaped(out, o, json, b);
    }
    o
}

// Writes the octets of a value, in JSON as a string.
pub fn put_string(out: &mut [u8], at: usize, json: bool, s: &[u8]) -> usize
    ensures { Puts at (quoted json (value_of json s.now)) out.old result out.new }
{
    let from = put_mark(out, at, json, b'"');
    let end = put_value(out, from, json, s);
    put_mark(out, end, json, b'"')
}

// ---- lists

// Writes a comma where commas stand between items, but before the first.
pub fn put_comma(out: &mut [u8], at: usize, commas: bool, first: bool) -> usize
    ensures { Puts at (before_of commas first) out.old result out.new }
{
    if first {
        return at.min(out.len());
    }
    put_mark(out, at, commas, b',')
}

// Writes a key by its name, or as keyN (RFC 9460 §2.1).
pub fn put_key(out: &mut [u8], at: usize, key: usize) -> usize
    ensures { Puts at (key_of key) out.old result out.new }
{
    match key {
        Key::MANDATORY => put_all(out, at, b"mandatory"),
        Key::ALPN => put_all(out, at, b"alpn"),
        Key::NO_DEFAULT_ALPN => put_all(out, at, b"no-default-alpn"),
        Key::PORT => put_all(out, at, b"port"),
        DOHPATH => put_all(out, at, b"dohpath"),
        _ => {
            let next = put_all(out, at, b"key");
            put_number(out, next, key)
        }
    }
}

// Fills up the label of a key to its columns, with one blank at least; where no value follows, not. (How long the label is, is found in a buffer
// of its own, since `out` may have had no room for it.)
fn put_gap(out: &mut [u8], at: usize, key: usize, size: usize) -> usize
    ensures { Puts at (gap_of key size) out.old result out.new }
{
    if size == 0 {
        return at.min(out.len());
    }
    let mut label = [0u8; COLUMNS - 1];
    let n = put_key(&mut label, 0, key);
    let blanks = [b' '; COLUMNS];
    let left = COLUMNS - n;
    put_all(out, at, &blanks[..left])
}

// Writes what stands before the value of a parameter: in JSON its key by number and by name, in text the beginning of a line up to its column.
pub fn put_label(out: &mut [u8], at: usize, json: bool, key: usize, size: usize) -> usize
    ensures { Puts at (label_of json key size) out.old result out.new }
{
    if json {
        let from = put_all(out, at, b"{\"key\":");
        let numbered = put_number(out, from, key);
        let name = put_all(out, numbered, b",\"name\":\"");
        let named = put_key(out, name, key);
        return put_all(out, named, b"\",\"value\":");
    }
    let from = put_all(out, at, b"\n    ");
    let named = put_key(out, from, key);
    put_gap(out, named, key, size)
}

// Writes an item of a list of keys.
fn put_key_item(out: &mut [u8], at: usize, json: bool, first: bool, key: usize) -> usize
    ensures { Puts at (before_of true first ++ quoted json (key_of key)) out.old result out.new }
{
    let opens = put_comma(out, at, true, first);
    let from = put_mark(out, opens, json, b'"');
    let end = put_key(out, from, key);
    put_mark(out, end, json, b'"')
}

// Writes the keys of a mandatory list one after another.
fn put_key_items(out: &mut [u8], at: usize, json: bool, s: &[u8]) -> usize
    ensures { Puts at (keys_of json s.now) out.old result out.new }
{
    let mut o = at.min(out.len());
    let mut first = true;
    let mut left = s;
    while let [upper, lower, rest @ ..] = left {
        o = put_key_item(out, o, json, first, wide16(*upper, *lower));
        first = false;
        left = rest;
    }
    o
}

// Writes the keys of a mandatory list, in JSON within brackets.
pub fn put_keys(out: &mut [u8], at: usize, json: bool, s: &[u8]) -> usize
    ensures { Puts at (bracketed json (keys_of json s.now)) out.old result out.new }
{
    let from = put_mark(out, at, json, b'[');
    let end = put_key_items(out, from, json, s);
    put_mark(out, end, json, b']')
}

// Writes an item of a list of protocols.
fn put_protocol(out: &mut [u8], at: usize, json: bool, first: bool, id: &[u8]) -> usize
    ensures { Puts at (before_of true first ++ quoted json (value_of json id.now)) out.old result out.new }
{
    let from = put_comma(out, at, true, first);
    put_string(out, from, json, id)
}

// Writes the protocols of an alpn list one after another.
fn put_protocol_items(out: &mut [u8], at: usize, json: bool, s: &[u8]) -> usize
    ensures { Puts at (protocols_of json s.now) out.old result out.new }
{
    let mut o = at.min(out.len());
    let mut first = true;
    let mut left = s;
    while let [n, rest @ ..] = left {
        let Some((id, others)) = rest.split_at_checked(usize::from(*n)) else {
            return o;
        };
        o = put_protocol(out, o, json, first, id);
        first = false;
        left = others;
    }
    o
}

// Writes the protocols of an alpn list, in JSON within brackets.
pub fn put_protocols(out: &mut [u8], at: usize, json: bool, s: &[u8]) -> usize
    ensures { Puts at (bracketed json (protocols_of json s.now)) out.old result out.new }
{
    let from = put_mark(out, at, json, b'[');
    let end = put_protocol_items(out, from, json, s);
    put_mark(out, end, json, b']')
}

// ---- carriers, names, lifetimes and addresses

// Writes a carrier's name.
pub fn put_carrier(out: &mut [u8], at: usize, c: Carrier) -> usize
    ensures { Puts at (carrier_of c) out.old result out.new }
{
    match c {
        Carrier::Dhcp4 => put_all(out, at, b"DHCPv4"),
        Carrier::Dhcp6 => put_all(out, at, b"DHCPv6"),
        Carrier::Router => put_all(out, at, b"router advertisement"),
        Carrier::Ike4 => put_all(out, at, b"IKEv2 ENCDNS_IP4"),
        Carrier::Ike6 => put_all(out, at, b"IKEv2 ENCDNS_IP6"),
    }
}

// Writes a name as text.
pub fn put_name(out: &mut [u8], at: usize, wire: &[u8]) -> usize
    requires { length wire.now ≤ longest_name }
    ensures { Puts at (name_of wire.now) out.old result out.new }
{
    if wire.len() < 2 {
        return at.min(out.len());
    }
    let mut text = [0u8; 256];
    let n = texts::to_text(&mut text, 0, wire);
    put_all(out, at, &text[..n])
}

// Writes a lifetime in seconds: in JSON the number, in text for a person.
pub fn put_span(out: &mut [u8], at: usize, json: bool, lifetime: usize) -> usize
    ensures { Puts at (span_of json lifetime) out.old result out.new }
{
    if json {
        return put_number(out, at, lifetime);
    }
    match lifetime {
        FOREVER => put_all(out, at, b"never expires"),
        0 => put_all(out, at, b"0 s, no longer to be used"),
        _ => {
            let next = put_number(out, at, lifetime);
            put_all(out, next, b" s")
        }
    }
}

// Writes an address by its length.
pub fn put_address(out: &mut [u8], at: usize, a: &[u8]) -> usize
    ensures { Puts at (address_of a.now) out.old result out.new }
{
    let mut text = [0u8; 48];
    if a.len() == 4 {
        let n = ips::put4(&mut text, 0, a);
        return put_all(out, at, &text[..n]);
    }
    if a.len() == 16 {
        let n = ips::put6(&mut text, 0, a);
        return put_all(out, at, &text[..n]);
    }
    at.min(out.len())
}
