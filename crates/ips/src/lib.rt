// Ips: IP addresses as text, written into a lent buffer: IPv4 in dotted decimal, IPv6 as RFC 5952 §4 recommends, with the mixed
// notation of its §5 for IPv4-mapped addresses and for no others. An address has one text, and a text is of one address.
// Nothing here reads a text, or judges an address.
#![tactic(auto)]

ghost use Rattle.std.specs.Prelude.{◌≡◌, cond, [], ◌∷◌, map, ◌+◌, ◌*◌, ◌^◌, ◌≤◌, ◌<◌, eqb, length, IfSome};
ghost use Rattle.octets.specs.Numbers.{words};
ghost use Rattle.octets.specs.Over.{Wrote};
ghost use Rattle.ips.specs.Ips.{digit, numeral, decimal, hex, led, text4, run, longer, shortening, run_or_none, run_of, colons, around, shortened, mapped, mixed, text6};

// ---- numbers

// The character of a digit.
fn digit_of(d: usize) -> u8
    requires { d < 16 }
    ensures { result ≡ digit d }
{
    match d {
        0..=9 => (48 + d) as u8,
        _ => (97 + (d - 10)) as u8,
    }
}

// Writes a character at `at`, and returns the index after it.
fn put_code(out: &mut [u8], at: usize, code: u8) -> usize
    requires { at < length out.old }
    ensures { Wrote at (code ∷ []) out.old result out.new }
{
    out[at] = code;
    at + 1
}

// Writes a number below base ^ (1 + more) without leading zeros.
fn put_number(out: &mut [u8], at: usize, base: usize, more: usize, n: usize) -> usize
    requires base_nonzero { (0 < base) × (base ≤ 16) × (n < base ^ (more + 1)) }
    requires n_in_bounds { at + length (numeral base more n) ≤ length out.old }
    ensures { Wrote at (numeral base more n) out.old result out.new }
{
    if n < base {
        return put_code(out, at, digit_of(n));
    }
    let next = put_number(out, at, base, more - 1, n / base);
    put_code(out, next, digit_of(n % base))
}

// Writes an octet in decimal.
fn put_decimal(out: &mut [u8], at: usize, x: u8) -> usize
    requires { at + length (decimal x) ≤ length out.old }
    ensures { Wrote at (decimal x) out.old result out.new }
{
    put_number(out, at, 10, 2, usize::from(x))
}

// Writes a field in hexadecimal.
fn put_hex(out: &mut [u8], at: usize, field: usize) -> usize
    requires field_bound { field < 65536 }
    requires field_in_bounds { at + length (hex field) ≤ length out.old }
    ensures { Wrote at (hex field) out.old result out.new }
{
    put_number(out, at, 16, 3, field)
}

// ---- IPv4

// Writes a dot and an octet in decimal.
fn put_dotted(out: &mut [u8], at: usize, x: u8) -> usize
    requires { at + 1 + length (decimal x) ≤ length out.old }
    ensures { Wrote at (46 ∷ decimal x) out.old result out.new }
{
    let next = put_code(out, at, b'.');
    put_decimal(out, next, x)
}

// Writes the text of an IPv4 address, and returns the index after it.
pub fn put4(out: &mut [u8], at: usize, a: &[u8]) -> usize
    requires a_len { length a.now ≡ 4 }
    requires a_in_bounds { at + length (text4 a.now) ≤ length out.old }
    ensures { Wrote at (text4 a.now) out.old result out.new }
{
    let first = put_decimal(out, at, a[0]);
    let second = put_dotted(out, first, a[1]);
    let third = put_dotted(out, second, a[2]);
    put_dotted(out, third, a[3])
}

// ---- the run that is shortened

// A run of zero fields: the index of its first, and how many they are.
#[derive(Clone, Copy)]
struct Run {
    start: usize,
    count: usize,
}

// How many zero fields stand from a field on, where `after` stand after it.
fn zeros_from(field: usize, after: usize) -> usize
    requires { after < 8 }
    ensures { result ≡ cond (eqb field 0) (after + 1) 0 }
{
    if field == 0 { after + 1 } else { 0 }
}

// Of two runs the longer; the first where both are as long.
fn longer_of(p: Run, q: Run) -> Run
    ensures { result ≡ longer p q }
{
    if p.count < q.count { q } else { p }
}

// A run of two fields or more, or none.
fn shortening_of(r: Run) -> Option<Run>
    ensures value { run_or_none result ≡ shortening r }
    ensures bounds { IfSome result (λ q. 2 ≤ q.count) }
{
    if r.count < 2 { None } else { Some(r) }
}

// The run of an address that is shortened, found from the last field back to the first: n zeros stand from the field with index i on.
fn run_in(a: &[u8]) -> Option<Run>
    requires { length a.now ≡ 16 }
    ensures value { run_or_none result ≡ run_of (words a.now) }
    ensures bounds { IfSome result (λ q. 2 ≤ q.count) }
{
    let mut n: usize = 0;
    let mut best = Run { start: 8, count: 0 };
    for i in (0..8).rev() {
        n = zeros_from(octets::get16(a, 2 * i), n);
        best = longer_of(Run { start: i, count: n }, best);
    }
    shortening_of(best)
}

// ---- IPv6

// Writes a colon and a field.
fn put_next(out: &mut [u8], at: usize, field: usize) -> usize
    requires field_bound { field < 65536 }
    requires field_in_bounds { at + 1 + length (hex field) ≤ length out.old }
    ensures { Wrote at (58 ∷ hex field) out.old result out.new }
{
    let next = put_code(out, at, b':');
    put_hex(out, next, field)
}

// Writes the fields of some octets, with a colon before each.
fn put_led(out: &mut [u8], at: usize, s: &[u8]) -> usize
    requires { at + length (led 58 (map hex (words s.now))) ≤ length out.old }
    ensures { Wrote at (led 58 (map hex (words s.now))) out.old result out.new }
{
    let mut next = at;
    for k in 0..s.len() / 2 {
        next = put_next(out, next, octets::get16(s, 2 * k));
    }
    next
}

// Writes the fields of some octets, with colons between them.
fn put_fields(out: &mut [u8], at: usize, s: &[u8]) -> usize
    requires { at + length (colons (words s.now)) ≤ length out.old }
    ensures { Wrote at (colons (words s.now)) out.old result out.new }
{
    if s.len() < 2 {
        return at;
    }
    let next = put_hex(out, at, octets::get16(s, 0));
    put_led(out, next, &s[2..])
}

// Writes an address with two colons for the run of `count` fields from the one with index `start` on.
fn put_around(out: &mut [u8], at: usize, a: &[u8], start: usize, count: usize) -> usize
    requires a_len { (length a.now ≡ 16) × (start + count ≤ 8) }
    requires a_in_bounds { at + length (around (run start count) (words a.now)) ≤ length out.old }
    ensures { Wrote at (around (run start count) (words a.now)) out.old result out.new }
{
    let before = 2 * start;
    let after = 2 * (start + count);
    let left = put_fields(out, at, &a[..before]);
    let one = put_code(out, left, b':');
    let two = put_code(out, one, b':');
    put_fields(out, two, &a[after..])
}

// Writes an address in fields, with the run that is to be shortened.
fn put_shortened(out: &mut [u8], at: usize, a: &[u8]) -> usize
    requires a_len { length a.now ≡ 16 }
    requires a_in_bounds { at + length (shortened (run_of (words a.now)) (words a.now)) ≤ length out.old }
    ensures { Wrote at (shortened (run_of (words a.now)) (words a.now)) out.old result out.new }
{
    match run_in(a) {
        Some(Run { start, count }) => put_around(out, at, a, start, count),
        None => put_fields(out, at, a),
    }
}

// Whether an address is an IPv4-mapped one.
fn is_mapped(a: &[u8]) -> bool
    requires { length a.now ≡ 16 }
    ensures { result ≡ mapped a.now }
{
    if octets::zeros(&a[..10]) {
        return octets::get16(a, 10) == 65535;
    }
    false
}

// Writes an IPv4-mapped address in mixed notation.
fn put_mixed(out: &mut [u8], at: usize, a: &[u8]) -> usize
    requires a_len { length a.now ≡ 16 }
    requires a_in_bounds { at + length (mixed a.now) ≤ length out.old }
    ensures { Wrote at (mixed a.now) out.old result out.new }
{
    let next = octets::copy(out, at, b"::ffff:");
    put4(out, next, &a[12..])
}

// Writes the text of an IPv6 address, and returns the index after it.
pub fn put6(out: &mut [u8], at: usize, a: &[u8]) -> usize
    requires a_len { length a.now ≡ 16 }
    requires a_in_bounds { at + length (text6 a.now) ≤ length out.old }
    ensures { Wrote at (text6 a.now) out.old result out.new }
{
    if is_mapped(a) {
        return put_mixed(out, at, a);
    }
    put_shortened(out, at, a)
}
