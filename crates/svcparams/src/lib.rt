// Service parameters (SvcParams, RFC 9460) as RULES P1 to P8 narrow them: the first fault of a field of them, as a number (RULES R26 to R28).
// A field is parameters one after another, each a 16-bit key, a 16-bit length and a value; it may be empty. Tiling and the order of keys
// are decided over the whole field first, then address hints, then values. The values of keys without a rule are carried as they are.
// Nothing here changes or writes parameters.
#![tactic(auto)]

ghost use Rattle.std.specs.Prelude.{◌≡◌, ℕ, ◌≤◌, length, true, List, IfSome, unwrap_or};
ghost use Rattle.numbers.specs.Fault as fault;
ghost use Rattle.svcparams.specs.Key as keys;
ghost use Rattle.svcparams.specs.Params.{size_of, rising, has, mandatory_good, alpn_good, value_good, all_good, params_fault};
ghost use Rattle.svcparams.specs.Entries.{entries, keys_in};

use anywhere::{has_key, mandatory_anywhere, rises};
use numbers::Fault;
use octets::get16;
use walk::all_present;

mod anywhere;
mod walk;

// The keys that have rules here (RFC 9460 §14.3.2). Numbers and no enum: any of 65,536 keys may stand in a field, those without a rule too.
#[derive(Drop)]
pub struct Key();

impl Key {
    // The keys that a client must understand.
    pub const MANDATORY: usize = 0;

    pub const ALPN: usize = 1;

    pub const NO_DEFAULT_ALPN: usize = 2;

    pub const PORT: usize = 3;

    pub const IPV4HINT: usize = 4;

    pub const IPV6HINT: usize = 6;

    // Reserved as the invalid key.
    pub const INVALID: usize = 65535;
}

// How many octets the parameter that stands first has, its key and length among them, if one stands there whole. A length below 256 is its
// lower octet alone: the next parameter's place then depends on one octet, not on two put together (docs/BENCHMARKS.md).
pub fn size(s: &[u8]) -> Option<usize>
    ensures value { unwrap_or result 0 ≡ size_of s.now }
    ensures bounds { IfSome result (λ n. (4 ≤ n) × (n ≤ length s.now)) }
{
    if s.len() < 4 {
        return None;
    }
    if s[2] == 0 {
        let low = 4 + usize::from(s[3]);
        if s.len() < low {
            return None;
        }
        return Some(low);
    }
    let n = 4 + get16(s, 2);
    if s.len() < n {
        return None;
    }
    Some(n)
}

// Whether a mandatory list is not empty and whole, its keys rise without 0, and each is a parameter's, in a field whose keys rise.
fn mandatory(m: &[u8], p: &[u8]) -> bool
    requires { rising 0 (keys_in p.now) ≡ true }
    ensures { result ≡ mandatory_good m.now (keys_in p.now) }
{
    if m.is_empty() || m.len() % 2 != 0 {
        return false;
    }
    all_present(m, p).present
}

// Whether strings, none of them empty, tile the value, and there is one.
fn alpn(v: &[u8]) -> bool
    ensures { result ≡ alpn_good v.now }
{
    let mut left = v;
    while let [long, rest @ ..] = left {
        let long = usize::from(*long);
        if long == 0 || rest.len() < long {
            return false;
        }
        left = &rest[long..];
    }
    !v.is_empty()
}

// Whether the value v is one that its key allows, for keys other than mandatory. Of the other parameters these rules ask only whether alpn is
// one of them: `beside`, which is looked at for no-default-alpn alone.
fn plain(key: usize, v: &[u8], beside: bool) -> bool
    requires { key ≡ keys.mandatory → ⊥ }
    ensures { (ks : List ℕ) → (key ≡ keys.no_default_alpn → beside ≡ has keys.alpn ks) → result ≡ value_good key v.now ks }
{
    if key == Key::ALPN {
        return alpn(v);
    }
    if key == Key::NO_DEFAULT_ALPN {
        return v.is_empty() & beside;
    }
    if key == Key::PORT {
        return v.len() == 2;
    }
    true
}

// Whether the value v is one that its key allows in the field p, in whatever order the keys of p stand.
pub fn value(key: usize, v: &[u8], p: &[u8]) -> bool
    ensures { result ≡ value_good key v.now (keys_in p.now) }
{
    if key == Key::NO_DEFAULT_ALPN {
        return plain(key, v, has_key(p, Key::ALPN));
    }
    if key != Key::MANDATORY {
        return plain(key, v, false);
    }
    if rises(p) {
        return mandatory(v, p);
    }
    mandatory_anywhere(v, p)
}

// Whether the value v is one that its key allows in the field p, whose keys rise; `beside` as for `plain`.
fn allowed(key: usize, v: &[u8], p: &[u8], beside: bool) -> bool
    requires p_value { rising 0 (keys_in p.now) ≡ true }
    requires beside_value { key ≡ keys.no_default_alpn → beside ≡ has keys.alpn (keys_in p.now) }
    ensures { result ≡ value_good key v.now (keys_in p.now) }
{
    if key == Key::MANDATORY {
        return mandatory(v, p);
    }
    plain(key, v, beside)
}

// Whether each parameter's value is one that its key allows, in a field whose keys rise: above the port's no key has a rule, and alpn, if it is
// there, stands before no-default-alpn.
fn values(p: &[u8]) -> bool
    requires { rising 0 (keys_in p.now) ≡ true }
    ensures { result ≡ all_good (entries p.now) (keys_in p.now) }
{
    let mut left = p;
    let mut beside = false;
    while let Some(n) = size(left) {
        let key = get16(left, 0);
        if Key::PORT < key {
            return true;
        }
        if !allowed(key, &left[4..n], p, beside) {
            return false;
        }
        beside |= key == Key::ALPN;
        left = &left[n..];
    }
    true
}

// The first fault of the field, if it has one. Tiling and keys go before hints over the whole field: a hint is remembered, and answered at the end.
pub fn params_fault(p: &[u8]) -> Result<(), Fault>
    ensures { fault.number_in result ≡ params_fault p.now }
{
    let mut left = p;
    let mut least = 0;
    let mut hinted = false;
    while !left.is_empty() {
        let Some(n) = size(left) else {
            return Err(Fault::Parameters);
        };
        let key = get16(left, 0);
        if key < least || key == Key::INVALID {
            return Err(Fault::Parameters);
        }
        hinted |= (key == Key::IPV4HINT) | (key == Key::IPV6HINT);
        least = key + 1;
        left = &left[n..];
    }
    if hinted {
        return Err(Fault::Hint);
    }
    if !values(p) {
        return Err(Fault::Value);
    }
    Ok(())
}
