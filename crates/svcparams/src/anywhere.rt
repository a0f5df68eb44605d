// What is asked of a field whose keys stand in any order: whether they rise; whether a key is there (RULES P6); and whether a mandatory list is
// good, where each listed key is sought by itself, since one walk cannot tell (RULES P4). Only `value`, which is asked of any field, needs this:
// `params_fault` looks at values only after 26 is ruled out.
ghost use Rattle.std.specs.Prelude.{◌≡◌};
ghost use Rattle.svcparams.specs.Params.{rising, has, mandatory_good};
ghost use Rattle.svcparams.specs.Entries.{keys_in};

use crate::size;
use octets::{get16, wide16};

// Whether the keys of a field rise.
pub fn rises(p: &[u8]) -> bool
    ensures { result ≡ rising 0 (keys_in p.now) }
{
    let mut left = p;
    let mut least = 0;
    while let Some(n) = size(left) {
        let key = get16(left, 0);
        if key < least {
            return false;
        }
        least = key + 1;
        left = &left[n..];
    }
    true
}

// Whether a parameter has the key.
pub fn has_key(p: &[u8], key: usize) -> bool
    ensures { result ≡ has key (keys_in p.now) }
{
    let mut left = p;
    while let Some(n) = size(left) {
        if get16(left, 0) == key {
            return true;
        }
        left = &left[n..];
    }
    false
}

// Whether a mandatory list is not empty and whole, its keys rise without 0, and each is a parameter's.
pub fn mandatory_anywhere(m: &[u8], p: &[u8]) -> bool
    ensures { result ≡ mandatory_good m.now (keys_in p.now) }
{
    if m.is_empty() || m.len() % 2 != 0 {
        return false;
    }
    let mut left = m;
    let mut least = 1;
    while let [upper, lower, rest @ ..] = left {
        let key = wide16(*upper, *lower);
        if key < least || !has_key(p, key) {
            return false;
        }
        least = key + 1;
        left = rest;
    }
    true
}
