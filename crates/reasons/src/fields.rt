// Which service parameter is at fault.
ghost use Rattle.std.specs.Prelude.{◌≡◌, ◌<◌, IfSome};
ghost use Rattle.svcparams.specs.Params.{is_hint};
ghost use Rattle.svcparams.specs.Entries.{keys_in};
ghost use Rattle.reasons.specs.Params.{param_of, unordered_from, wrong_of, wrong_from};

use crate::Param;
use octets::get16;
use svcparams::{Key, size, value};

// The first parameter that is not whole, whose key is not above the keys before it, or whose key is the invalid one. (Places, not slices of
// what is left, here and in `wrong`: the place is what is told.)
pub fn unordered(p: &[u8]) -> Param
    ensures value { param_of result ≡ unordered_from 0 0 0 p.now }
    ensures key { IfSome result.key (λ k. k < 65536) }
{
    let mut at = 0;
    let mut least = 0;
    while at < p.len() {
        let s = &p[at..];
        let Some(n) = size(s) else {
            return Param { at, key: None };
        };
        let key = get16(s, 0);
        if key < least || key == Key::INVALID {
            return Param { at, key: Some(key) };
        }
        least = key + 1;
        at += n;
    }
    Param { at: 0, key: None }
}

// Whether a key is an address hint.
fn is_hint(key: usize) -> bool
    ensures { result ≡ is_hint key }
{
    key == Key::IPV4HINT || key == Key::IPV6HINT
}

// Whether a parameter of the field p is a hint, or has a value that its key does not allow.
fn is_wrong(hints: bool, key: usize, v: &[u8], p: &[u8]) -> bool
    ensures { result ≡ wrong_of hints (keys_in p.now) key v.now }
{
    if hints {
        return is_hint(key);
    }
    !value(key, v, p)
}

// The first parameter that is so.
pub fn wrong(hints: bool, p: &[u8]) -> Param
    ensures value { param_of result ≡ wrong_from hints (keys_in p.now) 0 0 p.now }
    ensures key { IfSome result.key (λ k. k < 65536) }
{
    let mut at = 0;
    while let Some(n) = size(&p[at..]) {
        let s = &p[at..];
        let key = get16(s, 0);
        if is_wrong(hints, key, &s[4..n], p) {
            return Param { at, key: Some(key) };
        }
        at += n;
    }
    Param { at: 0, key: None }
}
