// One walk over a mandatory list and the keys of the parameters (RULES P4, P9).
ghost use Rattle.std.specs.Prelude.{◌≡◌, ◌≤◌, ◌<◌, length, drop, IfSome, unwrap_or};
ghost use Rattle.octets.specs.Numbers.{words};
ghost use Rattle.svcparams.specs.Params.{size_of};
ghost use Rattle.svcparams.specs.Entries.{keys_in};
ghost use Rattle.svcparams.specs.Merge.{look, decided, Ran};

use crate::size;
use octets::get16;

// A step's decision.
#[derive(Clone, Copy)]
pub enum Decision {
    // Every listed key was found.
    AllFound,
    // The listed key is 0, absent, or not above the one before it.
    Refused,
    // The listed key is the parameter's: both lists go on by a key.
    Found,
    // The parameter's key is smaller: the parameters alone go on.
    Passed,
}

// A walk's answer and the number of its steps.
#[derive(Clone, Copy)]
pub struct Walked {
    pub present: bool,
    pub steps: usize,
}

// One step's decision. It is given at most one key of each list, and no list.
fn decide(listed: Option<usize>, held: Option<usize>) -> Decision
    ensures { result ≡ decided listed held }
{
    let Some(w) = listed else {
        return Decision::AllFound;
    };
    let Some(k) = held else {
        return Decision::Refused;
    };
    if w == 0 {
        return Decision::Refused;
    }
    if w < k {
        return Decision::Refused;
    }
    if w == k {
        return Decision::Found;
    }
    Decision::Passed
}

// The mandatory key at octet i, if one is left.
fn listed_at(m: &[u8], i: usize) -> Option<usize>
    requires { i ≤ length m.now }
    ensures { result ≡ look (words (drop i m.now)) }
{
    if m.len() - i < 2 {
        return None;
    }
    Some(get16(m, i))
}

// The key of the first parameter in s, if it has one, of n octets.
fn held_in(s: &[u8], n: Option<usize>) -> Option<usize>
    requires { (unwrap_or n 0 ≡ size_of s.now) × IfSome n (λ k. 4 ≤ k) }
    ensures { result ≡ look (keys_in s.now) }
{
    let Some(_) = n else {
        return None;
    };
    Some(get16(s, 0))
}

// Whether the mandatory list m, which has a key, rises without 0 and each of its keys is a parameter's in p, where the keys of p rise. Each
// turn of the inner loop is one step; i and at never go back (RULES P9; places, so that this is seen).
pub fn all_present(m: &[u8], p: &[u8]) -> Walked
    requires { 1 < length m.now }
    ensures { Ran (words m.now) (keys_in p.now) result.present result.steps }
{
    let mut i: usize = 0;
    let mut at: usize = 0;
    let mut steps: usize = 0;
    let mut present = false;
    'listed: loop {
        let listed = listed_at(m, i);
        'params: loop {
            let s = &p[at..];
            let n = size(s);
            let held = held_in(s, n);
            let next = at + n.unwrap_or(0);
            steps += 1;
            match decide(listed, held) {
                Decision::AllFound => {
                    present = true;
                    break 'listed;
                }
                Decision::Refused => {
                    break 'listed;
                }
                Decision::Found => {
                    at = next;
                    break 'params;
                }
                Decision::Passed => {
                    at = next;
                }
            }
        }
        i += 2;
    }
    Walked { present, steps }
}
