// Why a name is no host name, by the octet at its first bad place and by what stands beside it.
ghost use Rattle.std.specs.Prelude.{◌≡◌, get_or};
ghost use Rattle.reasons.specs.Reason as reason;
ghost use Rattle.reasons.specs.Names.{mark_of, length_reason, octet_reason, wire_reason};
ghost use Rattle.reasons.specs.Names.{before, dot_reason, hyphen_reason, letter_reason, text_octet, text_reason};

use crate::{Mark, Reason};
use names::is_alnum;

// ---- wire form

// What stands at a place of a name in wire form.
fn mark_at(s: &[u8], at: usize) -> Mark
    ensures { result ≡ mark_of s.now at }
{
    let mut left = 0;
    for (i, x) in s.iter().enumerate() {
        if i == at {
            return if left == 0 { Mark::Length } else { Mark::Label };
        }
        if left != 0 {
            left -= 1;
        } else if *x == 0 {
            return Mark::After;
        } else {
            left = usize::from(*x);
        }
    }
    Mark::Label
}

fn length_reason(x: u8) -> Reason
    ensures { reason.number_of result ≡ length_reason x }
{
    match x {
        0 => Reason::Empty,
        192.. => Reason::Pointer,
        64.. => Reason::Label,
        _ => Reason::Long,
    }
}

fn octet_reason(x: u8) -> Reason
    ensures { reason.number_of result ≡ octet_reason x }
{
    match x {
        b'_' => Reason::Underscore,
        b'-' => Reason::Hyphen,
        _ => Reason::Octet,
    }
}

// Of a name in wire form that is bad at a place.
pub fn wire_reason(s: &[u8], at: usize) -> Reason
    ensures { reason.number_of result ≡ wire_reason s.now at }
{
    if s.is_empty() {
        return Reason::Empty;
    }
    if s.len() <= at {
        return Reason::Cut;
    }
    let x = s[at];
    match mark_at(s, at) {
        Mark::Length => length_reason(x),
        Mark::Label => octet_reason(x),
        Mark::After => Reason::After,
    }
}

// ---- text

// The octet at a place, and a dot past the end: there a label ends as at a dot.
fn octet_at(s: &[u8], at: usize) -> u8
    ensures { result ≡ get_or s.now at 46 }
{
    match s.get(at) {
        Some(x) => *x,
        None => b'.',
    }
}

// The octet before a place, and a dot before the first: there a label begins as after a dot.
fn octet_before(s: &[u8], at: usize) -> u8
    ensures { result ≡ before s.now at }
{
    if at == 0 {
        return b'.';
    }
    octet_at(s, at - 1)
}

// A dot between two octets.
fn dot_reason(before: u8, next: u8) -> Reason
    ensures { reason.number_of result ≡ dot_reason before next }
{
    match (before, next) {
        (b'.', _) => Reason::Dot,
        (b'-', _) => Reason::Hyphen,
        (_, b'.') => Reason::Dot,
        _ => Reason::Long,
    }
}

// A hyphen between two octets, at a place.
fn hyphen_reason(before: u8, next: u8, at: usize) -> Reason
    ensures { reason.number_of result ≡ hyphen_reason before next at }
{
    if before == b'.' || next == b'.' {
        return Reason::Hyphen;
    }
    if 252 <= at {
        return Reason::Long;
    }
    Reason::Label
}

// A letter or a digit at a place.
fn letter_reason(at: usize) -> Reason
    ensures { reason.number_of result ≡ letter_reason at }
{
    if 253 <= at {
        return Reason::Long;
    }
    Reason::Label
}

// The octet x between two others, at a place.
fn text_octet(before: u8, next: u8, at: usize, x: u8) -> Reason
    ensures { reason.number_of result ≡ text_octet before next at x }
{
    match x {
        b'_' => Reason::Underscore,
        b'.' => dot_reason(before, next),
        b'-' => hyphen_reason(before, next, at),
        _ if is_alnum(x) => letter_reason(at),
        _ => Reason::Octet,
    }
}

// Of a name as text that is bad at a place.
pub fn text_reason(s: &[u8], at: usize) -> Reason
    ensures { reason.number_of result ≡ text_reason s.now at }
{
    if s.is_empty() {
        return Reason::Empty;
    }
    let before = octet_before(s, at);
    if s.len() <= at {
        if before == b'.' {
            return Reason::Dot;
        }
        return Reason::Hyphen;
    }
    text_octet(before, octet_at(s, at + 1), at, s[at])
}
