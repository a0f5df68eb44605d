// What is listed of an area that is not taken whole: the blocks that are discarded, the addresses that are dropped.
ghost use Rattle.std.specs.Prelude.{unwrap_or};
ghost use Rattle.io.specs.Counts.{IsPrefixLen};
ghost use Rattle.chars.specs.Puts.{Puts};
ghost use Rattle.numbers.specs.Fault as faults;
ghost use Rattle.reasons.specs.Params.{none};
ghost use Rattle.reasons.specs.Reason as reasons;
ghost use Rattle.lines.specs.Discards as discards;
ghost use Rattle.lines.specs.Listed.{reason_part, key_part, cause_of, discarded_of, dropped_of};

use crate::{put_about, put_count, put_worded};
use chars::put_all;
use numbers::Fault;
use reasons::{Param, Reason, number_in};
use words::put_reason;

// A block that is discarded. Blocks are counted from 1, octets of the area from 0.
#[derive(Clone, Copy)]
pub struct Discard {
    pub block: usize,
    pub octet: usize,
    // Why (RULES R20 to R29).
    pub fault: Fault,
    // Why its name is bad, and the key of the parameter at fault, where one is.
    pub reason: Option<Reason>,
    pub key: Option<usize>,
}

// ---- a block

// Writes why a name is bad, where one is; 0 is no reason.
fn put_reason_part(out: &mut [u8], at: usize, reason: usize) -> usize
    ensures { Puts at (reason_part reason) out.old result out.new }
{
    if reason == 0 {
        return at.min(out.len());
    }
    let from = put_all(out, at, b"; ");
    put_reason(out, from, reason)
}

// Writes the key of a parameter, where there is one.
fn put_key_part(out: &mut [u8], at: usize, key: usize) -> usize
    ensures { Puts at (key_part key) out.old result out.new }
{
    if Param::NONE <= key {
        return at.min(out.len());
    }
    let from = put_all(out, at, b"; parameter ");
    values::put_key(out, from, key)
}

// Writes why a block is discarded or a sheet refused, by its number, that of a reason or 0, and a key or `Param::NONE`, to the end of the line.
pub fn put_cause(out: &mut [u8], at: usize, fault: usize, reason: usize, key: usize) -> usize
    ensures prefix_len { IsPrefixLen result out.new }
    ensures puts { Puts at (cause_of fault reason key) out.old result out.new }
{
    let worded = put_worded(out, at, fault);
    let reasoned = put_reason_part(out, worded, reason);
    let end = put_key_part(out, reasoned, key);
    put_all(out, end, b"\n")
}

// Writes that a block is discarded: where, and why. A number that is no key of 16 bits, `Param::NONE` or above, is left out.
pub fn put_discard(out: &mut [u8], name: &[u8], d: Discard) -> usize
    ensures prefix_len { IsPrefixLen result out.new }
    ensures puts { Puts 0 (discarded_of name.now d.block d.octet (faults.number_of d.fault) (reasons.number_in d.reason) (unwrap_or d.key none)) out.old result out.new }
{
    let next = put_about(out, name);
    let counted = put_count(out, next, b": block ", d.block);
    let placed = put_count(out, counted, b", octet ", d.octet);
    let from = put_all(out, placed, b": discarded, ");
    let reason = number_in(d.reason);
    let key = d.key.unwrap_or(Param::NONE);
    put_cause(out, from, d.fault.number(), reason, key)
}

// The same, but that the key's number is written whatever it is: the lines differ for such a number alone (`lines/DiscardsLaws`).
pub fn put_discarded(out: &mut [u8], name: &[u8], d: Discard) -> usize
    ensures prefix_len { IsPrefixLen result out.new }
    ensures puts { Puts 0 (discards.discarded_of name.now d.block d.octet (faults.number_of d.fault) d.reason d.key) out.old result out.new }
{
    let next = put_about(out, name);
    let counted = put_count(out, next, b": block ", d.block);
    let placed = put_count(out, counted, b", octet ", d.octet);
    let from = put_all(out, placed, b": discarded, ");
    let worded = put_worded(out, from, d.fault.number());
    let reasoned = put_reason_part(out, worded, number_in(d.reason));
    let end = match d.key {
        None => reasoned,
        Some(key) => {
            let label = put_all(out, reasoned, b"; parameter ");
            values::put_key(out, label, key)
        }
    };
    put_all(out, end, b"\n")
}

// ---- an address

// Writes that an address is dropped, and where.
pub fn put_dropped(out: &mut [u8], name: &[u8], block: usize, octet: usize, a: &[u8]) -> usize
    ensures prefix_len { IsPrefixLen result out.new }
    ensures puts { Puts 0 (dropped_of name.now block octet a.now) out.old result out.new }
{
    let next = put_about(out, name);
    let counted = put_count(out, next, b": block ", block);
    let placed = put_count(out, counted, b", octet ", octet);
    let from = put_all(out, placed, b": address ");
    let end = values::put_address(out, from, a);
    put_all(out, end, b" dropped: multicast or loopback\n")
}
