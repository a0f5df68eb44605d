// Taking a record sheet apart (RULES S1 to S5): the tests of its head (2, 40, 41), of its carrier (42) and of its records (4, 43), in this
// order (RULES T5), before anything is written from a sheet. `take` says why the octets are refused, or the sheet's carrier and how many
// records it has; `record_at` gives one record as it lies there, so that nothing is copied, and `Records` goes from one to the next.
// Here stand only the sheet's form, its order and its lifetimes: names, addresses and parameters are not looked at.
#![tactic(auto)]

ghost use Rattle.std.specs.Prelude.{◌≡◌, ◌+◌, ◌-◌, ◌≤◌, ℕ, List, length, drop};
ghost use Rattle.std.specs.Iterator.{at_most};
ghost use Rattle.carriers.specs.Carriers.{chosen_of};
ghost use Rattle.records.specs.Records.{head_size};
ghost use Rattle.sheets.specs.Sheets.{front_size};
ghost use Rattle.taking.specs.Taking.{head_of, records_from, take_records, take_carrier, take_of};
ghost use Rattle.taking.specs.Taking as taking;
ghost use Rattle.taking.specs.Took.{said_of, said_in, took_of, took_in, some};
ghost use Rattle.taking.specs.Spot.{named_at, by_mode, spot_of};
ghost use Rattle.taking.specs.Shown.{Lists, Shows};
ghost use Rattle.taking.specs.Turns.{Begins, Turns};

use blocks::{Head, Parts};
use carriers::Carrier;
use numbers::{Limit, Refusal};

// What a sheet's head says: the octet of the carrier, and the count of records.
#[derive(Clone, Copy)]
struct Front {
    carrier: usize,
    count: usize,
}

// A sheet that is taken: its carrier, and how many records it has.
#[derive(Clone, Copy)]
pub struct Sheet {
    pub carrier: Carrier,
    pub count: usize,
}

// A record as it stands in a sheet: its parts, the index at which its name begins, and the index after the record.
#[derive(Clone, Copy)]
pub struct Record<'a> {
    pub parts: Parts<'a>,
    pub name: usize,
    pub next: usize,
}

// What a record's mode adds after its name, and the octets after the record.
#[derive(Clone, Copy)]
struct Tail<'a> {
    addresses: &'a [u8],
    parameters: &'a [u8],
    rest: &'a [u8],
}

// Mode 0 adds nothing; mode 1 adds address count, addresses, parameter length and parameters.
fn after_name<'a>(c: Carrier, mode: u8, s: &'a [u8]) -> Option<Tail<'a>>
    ensures { (t : List ℕ) (at n : ℕ) → at + head_size + n ≤ length t → s.now ≡ drop (at + head_size + n) t
        → Lists t (by_mode c t mode (named_at t at n)) result }
{
    match mode {
        0 => Some(Tail {
            addresses: &s[..0],
            parameters: &s[..0],
            rest: s,
        }),
        1 => {
            let (count, s) = s.split_first()?;
            let (addresses, s) = s.split_at_checked(usize::from(*count) * c.address_width())?;
            let (size, s) = s.split_at_checked(2)?;
            let (parameters, rest) = s.split_at_checked(octets::get16(size, 0))?;
            Some(Tail {
                addresses,
                parameters,
                rest,
            })
        }
        _ => None,
    }
}

// The record whose first octet stands at `at`, if one stands there whole, with mode 0 or 1.
pub fn record_at<'a>(c: Carrier, s: &'a [u8], at: usize) -> Option<Record<'a>>
    ensures { Shows s.now at (spot_of c s.now at) result }
{
    let (_, rest) = s.split_at_checked(at)?;
    let (head, rest) = rest.split_at_checked(records::HEAD)?;
    let (name, rest) = rest.split_at_checked(usize::from(head[records::NAME_LENGTH_AT]))?;
    let mode = head[records::MODE_AT];
    let tail = after_name(c, mode, rest)?;
    Some(Record {
        parts: Parts {
            head: Head {
                priority: octets::get16(head, 0),
                lifetime: octets::get32(head, records::LIFETIME_AT),
                full: mode == 1,
            },
            name,
            addresses: tail.addresses,
            parameters: tail.parameters,
        },
        name: at + records::HEAD,
        next: s.len() - tail.rest.len(),
    })
}

// The records of a sheet one after another, from `at` on to where none stands: `for` goes through those of a taken sheet from its head's end on.
#[derive(Clone, Copy)]
pub struct Records<'a> {
    pub carrier: Carrier,
    pub sheet: &'a [u8],
    pub at: usize,
}

impl<'a> Records<'a> {
    // From the end of the head of `sheet` on.
    pub fn of(carrier: Carrier, sheet: &'a [u8]) -> Records<'a>
        ensures { Begins carrier sheet.now front_size result }
    {
        Records {
            carrier,
            sheet,
            at: sheets::FRONT,
        }
    }
}

impl<'a> Iterator for Records<'a> {
    type Item = Record<'a>;

    ghost next_gives = { Turns };

    ghost remaining = { λ i. at_most (length i.sheet.now - i.at) };

    fn next(&mut self) -> Option<Record<'a>> {
        let record = record_at(self.carrier, self.sheet, self.at)?;
        self.at = record.next;
        Some(record)
    }
}

// Whether a lifetime stands where none belongs.
fn misplaced(c: Carrier, lifetime: usize) -> bool
    ensures { result ≡ taking.misplaced c lifetime }
{
    c.lifetime_width() == 0 && lifetime != 0
}

// Whether exactly `count` records follow the head of `s`, by rising priority and with no lifetime where none belongs. (`at` is a local of its
// own, and no field of `Records`: docs/DESIGN.md, Speed.)
fn stand(c: Carrier, s: &[u8], count: usize) -> bool
    requires { front_size ≤ length s.now }
    ensures { result ≡ some (records_from c count 0 (drop front_size s.now)) }
{
    let mut at = sheets::FRONT;
    let mut least: usize = 0;
    for _ in 0..count {
        let Some(p) = record_at(c, s, at) else {
            return false;
        };
        let head = p.parts.head;
        if head.priority < least || misplaced(c, head.lifetime) {
            return false;
        }
        least = head.priority;
        at = p.next;
    }
    at == s.len()
}

// The tests 2, 40, 41.
fn head(s: &[u8]) -> Result<Front, Refusal>
    ensures { said_in result ≡ said_of (head_of s.now) }
{
    if Limit::INPUT < s.len() {
        return Err(Refusal::Input);
    }
    if s.len() < sheets::FRONT {
        return Err(Refusal::Sheet);
    }
    if !octets::same(&s[..sheets::VERSION_AT], &sheets::LETTERS) {
        return Err(Refusal::Sheet);
    }
    if octets::get16(s, sheets::VERSION_AT) != sheets::EDITION {
        return Err(Refusal::Version);
    }
    Ok(Front {
        carrier: usize::from(s[sheets::CARRIER_AT]),
        count: usize::from(s[sheets::COUNT_AT]),
    })
}

// The tests 4 and 43 on what follows the head of a sheet of carrier `c`.
fn take_records(c: Carrier, s: &[u8], count: usize) -> Result<Sheet, Refusal>
    requires { front_size ≤ length s.now }
    ensures { took_in result ≡ took_of (take_records c count (drop front_size s.now)) }
{
    if Limit::RECORDS < count {
        return Err(Refusal::Records);
    }
    if !stand(c, s, count) {
        return Err(Refusal::Tiling);
    }
    Ok(Sheet { carrier: c, count })
}

// The test 42, then 4 and 43.
fn take_carrier(carrier: usize, s: &[u8], count: usize) -> Result<Sheet, Refusal>
    requires { front_size ≤ length s.now }
    ensures { took_in result ≡ took_of (take_carrier (chosen_of carrier) count (drop front_size s.now)) }
{
    let c = Carrier::of(carrier).ok_or(Refusal::SheetCarrier)?;
    take_records(c, s, count)
}

// The tests 2, 40, 41, 42, 4, 43.
pub fn take(s: &[u8]) -> Result<Sheet, Refusal>
    ensures { took_in result ≡ took_of (take_of s.now) }
{
    let front = head(s)?;
    take_carrier(front.carrier, s, front.count)
}
