// Reading: an area under a carrier becomes a record sheet (RULES C3, W9, W10).
// The area is walked once. In carrier 1 with several options 162 it is walked to the second of them, where something stands before the first
// once more from there to the second, and then from the first on to join them. Each body is examined as it is met, and the places of at most 16
// kept bodies are remembered. Only when the answer is 0 are they ordered and written. The tests stand in the order 1, 2, 3, 4, 5 (RULES T1).
#![tactic(auto)]

ghost use Rattle.std.specs.Prelude.{◌≡◌, true, false, [], ◌∷◌, ◌≤◌, ◌<◌, length, Ok};
ghost use Rattle.octets.specs.Over.{Wrote};
ghost use Rattle.numbers.specs.Limit as limit;
ghost use Rattle.numbers.specs.Refusal as refusal;
ghost use Rattle.carriers.specs.declared.Carrier.TheVariants.{Dhcp4};
ghost use Rattle.frames.specs.Frame.{frame};
ghost use Rattle.frames.specs.Gather.{Several};
ghost use Rattle.judge.specs.Place.{judged, flawed};
ghost use Rattle.order.specs.Listed.{listed};
ghost use Rattle.records.specs.Examined.{verdict_in};
ghost use Rattle.sheets.specs.Sheets.{front_size, sheet_of};
ghost use Rattle.reading.specs.Reading.{joined_yield, in_order, read_blocks, read_framed, read_of};
ghost use Rattle.reading.specs.Result.{discarded, refuse, told, Reads};
ghost use Rattle.reading.specs.Tally.{records_at, slot_of, held_of, largest, Keeps, first_in, tally_in, Sound, Ready, answer_of};

use carriers::Carrier;
use frames::{Gathered, Step};
use judge::Flaw;
use numbers::{Fault, Limit, Refusal};
use order::{Slot, Slots};
use records::Examined;

// Sizes of the buffers in which the data of several options 162 are joined: of a usual message, and of half the largest input. Clearing
// 40 KiB evicts area and sheet from the cache, so smaller areas use a smaller buffer.
const USUAL: usize = 4096;

const HALF: usize = 20480;

// What a reading gives back: 0 and the sheet's length, the blocks found, the blocks discarded, the first discarded block's fault and, of
// 22, the place in that block at which its name is wrong, else 0; or a refusal's number and zeros.
#[repr(C)]
#[derive(Clone, Copy)]
pub struct Reading {
    pub number: usize,
    pub length: usize,
    pub found: usize,
    pub discarded: usize,
    pub fault: usize,
    pub place: usize,
}

// What is held of the records kept: where their bodies stand; the octets of a sheet of them; whether every address of theirs is known to stay; and
// whether there are more than 16 records, and then nothing else is asked.
#[derive(Drop)]
struct Held {
    slots: Slots,
    size: usize,
    clean: bool,
    more: bool,
}

// What is counted of the blocks met: how many were found, the first discarded block's fault with its place, and how many were discarded. (Fields that are
// neighbours in `Reading` are kept apart here: LLVM would load two by one instruction, which waits for their separate stores.)
#[derive(Clone, Copy)]
struct Counts {
    found: usize,
    first: Option<Flaw>,
    discarded: usize,
}

impl Held {
    // Of no records.
    fn new() -> Held
        ensures none { (result.slots.count ≡ 0) × (listed result.slots ≡ []) }
        ensures value { result ≡ held_of result.slots front_size true false }
    {
        Held {
            slots: Slots::new(),
            size: sheets::FRONT,
            clean: true,
            more: false,
        }
    }

    // One more record, of the body from `start` to `end`, of which `e` tells.
    fn keep(&mut self, e: Examined, start: usize, end: usize)
        requires place { (start ≤ end) × (end ≤ limit.input) }
        requires bounds { (e.priority < 65536) × (e.size ≤ limit.record_size) × (self.old.size ≤ largest self.old.slots.count) }
        ensures { Keeps self.old (verdict_in (Ok e)) start end self.new }
    {
        match self.slots.push(slot_of(e, start, end)) {
            Ok(()) => {
                self.size += e.size;
                self.clean &= e.clean;
            }
            Err(_) => self.more = true,
        }
    }
}

fn refused(why: Refusal) -> Reading
    ensures { result ≡ told (refuse (refusal.number_of why)) }
{
    Reading {
        number: why.number(),
        length: 0,
        found: 0,
        discarded: 0,
        fault: 0,
        place: 0,
    }
}

// The slot of the body from `start` to `end`, of which `e` tells.
fn slot_of(e: Examined, start: usize, end: usize) -> Slot
    requires { (start ≤ end) × (end ≤ limit.input) × (e.priority < 65536) }
    ensures { result ≡ slot_of (verdict_in (Ok e)) start end }
{
    Slot {
        priority: e.priority as u16,
        place: start as u16,
        length: (end - start) as u16,
    }
}

// The fault and the place that are given back: those of the first discarded block, or 0.
fn given_back(first: Option<Flaw>) -> (usize, usize)
    ensures { judged result.0 result.1 ≡ first_in first }
{
    match first {
        Some(flaw) => (flaw.fault.number(), flaw.place),
        None => (0, 0),
    }
}

// Orders the kept bodies of `source` and writes the sheet of their records. `clean`: every address of theirs is known to stay.
fn put_sheet(out: &mut [u8], c: Carrier, source: &[u8], slots: Slots, clean: bool) -> usize
    requires sound { Sound c source.now clean slots }
    requires slots_in_bounds { length (sheet_of c (records_at c source.now slots)) ≤ length out.old }
    ensures { Wrote 0 (sheet_of c (in_order (records_at c source.now slots))) out.old result out.new }
{
    let sorting = order::ordered(slots);
    let sorted = sorting.slots;
    let mut o = sheets::put_front(out, c, sorted.count as u8);
    for slot in sorted.as_slice() {
        let start = usize::from(slot.place);
        let end = start + usize::from(slot.length);
        o = records::put_record(out, o, c, clean, &source[start..end]);
    }
    o
}

// 4, 5, or the sheet of the kept records, with the blocks' counts. (`&source[..]`: see docs/DESIGN.md, Speed.)
fn settle(out: &mut [u8], c: Carrier, source: &[u8], held: Held, counts: Counts) -> Reading
    requires { Ready c source.now held }
    ensures { Reads (answer_of c source.now (tally_in held counts) (length out.old)) out.old result out.new }
{
    if held.more {
        return refused(Refusal::Records);
    }
    if out.len() < held.size {
        return refused(Refusal::Room);
    }
    let length = put_sheet(out, c, &source[..], held.slots, held.clean);
    let (fault, place) = given_back(counts.first);
    Reading {
        number: 0,
        length,
        found: counts.found,
        discarded: counts.discarded,
        fault,
        place,
    }
}

// Carriers 2 to 5: the blocks of an area, each of one body. Of those found, the bad ones are discarded.
fn read_blocks(c: Carrier, area: &[u8], out: &mut [u8]) -> Reading
    requires { (c ≡ Dhcp4 → ⊥) × (length area.now ≤ limit.input) }
    ensures { Reads (read_framed c (frame c area.now) (length out.old)) out.old result out.new }
{
    let mut held = Held::new();
    let mut found: usize = 0;
    let mut discarded: usize = 0;
    let mut first = None;
    let mut at: usize = 0;
    loop {
        match frames::next_block(c, area, at) {
            Ok(Step::Block { start, end }) => {
                found += 1;
                at = end;
                match records::examine(c, &area[start..end]) {
                    Err(flaw) => {
                        if discarded == 0 {
                            first = Some(flaw.back(c.header_size()));
                        }
                        discarded += 1;
                    }
                    Ok(e) => held.keep(e, start, end),
                }
            }
            Ok(Step::Skipped { end: past }) => at = frames::skip_foreign(c, area, past),
            Ok(Step::End) => {
                let counts = Counts {
                    found,
                    discarded,
                    first,
                };
                return settle(out, c, area, held, counts);
            }
            Err(why) => return refused(why),
        }
    }
}

// Carrier 1, where the one block is discarded.
fn discard_joined(joined: &[u8], out: &mut [u8], flaw: Flaw) -> Reading
    requires { joined_yield joined.now ≡ discarded (flawed flaw) }
    ensures { Reads (read_blocks Dhcp4 (joined.now ∷ []) (length out.old)) out.old result out.new }
{
    let counts = Counts {
        found: 1,
        discarded: 1,
        first: Some(flaw),
    };
    settle(out, Carrier::Dhcp4, joined, Held::new(), counts)
}

// Carrier 1: the one block of joined data, each instance read from its own octets and nothing around them. (An index, since each step is as long as
// the instance that stands there.)
fn read_instances(joined: &[u8], out: &mut [u8]) -> Reading
    requires { length joined.now ≤ limit.input }
    ensures { Reads (read_blocks Dhcp4 (joined.now ∷ []) (length out.old)) out.old result out.new }
{
    if joined.is_empty() {
        return discard_joined(&joined[..], out, Flaw::from(Fault::Field));
    }
    let c = Carrier::Dhcp4;
    let mut held = Held::new();
    let mut at: usize = 0;
    while at < joined.len() {
        if joined.len() - at < 2 {
            return discard_joined(&joined[..], out, Flaw::from(Fault::Field));
        }
        let long = octets::get16(&joined[..], at);
        let start = at + 2;
        if joined.len() - start < long {
            return discard_joined(&joined[..], out, Flaw::from(Fault::Field));
        }
        let end = start + long;
        let e = match records::examine(c, &joined[start..end]) {
            Ok(e) => e,
            Err(flaw) => return discard_joined(&joined[..], out, flaw.back(start)),
        };
        at = end;
        held.keep(e, start, end);
    }
    let counts = Counts {
        found: 1,
        discarded: 0,
        first: None,
    };
    settle(out, c, &joined[..], held, counts)
}

// Carrier 1 with several options 162: their data joined in a buffer that has room for the area.
fn read_within(area: &[u8], buffer: &mut [u8], out: &mut [u8]) -> Reading
    requires { (length area.now ≤ length buffer.old) × (length area.now ≤ limit.input) × Several (frame Dhcp4 area.now) }
    ensures { Reads (read_framed Dhcp4 (frame Dhcp4 area.now) (length out.old)) out.old result out.new }
{
    match frames::join(area, buffer) {
        Err(why) => refused(why),
        Ok(n) => read_instances(&buffer[..n], out),
    }
}

// The same in a local buffer of N octets.
fn read_in<const N: usize>(area: &[u8], out: &mut [u8]) -> Reading
    requires { (length area.now ≤ N) × (N ≤ limit.input) × Several (frame Dhcp4 area.now) }
    ensures { Reads (read_framed Dhcp4 (frame Dhcp4 area.now) (length out.old)) out.old result out.new }
{
    let mut buffer = [0u8; N];
    read_within(&area[..], &mut buffer, out)
}

// Carrier 1: the data of all options 162 are one block. What stands before the first of several is left out, so that the size of the rest
// chooses the buffer. Recursive on purpose: LLVM then does not inline it, and its buffers stay out of dnr_read's stack frame.
fn read_joined(area: &[u8], out: &mut [u8]) -> Reading
    requires { length area.now ≤ limit.input }
    ensures { Reads (read_framed Dhcp4 (frame Dhcp4 area.now) (length out.old)) out.old result out.new }
{
    let gathered = match frames::gather(&area[..]) {
        Err(why) => return refused(why),
        Ok(gathered) => gathered,
    };
    match gathered {
        Gathered::Absent => {
            let counts = Counts {
                found: 0,
                discarded: 0,
                first: None,
            };
            settle(out, Carrier::Dhcp4, &area[..], Held::new(), counts)
        }
        Gathered::One { start, end } => read_instances(&area[start..end], out),
        Gathered::Many { from } => {
            if 0 < from {
                return read_joined(&area[from..], out);
            }
            if area.len() <= USUAL {
                return read_in::<USUAL>(&area[..], out);
            }
            if area.len() <= HALF {
                return read_in::<HALF>(&area[..], out);
            }
            read_in::<{ Limit::INPUT }>(&area[..], out)
        }
    }
}

// 3, 4, 5, or the sheet of an area of a carrier.
fn read_area(c: Carrier, area: &[u8], out: &mut [u8]) -> Reading
    requires { length area.now ≤ limit.input }
    ensures { Reads (read_framed c (frame c area.now) (length out.old)) out.old result out.new }
{
    match c {
        Carrier::Dhcp4 => read_joined(area, out),
        Carrier::Dhcp6 | Carrier::Router | Carrier::Ike4 | Carrier::Ike6 => {
            read_blocks(c, area, out)
        }
    }
}

// Reads an area under a carrier number and writes the record sheet to `out`.
pub fn read(carrier: usize, area: &[u8], out: &mut [u8]) -> Reading
    ensures { Reads (read_of carrier area.now (length out.old)) out.old result out.new }
{
    let Some(c) = Carrier::of(carrier) else {
        return refused(Refusal::Carrier);
    };
    if Limit::INPUT < area.len() {
        return refused(Refusal::Input);
    }
    read_area(c, area, out)
}
