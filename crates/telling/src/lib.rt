// What a reading leaves out, said in the order of the area: every block that is discarded, with its fault and where it stands, and every address
// that is dropped from the others. `findings` says where and why, `files` writes the lines; here the area is walked once more, block by block, as
// reading walks it, and the blocks that are said to be discarded are counted: they are as many as reading counts (specs/Discarded).
#![tactic(auto)]

ghost use Rattle.std.specs.Prelude.{◌≡◌, false, ◌+◌, ◌≤◌, length};
ghost use Rattle.numbers.specs.Limit as limit;
ghost use Rattle.carriers.specs.declared.Carrier.TheVariants.{Dhcp4};
ghost use Rattle.carriers.specs.Carriers.{is_joined};
ghost use Rattle.frames.specs.Frame.{frame};
ghost use Rattle.telling.specs.Discarded.{discards_body, discards_joined, Counted, Some};

use carriers::Carrier;
use files::{System, Voice};
use findings::{Finding, Lengths};
use frames::{Gathered, Step};
use lines::listed::Discard;
use numbers::Limit;
use octets::get16;

// Tells what is left out of an area under a carrier.
#[derive(Drop)]
struct Teller<'a, R> {
    voice: Voice<'a, R>,
    carrier: Carrier,
    area: &'a [u8],
}

impl<R: System> Teller<'_, R> {
    // Where in the area octet i of the blocks' octets stands: in carrier 1, of the joined data, else of the area itself.
    fn octet(&self, i: usize) -> usize
        requires { i ≤ length self.now.area.now }
    {
        let f = self.carrier.facts();
        if f.joined {
            return findings::place(self.area, i);
        }
        i
    }

    // That block k is discarded.
    fn discarded(&self, k: usize, octet: usize, t: Finding) {
        self.voice.discarded(Discard {
            block: k,
            octet,
            fault: t.fault,
            reason: t.reason,
            key: t.key,
        });
    }

    // Which of some addresses are dropped. They are of block k, and begin at `start`.
    fn addresses(&self, k: usize, start: usize, s: &[u8])
        requires { start + length s.now ≤ length self.now.area.now }
    {
        let w = self.carrier.address_width();
        let mut rest = s;
        while let Some((a, more)) = rest.split_at_checked(w) {
            if addresses::dropped(w, a) {
                let octet = self.octet(start + (s.len() - rest.len()));
                self.voice.dropped(k, octet, a);
            }
            rest = more;
        }
    }

    // Which addresses of a body are dropped. The body is of block k, and begins at `start`.
    fn dropped(&self, k: usize, start: usize, body: &[u8])
        requires { start + length body.now ≤ length self.now.area.now }
    {
        if let Ok(parts) = blocks::split(self.carrier, body) {
            if parts.head.full {
                let at = Lengths::of(self.carrier, parts).addresses_at();
                self.addresses(k, start + at, parts.addresses);
            }
        }
    }

    // Carriers 2 to 5: the body of block k, which begins at `start`. Returns 1 where it is discarded, else 0.
    fn block(&self, k: usize, start: usize, body: &[u8]) -> usize
        requires { start + length body.now ≤ length self.now.area.now }
        ensures { result ≡ discards_body self.now.carrier body.now }
    {
        if let Err(t) = findings::examine(self.carrier, body) {
            self.discarded(k, start + t.at, t);
            return 1;
        }
        self.dropped(k, start, body);
        0
    }

    // Carriers 2 to 5: the blocks one after another. Returns how many are discarded.
    fn blocks(&self) -> usize
        requires { is_joined self.now.carrier ≡ false }
        ensures { Counted self.now.carrier (frame self.now.carrier self.now.area.now) result }
    {
        let mut at: usize = 0;
        let mut k: usize = 0;
        let mut n: usize = 0;
        loop {
            match frames::next_block(self.carrier, self.area, at) {
                Ok(Step::Block { start, end }) => {
                    k += 1;
                    n += self.block(k, start, &self.area[start..end]);
                    at = end;
                }
                Ok(Step::Skipped { end }) => {
                    at = end;
                }
                Ok(Step::End) => {
                    return n;
                }
                Err(_) => {
                    return n;
                }
            }
        }
    }

    // Carrier 1: the instances of joined data without a fault. (By an index, as an instance says where the next begins, and its place is told.)
    fn instances(&self, joined: &[u8])
        requires { length joined.now ≤ length self.now.area.now }
    {
        let mut at: usize = 0;
        while 2 <= joined.len() - at {
            let start = at + 2;
            let long = get16(joined, at);
            if joined.len() - start < long {
                return;
            }
            let end = start + long;
            self.dropped(1, start, &joined[start..end]);
            at = end;
        }
    }

    // Carrier 1: the one block of joined data. Returns 1 where it is discarded, else 0.
    fn joined(&self, joined: &[u8]) -> usize
        requires { length joined.now ≤ length self.now.area.now }
        ensures { result ≡ discards_joined joined.now }
    {
        if let Err(t) = findings::examine_joined(joined) {
            self.discarded(1, findings::place(self.area, t.at), t);
            return 1;
        }
        self.instances(joined);
        0
    }

    // Carrier 1, of an area with an own option, with room for the joined data. Returns how many blocks are discarded.
    fn within(&self, buffer: &mut [u8]) -> usize
        requires { (length self.now.area.now ≤ length buffer.old) × Some (frame Dhcp4 self.now.area.now) }
        ensures { Counted Dhcp4 (frame Dhcp4 self.now.area.now) result }
    {
        match frames::join(self.area, buffer) {
            Ok(n) => self.joined(&buffer[..n]),
            Err(_) => 0,
        }
    }

    // Carrier 1: without an own option there is no block, and else one. Returns how many blocks are discarded.
    fn gathered(&self) -> usize
        requires { length self.now.area.now ≤ limit.input }
        ensures { Counted Dhcp4 (frame Dhcp4 self.now.area.now) result }
    {
        if let Ok(Gathered::Absent) = frames::gather(self.area) {
            return 0;
        }
        let mut buffer = [0u8; Limit::INPUT];
        self.within(&mut buffer)
    }
}

// Lists what is left out of an area that can be read. Returns how many blocks are discarded.
pub fn list<R: System>(rt: &R, json: bool, name: &[u8], c: Carrier, area: &[u8]) -> usize
    ensures { length area.now ≤ limit.input → Counted c (frame c area.now) result }
{
    if Limit::INPUT < area.len() {
        return 0;
    }
    let teller = Teller {
        voice: Voice { rt, json, name },
        carrier: c,
        area,
    };
    let f = c.facts();
    if f.joined {
        return teller.gathered();
    }
    teller.blocks()
}
