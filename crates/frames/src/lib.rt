// The framing of an area (RULES W1 to W8): where each option begins and ends, and which are the carrier's own. One walk for all five
// carriers, in which lengths in octets and in units of eight are never mixed (RULES B3). An area where a header or a body runs past the
// end cannot be framed (RULES R3). In carrier 1 the bodies are joined here (RULES W4; RFC 3396). Nothing here looks inside a body.
#![tactic(auto)]

ghost use Rattle.std.specs.Prelude.{◌≡◌, ◌↔◌, ◌+◌, ◌*◌, ◌≤◌, ◌<◌, length};
ghost use Rattle.octets.specs.Numbers.{number_at};
ghost use Rattle.octets.specs.Over.{Wrote};
ghost use Rattle.numbers.specs.Refusal as refusal;
ghost use Rattle.carriers.specs.declared.Carrier.TheVariants.{Dhcp4};
ghost use Rattle.carriers.specs.Carriers.{head_width, header_of, bare_code, in_eights};
ghost use Rattle.frames.specs.Frame.{whole_size, head_in, first_of, frame};
ghost use Rattle.frames.specs.Step.{step_at};
ghost use Rattle.frames.specs.Skip.{Skips, Passes};
ghost use Rattle.frames.specs.Emit.{length_said, head_of, CanSay};
ghost use Rattle.frames.specs.Told.{NoHeader, NothingFirst, StepSays, joined_length};
ghost use Rattle.frames.specs.Gather.{GatheredFrom, Joins};

use carriers::{Carrier, Eights, Octets};
use numbers::Refusal;

// Codes of carrier 1 that have no length octet: one octet of padding, and the end of the area (RFC 2132 §3.1, §3.2).
const PAD: u8 = 0;

const END: u8 = 255;

// What the reserved bit of an IKEv2 attribute's type adds (RFC 7296 §3.15.1).
const RESERVED: usize = 32768;

// Octets of a 16-bit code or length, and of a header of the two.
const WIDE: usize = 2;

const WIDE_HEADER: usize = WIDE + WIDE;

// A header as it stands: its code, and its length in two octets.
#[derive(Clone, Copy)]
struct Header {
    code: usize,
    upper: u8,
    lower: u8,
}

// What the header that stands first says: the area's end, or an option of `size` octets, its header counted, which is the carrier's own or not.
#[derive(Clone, Copy)]
pub enum Head {
    End,
    Option { own: bool, size: Octets },
}

// What stands at an index of an area: an own option with its body from `start` up to `end`, where the walk goes on; another option; or the
// area's end.
#[derive(Clone, Copy)]
pub enum Step {
    Block { start: usize, end: usize },
    Skipped { end: usize },
    End,
}

// The options 162 of an area: there is none, one with its body from `start` up to `end`, or several, with nothing to join before `from`. With the
// second the walk ends, and the area may still be one that cannot be framed.
#[derive(Clone, Copy)]
pub enum Gathered {
    Absent,
    One { start: usize, end: usize },
    Many { from: usize },
}

// The header that stands first in `s`, with a code and a length of `width` octets each.
fn header_in(width: usize, s: &[u8]) -> Header
    requires { (0 < width) × (width ≤ 2) × (width + width ≤ length s.now) }
    ensures code_value { result.code ≡ number_at width 0 s.now }
    ensures lower_value { result.upper * 256 + result.lower ≡ number_at width width s.now }
{
    if width == 1 {
        return Header {
            code: usize::from(s[0]),
            upper: 0,
            lower: s[1],
        };
    }
    Header {
        code: octets::get16(s, 0),
        upper: s[2],
        lower: s[3],
    }
}

// The code without the bit that is reserved.
fn bare_code(reserved: bool, code: usize) -> usize
    ensures { result ≡ bare_code reserved code }
{
    if reserved { code % RESERVED } else { code }
}

// How many octets an option with a header of `header` octets has, of which the length `n` was read.
fn whole_size(eights: bool, header: usize, n: usize) -> Octets
    requires { (header ≤ 4) × (n < 65536) }
    ensures { result.0 ≡ whole_size eights header n }
{
    if eights {
        carriers::octets_of(Eights(n))
    } else {
        Octets(header + n)
    }
}

// What a header with a code and a length says.
fn head_in(c: Carrier, s: &[u8]) -> Result<Head, Refusal>
    ensures value { result ≡ head_in c s.now }
    ensures variant { (refusal.number_in result ≡ refusal.framing) ↔ NoHeader c s.now }
{
    let f = c.facts();
    let width = f.width;
    let header = width + width;
    if s.len() < header {
        return Err(Refusal::Framing);
    }
    let h = header_in(width, s);
    let size = whole_size(f.eights, header, octets::wide16(h.upper, h.lower));
    if size.none() {
        return Err(Refusal::Framing);
    }
    Ok(Head::Option {
        own: bare_code(f.reserved, h.code) == f.code,
        size,
    })
}

// What the header that stands first in `s` says.
pub fn first(c: Carrier, s: &[u8]) -> Result<Head, Refusal>
    requires { 0 < length s.now }
    ensures value { result ≡ first_of c s.now }
    ensures variant { (refusal.number_in result ≡ refusal.framing) ↔ NothingFirst c s.now }
{
    let f = c.facts();
    if f.joined {
        let code = s[0];
        if code == PAD {
            return Ok(Head::Option {
                own: false,
                size: Octets(1),
            });
        }
        if code == END {
            return Ok(Head::End);
        }
    }
    head_in(c, s)
}

// What stands at an index of the area. (No iterator of blocks: reading passes over foreign options between two steps, by `skip_foreign`, and an index
// in a struct was measured slower as a loop's variable; docs/DESIGN.md, Speed.)
pub fn next_block(c: Carrier, area: &[u8], at: usize) -> Result<Step, Refusal>
    requires { at ≤ length area.now }
    ensures value { result ≡ step_at c area.now at }
    ensures step_says { StepSays c area.now at result }
{
    if at == area.len() {
        return Ok(Step::End);
    }
    match first(c, &area[at..])? {
        Head::End => Ok(Step::End),
        Head::Option { own, size } => {
            if area.len() - at < size.0 {
                return Err(Refusal::Framing);
            }
            let end = at + size.0;
            if own {
                let start = at + c.header_size();
                Ok(Step::Block { start, end })
            } else {
                Ok(Step::Skipped { end })
            }
        }
    }
}

// Passes over options of other codes, with 16-bit codes and lengths. A length below 256 is its lower octet alone, so that the walk does not
// wait for the two to be put together: the next header is found sooner.
fn skip_wide(code: usize, reserved: bool, area: &[u8], from: usize) -> usize
    requires { from ≤ length area.now }
    ensures { Passes code reserved area.now from result }
{
    let mut at = from;
    loop {
        if area.len() - at < WIDE_HEADER {
            return at;
        }
        let h = header_in(WIDE, &area[at..]);
        if bare_code(reserved, h.code) == code {
            return at;
        }
        let start = at + WIDE_HEADER;
        if h.upper == 0 {
            let n = usize::from(h.lower);
            if area.len() - start < n {
                return at;
            }
            at = start + n;
        } else {
            let n = octets::wide16(h.upper, h.lower);
            if area.len() - start < n {
                return at;
            }
            at = start + n;
        }
    }
}

// Where the walk may go on from an option at `at`: whole foreign options are passed over, in the carriers with 16-bit lengths.
pub fn skip_foreign(c: Carrier, area: &[u8], at: usize) -> usize
    requires { at ≤ length area.now }
    ensures { Skips c area.now at result }
{
    let f = c.facts();
    if f.joined || f.eights || f.width != WIDE {
        return at;
    }
    skip_wide(f.code, f.reserved, area, at)
}

// The length that says a body of n octets after a header of `header` octets.
fn length_said(eights: bool, header: usize, n: usize) -> usize
    requires { (header ≤ 4) × (n < 524288) }
    ensures { result ≡ length_said eights header n }
{
    if eights {
        carriers::eights_of(Octets(n + header)).0
    } else {
        n
    }
}

// Writes the header of an own option whose body has n octets, and returns the index after it.
pub fn put_header(out: &mut [u8], at: usize, c: Carrier, n: usize) -> usize
    requires c_in_bounds { at + header_of c ≤ length out.old }
    requires can_say { CanSay (in_eights c) (header_of c) (head_width c) n }
    ensures { Wrote at (head_of c n) out.old result out.new }
{
    let f = c.facts();
    let width = f.width;
    let said = length_said(f.eights, width + width, n);
    let next = octets::put_number(out, at, width, f.code);
    octets::put_number(out, next, width, said)
}

// The options 162 of an area of carrier 1.
pub fn gather(area: &[u8]) -> Result<Gathered, Refusal>
    ensures { GatheredFrom area.now result }
{
    let mut at: usize = 0;
    let mut from: usize = 0;
    let mut found = Gathered::Absent;
    loop {
        match next_block(Carrier::Dhcp4, area, at)? {
            Step::Block { start, end } => {
                let Gathered::Absent = found else {
                    return Ok(Gathered::Many { from });
                };
                found = Gathered::One { start, end };
                from = at;
                at = end;
            }
            Step::Skipped { end } => at = end,
            Step::End => return Ok(found),
        }
    }
}

// Copies the bodies of all options 162 of an area of carrier 1, one after another, to the front of `out`, and returns how many octets they have.
pub fn join(area: &[u8], out: &mut [u8]) -> Result<usize, Refusal>
    requires { length area.now ≤ length out.old }
    ensures joins { Joins (frame Dhcp4 area.now) out.old result out.new }
    ensures result_in_bounds { joined_length result ≤ length area.now }
{
    let mut at: usize = 0;
    let mut n: usize = 0;
    loop {
        match next_block(Carrier::Dhcp4, area, at)? {
            Step::Block { start, end } => {
                n = octets::copy(out, n, &area[start..end]);
                at = end;
            }
            Step::Skipped { end } => at = end,
            Step::End => return Ok(n),
        }
    }
}
