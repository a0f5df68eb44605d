// Writing: a record sheet becomes the octets of its options, attributes or joined instances (RULES C3, E1 to E3).
// The sheet is vetted (2, 40, 41, 42, 4, 43, then 21 to 28 record by record), then 44 and 5 are tested (RULES T5), and only when the answer is 0
// are its records written, in sheet order. Nothing is dropped and nothing is mended here: a record that may not be written refuses the sheet.
#![tactic(auto)]

ghost use Rattle.std.specs.Prelude.{◌≡◌, true, ◌+◌, ◌*◌, ◌≤◌, length};
ghost use Rattle.octets.specs.Over.{Wrote};
ghost use Rattle.numbers.specs.Limit as limit;
ghost use Rattle.carriers.specs.Carriers.{is_joined};
ghost use Rattle.blocks.specs.Parts.{fields_in};
ghost use Rattle.layouts.specs.Writable.{Writable};
ghost use Rattle.layouts.specs.Layouts.{stream_of};
ghost use Rattle.vetting.specs.Weighing.{share_of, most};
ghost use Rattle.written.specs.Writing.{write_records, write_of};
ghost use Rattle.answers.specs.Answers.{Writes};
ghost use Rattle.written.specs.Octets.{octets_of};
ghost use Rattle.writing.specs.Laying.{records_of, Found, Ready, total_of, Measured};

use answers::{Result, refused};
use blocks::Parts;
use carriers::Carrier;
use numbers::Refusal;
use taking::Records;
use vetting::Vetted;

// ---- octets

// Writes a record: in carrier 1 its instance, else its option or attribute.
fn put_record(out: &mut [u8], at: usize, c: Carrier, p: &Parts) -> usize
    requires writable { Writable c (fields_in p.now) }
    requires in_bounds { at + length (share_of c (fields_in p.now)) ≤ length out.old }
    ensures { Wrote at (share_of c (fields_in p.now)) out.old result out.new }
{
    match c {
        Carrier::Dhcp4 => layouts::put_instance(out, at, p),
        Carrier::Dhcp6 | Carrier::Router | Carrier::Ike4 | Carrier::Ike6 => {
            layouts::put_option(out, at, c, p)
        }
    }
}

// Writes the records of a sheet one after another from `from` on, and returns the index after them. (`&s[..]`: docs/DESIGN.md,
// Speed. Not by `Records::of`, so that the index of the first record is here for a must-fail edit to change: docs/DESIGN-PASS.md, 3.)
fn put_stream(out: &mut [u8], from: usize, c: Carrier, s: &[u8]) -> usize
    requires ready { Ready c s.now }
    requires s_in_bounds { from + length (stream_of c (records_of s.now)) ≤ length out.old }
    ensures { Wrote from (stream_of c (records_of s.now)) out.old result out.new }
{
    let records = Records {
        carrier: c,
        sheet: &s[..],
        at: sheets::FRONT,
    };
    let mut at = from;
    for record in records {
        at = put_record(out, at, c, &record.parts);
    }
    at
}

// Octets of the result, with records of `size` octets: in carrier 1 they are cut into options.
fn total_size(c: Carrier, size: usize) -> usize
    requires { size ≤ most * limit.records }
    ensures { result ≡ total_of c size }
{
    if c.facts().joined {
        pieces::cut_size(size)
    } else {
        size
    }
}

// Carrier 1: the instances of `size` octets are joined where the result of `total` octets ends, and then cut into options from its
// front on.
fn put_joined(out: &mut [u8], c: Carrier, s: &[u8], size: usize, total: usize) -> usize
    requires c_value { is_joined c ≡ true }
    requires ready { Ready c s.now }
    requires measured { Measured c s.now size total (length out.old) }
    ensures { Wrote 0 (octets_of c (records_of s.now)) out.old result out.new }
{
    let from = total - size;
    put_stream(out, from, c, s);
    pieces::cut_within(out, from, size)
}

// Writes the octets of a sheet, whose records have `size` octets, in all `total` octets.
fn put_octets(out: &mut [u8], c: Carrier, s: &[u8], size: usize, total: usize) -> usize
    requires ready { Ready c s.now }
    requires measured { Measured c s.now size total (length out.old) }
    ensures { Wrote 0 (octets_of c (records_of s.now)) out.old result out.new }
{
    if c.facts().joined {
        put_joined(out, c, s, size, total)
    } else {
        put_stream(out, 0, c, s)
    }
}

// ---- the call

// 44, 5, or the octets of a vetted sheet.
fn write_sheet(v: Vetted, s: &[u8], out: &mut [u8]) -> Result
    requires { Found v.carrier s.now v.large v.size }
    ensures { Writes (write_records v.carrier (records_of s.now) (length out.old)) out.old result out.new }
{
    let total = total_size(v.carrier, v.size);
    if v.large {
        return refused(Refusal::Large.number(), 0);
    }
    if out.len() < total {
        return refused(Refusal::Room.number(), 0);
    }
    let length = put_octets(out, v.carrier, s, v.size, total);
    answers::wrote(length)
}

// Writes the octets of the record sheet `s` to `out`.
pub fn write(s: &[u8], out: &mut [u8]) -> Result
    ensures { Writes (write_of s.now (length out.old)) out.old result out.new }
{
    match vetting::vet(s) {
        Ok(v) => write_sheet(v, s, out),
        Err(e) => refused(e.number(), e.place()),
    }
}
