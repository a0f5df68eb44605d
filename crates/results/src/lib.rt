// What a reading is printed as, written into a lent buffer as far as there is room: the sheet as `showing` has it, with what was found, what was
// discarded and the first fault with its place. Nothing here reads or writes a file.
#![tactic(auto)]

ghost use Rattle.io.specs.Counts.{IsPrefixLen};
ghost use Rattle.chars.specs.Puts.{Puts};
ghost use Rattle.results.specs.Results.{place_part, first_part, text_of, numbers_of, json_of, saved_of, result_of};

use chars::put_all;
use lines::put_count;
use numbers::Fault;
use reading::Reading;

// ---- as text

// Writes the place of fault 22 in its block, and of no other fault.
fn put_place_part(out: &mut [u8], at: usize, fault: usize, place: usize) -> usize
    ensures { Puts at (place_part fault place) out.old result out.new }
{
    if fault == Fault::Name.number() {
        let next = put_count(out, at, b" at octet ", place);
        return put_all(out, next, b" of its block");
    }
    at.min(out.len())
}

// Writes the first fault, where there is one.
fn put_first_part(out: &mut [u8], at: usize, fault: usize, place: usize) -> usize
    ensures { Puts at (first_part fault place) out.old result out.new }
{
    if fault == 0 {
        return at.min(out.len());
    }
    let next = put_count(out, at, b", fault ", fault);
    put_place_part(out, next, fault, place)
}

// Writes a reading as text, and returns how many octets that is.
fn put_text(out: &mut [u8], r: Reading, sheet: &[u8]) -> usize
    ensures prefix_len { IsPrefixLen result out.new }
    ensures puts { Puts 0 (text_of r.found r.discarded r.fault r.place sheet.now) out.old result out.new }
{
    let end = showing::put_sheet(out, 0, sheet, false);
    let next = put_count(out, end, b"\nfound ", r.found);
    let counted = put_count(out, next, b", discarded ", r.discarded);
    let last = put_first_part(out, counted, r.fault, r.place);
    put_all(out, last, b"\n")
}

// ---- in JSON

// Writes the numbers of a reading in JSON.
fn put_numbers(out: &mut [u8], r: Reading) -> usize
    ensures { Puts 0 (numbers_of r.found r.discarded r.fault r.place) out.old result out.new }
{
    let next = put_count(out, 0, b"{\"found\":", r.found);
    let counted = put_count(out, next, b",\"discarded\":", r.discarded);
    let last = put_count(out, counted, b",\"fault\":", r.fault);
    put_count(out, last, b",\"place\":", r.place)
}

// Writes a reading in JSON, and returns how many octets that is.
fn put_json(out: &mut [u8], r: Reading, sheet: &[u8]) -> usize
    ensures prefix_len { IsPrefixLen result out.new }
    ensures puts { Puts 0 (json_of r.found r.discarded r.fault r.place sheet.now) out.old result out.new }
{
    let next = put_numbers(out, r);
    let from = put_all(out, next, b",\"sheet\":");
    let end = showing::put_sheet(out, from, sheet, true);
    put_all(out, end, b"}\n")
}

// Writes in JSON a reading whose sheet, of so many octets, is saved.
pub fn put_saved(out: &mut [u8], r: Reading, length: usize) -> usize
    ensures prefix_len { IsPrefixLen result out.new }
    ensures puts { Puts 0 (saved_of r.found r.discarded r.fault r.place length) out.old result out.new }
{
    let next = put_numbers(out, r);
    let end = put_count(out, next, b",\"saved\":", length);
    put_all(out, end, b"}\n")
}

// ---- as it is asked for

// Writes a reading as it is asked for.
pub fn put(out: &mut [u8], json: bool, r: Reading, sheet: &[u8]) -> usize
    ensures prefix_len { IsPrefixLen result out.new }
    ensures puts { Puts 0 (result_of json r.found r.discarded r.fault r.place sheet.now) out.old result out.new }
{
    if json {
        return put_json(out, r, sheet);
    }
    put_text(out, r, sheet)
}
