// Runs cases of the two calls from standard input, for comparison with an independent implementation (host/README.md).
// A case of reading is the letter r, a carrier, a room, a length and as many octets of an area; a case of writing is the letter w, a
// room, a length and as many octets of a sheet. A carrier is one octet; a room and a length are four, and a room above 65,536 counts
// as 65,536. Each case gives one line: what the call gives back, in decimal (of a reading the number, the length, what was found and
// discarded, the fault and the place; of a writing the number, the length and the place), the octets that it wrote, in hexadecimal or `-` for
// none, and `kept` or `changed`, whether the rest of its buffer is as before. Where no whole case stands the line is `?`, the last one. At most
// 1,048,576 octets are read.
#![tactic(auto)]

ghost use Rattle.std.specs.Prelude.{◌≡◌, true, ◌+◌, ◌≤◌, ◌<◌, length, IfOk};
ghost use Rattle.io.specs.Counts.{IsPrefixLen};
ghost use Rattle.boundaries.specs.Filling.{all_filled};
ghost use Rattle.boundaries.specs.Cases.{end_of, read_end, case_end, Past};

use answers::Result;
use reading::Reading;
use std::io::{Print, Read};

// How many octets are read.
const MOST: usize = 1048576;

// What a buffer holds at each index before a call.
const FILLING: u8 = 165;

// How many octets are printed at a time: a buffer of 4,096 holds their digits.
const PART: usize = 2048;

// Octets of a room and a length.
const SIZES: usize = 8;

// ---- buffers

fn fill(out: &mut [u8])
    ensures { all_filled out.new ≡ true }
{
    out.fill(FILLING);
}

// Whether each octet is as `fill` leaves it.
fn is_filled(s: &[u8]) -> bool
    ensures { result ≡ all_filled s.now }
{
    s.iter().all(|x| *x == FILLING)
}

// ---- lines

// Prints octets; whether that could be done, no one is told.
fn print<P: Print>(to: &P, s: &[u8]) {
    let _ = to.write_all(s);
}

// Prints x in decimal, after a space.
fn print_number<P: Print>(to: &P, x: usize) {
    let _ = print!(to; " {x}");
}

// Prints at most `PART` octets in hexadecimal.
fn print_part<P: Print>(to: &P, s: &[u8]) {
    let mut text = io::buffer();
    let n = hexes::put_octets(&mut text, 0, s);
    print(to, &text[..n]);
}

// Prints octets in hexadecimal, part by part.
fn print_octets<P: Print>(to: &P, s: &[u8]) {
    for part in s.chunks(PART) {
        print_part(to, part);
    }
}

// Prints octets in hexadecimal, after a space, or `-` where there are none.
fn print_result<P: Print>(to: &P, s: &[u8]) {
    if s.is_empty() {
        print(to, b" -");
        return;
    }
    print(to, b" ");
    print_octets(to, s);
}

// Prints how a line ends: the first `length` octets, and whether the rest is as before the call.
fn print_buffer<P: Print>(to: &P, out: &[u8], length: usize)
    requires { IsPrefixLen length out.now }
{
    print_result(to, &out[..length]);
    if is_filled(&out[length..]) {
        print(to, b" kept\n");
    } else {
        print(to, b" changed\n");
    }
}

fn print_reading<P: Print>(to: &P, r: Reading) {
    print(to, b"r");
    print_number(to, r.number);
    print_number(to, r.length);
    print_number(to, r.found);
    print_number(to, r.discarded);
    print_number(to, r.fault);
    print_number(to, r.place);
}

fn print_writing<P: Print>(to: &P, w: Result) {
    print(to, b"w");
    print_number(to, w.number);
    print_number(to, w.length);
    print_number(to, w.place);
}

// Prints that no whole case stands here.
fn print_nowhere<P: Print>(to: &P) {
    print(to, b"?\n");
}

// ---- cases

// Reads an area into the buffer `out`, and prints the line.
fn run_read<P: Print>(to: &P, carrier: u8, area: &[u8], out: &mut [u8]) {
    fill(out);
    let r = reading::read(usize::from(carrier), area, out);
    print_reading(to, r);
    print_buffer(to, out, r.length);
}

// Writes a sheet into the buffer `out`, and prints the line.
fn run_write<P: Print>(to: &P, sheet: &[u8], out: &mut [u8]) {
    fill(out);
    let w = writing::write(sheet, out);
    print_writing(to, w);
    print_buffer(to, out, w.length);
}

// Where the case ends whose room and length stand from `at` on.
fn end_of(s: &[u8], at: usize) -> Option<usize>
    requires { at ≤ length s.now }
    ensures value { result ≡ end_of s.now at }
    ensures past { Past (at + 8) s.now result }
{
    if s.len() - at < SIZES {
        return None;
    }
    let start = at + SIZES;
    let long = octets::get32(s, at + 4);
    if s.len() - start < long {
        return None;
    }
    Some(start + long)
}

// Runs the case of reading that stands from its carrier, at `at`, on.
fn read_case<P: Print>(to: &P, s: &[u8], at: usize, out: &mut [u8]) -> Option<usize>
    requires { at ≤ length s.now }
    ensures value { result ≡ read_end s.now at }
    ensures past { Past at s.now result }
{
    if s.len() == at {
        return None;
    }
    let sizes = at + 1;
    let end = end_of(s, sizes)?;
    let room = octets::get32(s, sizes).min(out.len());
    let start = sizes + SIZES;
    run_read(to, s[at], &s[start..end], &mut out[..room]);
    Some(end)
}

// Runs the case of writing that stands from its room, at `at`, on.
fn write_case<P: Print>(to: &P, s: &[u8], at: usize, out: &mut [u8]) -> Option<usize>
    requires { at ≤ length s.now }
    ensures value { result ≡ end_of s.now at }
    ensures past { Past at s.now result }
{
    let end = end_of(s, at)?;
    let room = octets::get32(s, at).min(out.len());
    let start = at + SIZES;
    run_write(to, &s[start..end], &mut out[..room]);
    Some(end)
}

// Runs the case that stands from its letter, at `at`, on.
fn run_case<P: Print>(to: &P, s: &[u8], at: usize, out: &mut [u8]) -> Option<usize>
    requires { at < length s.now }
    ensures value { result ≡ case_end s.now at }
    ensures past { Past (at + 1) s.now result }
{
    match s[at] {
        b'r' => read_case(to, s, at + 1, out),
        b'w' => write_case(to, s, at + 1, out),
        _ => None,
    }
}

// Runs the cases of s with buffers that are parts of `out`.
fn run<P: Print>(to: &P, s: &[u8], out: &mut [u8]) {
    let mut at: usize = 0;
    while at < s.len() {
        let Some(end) = run_case(to, s, at, out) else {
            print_nowhere(to);
            return;
        };
        at = end;
    }
}

// Reads until `buf` is full or the input ends. (`vectors` has the same: no crate below the two reads input, and one for this alone is no plainer.)
fn read_full<F: Read>(from: &mut F, buf: &mut [u8]) -> std::io::Result<usize>
    ensures { IfOk result (λ n. IsPrefixLen n buf.new) }
{
    let mut n = 0;
    while n < buf.len() {
        let more = from.read(&mut buf[n..])?;
        if more == 0 {
            return Ok(n);
        }
        n += more;
    }
    Ok(n)
}

// Runs the cases of an input, which is read to `input`.
fn run_input<F: Read, P: Print>(
    from: &mut F,
    to: &P,
    input: &mut [u8],
    out: &mut [u8],
) -> std::io::Result<()> {
    let n = read_full(from, input)?;
    run(to, &input[..n], out);
    Ok(())
}

// The same with an array: its length is known by its type, and no proof counts a million elements.
fn run_array<F: Read, P: Print>(
    from: &mut F,
    to: &P,
    input: &mut [u8; MOST],
    out: &mut [u8],
) -> std::io::Result<()> {
    run_input(from, to, input, out)
}

fn main(rt: HostRuntime) -> std::io::Result<()> {
    let mut input = [0u8; MOST];
    let mut out = io::large_buffer();
    run_array(&mut rt.stdin(), &rt, &mut input, &mut out)
}
