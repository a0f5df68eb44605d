// Answers test vectors over names, addresses and parameters, for comparison with an independent implementation (host/README.md).
// A case is a line of standard input: a letter, a space, octets in hexadecimal. Its answer is the same line of standard output, and `?`
// where the line is no case. At most 65,536 octets are read, and at most so many written: what has no room is left out.
// Each function that writes takes the index at which it starts, and returns the index after what it wrote.
#![tactic(auto)]

ghost use Rattle.std.specs.Prelude.{◌≡◌, ◌+◌, ◌≤◌, length, drop, IfOk};
ghost use Rattle.io.specs.Counts.{IsPrefixLen};
ghost use Rattle.chars.specs.Puts.{Puts};
ghost use Rattle.numbers.specs.Fault as fault;
ghost use Rattle.names.specs.Names.{IsName};
ghost use Rattle.names.specs.Wire.{name_check};
ghost use Rattle.texts.specs.Texts.{IsText, text_of, wire_of};
ghost use Rattle.texts.specs.TextCheck.{text_check};
ghost use Rattle.addresses.specs.Addresses.{Width};
ghost use Rattle.hexes.specs.Decoding.{decode_of};
ghost use Rattle.vectors.specs.Answers.{number_text, hex_text, good_text, bad_text, name_text, drops_of, kept_text, addresses_text};
ghost use Rattle.vectors.specs.Answers.{answer_text, case_text, letter_of, decoded_text, line_text, answers_text};
ghost use Rattle.vectors.specs.Answers as answers;

use chars::{put, put_all, put_number};
use numbers::Fault;
use std::io::Read;

// Writes x in decimal, after a space.
fn put_decimal(out: &mut [u8], at: usize, x: usize) -> usize
    ensures { Puts at (number_text x) out.old result out.new }
{
    let next = put(out, at, b' ');
    put_number(out, next, x)
}

// Writes the octets of s in hexadecimal, after a space; nothing where there are none.
fn put_hex(out: &mut [u8], at: usize, s: &[u8]) -> usize
    ensures { Puts at (hex_text s.now) out.old result out.new }
{
    if s.is_empty() {
        return put_all(out, at, b"");
    }
    let next = put(out, at, b' ');
    hexes::put_octets(out, next, s)
}

// Writes that a name is good, and its other form.
fn put_good(out: &mut [u8], at: usize, form: &[u8]) -> usize
    ensures { Puts at (good_text form.now) out.old result out.new }
{
    let next = put_all(out, at, b" ok");
    put_hex(out, next, form)
}

// Writes that a name is bad, and where.
fn put_bad(out: &mut [u8], at: usize, place: usize) -> usize
    ensures { Puts at (bad_text place) out.old result out.new }
{
    let next = put_all(out, at, b" bad");
    put_decimal(out, next, place)
}

// Writes that a name in wire form is good, and its text form.
fn put_text(out: &mut [u8], at: usize, wire: &[u8]) -> usize
    requires { IsName wire.now }
    ensures { Puts at (good_text (text_of wire.now)) out.old result out.new }
{
    let mut text = [0u8; 256];
    let n = texts::to_text(&mut text, 0, wire);
    put_good(out, at, &text[..n])
}

// Writes that a name in text form is good, and its wire form.
fn put_wire(out: &mut [u8], at: usize, text: &[u8]) -> usize
    requires { IsText text.now }
    ensures { Puts at (good_text (wire_of text.now)) out.old result out.new }
{
    let mut wire = [0u8; 256];
    let n = texts::to_wire(&mut wire, 0, text);
    put_good(out, at, &wire[..n])
}

// Writes the answer of a name in wire form.
fn answer_wire(out: &mut [u8], at: usize, wire: &[u8]) -> usize
    ensures { Puts at (name_text (text_of wire.now) (name_check wire.now)) out.old result out.new }
{
    match names::check_wire(wire) {
        Ok(()) => put_text(out, at, wire),
        Err(place) => put_bad(out, at, place),
    }
}

// Writes the answer of a name in text form.
fn answer_text(out: &mut [u8], at: usize, text: &[u8]) -> usize
    ensures { Puts at (name_text (wire_of text.now) (text_check text.now)) out.old result out.new }
{
    match texts::check_text(text) {
        Ok(()) => put_wire(out, at, text),
        Err(place) => put_bad(out, at, place),
    }
}

// Writes the addresses of w octets that are kept.
fn put_kept(out: &mut [u8], at: usize, w: usize, s: &[u8]) -> usize
    requires width { Width w }
    requires s_len_bound { length s.now ≤ 4096 }
    ensures { Puts at (kept_text w s.now) out.old result out.new }
{
    let mut kept = io::buffer();
    let n = addresses::put_kept(&mut kept, 0, w, s);
    put_hex(out, at, &kept[..n])
}

// 1 for an address list that has one to drop, and else 0.
fn drops(w: usize, s: &[u8]) -> usize
    requires { Width w }
    ensures { result ≡ drops_of w s.now }
{
    usize::from(addresses::any_unusable(w, s))
}

// Writes the answer of a list of addresses of w octets: how many are kept, whether one is dropped, and those that are kept.
fn answer_addresses(out: &mut [u8], at: usize, w: usize, s: &[u8]) -> usize
    requires width { Width w }
    requires s_len_bound { length s.now ≤ 4096 }
    ensures { Puts at (addresses_text w s.now) out.old result out.new }
{
    let next = put_decimal(out, at, addresses::kept_count(w, s));
    let from = put_decimal(out, next, drops(w, s));
    put_kept(out, from, w, s)
}

// The number of a field's fault, or 0.
fn number_of(answer: Result<(), Fault>) -> usize
    ensures { result ≡ fault.number_in answer }
{
    match answer {
        Ok(()) => 0,
        Err(fault) => fault.number(),
    }
}

// Writes what follows the letter in the answer of a case; nothing after `?`.
#[tactic(auto, unfolding(crate::specs::Answers::answer_text))]
fn answer(out: &mut [u8], at: usize, letter: u8, s: &[u8]) -> usize
    requires { length s.now ≤ 4096 }
    ensures { Puts at (answer_text letter s.now) out.old result out.new }
{
    match letter {
        b'w' => answer_wire(out, at, s),
        b't' => answer_text(out, at, s),
        b'a' => answer_addresses(out, at, 4, s),
        b'b' => answer_addresses(out, at, 16, s),
        b'p' => put_decimal(out, at, number_of(svcparams::params_fault(s))),
        _ => put_all(out, at, b""),
    }
}

// A letter of a case as it is, and `?` for any other.
fn known(x: u8) -> u8
    ensures { result ≡ answers.known x }
{
    match x {
        b'w' | b't' | b'a' | b'b' | b'p' => x,
        _ => b'?',
    }
}

// The letter of a line that begins as a case does, and `?` for any other.
fn letter_of(line: &[u8]) -> u8
    ensures { result ≡ letter_of line.now }
{
    match line {
        [letter, b' ', ..] => known(*letter),
        _ => b'?',
    }
}

// Writes the answer of a case.
fn put_case(out: &mut [u8], at: usize, letter: u8, s: &[u8]) -> usize
    requires { length s.now ≤ 4096 }
    ensures { Puts at (case_text letter s.now) out.old result out.new }
{
    let next = put(out, at, letter);
    answer(out, next, letter, s)
}

// Writes the answer of a case whose octets are given in hexadecimal.
fn put_decoded(out: &mut [u8], at: usize, letter: u8, digits: &[u8]) -> usize
    ensures { Puts at (decoded_text letter (decode_of digits.now 4096)) out.old result out.new }
{
    let mut octets = io::buffer();
    match hexes::decode(digits, &mut octets) {
        Ok(n) => put_case(out, at, letter, &octets[..n]),
        Err(_) => put(out, at, b'?'),
    }
}

// Writes the answer of a line.
fn put_line(out: &mut [u8], at: usize, line: &[u8]) -> usize
    ensures { Puts at (line_text line.now) out.old result out.new }
{
    let letter = letter_of(line);
    if line.len() <= 2 {
        return put_case(out, at, letter, &line[..0]);
    }
    put_decoded(out, at, letter, &line[2..])
}

// Writes the answer of each line of s, and returns how many octets that is. (No `split` at breaks: the last one begins no line.)
fn run(s: &[u8], out: &mut [u8]) -> usize
    ensures prefix_len { IsPrefixLen result out.new }
    ensures puts { Puts 0 (answers_text s.now) out.old result out.new }
{
    let mut at = 0;
    let mut o = 0;
    while at < s.len() {
        let end = words::line_end(s, at);
        o = put_line(out, o, &s[at..end]);
        o = put(out, o, b'\n');
        at = end + 1;
    }
    o
}

// Reads until `buf` is full or the input ends. (`boundaries` has the same: no crate below the two reads input, and one for this alone is no plainer.)
fn fill<F: Read>(from: &mut F, buf: &mut [u8]) -> std::io::Result<usize>
    ensures { IfOk result (λ n. IsPrefixLen n buf.new) }
{
    let mut n = 0;
    while n < buf.len() {
        let more = from.read(&mut buf[n..])?;
        if more == 0 {
            return Ok(n);
        }
        n += more;
    }
    Ok(n)
}

fn main(rt: HostRuntime) -> std::io::Result<()> {
    let mut s = io::large_buffer();
    let n = fill(&mut rt.stdin(), &mut s)?;
    let mut out = io::large_buffer();
    let m = run(&s[..n], &mut out);
    rt.write_all(&out[..m])
}
