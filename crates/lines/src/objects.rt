// What is said, as JSON: one object a line, of a message and of octets printed or saved.
ghost use Rattle.std.specs.Prelude.{◌≡◌, length};
ghost use Rattle.io.specs.Counts.{IsPrefixLen};
ghost use Rattle.chars.specs.Puts.{Puts};
ghost use Rattle.lines.specs.Objects.{unit_of, letter_of, string_of, member_of, members_of, inner_of, object_of, octets_of, saved_of};

use crate::put_count;
use chars::{put, put_all};

// Octets of `dnr: `, with which every line begins.
const FRONT: usize = 5;

// What goes with a message. 0 is left out of its object, an octet of 0 too, so that an Option would say one thing in two ways.
#[derive(Clone, Copy, Default)]
pub struct Note {
    // The exit status that the message gives.
    pub status: usize,
    // The refusal, or the fault of a block.
    pub number: usize,
    // Why a call of the system failed.
    pub errno: usize,
    pub block: usize,
    pub octet: usize,
}

// ---- a string

// Writes an octet by its number.
fn put_unit(out: &mut [u8], at: usize, b: u8) -> usize
    ensures { Puts at (unit_of b) out.old result out.new }
{
    let next = put_all(out, at, b"\\u00");
    hexes::put_octet(out, next, b)
}

// Writes an octet of a string.
fn put_letter(out: &mut [u8], at: usize, b: u8) -> usize
    ensures { Puts at (letter_of b) out.old result out.new }
{
    match b {
        b'"' => put_all(out, at, b"\\\""),
        b'\\' => put_all(out, at, b"\\\\"),
        b' '..=b'~' => put(out, at, b),
        _ => put_unit(out, at, b),
    }
}

// Writes the octets of a string.
fn put_string(out: &mut [u8], at: usize, s: &[u8]) -> usize
    ensures { Puts at (string_of s.now) out.old result out.new }
{
    let mut o = at.min(out.len());
    for b in s {
        o = put_letter(out, o, *b);
    }
    o
}

// ---- a message

// Writes a member that is a number, unless it is 0.
fn put_member(out: &mut [u8], at: usize, before: &[u8], n: usize) -> usize
    ensures { Puts at (member_of before.now n) out.old result out.new }
{
    if n == 0 {
        return at.min(out.len());
    }
    put_count(out, at, before, n)
}

// Writes what goes with a message, and the end of its object.
fn put_members(out: &mut [u8], at: usize, note: Note) -> usize
    ensures prefix_len { IsPrefixLen result out.new }
    ensures puts { Puts at (members_of note) out.old result out.new }
{
    let status = put_member(out, at, b",\"status\":", note.status);
    let number = put_member(out, status, b",\"number\":", note.number);
    let errno = put_member(out, number, b",\"errno\":", note.errno);
    let block = put_member(out, errno, b",\"block\":", note.block);
    let octet = put_member(out, block, b",\"octet\":", note.octet);
    put_all(out, octet, b"}\n")
}

// Writes what a line says as a string.
fn put_inner(out: &mut [u8], at: usize, line: &[u8]) -> usize
    ensures { Puts at (string_of (inner_of line.now)) out.old result out.new }
{
    let end = line.len().saturating_sub(1);
    let from = FRONT.min(end);
    put_string(out, at, &line[from..end])
}

// Writes the object of a message, whose line it is.
pub fn put_object(out: &mut [u8], note: Note, line: &[u8]) -> usize
    ensures prefix_len { IsPrefixLen result out.new }
    ensures puts { Puts 0 (object_of note line.now) out.old result out.new }
{
    let from = put_all(out, 0, b"{\"message\":\"");
    let end = put_inner(out, from, line);
    let next = put_all(out, end, b"\"");
    put_members(out, next, note)
}

// ---- octets

// Writes the object of octets.
pub fn put_octets(out: &mut [u8], s: &[u8]) -> usize
    ensures prefix_len { IsPrefixLen result out.new }
    ensures puts { Puts 0 (octets_of s.now) out.old result out.new }
{
    let counted = put_count(out, 0, b"{\"length\":", s.len());
    let from = put_all(out, counted, b",\"octets\":\"");
    let end = hexes::put_octets(out, from, s);
    put_all(out, end, b"\"}\n")
}

// Writes the object of n octets that are saved.
pub fn put_saved(out: &mut [u8], n: usize) -> usize
    ensures prefix_len { IsPrefixLen result out.new }
    ensures puts { Puts 0 (saved_of n) out.old result out.new }
{
    let next = put_count(out, 0, b"{\"saved\":", n);
    put_all(out, next, b"}\n")
}
