// The lines that the command writes, each into a lent buffer as far as there is room: its messages and octets, as text and in JSON.
// Nothing here asks the system: `files` writes what stands in the buffer.
#![tactic(auto)]

pub mod listed;
pub mod objects;
pub mod said;
#[cfg(test)]
mod tests;

ghost use Rattle.std.specs.Prelude.{◌≡◌, ◌<◌};
ghost use Rattle.io.specs.Counts.{IsPrefixLen};
ghost use Rattle.chars.specs.Puts.{Puts};
ghost use Rattle.words.specs.Words.{words_in};
ghost use Rattle.arguments.specs.Wrong.{number_of};
ghost use Rattle.lines.specs.Messages.{count_of, worded_of, about_of, failed_of, beside_of, table, culprit, usage_of};
ghost use Rattle.lines.specs.HexLines.{after_of, hex_lines_of};

use arguments::Wrong;
use chars::{put, put_all, put_number};
use words::put_words;

// ---- parts of messages

// Writes words and the number after them.
pub fn put_count(out: &mut [u8], at: usize, before: &[u8], n: usize) -> usize
    ensures { Puts at (count_of before.now n) out.old result out.new }
{
    let next = put_all(out, at, before);
    put_number(out, next, n)
}

// Writes a number and its words.
fn put_worded(out: &mut [u8], at: usize, number: usize) -> usize
    ensures { Puts at (worded_of number) out.old result out.new }
{
    let numbered = put_number(out, at, number);
    let from = put_all(out, numbered, b": ");
    put_words(out, from, number)
}

// Writes the program's name and a name that the message is about.
pub fn put_about(out: &mut [u8], name: &[u8]) -> usize
    ensures prefix_len { IsPrefixLen result out.new }
    ensures puts { Puts 0 (about_of name.now) out.old result out.new }
{
    let next = put_all(out, 0, b"dnr: ");
    put_all(out, next, name)
}

// ---- a call of the system that failed

// Writes that a call failed on a file, and why by its number.
pub fn put_failed(out: &mut [u8], name: &[u8], errno: usize) -> usize
    ensures prefix_len { IsPrefixLen result out.new }
    ensures puts { Puts 0 (failed_of name.now errno) out.old result out.new }
{
    let next = put_about(out, name);
    let end = put_count(out, next, b": errno ", errno);
    put_all(out, end, b"\n")
}

// Writes that no file can be made beside one that is to be replaced, and why by its number.
pub fn put_beside(out: &mut [u8], name: &[u8], errno: usize) -> usize
    ensures prefix_len { IsPrefixLen result out.new }
    ensures puts { Puts 0 (beside_of name.now errno) out.old result out.new }
{
    let next = put_about(out, name);
    let end = put_count(out, next, b": cannot make a file beside it: errno ", errno);
    put_all(out, end, b"\n")
}

// ---- a command line that is wrong

// What is wrong, in words.
#[tactic(auto, unfolding(crate::specs::Messages::table, words::specs::Words::words_in))]
fn text(wrong: Wrong) -> &'static [u8]
    ensures { result.now ≡ words_in table (number_of wrong) }
{
    match wrong {
        Wrong::Command => b"unknown command: ",
        Wrong::Option => b"unknown option: ",
        Wrong::Carrier => b"unknown carrier: ",
        Wrong::File => b"a second file: ",
        Wrong::Long => b"an argument is too long",
        Wrong::NoCarrier => b"read needs a carrier",
        Wrong::NoName => b"-o needs a file name",
        Wrong::Output => b"-o is given twice",
        Wrong::Form => b"--hex, --raw and --base64 exclude each other",
        Wrong::OnlyRead => b"--value, --strict and --force are for read",
        Wrong::ShowOutput => b"show has no -o",
        Wrong::JsonOutput => b"--json and -o - exclude each other",
    }
}

// What is said of the argument that is wrong: where it is a word that is unknown, or a file's name, the argument itself.
fn culprit(wrong: Wrong, argument: &[u8]) -> &[u8]
    ensures { result.now ≡ culprit (number_of wrong) argument.now }
{
    match wrong {
        Wrong::Command | Wrong::Option | Wrong::Carrier | Wrong::File => argument,
        _ => b"",
    }
}

// Writes that the command line is wrong.
pub fn put_usage(out: &mut [u8], wrong: Wrong, argument: &[u8]) -> usize
    ensures prefix_len { IsPrefixLen result out.new }
    ensures puts { Puts 0 (usage_of (number_of wrong) argument.now) out.old result out.new }
{
    let from = put_all(out, 0, b"dnr: ");
    let next = put_all(out, from, text(wrong));
    let end = put_all(out, next, culprit(wrong, argument));
    put_all(out, end, b"\n")
}

// ---- hexadecimal text

// What follows octet i of n: a line break after the sixteenth of a line and after the last, else a space.
fn after(i: usize, n: usize) -> u8
    requires { i < n }
    ensures { result ≡ after_of i n }
{
    if i % 16 == 15 || i + 1 == n {
        b'\n'
    } else {
        b' '
    }
}

// Writes octets as hexadecimal text, and returns how long it is.
pub fn put_hex(out: &mut [u8], s: &[u8]) -> usize
    ensures prefix_len { IsPrefixLen result out.new }
    ensures puts { Puts 0 (hex_lines_of s.now) out.old result out.new }
{
    let mut o = 0;
    for (i, b) in s.iter().enumerate() {
        let next = hexes::put_octet(out, o, *b);
        o = put(out, next, after(i, s.len()));
    }
    o
}
