// The numbers given back, in words (RULES R0 to R44), why a name is no host name, and the lookup of a number, or of words, in any such table.
#![tactic(auto)]

ghost use Rattle.std.specs.Prelude.{◌≡◌, ◌+◌, ◌≤◌, length, drop};
ghost use Rattle.chars.specs.Puts.{Puts};
ghost use Rattle.words.specs.Words.{words_in, words_of, reasons};
ghost use Rattle.words.specs.Encoded.{words_at, number_at, break_at};

use chars::put_all;
use octets::same;

// With so many octets of room for them and a closing octet 0, the words of every number of RULES R0 to R44 are whole (`words/StringsLaws`:
// `words-whole`).
pub const MAX_WORDS: usize = 160;

// The words of a number. (`words/Words` has the numbers by name.)
#[tactic(none)]
fn words(number: usize) -> &'static [u8]
    ensures { result.now ≡ words_of number }
{
    match number {
        0 => b"done",
        1 => b"carrier number not 1 to 5",
        2 => b"input longer than 40,960 octets",
        3 =>
            b"the area is not whole options: a header or body runs past the end, or a length of 0 in a router advertisement",
        4 => b"more than 16 records",
        5 => b"output shorter than the result",
        20 =>
            b"the block ends too early: a length says more octets than are left, or a field is missing",
        21 => b"priority 0 (AliasMode)",
        22 =>
            b"the name is no host name: labels of 1 to 63 letters, digits and inner hyphens, 255 octets in all",
        23 =>
            b"no addresses, their length is no multiple of 4 (IPv4) or 16 (IPv6), or name only in IKEv2",
        24 => b"more than 63 addresses, or over 1,024 octets of parameters",
        25 => b"no usable address, or an unusable one in a sheet",
        26 => b"service parameters are cut short, or their keys do not rise, or one is 65535",
        27 =>
            b"address hint among the service parameters (key 4 or 6), where addresses have a field of their own",
        28 =>
            b"a service parameter is not as its key asks: mandatory (0), alpn (1), no-default-alpn (2, only beside alpn) or port (3)",
        29 => b"what follows the last field is not 0 to 7 zeros",
        40 => b"not a record sheet: shorter than 7 octets, or not beginning with RSV",
        41 => b"record sheet version not 1",
        42 => b"record sheet carrier not 1 to 5",
        43 =>
            b"the record sheet is damaged: lengths do not add up, a mode is not 0 or 1, priorities fall, or a lifetime stands where none belongs",
        44 => b"router advertisement record above 2,040 octets",
        _ => b"unknown number",
    }
}

// Writes the words of a number.
pub fn put_words(out: &mut [u8], at: usize, number: usize) -> usize
    ensures { Puts at (words_of number) out.old result out.new }
{
    put_all(out, at, words(number))
}

// Writes the words of a reason for which a name is no host name, or that it is unknown. The table has an entry to a line: the number as an octet (in
// hexadecimal; `words/Words` has it by name, and the two tables are proved to be the same), its words and a line break.
pub fn put_reason(out: &mut [u8], at: usize, reason: usize) -> usize
    ensures { Puts at (words_in reasons reason) out.old result out.new }
{
    put_found(
        out,
        at,
        reason,
        b"\x01it has no end: the name stops before its last octet 0\n\
          \x02it is empty\n\
          \x03a compression pointer\n\
          \x04a label of more than 63 octets\n\
          \x05it is longer than a name may be\n\
          \x06octets follow its end\n\
          \x07an underscore\n\
          \x08a hyphen at the beginning or end of a label\n\
          \x09a dot at the beginning or end, or two side by side\n\
          \x0aan octet that is no letter, digit or hyphen\n",
    )
}

// Writes the words of a number in a table of that form, or that it is unknown.
pub fn put_found(out: &mut [u8], at: usize, number: usize, table: &[u8]) -> usize
    ensures { Puts at (words_at number table.now) out.old result out.new }
{
    let mut i = 0;
    while i < table.len() {
        let from = i + 1;
        let end = line_end(table, from);
        if usize::from(table[i]) == number {
            return put_all(out, at, &table[from..end]);
        }
        i = end + 1;
    }
    put_all(out, at, b"unknown number")
}

// The number of the first entry of a table that has these words, or 0. A table has an entry to a line: a number as an octet, the words and a line
// break. (No `match` of the words: of an arm for a byte string a proof knows no more than its length. And no Option: 0 is no number of a table,
// and what a number stands for is its enum's to say, which has none for 0.)
pub fn number_of(table: &[u8], word: &[u8]) -> usize
    ensures { result ≡ number_at word.now table.now }
{
    let mut entry = 0;
    while entry < table.len() {
        let from = entry + 1;
        let end = line_end(table, from);
        if same(&table[from..end], word) {
            return usize::from(table[entry]);
        }
        entry = end + 1;
    }
    0
}

// The index of the first line break of s at `from` or after it, or its end.
pub fn line_end(s: &[u8], from: usize) -> usize
    requires { from ≤ length s.now }
    ensures { (result ≡ from + break_at (drop from s.now)) × (result ≤ length s.now) }
{
    for i in from..s.len() {
        if s[i] == b'\n' {
            return i;
        }
    }
    s.len()
}
