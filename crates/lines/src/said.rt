// What is said of an input: that it spells no octets, is refused, that nothing or less than all is found in it, and that a file is kept.
ghost use Rattle.io.specs.Counts.{IsPrefixLen};
ghost use Rattle.chars.specs.Puts.{Puts};
ghost use Rattle.std.specs.Prelude.{◌≡◌};
ghost use Rattle.carriers.specs.Carriers.{number_of};
ghost use Rattle.carriers.specs.Told.{carrier_in};
ghost use Rattle.inputs.specs.Why as causes;
ghost use Rattle.reasons.specs.Reason as reasons;
ghost use Rattle.words.specs.Words.{words_in};
ghost use Rattle.lines.specs.Said.{whys, unread_of, long_of, hints, refused_of, refused_at_of, missing, nothing_of, less_of, kept_of};

use crate::listed::put_cause;
use crate::{put_about, put_count, put_worded};
use carriers::Carrier;
use chars::{put_all, put_number};
use inputs::Why;
use numbers::Fault;
use reasons::{Param, Reason, number_in};

// ---- no octets

// Why, in words.
#[tactic(auto, unfolding(crate::specs::Said::whys, words::specs::Words::words_in))]
fn reason(why: Why) -> &'static [u8]
    ensures { result.now ≡ words_in whys (causes.number_of why) }
{
    match why {
        Why::Form => b"not octets in a form I know; --raw takes the input as it is",
        Why::Groups =>
            b"groups of more than two digits side by side may be words or offsets; write octets apart, or one group a line",
        Why::Offset => b"the offset is not the number of octets before it",
        Why::Column => b"the text beside the octets is not theirs",
        Why::Count => b"the length is not the number of octets",
        Why::Base64 => b"not base64",
        Why::Value => b"no option of this carrier holds a value so long",
    }
}

// Writes why the input spells no octets, and at which line.
pub fn put_unread(out: &mut [u8], name: &[u8], line: usize, why: Why) -> usize
    ensures prefix_len { IsPrefixLen result out.new }
    ensures puts { Puts 0 (unread_of name.now line (causes.number_of why)) out.old result out.new }
{
    let next = put_about(out, name);
    let numbered = put_count(out, next, b": line ", line);
    let from = put_all(out, numbered, b": ");
    let end = put_all(out, from, reason(why));
    put_all(out, end, b"\n")
}

// Writes that the input has more characters than any text of the longest input.
pub fn put_long(out: &mut [u8], name: &[u8]) -> usize
    ensures prefix_len { IsPrefixLen result out.new }
    ensures puts { Puts 0 (long_of name.now) out.old result out.new }
{
    let next = put_about(out, name);
    put_all(out, next, b": longer than 655,360 octets\n")
}

// ---- refused, nothing found, less than all

// Which carrier would find a resolver, if one would.
#[tactic(auto, unfolding(crate::specs::Said::hints, words::specs::Words::words_in))]
fn hinted(hint: Option<Carrier>) -> &'static [u8]
    ensures { result.now ≡ words_in hints (carrier_in hint) }
{
    match hint {
        None => b"",
        Some(Carrier::Dhcp4) => b"; read as dhcp4 a resolver is found",
        Some(Carrier::Dhcp6) => b"; read as dhcp6 a resolver is found",
        Some(Carrier::Router) => b"; read as ra a resolver is found",
        Some(Carrier::Ike4) => b"; read as ike4 a resolver is found",
        Some(Carrier::Ike6) => b"; read as ike6 a resolver is found",
    }
}

// Writes that the input is refused by a number.
pub fn put_refused(out: &mut [u8], name: &[u8], number: usize, hint: Option<Carrier>) -> usize
    ensures prefix_len { IsPrefixLen result out.new }
    ensures puts { Puts 0 (refused_of name.now number (carrier_in hint)) out.old result out.new }
{
    let next = put_about(out, name);
    let from = put_all(out, next, b": refused, ");
    let worded = put_worded(out, from, number);
    let end = put_all(out, worded, hinted(hint));
    put_all(out, end, b"\n")
}

// Writes that a sheet, the input of this name, is refused for the name of a resolver: at which octet, and why that is bad, where it is known.
pub fn put_refused_at(out: &mut [u8], name: &[u8], octet: usize, reason: Option<Reason>) -> usize
    ensures prefix_len { IsPrefixLen result out.new }
    ensures puts { Puts 0 (refused_at_of name.now octet (reasons.number_in reason)) out.old result out.new }
{
    let next = put_about(out, name);
    let placed = put_count(out, next, b": octet ", octet);
    let from = put_all(out, placed, b": refused, ");
    put_cause(
        out,
        from,
        Fault::Name.number(),
        number_in(reason),
        Param::NONE,
    )
}

// What was looked for.
#[tactic(auto, unfolding(crate::specs::Said::missing, words::specs::Words::words_in))]
fn missing(carrier: Carrier) -> &'static [u8]
    ensures { result.now ≡ words_in missing (number_of carrier) }
{
    match carrier {
        Carrier::Dhcp4 => b": no option 162 in ",
        Carrier::Dhcp6 | Carrier::Router => b": no option 144 in ",
        Carrier::Ike4 => b": no attribute 27 in ",
        Carrier::Ike6 => b": no attribute 28 in ",
    }
}

// Writes that nothing was found in n octets.
pub fn put_nothing(
    out: &mut [u8],
    name: &[u8],
    carrier: Carrier,
    n: usize,
    hint: Option<Carrier>,
) -> usize
    ensures prefix_len { IsPrefixLen result out.new }
    ensures puts { Puts 0 (nothing_of name.now (number_of carrier) n (carrier_in hint)) out.old result out.new }
{
    let next = put_about(out, name);
    let counted = put_all(out, next, missing(carrier));
    let numbered = put_number(out, counted, n);
    let from = put_all(out, numbered, b" octets");
    let end = put_all(out, from, hinted(hint));
    put_all(out, end, b"\n")
}

// Writes that blocks were discarded: how many of how many.
pub fn put_less(
    out: &mut [u8],
    name: &[u8],
    discarded: usize,
    found: usize,
    hint: Option<Carrier>,
) -> usize
    ensures prefix_len { IsPrefixLen result out.new }
    ensures puts { Puts 0 (less_of name.now discarded found (carrier_in hint)) out.old result out.new }
{
    let next = put_about(out, name);
    let of = put_count(out, next, b": ", discarded);
    let counted = put_count(out, of, b" of ", found);
    let from = put_all(out, counted, b" blocks discarded");
    let end = put_all(out, from, hinted(hint));
    put_all(out, end, b"\n")
}

// Writes that a file is not replaced.
pub fn put_kept(out: &mut [u8], name: &[u8]) -> usize
    ensures prefix_len { IsPrefixLen result out.new }
    ensures puts { Puts 0 (kept_of name.now) out.old result out.new }
{
    let next = put_about(out, name);
    put_all(
        out,
        next,
        b": left as it is: it has records, and the new sheet has none; --force replaces it\n",
    )
}
