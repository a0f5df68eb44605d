// What can only be told at the end of a command line: what lacks, and which options do not go with the command or with each other.
ghost use Rattle.std.specs.Prelude.{◌≡◌};
ghost use Rattle.arguments.specs.Line.{readless, shown_into, json_into, wrong_of};

use crate::{Asked, Command, Wrong};

// Whether an option of `read` stands without it.
fn is_readless(a: Asked) -> bool
    ensures { result ≡ readless a }
{
    !matches!(a.command, Some(Command::Read)) && (a.value || a.strict || a.force)
}

// Whether `-o` stands with `show`.
fn is_shown_into(a: Asked) -> bool
    ensures { result ≡ shown_into a }
{
    matches!(a.command, Some(Command::Show)) && a.output.is_some()
}

// Whether `--json` stands with `-o -`.
fn is_json_into(a: Asked) -> bool
    ensures { result ≡ json_into a }
{
    a.json && a.output.is_some_and(|o| o.dashed)
}

// What is wrong, if anything is.
pub fn wrong_of(a: Asked) -> Option<Wrong>
    ensures { result ≡ wrong_of a }
{
    if a.pending {
        return Some(Wrong::NoName);
    }
    if a.words == 0 {
        return Some(Wrong::NoCarrier);
    }
    if is_readless(a) {
        return Some(Wrong::OnlyRead);
    }
    if is_shown_into(a) {
        return Some(Wrong::ShowOutput);
    }
    if is_json_into(a) {
        return Some(Wrong::JsonOutput);
    }
    None
}
