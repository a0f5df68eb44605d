// The command line, taken word by word (docs/COMMAND.md). An argument is kept by its index.
// What each word means and what is settled at the end is `arguments/Line`, which a reader can compute for any line; the system is asked only by
// `first`, `with_argument` and `given`, of which the contracts say that their answer is what some arguments ask for.
#![tactic(auto)]

mod asked;
mod ends;
mod output;
mod tables;

ghost use Rattle.std.specs.Prelude.{◌≡◌};
ghost use Rattle.arguments.specs.Command as command;
ghost use Rattle.arguments.specs.Form as forms;
ghost use Rattle.arguments.specs.Line.{Begun, Given};

pub use asked::Asked;
use std::env::FillError;
use std::rt::Env;

// What is asked for.
#[derive(Clone, Copy, PartialEq, Eq)]
pub enum Command {
    Read,
    Write,
    Show,
    Octets,
    Help,
    Version,
}

// The form of the input.
#[derive(Clone, Copy, PartialEq, Eq)]
pub enum Form {
    Hex,
    Raw,
    Base64,
}

impl Form {
    // The form of a number. Any other number is none: the input itself decides.
    pub fn of(number: usize) -> Option<Self>
        ensures { result ≡ forms.of number }
    {
        match number {
            1 => Some(Self::Hex),
            2 => Some(Self::Raw),
            3 => Some(Self::Base64),
            _ => None,
        }
    }

    // The number of a form, or of none.
    pub fn number_in(form: Option<Self>) -> usize
        ensures { result ≡ forms.number_in form }
    {
        match form {
            None => 0,
            Some(Self::Hex) => 1,
            Some(Self::Raw) => 2,
            Some(Self::Base64) => 3,
        }
    }
}

// The file that is written, by the argument that holds its name.
#[derive(Clone, Copy)]
pub struct Target {
    pub at: usize,
    // How many octets of the argument stand before the name.
    pub front: usize,
    // Whether the name is `-`, standard output.
    pub dashed: bool,
}

// What is wrong with a command line.
#[derive(Clone, Copy, PartialEq, Eq)]
pub enum Wrong {
    // No such command.
    Command,
    // No such option.
    Option,
    // No such carrier.
    Carrier,
    // A second file.
    File,
    // An argument that is too long to be a file's name.
    Long,
    // `read` without a carrier.
    NoCarrier,
    // `-o` without a name.
    NoName,
    // A second `-o`.
    Output,
    // A second form of the input.
    Form,
    // `--value`, `--strict` or `--force` without `read`.
    OnlyRead,
    // `-o` with `show`.
    ShowOutput,
    // `--json` with `-o -`: both would write to standard output.
    JsonOutput,
}

// What is wrong, and the argument that is, where one is.
#[derive(Clone, Copy)]
pub struct Complaint {
    pub wrong: Wrong,
    pub at: Option<usize>,
}

// The command of the first argument.
fn first<E: Env>(rt: &E) -> Asked
    ensures { Begun result }
{
    let mut word = io::buffer();
    match rt.arg(1, &mut word) {
        Ok(n) => Asked::of_first(&word[..n]),
        Err(_) => Asked::only(None, 0).but(Wrong::Long, Some(1)),
    }
}

// Whether there is an argument i.
fn is_there<E: Env>(rt: &E, i: usize) -> bool {
    let mut start = [0u8; 1];
    match rt.arg(i, &mut start) {
        Ok(_) => true,
        Err(FillError::TooLong) => true,
        Err(FillError::NotPresent) => false,
    }
}

// How many arguments there are, the program's own name among them.
pub fn count<E: Env>(rt: &E) -> usize {
    (0..usize::MAX)
        .find(|i| !is_there(rt, *i))
        .unwrap_or(usize::MAX)
}

// What the arguments ask for.
pub fn given<E: Env>(rt: &E) -> Asked
    ensures { Given result }
{
    let count = count(rt);
    let mut a = first(rt);
    for i in 2..count {
        a = a.with_argument(rt, i);
    }
    a.settled()
}
