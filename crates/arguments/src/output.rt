// The file that is written: `-o`, and its name in an argument of its own or in one with the option (docs/COMMAND.md).
ghost use Rattle.std.specs.Prelude.{◌≡◌};
ghost use Rattle.arguments.specs.Line.{with_pending, with_output, attached};

use crate::{Asked, Target, Wrong, tables};

// With `-o`.
pub fn pending(mut a: Asked, i: usize) -> Asked
    ensures { result ≡ with_pending i a }
{
    if a.output.is_some() {
        return a.but(Wrong::Output, Some(i));
    }
    a.pending = true;
    a
}

// With its name, in an argument of its own.
pub fn named(mut a: Asked, i: usize, word: &[u8]) -> Asked
    ensures { result ≡ with_output i word.now a }
{
    a.output = Some(Target {
        at: i,
        front: 0,
        dashed: tables::is_dash(word),
    });
    a.pending = false;
    a
}

// With its name after the option, in one word.
pub fn attached(mut a: Asked, i: usize, word: &[u8], front: Option<usize>) -> Asked
    ensures { result ≡ attached i word.now front a }
{
    let Some(front) = front else {
        return a.but(Wrong::Option, Some(i));
    };
    if a.output.is_some() {
        return a.but(Wrong::Output, Some(i));
    }
    if word.len() <= front {
        return a.but(Wrong::NoName, Some(i));
    }
    a.output = Some(Target {
        at: i,
        front,
        dashed: tables::is_dash(&word[front..]),
    });
    a
}
