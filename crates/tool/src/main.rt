// The program `dnr`: the command of `command`, of which the answer is the exit status.
#![tactic(auto)]

ghost use Rattle.std.specs.Prelude.{◌≡◌, pos};
ghost use Rattle.std.specs.Process.{exit_status};
ghost use Rattle.files.specs.Status.{Exited, status_of};

use files::{Stop, System};
use std::process::ExitCode;

// How the command ends as an exit status.
fn status(answer: Result<(), Stop>) -> ExitCode
    ensures { pos (exit_status result) ≡ status_of answer }
{
    match answer {
        Ok(()) => ExitCode::SUCCESS,
        Err(stop) => ExitCode::from(stop.number()),
    }
}

// Runs the command.
fn run<R: System>(rt: &R) -> ExitCode
    ensures { Exited (pos (exit_status result)) }
{
    status(command::execute(rt))
}

fn main(rt: HostRuntime) -> ExitCode {
    run(&rt)
}
