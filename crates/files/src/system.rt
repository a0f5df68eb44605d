// The system as this crate asks it: files, arguments, the three streams, random octets, and memory for where links lead.
use std::fs::File;
use std::io::{Input, Print, Stderr};
use std::random::RandomSource;
use std::rt::{Env, Files};

pub trait System: Files<File = File> + Env + Input + Print + RandomSource + Alloc {
    type Errors: Print + Drop;

    // Standard error, for octets that need not be text.
    fn errors(&self) -> Self::Errors;
}

impl System for HostRuntime {
    type Errors = Stderr;

    fn errors(&self) -> Stderr {
        self.stderr()
    }
}
