// What was asked so far, and what a word more makes of it.
ghost use Rattle.std.specs.Prelude.{◌≡◌};
ghost use Rattle.arguments.specs.Line.{only, but, decided, with_form, chosen, with_option, with_carrier, with_input, with_plain, with_word};
ghost use Rattle.arguments.specs.Line.{heard, with_next, with_long, begun, settled_of, Argued};
ghost use Rattle.arguments.specs.Tables.{command_of};

use crate::tables::Choice;
use crate::{Command, Complaint, Form, Target, Wrong, ends, output, tables};
use carriers::Carrier;
use std::rt::Env;

// What was asked so far.
#[derive(Clone, Copy)]
pub struct Asked {
    pub command: Option<Command>,
    pub carrier: Option<Carrier>,
    // How many words have stood that are no options: the carrier and the file.
    pub words: usize,
    // The file that is read; none, or `-`, is standard input.
    pub input: Option<usize>,
    pub output: Option<Target>,
    // Whether the next word names the file that is written.
    pub pending: bool,
    // Whether `--` has stood.
    pub ended: bool,
    pub json: bool,
    // The form of the input. Where none is asked for, the input itself decides.
    pub form: Option<Form>,
    pub value: bool,
    pub strict: bool,
    pub force: bool,
    pub wrong: Option<Complaint>,
}

impl Asked {
    // A command, and nothing more yet; one that has no carrier before the file begins with one word.
    pub(crate) fn only(command: Option<Command>, words: usize) -> Self
        ensures { result ≡ only command words }
    {
        Self {
            command,
            carrier: None,
            words,
            input: None,
            output: None,
            pending: false,
            ended: false,
            json: false,
            form: None,
            value: false,
            strict: false,
            force: false,
            wrong: None,
        }
    }

    // The command, or none.
    fn begun(command: Option<Command>) -> Self
        ensures { result ≡ begun command }
    {
        match command {
            None => Self::only(None, 0).but(Wrong::Command, Some(1)),
            Some(Command::Read) => Self::only(command, 0),
            Some(_) => Self::only(command, 1),
        }
    }

    // Wrong, at an argument if one is.
    pub(crate) fn but(mut self, wrong: Wrong, at: Option<usize>) -> Self
        ensures { result ≡ but wrong at self }
    {
        self.wrong = Some(Complaint { wrong, at });
        self
    }

    // Whether no further word matters.
    fn is_decided(self) -> bool
        ensures { result ≡ decided self }
    {
        self.wrong.is_some() || matches!(self.command, Some(Command::Help | Command::Version))
    }

    // With a form of the input.
    fn with_form(mut self, i: usize, form: Form) -> Self
        ensures { result ≡ with_form i form self }
    {
        match self.form {
            None => {
                self.form = Some(form);
                self
            }
            Some(other) => {
                if other == form {
                    self
                } else {
                    self.but(Wrong::Form, Some(i))
                }
            }
        }
    }

    // With an option; the last is `--`.
    fn with_chosen(mut self, i: usize, option: Choice) -> Self
        ensures { result ≡ chosen i option self }
    {
        match option {
            Choice::Form(form) => return self.with_form(i, form),
            Choice::Output => return output::pending(self, i),
            Choice::Json => self.json = true,
            Choice::Value => self.value = true,
            Choice::Strict => self.strict = true,
            Choice::Force => self.force = true,
            Choice::Help => self.command = Some(Command::Help),
            Choice::End => self.ended = true,
        }
        self
    }

    // With an option.
    fn with_option(self, i: usize, word: &[u8]) -> Self
        ensures { result ≡ with_option i word.now self }
    {
        match tables::option_named(word) {
            Some(option) => self.with_chosen(i, option),
            None => output::attached(self, i, word, tables::front_of(word)),
        }
    }

    // With a carrier.
    fn with_carrier(mut self, i: usize, word: &[u8]) -> Self
        ensures { result ≡ with_carrier i word.now self }
    {
        let Some(carrier) = tables::carrier_named(word) else {
            return self.but(Wrong::Carrier, Some(i));
        };
        self.carrier = Some(carrier);
        self.words = 1;
        self
    }

    // With the file that is read.
    fn with_input(mut self, i: usize, word: &[u8]) -> Self
        ensures { result ≡ with_input i word.now self }
    {
        if self.words == 2 {
            return self.but(Wrong::File, Some(i));
        }
        self.words = 2;
        if !tables::is_dash(word) {
            self.input = Some(i);
        }
        self
    }

    // With a word that is no option.
    fn with_plain(self, i: usize, word: &[u8]) -> Self
        ensures { result ≡ with_plain i word.now self }
    {
        if self.words == 0 {
            return self.with_carrier(i, word);
        }
        self.with_input(i, word)
    }

    // With one word more.
    fn with_word(self, i: usize, word: &[u8]) -> Self
        ensures { result ≡ with_word i word.now self }
    {
        if self.ended {
            return self.with_plain(i, word);
        }
        if tables::is_option(word) {
            return self.with_option(i, word);
        }
        self.with_plain(i, word)
    }

    // With `--json`, which is heard where no further word matters, unless `--` stood before it.
    fn with_heard(mut self, word: &[u8]) -> Self
        ensures { result ≡ heard word.now self }
    {
        if self.ended {
            return self;
        }
        match tables::option_named(word) {
            Some(Choice::Json) => self.json = true,
            Some(Choice::End) => self.ended = true,
            _ => {}
        }
        self
    }

    // The first word: the command, or none; `--json` may stand there too.
    pub(crate) fn of_first(word: &[u8]) -> Self
        ensures { result ≡ heard word.now (begun (command_of word.now)) }
    {
        Self::begun(tables::command_named(word)).with_heard(word)
    }

    // With the next word, which after `-o` is a name.
    fn with_next(self, i: usize, word: &[u8]) -> Self
        ensures { result ≡ with_next i word.now self }
    {
        if self.is_decided() {
            return self.with_heard(word);
        }
        if self.pending {
            return output::named(self, i, word);
        }
        self.with_word(i, word)
    }

    // With an argument that is too long.
    fn with_long(mut self, i: usize) -> Self
        ensures { result ≡ with_long i self }
    {
        if self.is_decided() {
            return self;
        }
        self.pending = false;
        self.but(Wrong::Long, Some(i))
    }

    // With one argument more.
    pub(crate) fn with_argument<E: Env>(self, rt: &E, i: usize) -> Self
        ensures { Argued i self result }
    {
        let mut word = io::buffer();
        match rt.arg(i, &mut word) {
            Ok(n) => self.with_next(i, &word[..n]),
            Err(_) => self.with_long(i),
        }
    }

    // What can only be told at the end of the line.
    pub(crate) fn settled(self) -> Self
        ensures { result ≡ settled_of self }
    {
        if self.is_decided() {
            return self;
        }
        match ends::wrong_of(self) {
            Some(wrong) => self.but(wrong, None),
            None => self,
        }
    }
}
