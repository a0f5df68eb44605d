// What is said on standard error, and with --json as an object on standard output too, and how the command ends with it. What is said is of `lines`;
// whether it could be written, no one is told.
ghost use Rattle.std.specs.Prelude.{◌≡◌};
ghost use Rattle.io.specs.Counts.{IsPrefixLen};
ghost use Rattle.files.specs.declared.status.Stop.TheVariants.{Refused, Failed};
ghost use Rattle.files.specs.Errno.{number_of};
ghost use Rattle.files.specs.Status as status;

use crate::paths::PATH_MAX;
use crate::{Stop, System, input};
use arguments::Complaint;
use carriers::Carrier;
use chars::put_all;
use inputs::Why;
use lines::listed::Discard;
use lines::objects::Note;
use lines::{listed, objects, said};
use numbers::Fault;
use reasons::Reason;
use std::fmt::InlineText;
use std::io::{Error, Print};

// Octets of a line: a path, and 512 for the longest words and what stands around them.
const LINE: usize = PATH_MAX + 512;

// Octets of a line's object: six characters for an octet, and 256 for what stands around them.
const OBJECT: usize = 6 * LINE + 256;

// Who says it: by what the system is asked, whether in JSON too, and the name of the file that it is about.
#[derive(Drop)]
pub struct Voice<'a, R> {
    pub rt: &'a R,
    pub json: bool,
    pub name: &'a [u8],
}

// ---- what goes with a message

// A command that was not carried out; `errno` says why, where the system does.
fn failure(errno: usize) -> Note
    ensures { (result.status ≡ status.failed) × (result.number ≡ 0) × (result.errno ≡ errno) × (result.block ≡ 0) × (result.octet ≡ 0) }
{
    Note {
        status: usize::from(Stop::Failed.number()),
        errno,
        ..Note::default()
    }
}

// A refusal; `octet` says where, if that is told.
fn refusal(number: usize, octet: usize) -> Note
    ensures { (result.status ≡ status.refused) × (result.number ≡ number) × (result.errno ≡ 0) × (result.block ≡ 0) × (result.octet ≡ octet) }
{
    Note {
        status: usize::from(Stop::Refused.number()),
        number,
        octet,
        ..Note::default()
    }
}

// A command that goes on: the fault and the place that the message names, or zeros.
fn remark(number: usize, block: usize, octet: usize) -> Note
    ensures { (result.status ≡ 0) × (result.number ≡ number) × (result.errno ≡ 0) × (result.block ≡ block) × (result.octet ≡ octet) }
{
    Note {
        number,
        block,
        octet,
        ..Note::default()
    }
}

// ---- a call of the system that failed

// Errno as it is printed.
fn numbered(errno: i32) -> usize
    ensures { result ≡ number_of errno }
{
    usize::try_from(errno).unwrap_or(0)
}

// The system's number of an error; 0 where it has none.
fn errno(why: &Error) -> usize {
    numbered(why.raw_os_error().unwrap_or(0))
}

// Writes the system's words for an error: of what a program prints of one, what stands before its number.
fn put_words(out: &mut [u8], at: usize, why: &Error) -> usize
    ensures { IsPrefixLen result out.new }
{
    let all = InlineText::<256>::of(why);
    match all.as_str().rsplit_once(" (os error ") {
        Some((words, _)) => put_all(out, at, words.as_bytes()),
        None => put_all(out, at, all.as_str().as_bytes()),
    }
}

impl<R: System> Voice<'_, R> {
    // The same of another file.
    pub fn about<'b>(&'b self, name: &'b [u8]) -> Voice<'b, R>
        ensures json { result.json ≡ self.now.json }
        ensures name { result.name.now ≡ name.now }
    {
        Voice {
            rt: self.rt,
            json: self.json,
            name,
        }
    }

    // ---- how it is said

    // Writes the object of a line to standard output, where one is asked for.
    fn tell(&self, line: &[u8], note: Note) {
        if self.json {
            let mut object = [0u8; OBJECT];
            let n = objects::put_object(&mut object, note, line);
            let _ = self.rt.write_all(&object[..n]);
        }
    }

    // Writes a line to standard error, and its object.
    fn say(&self, line: &[u8], note: Note) {
        let _ = self.rt.errors().write_all(line);
        self.tell(line, note);
    }

    // ---- a call of the system that failed

    // Says a line of which n octets say what failed, and after them why.
    fn say_failed(&self, line: &mut [u8], n: usize, why: &Error) {
        let from = put_all(line, n, b": ");
        let next = put_words(line, from, why);
        let end = put_all(line, next, b"\n");
        let _ = self.rt.errors().write_all(&line[..end]);
    }

    // A call of the system failed on the file, and why.
    pub fn failed(&self, why: Error) -> Stop
        ensures { result ≡ Failed }
    {
        let number = errno(&why);
        let mut line = [0u8; LINE];
        let n = lines::put_about(&mut line, self.name);
        self.say_failed(&mut line, n, &why);
        let end = lines::put_failed(&mut line, self.name, number);
        self.tell(&line[..end], failure(number));
        Stop::Failed
    }

    // A file that is to be replaced can be written to, and no file can be made in its folder, and why.
    pub fn failed_beside(&self, why: Error) -> Stop
        ensures { result ≡ Failed }
    {
        let number = errno(&why);
        let mut line = [0u8; LINE];
        let from = lines::put_about(&mut line, self.name);
        let n = put_all(&mut line, from, b": cannot make a file beside it");
        self.say_failed(&mut line, n, &why);
        let end = lines::put_beside(&mut line, self.name, number);
        self.tell(&line[..end], failure(number));
        Stop::Failed
    }

    // ---- an input

    // The input spells no octets: why, and at which line.
    pub fn unread(&self, number: usize, why: Why) -> Stop
        ensures { result ≡ Failed }
    {
        let mut line = [0u8; LINE];
        let n = said::put_unread(&mut line, self.name, number, why);
        self.say(&line[..n], failure(0));
        Stop::Failed
    }

    // The input has more characters than any text of the longest input.
    pub fn long(&self) -> Stop
        ensures { result ≡ Failed }
    {
        let mut line = [0u8; LINE];
        let n = said::put_long(&mut line, self.name);
        self.say(&line[..n], failure(0));
        Stop::Failed
    }

    // The input is refused by a number; `hint` is a carrier that would find a resolver.
    pub fn refused(&self, number: usize, hint: Option<Carrier>) -> Stop
        ensures { result ≡ Refused }
    {
        let mut line = [0u8; LINE];
        let n = said::put_refused(&mut line, self.name, number, hint);
        self.say(&line[..n], refusal(number, 0));
        Stop::Refused
    }

    // A sheet is refused for a name that is wrong at an octet: why, where that is known.
    pub fn refused_at(&self, octet: usize, reason: Option<Reason>) -> Stop
        ensures { result ≡ Refused }
    {
        let mut line = [0u8; LINE];
        let n = said::put_refused_at(&mut line, self.name, octet, reason);
        self.say(&line[..n], refusal(Fault::Name.number(), octet));
        Stop::Refused
    }

    // ---- what is found

    // Nothing was found in n octets; `hint` is a carrier that would find a resolver.
    pub fn nothing(&self, carrier: Carrier, octets: usize, hint: Option<Carrier>) {
        let mut line = [0u8; LINE];
        let n = said::put_nothing(&mut line, self.name, carrier, octets, hint);
        self.say(&line[..n], remark(0, 0, 0));
    }

    // Blocks were discarded; `hint` is a carrier that would find a resolver.
    pub fn less(&self, discarded: usize, found: usize, hint: Option<Carrier>) {
        let mut line = [0u8; LINE];
        let n = said::put_less(&mut line, self.name, discarded, found, hint);
        self.say(&line[..n], remark(0, 0, 0));
    }

    // A block was discarded.
    pub fn discarded(&self, d: Discard) {
        let mut line = [0u8; LINE];
        let n = listed::put_discard(&mut line, self.name, d);
        self.say(&line[..n], remark(d.fault.number(), d.block, d.octet));
    }

    // An address of a block was dropped.
    pub fn dropped(&self, block: usize, octet: usize, a: &[u8]) {
        let mut line = [0u8; LINE];
        let n = listed::put_dropped(&mut line, self.name, block, octet, a);
        self.say(&line[..n], remark(0, block, octet));
    }

    // A file that has records is not replaced by a sheet that has none.
    pub fn kept(&self) -> Stop
        ensures { result ≡ Failed }
    {
        let mut line = [0u8; LINE];
        let n = said::put_kept(&mut line, self.name);
        self.say(&line[..n], failure(0));
        Stop::Failed
    }

    // ---- a command line

    // The command line is wrong: at an argument, which is asked of the system, or as a whole.
    pub fn usage(&self, complaint: Complaint) -> Stop
        ensures { result ≡ Failed }
    {
        let mut room = [0u8; PATH_MAX];
        let word = input::argument_at(self.rt, complaint.at, &mut room);
        let mut line = [0u8; LINE];
        let n = lines::put_usage(&mut line, complaint.wrong, word);
        self.say(&line[..n], failure(0));
        let _ = self.rt.errors().write_all(b"try dnr --help\n");
        Stop::Failed
    }
}
