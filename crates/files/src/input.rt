// The octets that are given: a file, or standard input, read whole.
ghost use Rattle.std.specs.Prelude.{◌≡◌, ◌≤◌, length, IfOk, IfSome, IfErr, IsSome, IsNone};
ghost use Rattle.chars.specs.Ascii.{ascii};
ghost use Rattle.files.specs.declared.status.Stop.TheVariants.{Failed};

use crate::known::Known;
use crate::paths::PATH_MAX;
use crate::{Stop, System, Voice, paths};
use arguments::Target;
use numbers::Limit;
use std::fs::File;
use std::io::Read;
use std::rt::Env;
use std::{fs, io};

// The most octets that are read: text of the longest input, with 16 characters for an octet, as xxd writes one a line.
pub const MOST: usize = 16 * Limit::INPUT;

// Room for one octet more, by which a longer input is known.
pub const ROOM: usize = MOST + 1;

// The argument i, as the system gives it; nothing where there is none, or it is longer than `out`.
pub(crate) fn argument<'a, R: Env>(rt: &R, i: usize, out: &'a mut [u8]) -> &'a [u8]
    ensures { length result.now ≤ length out.old }
{
    match rt.arg(i, out) {
        Ok(n) => &out[..n],
        Err(_) => b"",
    }
}

// The same of an argument that need not be told.
pub(crate) fn argument_at<'a, R: Env>(rt: &R, at: Option<usize>, out: &'a mut [u8]) -> &'a [u8]
    ensures { length result.now ≤ length out.old }
{
    match at {
        None => b"",
        Some(i) => argument(rt, i, out),
    }
}

// The name of a file that is written, as the system gives it.
pub(crate) fn target<'a, R: Env>(rt: &R, target: Target, out: &'a mut [u8]) -> &'a [u8]
    ensures { length result.now ≤ length out.old }
{
    let word = argument(rt, target.at, out);
    &word[target.front.min(word.len())..]
}

// The name of the input in messages: that of its argument, as the system gives it.
pub fn name<'a, R: Env>(rt: &R, input: Option<usize>, out: &'a mut [u8]) -> &'a [u8]
    ensures given { IsSome input → length result.now ≤ length out.old }
    ensures none { IsNone input → result.now ≡ ascii "standard input" }
{
    match input {
        None => b"standard input",
        Some(at) => argument(rt, at, out),
    }
}

// Reads until `buf` is full or the input ends.
fn fill<'a, F: Read>(from: &mut F, buf: &'a mut [u8]) -> io::Result<&'a [u8]>
    ensures { IfOk result (λ s. length s.now ≤ length buf.old) }
{
    let mut n = 0;
    while n < buf.len() {
        match from.read(&mut buf[n..])? {
            0 => break,
            more => n += more,
        }
    }
    Ok(&buf[..n])
}

// Opens the file of a path to read it.
fn open<R: System>(rt: &R, path: &[u8]) -> io::Result<File> {
    fs::open(rt, paths::text(path)?)
}

// Reads what is open, and says why where it cannot.
fn read_from<'a, R: System, F: Read>(
    voice: &Voice<R>,
    from: &mut F,
    buf: &'a mut [u8],
) -> Result<&'a [u8], Stop>
    ensures bound { IfOk result (λ s. length s.now ≤ length buf.old) }
    ensures fails { IfErr result (λ stop. stop ≡ Failed) }
{
    match fill(from, buf) {
        Ok(s) => Ok(s),
        Err(why) => Err(voice.failed(why)),
    }
}

// Reads the file of the name, and says why where it cannot.
fn read_file<'a, R: System>(voice: &Voice<R>, buf: &'a mut [u8]) -> Result<&'a [u8], Stop>
    ensures bound { IfOk result (λ s. length s.now ≤ length buf.old) }
    ensures fails { IfErr result (λ stop. stop ≡ Failed) }
{
    match open(voice.rt, voice.name) {
        Ok(mut file) => read_from(voice, &mut file, buf),
        Err(why) => Err(voice.failed(why)),
    }
}

// Reads the input: the file of the name where an argument names one, or standard input.
pub fn read<'a, R: System>(
    voice: &Voice<R>,
    input: Option<usize>,
    buf: &'a mut [u8],
) -> Result<&'a [u8], Stop>
    ensures bound { IfOk result (λ s. length s.now ≤ length buf.old) }
    ensures fails { IfErr result (λ stop. stop ≡ Failed) }
{
    match input {
        None => read_from(voice, &mut voice.rt.reader(), buf),
        Some(_) => read_file(voice, buf),
    }
}

// ---- what an output would replace

// Reads what is open if it is a regular file.
fn load_from<'a>(mut file: File, buf: &'a mut [u8]) -> Option<&'a [u8]>
    ensures { IfSome result (λ s. length s.now ≤ length buf.old) }
{
    let known = Known::open(&file).ok()?;
    if !known.is_regular() {
        return None;
    }
    fill(&mut file, buf).ok()
}

// Reads the file of a path if it is a regular file. Its kind is asked before it is opened, since to open a pipe may take for ever, and again after that.
fn load_file<'a, R: System>(rt: &R, path: &[u8], buf: &'a mut [u8]) -> Option<&'a [u8]>
    ensures { IfSome result (λ s. length s.now ≤ length buf.old) }
{
    let text = paths::text(path).ok()?;
    let known = Known::at(rt, text).ok()?;
    if !known.is_regular() {
        return None;
    }
    load_from(fs::open(rt, text).ok()?, buf)
}

// Reads what now stands in the file that would be written, and says nothing where it cannot: there is no file, or it is none that would be replaced
// (`-` is standard output).
pub fn load<'a, R: System>(rt: &R, file: Target, buf: &'a mut [u8]) -> Option<&'a [u8]>
    ensures { IfSome result (λ s. length s.now ≤ length buf.old) }
{
    let mut room = [0u8; PATH_MAX];
    let name = target(rt, file, &mut room);
    if octets::same(name, b"-") {
        return None;
    }
    load_file(rt, name, buf)
}
