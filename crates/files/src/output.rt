// What is written: to standard output, or to a file, which is either replaced whole or left as it was.
ghost use Rattle.std.specs.Prelude.{◌≡◌};
ghost use Rattle.files.specs.declared.status.Stop.TheVariants.{Failed};
ghost use Rattle.files.specs.Status.{Delivered, status_of};

use crate::known::Known;
use crate::paths::PATH_MAX;
use crate::{Stop, System, Voice, closing, input, paths, place};
use arguments::Target;
use lines::objects;
use std::fs::{File, OpenOptions};
use std::io;
use std::io::{Error, ErrorKind, Write};

// Prints octets.
pub fn print<R: System>(voice: &Voice<R>, s: &[u8]) -> Result<(), Stop>
    ensures { Delivered (status_of result) }
{
    match voice.rt.write_all(s) {
        Ok(()) => Ok(()),
        Err(why) => Err(voice.about(b"standard output").failed(why)),
    }
}

// Prints octets as hexadecimal text, or in JSON.
pub fn print_hex<R: System>(voice: &Voice<R>, s: &[u8], text: &mut [u8]) -> Result<(), Stop>
    ensures { Delivered (status_of result) }
{
    if voice.json {
        let n = objects::put_octets(text, s);
        return print(voice, &text[..n]);
    }
    let n = lines::put_hex(text, s);
    print(voice, &text[..n])
}

// ---- files

// Writes octets to what is no regular file, and closes it.
fn write_to<R: System>(rt: &R, mut file: File, s: &[u8]) -> io::Result<()> {
    file.write_all(s)?;
    closing::close(rt, file)
}

// The same, and says why where it cannot be done.
fn write_through<R: System>(voice: &Voice<R>, file: File, s: &[u8]) -> Result<(), Stop>
    ensures { Delivered (status_of result) }
{
    match write_to(voice.rt, file, s) {
        Ok(()) => Ok(()),
        Err(why) => Err(voice.failed(why)),
    }
}

// Writes octets to what the name has opened: a regular file is replaced, and anything else stays what it is.
fn save_over<R: System>(voice: &Voice<R>, file: File, s: &[u8]) -> Result<(), Stop>
    ensures { Delivered (status_of result) }
{
    match Known::open(&file) {
        Err(why) => Err(voice.failed(why)),
        Ok(old) => {
            if old.is_regular() {
                drop(file);
                return place::replace(voice, Some(old), s);
            }
            write_through(voice, file, s)
        }
    }
}

// Opens the file of a name to write at its end.
fn open<R: System>(rt: &R, name: &[u8]) -> io::Result<File> {
    OpenOptions::new().append(true).open(rt, paths::text(name)?)
}

// Saves octets under the name. It is opened first, so that a file that may not be written to is not replaced through its folder.
fn save_as<R: System>(voice: &Voice<R>, s: &[u8]) -> Result<(), Stop>
    ensures { Delivered (status_of result) }
{
    if octets::same(voice.name, b"-") {
        return print(voice, s);
    }
    match open(voice.rt, voice.name) {
        Ok(file) => save_over(voice, file, s),
        Err(why) => save_new(voice, s, why),
    }
}

// Saves octets under a name that could not be opened: as a new file, where there is none.
fn save_new<R: System>(voice: &Voice<R>, s: &[u8], why: Error) -> Result<(), Stop>
    ensures { Delivered (status_of result) }
{
    if why.kind() == ErrorKind::NotFound {
        return place::replace(voice, None, s);
    }
    Err(voice.failed(why))
}

// Saves octets in a file.
pub fn save<R: System>(voice: &Voice<R>, file: Target, s: &[u8]) -> Result<(), Stop>
    ensures { Delivered (status_of result) }
{
    let mut room = [0u8; PATH_MAX];
    save_as(&voice.about(input::target(voice.rt, file, &mut room)), s)
}

// Prints how many octets were saved, where that is asked for.
fn saved<R: System>(voice: &Voice<R>, n: usize) -> Result<(), Stop>
    ensures { Delivered (status_of result) }
{
    if voice.json {
        let mut text = [0u8; 64];
        let k = objects::put_saved(&mut text, n);
        return print(voice, &text[..k]);
    }
    Ok(())
}

// Saves octets that are the whole result.
pub fn save_octets<R: System>(voice: &Voice<R>, file: Target, s: &[u8]) -> Result<(), Stop>
    ensures { Delivered (status_of result) }
{
    save(voice, file, s)?;
    saved(voice, s.len())
}

// Leaves a file as it is, and says so.
pub fn keep<R: System>(voice: &Voice<R>, file: Target) -> Stop
    ensures { result ≡ Failed }
{
    let mut room = [0u8; PATH_MAX];
    voice.about(input::target(voice.rt, file, &mut room)).kept()
}
