// A file that is made or replaced whole: its octets go to a new file in the same folder, which takes its name once they are on their device.
// Of the file that was there its permissions stay, and its owner and group where the system lets them.
ghost use Rattle.std.specs.Prelude.{true, [], ◌∷◌, ◌≡◌, IfOk, IfSome};
ghost use Rattle.io.specs.Counts.{IsPrefixLen};
ghost use Rattle.files.specs.Modes.{permissions, narrowed};
ghost use Rattle.files.specs.declared.status.Stop.TheVariants.{Failed};
ghost use Rattle.files.specs.Status.{among, Delivered, status_of};

use crate::known::Known;
use crate::paths::PATH_MAX;
use crate::{Stop, System, Voice, closing, links, paths};
use chars::put_all;
use std::fs::{File, OpenOptions, Permissions};
use std::io::{Error, ErrorKind, Write};
use std::os::unix::fs::{OpenOptionsExt, PermissionsExt, fchown};
use std::rt::Files;
use std::{fs, io};

// Octets of a folder's path with the name of a new file.
const PART: usize = PATH_MAX + 16;

// Letters at the end of a new file's name.
const LETTERS: usize = 6;

// The error where each name is taken, on Linux.
const EEXIST: i32 = 17;

// How many names are tried for a new file: as many as there are of three letters (glibc's mkstemp tries as many).
const TRIES: usize = 62 * 62 * 62;

// ---- what stays of the old file

// Gives what is open the owner and group of the old file, or its group alone, and returns what it may allow then.
fn hand_over(file: &File, old: Known) -> u32
    ensures { among result (permissions old.mode ∷ narrowed old.mode ∷ []) ≡ true }
{
    if fchown(file, Some(old.owner), Some(old.group)).is_ok()
        || fchown(file, None, Some(old.group)).is_ok()
    {
        old.allowed()
    } else {
        old.allowed_less()
    }
}

// Makes what is open as the old file was. Permissions come last: a change of owner drops some, and they say what the owner that it has may do.
fn keep(file: &File, old: Option<Known>) -> io::Result<()> {
    match old {
        None => Ok(()),
        Some(old) => file.set_permissions(Permissions::from_mode(hand_over(file, old))),
    }
}

// ---- the new file

// The letter of an octet: a digit, a capital or a small one.
fn letter(x: u8) -> u8 {
    match x % 62 {
        k @ 0..=9 => b'0' + k,
        k @ 10..=35 => b'A' + (k - 10),
        k => b'a' + (k - 36),
    }
}

// Letters that the system finds.
fn letters<R: System>(rt: &R) -> io::Result<[u8; LETTERS]> {
    let mut found = [0u8; LETTERS];
    rt.fill_bytes(&mut found)?;
    for x in found.iter_mut() {
        *x = letter(*x);
    }
    Ok(found)
}

// The permissions that a new file is asked for: what replaces a file is its owner's alone until it is as the old file was; what replaces none has
// the permissions that new files of this process have.
fn asked(old: Option<Known>) -> u32 {
    if old.is_none() { 0o666 } else { 0o600 }
}

// Makes a file, which is there for nobody else.
fn create<R: System>(rt: &R, part: &[u8], old: Option<Known>) -> io::Result<File> {
    OpenOptions::new()
        .write(true)
        .create_new(true)
        .mode(asked(old))
        .open(rt, paths::text(part)?)
}

// Puts letters after the first `at` octets of a name, and makes a file of that name, or none where another file has it. Returns how long the name is.
fn try_letters<R: System>(
    rt: &R,
    part: &mut [u8],
    at: usize,
    old: Option<Known>,
) -> io::Result<Option<(File, usize)>>
    ensures { IfOk result (λ made. IfSome made (λ r. IsPrefixLen r.1 part.new)) }
{
    let found = letters(rt)?;
    let n = put_all(part, at, &found);
    match create(rt, &part[..n], old) {
        Ok(file) => Ok(Some((file, n))),
        Err(why) => {
            if why.kind() == ErrorKind::AlreadyExists {
                return Ok(None);
            }
            Err(why)
        }
    }
}

// Makes a file whose name is the first `at` octets of `part` and letters that make it one of no other file. Returns how long the name is.
fn make<R: System>(
    rt: &R,
    part: &mut [u8],
    at: usize,
    old: Option<Known>,
) -> io::Result<(File, usize)>
    ensures { IfOk result (λ r. IsPrefixLen r.1 part.new) }
{
    for _ in 0..TRIES {
        if let Some(made) = try_letters(rt, part, at, old)? {
            return Ok(made);
        }
    }
    Err(Error::from_raw_os_error(EEXIST))
}

// Says why no file could be made. That it was to stand beside the target matters only where there is one, which itself can be written.
fn say_unmade<R: System>(voice: &Voice<R>, old: Option<Known>, why: Error) -> Stop
    ensures { result ≡ Failed }
{
    match old {
        None => voice.failed(why),
        Some(_) => voice.failed_beside(why),
    }
}

// Writes octets until they are on their device.
fn write_whole(file: &mut File, old: Option<Known>, s: &[u8]) -> io::Result<()> {
    keep(file, old)?;
    file.write_all(s)?;
    file.sync_all()
}

// The same, and closes the file.
fn fill<R: System>(rt: &R, mut file: File, old: Option<Known>, s: &[u8]) -> io::Result<()> {
    write_whole(&mut file, old, s)?;
    closing::close(rt, file)
}

// ---- its name

// Asks that the new name outlasts a loss of power. Whether it does, nobody is told: the file is replaced, some systems sync no folder, and where the
// name is lost the old file is there, whole.
fn sync_folder<R: System>(rt: &R, folder: &[u8]) {
    let Ok(text) = paths::text(folder) else {
        return;
    };
    if let Ok(file) = fs::open(rt, text) {
        let _ = file.sync_all();
    }
}

// The same for the folder of a path, which is this one where the path names none.
fn sync_folder_of<R: System>(rt: &R, path: &[u8]) {
    let n = links::folder(path);
    if n == 0 {
        sync_folder(rt, b".");
    } else {
        sync_folder(rt, &path[..n]);
    }
}

// Takes a new file away that is not to be.
fn unlink<R: System>(rt: &R, part: &[u8]) {
    if let Ok(text) = paths::text(part) {
        let _ = fs::remove_file(rt, text);
    }
}

// Gives a new file the name `path`.
fn rename<R: System>(rt: &R, part: &[u8], path: &[u8]) -> io::Result<()> {
    fs::rename(rt, paths::text(part)?, paths::text(path)?)
}

// Writes octets to a new file `part`, and gives it the name `path`.
fn fill_and_name<R: System>(
    rt: &R,
    file: File,
    part: &[u8],
    path: &[u8],
    old: Option<Known>,
    s: &[u8],
) -> io::Result<()> {
    fill(rt, file, old, s)?;
    rename(rt, part, path)
}

// Writes octets to the new file `part`, and gives it the name `path`; takes it away where one of them cannot be done.
fn replace_with<R: System>(
    voice: &Voice<R>,
    file: File,
    part: &[u8],
    path: &[u8],
    old: Option<Known>,
    s: &[u8],
) -> Result<(), Stop>
    ensures { Delivered (status_of result) }
{
    if let Err(why) = fill_and_name(voice.rt, file, part, path, old, s) {
        let stop = voice.failed(why);
        unlink(voice.rt, part);
        return Err(stop);
    }
    sync_folder_of(voice.rt, path);
    Ok(())
}

// Makes a file of octets at a path, or replaces it. The new file's name is short and has nothing of the target's: it fits wherever that one does.
// It is hidden, so that whoever reads all files of a folder sees whole results alone.
fn replace_at<R: System>(
    voice: &Voice<R>,
    path: &[u8],
    old: Option<Known>,
    s: &[u8],
) -> Result<(), Stop>
    ensures { Delivered (status_of result) }
{
    let mut part = [0u8; PART];
    let at = links::folder(path);
    let from = put_all(&mut part, 0, &path[..at]);
    let next = put_all(&mut part, from, b".dnr.");
    match make(voice.rt, &mut part, next, old) {
        Ok((file, n)) => replace_with(voice, file, &part[..n], path, old, s),
        Err(why) => Err(say_unmade(voice, old, why)),
    }
}

// Makes a file of octets, or replaces the one that the name leads to.
pub fn replace<R: System>(voice: &Voice<R>, old: Option<Known>, s: &[u8]) -> Result<(), Stop>
    ensures { Delivered (status_of result) }
{
    let mut path = [0u8; PATH_MAX];
    let n = put_all(&mut path, 0, voice.name);
    match links::follow(voice.rt, &mut path, n) {
        Ok(m) => replace_at(voice, &path[..m], old, s),
        Err(why) => Err(voice.failed(why)),
    }
}
