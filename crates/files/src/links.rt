// The file that a path leads to when its last name is a symbolic link, so that a file is replaced where it is and the link stays.
ghost use Rattle.std.specs.Prelude.{◌≡◌, ◌≤◌, length, IfOk, IfSome};
ghost use Rattle.io.specs.Counts.{IsPrefixLen};
ghost use Rattle.files.specs.Paths.{folder_of, place_of};

use crate::paths;
use crate::paths::{EILSEQ, PATH_MAX};
use chars::put_all;
use std::io::{Error, ErrorKind};
use std::rt::Files;
use std::{fs, io};

// How many links are followed, as the system does.
const MOST: usize = 40;

// The index after the last slash.
pub fn folder(path: &[u8]) -> usize
    ensures value { result ≡ folder_of path.now }
    ensures prefix_len { IsPrefixLen result path.now }
{
    for i in (0..path.len()).rev() {
        if path[i] == b'/' {
            return i + 1;
        }
    }
    0
}

// Where what a link says is written: in its folder, or at the front if it begins with a slash.
fn place(path: &[u8], first: u8) -> usize
    ensures { result ≡ place_of path.now first }
{
    if first == b'/' { 0 } else { folder(path) }
}

// Puts what a link says in the place of its path of n octets, and returns how long that is, or none where it says nothing.
fn put_link(path: &mut [u8], n: usize, link: &[u8]) -> Option<usize>
    requires { n ≤ length path.old }
    ensures { IfSome result (λ k. IsPrefixLen k path.new) }
{
    let first = *link.first()?;
    let at = place(&path[..n], first);
    Some(put_all(path, at, link))
}

// Why a link was not read, where the system does not say: it leads to a name that is no text, or there is no memory.
fn unread(why: Error) -> Error {
    if why.kind() == ErrorKind::InvalidFilename {
        return Error::from_raw_os_error(EILSEQ);
    }
    why
}

// Puts in the place of a path of n octets where a link leads, and returns how long that is; none where the path is no link, or is longer than the
// system takes: cut, it would be the path of another file.
fn step<R: Files + Alloc>(rt: &R, path: &mut [u8], n: usize) -> io::Result<Option<usize>>
    requires { n ≤ length path.old }
    ensures { IfOk result (λ found. IfSome found (λ k. IsPrefixLen k path.new)) }
{
    if PATH_MAX <= n {
        return Ok(None);
    }
    let text = paths::text(&path[..n])?;
    match fs::read_link(rt, text) {
        Ok(link) => Ok(put_link(path, n, link.as_str().as_bytes())),
        Err(why) => match why.raw_os_error() {
            Some(_) => Ok(None),
            None => Err(unread(why)),
        },
    }
}

// Puts in the place of a path of n octets where it leads, and returns how long that is.
pub fn follow<R: Files + Alloc>(rt: &R, path: &mut [u8], n: usize) -> io::Result<usize>
    requires { n ≤ length path.old }
    ensures { IfOk result (λ k. IsPrefixLen k path.new) }
{
    let mut m = n;
    for _ in 0..MOST {
        let Some(next) = step(rt, path, m)? else {
            return Ok(m);
        };
        m = next;
    }
    Ok(m)
}
