// A path as the system takes it: it is text, and at most so long.
ghost use Rattle.std.specs.Prelude.{◌≡◌, IfOk};

use std::io::Error;
use std::{io, str};

// Octets of the longest path with the 0 at its end, on Linux.
pub const PATH_MAX: usize = 4096;

// The errors of a path that is longer, and of octets that are no text, on Linux.
const ENAMETOOLONG: i32 = 36;

pub const EILSEQ: i32 = 84;

// The text of a path. One that is no text names no file here.
pub fn text(path: &[u8]) -> io::Result<&str>
    ensures { IfOk result (λ t. t.now ≡ path.now) }
{
    if PATH_MAX <= path.len() {
        return Err(Error::from_raw_os_error(ENAMETOOLONG));
    }
    match str::from_utf8(path) {
        Ok(t) => Ok(t),
        Err(_) => Err(Error::from_raw_os_error(EILSEQ)),
    }
}
