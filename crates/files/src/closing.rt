// A file that is closed, and whether that could be done. A file is closed where it is let go, which tells nobody how that went, and the system's
// number of the last call that failed stays as it was where a call succeeds. So a call comes first that fails in a known way.
use std::fs::File;
use std::io;
use std::io::ErrorKind;
use std::rt::Env;
use std_io::io::last_error;

// Fails for want of such an argument, as no call that closes a file does: the kind of that error is `InvalidInput`.
fn ask_in_vain<R: Env>(rt: &R) {
    let mut none = [0u8; 1];
    let _ = rt.arg(usize::MAX, &mut none);
}

pub fn close<R: Env>(rt: &R, file: File) -> io::Result<()> {
    ask_in_vain(rt);
    drop(file);
    let error = last_error();
    if error.kind() == ErrorKind::InvalidInput {
        return Ok(());
    }
    Err(error)
}
