// What the system knows of a file: its kind and its permissions, its owner and its group.
ghost use Rattle.std.specs.Prelude.{◌≡◌};
ghost use Rattle.std.specs.Fs.{metadata_mode};
ghost use Rattle.files.specs.Modes.{regular, permissions, narrowed};

use std::fs::{File, Metadata};
use std::os::unix::fs::MetadataExt;
use std::rt::Files;
use std::{fs, io};

// Mode, owner and group as the system gives them.
#[derive(Clone, Copy)]
pub struct Known {
    pub mode: u32,
    pub owner: u32,
    pub group: u32,
}

impl Known {
    // What of it is used.
    fn taken(about: &Metadata) -> Self
        ensures { result.mode ≡ metadata_mode about.now }
    {
        Self {
            mode: about.mode(),
            owner: about.uid(),
            group: about.gid(),
        }
    }

    // What is known of what is open.
    pub fn open(file: &File) -> io::Result<Self> {
        let about = file.metadata()?;
        Ok(Self::taken(&about))
    }

    // What is known of the file at a path, which is not opened: a pipe would wait for its other end.
    pub fn at<R: Files>(rt: &R, path: &str) -> io::Result<Self> {
        let about = fs::metadata(rt, path)?;
        Ok(Self::taken(&about))
    }

    // Whether it is a regular file.
    pub fn is_regular(self) -> bool
        ensures { result ≡ regular self.mode }
    {
        self.mode / 4096 % 16 == 8
    }

    // Its permissions. The bits above them change who runs a program, and are not for a result.
    pub fn allowed(self) -> u32
        ensures { result ≡ permissions self.mode }
    {
        self.mode % 512
    }

    // The permissions of a file whose group is another than its own: both groups and all others may do what its group and others could.
    pub fn allowed_less(self) -> u32
        ensures { result ≡ narrowed self.mode }
    {
        let both = (self.mode / 8 & self.mode) % 8;
        self.mode / 64 % 8 * 64 + both * 9
    }
}
