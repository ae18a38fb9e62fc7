//! An outside that reports what a test wants.

ghost use Rattle.std.specs.Prelude.{◌≤◌, IfOk};

use std::alloc::Allocator;
use std::fmt::Display;
use std::fs::{File, Metadata, OpenOptions};
use std::io::{self, BufRead, ErrorKind, Lines, Read};
use std::rt::Files;

/// Files at which each call fails with this kind of error.
#[derive(Drop)]
pub(crate) struct FailingFiles(pub(crate) ErrorKind);

impl FailingFiles {
    fn error(&self) -> io::Error {
        io::Error::from(self.0)
    }
}

impl Files for FailingFiles {
    type File = File;

    type Dir = File;

    fn open_file(&self, _how: &OpenOptions, _path: &str) -> io::Result<File> {
        Err(self.error())
    }

    fn open_dir(&self, _path: &str) -> io::Result<File> {
        Err(self.error())
    }

    fn metadata(&self, _path: &str) -> io::Result<Metadata> {
        Err(self.error())
    }

    fn symlink_metadata(&self, _path: &str) -> io::Result<Metadata> {
        Err(self.error())
    }

    fn copy(&self, _from: &str, _to: &str) -> io::Result<u64> {
        Err(self.error())
    }

    fn rename(&self, _from: &str, _to: &str) -> io::Result<()> {
        Err(self.error())
    }

    fn remove_file(&self, _path: &str) -> io::Result<()> {
        Err(self.error())
    }

    fn create_dir(&self, _path: &str) -> io::Result<()> {
        Err(self.error())
    }

    fn remove_dir(&self, _path: &str) -> io::Result<()> {
        Err(self.error())
    }

    fn remove_dir_all<B: Allocator>(&self, _alloc: B, _path: &str) -> io::Result<()> {
        Err(self.error())
    }
}

/// A console of which each read and each write reports so many bytes, or fails.
#[derive(Clone, Copy)]
pub(crate) struct Calls(pub(crate) Option<usize>);

impl Calls {
    fn report(&self, most: usize) -> io::Result<usize>
        ensures { IfOk result (λ n. n ≤ most) }
    {
        match self.0 {
            Some(count) => Ok(count.min(most)),
            None => Err(io::Error::from(ErrorKind::Other)),
        }
    }
}

impl Read for Calls {
    fn read(&mut self, buf: &mut [u8]) -> io::Result<usize> {
        self.report(buf.len())
    }
}

impl BufRead for Calls {
    fn fill_buf(&mut self) -> io::Result<&[u8]> {
        Err(io::Error::from(ErrorKind::Unsupported))
    }

    fn consume(&mut self, _amount: usize) {}
}

impl Input for Calls {
    type Reader = Calls;

    fn read_line<A: Allocator + Clone>(&self, _buf: &mut String<A>) -> io::Result<usize> {
        Err(io::Error::from(ErrorKind::Unsupported))
    }

    fn lines<A: Allocator>(&self, alloc: A) -> Lines<Calls, A> {
        self.reader().lines(alloc)
    }

    fn reader(&self) -> Calls {
        *self
    }
}

impl Print for Calls {
    fn print<D: Display + Drop>(&self, _value: D) -> io::Result<()> {
        Err(io::Error::from(ErrorKind::Unsupported))
    }

    fn println<D: Display + Drop>(&self, _value: D) -> io::Result<()> {
        Err(io::Error::from(ErrorKind::Unsupported))
    }

    fn write_all(&self, _bytes: &[u8]) -> io::Result<()> {
        Err(io::Error::from(ErrorKind::Unsupported))
    }

    fn write_some(&self, bytes: &[u8]) -> io::Result<usize> {
        self.report(bytes.len())
    }
}
