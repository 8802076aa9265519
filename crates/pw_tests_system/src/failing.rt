//! The system with one call that fails.

use std::alloc::{AllocError, Allocator, Global};
use std::fs::{Metadata, OpenOptions};
use std::io::{self, ErrorKind, Read};
use std::rt::Files;

/// The calls of the system that a store makes of a folder.
#[derive(Clone, Copy, PartialEq, Eq)]
pub enum Call {
    /// The folder is opened.
    OpenFolder,
    /// An entry of the folder is read.
    ReadFolder,
    /// A name in the folder is asked what it stands for.
    AskName,
    /// A file is opened.
    OpenFile,
    /// A file is removed.
    RemoveFile,
}

/// A fault of a call: one of a kind, without a number, or that of the system which has this number.
#[derive(Clone, Copy)]
pub enum Fault {
    /// A fault of this kind, without a number.
    Of(ErrorKind),
    /// The system's fault of this number.
    Numbered(i32),
}

impl Fault {
    fn error(self) -> io::Error {
        match self {
            Fault::Of(kind) => io::Error::from(kind),
            Fault::Numbered(number) => io::Error::from_raw_os_error(number),
        }
    }
}

/// The system, but that this call answers this fault.
#[derive(Drop)]
pub struct Failing<'a> {
    pub rt: &'a HostRuntime,
    pub call: Call,
    pub fault: Fault,
}

impl<'a> Failing<'a> {
    /// The fault, where this is the call that fails.
    fn fail_at(&self, call: Call) -> io::Result<()> {
        if self.call == call {
            return Err(self.fault.error());
        }
        Ok(())
    }
}

impl<'a> Clone for Failing<'a> {
    fn clone(&self) -> Result<Self, AllocError> {
        Ok(Failing {
            rt: self.rt,
            call: self.call,
            fault: self.fault,
        })
    }
}

impl<'a> Alloc for Failing<'a> {
    type A = Global;

    fn alloc(&self) -> Global {
        self.rt.alloc()
    }
}

/// An open folder of the system, of which a read may fail.
#[derive(Drop)]
pub struct Names<D> {
    names: D,
    fault: Option<Fault>,
}

impl<D: Read> Read for Names<D> {
    fn read(&mut self, bytes: &mut [u8]) -> io::Result<usize> {
        match self.fault {
            Some(fault) => Err(fault.error()),
            None => self.names.read(bytes),
        }
    }
}

/// What a call that no store makes answers.
fn unused<T>() -> io::Result<T> {
    Err(io::Error::from(ErrorKind::Unsupported))
}

impl<'a> Files for Failing<'a> {
    type File = <HostRuntime as Files>::File;

    type Dir = Names<<HostRuntime as Files>::Dir>;

    fn open_file(&self, how: &OpenOptions, path: &str) -> io::Result<Self::File> {
        self.fail_at(Call::OpenFile)?;
        self.rt.open_file(how, path)
    }

    fn open_dir(&self, path: &str) -> io::Result<Self::Dir> {
        self.fail_at(Call::OpenFolder)?;
        let names = self.rt.open_dir(path)?;
        let fault = (self.call == Call::ReadFolder).then_some(self.fault);
        Ok(Names { names, fault })
    }

    fn metadata(&self, path: &str) -> io::Result<Metadata> {
        self.fail_at(Call::AskName)?;
        self.rt.metadata(path)
    }

    fn symlink_metadata(&self, _path: &str) -> io::Result<Metadata> {
        unused()
    }

    fn copy(&self, _from: &str, _to: &str) -> io::Result<u64> {
        unused()
    }

    fn rename(&self, _from: &str, _to: &str) -> io::Result<()> {
        unused()
    }

    fn remove_file(&self, path: &str) -> io::Result<()> {
        self.fail_at(Call::RemoveFile)?;
        self.rt.remove_file(path)
    }

    fn create_dir(&self, _path: &str) -> io::Result<()> {
        unused()
    }

    fn remove_dir(&self, _path: &str) -> io::Result<()> {
        unused()
    }

    fn remove_dir_all<B: Allocator>(&self, _alloc: B, _path: &str) -> io::Result<()> {
        unused()
    }
}
