//! What the disk of the machine asks of the system: files, the lock on one, and why a call failed.

use crate::paths::{FilePath, LOCK_PATH};
use arrayvec::ArrayString;
use ix_base::File;
use std::error::Error;
use std::fmt::{self, Display, Formatter, Write};
use std::fs::{self, TryLockError};
use std::io::{self, ErrorKind};
use std::rt::{Files, LibcRuntime};

/// The files of a machine, and the lock on an open one.
pub trait LockFiles: Files {
    /// Takes the lock of an open file for this program alone, until the file is closed, and tells
    /// whether it could. It does not wait for another program that has it.
    fn try_lock(&self, open: &Self::File) -> io::Result<bool>;
}

impl LockFiles for LibcRuntime {
    fn try_lock(&self, open: &fs::File) -> io::Result<bool> {
        match open.try_lock() {
            Ok(()) => Ok(true),
            Err(TryLockError::WouldBlock) => Ok(false),
            Err(TryLockError::Error(fault)) => Err(fault),
        }
    }
}

impl<R: LockFiles> LockFiles for &R {
    fn try_lock(&self, open: &R::File) -> io::Result<bool> {
        (**self).try_lock(open)
    }
}

/// Why a call on a file failed.
#[derive(Clone, Copy, Debug)]
pub enum Reason {
    /// The number of the system's error.
    System(i32),
    /// What the disk found by itself.
    Found(&'static str),
}

impl Display for Reason {
    /// The text that the system has for its error, or what the disk found.
    fn fmt<W: fmt::Write>(&self, f: &mut Formatter<W>) -> fmt::Result {
        match self {
            Reason::Found(text) => f.write_str(text),
            Reason::System(code) => {
                let mut text = ArrayString::<256>::new();
                let _ = write!(text, "{}", io::Error::from_raw_os_error(*code));
                match text.as_str().split_once(" (os error ") {
                    Some((front, _)) => f.write_str(front),
                    None => f.write_str(text.as_str()),
                }
            }
        }
    }
}

impl Error for Reason {}

/// Why a call of the system failed.
pub fn reason_of(fault: &io::Error) -> Reason {
    match fault.raw_os_error() {
        Some(code) => Reason::System(code),
        None => Reason::Found("the system refused it"),
    }
}

/// What a call of the system gave, or why it failed.
pub fn done<T: Drop>(given: io::Result<T>) -> Result<T, Reason> {
    match given {
        Ok(value) => Ok(value),
        Err(fault) => Err(reason_of(&fault)),
    }
}

/// Nothing in place of the error that something is missing.
pub fn if_there<T: Drop>(found: io::Result<T>) -> Result<Option<T>, Reason> {
    match found {
        Ok(value) => Ok(Some(value)),
        Err(fault) if fault.kind() == ErrorKind::NotFound => Ok(None),
        Err(fault) => Err(reason_of(&fault)),
    }
}

/// The first fault of a disk: the file that the call was on, or none where it was the lock, and why
/// it failed.
#[derive(Clone, Copy, Debug)]
pub struct FirstFault {
    pub file: Option<File>,
    pub reason: Reason,
}

impl Display for FirstFault {
    /// The path, and the text of the reason.
    fn fmt<W: fmt::Write>(&self, f: &mut Formatter<W>) -> fmt::Result {
        match self.file {
            Some(file) => f.write_str(FilePath::of(file).as_str())?,
            None => f.write_str(LOCK_PATH)?,
        }
        f.write_str(": ")?;
        self.reason.fmt(f)
    }
}

impl Error for FirstFault {}
