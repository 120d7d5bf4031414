use console::command::CommandFault;
use std::alloc::AllocError;
use std::{fmt, io};

/// Why a command ends with an error.
#[derive(Clone, Copy)]
pub enum Failure<'a> {
    /// The arguments are wrong.
    Arguments(CommandFault<'a>),
    /// This cannot be read.
    NotRead(&'a str, io::Error),
    /// This directory cannot be made.
    NotMade(&'a str, io::Error),
    /// The manifest in this directory cannot be made.
    NoManifest(&'a str, io::Error),
    /// This cannot be written, for this reason where it is known.
    NotWritten(&'a str, Option<io::Error>),
    /// There is no memory for a script.
    NoMemory,
    /// The reel has a fault, which the report on it tells.
    Unlawful,
    /// There is no memory, or no output, for as much as a message.
    Speechless,
    /// It was told where it came up.
    Told,
}

impl fmt::Display for Failure<'_> {
    fn fmt<W: fmt::Write>(&self, f: &mut fmt::Formatter<W>) -> fmt::Result {
        match self {
            Failure::Arguments(fault) => {
                write!(f, "{fault}\nrothveam --help tells what there is.")
            }
            Failure::NotRead(name, fault) => write!(f, "{name} cannot be read: {fault}"),
            Failure::NotMade(name, fault) => write!(f, "{name} cannot be made: {fault}"),
            Failure::NoManifest(directory, fault) => {
                write!(f, "{directory}/manifest.tsv cannot be made: {fault}")
            }
            Failure::NotWritten(name, Some(fault)) => {
                write!(f, "{name} cannot be written: {fault}")
            }
            Failure::NotWritten(name, None) => write!(f, "{name} cannot be written"),
            Failure::NoMemory => f.write_str("there is no memory to go on with the script"),
            Failure::Unlawful | Failure::Speechless | Failure::Told => Ok(()),
        }
    }
}

impl<'a> Failure<'a> {
    /// Tells it on standard error, where it is to be told.
    pub fn tell(self, rt: &HostRuntime) {
        if !matches!(
            self,
            Failure::Unlawful | Failure::Speechless | Failure::Told
        ) {
            let _ = eprintln!(rt; "rothveam: {self}");
        }
    }

    /// Tells it at once, and hands on that it was told. So a file that cannot be written is still open when that is told: where a
    /// program is run without a standard error, that file is in its place, and the message stands in it.
    pub fn told(self, rt: &HostRuntime) -> Failure<'a> {
        self.tell(rt);
        Failure::Told
    }
}

impl From<io::Error> for Failure<'_> {
    fn from(_fault: io::Error) -> Self {
        Failure::Speechless
    }
}

impl From<AllocError> for Failure<'_> {
    fn from(_fault: AllocError) -> Self {
        Failure::Speechless
    }
}
