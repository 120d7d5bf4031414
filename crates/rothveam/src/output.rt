use crate::failure::Failure;
use report::visit::Progress;
use std::alloc::Global;
use std::io::Write;
use std::{fmt, io};

/// Text on its way to a file or to standard output. It is written in large pieces. They are gathered here, as no `BufWriter` does it:
/// that one writes the rest when it is dropped, and the text of a work that failed is not to be written on; and it takes all its
/// memory before there is any text.
#[derive(Drop)]
pub struct Output<S> {
    sink: S,
    text: String,
    /// What went wrong, if anything: formatting itself cannot carry it.
    fault: Option<io::Error>,
}

/// How much text is gathered before it is written.
const PIECE: usize = 65_536;

impl<S: Write> Output<S> {
    /// Text for this file or stream.
    pub fn to(heap: Global, sink: S) -> Output<S> {
        Output {
            sink,
            text: String::new(heap),
            fault: None,
        }
    }

    /// Writes what is gathered.
    pub fn flush(&mut self) -> fmt::Result {
        let written = self.sink.write_all(self.text.as_bytes());
        self.text.clear();
        written.map_err(|fault| {
            self.fault = Some(fault);
            fmt::Error
        })
    }

    /// Writes what is gathered of the text that has this name.
    pub fn finish<'a>(&mut self, name: &'a str) -> Result<(), Failure<'a>> {
        self.flush().map_err(|_| self.not_written(name))
    }

    /// That the text of this name cannot be written.
    pub fn not_written<'a>(&self, name: &'a str) -> Failure<'a> {
        Failure::NotWritten(name, self.fault)
    }
}

impl<S: Write> fmt::Write for Output<S> {
    fn write_str(&mut self, s: &str) -> fmt::Result {
        if self.text.len() > PIECE {
            self.flush()?;
        }
        self.text.push_str(s).map_err(|_| fmt::Error)
    }
}

/// Shows on standard error how far the work is, where that was asked for.
#[derive(Clone, Copy)]
pub struct Meter<'a> {
    rt: &'a HostRuntime,
    /// A hundredth of the reel's size, or nothing where nothing is to be shown.
    hundredth: Option<usize>,
    /// How many hundredths were shown last.
    shown: usize,
}

impl<'a> Meter<'a> {
    /// The meter for this reel, where it is asked for.
    pub fn for_reel(rt: &'a HostRuntime, reel: &[u8], asked: bool) -> Meter<'a> {
        Meter {
            rt,
            hundredth: asked.then_some(reel.len() / 100),
            shown: 0,
        }
    }

    /// Ends the line in which it was shown.
    pub fn finish(&self) -> io::Result<()> {
        if self.hundredth.is_some() {
            eprintln!(self.rt; "\r100 %")?;
        }
        Ok(())
    }
}

impl Progress for Meter<'_> {
    fn passed(&mut self, at: usize) {
        if let Some(hundredth) = self.hundredth
            && let Some(part) = at.checked_div(hundredth)
            && part > self.shown
        {
            self.shown = part;
            let _ = eprint!(self.rt; "\r{part:>3} %");
        }
    }
}
