//! The lines that answer the commands that need no flow.
ghost use Rattle.std.specs.Prelude.{Some};
ghost use Rattle.framing.specs.Giving.{shown as asRule};
ghost use Rattle.reel.specs.Checking.{told};
ghost use Rattle.service.specs.Reading.{packet_read};
ghost use Rattle.wording.specs.Answers.{checksum_line, fragment_line, header_line, reel_line, wrote_line};

use framing::fragments::Fragment;
use reel::fault::ReelFault;
use service::header::HeaderFault;
use service::reading::SyncPacket;
use spelling::answer::yes_no;
use spelling::hex::Hex;
use spelling::optional::Optional;
use std::fmt;

/// The value of a checksum.
#[derive(Clone, Copy, PartialEq, Eq, Debug)]
pub struct ChecksumLine<'a>(pub &'a [u8]);

impl fmt::Display for ChecksumLine<'_> {
    ghost output = { λ x. Some (checksum_line x.0.now) };

    fn fmt<W: fmt::Write>(&self, f: &mut fmt::Formatter<W>) -> fmt::Result {
        let value = Hex(self.0);
        writeln!(f, "checksum {value}")
    }
}

/// What a sync header tells, or the number of its refusal.
#[derive(Clone, Copy, PartialEq, Eq, Debug)]
pub struct HeaderLine<'a>(pub Result<SyncPacket<'a>, HeaderFault>);

impl fmt::Display for HeaderLine<'_> {
    ghost output = { λ x. Some (header_line (packet_read x.0)) };

    fn fmt<W: fmt::Write>(&self, f: &mut fmt::Formatter<W>) -> fmt::Result {
        match self.0 {
            Ok(SyncPacket { header, payload }) => {
                let kind = header.kind.word();
                let frame = Optional {
                    before: "",
                    value: header.frame_id,
                    absent: "-",
                };
                let time = Optional {
                    before: "",
                    value: header.timestamp,
                    absent: "-",
                };
                let access = yes_no(header.access_point);
                let unreferenced = yes_no(header.unreferenced);
                let payload = Hex(payload);
                writeln!(
                    f,
                    "header {kind} frame {frame} time {time} access {access} unreferenced {unreferenced} payload {payload}"
                )
            }
            Err(fault) => {
                let number = fault.number();
                writeln!(f, "refused {number}")
            }
        }
    }
}

/// A sync header and its payload, as written.
#[derive(Clone, Copy, PartialEq, Eq, Debug)]
pub struct WroteLine<'a>(pub &'a [u8]);

impl fmt::Display for WroteLine<'_> {
    ghost output = { λ x. Some (wrote_line x.0.now) };

    fn fmt<W: fmt::Write>(&self, f: &mut fmt::Formatter<W>) -> fmt::Result {
        let len = self.0.len();
        let written = Hex(self.0);
        writeln!(f, "wrote {len} {written}")
    }
}

/// One fragment of a frame.
#[derive(Clone, Copy, PartialEq, Eq, Debug)]
pub struct FragmentLine<'a>(pub Fragment<'a>);

impl fmt::Display for FragmentLine<'_> {
    ghost output = { λ x. Some (fragment_line (asRule x.0)) };

    fn fmt<W: fmt::Write>(&self, f: &mut fmt::Formatter<W>) -> fmt::Result {
        match self.0 {
            Fragment::Body { at, body, last } => {
                let len = body.len();
                let end = if last { "last" } else { "more" };
                let bytes = Hex(body);
                writeln!(f, "body {at} {len} {end} {bytes}")
            }
            Fragment::Notional { at } => writeln!(f, "notional {at}"),
            Fragment::Padding { at } => writeln!(f, "padding {at}"),
        }
    }
}

/// Whether a reel is lawful, or the question that was answered no and the place of its block.
#[derive(Clone, Copy, PartialEq, Eq, Debug)]
pub struct ReelLine(pub Result<(), ReelFault>);

impl fmt::Display for ReelLine {
    ghost output = { λ x. Some (reel_line (told x.0)) };

    fn fmt<W: fmt::Write>(&self, f: &mut fmt::Formatter<W>) -> fmt::Result {
        match self.0 {
            Ok(()) => writeln!(f, "lawful"),
            Err(fault) => {
                let number = fault.fault.number();
                let at = fault.at;
                writeln!(f, "refused {number} {at}")
            }
        }
    }
}
