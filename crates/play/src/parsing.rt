ghost use Rattle.std.specs.Prelude.{◌≡◌, IfOk, codes};
ghost use Rattle.spelling.specs.Words.{words};
ghost use Rattle.play.specs.Asking.{word_of, word_of_request, word_of_step, ReadAs};

use crate::arguments::Arguments;
use crate::command::{Command, FlowSetup, Request, Source};
use framing::judging::PACKET_MAX;
use receiver::terms::Terms;
use script::step::Step;
use service::header::SyncHeader;
use spelling::fault::LineFault;
use spelling::words::Words;
use std::alloc::Global;

/// What a line asks for: nothing where it is blank or begins with `#`.
pub fn parse(heap: Global, line: &[u8]) -> Result<Option<Command>, LineFault>
    ensures { ReadAs (words line.now) result }
{
    let mut words = Words::of(line);
    let Some(name) = words.next() else {
        return Ok(None);
    };
    if name.starts_with(b"#") {
        return Ok(None);
    }
    let mut arguments = Arguments { words };
    let command = parse_command(heap, name, &mut arguments)?;
    arguments.end()?;
    Ok(Some(command))
}

/// The command of this name, with the arguments that it wants.
fn parse_command(heap: Global, name: &[u8], arguments: &mut Arguments) -> Result<Command, LineFault>
    ensures { IfOk result (λ c. name.now ≡ word_of c) }
{
    match name {
        b"checksum" => Ok(Command::Request(Request::Checksum {
            checksum: arguments.checksum()?,
            message: arguments.bytes(heap)?,
        })),
        b"header" => Ok(Command::Request(Request::Header {
            packet: arguments.bytes(heap)?,
        })),
        b"write-header" => Ok(Command::Request(parse_write_header(heap, arguments)?)),
        b"fragments" => Ok(Command::Request(Request::Fragments {
            frame: arguments.bytes(heap)?,
        })),
        b"reel" => Ok(Command::Request(Request::Reel {
            reel: arguments.bytes(heap)?,
        })),
        b"fade" => Ok(Command::Request(Request::Fade {
            pattern: arguments.bytes(heap)?,
        })),
        b"flow" => Ok(Command::Flow(parse_flow(heap, arguments)?)),
        _ => Ok(Command::Step(parse_step(heap, name, arguments)?)),
    }
}

/// The step of a flow of this name.
fn parse_step(heap: Global, name: &[u8], arguments: &mut Arguments) -> Result<Step, LineFault>
    ensures { IfOk result (λ s. name.now ≡ word_of_step s) }
{
    match name {
        b"open" => Ok(Step::Open {
            frames: arguments.number()?,
        }),
        b"offer" => Ok(Step::Offer {
            packet: arguments.bytes(heap)?,
        }),
        b"close" => Ok(Step::Close),
        b"read" => Ok(Step::Read {
            buffer_len: parse_buffer_len(arguments)?,
        }),
        b"drain" => Ok(Step::Drain),
        b"room" => Ok(Step::Room),
        b"waits" => Ok(Step::Waits),
        _ => Err(LineFault::UnknownCommand),
    }
}

/// How long the buffer of a reading is: as told, or as long as any packet. A longer one would be answered alike, so that
/// no more is taken than this.
fn parse_buffer_len(arguments: &mut Arguments) -> Result<usize, LineFault> {
    Ok(
        arguments
            .number_if_any()?
            .unwrap_or(PACKET_MAX)
            .min(PACKET_MAX),
    )
}

/// `KIND frame N time T access yes|no unreferenced yes|no payload BYTES place LENGTH`
fn parse_write_header(heap: Global, arguments: &mut Arguments) -> Result<Request, LineFault>
    ensures { IfOk result (λ r. word_of_request r ≡ codes "write-header") }
{
    let header = parse_header_facts(arguments)?;
    arguments.keyword(b"payload")?;
    let payload = arguments.bytes(heap)?;
    arguments.keyword(b"place")?;
    let buffer_len = arguments.number()?;
    Ok(Request::WriteHeader {
        header,
        payload,
        buffer_len,
    })
}

/// `KIND frame N time T access yes|no unreferenced yes|no`
fn parse_header_facts(arguments: &mut Arguments) -> Result<SyncHeader, LineFault> {
    let kind = arguments.kind()?;
    arguments.keyword(b"frame")?;
    let frame_id = arguments.number_or_none()?;
    arguments.keyword(b"time")?;
    let timestamp = arguments.number_or_none()?;
    arguments.keyword(b"access")?;
    let access_point = arguments.yes_or_no()?;
    arguments.keyword(b"unreferenced")?;
    let unreferenced = arguments.yes_or_no()?;
    Ok(SyncHeader {
        kind,
        frame_id,
        timestamp,
        access_point,
        unreferenced,
    })
}

/// `ID fasb on|off checksum none|crc16 service plain|sync ring MEMORY`, or at the end `reel BYTES`
fn parse_flow(heap: Global, arguments: &mut Arguments) -> Result<FlowSetup<usize>, LineFault> {
    let id = arguments.number()?;
    arguments.keyword(b"fasb")?;
    let fasb = arguments.on_or_off()?;
    arguments.keyword(b"checksum")?;
    let checksum = arguments.checksum()?;
    arguments.keyword(b"service")?;
    let service = arguments.service()?;
    let source = parse_source(heap, arguments)?;
    Ok(FlowSetup {
        id,
        terms: Terms {
            checksum,
            service,
            fasb,
        },
        source,
    })
}

/// `ring MEMORY` or `reel BYTES`
fn parse_source(heap: Global, arguments: &mut Arguments) -> Result<Source<usize>, LineFault> {
    match arguments.word()? {
        b"ring" => Ok(Source::Ring(arguments.number()?)),
        b"reel" => Ok(Source::Reel(arguments.bytes(heap)?)),
        _ => Err(LineFault::UnknownWord),
    }
}
