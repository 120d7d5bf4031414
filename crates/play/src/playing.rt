ghost use Rattle.std.specs.Prelude.{◌≡◌, Some};
ghost use Rattle.play.specs.Words.{fault_words};
ghost use Rattle.play.specs.declared.playing.PlayFault.TheVariants.{Memory, Output};

use crate::command::{Command, Request};
use crate::parsing::parse;
use crate::stage::Stage;
use channel::pattern::FadePattern;
use script::reply::Reply;
use script::step::Step;
use spelling::fault::LineFault;
use spelling::lines::{Lines, without_return};
use std::alloc::{AllocError, AllocFailed, Global};
use std::error::Error;
use std::fmt;
use wording::answering::{
    checksum_text, fade_text, fragments_text, header_text, reel_text, write_header_text,
};
use wording::replies::reply_text;

/// Why a script was not played to its end.
#[derive(Clone, Copy, PartialEq, Eq, Debug)]
pub enum PlayFault {
    /// There is no memory to go on.
    Memory,
    /// The output takes no more.
    Output,
}

/// What is wrong, in words.
impl fmt::Display for PlayFault {
    ghost output = { λ fault. Some (fault_words fault) };

    fn fmt<W: fmt::Write>(&self, f: &mut fmt::Formatter<W>) -> fmt::Result {
        f.write_str(match self {
            PlayFault::Memory => "there is no memory to go on",
            PlayFault::Output => "the output takes no more",
        })
    }
}

impl Error for PlayFault {}

impl From<AllocError> for PlayFault {
    ghost from_gives = { λ _ r. r ≡ Memory };

    fn from(_fault: AllocError) -> PlayFault {
        PlayFault::Memory
    }
}

impl<T: Drop> From<AllocFailed<T>> for PlayFault {
    ghost from_gives = { λ _ r. r ≡ Memory };

    fn from(_fault: AllocFailed<T>) -> PlayFault {
        PlayFault::Memory
    }
}

impl From<fmt::Error> for PlayFault {
    ghost from_gives = { λ _ r. r ≡ Output };

    fn from(_fault: fmt::Error) -> PlayFault {
        PlayFault::Output
    }
}

/// What is to be printed in its turn.
#[derive(Drop)]
enum Entry {
    /// This text.
    Said(String),
    /// The room that the new flow of this id has.
    SetUp { id: u16 },
    /// What the next step of the flow answered, asked for in this line.
    Awaits { line: u64 },
}

/// One flow with its steps, and what is to be printed meanwhile. Before the first flow there is none.
#[derive(Drop)]
struct Scene {
    stage: Option<Stage>,
    steps: Vec<Step>,
    entries: Vec<Entry>,
}

/// Plays a script: each command prints its lines to `out`, in order.
pub fn play<W: fmt::Write>(heap: Global, script: &[u8], out: &mut W) -> Result<(), PlayFault> {
    let mut fade = FadePattern::new();
    let mut scene = Scene::before_flows(heap);
    for (number, line) in (1u64..).zip(Lines::of(script)) {
        match parse(heap, without_return(line)) {
            Ok(None) => {}
            Ok(Some(Command::Request(request))) => scene.say(answer(heap, &request, &mut fade)?)?,
            Ok(Some(Command::Flow(setup))) => match Stage::new(heap, setup, fade) {
                Ok(stage) => {
                    scene.perform(heap, out)?;
                    scene = Scene::with_flow(heap, stage)?;
                }
                Err(fault) => scene.say_error(heap, number, fault)?,
            },
            Ok(Some(Command::Step(step))) => scene.add_step(heap, number, step)?,
            Err(fault) => scene.say_error(heap, number, fault)?,
        }
    }
    scene.perform(heap, out)
}

/// What a command that needs no flow prints.
fn answer(heap: Global, request: &Request, fade: &mut FadePattern) -> Result<String, AllocError> {
    match request {
        Request::Checksum { checksum, message } => {
            checksum_text(heap, *checksum, message.as_slice())
        }
        Request::Header { packet } => header_text(heap, packet.as_slice()),
        Request::WriteHeader {
            header,
            payload,
            buffer_len,
        } => write_header_text(heap, header, payload.as_slice(), *buffer_len),
        Request::Fragments { frame } => fragments_text(heap, frame.as_slice()),
        Request::Reel { reel } => reel_text(heap, reel.as_slice()),
        Request::Fade { pattern } => fade_text(heap, fade, pattern.as_slice()),
    }
}

impl Scene {
    fn before_flows(heap: Global) -> Scene {
        Scene {
            stage: None,
            steps: Vec::new(heap),
            entries: Vec::new(heap),
        }
    }

    /// The first step of a flow asks for its room.
    fn with_flow(heap: Global, stage: Stage) -> Result<Scene, PlayFault> {
        let entry = Entry::SetUp { id: stage.id() };
        Ok(Scene {
            stage: Some(stage),
            steps: vec![in heap; Step::Room]?,
            entries: vec![in heap; entry]?,
        })
    }

    fn say(&mut self, text: String) -> Result<(), PlayFault> {
        self.entries.push(Entry::Said(text))?;
        Ok(())
    }

    fn say_error(&mut self, heap: Global, line: u64, fault: LineFault) -> Result<(), PlayFault> {
        self.say(error_text(heap, line, fault)?)
    }

    fn add_step(&mut self, heap: Global, line: u64, step: Step) -> Result<(), PlayFault> {
        if self.stage.is_none() {
            return self.say_error(heap, line, LineFault::NoFlow);
        }
        self.steps.push(step)?;
        self.entries.push(Entry::Awaits { line })?;
        Ok(())
    }

    /// Runs the flow, and prints all in its order.
    fn perform<W: fmt::Write>(self, heap: Global, out: &mut W) -> Result<(), PlayFault> {
        let Scene {
            stage,
            steps,
            entries,
        } = self;
        let replies = match stage {
            Some(stage) => stage.run(heap, steps.as_slice()),
            None => Vec::new(heap),
        };
        let mut replies = replies.into_iter();
        for entry in entries {
            let text = match entry {
                Entry::Said(text) => text,
                Entry::SetUp { id } => setup_text(heap, id, replies.next())?,
                Entry::Awaits { line } => step_text(heap, line, replies.next())?,
            };
            out.write_str(text.as_str())?;
        }
        Ok(())
    }
}

/// The line that answers a set-up.
fn setup_text(heap: Global, id: u16, reply: Option<Reply>) -> Result<String, AllocError> {
    match reply {
        Some(Reply::Room(room)) => format!(in heap; "flow {id} room {room}\n"),
        _ => "error: there is no memory for this flow\n".to_string(heap),
    }
}

/// The lines that answer a step. There is no answer where memory ran out.
fn step_text(heap: Global, line: u64, reply: Option<Reply>) -> Result<String, AllocError> {
    match reply {
        Some(Reply::NoToken) => error_text(heap, line, LineFault::NoToken),
        Some(reply) => reply_text(heap, &reply),
        None => error_text(heap, line, LineFault::NoMemory),
    }
}

/// The line that tells what is wrong with a line of the script.
fn error_text(heap: Global, line: u64, fault: LineFault) -> Result<String, AllocError> {
    format!(in heap; "error: line {line}: {fault}\n")
}
