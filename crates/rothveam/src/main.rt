//! The museum's program: thin over the libraries.
#![tactic(auto)]

mod extract;
mod failure;
mod output;
mod scripts;

use crate::extract::Extractor;
use crate::failure::Failure;
use crate::output::{Meter, Output};
use crate::scripts::play_script;
use console::command::{Command, parse};
use console::frames::SuperframeReport;
use console::header::HeaderReport;
use console::help::{HELP, VERSION, help_of};
use console::verify::{VerifyReport, examine};
use picture::map::draw;
use reel::blocks::Blocks;
use report::catalogue::write_catalogue;
use report::json::JsonCatalogue;
use report::names::{MANIFEST_HEAD, ManifestEnd};
use report::settings::Settings;
use report::source::Source;
use report::summary::Summary;
use report::text::TextCatalogue;
use report::visit::{Outcome, Progress};
use report::walk::walk;
use std::fmt::Write;
use std::fs::File;
use std::process::ExitCode;
use std::{env, fmt, fs, io};

/// What a file holds.
pub(crate) fn load<'a>(rt: &HostRuntime, name: &'a str) -> Result<Vec<u8>, Failure<'a>> {
    fs::read(rt, name).map_err(|fault| Failure::NotRead(name, fault))
}

/// A reel that was loaded, and how it is to be read.
fn source_of<'a>(name: &'a str, reel: &'a [u8], settings: Settings) -> Source<'a> {
    Source {
        name,
        reel,
        settings,
    }
}

/// An error where the reel has a fault.
fn lawful(outcome: Outcome) -> Result<(), Failure<'static>> {
    match outcome.surveyed.fault {
        None => Ok(()),
        Some(_) => Err(Failure::Unlawful),
    }
}

/// Writes the catalogue of a reel to standard output.
fn catalogue(
    rt: &HostRuntime,
    source: Source<'_>,
    json: bool,
    progress: bool,
) -> Result<(), Failure<'static>> {
    let mut output = Output::to(rt.alloc(), rt.stdout());
    let mut meter = Meter::for_reel(rt, source.reel, progress);
    let written = if json {
        write_catalogue(source, &mut JsonCatalogue::to(&mut output), &mut meter)
    } else {
        write_catalogue(source, &mut TextCatalogue::to(&mut output), &mut meter)
    };
    let outcome = written.map_err(|_| output.not_written("the catalogue"))?;
    output.finish("the catalogue")?;
    meter.finish()?;
    lawful(outcome)
}

/// Makes the directory of an extraction, and its manifest, which must not be there yet.
fn new_manifest<'a>(rt: &HostRuntime, directory: &'a str) -> Result<File, Failure<'a>> {
    fs::create_dir_all(rt, directory).map_err(|fault| Failure::NotMade(directory, fault))?;
    let path = format!(in rt.alloc(); "{directory}/manifest.tsv")?;
    File::create_new(rt, path.as_str()).map_err(|fault| Failure::NoManifest(directory, fault))
}

/// Writes each packet of a reel into a file, and the manifest.
fn extract_packets<'a>(
    rt: &HostRuntime,
    source: Source<'_>,
    directory: &'a str,
    progress: bool,
) -> Result<(), Failure<'a>> {
    let mut manifest = Output::to(rt.alloc(), new_manifest(rt, directory)?);
    let begun = manifest.write_str(MANIFEST_HEAD);
    let mut extractor = Extractor {
        rt,
        directory,
        manifest: &mut manifest,
        order: 0,
        superframe: 0,
    };
    let mut meter = Meter::for_reel(rt, source.reel, progress);
    let walked = walk(source.reel, source.settings, &mut extractor, &mut meter);
    let outcome = walked.map_err(|_| manifest.not_written("the extraction").told(rt))?;
    begun
        .and_then(|()| end_manifest(&mut manifest, outcome))
        .map_err(|_| manifest.not_written("the manifest").told(rt))?;
    meter.finish()?;
    println!(rt; "{}", Summary(outcome))?;
    lawful(outcome)
}

/// Writes the last lines of a manifest.
fn end_manifest(manifest: &mut Output<File>, outcome: Outcome) -> fmt::Result {
    manifest.write(ManifestEnd(outcome))?;
    manifest.flush()
}

/// Draws a reel into a file.
fn map<'a>(
    rt: &HostRuntime,
    source: Source<'_>,
    picture: &'a str,
    progress: bool,
) -> Result<(), Failure<'a>> {
    let file = fs::create(rt, picture).map_err(|fault| Failure::NotWritten(picture, Some(fault)))?;
    let mut output = Output::to(rt.alloc(), file);
    let mut meter = Meter::for_reel(rt, source.reel, progress);
    let outcome = draw(source, &mut output, &mut meter).map_err(|_| output
        .not_written(picture)
        .told(rt))?;
    output.finish(picture).map_err(|failure| failure.told(rt))?;
    meter.finish()?;
    println!(rt; "{}", Summary(outcome))?;
    lawful(outcome)
}

/// Says whether a reel is lawful, and how much it holds.
fn verify(rt: &HostRuntime, name: &str, reel: &[u8]) -> Result<(), Failure<'static>> {
    let findings = examine(reel);
    let size = reel.len();
    let report = VerifyReport {
        name,
        size,
        findings,
    };
    rt.print(report)?;
    findings.map(|_| ()).map_err(|_| Failure::Unlawful)
}

/// Shows every superframe and frame of a reel, and then what `verify` says.
fn frames(
    rt: &HostRuntime,
    name: &str,
    reel: &[u8],
    progress: bool,
) -> Result<(), Failure<'static>> {
    let mut output = Output::to(rt.alloc(), rt.stdout());
    let mut meter = Meter::for_reel(rt, reel, progress);
    for (number, block) in (1..).zip(Blocks::of(reel).map_while(Result::ok)) {
        meter.passed(block.at);
        let report = SuperframeReport { number, block };
        writeln!(output, "{report}").map_err(|_| output.not_written("the list of frames"))?;
    }
    output.finish("the list of frames")?;
    meter.finish()?;
    verify(rt, name, reel)
}

/// Does what the words ask for. A reel is loaded in the arm of each command that reads one: a `Source` only borrows the bytes. The
/// borrow check does not cover one function for that, with a closure that takes the source and hands on a failure, which holds words.
fn run<'a>(rt: &HostRuntime, words: &'a [String]) -> Result<(), Failure<'a>> {
    match parse(words).map_err(Failure::Arguments)? {
        Command::Catalogue {
            reel,
            settings,
            json,
            progress,
        } => {
            let bytes = load(rt, reel)?;
            catalogue(rt, source_of(reel, &bytes, settings), json, progress)?;
        }
        Command::Extract {
            reel,
            directory,
            settings,
            progress,
        } => {
            let bytes = load(rt, reel)?;
            extract_packets(rt, source_of(reel, &bytes, settings), directory, progress)?;
        }
        Command::Map {
            reel,
            picture,
            settings,
            progress,
        } => {
            let bytes = load(rt, reel)?;
            map(rt, source_of(reel, &bytes, settings), picture, progress)?;
        }
        Command::Verify { reel } => verify(rt, reel, &load(rt, reel)?)?,
        Command::Frames { reel, progress } => frames(rt, reel, &load(rt, reel)?, progress)?,
        Command::Header { digits } => rt.print(HeaderReport { digits })?,
        Command::Help(Some(verb)) => rt.print(help_of(verb))?,
        Command::Help(None) => rt.print(HELP)?,
        Command::Version => rt.print(VERSION)?,
        Command::Play { script } => play_script(rt, script)?,
    }
    Ok(())
}

/// The words behind the program's name.
fn arguments(rt: &HostRuntime) -> io::Result<Vec<String>> {
    Ok(env::args(rt)?.skip(1).collect(rt.alloc())?)
}

fn main(rt: HostRuntime) -> ExitCode {
    let Ok(words) = arguments(&rt) else {
        return ExitCode::FAILURE;
    };
    match run(&rt, words.as_slice()) {
        Ok(()) => ExitCode::SUCCESS,
        Err(failure) => {
            failure.tell(&rt);
            ExitCode::FAILURE
        }
    }
}
