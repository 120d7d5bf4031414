//! The catalogue of the specimen reel as JSON, so that the gate compares it: one program for each form, since the gate keeps one output
//! for each program.
#![tactic(auto)]

use report::catalogue::write_catalogue;
use report::json::JsonCatalogue;
use report::settings::Settings;
use report::source::Source;
use report::visit::Silent;
use std::fs;

fn main(rt: HostRuntime) -> anyhow::Result<()> {
    let name = "specimen.reel";
    let reel = fs::read(&rt, name)?;
    let source = Source {
        name,
        reel: reel.as_slice(),
        settings: Settings::default(),
    };
    let mut text = String::new(rt.alloc());
    write_catalogue(source, &mut JsonCatalogue::to(&mut text), &mut Silent)?;
    rt.print(text.as_str())?;
    Ok(())
}
