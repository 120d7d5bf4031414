use crate::failure::Failure;
use crate::load;
use crate::output::Output;
use play::playing::{PlayFault, play};
use std::io::Read;

/// All of standard input.
fn load_input(rt: &HostRuntime) -> Result<Vec<u8>, Failure<'static>> {
    let mut bytes = Vec::new(rt.alloc());
    rt.stdin()
        .read_to_end(&mut bytes)
        .map_err(|fault| Failure::NotRead("standard input", fault))?;
    Ok(bytes)
}

/// Plays a script, from a file or from standard input.
pub fn play_script<'a>(rt: &HostRuntime, script: Option<&'a str>) -> Result<(), Failure<'a>> {
    let bytes = match script {
        Some(name) => load(rt, name)?,
        None => load_input(rt)?,
    };
    let answers = "what the script answers";
    let mut output = Output::to(rt.alloc(), rt.stdout());
    let played = play(rt.alloc(), bytes.as_slice(), &mut output);
    output.finish(answers)?;
    match played {
        Ok(()) => Ok(()),
        Err(PlayFault::Output) => Err(output.not_written(answers)),
        Err(PlayFault::Memory) => Err(Failure::NoMemory),
    }
}
