//! Plays the script on standard input. Its stored run walks through every command and every kind of answer.
#![tactic(auto)]

use play::playing::play;
use std::io::Read;

fn main(rt: HostRuntime) -> anyhow::Result<()> {
    let mut script = Vec::new(rt.alloc());
    rt.stdin().read_to_end(&mut script)?;
    let mut text = String::new(rt.alloc());
    let played = play(rt.alloc(), script.as_slice(), &mut text);
    rt.print(text.as_str())?;
    Ok(played?)
}
