ghost use Rattle.std.specs.Prelude.{◌≡◌, length};

use crate::settings::Settings;

/// A reel under its name, and how it is to be read.
#[derive(Clone, Copy, PartialEq, Eq, Debug)]
pub struct Source<'a> {
    pub name: &'a str,
    pub reel: &'a [u8],
    pub settings: Settings,
}

/// What the first lines of a catalogue tell: a reel's name and size, and how it is read. Who has no more of a reel can write them too.
#[derive(Clone, Copy, PartialEq, Eq, Debug)]
pub struct Heading<'a> {
    pub name: &'a str,
    pub size: usize,
    pub settings: Settings,
}

impl<'a> From<Source<'a>> for Heading<'a> {
    ghost from_gives = { λ source h. (h.name ≡ source.name) × (h.size ≡ length source.reel.now) × (h.settings ≡ source.settings) };

    fn from(source: Source<'a>) -> Heading<'a> {
        Heading {
            name: source.name,
            size: source.reel.len(),
            settings: source.settings,
        }
    }
}
