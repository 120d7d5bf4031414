//! The words that the program knows: its commands and its options.
ghost use Rattle.std.specs.Prelude.{◌≡◌, ℕ, List};
ghost use Rattle.std.specs.List.{find};
ghost use Rattle.std.specs.Str.{bytes_eq};
ghost use Rattle.console.specs.Verbs.{verb_word, switch_word, takes_switch, VerbNamed, SwitchNamed};

/// What has a word on the command line.
pub trait Word: Copy + Drop {
    // The letters of the word.
    ghost spelled: { Self → List ℕ };

    /// The word for it.
    fn word(self) -> &'static str
        ensures { result.now ≡ spelled self };
}

/// The first of these whose word this is.
fn with_word<T: Word>(all: &[T], word: &str) -> Option<T>
    ensures { result ≡ find (λ x. bytes_eq (T.spelled x) word.now) all.now }
{
    all.iter().copied().find(|x| x.word() == word)
}

/// A command.
#[derive(Clone, Copy, PartialEq, Eq, Debug)]
pub enum Verb {
    Catalogue,
    Extract,
    Map,
    Verify,
    Frames,
    Header,
    Play,
}

/// All commands.
pub const VERBS: [Verb; 7] = [
    Verb::Catalogue,
    Verb::Extract,
    Verb::Map,
    Verb::Verify,
    Verb::Frames,
    Verb::Header,
    Verb::Play,
];

/// An option.
#[derive(Clone, Copy, PartialEq, Eq, Debug)]
pub enum Switch {
    Fasb,
    Checksum,
    Service,
    Json,
    Out,
    Progress,
    Help,
    Version,
}

/// All options.
pub const SWITCHES: [Switch; 8] = [
    Switch::Fasb,
    Switch::Checksum,
    Switch::Service,
    Switch::Json,
    Switch::Out,
    Switch::Progress,
    Switch::Help,
    Switch::Version,
];

impl Word for Verb {
    ghost spelled = { verb_word };

    fn word(self) -> &'static str {
        match self {
            Verb::Catalogue => "catalogue",
            Verb::Extract => "extract",
            Verb::Map => "map",
            Verb::Verify => "verify",
            Verb::Frames => "frames",
            Verb::Header => "header",
            Verb::Play => "play",
        }
    }
}

impl Verb {
    /// The command that this word names.
    pub fn named(word: &str) -> Option<Verb>
        ensures { VerbNamed word.now result }
    {
        with_word(&VERBS, word)
    }

    /// Does the command take this option?
    pub fn takes(self, switch: Switch) -> bool
        ensures { result ≡ takes_switch self switch }
    {
        match switch {
            Switch::Fasb | Switch::Checksum | Switch::Service => {
                matches!(self, Verb::Catalogue | Verb::Extract | Verb::Map)
            }
            Switch::Json => matches!(self, Verb::Catalogue),
            Switch::Out => matches!(self, Verb::Map),
            Switch::Progress => !matches!(self, Verb::Header | Verb::Play),
            Switch::Help => true,
            Switch::Version => false,
        }
    }
}

impl Word for Switch {
    ghost spelled = { switch_word };

    fn word(self) -> &'static str {
        match self {
            Switch::Fasb => "--fasb",
            Switch::Checksum => "--checksum",
            Switch::Service => "--service",
            Switch::Json => "--json",
            Switch::Out => "-o",
            Switch::Progress => "--progress",
            Switch::Help => "--help",
            Switch::Version => "--version",
        }
    }
}

impl Switch {
    /// The option that this word names.
    pub fn named(word: &str) -> Option<Switch>
        ensures { SwitchNamed word.now result }
    {
        if word == "-h" {
            return Some(Switch::Help);
        }
        with_word(&SWITCHES, word)
    }

    /// The values that it takes, in words.
    pub fn values(self) -> &'static str {
        match self {
            Switch::Fasb => "on or off",
            Switch::Checksum => "none or crc16",
            Switch::Service => "plain or sync",
            Switch::Out => "the name of a file",
            _ => "nothing",
        }
    }
}
