//! What the arguments ask for.
ghost use Rattle.std.specs.Prelude.{◌≡◌, ℕ, List, IfOk, Some};
ghost use Rattle.console.specs.Commands.{runs, RunsOnly, NamedBy, NamedFirst};

// The texts are found here too, where they have been from the first.
pub use crate::help::{HELP, VERSION};
use crate::nearest::{nearest_first, nearest_switch, nearest_verb};
use crate::verb::{Switch, Verb, Word};
use checksum::choice::ChecksumChoice;
use report::settings::Settings;
use service::choice::ServiceChoice;
use std::fmt;

/// What the arguments ask for.
#[derive(Clone, Copy, PartialEq, Eq, Debug)]
pub enum Command<'a> {
    /// All that the reel holds, superframe by superframe.
    Catalogue {
        reel: &'a str,
        settings: Settings,
        json: bool,
        progress: bool,
    },
    /// Each packet of the reel as a file in a directory, with a manifest.
    Extract {
        reel: &'a str,
        directory: &'a str,
        settings: Settings,
        progress: bool,
    },
    /// A picture of the reel.
    Map {
        reel: &'a str,
        picture: &'a str,
        settings: Settings,
        progress: bool,
    },
    /// Is the reel lawful?
    Verify {
        reel: &'a str,
    },
    /// Every superframe and frame of the reel, with its fragments.
    Frames {
        reel: &'a str,
        progress: bool,
    },
    /// A sync header, from hex digits, in words.
    Header {
        digits: &'a str,
    },
    /// A script, from a file or from standard input.
    Play {
        script: Option<&'a str>,
    },
    /// What the program, or one command of it, can do.
    Help(Option<Verb>),
    /// Which program this is.
    Version,
}

/// What is wrong with the arguments.
#[derive(Clone, Copy, PartialEq, Eq, Debug)]
pub enum CommandFault<'a> {
    Missing,
    UnknownCommand(&'a str),
    UnknownFirst(&'a str),
    UnknownOption { verb: Verb, word: &'a str },
    NotForCommand { verb: Verb, switch: Switch },
    NoValue(Switch),
    BadValue { switch: Switch, word: &'a str },
    Wanting { verb: Verb, what: &'static str },
    TooMany(&'a str),
}

impl fmt::Display for CommandFault<'_> {
    fn fmt<W: fmt::Write>(&self, f: &mut fmt::Formatter<W>) -> fmt::Result {
        match *self {
            CommandFault::Missing => f.write_str("no command is given"),
            CommandFault::UnknownCommand(word) => {
                let nearest = nearest_verb(word).word();
                write!(f, "there is no command {word}; did you mean {nearest}?")
            }
            CommandFault::UnknownFirst(word) => {
                let nearest = nearest_first(word).word();
                write!(
                    f,
                    "there is no option {word} before a command; did you mean {nearest}?"
                )
            }
            CommandFault::UnknownOption { verb, word } => {
                write_not_taken(f, verb, "has no option", word)
            }
            CommandFault::NotForCommand { verb, switch } => {
                write_not_taken(f, verb, "does not take", switch.word())
            }
            CommandFault::NoValue(switch) => {
                let word = switch.word();
                let values = switch.values();
                write!(f, "{word} wants {values}")
            }
            CommandFault::BadValue { switch, word } => {
                let option = switch.word();
                let values = switch.values();
                write!(f, "{option} wants {values}, and not {word}")
            }
            CommandFault::Wanting { verb, what } => {
                let verb = verb.word();
                write!(f, "{verb} wants {what}")
            }
            CommandFault::TooMany(word) => write!(f, "{word} is one word too many"),
        }
    }
}

/// A command has no such option: which one was probably meant.
fn write_not_taken<W: fmt::Write>(
    f: &mut fmt::Formatter<W>,
    verb: Verb,
    refuses: &str,
    word: &str,
) -> fmt::Result {
    let nearest = nearest_switch(verb, word).word();
    let verb = verb.word();
    write!(f, "{verb} {refuses} {word}; did you mean {nearest}?")
}

/// What the words behind a command say.
#[derive(Clone, Copy)]
struct Asked<'a> {
    verb: Verb,
    first: Option<&'a str>,
    second: Option<&'a str>,
    picture: Option<&'a str>,
    settings: Settings,
    json: bool,
    progress: bool,
    help: bool,
    /// An option whose value is still to come.
    open: Option<Switch>,
    /// Whether all words that follow are names, even those that begin with a dash.
    names_only: bool,
}

/// What `--fasb` is to be by this word.
fn on_or_off(word: &str) -> Option<bool> {
    match word {
        "on" => Some(true),
        "off" => Some(false),
        _ => None,
    }
}

/// The option of a command that a word names.
fn switch_for(verb: Verb, word: &str) -> Result<Switch, CommandFault<'_>> {
    match Switch::named(word) {
        Some(switch) if verb.takes(switch) => Ok(switch),
        Some(switch) => Err(CommandFault::NotForCommand { verb, switch }),
        None => Err(CommandFault::UnknownOption { verb, word }),
    }
}

impl<'a> Asked<'a> {
    /// Of a command that no words follow. The settings are then those of the museum's own recordings. A reel of another kind shows by
    /// its packets, which are then damaged or foreign one and all; the opposite choice would pass checksums off as payload.
    fn nothing(verb: Verb) -> Asked<'a>
        ensures { result.verb ≡ verb }
    {
        Asked {
            verb,
            first: None,
            second: None,
            picture: None,
            settings: Settings::default(),
            json: false,
            progress: false,
            help: false,
            open: None,
            names_only: false,
        }
    }

    /// Of a command that these words follow.
    fn read(verb: Verb, words: &'a [String]) -> Result<Asked<'a>, CommandFault<'a>>
        ensures { IfOk result (λ asked. asked.verb ≡ verb) }
    {
        let mut asked = Asked::nothing(verb);
        for word in words {
            asked.add(word.as_str())?;
        }
        match asked.open {
            Some(switch) if !asked.help => Err(CommandFault::NoValue(switch)),
            _ => Ok(asked),
        }
    }

    /// Takes a word more: the value of an option, an option, or a name.
    fn add(&mut self, word: &'a str) -> Result<(), CommandFault<'a>>
        ensures { self.new.verb ≡ self.old.verb }
    {
        if let Some(switch) = self.open.take() {
            return self
                .set(switch, word)
                .ok_or(CommandFault::BadValue { switch, word });
        }
        if !self.names_only && word.starts_with('-') && word != "-" {
            return self.add_option(word);
        }
        self.add_name(word)
    }

    /// Takes a value for an option, unless the word names none.
    fn set(&mut self, switch: Switch, word: &'a str) -> Option<()>
        ensures { self.new.verb ≡ self.old.verb }
    {
        match switch {
            Switch::Fasb => self.settings.fasb = on_or_off(word)?,
            Switch::Checksum => {
                self.settings.checksum = ChecksumChoice::named(word.as_bytes())?;
            }
            Switch::Service => self.settings.service = ServiceChoice::named(word.as_bytes())?,
            Switch::Out => self.picture = Some(word),
            _ => return None,
        }
        Some(())
    }

    /// Takes an option, or the two dashes behind which only names follow.
    fn add_option(&mut self, word: &'a str) -> Result<(), CommandFault<'a>>
        ensures { self.new.verb ≡ self.old.verb }
    {
        if word == "--" {
            self.names_only = true;
            return Ok(());
        }
        match switch_for(self.verb, word)? {
            Switch::Json => self.json = true,
            Switch::Progress => self.progress = true,
            Switch::Help => self.help = true,
            with_value => self.open = Some(with_value),
        }
        Ok(())
    }

    /// Takes a name, unless there are two already.
    fn add_name(&mut self, word: &'a str) -> Result<(), CommandFault<'a>>
        ensures { self.new.verb ≡ self.old.verb }
    {
        if self.first.is_none() {
            self.first = Some(word);
        } else if self.second.is_none() {
            self.second = Some(word);
        } else {
            return Err(CommandFault::TooMany(word));
        }
        Ok(())
    }

    /// The refusal of a command that lacks this.
    fn wanting(self, what: &'static str) -> CommandFault<'a> {
        let verb = self.verb;
        CommandFault::Wanting { verb, what }
    }

    /// The first name, which the command has to have, with none behind it.
    fn one_name(self, what: &'static str) -> Result<&'a str, CommandFault<'a>> {
        match self.second {
            Some(word) => Err(CommandFault::TooMany(word)),
            None => self.first.ok_or(self.wanting(what)),
        }
    }

    /// The reel, where the command has that name alone.
    fn one_reel(self) -> Result<&'a str, CommandFault<'a>> {
        self.one_name("the name of a reel")
    }

    /// `extract`, of what its words say.
    fn extract(self) -> Result<Command<'a>, CommandFault<'a>>
        ensures { IfOk result (λ c. runs c ≡ Some Verb.Extract) }
    {
        let Some((reel, directory)) = self.first.zip(self.second) else {
            return Err(self.wanting("the names of a reel and of a directory"));
        };
        Ok(Command::Extract {
            reel,
            directory,
            settings: self.settings,
            progress: self.progress,
        })
    }

    /// `map`, of what its words say.
    fn map(self) -> Result<Command<'a>, CommandFault<'a>>
        ensures { IfOk result (λ c. runs c ≡ Some Verb.Map) }
    {
        let reel = self.one_reel()?;
        let example = "-o and the name of the picture, as in -o reel.svg";
        let picture = self.picture.ok_or(self.wanting(example))?;
        Ok(Command::Map {
            reel,
            picture,
            settings: self.settings,
            progress: self.progress,
        })
    }

    /// `play`, of what its words say: a dash in place of the script's name is standard input.
    fn play(self) -> Result<Command<'a>, CommandFault<'a>>
        ensures { IfOk result (λ c. runs c ≡ Some Verb.Play) }
    {
        match self.second {
            Some(word) => Err(CommandFault::TooMany(word)),
            None => Ok(Command::Play {
                script: self.first.filter(|name| *name != "-"),
            }),
        }
    }

    /// The command of what its words say.
    fn command(self) -> Result<Command<'a>, CommandFault<'a>>
        ensures { IfOk result (λ c. RunsOnly self.entry.verb (runs c)) }
    {
        let progress = self.progress;
        match self.verb {
            verb if self.help => Ok(Command::Help(Some(verb))),
            Verb::Catalogue => Ok(Command::Catalogue {
                reel: self.one_reel()?,
                settings: self.settings,
                json: self.json,
                progress,
            }),
            Verb::Extract => self.extract(),
            Verb::Map => self.map(),
            Verb::Verify => Ok(Command::Verify {
                reel: self.one_reel()?,
            }),
            Verb::Frames => Ok(Command::Frames {
                reel: self.one_reel()?,
                progress,
            }),
            Verb::Header => Ok(Command::Header {
                digits: self.one_name("the hex digits of a packet")?,
            }),
            Verb::Play => self.play(),
        }
    }
}

/// What `help` and the word behind it ask for.
fn help_on<'a>(rest: &'a [String]) -> Result<Command<'a>, CommandFault<'a>>
    ensures { (word : List ℕ) → IfOk result (λ c. NamedBy word (runs c)) }
{
    match rest {
        [] => Ok(Command::Help(None)),
        [word] => Verb::named(word.as_str())
            .map(|verb| Command::Help(Some(verb)))
            .ok_or(CommandFault::UnknownCommand(word.as_str())),
        [_, second, ..] => Err(CommandFault::TooMany(second.as_str())),
    }
}

/// What the words after the program's name ask for.
pub fn parse(words: &[String]) -> Result<Command<'_>, CommandFault<'_>>
    ensures { IfOk result (λ c. NamedFirst words.now (runs c)) }
{
    let Some((first, rest)) = words.split_first() else {
        return Err(CommandFault::Missing);
    };
    parse_first(first.as_str(), rest)
}

/// What the first word after the program's name and those behind it ask for.
pub fn parse_first<'a>(word: &'a str, rest: &'a [String]) -> Result<Command<'a>, CommandFault<'a>>
    ensures { IfOk result (λ c. NamedBy word.now (runs c)) }
{
    match word {
        "--help" | "-h" | "help" => help_on(rest),
        "--version" => match rest.first() {
            None => Ok(Command::Version),
            Some(word) => Err(CommandFault::TooMany(word.as_str())),
        },
        _ => command_named(word, rest),
    }
}

/// The command that a word names, of what the words behind it say.
fn command_named<'a>(word: &'a str, rest: &'a [String]) -> Result<Command<'a>, CommandFault<'a>>
    ensures { IfOk result (λ c. NamedBy word.now (runs c)) }
{
    match Verb::named(word) {
        Some(verb) => Asked::read(verb, rest)?.command(),
        None if word.starts_with('-') => Err(CommandFault::UnknownFirst(word)),
        None => Err(CommandFault::UnknownCommand(word)),
    }
}
