//! The forms of the command line: which words stand behind a command, and what each of them may be.
ghost use Rattle.std.specs.Prelude.{◌≡◌};
ghost use Rattle.person_messages.specs.Forms.{command_named, fits, least_words, may_stand, place_at, places_of, range_of, takes_files};

use command_line::{client_named, number_in};

/// What the first word asks for.
#[derive(Clone, Copy, Debug, PartialEq, Eq)]
pub enum Command {
    Replay,
    Run,
    Load,
    Sweep,
    Check,
}

/// What a word stands for.
#[derive(Clone, Copy, Debug, PartialEq, Eq)]
pub enum Place {
    Client,
    Cap,
    Limit,
    Schedule,
    /// The most steps of the seat that stops.
    Steps,
    Threads,
    Calls,
    Seed,
    Report,
    Order,
    /// One of one to eight command files, which stand last.
    File,
}

/// The most command files.
pub const MAX_FILES: usize = 8;

/// The command that a word names.
pub fn command_named(word: &str) -> Option<Command>
    ensures { result ≡ command_named word.now }
{
    match word {
        "replay" => Some(Command::Replay),
        "run" => Some(Command::Run),
        "load" => Some(Command::Load),
        "sweep" => Some(Command::Sweep),
        "check" => Some(Command::Check),
        _ => None,
    }
}

impl Command {
    /// What the words behind the command stand for, in front of command files.
    pub fn places(self) -> &'static [Place]
        ensures { result.now ≡ places_of self }
    {
        match self {
            Command::Replay => &[Place::Client, Place::Cap, Place::Limit, Place::Schedule],
            Command::Run => &[Place::Client, Place::Cap, Place::Limit],
            Command::Load => &[
                Place::Client,
                Place::Cap,
                Place::Limit,
                Place::Threads,
                Place::Calls,
                Place::Seed,
            ],
            Command::Sweep => &[Place::Client, Place::Cap, Place::Limit, Place::Steps],
            Command::Check => &[Place::Client, Place::Report, Place::Order],
        }
    }

    /// Whether one to eight command files follow.
    pub fn takes_files(self) -> bool
        ensures { result ≡ takes_files self }
    {
        matches!(self, Command::Replay | Command::Run | Command::Sweep)
    }

    /// How many words have to stand behind the command.
    pub fn least_words(self) -> usize
        ensures { result ≡ least_words self }
    {
        self.places().len() + usize::from(self.takes_files())
    }

    /// What a word behind the command stands for, where one may stand there. Words are counted from 0.
    pub fn place_at(self, at: usize) -> Option<Place>
        ensures { result ≡ place_at self at }
    {
        let places = self.places();
        if at < places.len() {
            return Some(places[at]);
        }
        if self.takes_files() && at - places.len() < MAX_FILES {
            Some(Place::File)
        } else {
            None
        }
    }

    /// Whether a word may stand so far behind the command.
    pub fn may_stand(self, at: usize, word: &str) -> bool
        ensures { result ≡ may_stand self at word.now }
    {
        match self.place_at(at) {
            Some(place) => fits(place, word),
            None => false,
        }
    }
}

impl Place {
    /// The least and the greatest number that may stand here, where a number has to.
    pub fn range(self) -> Option<(u32, u32)>
        ensures { result ≡ range_of self }
    {
        match self {
            Place::Cap => Some((1, 65_536)),
            Place::Limit | Place::Steps => Some((0, 255)),
            Place::Threads => Some((1, 8)),
            Place::Calls => Some((1, 65_535)),
            Place::Seed => Some((0, u32::MAX)),
            Place::Client | Place::Schedule | Place::Report | Place::Order | Place::File => None,
        }
    }
}

/// Whether a word may stand at a place. Any word may name a file.
pub fn fits(place: Place, word: &str) -> bool
    ensures { result ≡ fits place word.now }
{
    if let Place::Client = place {
        return client_named(word).is_some();
    }
    match place.range() {
        None => true,
        Some((least, most)) => number_in(least, most, word).is_some(),
    }
}
