//! The first word of the command line that is wrong.
ghost use Rattle.std.specs.Prelude.{◌≡◌, None, map, length, IfSome, string_bytes};
ghost use Rattle.person_messages.specs.WordFaults.{AreServed, IsFirstWrong, IsWordFault, MayStandBelow};

use crate::forms::{Command, Place, command_named};

/// Why words are of no form. Words are counted from 0, the command's.
#[derive(Clone, Copy, Debug, PartialEq, Eq)]
pub enum WordFault {
    /// There is no word.
    NoCommand,
    /// The first word names no command.
    UnknownCommand,
    /// This word may not stand where it stands; it stands for that.
    Wrong { at: usize, place: Place },
    /// This word is behind the last one that the command takes.
    TooMany { at: usize },
    /// The words end in front of this place.
    Missing { place: Place },
}

/// The first word behind a command that may not stand where it stands.
fn first_wrong(command: Command, words: &[String]) -> Option<usize>
    ensures none { result ≡ None → MayStandBelow command (map string_bytes words.now) (length words.now) }
    ensures wrong { IfSome result (IsFirstWrong command (map string_bytes words.now)) }
{
    let mut at = 0;
    while at < words.len() {
        if !command.may_stand(at, words[at].as_str()) {
            return Some(at);
        }
        at += 1;
    }
    None
}

/// The first word of the command line that is wrong, or what is missing. There is none where the words are of a form.
pub fn word_fault(words: &[String]) -> Option<WordFault>
    ensures served { result ≡ None → AreServed (map string_bytes words.now) }
    ensures fault { IfSome result (IsWordFault (map string_bytes words.now)) }
{
    let [first, rest @ ..] = words else {
        return Some(WordFault::NoCommand);
    };
    let Some(command) = command_named(first.as_str()) else {
        return Some(WordFault::UnknownCommand);
    };
    if let Some(at) = first_wrong(command, rest) {
        return Some(match command.place_at(at) {
            Some(place) => WordFault::Wrong { at: at + 1, place },
            None => WordFault::TooMany { at: at + 1 },
        });
    }
    if rest.len() >= command.least_words() {
        return None;
    }
    match command.place_at(rest.len()) {
        Some(place) => Some(WordFault::Missing { place }),
        None => None,
    }
}
