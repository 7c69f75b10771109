//! How the program is called.
use crate::forms::Place;
use crate::word_faults::WordFault;
use std::alloc::AllocError;
use std::fmt::Write;

/// The commands, their words, and the ranges of these.
pub const USAGE: &str = "\
usage:
  nwf replay CLIENT CAP LIMIT SCHEDULE FILE ..      makes the calls of the files in the order of a schedule
  nwf run CLIENT CAP LIMIT FILE ..                  makes them in threads, one for each file
  nwf sweep CLIENT CAP LIMIT K FILE ..              makes them once for each stop of the first seat, up to K steps
  nwf load CLIENT CAP LIMIT THREADS CALLS SEED      makes generated calls, and writes the summary alone
  nwf check CLIENT REPORT ORDER                     says whether an order shows that a report is linearizable
words:
  CLIENT    queue, list, tree or buckets
  CAP       how many blocks there are, 1 to 65536
  LIMIT     how often a call may fail before others help it, 0 to 255
  SCHEDULE  a file of lines SEAT SPAN, where SPAN is 1 to 16384 steps, `end` or `exchange`
  FILE ..   one to eight command files, one for each seat
  K         0 to 255
  THREADS   1 to 8
  CALLS     calls of each seat, 1 to 65535
  SEED      0 to 4294967295
  REPORT    a file with a report as replay or run writes it
  ORDER     a file of lines SEAT NUMBER, one for each call in its order
commands of a file, one a line, keys K up to 1048575 and values V up to 4294967295:
  queue     put V, take, peek
  list      add K, del K, has K, min
  tree      set K V, rem K, get K
  buckets   add K, del K, has K
Reports and messages go to standard output, this text to standard error. docs/formats.md tells the rest.
";

/// Which program this is.
pub const VERSION: &str = "nwf 0.1, of rattle-kit-13\n";

/// The name of a place in the usage text, and what has to stand there.
fn place_text(place: Place) -> (&'static str, &'static str) {
    match place {
        Place::Client => ("CLIENT", "queue, list, tree or buckets"),
        Place::Cap => ("CAP", "a number from 1 to 65536"),
        Place::Limit => ("LIMIT", "a number from 0 to 255"),
        Place::Schedule => ("SCHEDULE", "the name of a file"),
        Place::Steps => ("K", "a number from 0 to 255"),
        Place::Threads => ("THREADS", "a number from 1 to 8"),
        Place::Calls => ("CALLS", "a number from 1 to 65535"),
        Place::Seed => ("SEED", "a number from 0 to 4294967295"),
        Place::Report => ("REPORT", "the name of a file"),
        Place::Order => ("ORDER", "the name of a file"),
        Place::File => ("FILE", "the name of a command file"),
    }
}

/// The word at a place of the command line.
fn word_at(words: &[String], at: usize) -> &str {
    match words.get(at) {
        Some(word) => word.as_str(),
        None => "",
    }
}

/// Puts a line last that tells which word is wrong.
pub fn push_word_fault(
    text: &mut String,
    words: &[String],
    fault: WordFault,
) -> Result<(), AllocError> {
    match fault {
        WordFault::NoCommand => text.push_str("nwf: there is no command\n"),
        WordFault::UnknownCommand => {
            let word = word_at(words, 0);
            writeln!(text, "nwf: there is no command {word:?}")
        }
        WordFault::Wrong { at, place } => {
            let (name, wanted) = place_text(place);
            let word = word_at(words, at);
            writeln!(text, "nwf: {name} is {wanted}, and not {word:?}")
        }
        WordFault::TooMany { at } => {
            let word = word_at(words, at);
            writeln!(text, "nwf: {word:?} is a word too many")
        }
        WordFault::Missing { place } => {
            let (name, wanted) = place_text(place);
            writeln!(text, "nwf: {name} is missing: {wanted}")
        }
    }
}
