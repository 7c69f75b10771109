//! Texts for a person, as one would want to read them.

use super::*;
use crate::usage::{USAGE, VERSION};
use std::alloc::{AllocError, Global};
use std::test::Fail;

/// The words of a command line.
fn words_of(alloc: Global, line: &str) -> Result<Vec<String>, AllocError> {
    let mut words = Vec::new(alloc);
    for word in line.split(' ') {
        if !word.is_empty() {
            words.push(String::from_str(alloc, word)?)?;
        }
    }
    Ok(words)
}

/// Command lines of no form, and what is told of each.
const WRONG_WORDS: [(&str, &str); 15] = [
    ("", "nwf: there is no command\n"),
    (
        "repaly queue 8 3 s f",
        "nwf: there is no command \"repaly\"\n",
    ),
    (
        "replay stack 8 3 s f",
        "nwf: CLIENT is queue, list, tree or buckets, and not \"stack\"\n",
    ),
    (
        "replay queue 0 300 s f",
        "nwf: CAP is a number from 1 to 65536, and not \"0\"\n",
    ),
    (
        "run tree 65537 3 f",
        "nwf: CAP is a number from 1 to 65536, and not \"65537\"\n",
    ),
    (
        "sweep list 8 256 9 f",
        "nwf: LIMIT is a number from 0 to 255, and not \"256\"\n",
    ),
    (
        "sweep list 8 255 f f",
        "nwf: K is a number from 0 to 255, and not \"f\"\n",
    ),
    (
        "load list 8 3 9 1 1",
        "nwf: THREADS is a number from 1 to 8, and not \"9\"\n",
    ),
    (
        "load list 8 3 8 0 1",
        "nwf: CALLS is a number from 1 to 65535, and not \"0\"\n",
    ),
    (
        "load list 8 3 8 1 4294967296",
        "nwf: SEED is a number from 0 to 4294967295, and not \"4294967296\"\n",
    ),
    ("load list 8 3 8 1 1 x", "nwf: \"x\" is a word too many\n"),
    (
        "run queue 8 3 1 2 3 4 5 6 7 8 9",
        "nwf: \"9\" is a word too many\n",
    ),
    (
        "replay queue 8 3 s",
        "nwf: FILE is missing: the name of a command file\n",
    ),
    (
        "replay queue 8 3",
        "nwf: SCHEDULE is missing: the name of a file\n",
    ),
    (
        "check queue r",
        "nwf: ORDER is missing: the name of a file\n",
    ),
];

#[test]
fn the_first_wrong_word_is_told(rt: HostRuntime) -> Result<(), Fail> {
    for (line, told) in WRONG_WORDS {
        let words = words_of(rt.alloc(), line)?;
        let ending = Ending {
            status: 2,
            words: &words,
            written: b"nwf: usage\n",
            read: b"",
        };
        let text = explain(rt.alloc(), &ending, Trouble::Unknown)?;
        let wanted = format!(in rt.alloc(); "{told}{USAGE}")?;
        assert_eq!(rt; text.as_str(), wanted.as_str(), "{line}");
    }
    Ok(())
}

#[test]
fn words_of_a_form_have_no_fault(rt: HostRuntime) -> Result<(), Fail> {
    for line in [
        "replay queue 65536 255 s f",
        "replay tree 1 0 s 1 2 3 4 5 6 7 8",
        "run buckets 0008 3 f",
        "sweep list 8 3 255 f g",
        "load queue 8 3 8 65535 4294967295",
        "check list r o",
    ] {
        let words = words_of(rt.alloc(), line)?;
        assert_eq!(rt; word_fault(&words), None, "{line}");
    }
    Ok(())
}

#[test]
fn help_and_version_are_told(rt: HostRuntime) -> Result<(), Fail> {
    for (line, told) in [("--help", USAGE), ("--version", VERSION)] {
        let words = words_of(rt.alloc(), line)?;
        let ending = Ending {
            status: 2,
            words: &words,
            written: b"nwf: usage\n",
            read: b"",
        };
        let text = explain(rt.alloc(), &ending, Trouble::Unknown)?;
        assert_eq!(rt; text.as_str(), told);
    }
    Ok(())
}

/// Command lines with a refusal, its message and the bytes of the file, and what is told.
const REFUSALS: [(&str, &str, &str, &str); 7] = [
    (
        "replay queue 8 3 s f",
        "nwf: refused file 1 line 2 cause 1\n",
        "put 7\ntake 7\n",
        "nwf: \"f\", line 2: the line is no command of a queue: these are put V, take and peek\n  the line is 'take 7'\n",
    ),
    (
        "replay tree 8 3 s f g",
        "nwf: refused file 2 line 1 cause 2\n",
        "get 1\r\nget 2\r\n",
        "nwf: \"g\", line 1: a number isn't made of digits alone or is out of range: a key K is at most 1048575, a value V at most 4294967295\n  the line is 'get 1\\r'\n  the line ends with a carriage return (CRLF line ends): lines end with a newline byte alone\n",
    ),
    (
        "run list 8 3 e f",
        "nwf: refused file 2 line 1 cause 1\n",
        "\u{feff}add 1\n",
        "nwf: \"f\", line 1: the line is no command of a list: these are add K, del K, has K and min\n  the line is '\\xef\\xbb\\xbfadd 1'\n  the file begins with a byte-order mark: save it as plain ASCII, without a mark\n",
    ),
    (
        "sweep buckets 8 3 9 f",
        "nwf: refused file 1 line 1 cause 1\n",
        "add\t1\n",
        "nwf: \"f\", line 1: the line is no command of buckets: these are add K, del K and has K\n  the line is 'add\\t1'\n  a tab stands on the line: words are separated by spaces alone\n",
    ),
    (
        "replay queue 8 3 s f",
        "nwf: refused file 0 line 1 cause 6\n",
        "1 end",
        "nwf: \"s\", line 1: the seat has no command file: the first file is that of seat 0\n  the line is '1 end'\n",
    ),
    (
        "replay queue 8 3 s f",
        "nwf: refused file 1 line 0 cause 5\n",
        "\n\n",
        "nwf: \"f\": the file is too long: it may have 1048576 bytes\n",
    ),
    (
        "check queue r o",
        "nwf: refused file 0 line 3 cause 7\n",
        "",
        "nwf: \"r\", line 3: the line isn't one that a report of this client may have here\n",
    ),
];

#[test]
fn a_refusal_names_file_line_and_meaning(rt: HostRuntime) -> Result<(), Fail> {
    for (line, written, read, told) in REFUSALS {
        let words = words_of(rt.alloc(), line)?;
        let ending = Ending {
            status: 3,
            words: &words,
            written: written.as_bytes(),
            read: read.as_bytes(),
        };
        let text = explain(rt.alloc(), &ending, Trouble::Unknown)?;
        assert_eq!(rt; text.as_str(), told, "{line}");
    }
    Ok(())
}

#[test]
fn faults_are_told_and_reports_are_left_alone(rt: HostRuntime) -> Result<(), Fail> {
    let missing = "nwf: \"none\": there is no such file\n";
    let unsure = "nwf: a file isn't accepted, or couldn't be read\n";
    let stuck =
        "nwf: standard output took no more bytes: the disk may be full, or its reader has stopped\n";
    for (status, written, trouble, told) in [
        (4, "nwf: read fault file 2\n", Trouble::Missing, missing),
        (4, "nwf: read", Trouble::Missing, unsure),
        (5, "0 1 put", Trouble::Unknown, stuck),
        (0, "0 1 put 7 done 0 1 fast\n", Trouble::Unknown, ""),
        (6, "nwf: no memory\n", Trouble::Unknown, ""),
        (7, "", Trouble::Unknown, ""),
    ] {
        let words = words_of(rt.alloc(), "run queue 8 3 f none")?;
        let ending = Ending {
            status,
            words: &words,
            written: written.as_bytes(),
            read: b"put 1\n",
        };
        let text = explain(rt.alloc(), &ending, trouble)?;
        assert_eq!(rt; text.as_str(), told);
    }
    Ok(())
}
