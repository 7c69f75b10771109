//! Checks of files and sinks in memory. Texts write `/` for a newline.
use crate::checks::check_main;
use std::alloc::{AllocError, Global};
use std::test::Fail;
use whole_files::{FilesInMemory, SinkInMemory};

/// Ample room of a sink, and ample bytes of a piece.
const AMPLE: usize = 2000;

const QUEUE: &str = "check queue report order";

/// A put that a taker overlaps, and a take behind both.
const WHOLE: &str =
    "0 1 put 7 done 0 3 slow/1 1 take value 7 1 2 slow/1 2 take empty 4 5 slow/calls 3 fast 0 slow 3 exhausted 0 pending 0 overtaken 0/";

/// A put that is pending, and the take of its value.
const WAITING: &str =
    "0 1 put 7 pending 0 - slow/1 1 take value 7 1 2 slow/calls 2 fast 0 slow 2 exhausted 0 pending 1 overtaken 0/";

/// A put that found no block.
const EXHAUSTED: &str =
    "0 1 put 7 done 0 1 fast/0 2 put 8 exhausted 2 3 fast/calls 2 fast 2 slow 0 exhausted 1 pending 0/";

/// The words of a command line, each two of them with one space between.
fn words_of(alloc: Global, line: &str) -> Result<Vec<String>, AllocError> {
    let mut words = Vec::new(alloc);
    for word in line.split(' ') {
        words.push(String::from_str(alloc, word)?)?;
    }
    Ok(words)
}

/// The bytes of a text of a row.
fn bytes_of(alloc: Global, text: &str) -> Result<Vec<u8>, AllocError> {
    let mut bytes = Vec::new(alloc);
    for byte in text.bytes() {
        bytes.push(if byte == b'/' { b'\n' } else { byte })?;
    }
    Ok(bytes)
}

/// The files `report` and `order`, of which these calls fail.
fn files_of(
    alloc: Global,
    report: &str,
    order: &str,
    fails: &[u64],
    piece: usize,
) -> Result<FilesInMemory, AllocError> {
    let mut files = Vec::new(alloc);
    for (name, text) in [("report", report), ("order", order)] {
        files.push((String::from_str(alloc, name)?, bytes_of(alloc, text)?))?;
    }
    Ok(FilesInMemory::in_pieces(files, Vec::from_slice(alloc, fails)?, piece.max(1)))
}

/// The status of a call over ample memory.
fn checked(
    alloc: Global,
    words: &str,
    files: &mut FilesInMemory,
    sink: &mut SinkInMemory,
) -> Result<u8, AllocError> {
    let words = words_of(alloc, words)?;
    Ok(check_main(alloc, &words, files, sink))
}

/// A key that is added to a list, and told as its least.
const LEAST: &str =
    "0 1 add 9 yes 0 1 fast/0 2 min value 9 2 3 fast/calls 2 fast 2 slow 0 exhausted 0 pending 0/";

/// The words of a command line, the report, the order, the status, and what is written.
type Row = (&'static str, &'static str, &'static str, u8, &'static str);

const ROWS: [Row; 24] = [
    (QUEUE, WHOLE, "0 1/1 1/1 2/", 0, "legal/"),
    (
        QUEUE,
        WHOLE,
        "1 2/0 1/1 1/",
        8,
        "not legal place 2 reason 3/",
    ),
    (QUEUE, WAITING, "1 1/", 8, "not legal place 1 reason 4/"),
    (QUEUE, WAITING, "0 1/1 1/", 0, "legal/"),
    (QUEUE, WHOLE, "0 1/1 1/", 8, "not legal place 3 reason 5/"),
    (QUEUE, WHOLE, "0 1/0 1/", 8, "not legal place 2 reason 2/"),
    (QUEUE, WHOLE, "0 1/0 2/", 8, "not legal place 2 reason 1/"),
    (QUEUE, EXHAUSTED, "0 1/", 0, "legal/"),
    (
        QUEUE,
        EXHAUSTED,
        "0 1/0 2/",
        8,
        "not legal place 2 reason 1/",
    ),
    ("check list report order", LEAST, "0 1/0 2/", 0, "legal/"),
    (
        "check buckets report order",
        LEAST,
        "",
        3,
        "nwf: refused file 0 line 2 cause 7/",
    ),
    (
        QUEUE,
        "0 1 put 7 done 0 0 slow/",
        "x",
        3,
        "nwf: refused file 0 line 1 cause 7/",
    ),
    (QUEUE, "", "", 3, "nwf: refused file 0 line 1 cause 7/"),
    (
        QUEUE,
        WHOLE,
        "0 1/1/",
        3,
        "nwf: refused file 1 line 2 cause 1/",
    ),
    (
        QUEUE,
        WHOLE,
        "0 1/1 0/",
        3,
        "nwf: refused file 1 line 2 cause 2/",
    ),
    (
        QUEUE,
        WHOLE,
        "8 1/",
        3,
        "nwf: refused file 1 line 1 cause 6/",
    ),
    (
        "check queue other order",
        WHOLE,
        "",
        4,
        "nwf: read fault file 0/",
    ),
    (
        "check queue report other",
        WHOLE,
        "",
        4,
        "nwf: read fault file 1/",
    ),
    (
        "check queue other other",
        "",
        "",
        4,
        "nwf: read fault file 0/",
    ),
    (
        "check queue report other",
        "",
        "",
        3,
        "nwf: refused file 0 line 1 cause 7/",
    ),
    ("check stack report order", WHOLE, "", 2, "nwf: usage/"),
    ("check queue report", WHOLE, "", 2, "nwf: usage/"),
    (
        "check queue report order order",
        WHOLE,
        "",
        2,
        "nwf: usage/",
    ),
    ("checks queue report order", WHOLE, "", 2, "nwf: usage/"),
];

#[test]
fn verdicts_and_refusals(rt: HostRuntime) -> Result<(), Fail> {
    let alloc = rt.alloc();
    for (words, report, order, status, text) in ROWS {
        let wanted = bytes_of(alloc, text)?;
        for piece in [AMPLE, 1] {
            let mut files = files_of(alloc, report, order, &[], piece)?;
            let mut sink = SinkInMemory::in_pieces(alloc, AMPLE, Vec::new(alloc), piece.max(1))?;
            let got = checked(alloc, words, &mut files, &mut sink)?;
            assert_eq!(rt; sink.bytes(), wanted.as_slice(), "{words} {order}");
            assert_eq!(rt; got, status, "{words} {order}");
        }
    }
    Ok(())
}

#[test]
fn an_order_that_is_too_long(rt: HostRuntime) -> Result<(), Fail> {
    let alloc = rt.alloc();
    for (length, status, text) in [
        (4_194_304, 3, "nwf: refused file 1 line 1 cause 3\n"),
        (4_194_305, 3, "nwf: refused file 1 line 0 cause 5\n"),
    ] {
        let mut files = Vec::new(alloc);
        files.push((String::from_str(alloc, "report")?, bytes_of(alloc, WHOLE)?))?;
        files.push((
            String::from_str(alloc, "order")?,
            vec![in alloc; b' '; length]?,
        ))?;
        let mut files = FilesInMemory::new(files, Vec::new(alloc));
        let mut sink = SinkInMemory::with_room(alloc, AMPLE, Vec::new(alloc))?;
        assert_eq!(rt; checked(alloc, QUEUE, &mut files, &mut sink)?, status);
        assert_eq!(rt; sink.bytes(), text.as_bytes());
    }
    Ok(())
}

#[test]
fn files_and_sinks_that_fail(rt: HostRuntime) -> Result<(), Fail> {
    let alloc = rt.alloc();
    // A call fails: the opening of the report, its first bytes, its end, the opening of the order, its end.
    for (fails, message) in [
        (0, "nwf: read fault file 0\n"),
        (1, "nwf: read fault file 0\n"),
        (2, "nwf: read fault file 0\n"),
        (3, "nwf: read fault file 1\n"),
        (5, "nwf: read fault file 1\n"),
    ] {
        let mut files = files_of(alloc, WHOLE, "0 1/", &[fails], AMPLE)?;
        let mut sink = SinkInMemory::with_room(alloc, AMPLE, Vec::new(alloc))?;
        assert_eq!(rt; checked(alloc, QUEUE, &mut files, &mut sink)?, 4);
        assert_eq!(rt; sink.bytes(), message.as_bytes());
        assert_eq!(rt; files.calls(), fails + 1);
    }
    // The sink fails at once, after three bytes, or has no more room; a message that can't be written leaves its status.
    for (order, room, fails, piece, status, calls, bytes) in [
        ("0 1/1 1/1 2/", AMPLE, 0, AMPLE, 5, 1, ""),
        ("0 1/1 1/1 2/", AMPLE, 3, 1, 5, 4, "leg"),
        ("0 1/", 10, 99, AMPLE, 5, 2, "not legal "),
        ("0/", AMPLE, 0, AMPLE, 3, 1, ""),
    ] {
        let mut files = files_of(alloc, WHOLE, order, &[], AMPLE)?;
        let fails = Vec::from_slice(alloc, &[fails])?;
        let mut sink = SinkInMemory::in_pieces(alloc, room, fails, piece)?;
        assert_eq!(rt; checked(alloc, QUEUE, &mut files, &mut sink)?, status);
        assert_eq!(rt; sink.bytes(), bytes.as_bytes());
        assert_eq!(rt; sink.calls(), calls);
    }
    Ok(())
}
