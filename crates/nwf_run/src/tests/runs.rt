//! Runs of files in memory with threads, and words and files that have none. Where there is more than one file
//! with commands, nothing is compared that depends on the order of their calls.
use super::rows::{AMPLE, bytes_of, files_of, words_of};
use crate::program::nwf_main;
use crate::run::run_main;
use std::alloc::{AllocError, Global};
use std::sync::Wait;
use std::test::Fail;
use std::thread::Threads;
use thread_runs::{Gate, NoGate};
use whole_files::{FilesInMemory, SinkInMemory};

/// The words of a command line, the command files, the status, and what is written.
type Row = (&'static str, &'static str, u8, &'static str);

/// The status of a call over ample memory.
pub fn ran<R: Threads + Wait + Sync, G: Gate + Sync>(
    rt: &R,
    alloc: Global,
    words: &str,
    files: &mut FilesInMemory,
    sink: &mut SinkInMemory,
    gate: &G,
) -> Result<u8, AllocError> {
    let words = words_of(alloc, words)?;
    Ok(run_main(rt, alloc, &words, files, sink, gate))
}

const ROWS: [Row; 14] = [
    (
        "run queue 8 3 f0",
        "put 7/take/",
        0,
        "0 1 put 7 done 0 1 fast/0 2 take value 7 2 3 fast/calls 2 fast 2 slow 0 exhausted 0 pending 0/",
    ),
    (
        "run list 8 3 f0",
        "add 0/add 1048575/has 0/del 0/del 0/",
        0,
        "0 1 add 0 yes 0 1 fast/0 2 add 1048575 yes 2 3 fast/0 3 has 0 yes 4 5 fast/0 4 del 0 yes 6 7 fast/0 5 del 0 no 8 9 fast/calls 5 fast 5 slow 0 exhausted 0 pending 0/",
    ),
    (
        "run queue 1 255 f0",
        "put 1/put 2/take/",
        7,
        "0 1 put 1 done 0 1 fast/0 2 put 2 exhausted 2 3 fast/0 3 take value 1 4 5 fast/calls 3 fast 3 slow 0 exhausted 1 pending 0/",
    ),
    (
        "run tree 8 3 f0",
        "get 5/set 5 70/set 5 71/get 5/rem 5/rem 5/",
        0,
        "0 1 get 5 absent 0 1 fast/0 2 set 5 70 yes 2 3 fast/0 3 set 5 71 no 4 5 fast/0 4 get 5 value 70 6 7 fast/0 5 rem 5 yes 8 9 fast/0 6 rem 5 no 10 11 fast/calls 6 fast 6 slow 0 exhausted 0 pending 0/",
    ),
    (
        "run buckets 1 3 f0",
        "add 0/has 32/del 0/add 32/",
        7,
        "0 1 add 0 yes 0 1 fast/0 2 has 32 no 2 3 fast/0 3 del 0 yes 4 5 fast/0 4 add 32 exhausted 6 7 fast/calls 4 fast 4 slow 0 exhausted 1 pending 0/",
    ),
    // Files without commands, beside one with them and alone.
    (
        "run queue 8 3 f0 f1",
        "|take/",
        0,
        "1 1 take empty 0 1 fast/calls 1 fast 1 slow 0 exhausted 0 pending 0/",
    ),
    (
        "run list 65536 1 f0 f1 f2 f3 f4 f5 f6 f7",
        "||||  //|||",
        0,
        "calls 0 fast 0 slow 0 exhausted 0 pending 0/",
    ),
    (
        "run queue 008 03 f0",
        "",
        0,
        "calls 0 fast 0 slow 0 exhausted 0 pending 0/",
    ),
    // The first file is file 1.
    (
        "run queue 8 3 f0 f0",
        "tak/",
        3,
        "nwf: refused file 1 line 1 cause 1/",
    ),
    (
        "run list 8 3 f0 f1 g",
        "add 1/|add 1//add -1/",
        3,
        "nwf: refused file 2 line 3 cause 2/",
    ),
    ("run queue 8 3 g", "take/", 4, "nwf: read fault file 1/"),
    (
        "run queue 8 3 f0 f0 g f1",
        "take/|tak/",
        4,
        "nwf: read fault file 3/",
    ),
    ("replay queue 8 3 s f0", "take/", 2, "nwf: usage/"),
    ("run queue 8 3", "take/", 2, "nwf: usage/"),
];

#[test]
fn rows_of_runs(rt: HostRuntime) -> Result<(), Fail> {
    let alloc = rt.alloc();
    for (words, commands, status, text) in ROWS {
        let wanted = bytes_of(alloc, text)?;
        for piece in [usize::MAX, 1] {
            let mut files = files_of(alloc, "0 end/", commands, &[], piece)?;
            let mut sink = SinkInMemory::in_pieces(alloc, AMPLE, Vec::new(alloc), piece.max(1))?;
            let got = ran(&rt, alloc, words, &mut files, &mut sink, &NoGate)?;
            assert_eq!(rt; sink.bytes(), wanted.as_slice(), "{words}");
            assert_eq!(rt; got, status, "{words}");
        }
    }
    Ok(())
}

#[test]
fn words_that_are_no_run(rt: HostRuntime) -> Result<(), Fail> {
    let alloc = rt.alloc();
    for words in [
        "",
        "run",
        "run queue",
        "run queue 8 3",
        "run stack 8 3 f0",
        "run queue 0 3 f0",
        "run queue 65537 3 f0",
        "run queue 8 256 f0",
        "run queue eight 3 f0",
        "run queue 8 3x f0",
        "run queue  3 f0",
        "run queue 8 3 f0 f0 f0 f0 f0 f0 f0 f0 f0",
        "load queue 8 3 1 1 0",
        "replay queue 8 3 f0 f0",
    ] {
        let mut files = files_of(alloc, "", "take/", &[], AMPLE)?;
        let mut sink = SinkInMemory::with_room(alloc, AMPLE, Vec::new(alloc))?;
        let got = ran(&rt, alloc, words, &mut files, &mut sink, &NoGate)?;
        assert_eq!(rt; got, 2, "{words}");
        assert_eq!(rt; sink.bytes(), b"nwf: usage\n".as_slice());
        assert_eq!(rt; files.calls(), 0);
    }
    Ok(())
}

#[test]
fn faults_of_runs(rt: HostRuntime) -> Result<(), Fail> {
    let alloc = rt.alloc();
    // The opening of the first file fails, its end, the opening of the second.
    for (fails, message) in [
        (0, "nwf: read fault file 1\n"),
        (6, "nwf: read fault file 1\n"),
        (7, "nwf: read fault file 2\n"),
    ] {
        let mut files = files_of(alloc, "", "take/|put 7/", &[fails], 1)?;
        let mut sink = SinkInMemory::with_room(alloc, AMPLE, Vec::new(alloc))?;
        let got = ran(
            &rt,
            alloc,
            "run queue 8 3 f0 f1",
            &mut files,
            &mut sink,
            &NoGate,
        )?;
        assert_eq!(rt; got, 4);
        assert_eq!(rt; sink.bytes(), message.as_bytes());
        assert_eq!(rt; files.calls(), fails + 1);
    }
    // The sink fails at once, or has no more room.
    for (room, fails, bytes) in [(AMPLE, 0, ""), (10, 99, "0 1 take e")] {
        let mut files = files_of(alloc, "", "take/", &[], AMPLE)?;
        let fails = Vec::from_slice(alloc, &[fails])?;
        let mut sink = SinkInMemory::in_pieces(alloc, room, fails, AMPLE)?;
        let got = ran(
            &rt,
            alloc,
            "run queue 8 3 f0",
            &mut files,
            &mut sink,
            &NoGate,
        )?;
        assert_eq!(rt; got, 5);
        assert_eq!(rt; sink.bytes(), bytes.as_bytes());
    }
    Ok(())
}

#[test]
fn the_first_word_decides(rt: HostRuntime) -> Result<(), Fail> {
    let alloc = rt.alloc();
    for (words, status, text) in [
        (
            "run queue 8 3 f0",
            0,
            "0 1 take empty 0 1 fast/calls 1 fast 1 slow 0 exhausted 0 pending 0/",
        ),
        (
            "replay queue 8 3 s f0",
            0,
            "0 1 take empty 0 1 fast/calls 1 fast 1 slow 0 exhausted 0 pending 0 overtaken 0/",
        ),
        ("run queue 8 3 s", 3, "nwf: refused file 1 line 1 cause 1/"),
        (
            "replay queue 8 3 f0 s",
            3,
            "nwf: refused file 0 line 1 cause 1/",
        ),
        ("runs queue 8 3 f0", 2, "nwf: usage/"),
        ("", 2, "nwf: usage/"),
    ] {
        let wanted = bytes_of(alloc, text)?;
        let mut files = files_of(alloc, "0 end/", "take/", &[], AMPLE)?;
        let mut sink = SinkInMemory::with_room(alloc, AMPLE, Vec::new(alloc))?;
        let line = words_of(alloc, words)?;
        let got = nwf_main(&rt, alloc, &line, &mut files, &mut sink, &NoGate);
        assert_eq!(rt; sink.bytes(), wanted.as_slice(), "{words}");
        assert_eq!(rt; got, status, "{words}");
    }
    Ok(())
}
