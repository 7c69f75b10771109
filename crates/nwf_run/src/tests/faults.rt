//! Files that can't be read, and sinks that fail.
use super::rows::{AMPLE, ONE, TWO, files_of, replayed};
use std::test::Fail;
use whole_files::SinkInMemory;

#[test]
fn files_that_are_not_read(rt: HostRuntime) -> Result<(), Fail> {
    let alloc = rt.alloc();
    // A call fails: the opening of the schedule, its end, the opening of the first command file, its first
    // byte, the opening of the second.
    for (fails, message) in [
        (0, "nwf: read fault file 0\n"),
        (7, "nwf: read fault file 0\n"),
        (8, "nwf: read fault file 1\n"),
        (9, "nwf: read fault file 1\n"),
        (15, "nwf: read fault file 2\n"),
    ] {
        let mut files = files_of(alloc, "0 end/", "take/|put 7/", &[fails], 1)?;
        let mut sink = SinkInMemory::with_room(alloc, AMPLE, Vec::new(alloc))?;
        assert_eq!(rt; replayed(alloc, TWO, &mut files, &mut sink)?, 4);
        assert_eq!(rt; sink.bytes(), message.as_bytes());
        assert_eq!(rt; files.calls(), fails + 1);
    }
    // A file is missing. What is refused before it is told.
    for (words, status, message) in [
        ("replay queue 8 3 t f0", 4, "nwf: read fault file 0\n"),
        ("replay queue 8 3 s g", 4, "nwf: read fault file 1\n"),
        (
            "replay queue 8 3 s f0 f0 g f1",
            4,
            "nwf: read fault file 3\n",
        ),
        (
            "replay queue 8 3 s f1 g",
            3,
            "nwf: refused file 1 line 1 cause 1\n",
        ),
    ] {
        let mut files = files_of(alloc, "0 end/", "take/|tak/", &[], AMPLE)?;
        let mut sink = SinkInMemory::with_room(alloc, AMPLE, Vec::new(alloc))?;
        assert_eq!(rt; replayed(alloc, words, &mut files, &mut sink)?, status);
        assert_eq!(rt; sink.bytes(), message.as_bytes());
    }
    Ok(())
}

#[test]
fn sinks_that_fail(rt: HostRuntime) -> Result<(), Fail> {
    let alloc = rt.alloc();
    // The sink fails at once, after three bytes, or has no more room; a message that can't be written leaves
    // its status.
    for (commands, room, fails, piece, status, calls, bytes) in [
        ("take/", AMPLE, 0, AMPLE, 5, 1, ""),
        ("take/", AMPLE, 3, 1, 5, 4, "0 1"),
        ("take/", 10, 99, AMPLE, 5, 2, "0 1 take e"),
        ("tak/", AMPLE, 0, AMPLE, 3, 1, ""),
        ("tak/", 10, 99, AMPLE, 3, 2, "nwf: refus"),
    ] {
        let mut files = files_of(alloc, "0 end/", commands, &[], AMPLE)?;
        let fails = Vec::from_slice(alloc, &[fails])?;
        let mut sink = SinkInMemory::in_pieces(alloc, room, fails, piece)?;
        assert_eq!(rt; replayed(alloc, ONE, &mut files, &mut sink)?, status);
        assert_eq!(rt; sink.bytes(), bytes.as_bytes());
        assert_eq!(rt; sink.calls(), calls);
    }
    Ok(())
}
