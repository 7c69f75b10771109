//! Words that are not served, and files that are refused.
use super::rows::{AMPLE, ONE, ONE_LIST, Row, TWO, compare, files_of, replayed};
use std::alloc::{AllocError, Global};
use std::test::Fail;
use whole_files::{FilesInMemory, SinkInMemory};

/// Files that are refused: the first one at fault, its line and the cause.
const REFUSED: [Row; 19] = [
    (
        ONE,
        "0 end/",
        "add 5/",
        3,
        "nwf: refused file 1 line 1 cause 1/",
    ),
    (
        ONE,
        "0 end/",
        "min/",
        3,
        "nwf: refused file 1 line 1 cause 1/",
    ),
    (
        ONE,
        "0 end/",
        "put 7/ta",
        3,
        "nwf: refused file 1 line 2 cause 1/",
    ),
    (
        ONE,
        "0 end/",
        "put 7//put -1/",
        3,
        "nwf: refused file 1 line 3 cause 2/",
    ),
    (
        ONE,
        "0 end/",
        "put 4294967296/",
        3,
        "nwf: refused file 1 line 1 cause 2/",
    ),
    (
        ONE,
        "0 end/",
        "take                                                             ",
        3,
        "nwf: refused file 1 line 1 cause 3/",
    ),
    (
        ONE,
        "1 end/",
        "take/",
        3,
        "nwf: refused file 0 line 1 cause 6/",
    ),
    (
        ONE,
        "0 0/",
        "take/",
        3,
        "nwf: refused file 0 line 1 cause 2/",
    ),
    (
        ONE,
        "0 end/0 ends/",
        "tak/",
        3,
        "nwf: refused file 0 line 2 cause 1/",
    ),
    (
        ONE_LIST,
        "0 end/",
        "add 1048576/",
        3,
        "nwf: refused file 1 line 1 cause 2/",
    ),
    (
        ONE_LIST,
        "0 end/",
        "add 1//add -1/",
        3,
        "nwf: refused file 1 line 3 cause 2/",
    ),
    (
        ONE_LIST,
        "0 end/",
        "put 7/",
        3,
        "nwf: refused file 1 line 1 cause 1/",
    ),
    (
        ONE_LIST,
        "0 end/",
        "peek/",
        3,
        "nwf: refused file 1 line 1 cause 1/",
    ),
    (
        "replay tree 8 3 s f0",
        "0 end/",
        "set 1 2/has 1/",
        3,
        "nwf: refused file 1 line 2 cause 1/",
    ),
    (
        "replay tree 8 3 s f0",
        "0 end/",
        "set 1/",
        3,
        "nwf: refused file 1 line 1 cause 1/",
    ),
    (
        "replay tree 8 3 s f0",
        "0 end/",
        "set 1048575 4294967295/set 1048576 0/",
        3,
        "nwf: refused file 1 line 2 cause 2/",
    ),
    (
        "replay buckets 8 3 s f0",
        "0 end/",
        "add 1/get 1/",
        3,
        "nwf: refused file 1 line 2 cause 1/",
    ),
    (
        TWO,
        "1 end/",
        "take/|tak/",
        3,
        "nwf: refused file 2 line 1 cause 1/",
    ),
    (
        TWO,
        "0 end/",
        "tak/",
        3,
        "nwf: refused file 1 line 1 cause 1/",
    ),
];

#[test]
fn files_that_are_refused(rt: HostRuntime) -> Result<(), Fail> {
    compare(&rt, rt.alloc(), &REFUSED)
}

/// Words of which none is served.
const UNSERVED: [&str; 35] = [
    "",
    "replay",
    "replay stack 8 3 s f0",
    "replay trees 8 3 s f0",
    "replay bucket 8 3 s f0",
    "replay lists 8 3 s f0",
    "replay queues 8 3 s f0",
    "run queue 8 3 f0",
    "sweep queue 8 0 256 f0",
    "sweep queue 8 0 0",
    "check queue report order",
    "replay queue 0 3 s f0",
    "replay queue 65537 3 s f0",
    "replay queue 8 256 s f0",
    "replay queue  3 s f0",
    "replay queue +8 3 s f0",
    "replay queue 99999999999999999999999 3 s f0",
    "replay queue 8 3 s",
    "replay queue 8 3 s f0 f0 f0 f0 f0 f0 f0 f0 f0",
    "load",
    "load stack 8 3 1 1 0",
    "load tre 8 3 1 1 0",
    "load queue 0 3 1 1 0",
    "load queue 65537 3 1 1 0",
    "load queue 8 256 1 1 0",
    "load queue 8 3 0 1 0",
    "load queue 8 3 9 1 0",
    "load queue 8 3 1 0 0",
    "load queue 8 3 1 65536 0",
    "load queue 8 3 1 1 4294967296",
    "load queue 8 3 1 1 -1",
    "load queue 8 3 1 one 0",
    "load queue 8 3 1 1",
    "load queue 8 3 1 1 0 0",
    "loads queue 8 3 1 1 0",
];

#[test]
fn words_that_are_not_served(rt: HostRuntime) -> Result<(), Fail> {
    let alloc = rt.alloc();
    for words in UNSERVED {
        let mut files = files_of(alloc, "0 end/", "take/", &[], AMPLE)?;
        let mut sink = SinkInMemory::with_room(alloc, AMPLE, Vec::new(alloc))?;
        assert_eq!(rt;
            replayed(alloc, words, &mut files, &mut sink)?,
            2,
            "{words}"
        );
        assert_eq!(rt; sink.bytes(), b"nwf: usage\n".as_slice());
        assert_eq!(rt; files.calls(), 0);
    }
    Ok(())
}

/// A text so many times.
fn times(alloc: Global, text: &str, count: usize) -> Result<Vec<u8>, AllocError> {
    let mut bytes = Vec::new(alloc);
    for _ in 0..count {
        bytes.extend_from_slice(text.as_bytes())?;
    }
    Ok(bytes)
}

#[test]
fn files_over_their_limits(rt: HostRuntime) -> Result<(), Fail> {
    let alloc = rt.alloc();
    for (schedule, file, message) in [
        (
            ("0 end\n", 1),
            ("\n", 1_048_577),
            "nwf: refused file 1 line 0 cause 5\n",
        ),
        (
            ("0 end\n", 1),
            ("take\n", 65_536),
            "nwf: refused file 1 line 65536 cause 4\n",
        ),
        (
            ("\n", 1_048_577),
            ("take\n", 1),
            "nwf: refused file 0 line 0 cause 5\n",
        ),
        (
            ("0 end\n", 4_097),
            ("take\n", 1),
            "nwf: refused file 0 line 4097 cause 4\n",
        ),
    ] {
        let mut files = Vec::new(alloc);
        files.push((
            String::from_str(alloc, "s")?,
            times(alloc, schedule.0, schedule.1)?,
        ))?;
        files.push((
            String::from_str(alloc, "f0")?,
            times(alloc, file.0, file.1)?,
        ))?;
        let mut files = FilesInMemory::new(files, Vec::new(alloc));
        let mut sink = SinkInMemory::with_room(alloc, AMPLE, Vec::new(alloc))?;
        assert_eq!(rt; replayed(alloc, ONE, &mut files, &mut sink)?, 3);
        assert_eq!(rt; sink.bytes(), message.as_bytes());
    }
    Ok(())
}
