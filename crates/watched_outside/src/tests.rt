//! What passes is kept, and handed on as it was.

use super::*;
use std::test::Fail;
use whole_files::{FilesInMemory, SinkInMemory};

#[test]
fn the_file_that_is_read_last_is_kept(rt: HostRuntime) -> Result<(), Fail> {
    let alloc = rt.alloc();
    let mut files = Vec::new(alloc);
    files.push((
        String::from_str(alloc, "a")?,
        Vec::from_slice(alloc, b"put 7\n")?,
    ))?;
    files.push((
        String::from_str(alloc, "b")?,
        Vec::from_slice(alloc, b"take\n")?,
    ))?;
    let inner = FilesInMemory::in_pieces(files, Vec::new(alloc), 4);
    let mut watched = WatchedFiles::new(alloc, inner);
    let mut into = [0u8; 100];
    assert_eq!(rt; watched.start_file("a"), Ok(()));
    assert_eq!(rt; watched.read(&mut into), Ok(4));
    assert_eq!(rt; watched.kept(), b"put ".as_slice());
    assert_eq!(rt; watched.read(&mut into), Ok(2));
    assert_eq!(rt; watched.kept(), b"put 7\n".as_slice());
    assert_eq!(rt; watched.start_file("b"), Ok(()));
    assert_eq!(rt; watched.kept(), b"".as_slice());
    assert_eq!(rt; watched.read(&mut into), Ok(4));
    assert_eq!(rt; watched.kept(), b"take".as_slice());
    assert_eq!(rt; watched.start_file("c"), Err(Failed));
    Ok(())
}

#[test]
fn what_is_written_first_is_kept(rt: HostRuntime) -> Result<(), Fail> {
    let alloc = rt.alloc();
    let inner = SinkInMemory::with_room(alloc, 3, Vec::new(alloc))?;
    let mut watched = WatchedOut::new(alloc, inner);
    assert_eq!(rt; watched.put(b"four"), Ok(3));
    assert_eq!(rt; watched.put(b"r"), Err(Failed));
    assert_eq!(rt; watched.kept(), b"fou".as_slice());
    Ok(())
}
