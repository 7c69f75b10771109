//! Files and sinks in memory and of the host, by themselves.
use super::{Failed, Files, FilesInMemory, HostFiles, HostOut, Sink, SinkInMemory};
use std::test::Fail;
use std::{env, fs};

#[test]
fn files_and_sinks_in_memory(rt: HostRuntime) -> Result<(), Fail> {
    let alloc = rt.alloc();
    let mut files = Vec::new(alloc);
    files.push((
        String::from_str(alloc, "a")?,
        Vec::from_slice(alloc, b"one")?,
    ))?;
    files.push((
        String::from_str(alloc, "a")?,
        Vec::from_slice(alloc, b"two")?,
    ))?;
    let mut files = FilesInMemory::new(files, Vec::from_slice(alloc, &[3])?);
    let mut into = [0u8; 2];
    assert_eq!(rt; files.read(&mut into), Ok(0));
    assert_eq!(rt; files.start_file("a"), Ok(()));
    assert_eq!(rt; files.read(&mut into), Ok(2));
    assert_eq!(rt; into.as_slice(), b"on".as_slice());
    assert_eq!(rt; files.read(&mut into), Err(Failed));
    assert_eq!(rt; files.read(&mut into), Ok(1));
    assert_eq!(rt; files.read(&mut into), Ok(0));
    assert_eq!(rt; files.start_file("b"), Err(Failed));
    assert_eq!(rt; files.calls(), 7);

    let mut sink = SinkInMemory::with_room(alloc, 3, Vec::new(alloc))?;
    assert_eq!(rt; sink.put(b"four"), Ok(3));
    assert_eq!(rt; sink.put(b""), Ok(0));
    assert_eq!(rt; sink.put(b"r"), Err(Failed));
    assert_eq!(rt; sink.bytes(), b"fou".as_slice());
    assert_eq!(rt; sink.calls(), 3);
    Ok(())
}

#[test]
fn files_of_the_host(rt: HostRuntime) -> Result<(), Fail> {
    let mut path = env::temp_dir(&rt)?;
    path.push("whole_files_of_the_host")?;
    let name = path.as_path().to_str().ok_or("a name that is no text")?;
    fs::write(&rt, name, "put 7\n")?;
    let mut files = HostFiles::new(&rt);
    let mut into = [0u8; 100];
    assert_eq!(rt; files.read(&mut into), Ok(0));
    assert_eq!(rt; files.start_file(name), Ok(()));
    assert_eq!(rt; files.read(&mut into), Ok(6));
    assert_eq!(rt; files.read(&mut into[6..]), Ok(0));
    assert_eq!(rt; &into[..6], b"put 7\n".as_slice());
    fs::remove_file(&rt, name)?;
    assert_eq!(rt; files.start_file(name), Err(Failed));
    let mut out = HostOut::new(&rt);
    assert_eq!(rt; out.put(b""), Ok(0));
    Ok(())
}
