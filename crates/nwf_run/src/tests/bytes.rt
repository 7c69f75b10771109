//! The call on bytes, on the first worked example.
use client_reports::NoReport;
use client_reports::replay_bytes::replay_of_bytes;
use lin_report::Client;
use script_reader::{Cause, Refusal};
use std::test::Fail;

#[test]
fn report_of_bytes(rt: HostRuntime) -> Result<(), Fail> {
    let alloc = rt.alloc();
    let files = [b"put 7\ntake\n".as_slice()];
    let made = replay_of_bytes(alloc, Client::Queue, 8, 3, b"0 end\n0 end\n", &files)
        .ok()
        .ok_or("no report")?;
    assert_eq!(rt;
        made.text.as_slice(),
        b"0 1 put 7 done 0 1 fast\n0 2 take value 7 2 3 fast\ncalls 2 fast 2 slow 0 exhausted 0 pending 0 overtaken 0\n".as_slice()
    );
    assert!(rt; !made.exhausted);
    Ok(())
}

#[test]
fn first_refused_bytes(rt: HostRuntime) -> Result<(), Fail> {
    let alloc = rt.alloc();
    let files = [b"take\n".as_slice(), b"tak\n".as_slice()];
    let why = replay_of_bytes(alloc, Client::Queue, 8, 3, b"1 end\n", &files).err();
    let refusal = Refusal {
        line: 1,
        cause: Cause::BadCommand,
    };
    assert!(rt; why == Some(NoReport::Refused { file: 2, refusal }));
    Ok(())
}
