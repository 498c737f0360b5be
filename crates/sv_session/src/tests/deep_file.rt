// `cat` of a file whose pages stand behind a double and a triple indirect block.
use crate::test_images::DEEP;
use crate::test_runs::{Stage, run};
use std::fs::File;
use std::process::Abort;
use std::rt::Files;
use std::sync::Wait;
use std::test::Fail as Failure;
use std::thread::Threads;

// Whether these are the bytes of the file: six on page 266, one on page 65,802, and zeros.
fn are_of_the_file(bytes: &[u8]) -> bool {
    bytes.len() == 67_381_249
        && bytes.get(272_384..272_390) == Some(b"double".as_slice())
        && bytes.last() == Some(&b'X')
        && bytes.iter().filter(|byte| **byte != 0).count() == 7
}

fn cats_deep_file<R: Files<File = File> + AllocGlobal + Threads + Wait + Abort>(
    rt: &R,
    stage: &mut Stage,
) -> Result<(), Failure> {
    stage.put(rt.alloc(), "E", DEEP, &[])?;
    assert_eq!(rt; run(rt, stage, &["cat", "E", "3"])?, 0);
    assert!(rt; are_of_the_file(stage.out.written()));
    Ok(())
}

#[test]
fn pages_behind_three_levels(rt: HostRuntime) -> Result<(), Failure> {
    let mut stage = Stage::new(rt.alloc(), Vec::new(rt.alloc()));
    cats_deep_file(&rt, &mut stage)
}
