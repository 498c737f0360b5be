use crate::{GatherFault, gather};
use std::alloc::{AllocError, Global};
use std::test::Fail;
use sv_dev::MemSource;

fn source(alloc: Global, left: &[u8], fails: &[u64]) -> Result<MemSource, AllocError> {
    let left = Vec::from_slice(alloc, left)?;
    Ok(MemSource::new(left, Vec::from_slice(alloc, fails)?))
}

// All bytes, and of those that are too many one more than the limit.
#[test]
fn bytes_of_a_source(rt: HostRuntime) -> Result<(), Fail> {
    let rows: [(usize, &[u8]); 5] = [
        (0, b"h"),
        (3, b"hell"),
        (4, b"hello"),
        (5, b"hello"),
        (536870912, b"hello"),
    ];
    for (most, wanted) in rows {
        let mut from = source(rt.alloc(), b"hello", &[])?;
        match gather(rt.alloc(), &mut from, most) {
            Ok(bytes) => assert_eq!(rt; bytes.as_slice(), wanted),
            Err(_) => assert!(rt; false),
        }
    }
    Ok(())
}

// The first call fails, or the one that would find the end.
#[test]
fn faults_of_a_source(rt: HostRuntime) -> Result<(), Fail> {
    for call in [1u64, 2] {
        let mut from = source(rt.alloc(), b"hello", &[call])?;
        assert_eq!(rt;
            gather(rt.alloc(), &mut from, 9).err(),
            Some(GatherFault::Fault)
        );
    }
    Ok(())
}
