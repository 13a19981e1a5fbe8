//! A file of the system that has as many bytes as an image may have.

use edge_files::{FileFault, Files, StdFiles};
use std::fs;
use std::test::Fail;

/// How many bytes the longest file has, which is one byte over and over but for its last.
const SIZE: usize = 16_777_216;

/// The file's name.
const NAME: &str = "longest";

#[test]
fn the_longest_file_is_read_whole(rt: HostRuntime) -> Result<(), Fail> {
    let alloc = rt.alloc();
    let mut written = vec![in alloc; 0x5a; SIZE - 1]?;
    written.push(0xa5)?;
    let mut files = StdFiles::new(&rt);
    files.write_file(alloc, NAME, &written)?;
    let read = files.read_file(alloc, NAME, SIZE as u64)?;
    assert_eq!(rt; read.len(), SIZE);
    assert_eq!(rt; read.last(), Some(&0xa5));
    assert!(rt; read == written);
    let longer = files.read_file(alloc, NAME, SIZE as u64 - 1).err();
    assert_eq!(rt; longer, Some(FileFault::TooBig));
    assert_eq!(rt; files.faults(), 0);
    fs::remove_file(&rt, NAME)?;
    Ok(())
}
