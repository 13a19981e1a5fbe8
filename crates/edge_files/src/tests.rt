use super::*;
use std::fs;
use std::test::Fail;

const TEXT: &[u8; 6] = b"abcdef";

#[test]
fn memory_answers_by_name(rt: HostRuntime) -> Result<(), Fail> {
    let alloc = rt.alloc();
    let mut files = MemFiles::new(alloc, Vec::new(alloc));
    files.add("six_bytes", TEXT.to_vec(alloc)?)?;
    let bytes = files.read_file(alloc, "six_bytes", 6)?;
    assert_eq!(rt; bytes.as_slice(), TEXT.as_slice());
    files.write_file(alloc, "six_bytes", b"four")?;
    let bytes = files.read_file(alloc, "six_bytes", 6)?;
    assert_eq!(rt; bytes.as_slice(), b"four".as_slice());
    Ok(())
}

#[test]
fn the_system_has_files(rt: HostRuntime) -> Result<(), Fail> {
    let alloc = rt.alloc();
    let mut files = StdFiles::new(&rt);
    files.write_file(alloc, "six_bytes", b"more than six")?;
    files.write_file(alloc, "six_bytes", TEXT)?;
    let bytes = files.read_file(alloc, "six_bytes", 6)?;
    assert_eq!(rt; bytes.as_slice(), TEXT.as_slice());
    let big = files.read_file(alloc, "six_bytes", 5).err();
    assert_eq!(rt; big, Some(FileFault::TooBig));
    fs::remove_file(&rt, "six_bytes")?;
    let missing = files.read_file(alloc, "six_bytes", 6).err();
    assert_eq!(rt; missing, Some(FileFault::Failed));
    // 2 is ENOENT, and 21 EISDIR.
    assert_eq!(rt;
        files.last_error().and_then(|error| error.raw_os_error()),
        Some(2)
    );
    let folder = files.read_file(alloc, ".", 6).err();
    assert_eq!(rt; folder, Some(FileFault::Failed));
    assert_eq!(rt;
        files.last_error().and_then(|error| error.raw_os_error()),
        Some(21)
    );
    let unwritten = files.write_file(alloc, "missing/six_bytes", TEXT).err();
    assert_eq!(rt; unwritten, Some(StoreFault::Failed));
    assert_eq!(rt; files.faults(), 3);
    Ok(())
}

#[test]
fn a_fault_says_what_happened(rt: HostRuntime) -> Result<(), Fail> {
    let alloc = rt.alloc();
    let file = format!(in alloc; "{}; {}", FileFault::Failed, FileFault::TooBig)?;
    assert_eq!(rt;
        file.as_str(),
        "the file couldn't be opened or read; the file has more bytes than the limit"
    );
    let store = format!(in alloc; "{}; {}", StoreFault::Failed, StoreFault::Memory)?;
    assert_eq!(rt;
        store.as_str(),
        "the file couldn't be written; out of memory"
    );
    Ok(())
}
