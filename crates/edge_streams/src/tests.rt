use super::*;
use std::io::{Error, ErrorKind, Read, Write};
use std::test::Fail;
use std::{fs, io};

const TEXT: &[u8; 6] = b"abcdef";

#[test]
fn a_source_fails_as_planned(rt: HostRuntime) -> Result<(), Fail> {
    let alloc = rt.alloc();
    let mut source = MemSource::in_pieces(TEXT.to_vec(alloc)?, 2, vec![in alloc; 2]?);
    let fault = read_all(alloc, &mut source, 6).err();
    assert_eq!(rt; fault, Some(ReadFault::Failed));
    let rest = read_all(alloc, &mut source, 6)?;
    assert_eq!(rt; rest.as_slice(), b"cdef".as_slice());
    Ok(())
}

#[test]
fn a_sink_fails_as_planned(rt: HostRuntime) -> Result<(), Fail> {
    let alloc = rt.alloc();
    let mut sink = MemSink::in_pieces(alloc, 2, vec![in alloc; 2]?);
    assert_eq!(rt; write_all(&mut sink, TEXT), Err(Cut { written: 2 }));
    assert_eq!(rt; write_all(&mut sink, TEXT), Ok(()));
    assert_eq!(rt; sink.as_slice(), b"ababcdef".as_slice());
    Ok(())
}

#[test]
fn the_system_has_streams(rt: HostRuntime) -> Result<(), Fail> {
    assert_eq!(rt; StdSource::new(rt.reader()).faults(), 0);
    assert_eq!(rt; write_all(&mut StdSink::new(io::writer(&rt)), TEXT), Ok(()));
    assert_eq!(rt; write_all(&mut StdSink::new(rt.stderr()), TEXT), Ok(()));
    Ok(())
}

#[test]
fn the_system_refuses_a_write(rt: HostRuntime) -> Result<(), Fail> {
    fs::write(&rt, "read_only", TEXT)?;
    let mut sink = StdSink::new(fs::open(&rt, "read_only")?);
    let cut = write_all(&mut sink, TEXT).err();
    assert_eq!(rt; cut, Some(Cut { written: 0 }));
    assert_eq!(rt; sink.faults(), 1);
    // 9 is EBADF.
    assert_eq!(rt;
        sink.last_error().and_then(|error| error.raw_os_error()),
        Some(9)
    );
    fs::remove_file(&rt, "read_only")?;
    Ok(())
}

#[test]
fn a_fault_says_what_happened(rt: HostRuntime) -> Result<(), Fail> {
    let alloc = rt.alloc();
    let cut = format!(in alloc; "{}; {}", Failed, Cut { written: 3 })?;
    assert_eq!(rt;
        cut.as_str(),
        "a call on the outside failed; a write failed after 3 bytes"
    );
    let read = format!(in alloc; "{}; {}", ReadFault::Failed, ReadFault::TooLong)?;
    assert_eq!(rt;
        read.as_str(),
        "a read failed; there are more bytes than the limit"
    );
    Ok(())
}

/// A stream whose first calls fail so, or take and give nothing where no kind is named. Later ones
/// fill what they are given, and take all.
#[derive(Drop)]
struct Faulty {
    kind: Option<ErrorKind>,
    times: u32,
}

impl Faulty {
    /// How much of so many bytes a call takes or gives.
    fn turn(&mut self, size: usize) -> io::Result<usize> {
        if self.times == 0 {
            return Ok(size);
        }
        self.times -= 1;
        match self.kind {
            Some(kind) => Err(Error::from(kind)),
            None => Ok(0),
        }
    }
}

impl Read for Faulty {
    fn read(&mut self, buf: &mut [u8]) -> io::Result<usize> {
        let size = self.turn(buf.len())?;
        Ok(size.min(buf.len()))
    }
}

impl Write for Faulty {
    fn write(&mut self, buf: &[u8]) -> io::Result<usize> {
        let size = self.turn(buf.len())?;
        Ok(size.min(buf.len()))
    }

    fn flush(&mut self) -> io::Result<()> {
        Ok(())
    }
}

/// How the first calls fail and how often, and what two reads and two writes of 6 bytes answer
/// then; a call that fails answers none. One call is made 17 times at most.
const FAULTS: [(
    Option<ErrorKind>,
    u32,
    [Option<usize>; 2],
    [Option<usize>; 2],
); 14] = [
    (Some(ErrorKind::Interrupted), 0, [Some(6); 2], [Some(6); 2]),
    (Some(ErrorKind::Interrupted), 16, [Some(6); 2], [Some(6); 2]),
    (
        Some(ErrorKind::Interrupted),
        17,
        [None, Some(6)],
        [None, Some(6)],
    ),
    (
        Some(ErrorKind::Interrupted),
        33,
        [None, Some(6)],
        [None, Some(6)],
    ),
    (Some(ErrorKind::Interrupted), 34, [None; 2], [None; 2]),
    // Any other error fails at once.
    (Some(ErrorKind::Other), 1, [None, Some(6)], [None, Some(6)]),
    (
        Some(ErrorKind::WouldBlock),
        1,
        [None, Some(6)],
        [None, Some(6)],
    ),
    (
        Some(ErrorKind::TimedOut),
        1,
        [None, Some(6)],
        [None, Some(6)],
    ),
    (
        Some(ErrorKind::WriteZero),
        1,
        [None, Some(6)],
        [None, Some(6)],
    ),
    (
        Some(ErrorKind::BrokenPipe),
        1,
        [None, Some(6)],
        [None, Some(6)],
    ),
    (
        Some(ErrorKind::UnexpectedEof),
        1,
        [None, Some(6)],
        [None, Some(6)],
    ),
    (
        Some(ErrorKind::OutOfMemory),
        1,
        [None, Some(6)],
        [None, Some(6)],
    ),
    // Nothing read is the end of the input, and nothing written a fault.
    (None, 1, [Some(0), Some(6)], [None, Some(6)]),
    (None, 2, [Some(0); 2], [None; 2]),
];

#[test]
fn only_what_is_interrupted_is_made_again(rt: HostRuntime) {
    for (kind, times, reads, writes) in FAULTS {
        let mut source = StdSource::new(Faulty { kind, times });
        let mut sink = StdSink::new(Faulty { kind, times });
        for n in 0..2 {
            assert_eq!(rt; source.read(&mut [0; 6]).ok(), reads[n], "{kind:?} {times}");
            assert_eq!(rt; sink.write(TEXT).ok(), writes[n], "{kind:?} {times}");
        }
        let failed = writes.iter().filter(|write| write.is_none()).count();
        assert_eq!(rt; sink.faults(), failed as u64, "{kind:?} {times}");
    }
}

/// A write of no bytes takes none, and is no fault.
#[test]
fn no_bytes_are_written(rt: HostRuntime) {
    let mut sink = StdSink::new(Faulty {
        kind: None,
        times: 1,
    });
    assert_eq!(rt; sink.write(&[]), Ok(0));
    assert_eq!(rt; sink.faults(), 0);
}

/// An adapter keeps the error of its last call that failed.
#[test]
fn the_last_error_is_kept(rt: HostRuntime) {
    let kind = Some(ErrorKind::TimedOut);
    let mut source = StdSource::new(Faulty { kind, times: 1 });
    assert_eq!(rt; source.last_error().map(|error| error.kind()), None);
    assert_eq!(rt; source.read(&mut [0; 6]).ok(), None);
    assert_eq!(rt; source.read(&mut [0; 6]).ok(), Some(6));
    assert_eq!(rt; source.last_error().map(|error| error.kind()), kind);
    let mut sink = StdSink::new(Faulty {
        kind: None,
        times: 1,
    });
    assert_eq!(rt; sink.last_error().map(|error| error.kind()), None);
    assert_eq!(rt; sink.write(TEXT).ok(), None);
    let zero = Some(ErrorKind::WriteZero);
    assert_eq!(rt; sink.last_error().map(|error| error.kind()), zero);
}
