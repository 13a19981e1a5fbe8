//! Why an example has no replies.

use edge_files::FileFault;
use machine_model::Memory;
use std::alloc::AllocError;
use std::io;
use thiserror::Error;

/// Why an example has no replies.
#[derive(Debug, Drop, Error)]
pub enum Problem {
    #[error("{0}")]
    File(FileFault),
    #[error("the file has no plan, or one of its images is none")]
    Plan,
    #[error("line {0} is no request")]
    Line(usize),
    #[error("a layer's run missed its trigger, or a request is unanswered")]
    Unanswered,
    #[error("out of memory")]
    Memory,
    #[error("the replies can't be printed")]
    Print,
}

impl From<AllocError> for Problem {
    fn from(_error: AllocError) -> Problem {
        Problem::Memory
    }
}

impl From<Memory> for Problem {
    fn from(_error: Memory) -> Problem {
        Problem::Memory
    }
}

impl From<FileFault> for Problem {
    fn from(fault: FileFault) -> Problem {
        Problem::File(fault)
    }
}

impl From<io::Error> for Problem {
    fn from(_error: io::Error) -> Problem {
        Problem::Print
    }
}
