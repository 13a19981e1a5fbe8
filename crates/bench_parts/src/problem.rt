//! Why a part wasn't measured.

use edge_files::FileFault;
use machine_model::Memory;
use std::alloc::AllocError;
use std::io;
use thiserror::Error;

/// Why a part wasn't measured.
#[derive(Debug, Drop, Error)]
pub enum Problem {
    #[error("the words are: judge FILE, plan FILE, frames open COUNT, frames STEP COUNT, \
         copies KIND PAGES ROUNDS, idle FILE COUNT, book SPREAD BOOKS, or lru SPREAD CACHES")]
    Words,
    #[error("{0}")]
    File(FileFault),
    #[error("the file has no plan, or one of its images is none")]
    Plan,
    #[error("line {0} is no event")]
    Line(usize),
    #[error("out of memory")]
    Memory,
}

impl From<AllocError> for Problem {
    fn from(_error: AllocError) -> Problem {
        Problem::Memory
    }
}

impl From<Memory> for Problem {
    fn from(_error: Memory) -> Problem {
        Problem::Memory
    }
}

impl From<FileFault> for Problem {
    fn from(fault: FileFault) -> Problem {
        Problem::File(fault)
    }
}

impl From<io::Error> for Problem {
    fn from(_error: io::Error) -> Problem {
        Problem::Words
    }
}
