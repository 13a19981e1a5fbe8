//! The functions of the examples with layers, over the calls of contexts and a store of copied
//! pages. Each request is answered twice, and both replies are printed: by a context that came up
//! from the image by itself, and by one that was deployed from the topmost layer after that.
#![tactic(auto)]

mod answers;
mod climbing;
mod problem;
mod requests;

use crate::answers::answer_example;
use crate::problem::Problem;
use crate::requests::Request;
use edge_files::StdFiles;
use std::alloc::Global;
use std::process::ExitCode;

/// The examples with layers.
const EXAMPLES: [&str; 3] = ["router", "words", "store"];

/// How many contexts answer each request.
const WAYS: usize = 2;

/// Prints the replies of one way, in the order of the requests.
fn print_way(rt: &impl Print, requests: &[Request], way: usize) -> Result<(), Problem> {
    for request in requests {
        let Some(reply) = request.replies.get(way) else {
            return Err(Problem::Unanswered);
        };
        rt.println(reply.as_str())?;
    }
    Ok(())
}

/// Prints the replies of each example.
fn print_all<R: std::rt::Files + Print + Alloc<A = Global>>(rt: &R) -> Result<(), Problem> {
    let mut files = StdFiles::new(rt);
    for name in EXAMPLES {
        let requests = answer_example(rt.alloc(), &mut files, name)?;
        for way in 0..WAYS {
            print_way(rt, &requests, way)?;
        }
    }
    Ok(())
}

/// Status 1 where a reply is missing or couldn't be printed.
fn main(rt: HostRuntime) -> ExitCode {
    match print_all(&rt) {
        Ok(()) => ExitCode::SUCCESS,
        Err(problem) => {
            let _ = eprintln!(rt; "example_tests: {problem}");
            ExitCode::FAILURE
        }
    }
}
