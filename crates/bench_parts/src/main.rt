//! Parts of the server that no command runs yet, by themselves, so that they can be measured:
//! `judge FILE` judges the journal whose event lines the file has, `plan FILE` reads a plan,
//! `frames open COUNT` opens a table of so many frames, and `frames STEP COUNT` takes steps on one.
//! `copies KIND PAGES ROUNDS` captures or deploys a space of so many pages again and again, and
//! `idle FILE COUNT` holds so many contexts of a plan that have served nothing.
//! `book SPREAD BOOKS` takes contexts that idle in a book and parks them again and again, and
//! `lru SPREAD CACHES` does so with entries of the kit's cache.
#![tactic(auto)]

mod book;
mod copies;
mod entries;
mod frames;
mod idle;
mod journal;
mod plan;
mod problem;
mod words;

use crate::problem::Problem;
use edge_files::StdFiles;
use std::alloc::Global;
use std::env::Env;
use std::process::ExitCode;
use std::{env, rt};

/// What came of the part that the words after the program's name ask for.
fn measured<R: Env + rt::Files + Alloc<A = Global>>(rt: &R) -> Result<String, Problem> {
    let alloc = rt.alloc();
    let words: Vec<String> = env::args(rt)?.collect(alloc)?;
    let mut files = StdFiles::new(rt);
    match words.as_slice() {
        [_, part, file] if part.as_str() == "judge" => {
            let verdict = journal::judge_file(alloc, &mut files, file.as_str())?;
            Ok(format!(in alloc; "{verdict:?}")?)
        }
        [_, part, file] if part.as_str() == "plan" => {
            let (layers, functions) = plan::read_plan_file(alloc, &mut files, file.as_str())?;
            Ok(format!(in alloc; "{layers} layers, {functions} functions")?)
        }
        [_, part, step, count] if part.as_str() == "frames" => {
            let told = frames::frames_part(alloc, step.as_str(), count.as_str())?;
            Ok(format!(in alloc; "{told}")?)
        }
        [_, part, kind, pages, rounds] if part.as_str() == "copies" => {
            let told = copies::copies_part(alloc, kind.as_str(), pages.as_str(), rounds.as_str())?;
            Ok(format!(in alloc; "{told}")?)
        }
        [_, part, file, count] if part.as_str() == "idle" => {
            let told = idle::idle_part(alloc, &mut files, file.as_str(), count.as_str())?;
            Ok(format!(in alloc; "{told}")?)
        }
        [_, part, spread, books] if part.as_str() == "book" => {
            let told = book::book_part(alloc, spread.as_str(), books.as_str())?;
            Ok(format!(in alloc; "{told}")?)
        }
        [_, part, spread, caches] if part.as_str() == "lru" => {
            let told = entries::lru_part(alloc, spread.as_str(), caches.as_str())?;
            Ok(format!(in alloc; "{told}")?)
        }
        _ => Err(Problem::Words),
    }
}

/// Does what the words ask for, and prints what came of it. Status 1 where it couldn't be done.
fn main(rt: HostRuntime) -> ExitCode {
    let printed = match measured(&rt) {
        Ok(text) => println!(rt; "{text}"),
        Err(problem) => {
            let _ = eprintln!(rt; "bench_parts: {problem}");
            return ExitCode::FAILURE;
        }
    };
    if printed.is_ok() {
        ExitCode::SUCCESS
    } else {
        ExitCode::FAILURE
    }
}
