//! Contexts that have served nothing, held all at once.

use crate::plan::plan_of_file;
use crate::problem::Problem;
use crate::words::number;
use context_uc::Context;
use context_uc_tests::{deploy, image};
use edge_files::Files;
use plain_space::{PlainShelf, PlainSpace, PlainStore};
use plan_model::Plan;
use std::alloc::Global;

/// The most contexts that are held.
const MOST_CONTEXTS: u64 = 1_000_000;

/// Contexts of the plan's first function on the image of its start, which have served nothing.
fn contexts(
    alloc: Global,
    plan: &Plan,
    count: u64,
) -> Result<Vec<Context<'_, PlainSpace>>, Problem> {
    let store = PlainStore::open(plan.starts())?;
    let mut shelf = PlainShelf::new(0);
    let mut held = Vec::with_capacity(alloc, count as usize)?;
    let Some(mut below) = image(alloc, &store, &mut shelf, plan, 0) else {
        return Err(Problem::Memory);
    };
    for _ in 0..count {
        let Some(context) = deploy(alloc, &store, &mut shelf, &mut below, 0) else {
            return Err(Problem::Memory);
        };
        held.push(context).map_err(|_| Problem::Memory)?;
    }
    Ok(held)
}

/// Holds so many contexts of the plan of the file, and answers how many they are.
pub fn idle_part<F: Files>(
    alloc: Global,
    files: &mut F,
    name: &str,
    count: &str,
) -> Result<usize, Problem> {
    let count = number(count)?;
    if count > MOST_CONTEXTS {
        return Err(Problem::Words);
    }
    let plan = plan_of_file(alloc, files, name)?;
    let held = contexts(alloc, &plan, count)?;
    Ok(held.len())
}
