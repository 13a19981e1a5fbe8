//! A plan, read from its text and the files of its images.

use crate::problem::Problem;
use edge_files::Files;
use plan_model::Plan;
use plan_text::read_plan;
use std::alloc::Global;

/// The most bytes of a plan's text.
const FILE_LIMIT: u64 = 1_048_576;

/// The plan of the file, with the images that it names.
pub fn plan_of_file<F: Files>(alloc: Global, files: &mut F, name: &str) -> Result<Plan, Problem> {
    let text = files.read_file(alloc, name, FILE_LIMIT)?;
    match read_plan(alloc, &text, files) {
        Ok(plan) => Ok(plan),
        Err(_) => Err(Problem::Plan),
    }
}

/// How many layers and functions the plan of the file has.
pub fn read_plan_file<F: Files>(
    alloc: Global,
    files: &mut F,
    name: &str,
) -> Result<(usize, usize), Problem> {
    let plan = plan_of_file(alloc, files, name)?;
    Ok((plan.layers().len(), plan.functions().len()))
}
