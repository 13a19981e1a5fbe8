//! The sizes of a plan's book.

ghost use Rattle.std.specs.Prelude.{◌≡◌, ◌<◌, IfOk, IfSome, List, false, true, length, map};
ghost use Rattle.std.specs.Prelude.{slice_get};
ghost use Rattle.batch_model.specs.Setting.{sizes_of, stack_on};
ghost use Rattle.deployer.specs.Grounds.{IsSizedBy};
ghost use Rattle.plan_book.specs.Sized.{HaveStarts, sizes_for, start_limit};
ghost use Rattle.plan_model.specs.Outline.{Outline};
ghost use Rattle.request_lines.specs.declared.request.Request.{Request};

use crate::adding::add;
use journal_model::{FunctionStack, Sizes};
use layer_model::Plan;
use machine_model::Memory;
use plan_model::PlanLayer;
use std::alloc::Global;

/// The number of a layer's start.
fn start_of(layer: &PlanLayer) -> u16
    ensures value { result ≡ layer.now.start }
    ensures few { result < start_limit }
{
    layer.start
}

/// The image of a function, and its layers from the lowest up. The only error is want of memory.
fn stack_of(alloc: Global, plan: &Plan, function: u16) -> Result<FunctionStack, Memory>
    requires { function < length plan.now.functions }
    ensures stack { IfOk result (λ made. IfSome (slice_get plan.now.functions function)
        (λ found. made ≡ stack_on plan.now.layers found)) }
    ensures start { IfOk result (λ made. made.start < start_limit) }
{
    plan.is_sound();
    let layer = plan.functions()[usize::from(function)].layer;
    let start = start_of(&plan.layers()[usize::from(layer)]);
    match plan.stack(function).to_vec(alloc) {
        Ok(layers) => Ok(FunctionStack { start, layers }),
        Err(_) => Err(Memory),
    }
}

/// The stacks of all functions, by their numbers. The only error is want of memory.
fn stacks_of(alloc: Global, plan: &Plan) -> Result<Vec<FunctionStack>, Memory>
    ensures stacks { IfOk result (λ stacks.
        stacks.items ≡ map (stack_on plan.now.layers) plan.now.functions) }
    ensures starts { IfOk result (λ stacks. HaveStarts stacks.items) }
{
    plan.is_sound();
    let mut stacks = Vec::new(alloc);
    for function in 0..plan.functions().len() {
        let stack = stack_of(alloc, plan, function as u16)?;
        add(&mut stacks, stack)?;
    }
    Ok(stacks)
}

/// The sizes of a batch of so many requests of the plan over copied pages, where the clock shows
/// what the plan says. The only error is want of memory.
pub fn sizes_of_plan(alloc: Global, plan: &Plan, requests: u32) -> Result<Sizes, Memory>
    ensures sizes { IfOk result (λ sizes. sizes ≡ sizes_for plan.now requests) }
    ensures sized { IfOk result (λ sizes. IsSizedBy plan.now sizes) }
    ensures starts { IfOk result (λ sizes. HaveStarts sizes.stacks) }
{
    let stacks = stacks_of(alloc, plan)?;
    let numbers = plan.numbers();
    Ok(Sizes {
        frames: numbers.frames,
        root: 0,
        idle: u32::from(numbers.idle),
        layers: u32::from(numbers.room),
        uses: numbers.uses,
        requests,
        clock: Some(numbers.clock),
        stacks,
    })
}

/// A law, which does nothing: the sizes for so many requests are those of each batch of so many.
pub fn sizes_are_of_batches()
    ensures { (plan : Outline) (requests : List Request) → sizes_for plan (length requests)
        ≡ sizes_of (record { plan = plan; fixed_clock = true; root = 0 }) requests }
{}
