//! The stacks of layers, and the names of functions.

ghost use Rattle.std.specs.Prelude.{◌≡◌, ◌<◌, ◌≤◌, length, slice_get, vec_len, IfOk, IfSome};
ghost use Rattle.std.specs.Prelude.{option_and_then};
ghost use Rattle.plan_model.specs.Outline.{names_of};
ghost use Rattle.plan_model.specs.Stacks.{AreStacks, StandLower, on_top, layer_below};

use crate::function::PlanFunction;
use crate::layer::PlanLayer;
use space_api::{Names, Text};
use std::alloc::{AllocError, Global};
use std::marker::Model;

/// Numbers of layers that contracts see as a list, from the lowest layer up.
#[derive(Debug, Drop)]
pub struct Stack {
    list: Vec<u16>,
}

impl Model for Stack {
    ghost use Rattle.std.specs.Prelude.{List, ℕ};

    ghost Value = { List ℕ };

    ghost view = { λ s. s.list.items };
}

impl Stack {
    /// The numbers, from the lowest layer up.
    pub fn as_slice(&self) -> &[u16]
        ensures { result.now ≡ self.now }
    {
        &self.list
    }
}

/// The stack of each layer, by its number.
pub fn stacks(alloc: Global, layers: &[PlanLayer]) -> Result<Vec<Stack>, AllocError>
    requires few { length layers.now ≤ 64 }
    requires lower { StandLower layers.now }
    ensures { IfOk result (λ stacks. AreStacks layers.now (length layers.now) stacks.items) }
{
    let mut stacks = Vec::with_capacity(alloc, layers.len())?;
    for number in 0..layers.len() {
        let stack = stack_on(alloc, layers[number].below, &stacks, number as u16)?;
        stacks.push(stack)?;
    }
    Ok(stacks)
}

/// A layer's stack: that of the layer below, if any, with the layer's number on top.
fn stack_on(
    alloc: Global,
    below: Option<u16>,
    stacks: &[Stack],
    number: u16,
) -> Result<Stack, AllocError>
    requires { IfSome below (λ layer. layer < length stacks.now) }
    ensures { IfOk result (λ stack.
        stack ≡ on_top (option_and_then (slice_get stacks.now) below) number) }
{
    let mut list = match below {
        Some(layer) => Vec::from_slice(alloc, stacks[usize::from(layer)].as_slice())?,
        None => Vec::new(alloc),
    };
    list.push(number)?;
    Ok(Stack { list })
}

/// The functions' names, in their order.
pub fn names(alloc: Global, functions: &[PlanFunction]) -> Result<Names, AllocError>
    ensures { IfOk result (λ names. names ≡ names_of functions.now) }
{
    let mut names = Vec::with_capacity(alloc, functions.len())?;
    for function in functions {
        names.push(Text::copy_of(alloc, function.name.as_str())?)?;
    }
    Ok(Names::from_vec(names))
}
