//! A plan.

ghost use Rattle.std.specs.Prelude.{◌≡◌, ◌<◌, length, map, slice_get, IfOk, IfSome};
ghost use Rattle.plan_model.specs.Outline.{Outline, AreParts, IsPlan, names_of};
ghost use Rattle.plan_model.specs.Stacks.{stack};

use crate::function::PlanFunction;
use crate::layer::PlanLayer;
use crate::numbers::Numbers;
use crate::sound::{packets_can_be_given, starts_can_be_loaded};
use crate::stacks::{Stack, names, stacks};
use image_model::Start;
use space_api::Names;
use std::alloc::{AllocError, Global};
use std::marker::Model;

/// What a server is to run: its numbers, its layers and functions, and what the images start with.
///
/// The numbers are in their ranges. There are 1 to 64 layers and 1 to 64 functions. Each layer
/// stands on one of the starts or on an earlier layer of the same start, and each function on one
/// of the layers.
#[derive(Debug, Drop)]
pub struct Plan {
    numbers: Numbers,
    layers: Vec<PlanLayer>,
    functions: Vec<PlanFunction>,
    names: Names,
    starts: Vec<Start>,
    stacks: Vec<Stack>,
}

impl Model for Plan {
    ghost use Rattle.plan_model.specs.Outline.{Outline, HoldsPlan};

    ghost Value = { Outline };

    ghost view = { λ p. record {
      numbers = p.numbers;
      layers = p.layers.items;
      functions = p.functions.items;
      starts = p.starts.items;
    } };

    ghost invariant = { λ p. HoldsPlan (record {
      numbers = p.numbers;
      layers = p.layers.items;
      functions = p.functions.items;
      starts = p.starts.items;
    }) p.names p.stacks.items };
}

impl Plan {
    /// A plan of these parts, which fit together. The only error is want of memory.
    pub fn new(
        alloc: Global,
        numbers: Numbers,
        layers: Vec<PlanLayer>,
        functions: Vec<PlanFunction>,
        starts: Vec<Start>,
    ) -> Result<Plan, AllocError>
        requires { AreParts (record {
          numbers = numbers;
          layers = layers.items;
          functions = functions.items;
          starts = starts.items;
        }) }
        ensures { IfOk result (λ plan. plan ≡ record {
          numbers = numbers;
          layers = layers.items;
          functions = functions.items;
          starts = starts.items;
        }) }
    {
        let stacks = stacks(alloc, &layers)?;
        let names = names(alloc, &functions)?;
        Ok(Plan {
            numbers,
            layers,
            functions,
            names,
            starts,
            stacks,
        })
    }

    /// The numbers.
    pub fn numbers(&self) -> &Numbers
        ensures { result.now ≡ self.now.numbers }
    {
        &self.numbers
    }

    /// The layers by number.
    pub fn layers(&self) -> &[PlanLayer]
        ensures { result.now ≡ self.now.layers }
    {
        &self.layers
    }

    /// The functions by number.
    pub fn functions(&self) -> &[PlanFunction]
        ensures { result.now ≡ self.now.functions }
    {
        &self.functions
    }

    /// The functions' names by number.
    pub fn names(&self) -> &Names
        ensures { result.now ≡ names_of self.now.functions }
    {
        &self.names
    }

    /// What the images start with: one start for each layer that stands on an image, in order.
    pub fn starts(&self) -> &[Start]
        ensures { result.now ≡ self.now.starts }
    {
        &self.starts
    }

    /// The numbers of the layers that the function of a number runs on, from the lowest up.
    pub fn stack(&self, function: u16) -> &[u16]
        requires { function < length self.now.functions }
        ensures { IfSome (slice_get self.now.functions function)
            (λ found. result.now ≡ stack self.now.layers found.layer) }
    {
        let layer = self.functions[usize::from(function)].layer;
        self.stacks[usize::from(layer)].as_slice()
    }

    /// Changes nothing: what holds of every plan is what it ensures.
    pub fn is_sound(&self)
        ensures { IsPlan self.now }
    {
        starts_can_be_loaded(&self.starts);
        packets_can_be_given(&self.layers);
    }
}
