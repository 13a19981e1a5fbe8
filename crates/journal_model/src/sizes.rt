//! The sizes by which a journal is judged.

ghost use Rattle.std.specs.Prelude.{◌≡◌, IfOk};

use machine_model::Memory;
use std::alloc::Global;
use std::marker::Model;

/// A function's image and its layers, from the lowest up.
#[derive(Debug, Drop)]
pub struct FunctionStack {
    /// The number of its image.
    pub start: u16,
    /// The numbers of its layers, none of them twice.
    pub layers: Vec<u16>,
}

impl Model for FunctionStack {
    ghost use Rattle.journal_model.specs.Extents.{Stack};

    ghost Value = { Stack };

    ghost view = { λ s. record { start = s.start; layers = s.layers.items } };
}

impl FunctionStack {
    ghost use Rattle.std.specs.Prelude.{◌≡◌, IfOk};

    /// The layers, from the lowest up.
    pub fn layers(&self) -> &[u16]
        ensures { result.now ≡ self.now.layers }
    {
        &self.layers
    }

    /// An equal one. `Memory` where there is too little of it.
    pub fn copy(&self, alloc: Global) -> Result<FunctionStack, Memory>
        ensures { IfOk result (λ copy. copy ≡ self.now) }
    {
        match self.layers.to_vec(alloc) {
            Ok(layers) => Ok(FunctionStack {
                start: self.start,
                layers,
            }),
            Err(_) => Err(Memory),
        }
    }
}

/// Equal stacks, in the same order. `Memory` where there is too little of it.
fn copied(alloc: Global, stacks: &[FunctionStack]) -> Result<Vec<FunctionStack>, Memory>
    ensures { IfOk result (λ copy. copy.items ≡ stacks.now) }
{
    let mut copy = Vec::new(alloc);
    for stack in stacks {
        if copy.push(stack.copy(alloc)?).is_err() {
            return Err(Memory);
        }
    }
    Ok(copy)
}

/// What bounds a journal: rooms, limits and the functions.
#[derive(Debug, Drop)]
pub struct Sizes {
    /// How many frames are free at first.
    pub frames: u32,
    /// How many frames a deploy takes: 1 over frames, 0 over copied pages.
    pub root: u32,
    /// The room for idle contexts.
    pub idle: u32,
    /// The room for kept layers.
    pub layers: u32,
    /// How many requests a context may answer.
    pub uses: u32,
    /// How many requests may be started.
    pub requests: u32,
    /// What the clock shows at each start, in nanoseconds, where that is fixed.
    pub clock: Option<u64>,
    /// The functions, by their numbers.
    pub stacks: Vec<FunctionStack>,
}

impl Model for Sizes {
    ghost use Rattle.journal_model.specs.Extents.{Extents};

    ghost Value = { Extents };

    ghost view = { λ s. record {
      frames = s.frames;
      root = s.root;
      idle = s.idle;
      layers = s.layers;
      uses = s.uses;
      requests = s.requests;
      clock = s.clock;
      stacks = s.stacks.items;
    } };
}

impl Sizes {
    ghost use Rattle.std.specs.Prelude.{◌≡◌, IfOk};

    /// Equal sizes. `Memory` where there is too little of it.
    pub fn copy(&self, alloc: Global) -> Result<Sizes, Memory>
        ensures { IfOk result (λ copy. copy ≡ self.now) }
    {
        let stacks = copied(alloc, &self.stacks)?;
        Ok(Sizes {
            frames: self.frames,
            root: self.root,
            idle: self.idle,
            layers: self.layers,
            uses: self.uses,
            requests: self.requests,
            clock: self.clock,
            stacks,
        })
    }
}
