//! A plan but for its images.

ghost use Rattle.std.specs.Prelude.{◌≡◌, ◌≢◌, length, Ok, Err, IfErr, IfOk};
ghost use Rattle.plan_text.specs.PlanText as spec;
ghost use Rattle.plan_text.specs.Sound.{IsSoundSketch};

use crate::placing::{named_functions, placed_layers};
use plan_model::{Numbers, PlanFunction, PlanLayer, Text};
use plan_tables::{PlanFault, Tables, read_tables};
use std::alloc::Global;

/// What a plan's text says: the plan but for its images.
#[derive(Drop)]
pub struct Sketch {
    pub numbers: Numbers,
    pub layers: Vec<PlanLayer>,
    pub functions: Vec<PlanFunction>,
    /// The names of the images' files.
    pub images: Vec<Text>,
}

/// What a text says; its first fault.
pub fn read_sketch(alloc: Global, bytes: &[u8]) -> Result<Sketch, PlanFault>
    ensures sketch { IfOk result (λ s. spec.sketch bytes.now ≡ Ok (record {
      numbers = s.numbers;
      layers = s.layers.items;
      functions = s.functions.items;
      images = s.images.items;
    })) }
    ensures fault { IfErr result (λ fault. fault ≢ PlanFault.Memory →
        spec.sketch bytes.now ≡ Err fault) }
    ensures sound { IfOk result (λ s. IsSoundSketch s.numbers s.layers.items s.functions.items
        (length s.images.items)) }
    ensures no_file { result ≢ Err PlanFault.File }
{
    let tables = read_tables(alloc, bytes)?;
    let Tables {
        numbers,
        layers,
        functions,
    } = tables;
    let placed_functions = named_functions(alloc, &layers, functions)?;
    let placed = placed_layers(alloc, layers)?;
    Ok(Sketch {
        numbers,
        layers: placed.layers,
        functions: placed_functions,
        images: placed.images,
    })
}
