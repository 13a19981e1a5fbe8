//! What each layer and function stands on, by numbers.

ghost use Rattle.std.specs.Prelude.{◌≡◌, ◌≢◌, ◌<◌, ◌≤◌, ◌++◌, ◌∷◌, [], length, vec_len};
ghost use Rattle.std.specs.Prelude.{Some, None, IfErr, IfOk, OnOk, map, option_and_then};
ghost use Rattle.plan_model.specs.declared.layer.PlanLayer.{PlanLayer};
ghost use Rattle.plan_tables.specs.Faults.{Tells};
ghost use Rattle.plan_text.specs.Names.{number_of};
ghost use Rattle.plan_text.specs.Placing as spec;
ghost use Rattle.plan_tables.specs.declared.fault.PlanFault.TheVariants as faults;

use crate::names::{are_names, number_of};
use plan_model::{PlanFunction, PlanLayer, Text};
use plan_tables::{Base, FunctionText, LayerText, PlanFault};
use std::alloc::Global;

/// The functions on their layers; `Name` where a name is malformed or repeated in its kind, or a
/// function's layer is unknown.
pub fn named_functions(
    alloc: Global,
    layers: &[LayerText],
    functions: Vec<FunctionText>,
) -> Result<Vec<PlanFunction>, PlanFault>
    requires few { length layers.now ≤ 64 }
    ensures fault { Tells (spec.names_fault layers.now functions.items) result }
    ensures value { IfOk result (λ all.
        spec.placed_functions layers.now functions.items ≡ Some all.items) }
{
    if !are_well_named(layers, &functions) {
        return Err(PlanFault::Name);
    }
    placed_functions(alloc, layers, functions)
}

/// Whether each name is well formed, and none stands twice in its kind.
fn are_well_named(layers: &[LayerText], functions: &[FunctionText]) -> bool
    ensures { result ≡ spec.are_well_named layers.now functions.now }
{
    are_names(layers) && are_names(functions)
}

/// The functions with the numbers of their layers; `Name` where one's layer is unknown.
fn placed_functions(
    alloc: Global,
    layers: &[LayerText],
    functions: Vec<FunctionText>,
) -> Result<Vec<PlanFunction>, PlanFault>
    requires few { length layers.now ≤ 64 }
    ensures value { IfOk result (λ all.
        spec.placed_functions layers.now functions.items ≡ Some all.items) }
    ensures fault { IfErr result (λ fault. fault ≢ PlanFault.Memory →
        (spec.placed_functions layers.now functions.items ≡ None) × (fault ≡ PlanFault.Name)) }
{
    let mut all = Vec::with_capacity(alloc, functions.len())?;
    'functions: for function in functions {
        match placed_function(layers, function) {
            None => return Err(PlanFault::Name),
            Some(placed) => all.push(placed)?,
        }
    }
    Ok(all)
}

/// The function with the number of its layer, or none where the layer is unknown.
fn placed_function(layers: &[LayerText], function: FunctionText) -> Option<PlanFunction>
    requires few { length layers.now ≤ 64 }
    ensures { result ≡ spec.placed_function layers.now function }
{
    match number_of(0, function.layer.as_str(), layers) {
        None => None,
        Some(layer) => Some(PlanFunction {
            name: function.name,
            layer,
        }),
    }
}

/// Layers by number, and the names of the files of their images.
#[derive(Drop)]
pub struct Placed {
    pub layers: Vec<PlanLayer>,
    pub images: Vec<Text>,
}

/// The layers on what they stand on; `Below` where one stands on no earlier layer.
pub fn placed_layers(alloc: Global, layers: Vec<LayerText>) -> Result<Placed, PlanFault>
    requires few { vec_len layers ≤ 64 }
    ensures fault { Tells (spec.below_fault layers.items) result }
    ensures layers { IfOk result (λ placed.
        spec.placed_layers [] 0 layers.items ≡ Some placed.layers.items) }
    ensures images { IfOk result (λ placed. placed.images.items ≡ spec.image_names layers.items) }
{
    let mut placed = Placed {
        layers: Vec::with_capacity(alloc, layers.len())?,
        images: Vec::new(alloc),
    };
    'layers: for layer in layers {
        place(&mut placed, layer)?;
    }
    Ok(placed)
}

/// Places one layer more; `Below` where it stands on no earlier one.
fn place(placed: &mut Placed, layer: LayerText) -> Result<(), PlanFault>
    requires few { (vec_len placed.old.layers ≤ 64) × (vec_len placed.old.images ≤ 64) }
    ensures done { OnOk result ((p : PlanLayer)
        × (spec.placed_layer placed.old.layers.items (length placed.old.images.items) layer
        ≡ Some p)
        × (placed.new.layers.items ≡ placed.old.layers.items ++ p ∷ [])) }
    ensures images { OnOk result (placed.new.images.items
        ≡ placed.old.images.items ++ spec.images_of layer.base) }
    ensures fault { IfErr result (λ fault. fault ≢ PlanFault.Memory → (fault ≡ faults.Below)
        × (spec.placed_layer placed.old.layers.items (length placed.old.images.items) layer
        ≡ None)) }
{
    let LayerText {
        name,
        base,
        trigger,
        packets,
    } = layer;
    let (below, start) = footing(base, &placed.layers, &mut placed.images)?;
    placed.layers.push(PlanLayer {
        name,
        below,
        start,
        trigger,
        packets,
    })?;
    Ok(())
}

/// The lower layer, if any, and the start of a layer after those before it; the file of an image
/// joins the images. `Below` where no earlier layer has the name.
fn footing(
    base: Base,
    before: &[PlanLayer],
    images: &mut Vec<Text>,
) -> Result<(Option<u16>, u16), PlanFault>
    requires few { (length before.now ≤ 64) × (vec_len images.old ≤ 64) }
    ensures done { IfOk result (λ place.
        spec.footing base before.now (length images.old.items) ≡ Some place) }
    ensures images { OnOk result (images.new.items ≡ images.old.items ++ spec.images_of base) }
    ensures fault { IfErr result (λ fault. fault ≢ PlanFault.Memory → (fault ≡ faults.Below)
        × (spec.footing base before.now (length images.old.items) ≡ None)) }
{
    match base {
        Base::Image(file) => {
            let start = images.len() as u16;
            images.push(file)?;
            Ok((None, start))
        }
        Base::Below(name) => match lower(name.as_str(), before) {
            None => Err(PlanFault::Below),
            Some(place) => Ok(place),
        },
    }
}

/// The number of the earlier layer of the name, and its start.
fn lower(name: &str, before: &[PlanLayer]) -> Option<(Option<u16>, u16)>
    requires { length before.now ≤ 64 }
    ensures { result ≡ option_and_then (spec.lower_footing before.now)
        (number_of 0 name.now (map (λ p. p.name) before.now)) }
{
    let number = number_of(0, name, before)?;
    let layer = before.get(usize::from(number))?;
    Some((Some(number), layer.start))
}
