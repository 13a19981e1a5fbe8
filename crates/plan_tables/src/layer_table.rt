//! A layer's table.

ghost use Rattle.std.specs.Prelude.{◌≡◌, IfOk, map, option_map};
ghost use Rattle.std.specs.List.{AllByRecursion};
ghost use Rattle.toml.specs.View.{table_view, view, items_view};
ghost use Rattle.plan_tables.specs.Faults.{Tells};
ghost use Rattle.plan_tables.specs.Layers as spec;
ghost use Rattle.plan_tables.specs.Tables.{layers_fault};
ghost use Rattle.plan_tables.specs.Values.{tables_among};

use crate::fault::PlanFault;
use crate::key::Key;
use crate::members::{check_keys, number, text, text_of, value};
use crate::packets::packets;
use crate::rule::NumberRule;
use plan_model::{Packets, Text};
use std::alloc::Global;
use toml::{Table, Value};

/// The keys of a layer's table.
const LAYER_KEYS: [Key; 5] = [
    Key::Name,
    Key::Image,
    Key::Below,
    Key::Trigger,
    Key::Packets,
];

/// The address at which a layer's run stops, that of an instruction below 2^38.
const TRIGGER: NumberRule = NumberRule {
    key: Key::Trigger,
    lowest: 4_096,
    highest: (1 << 38) - 4,
    step: 4,
    otherwise: None,
};

/// What a layer stands on.
#[derive(Drop)]
pub enum Base {
    /// The image of the file of this name.
    Image(Text),
    /// The layer of this name.
    Below(Text),
}

/// What a layer's table says.
#[derive(Drop)]
pub struct LayerText {
    pub name: Text,
    pub base: Base,
    pub trigger: u64,
    pub packets: Packets,
}

/// What a layer's table says; the first fault of its keys.
#[tactic(auto, unfolding(crate::specs::Layers::layer_fault, crate::specs::Layers::layer_at))]
pub fn layer(alloc: Global, table: &Table) -> Result<LayerText, PlanFault>
    ensures fault { Tells (spec.layer_fault (table_view table.now)) result }
    ensures value { IfOk result (λ layer. layer ≡ spec.layer_at (table_view table.now)) }
    ensures sound { IfOk result (λ layer. spec.IsSound layer) }
{
    check_keys(alloc, table, &LAYER_KEYS)?;
    let name = text(alloc, table, Key::Name)?;
    let base = read_base(alloc, table)?;
    let trigger = number(table, &TRIGGER)?;
    let packets = packets(alloc, table)?;
    Ok(LayerText {
        name,
        base,
        trigger,
        packets,
    })
}

/// What a layer stands on, exactly one of an image and a layer below; `Missing`, `Shape`.
fn read_base(alloc: Global, table: &Table) -> Result<Base, PlanFault>
    ensures fault { Tells (spec.base_fault (table_view table.now)) result }
    ensures value { IfOk result (λ base. base ≡ spec.base_at (table_view table.now)) }
{
    base_of(alloc, value(table, Key::Image), value(table, Key::Below))
}

/// What a layer stands on that has these values at `image` and `below`; `Missing`, `Shape`.
fn base_of(alloc: Global, image: Option<&Value>, below: Option<&Value>) -> Result<Base, PlanFault>
    ensures fault { Tells (spec.base_shape (option_map (λ v. view v.now) image.entry)
        (option_map (λ v. view v.now) below.entry)) result }
    ensures value { IfOk result (λ base. base ≡ spec.base_of
        (option_map (λ v. view v.now) image.entry)
        (option_map (λ v. view v.now) below.entry)) }
{
    match (image, below) {
        (Some(image), None) => Ok(Base::Image(text_of(alloc, image, Key::Image)?)),
        (None, Some(below)) => Ok(Base::Below(text_of(alloc, below, Key::Below)?)),
        (Some(_), Some(_)) => Err(PlanFault::Missing(Key::Image)),
        (None, None) => Err(PlanFault::Missing(Key::Image)),
    }
}

/// The layers of the tables among these values; the first fault of each table in turn.
pub fn layers(alloc: Global, values: &[Value]) -> Result<Vec<LayerText>, PlanFault>
    ensures fault { Tells (layers_fault (tables_among (items_view values.now))) result }
    ensures value { IfOk result (λ all.
        all.items ≡ map spec.layer_at (tables_among (items_view values.now))) }
    ensures sound { IfOk result (λ all. AllByRecursion spec.IsSound all.items) }
{
    let mut all = Vec::with_capacity(alloc, values.len())?;
    'tables: for value in values {
        match value.as_table() {
            None => continue,
            Some(table) => all.push(layer(alloc, table)?)?,
        }
    }
    Ok(all)
}
