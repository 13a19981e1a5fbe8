//! A function's table.

ghost use Rattle.std.specs.Prelude.{◌≡◌, IfOk, map};
ghost use Rattle.toml.specs.View.{table_view, items_view};
ghost use Rattle.plan_tables.specs.Faults.{Tells};
ghost use Rattle.plan_tables.specs.Functions as spec;
ghost use Rattle.plan_tables.specs.Tables.{functions_fault};
ghost use Rattle.plan_tables.specs.Values.{tables_among};

use crate::fault::PlanFault;
use crate::key::Key;
use crate::members::{check_keys, text};
use plan_model::Text;
use std::alloc::Global;
use toml::{Table, Value};

/// The keys of a function's table.
const FUNCTION_KEYS: [Key; 2] = [Key::Name, Key::Layer];

/// What a function's table says.
#[derive(Drop)]
pub struct FunctionText {
    pub name: Text,
    /// The name of its layer.
    pub layer: Text,
}

/// What a function's table says; the first fault of its keys.
#[tactic(auto, unfolding(crate::specs::Functions::function_fault, crate::specs::Functions::texts))]
pub fn function(alloc: Global, table: &Table) -> Result<FunctionText, PlanFault>
    ensures fault { Tells (spec.function_fault (table_view table.now)) result }
    ensures value { IfOk result (λ function. function ≡ spec.texts (table_view table.now)) }
{
    check_keys(alloc, table, &FUNCTION_KEYS)?;
    let name = text(alloc, table, Key::Name)?;
    let layer = text(alloc, table, Key::Layer)?;
    Ok(FunctionText { name, layer })
}

/// The functions of the tables among these values; the first fault of each table in turn.
pub fn functions(alloc: Global, values: &[Value]) -> Result<Vec<FunctionText>, PlanFault>
    ensures fault { Tells (functions_fault (tables_among (items_view values.now))) result }
    ensures value { IfOk result (λ all.
        all.items ≡ map spec.texts (tables_among (items_view values.now))) }
{
    let mut all = Vec::with_capacity(alloc, values.len())?;
    'tables: for value in values {
        match value.as_table() {
            None => continue,
            Some(table) => all.push(function(alloc, table)?)?,
        }
    }
    Ok(all)
}
