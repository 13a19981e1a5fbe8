//! All tables of a plan's text, each for itself.

ghost use Rattle.std.specs.Prelude.{◌≡◌, ◌≢◌, Some, Ok, Err, IfErr, IfOk};
ghost use Rattle.toml.specs.View.{table_view};
ghost use Rattle.plan_tables.specs.Tables as spec;

use crate::document::document;
use crate::fault::PlanFault;
use crate::function_table::{FunctionText, functions};
use crate::layer_table::{LayerText, layers};
use crate::top::read_top;
use plan_model::Numbers;
use std::alloc::Global;
use toml::Table;

/// What the tables of a plan's text say.
#[derive(Drop)]
pub struct Tables {
    pub numbers: Numbers,
    pub layers: Vec<LayerText>,
    pub functions: Vec<FunctionText>,
}

/// What the tables of a text say, 1 to 64 layers and functions; or its first fault in this order:
///
/// - `Toml`: the text has more than 1,048,576 bytes, or isn't a document of TOML.
/// - `Unknown`, `Missing`, `Shape`, `Range`: of the top table, then of each layer, then of each
///   function. For one table first the first key in byte order that it may not have, then key by
///   key.
///
/// `Memory` has no cause that could be named.
pub fn read_tables(alloc: Global, bytes: &[u8]) -> Result<Tables, PlanFault>
    ensures tables { IfOk result (λ t. spec.tables bytes.now ≡ Ok (record {
      numbers = t.numbers;
      layers = t.layers.items;
      functions = t.functions.items;
    })) }
    ensures fault { IfErr result (λ fault. fault ≢ PlanFault.Memory →
        spec.tables bytes.now ≡ Err fault) }
    ensures sound { IfOk result (λ t.
        spec.AreSound t.numbers t.layers.items t.functions.items) }
    ensures no_file { result ≢ Err PlanFault.File }
{
    let table = document(alloc, bytes)?;
    tables_of(alloc, &table)
}

/// What the tables of a document say; the first fault of one.
fn tables_of(alloc: Global, table: &Table) -> Result<Tables, PlanFault>
    ensures tables { IfOk result (λ t. spec.tables_of (Some (table_view table.now)) ≡ Ok (record {
      numbers = t.numbers;
      layers = t.layers.items;
      functions = t.functions.items;
    })) }
    ensures fault { IfErr result (λ fault. fault ≢ PlanFault.Memory →
        spec.tables_of (Some (table_view table.now)) ≡ Err fault) }
    ensures sound { IfOk result (λ t.
        spec.AreSound t.numbers t.layers.items t.functions.items) }
{
    let top = read_top(alloc, table)?;
    let layers = layers(alloc, top.layers)?;
    let functions = functions(alloc, top.functions)?;
    Ok(Tables {
        numbers: top.numbers,
        layers,
        functions,
    })
}
