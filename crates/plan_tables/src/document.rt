//! The document of TOML that a plan's text is.

ghost use Rattle.std.specs.Prelude.{◌≡◌, ◌≢◌, Some, None, IfErr, IfOk};
ghost use Rattle.toml.specs.View.{table_view};
ghost use Rattle.plan_tables.specs.Tables as spec;

use crate::fault::PlanFault;
use std::alloc::Global;
use toml::Table;

/// The most bytes of a plan's text.
const LARGEST_TEXT: usize = 1_048_576;

/// The top table of a text. `Toml` comes where the text has more than 1,048,576 bytes, isn't
/// UTF-8, or isn't a document of TOML.
#[tactic(auto, unfolding(crate::specs::Tables::document))]
pub fn document(alloc: Global, bytes: &[u8]) -> Result<Table, PlanFault>
    ensures table { IfOk result (λ table. spec.document bytes.now ≡ Some (table_view table)) }
    ensures toml { result ≡ Err PlanFault.Toml → spec.document bytes.now ≡ None }
    ensures others { IfErr result (λ fault. fault ≢ PlanFault.Memory → fault ≡ PlanFault.Toml) }
{
    if bytes.len() > LARGEST_TEXT {
        return Err(PlanFault::Toml);
    }
    match toml::table_from_slice(alloc, bytes) {
        Ok(table) => Ok(table),
        Err(error) => {
            if error.is_memory() {
                Err(PlanFault::Memory)
            } else {
                Err(PlanFault::Toml)
            }
        }
    }
}
