//! The functions of a plan.

use space_api::Text;

/// A function: what is called by its name, and runs on its layer.
#[derive(Debug, Drop)]
pub struct PlanFunction {
    /// Its name.
    pub name: Text,
    /// The number of its layer.
    pub layer: u16,
}
