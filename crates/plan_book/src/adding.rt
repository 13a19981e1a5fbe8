//! A vector grows.

ghost use Rattle.std.specs.Prelude.{◌≡◌, ◌++◌, ◌∷◌, [], OnOk};

use machine_model::Memory;

/// One item more. The only error is want of memory.
pub fn add<X: Drop>(list: &mut Vec<X>, item: X) -> Result<(), Memory>
    ensures { OnOk result (list.new.items ≡ list.old.items ++ item ∷ []) }
{
    if list.push(item).is_err() {
        return Err(Memory);
    }
    Ok(())
}
