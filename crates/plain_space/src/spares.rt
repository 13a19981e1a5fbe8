//! Spares, of which there are none.

use space_api::Held;

/// The spares of spaces over copied pages: none, with stake and span 0.
#[derive(Drop)]
pub struct PlainSpares;

impl Held for PlainSpares {
    ghost use Rattle.std.specs.Prelude.{None};

    ghost stake = { λ _. 0 };

    ghost span = { λ _. 0 };

    ghost pin = { λ _. None };
}
