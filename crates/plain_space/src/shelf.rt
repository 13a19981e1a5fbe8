//! A shelf that gives no frames.

ghost use Rattle.std.specs.Prelude.{◌≡◌, ◌≤◌};
ghost use Rattle.space_api.specs.Holding.{free_limit};

use space_api::{Held, Stock};

/// A number of free frames, which stays as it is: copied pages take none. Its stake and the
/// whole of all stakes are 0, and it notes nothing.
#[derive(Drop)]
pub struct PlainShelf {
    free: u32,
    ghost few: { free ≤ free_limit },
}

impl PlainShelf {
    ghost use Rattle.plain_space.specs.PlainShelf.{stocked, untouched};

    /// A shelf with so many free frames, at most 131,072.
    pub fn new(free: u32) -> PlainShelf
        requires { free ≤ free_limit }
        ensures { stocked result ≡ untouched free }
    {
        PlainShelf { free }
    }
}

impl Held for PlainShelf {
    ghost use Rattle.std.specs.Prelude.{None};

    ghost stake = { λ _. 0 };

    ghost span = { λ _. 0 };

    ghost pin = { λ _. None };
}

impl Stock for PlainShelf {
    ghost use Rattle.std.specs.Prelude.{refl};
    ghost use Rattle.plain_space.specs.PlainShelf.{stocked};

    ghost stocked = { stocked };

    fn free(&self) -> u32 {
        self.free
    }

    ghost stake_is = { λ _. refl };

    ghost free_is_few = { λ shelf. shelf.few };

    ghost shelf_is_free = { λ _. refl };
}
