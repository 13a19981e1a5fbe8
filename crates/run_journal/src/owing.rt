//! What must stand directly after an event.

ghost use Rattle.std.specs.Prelude.{◌≡◌};
ghost use Rattle.journal_model.specs.Legal as legal;

use journal_model::Owed;

/// Whether any event may follow.
pub fn owes_nothing(owed: Owed) -> bool
    ensures { result ≡ legal.owes_nothing owed }
{
    match owed {
        Owed::Nothing => true,
        Owed::Dup { .. } | Owed::Keep { .. } | Owed::DropThenKeep { .. } => false,
        Owed::End { .. } | Owed::EndOrPark { .. } => false,
        Owed::EndOrEvict { .. } | Owed::Park { .. } => false,
    }
}

/// Whether `dup` of the layer is owed.
pub fn owes_dup(owed: Owed, k: u16) -> bool
    ensures { result ≡ legal.owes_dup owed k }
{
    match owed {
        Owed::Dup { k: owed } => owed == k,
        Owed::Nothing | Owed::Keep { .. } | Owed::DropThenKeep { .. } => false,
        Owed::End { .. } | Owed::EndOrPark { .. } => false,
        Owed::EndOrEvict { .. } | Owed::Park { .. } => false,
    }
}

/// Whether `keep` of the layer is owed.
pub fn owes_keep(owed: Owed, k: u16) -> bool
    ensures { result ≡ legal.owes_keep owed k }
{
    match owed {
        Owed::Keep { k: owed } => owed == k,
        Owed::Nothing | Owed::Dup { .. } | Owed::DropThenKeep { .. } => false,
        Owed::End { .. } | Owed::EndOrPark { .. } => false,
        Owed::EndOrEvict { .. } | Owed::Park { .. } => false,
    }
}

/// Whether a `drop` is owed.
pub fn owes_drop(owed: Owed) -> bool
    ensures { result ≡ legal.owes_drop owed }
{
    match owed {
        Owed::DropThenKeep { .. } => true,
        Owed::Nothing | Owed::Dup { .. } | Owed::Keep { .. } => false,
        Owed::End { .. } | Owed::EndOrPark { .. } => false,
        Owed::EndOrEvict { .. } | Owed::Park { .. } => false,
    }
}

/// Whether `end` of the context may come, where something is owed.
pub fn owes_end(owed: Owed, c: u32) -> bool
    ensures { result ≡ legal.owes_end owed c }
{
    match owed {
        Owed::End { c: owed } => owed == c,
        Owed::EndOrPark { c: owed } => owed == c,
        Owed::EndOrEvict { c: owed } => owed == c,
        Owed::Nothing | Owed::DropThenKeep { .. } => false,
        Owed::Dup { .. } | Owed::Keep { .. } | Owed::Park { .. } => false,
    }
}

/// Whether an `evict` may come, where something is owed.
pub fn owes_evict(owed: Owed) -> bool
    ensures { result ≡ legal.owes_evict owed }
{
    match owed {
        Owed::EndOrEvict { .. } => true,
        Owed::Nothing | Owed::Dup { .. } | Owed::Keep { .. } => false,
        Owed::End { .. } | Owed::EndOrPark { .. } => false,
        Owed::DropThenKeep { .. } | Owed::Park { .. } => false,
    }
}

/// Whether `park` of the context may come.
pub fn owes_park(owed: Owed, c: u32) -> bool
    ensures { result ≡ legal.owes_park owed c }
{
    match owed {
        Owed::EndOrPark { c: owed } => owed == c,
        Owed::Park { c: owed } => owed == c,
        Owed::Nothing | Owed::DropThenKeep { .. } => false,
        Owed::Dup { .. } | Owed::Keep { .. } => false,
        Owed::End { .. } | Owed::EndOrEvict { .. } => false,
    }
}

/// What is owed after a `drop`.
pub fn owed_after_drop(owed: Owed) -> Owed
    ensures { result ≡ legal.owed_after_drop owed }
{
    match owed {
        Owed::DropThenKeep { k } => Owed::Keep { k },
        Owed::Nothing | Owed::Dup { .. } | Owed::Keep { .. } => Owed::Nothing,
        Owed::End { .. } | Owed::EndOrPark { .. } => Owed::Nothing,
        Owed::EndOrEvict { .. } | Owed::Park { .. } => Owed::Nothing,
    }
}

/// What is owed after an `evict`.
pub fn owed_after_evict(owed: Owed) -> Owed
    ensures { result ≡ legal.owed_after_evict owed }
{
    match owed {
        Owed::EndOrEvict { c } => Owed::Park { c },
        Owed::Nothing | Owed::Dup { .. } | Owed::Keep { .. } => Owed::Nothing,
        Owed::End { .. } | Owed::EndOrPark { .. } => Owed::Nothing,
        Owed::DropThenKeep { .. } | Owed::Park { .. } => Owed::Nothing,
    }
}
