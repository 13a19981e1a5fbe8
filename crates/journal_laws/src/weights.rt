//! Sums over contexts.

ghost use Rattle.std.specs.Prelude.{◌≡◌, ◌+◌, ◌≤◌, ℕ, List, ◌++◌, ◌∷◌, [], Some, length};
ghost use Rattle.journal_model.specs.Legal.{with_numbered};
ghost use Rattle.journal_model.specs.State.{numbered};
ghost use Rattle.journal_model.specs.declared.state.ContextState.{ContextState};
ghost use Rattle.journal_laws.specs.Sums.{sum_from};

/// Where one item of a list is another, the sum is greater by the difference of the two; where one
/// is added, what is said of it is added; a sum of the same numbers is the same, and one of no
/// greater numbers no greater.
pub fn sums_change_by_one_item()
    ensures changed { (f : ℕ → ContextState → ℕ) (n : ℕ) (xs : List ContextState)
        (x y : ContextState) →
        numbered xs n ≡ Some y →
        sum_from f 1 (with_numbered n x xs) + f n y ≡ sum_from f 1 xs + f n x }
    ensures added { (f : ℕ → ContextState → ℕ) (xs : List ContextState) (x : ContextState) →
        sum_from f 1 (xs ++ x ∷ []) ≡ sum_from f 1 xs + f (length xs + 1) x }
    ensures most { (f g : ℕ → ContextState → ℕ) (xs : List ContextState) →
        ((n : ℕ) (x : ContextState) → numbered xs n ≡ Some x → f n x ≤ g n x) →
        sum_from f 1 xs ≤ sum_from g 1 xs }
    ensures same { (f g : ℕ → ContextState → ℕ) (xs : List ContextState) →
        ((n : ℕ) (x : ContextState) → numbered xs n ≡ Some x → f n x ≡ g n x) →
        sum_from f 1 xs ≡ sum_from g 1 xs }
{}
