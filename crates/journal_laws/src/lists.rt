//! The two caches and a journal's plain lists: what a call does to the entries it does to their
//! keys.

ghost use Rattle.std.specs.Prelude.{◌≡◌, ◌-◌, ◌<◌, ◌≤◌, ℕ, List, ◌∷◌, Some, length, take};
ghost use Rattle.std.specs.Prelude.{nat_eq, option_map, is_some};
ghost use Rattle.std.specs.List.{IsDistinct};
ghost use Rattle.std.specs.Map.{keys_of, lookup, remove_entry};
ghost use Rattle.lru.specs.LruCache.{promoted};
ghost use Rattle.cache_lists.specs.Recent as recent;
ghost use Rattle.cache_lists.specs.Recent.{Recent};
ghost use Rattle.cache_lists.specs.Idle.{first_of};
ghost use Rattle.cache_lists.specs.declared.idle_list.IdleContext.{IdleContext as Idle};
ghost use Rattle.journal_model.specs.State.{without, contains, last_of, is_full};
ghost use Rattle.journal_model.specs.Legal.{to_front, first_for};
ghost use Rattle.journal_model.specs.declared.state.ContextState.{ContextState};
ghost use Rattle.journal_laws.specs.Lists.{AreFor};

/// What a call does to the kept layers and their slots, it does to the list of their numbers: one
/// is taken out, brought to the front, put there, looked up, or is the last.
pub fn layers_are_listed()
    ensures removed { (k : ℕ) (es : List (ℕ × ℕ)) →
        keys_of (remove_entry (nat_eq k) es) ≡ without k (keys_of es) }
    ensures touched { (k slot : ℕ) (es : List (ℕ × ℕ)) → lookup (nat_eq k) es ≡ Some slot →
        keys_of (promoted (nat_eq k) es) ≡ to_front (Some k) (keys_of es) }
    ensures put { (k slot : ℕ) (list : Recent ℕ ℕ) →
        keys_of (recent.with_first k slot list).entries
        ≡ k ∷ take (list.room - 1) (keys_of list.entries) }
    ensures last { (list : Recent ℕ ℕ) →
        option_map (λ e. e.0) (recent.last_of list) ≡ last_of (keys_of list.entries) }
    ensures full { (list : Recent ℕ ℕ) → length list.entries ≤ list.room →
        recent.is_full list ≡ is_full list.room (keys_of list.entries) }
    ensures found { (k : ℕ) (es : List (ℕ × ℕ)) →
        is_some (lookup (nat_eq k) es) ≡ contains k (keys_of es) }
{}

/// What a call does to the idle contexts, it does to the list of their numbers; and the first of a
/// function is the journal's, where each entry has its context's function.
pub fn idle_contexts_are_keyed()
    ensures removed { (c : ℕ) (es : List (ℕ × Idle)) →
        keys_of (remove_entry (nat_eq c) es) ≡ without c (keys_of es) }
    ensures put { (c : ℕ) (entry : Idle) (list : Recent ℕ Idle) →
        keys_of (recent.with_first c entry list).entries
        ≡ c ∷ take (list.room - 1) (keys_of list.entries) }
    ensures last { (list : Recent ℕ Idle) →
        option_map (λ e. e.0) (recent.last_of list) ≡ last_of (keys_of list.entries) }
    ensures full { (list : Recent ℕ Idle) → length list.entries ≤ list.room →
        recent.is_full list ≡ is_full list.room (keys_of list.entries) }
    ensures found { (c : ℕ) (es : List (ℕ × Idle)) →
        is_some (lookup (nat_eq c) es) ≡ contains c (keys_of es) }
    ensures first { (f : ℕ) (contexts : List ContextState) (es : List (ℕ × Idle)) →
        AreFor contexts es → first_of f es ≡ first_for f contexts (keys_of es) }
{}

/// Of the numbers of a full list a further one pushes out the last, and of one with room none.
pub fn a_full_list_loses_its_last()
    ensures full { (room j : ℕ) (numbers : List ℕ) → length numbers ≡ room →
        IsDistinct nat_eq numbers → last_of numbers ≡ Some j →
        take (room - 1) numbers ≡ without j numbers }
    ensures room { (room : ℕ) (numbers : List ℕ) → length numbers < room →
        take (room - 1) numbers ≡ numbers }
{}
