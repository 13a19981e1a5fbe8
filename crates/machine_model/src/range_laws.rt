//! Laws of ranges of addresses, which go round at 2^64. A function here does nothing: its
//! contract is the law.

ghost use Rattle.std.specs.Prelude.{◌≡◌, ℕ, ◌+◌, ◌-◌, ◌^◌, ◌<◌, ◌≤◌, Bool, true, false};
ghost use Rattle.std.specs.Prelude.{if◌then◌else◌, MatchOption, Some};
ghost use Rattle.machine_model.specs.Machine.{address, range_passes, least_failing};
ghost use Rattle.machine_model.specs.Machine.{count_below, with_written};
ghost use Rattle.image_model.specs.Pages.{page_of};

/// The address at which a range fails is the least of it that fails; where there is none, each
/// passes. Eight bytes from 2^64 - 4 on, of which none may be accessed, fail at address 0.
pub fn least_failing_is_least()
    ensures found { (test : ℕ → Bool) (at n : ℕ) → MatchOption (least_failing test at n)
        ((i : ℕ) → i < n → test (address at i) ≡ true)
        (λ a. ((i : ℕ) × (i < n) × (a ≡ address at i)) × (test a ≡ false)
        × ((i : ℕ) → i < n → test (address at i) ≡ false → a ≤ address at i)) }
    ensures passes { (test : ℕ → Bool) (at n : ℕ) → MatchOption (least_failing test at n)
        (range_passes test at n ≡ true) (λ a. range_passes test at n ≡ false) }
    ensures round { least_failing (λ a. false) (2 ^ 64 - 4) 8 ≡ Some 0 }
{}

/// A store of one byte more adds its page: the number of written pages below a limit rises by
/// one where the page is below it and wasn't written, and else stays.
pub fn written_pages_add_up()
    ensures none { (written : ℕ → Bool) (at page : ℕ) →
        with_written at 0 written page ≡ written page }
    ensures more { (written : ℕ → Bool) (at n limit : ℕ) → page_of (address at n) < limit →
        count_below (with_written at (n + 1) written) limit
        ≡ (if with_written at n written (page_of (address at n))
        then count_below (with_written at n written) limit
        else count_below (with_written at n written) limit + 1) }
{}
