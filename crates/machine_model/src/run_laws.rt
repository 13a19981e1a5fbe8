//! Laws of runs: what the definitions determine. A function here does nothing: its contract is
//! the law.

ghost use Rattle.std.specs.Prelude.{◌≡◌, ℕ, ◌+◌, ◌^◌, ◌<◌};
ghost use Rattle.machine_model.specs.Machine.{Machine};
ghost use Rattle.machine_model.specs.Run.{Limits, End, Stops, IsTurn, After, IsRun};
ghost use Rattle.machine_model.specs.Valid.{IsValid};
ghost use Rattle.machine_model.specs.declared.stop.Stop.TheVariants.{Exception};

/// A run ends in one way: why it stops, after how many instructions, and the machine
/// then are determined.
pub fn one_end()
    ensures { (clock : ℕ) (limits : Limits) (m : Machine) (a b : End) →
        IsRun clock limits m a → IsRun clock limits m b → a ≡ b }
{}

/// Each run of a valid machine has an end, which is a valid machine.
pub fn each_run_ends()
    ensures { (clock : ℕ) (limits : Limits) (m : Machine) → clock < 2 ^ 64 → IsValid m →
        (end : End) × IsRun clock limits m end × IsValid end.machine }
{}

/// n instructions and then k are n + k instructions, and the other way round.
pub fn instructions_add()
    ensures joined { (clock n k : ℕ) (a b c : Machine) → After clock n a b → After clock k b c →
        After clock (n + k) a c }
    ensures parted { (clock n k : ℕ) (a c : Machine) → After clock (n + k) a c →
        (b : Machine) × After clock n a b × After clock k b c }
{}

/// An exception leaves the machine as it was, and its instruction isn't counted.
pub fn exceptions_keep()
    ensures { (m : Machine) (clock cause pc tval counted : ℕ) (after : Machine) →
        IsTurn m clock (Stops (Exception cause pc tval) counted after) →
        (after ≡ m) × (counted ≡ 0) }
{}
