//! Laws of runs in parts: however it is cut, it is the one run. A function here does nothing: its
//! contract is the law.

ghost use Rattle.std.specs.Prelude.{◌≡◌, ℕ, ◌&&◌, false, List, Some};
ghost use Rattle.machine_model.specs.Machine.{Machine};
ghost use Rattle.machine_model.specs.Run.{Limits, End, Runs, IsRun, give, is_empty};
ghost use Rattle.machine_model.specs.declared.stop.Stop.{Stop};
ghost use Rattle.machine_run.specs.Continued.{given, stop_of, Continues, Finishes, RunsTo, RunsOn};
ghost use Rattle.machine_run.specs.declared.limits.RunEnd.{RunEnd};

/// A part that goes on where another ended is one part with it.
pub fn parts_join()
    ensures continued { (clock : ℕ) (limits : Limits) (a : ℕ) (m : Machine) (b : ℕ)
        (mid : Machine) (d : ℕ) (after : Machine) → Continues clock limits a m b mid →
        Continues clock limits b mid d after → Continues clock limits a m d after }
    ensures ended { (clock : ℕ) (limits : Limits) (a : ℕ) (m : Machine) (b : ℕ)
        (mid : Machine) (end : RunEnd) (done : ℕ) (after : Machine) →
        Continues clock limits a m b mid → mid.resting ≡ false →
        RunsOn clock limits b mid end done after → RunsTo clock limits a m end done after }
{}

/// Parts from the first instruction to the first stop are the run.
pub fn parts_are_the_run()
    ensures finished { (clock : ℕ) (limits : Limits) (m : Machine) (end : End) →
        Finishes clock limits 0 m end → Runs clock limits m end }
    ensures cut { (clock : ℕ) (limits : Limits) (m : Machine) (packets : List (List ℕ))
        (end : RunEnd) (stop : Stop) (done : ℕ) (after : Machine) →
        (m.resting && is_empty packets) ≡ false → stop_of end ≡ Some stop →
        RunsTo clock limits 0 (give m packets) end done after →
        IsRun clock limits (give m packets)
        (record { stop = stop; number = done; machine = after }) }
    ensures whole { (clock : ℕ) (limits : Limits) (m : Machine) (packets : List (List ℕ))
        (end : RunEnd) (stop : Stop) (done : ℕ) (after : Machine) → stop_of end ≡ Some stop →
        RunsOn clock limits 0 (given m packets) end done after →
        IsRun clock limits (give m packets)
        (record { stop = stop; number = done; machine = after }) }
{}
