//! Laws of machines: what keeps them valid. A function here does nothing: its contract is the
//! law.

ghost use Rattle.std.specs.Prelude.{◌≡◌, ℕ, ◌^◌, ◌<◌, List, All};
ghost use Rattle.image_model.specs.Layout.{Layout, IsLayout};
ghost use Rattle.machine_model.specs.Hypercall.{Done, Rests, Halts, outcome};
ghost use Rattle.machine_model.specs.Instruction.{IsNext, Retires};
ghost use Rattle.machine_model.specs.Loaded.{loaded};
ghost use Rattle.machine_model.specs.Machine.{Machine};
ghost use Rattle.machine_model.specs.Run.{give};
ghost use Rattle.machine_model.specs.Valid.{IsValid, IsPacket, HasBytes};

/// A start whose entry is a word and whose pages hold bytes loads a valid machine.
pub fn loaded_is_valid()
    ensures { (start : Layout) → start.entry < 2 ^ 64 → IsLayout start → HasBytes start →
        IsValid (loaded start) }
{}

/// What an instruction makes of a valid machine is valid.
pub fn instruction_keeps_valid()
    ensures { (m after : Machine) → IsValid m → IsNext m (Retires after) → IsValid after }
{}

/// What a hypercall makes of a valid machine is valid, where the clock shows a word.
pub fn hypercall_keeps_valid()
    ensures done { (m after : Machine) (clock : ℕ) → clock < 2 ^ 64 → IsValid m →
        outcome m clock ≡ Done after → IsValid after }
    ensures rests { (m after : Machine) (clock : ℕ) → clock < 2 ^ 64 → IsValid m →
        outcome m clock ≡ Rests after → IsValid after }
    ensures halts { (m after : Machine) (clock code : ℕ) → clock < 2 ^ 64 → IsValid m →
        outcome m clock ≡ Halts code after → IsValid after }
{}

/// A valid machine that is given packets is valid.
pub fn give_keeps_valid()
    ensures { (m : Machine) (packets : List (List ℕ)) → IsValid m → All IsPacket packets →
        IsValid (give m packets) }
{}
