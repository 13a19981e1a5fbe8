//! Worked entries: words whose bits were set by hand after Sv39.

ghost use Rattle.std.specs.Prelude.{◌≡◌};
ghost use Rattle.frame_model.specs.Words.{target, private_bit, IsEntryAt};

/// Entries of leaf tables, of frame 5: 0x15d7 is private, readable and writable, 0x14db is shared,
/// readable and executable. 0x14df would be shared and writable, 0x14d1 permits nothing.
fn leaf_entries()
    ensures private { IsEntryAt 1 5591 × (target 5591 ≡ 5) × (private_bit 5591 ≡ 1) }
    ensures shared { IsEntryAt 1 5339 × (target 5339 ≡ 5) × (private_bit 5339 ≡ 0) }
    ensures written_shared { IsEntryAt 1 5343 → ⊥ }
    ensures nothing { IsEntryAt 1 5329 → ⊥ }
    ensures pointer { IsEntryAt 1 7425 → ⊥ }
{}

/// Entries of mid tables and roots, to frame 7: 0x1d01 is private, 0x1c01 is shared.
fn pointers()
    ensures private { IsEntryAt 2 7425 × (target 7425 ≡ 7) × (private_bit 7425 ≡ 1) }
    ensures shared { IsEntryAt 3 7169 × (target 7169 ≡ 7) × (private_bit 7169 ≡ 0) }
    ensures leaf { IsEntryAt 2 5591 → ⊥ }
{}

#[test]
fn entries_are_those_worked_by_hand() {
    leaf_entries();
    pointers();
}
