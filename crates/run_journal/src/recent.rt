//! Numbers, most recent first.

ghost use Rattle.std.specs.Prelude.{◌≡◌, ℕ, ◌==◌, ◌∷◌, [], OnOk, OnErr};
ghost use Rattle.std.specs.List.{position_or_len};
ghost use Rattle.journal_model.specs.Legal as legal;
ghost use Rattle.journal_model.specs.State as model;

use machine_model::Memory;
use std::alloc::Global;
use std::marker::Model;

/// Numbers of contexts or layers, most recent first. Contracts see them as a list.
#[derive(Drop)]
pub struct Recent {
    numbers: Vec<u32>,
}

impl Model for Recent {
    ghost use Rattle.std.specs.Prelude.{List, ℕ};

    ghost Value = { List ℕ };

    ghost view = { λ r. r.numbers.items };
}

/// The place of a number, and the length where it isn't there.
#[tactic(auto, using(std::proofs::lemmas::List::Sums::position_or_len_is))]
fn place_of(number: u32, numbers: &[u32]) -> usize
    ensures { result ≡ position_or_len (λ (other : ℕ). other == number) numbers.now }
{
    for (i, other) in numbers.iter().enumerate() {
        if *other == number {
            return i;
        }
    }
    numbers.len()
}

impl Recent {
    /// No numbers.
    pub fn new(alloc: Global) -> Recent
        ensures { result ≡ [] }
    {
        Recent {
            numbers: Vec::new(alloc),
        }
    }

    /// The numbers, most recent first.
    pub fn as_slice(&self) -> &[u32]
        ensures { result.now ≡ self.now }
    {
        &self.numbers
    }

    /// Whether there are none.
    pub fn is_empty(&self) -> bool
        ensures { result ≡ legal.is_empty self.now }
    {
        match self.numbers.as_slice() {
            [] => true,
            [_, ..] => false,
        }
    }

    /// Whether the number is among them.
    #[tactic(auto, unfolding(journal_model::specs::State::contains))]
    pub fn contains(&self, number: u32) -> bool
        ensures { result ≡ model.contains number self.now }
    {
        self.numbers.contains(&number)
    }

    /// The least recent, if there is one.
    pub fn last(&self) -> Option<u32>
        ensures { result ≡ model.last_of self.now }
    {
        self.numbers.last().copied()
    }

    /// Whether there is no room for one more.
    pub fn is_full(&self, room: u32) -> bool
        ensures { result ≡ model.is_full room self.now }
    {
        room as usize <= self.numbers.len()
    }

    /// Puts a number first. Where memory ran out, all is as before.
    pub fn put_first(&mut self, number: u32) -> Result<(), Memory>
        ensures ok { OnOk result (self.new ≡ number ∷ self.old) }
        ensures err { OnErr result (self.new ≡ self.old) }
    {
        if self.numbers.insert(0, number).is_err() {
            return Err(Memory);
        }
        Ok(())
    }

    /// Puts a number first, and takes out where it stood before, if it did. Where memory ran out,
    /// all is as before.
    #[tactic(auto, using(crate::proofs::Lists::without_is, crate::proofs::Lists::without_absent))]
    pub fn bring_to_front(&mut self, number: u32) -> Result<(), Memory>
        ensures ok { OnOk result (self.new ≡ number ∷ model.without number self.old) }
        ensures err { OnErr result (self.new ≡ self.old) }
    {
        let place = place_of(number, &self.numbers);
        let stands = place < self.numbers.len();
        self.put_first(number)?;
        if stands {
            let _number = self.numbers.remove(place + 1);
        }
        Ok(())
    }

    /// Takes a number out.
    #[tactic(auto, using(crate::proofs::Lists::without_is, crate::proofs::Lists::without_absent))]
    pub fn remove(&mut self, number: u32)
        ensures { self.new ≡ model.without number self.old }
    {
        let place = place_of(number, &self.numbers);
        if place < self.numbers.len() {
            let _number = self.numbers.remove(place);
        }
    }
}
