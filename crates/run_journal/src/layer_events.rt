//! Events of layers and frames: layers are built, kept and dropped, and frames come back.

ghost use Rattle.std.specs.Prelude.{◌≡◌, ◌+◌, ◌≤◌, ◌&&◌, ◌||◌, true};
ghost use Rattle.journal_model.specs.Legal as legal;
ghost use Rattle.journal_model.specs.State as model;
ghost use Rattle.journal_model.specs.declared.event.Event.TheVariants.{Built, Keep, Dup, Drop};
ghost use Rattle.journal_model.specs.declared.event.Event.TheVariants.{Back};
ghost use Rattle.run_journal.specs.Steps.{Steps};

use crate::current::Current;
use crate::owing::{owed_after_drop, owes_drop, owes_dup, owes_keep};
use journal_model::{Owed, Sizes};
use machine_model::Memory;

/// The most frames that may be free.
const MOST_FREE: u32 = 131_072;

/// Whether a layer is this one.
fn is_layer(layer: Option<u16>, k: u16) -> bool
    ensures { result ≡ model.is_just layer k }
{
    match layer {
        None => false,
        Some(layer) => layer == k,
    }
}

/// Whether a number is that of the layer.
fn is_number_of(number: Option<u32>, k: u16) -> bool
    ensures { result ≡ model.is_just number k }
{
    match number {
        None => false,
        Some(number) => number == u32::from(k),
    }
}

impl Current {
    /// Whether context `c` may be captured as layer `k`.
    #[tactic(auto, unfolding(journal_model::specs::Legal::may_build))]
    fn may_build(&self, sizes: &Sizes, c: u32, k: u16) -> bool
        ensures { result ≡ legal.may_build sizes.now self.now c k }
    {
        self.owes_nothing() && self.is_open(self.served_by(c)) && is_layer(self.above(sizes, c), k)
    }

    /// What is owed after layer `k` was built.
    #[tactic(auto, unfolding(journal_model::specs::Legal::owed_after_built))]
    fn owed_after_built(&self, sizes: &Sizes, k: u16) -> Owed
        ensures { result ≡ legal.owed_after_built sizes.now self.now.kept k }
    {
        if self.kept().contains(u32::from(k)) {
            Owed::Dup { k }
        } else if self.kept().is_full(sizes.layers) {
            Owed::DropThenKeep { k }
        } else {
            Owed::Keep { k }
        }
    }

    /// `built c k d`. The number of written pages isn't looked at.
    #[tactic(auto, unfolding(journal_model::specs::Legal::after_built))]
    pub fn built(&mut self, sizes: &Sizes, c: u32, k: u16, d: u32) -> bool
        ensures { Steps (Ok result) self.old self.new
            (legal.after sizes.now self.old (Built c k d)) }
    {
        let _written = d;
        if !self.may_build(sizes, c, k) {
            return false;
        }
        let owed = self.owed_after_built(sizes, k);
        self.set_layer(c, k);
        self.set_owed(owed);
        true
    }

    /// `keep k`.
    #[tactic(auto, unfolding(journal_model::specs::Legal::after_keep))]
    pub fn keep(&mut self, sizes: &Sizes, k: u16) -> Result<bool, Memory>
        ensures { Steps result self.old self.new (legal.after sizes.now self.old (Keep k)) }
    {
        if !owes_keep(self.owed(), k) {
            return Ok(false);
        }
        self.put_kept(k)?;
        self.set_owed(Owed::Nothing);
        Ok(true)
    }

    /// `dup k`.
    #[tactic(auto, unfolding(journal_model::specs::Legal::after_dup))]
    pub fn dup(&mut self, sizes: &Sizes, k: u16) -> bool
        ensures { Steps (Ok result) self.old self.new (legal.after sizes.now self.old (Dup k)) }
    {
        if !owes_dup(self.owed(), k) {
            return false;
        }
        self.set_owed(Owed::Nothing);
        true
    }

    /// Whether a kept layer may go, where it is the last.
    fn may_drop_one(&self, sizes: &Sizes) -> bool
        ensures { result ≡ (legal.owes_drop self.now.owed || (legal.owes_nothing self.now.owed
            && legal.is_short sizes.now self.now && legal.is_empty self.now.idle)) }
    {
        owes_drop(self.owed())
            || self.owes_nothing() && self.is_short(sizes) && self.idle().is_empty()
    }

    /// Whether layer `j` may go.
    #[tactic(auto, unfolding(journal_model::specs::Legal::may_drop))]
    fn may_drop(&self, sizes: &Sizes, j: u16) -> bool
        ensures { result ≡ legal.may_drop sizes.now self.now j }
    {
        self.may_drop_one(sizes) && is_number_of(self.kept().last(), j)
    }

    /// `drop j`.
    #[tactic(auto, unfolding(journal_model::specs::Legal::after_drop))]
    pub fn drop_layer(&mut self, sizes: &Sizes, j: u16) -> bool
        ensures { Steps (Ok result) self.old self.new (legal.after sizes.now self.old (Drop j)) }
    {
        if !self.may_drop(sizes, j) {
            return false;
        }
        let owed = owed_after_drop(self.owed());
        self.remove_kept(j);
        self.set_owed(owed);
        true
    }

    /// Whether `n` frames may come back.
    #[tactic(auto, unfolding(journal_model::specs::Legal::may_go_back))]
    fn may_go_back(&self, sizes: &Sizes, n: u32) -> bool
        ensures value { result ≡ legal.may_go_back sizes.now self.now n }
        ensures frames { result ≡ true → self.now.free + n ≤ legal.most_free }
    {
        self.owes_nothing()
            && sizes.root == 1
            && n >= 1
            && u64::from(self.free()) + u64::from(n) <= u64::from(MOST_FREE)
    }

    /// `back n`.
    #[tactic(auto, unfolding(journal_model::specs::Legal::after_back))]
    pub fn back(&mut self, sizes: &Sizes, n: u32) -> bool
        ensures { Steps (Ok result) self.old self.new (legal.after sizes.now self.old (Back n)) }
    {
        if !self.may_go_back(sizes, n) {
            return false;
        }
        let free = self.free() + n;
        self.set_free(free);
        true
    }
}
