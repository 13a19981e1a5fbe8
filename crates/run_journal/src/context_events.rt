//! Events of contexts: they are taken, deployed, refilled, evicted, parked and ended.

ghost use Rattle.std.specs.Prelude.{◌≡◌, ◌-◌, ◌≤◌, ◌==◌, ◌&&◌, true, length, Some, OnOk};
ghost use Rattle.std.specs.Prelude.{◌++◌, ◌∷◌, [], OnErr};
ghost use Rattle.journal_model.specs.Legal as legal;
ghost use Rattle.journal_model.specs.State as model;
ghost use Rattle.journal_model.specs.declared.event.Event.TheVariants.{Take, Deploy, Refill};
ghost use Rattle.journal_model.specs.declared.event.Event.TheVariants.{Evict, Park, End};
ghost use Rattle.run_journal.specs.Steps.{Steps};

use crate::current::Current;
use crate::owing::{owed_after_evict, owes_end, owes_evict, owes_park};
use crate::stacks::{deployed_how, highest_kept, same_place, stack_of};
use journal_model::{ContextState, Duty, How, Owed, Sizes};
use machine_model::Memory;

/// The most spare frames that a context holds.
const MOST_SPARES: u32 = 16;

/// Whether the option is this number.
fn is_just(option: Option<u32>, number: u32) -> bool
    ensures { result ≡ model.is_just option number }
{
    match option {
        None => false,
        Some(other) => other == number,
    }
}

impl Current {
    /// Whether the idle context `c` may serve request `i`.
    #[tactic(auto, unfolding(journal_model::specs::Legal::may_take))]
    fn may_take(&self, c: u32, i: u32) -> bool
        ensures { result ≡ legal.may_take self.now c i }
    {
        self.owes_nothing() && self.is_waiting(i) && is_just(self.first_idle(i), c)
    }

    /// `take c i`.
    #[tactic(auto, unfolding(journal_model::specs::Legal::after_take))]
    pub fn take(&mut self, sizes: &Sizes, c: u32, i: u32) -> bool
        ensures { Steps (Ok result) self.old self.new (legal.after sizes.now self.old (Take c i)) }
    {
        if !self.may_take(c, i) {
            return false;
        }
        let used = self.answered_by(c);
        self.remove_idle(c);
        self.set_service(i, How::Hot, c, used);
        self.set_duty(c, Duty::Serves { i });
        true
    }

    /// Whether `k` is the highest kept layer of the function of request `i`, or the image where
    /// none is kept.
    fn is_highest(&self, sizes: &Sizes, k: Option<u16>, i: u32) -> bool
        ensures { result ≡ legal.same_place (model.highest_kept self.now.kept
            (model.stack_of sizes.now (legal.request_function self.now i))) k }
    {
        let stack = stack_of(sizes, self.request_function(i));
        same_place(highest_kept(self.kept(), stack), k)
    }

    /// Whether context `c` may be deployed for request `i`.
    #[tactic(auto, unfolding(journal_model::specs::Legal::may_deploy))]
    fn may_deploy(&self, sizes: &Sizes, c: u32, k: Option<u16>, i: u32, n: u32) -> bool
        ensures value { result ≡ legal.may_deploy sizes.now self.now c k i n }
        ensures frames { result ≡ true → n ≤ self.now.free }
    {
        self.owes_nothing()
            && self.is_waiting(i)
            && self.first_idle(i).is_none()
            && self.is_next_context(c)
            && self.is_highest(sizes, k, i)
            && n == sizes.root
            && n <= self.free()
    }

    /// The layer of a deploy, if there is one, goes to the front. Where memory ran out, all is as
    /// before.
    fn use_layer(&mut self, k: Option<u16>) -> Result<(), Memory>
        ensures used { OnOk result (self.new ≡ record self.old {
          kept = legal.to_front k self.old.kept;
        }) }
        ensures memory { OnErr result (self.new ≡ self.old) }
    {
        match k {
            None => Ok(()),
            Some(k) => self.bring_to_front(k),
        }
    }

    /// Adds a context that was deployed from a layer or the image. Where memory ran out, all is as
    /// before.
    fn add_deployed(&mut self, context: ContextState, k: Option<u16>) -> Result<(), Memory>
        ensures added { OnOk result (self.new ≡ record self.old {
          kept = legal.to_front k self.old.kept;
          contexts = self.old.contexts ++ context ∷ [];
        }) }
        ensures memory { OnErr result (self.new ≡ self.old) }
    {
        self.add_context(context)?;
        if self.use_layer(k).is_err() {
            self.remove_context();
            return Err(Memory);
        }
        Ok(())
    }

    /// `deploy c k i n`.
    #[tactic(auto, unfolding(journal_model::specs::Legal::after_deploy))]
    pub fn deploy(
        &mut self,
        sizes: &Sizes,
        c: u32,
        k: Option<u16>,
        i: u32,
        n: u32,
    ) -> Result<bool, Memory>
        ensures { Steps result self.old self.new
            (legal.after sizes.now self.old (Deploy c k i n)) }
    {
        if !self.may_deploy(sizes, c, k, i, n) {
            return Ok(false);
        }
        let function = self.request_function(i);
        let how = deployed_how(stack_of(sizes, function), k);
        let free = self.free() - n;
        let context = ContextState {
            function,
            layer: k,
            used: 0,
            duty: Duty::Serves { i },
        };
        self.add_deployed(context, k)?;
        self.set_service(i, how, c, 0);
        self.set_free(free);
        Ok(true)
    }

    /// Whether context `c` may take `n` spare frames while it holds `h`.
    #[tactic(auto, unfolding(journal_model::specs::Legal::may_refill))]
    fn may_refill(&self, sizes: &Sizes, c: u32, h: u32, n: u32) -> bool
        ensures value { result ≡ legal.may_refill sizes.now self.now c h n }
        ensures frames { result ≡ true → n ≤ self.now.free }
    {
        self.owes_nothing()
            && sizes.root == 1
            && self.is_open(self.served_by(c))
            && h < MOST_SPARES
            && n == (MOST_SPARES - h).min(self.free())
            && n >= 1
    }

    /// `refill c h n`.
    #[tactic(auto, unfolding(journal_model::specs::Legal::after_refill))]
    pub fn refill(&mut self, sizes: &Sizes, c: u32, h: u32, n: u32) -> bool
        ensures { Steps (Ok result) self.old self.new
            (legal.after sizes.now self.old (Refill c h n)) }
    {
        if !self.may_refill(sizes, c, h, n) {
            return false;
        }
        let free = self.free() - n;
        self.set_free(free);
        true
    }

    /// Whether the idle context `e` may be over.
    #[tactic(auto, unfolding(journal_model::specs::Legal::may_evict))]
    fn may_evict(&self, sizes: &Sizes, e: u32) -> bool
        ensures { result ≡ legal.may_evict sizes.now self.now e }
    {
        (owes_evict(self.owed()) || self.owes_nothing() && self.is_short(sizes))
            && is_just(self.idle().last(), e)
    }

    /// `evict e`.
    #[tactic(auto, unfolding(journal_model::specs::Legal::after_evict))]
    pub fn evict(&mut self, sizes: &Sizes, e: u32) -> bool
        ensures { Steps (Ok result) self.old self.new (legal.after sizes.now self.old (Evict e)) }
    {
        if !self.may_evict(sizes, e) {
            return false;
        }
        let owed = owed_after_evict(self.owed());
        self.remove_idle(e);
        self.set_duty(e, Duty::Over);
        self.set_owed(owed);
        true
    }

    /// `park c`.
    #[tactic(auto, unfolding(journal_model::specs::Legal::after_park))]
    pub fn park(&mut self, sizes: &Sizes, c: u32) -> Result<bool, Memory>
        ensures { Steps result self.old self.new (legal.after sizes.now self.old (Park c)) }
    {
        if !owes_park(self.owed(), c) {
            return Ok(false);
        }
        self.put_idle(c)?;
        self.set_duty(c, Duty::Idle);
        self.set_owed(Owed::Nothing);
        Ok(true)
    }

    /// Whether context `c` may be over.
    #[tactic(auto, unfolding(journal_model::specs::Legal::may_end))]
    fn may_end(&self, c: u32) -> bool
        ensures { result ≡ legal.may_end self.now c }
    {
        owes_end(self.owed(), c) || self.owes_nothing() && self.is_failed(self.served_by(c))
    }

    /// `end c`.
    #[tactic(auto, unfolding(journal_model::specs::Legal::after_end))]
    pub fn end(&mut self, sizes: &Sizes, c: u32) -> bool
        ensures { Steps (Ok result) self.old self.new (legal.after sizes.now self.old (End c)) }
    {
        if !self.may_end(c) {
            return false;
        }
        self.set_duty(c, Duty::Over);
        self.set_owed(Owed::Nothing);
        true
    }
}
