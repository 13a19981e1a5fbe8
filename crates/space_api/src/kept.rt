//! What contexts and layers tell to whoever keeps them.

ghost use Rattle.std.specs.Prelude.{◌≡◌, ℕ, ◌+◌, ◌<◌, ◌≤◌, Bool, true, false, None, Option};
ghost use Rattle.std.specs.Prelude.{IfOk, OnOk, OnErr, is_none};
ghost use Rattle.space_api.specs.Holding.{holding_of, first_stake, if_taken, Gave, IfTaken};
ghost use Rattle.space_api.specs.Holding.{MayPin, MayUnpin, WasPinned, WasUnpinned};
ghost use Rattle.space_api.specs.Stores.{spaced_of, frozen, RefusesRightly};
ghost use Rattle.space_api.specs.Told.{ParkedContext, KeptLayer};

use crate::given::Given;
use crate::held::Held;
use crate::refused::Refused;
use crate::store::Store;
use machine_model::Hart;
use std::alloc::Global;

/// What tells more of itself than what it holds.
pub trait Tells {
    /// The two tell the same.
    ghost tells_same: { Self → Self → Type 0 };

    /// Whether it is an opened image.
    ghost marked: { Self → Bool };
}

/// A context that waits for its next request.
pub trait Parked: Held + Tells {
    /// What it tells of itself.
    ghost parked: { Self → ParkedContext };

    /// Its number.
    fn id(&self) -> u32
        ensures { result ≡ (parked self.now).id };

    /// The number of its function.
    fn function(&self) -> u16
        ensures { result ≡ (parked self.now).function };

    /// The number of the layer that it stands on, or none where it stands on an image.
    fn layer(&self) -> Option<u16>
        ensures { result ≡ (parked self.now).layer };

    /// The packets and clocks of the requests that it has served, the oldest first.
    fn served(&self) -> &[Given]
        ensures { result.now ≡ (parked self.now).served };

    ghost parked_is_itself: { (a : Self) → Self.tells_same a a };

    ghost same_parked_joins: { (a b c : Self) → Self.tells_same a b → Self.tells_same b c →
        Self.tells_same a c };

    ghost same_is_parked: { (a b : Self) → Self.tells_same a b → parked a ≡ parked b };

    ghost parked_is_unmarked: { (a : Self) → Self.marked a ≡ false };
}

/// A layer, or an image, that contexts begin with.
pub trait Kept: Held + Tells {
    /// What it tells of itself.
    ghost kept: { Self → KeptLayer };

    /// Its number, or none where it is an image.
    fn number(&self) -> Option<u16>
        ensures { result ≡ (kept self.now).number };

    /// The number of the start at the bottom of its stack.
    fn start(&self) -> u16
        ensures { result ≡ (kept self.now).start };

    /// The hart that what is deployed from it begins with.
    fn hart(&self) -> &Hart
        ensures { result.now ≡ (kept self.now).hart };

    ghost kept_is_itself: { (a : Self) → Self.tells_same a a };

    ghost same_kept_joins: { (a b c : Self) → Self.tells_same a b → Self.tells_same b c →
        Self.tells_same a c };

    ghost same_is_kept: { (a b : Self) → Self.tells_same a b → kept a ≡ kept b };

    ghost marked_is_kept: { (a : Self) → Self.marked a ≡ (kept a).memory.image };
}

/// A layer whose memory is of a store.
pub trait KeptIn<T: Store>: Kept {
    /// A space with the layer's bytes, as `Store::deploy` makes it.
    fn deploy_on(
        &mut self,
        alloc: Global,
        store: &T,
        shelf: &mut T::Shelf,
    ) -> Result<T::Space, Refused>
        requires loose { Self.pin self.old ≡ None }
        requires stake { T.Space.takes_frames ≡ true →
            first_stake < (T.Shelf.stocked shelf.old).stake }
        ensures space { IfOk result (λ space. spaced_of (T.Space.flat space)
            (T.Space.spares space) (T.Space.finished space)
            ≡ spaced_of (frozen (Self.kept self.old).memory.flat) 0 false) }
        ensures holds { IfOk result (λ space.
            (T.Space.stake space ≡ if_taken T.Space.takes_frames first_stake)
            × (T.Space.span space
            ≤ Self.span self.old + if_taken T.Space.takes_frames 1)
            × (T.Space.pin space ≡ None)) }
        ensures same { Self.tells_same self.old self.new }
        ensures holding { holding_of (Self.stake self.new) (Self.span self.new)
            (Self.pin self.new) ≡ holding_of (Self.stake self.old) (Self.span self.old)
            (Self.pin self.old) }
        ensures gave { OnOk result (Gave T.Space.takes_frames 1 first_stake
            (T.Shelf.stocked shelf.old) (T.Shelf.stocked shelf.new)) }
        ensures unchanged { OnErr result
            (T.Shelf.stocked shelf.new ≡ T.Shelf.stocked shelf.old) }
        ensures refused { RefusesRightly T.Space.takes_frames T.Space.lacks_memory
            (T.Shelf.stocked shelf.old).free 1 result };
}

/// A context or a layer that is pinned in a store.
pub trait PinIn<T: Store>: Held + Tells {
    /// Whether what it holds is finished; frozen memory always is.
    ghost ready: { Self → Bool };

    /// Pins it, as `Store::pin_space` and `Store::pin_frozen` do. All else that it tells stays.
    fn pin_in(&mut self, store: &T, shelf: &mut T::Shelf)
        requires { T.Space.takes_frames ≡ true → MayPin
            (holding_of (Self.stake self.old) (Self.span self.old) (Self.pin self.old))
            (T.Shelf.stocked shelf.old) }
        ensures same { Self.tells_same self.old self.new }
        ensures pinned { IfTaken T.Space.takes_frames
            (WasPinned (Self.marked self.old) (ready self.old)
            (holding_of (Self.stake self.old) (Self.span self.old) (Self.pin self.old))
            (holding_of (Self.stake self.new) (Self.span self.new) (Self.pin self.new))
            (T.Shelf.stocked shelf.old) (T.Shelf.stocked shelf.new))
            ((self.new ≡ self.old)
            × (T.Shelf.stocked shelf.new ≡ T.Shelf.stocked shelf.old)) };

    /// Unpins it, as `Store::unpin_space` and `Store::unpin_frozen` do.
    fn unpin_in(&mut self, store: &T, shelf: &mut T::Shelf)
        requires { T.Space.takes_frames ≡ true → MayUnpin (Self.marked self.old)
            (holding_of (Self.stake self.old) (Self.span self.old) (Self.pin self.old))
            (T.Shelf.stocked shelf.old) }
        ensures same { Self.tells_same self.old self.new }
        ensures unpinned { IfTaken T.Space.takes_frames
            (WasUnpinned (Self.marked self.old) (ready self.new)
            (holding_of (Self.stake self.old) (Self.span self.old) (Self.pin self.old))
            (holding_of (Self.stake self.new) (Self.span self.new) (Self.pin self.new))
            (T.Shelf.stocked shelf.old) (T.Shelf.stocked shelf.new))
            ((self.new ≡ self.old)
            × (T.Shelf.stocked shelf.new ≡ T.Shelf.stocked shelf.old)) };
}
