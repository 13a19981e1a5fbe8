//! Stores.

ghost use Rattle.std.specs.Prelude.{◌≡◌, ℕ, ◌+◌, ◌<◌, ◌≤◌, Bool, true, false, List, length};
ghost use Rattle.std.specs.Prelude.{slice_get, Option, None, Some, IfOk, OnOk, OnErr, IfSome};
ghost use Rattle.image_model.specs.Layout.{Layout};
ghost use Rattle.space_api.specs.Flat.{flat_of};
ghost use Rattle.space_api.specs.Holding.{holding_of, first_stake, if_taken, Gave, IsOpened};
ghost use Rattle.space_api.specs.Holding.{with_returned, MayPin, MayUnpin, WasPinned, WasUnpinned};
ghost use Rattle.space_api.specs.Holding.{IfTaken, IsWeighed};
ghost use Rattle.space_api.specs.Stores.{spaced_of, frozen_of, frozen, image_frames, refilled};
ghost use Rattle.space_api.specs.Stores.{RefusesRightly, Captures};

use crate::given::Captured;
use crate::held::Held;
use crate::refused::Refused;
use crate::space::Space;
use crate::stock::{FrozenMemory, Stock};
use std::alloc::Global;

/// What makes spaces of frozen memory, and frozen memory of starts and of spaces.
///
/// What a call isn't said to change in a shelf, frozen memory or space stays as it was, and a
/// refusal changes nothing. No call but `unpin_space` and `unpin_frozen` takes a pinned value.
/// `capture`, `strip` and `refill` take a space whose deploy is finished.
pub trait Store {
    /// The spaces.
    type Space: Space + Drop + Send;

    /// Frozen memory.
    type Frozen: FrozenMemory + Drop + Send;

    /// The free frames.
    type Shelf: Stock + Drop + Send;

    /// Frames that nothing reaches any more, on their way to the shelf.
    type Spares: Held + Drop + Send;

    /// What the images start with, by their numbers.
    ghost starts: { Self → List Layout };

    /// How many frames they are.
    ghost number: { Self.Spares → ℕ };

    /// The frozen memory of the start with this number.
    fn open_image(
        &self,
        alloc: Global,
        shelf: &mut Self::Shelf,
        start: u16,
    ) -> Result<Self::Frozen, Refused>
        requires within { start < length (starts self.now) }
        requires stake { Self.Space.takes_frames ≡ true →
            first_stake < (Self.Shelf.stocked shelf.old).stake }
        ensures memory { IfOk result (λ image. IfSome (slice_get (starts self.now) start)
            (λ layout. frozen_of (Self.Frozen.flat image) (Self.Frozen.image image)
            ≡ frozen_of (flat_of layout) true)) }
        ensures holds { IfOk result (λ image.
            holding_of (Self.Frozen.stake image) (Self.Frozen.span image) (Self.Frozen.pin image)
            ≡ holding_of (if_taken Self.Space.takes_frames first_stake) 0 None) }
        ensures opened { OnOk result (IfSome (slice_get (starts self.now) start) (λ layout.
            IsOpened Self.Space.takes_frames (image_frames layout)
            (Self.Shelf.stocked shelf.old) (Self.Shelf.stocked shelf.new))) }
        ensures kept { OnErr result
            (Self.Shelf.stocked shelf.new ≡ Self.Shelf.stocked shelf.old) }
        ensures refused { IfSome (slice_get (starts self.now) start) (λ layout.
            RefusesRightly Self.Space.takes_frames Self.Space.lacks_memory
            (Self.Shelf.stocked shelf.old).free (image_frames layout) result) };

    /// A space with the bytes of frozen memory, of which nothing was written. It has no spares,
    /// and is to be finished by `finish_deploy`.
    fn deploy(
        &self,
        alloc: Global,
        below: &mut Self::Frozen,
        shelf: &mut Self::Shelf,
    ) -> Result<Self::Space, Refused>
        requires loose { Self.Frozen.pin below.old ≡ None }
        requires stake { Self.Space.takes_frames ≡ true →
            first_stake < (Self.Shelf.stocked shelf.old).stake }
        ensures space { IfOk result (λ space. spaced_of (Self.Space.flat space)
            (Self.Space.spares space) (Self.Space.finished space)
            ≡ spaced_of (frozen (Self.Frozen.flat below.old)) 0 false) }
        ensures holds { IfOk result (λ space.
            (Self.Space.stake space ≡ if_taken Self.Space.takes_frames first_stake)
            × (Self.Space.span space
            ≤ Self.Frozen.span below.old + if_taken Self.Space.takes_frames 1)
            × (Self.Space.pin space ≡ None)) }
        ensures below { (frozen_of (Self.Frozen.flat below.new) (Self.Frozen.image below.new)
            ≡ frozen_of (Self.Frozen.flat below.old) (Self.Frozen.image below.old))
            × (holding_of (Self.Frozen.stake below.new) (Self.Frozen.span below.new)
            (Self.Frozen.pin below.new)
            ≡ holding_of (Self.Frozen.stake below.old) (Self.Frozen.span below.old)
            (Self.Frozen.pin below.old)) }
        ensures gave { OnOk result (Gave Self.Space.takes_frames 1 first_stake
            (Self.Shelf.stocked shelf.old) (Self.Shelf.stocked shelf.new)) }
        ensures kept { OnErr result
            (Self.Shelf.stocked shelf.new ≡ Self.Shelf.stocked shelf.old) }
        ensures refused { RefusesRightly Self.Space.takes_frames Self.Space.lacks_memory
            (Self.Shelf.stocked shelf.old).free 1 result };

    /// Finishes a deploy: the space may run. Over frames it may then hold a spare.
    fn finish_deploy(&self, space: &mut Self::Space)
        requires loose { Self.Space.pin space.old ≡ None }
        requires begun { Self.Space.finished space.old ≡ false }
        ensures finished { Self.Space.finished space.new ≡ true }
        ensures flat { Self.Space.flat space.new ≡ Self.Space.flat space.old }
        ensures spares { (Self.Space.spares space.old ≤ Self.Space.spares space.new)
            × (Self.Space.spares space.new
            ≤ Self.Space.spares space.old + if_taken Self.Space.takes_frames 1) }
        ensures holds { holding_of (Self.Space.stake space.new) (Self.Space.span space.new)
            (Self.Space.pin space.new) ≡ holding_of (Self.Space.stake space.old)
            (Self.Space.span space.old) (Self.Space.pin space.old) };

    /// Freezes the memory of a space, which goes on above it.
    fn capture(&self, alloc: Global, space: Self::Space) -> Captured<Self::Frozen, Self::Space>
        requires finished { Self.Space.finished space ≡ true }
        requires stake { Self.Space.takes_frames ≡ true → 2 ≤ Self.Space.stake space }
        ensures { Captures Self.Space.takes_frames Self.Space.lacks_memory
            (λ kept. frozen_of (Self.Frozen.flat kept) (Self.Frozen.image kept))
            (λ kept. holding_of (Self.Frozen.stake kept) (Self.Frozen.span kept)
            (Self.Frozen.pin kept))
            (λ s. spaced_of (Self.Space.flat s) (Self.Space.spares s) (Self.Space.finished s))
            (λ s. holding_of (Self.Space.stake s) (Self.Space.span s) (Self.Space.pin s))
            space result };

    /// Every frame of a space that nothing else reaches, and its spares.
    fn release_space(&self, space: Self::Space) -> Self::Spares
        requires { Self.Space.pin space ≡ None }
        ensures stake { Self.Spares.stake result ≡ Self.Space.stake space }
        ensures spares { Self.Space.spares space ≤ number result };

    /// Every frame of frozen memory that nothing else reaches.
    fn release_frozen(&self, frozen: Self::Frozen) -> Self::Spares
        requires { Self.Frozen.pin frozen ≡ None }
        ensures { Self.Spares.stake result ≡ Self.Frozen.stake frozen };

    /// The spares of a space, which holds none afterwards.
    fn strip(&self, space: &mut Self::Space) -> Self::Spares
        requires finished { Self.Space.finished space.old ≡ true }
        requires stake { Self.Space.takes_frames ≡ true → 2 ≤ Self.Space.stake space.old }
        ensures number { number result ≡ Self.Space.spares space.old }
        ensures space { spaced_of (Self.Space.flat space.new) (Self.Space.spares space.new)
            (Self.Space.finished space.new) ≡ spaced_of (Self.Space.flat space.old) 0 true }
        ensures stake { (Self.Spares.stake result ≡ if_taken Self.Space.takes_frames 1)
            × (Self.Space.stake space.old
            ≡ Self.Space.stake space.new + if_taken Self.Space.takes_frames 1) }
        ensures span { Self.Space.span space.new + number result ≤ Self.Space.span space.old };

    /// Moves free frames into a space, up to 16 spares, and answers how many.
    fn refill(&self, shelf: &mut Self::Shelf, space: &mut Self::Space) -> u32
        requires finished { Self.Space.finished space.old ≡ true }
        requires stake { Self.Space.takes_frames ≡ true →
            2 ≤ (Self.Shelf.stocked shelf.old).stake }
        ensures value { result ≡ refilled Self.Space.takes_frames (Self.Space.spares space.old)
            (Self.Shelf.stocked shelf.old).free }
        ensures space { spaced_of (Self.Space.flat space.new) (Self.Space.spares space.new)
            (Self.Space.finished space.new)
            ≡ spaced_of (Self.Space.flat space.old) (Self.Space.spares space.old + result) true }
        ensures holds { (Self.Space.stake space.new ≡ Self.Space.stake space.old)
            × (Self.Space.span space.new ≤ Self.Space.span space.old + result) }
        ensures shelf { Self.Shelf.stocked shelf.old
            ≡ with_returned result 0 (Self.Shelf.stocked shelf.new) };

    /// Spares come back to the shelf, with their stake.
    fn give_back(&self, shelf: &mut Self::Shelf, spares: Self::Spares)
        ensures { Self.Shelf.stocked shelf.new ≡ with_returned (number spares)
            (Self.Spares.stake spares) (Self.Shelf.stocked shelf.old) };

    /// How many frames are free.
    fn free(&self, shelf: &Self::Shelf) -> u32
        ensures { result ≡ (Self.Shelf.stocked shelf.now).free };

    /// How many frames they are.
    fn count(&self, spares: &Self::Spares) -> u32
        ensures { result ≡ number spares.now };

    /// Pins a space. Over frames it keeps a stake of 1, the rest moves to the shelf, and it takes
    /// part in nothing until it is unpinned.
    fn pin_space(&self, shelf: &mut Self::Shelf, space: &mut Self::Space)
        requires { Self.Space.takes_frames ≡ true → MayPin
            (holding_of (Self.Space.stake space.old) (Self.Space.span space.old)
            (Self.Space.pin space.old)) (Self.Shelf.stocked shelf.old) }
        ensures told { (Self.Space.flat space.new ≡ Self.Space.flat space.old)
            × (Self.Space.spares space.new ≡ Self.Space.spares space.old) }
        ensures pinned { IfTaken Self.Space.takes_frames
            ((Self.Space.finished space.new ≡ false) × WasPinned false
            (Self.Space.finished space.old)
            (holding_of (Self.Space.stake space.old) (Self.Space.span space.old)
            (Self.Space.pin space.old))
            (holding_of (Self.Space.stake space.new) (Self.Space.span space.new)
            (Self.Space.pin space.new))
            (Self.Shelf.stocked shelf.old) (Self.Shelf.stocked shelf.new))
            ((space.new ≡ space.old)
            × (Self.Shelf.stocked shelf.new ≡ Self.Shelf.stocked shelf.old)) };

    /// What a pin of a space moved comes back, and the space is as it was before.
    fn unpin_space(&self, shelf: &mut Self::Shelf, space: &mut Self::Space)
        requires { Self.Space.takes_frames ≡ true → MayUnpin false
            (holding_of (Self.Space.stake space.old) (Self.Space.span space.old)
            (Self.Space.pin space.old)) (Self.Shelf.stocked shelf.old) }
        ensures told { (Self.Space.flat space.new ≡ Self.Space.flat space.old)
            × (Self.Space.spares space.new ≡ Self.Space.spares space.old) }
        ensures unpinned { IfTaken Self.Space.takes_frames
            (WasUnpinned false (Self.Space.finished space.new)
            (holding_of (Self.Space.stake space.old) (Self.Space.span space.old)
            (Self.Space.pin space.old))
            (holding_of (Self.Space.stake space.new) (Self.Space.span space.new)
            (Self.Space.pin space.new))
            (Self.Shelf.stocked shelf.old) (Self.Shelf.stocked shelf.new))
            ((space.new ≡ space.old)
            × (Self.Shelf.stocked shelf.new ≡ Self.Shelf.stocked shelf.old)) };

    /// Pins frozen memory, as `pin_space` does a space.
    fn pin_frozen(&self, shelf: &mut Self::Shelf, frozen: &mut Self::Frozen)
        requires { Self.Space.takes_frames ≡ true → MayPin
            (holding_of (Self.Frozen.stake frozen.old) (Self.Frozen.span frozen.old)
            (Self.Frozen.pin frozen.old)) (Self.Shelf.stocked shelf.old) }
        ensures told { frozen_of (Self.Frozen.flat frozen.new) (Self.Frozen.image frozen.new)
            ≡ frozen_of (Self.Frozen.flat frozen.old) (Self.Frozen.image frozen.old) }
        ensures pinned { IfTaken Self.Space.takes_frames
            (WasPinned (Self.Frozen.image frozen.old) true
            (holding_of (Self.Frozen.stake frozen.old) (Self.Frozen.span frozen.old)
            (Self.Frozen.pin frozen.old))
            (holding_of (Self.Frozen.stake frozen.new) (Self.Frozen.span frozen.new)
            (Self.Frozen.pin frozen.new))
            (Self.Shelf.stocked shelf.old) (Self.Shelf.stocked shelf.new))
            ((frozen.new ≡ frozen.old)
            × (Self.Shelf.stocked shelf.new ≡ Self.Shelf.stocked shelf.old)) };

    /// What a pin of frozen memory moved comes back.
    fn unpin_frozen(&self, shelf: &mut Self::Shelf, frozen: &mut Self::Frozen)
        requires { Self.Space.takes_frames ≡ true → MayUnpin (Self.Frozen.image frozen.old)
            (holding_of (Self.Frozen.stake frozen.old) (Self.Frozen.span frozen.old)
            (Self.Frozen.pin frozen.old)) (Self.Shelf.stocked shelf.old) }
        ensures told { frozen_of (Self.Frozen.flat frozen.new) (Self.Frozen.image frozen.new)
            ≡ frozen_of (Self.Frozen.flat frozen.old) (Self.Frozen.image frozen.old) }
        ensures unpinned { IfTaken Self.Space.takes_frames
            (WasUnpinned (Self.Frozen.image frozen.old) true
            (holding_of (Self.Frozen.stake frozen.old) (Self.Frozen.span frozen.old)
            (Self.Frozen.pin frozen.old))
            (holding_of (Self.Frozen.stake frozen.new) (Self.Frozen.span frozen.new)
            (Self.Frozen.pin frozen.new))
            (Self.Shelf.stocked shelf.old) (Self.Shelf.stocked shelf.new))
            ((frozen.new ≡ frozen.old)
            × (Self.Shelf.stocked shelf.new ≡ Self.Shelf.stocked shelf.old)) };

    /// Tells how many frames there are beside the images', where everything that holds frames is
    /// the shelf and what it noted.
    fn weigh(&self, shelf: &mut Self::Shelf)
        ensures weighed { IsWeighed (Self.Shelf.stocked shelf.old) }
        ensures kept { Self.Shelf.stocked shelf.new ≡ Self.Shelf.stocked shelf.old };

    ghost spares_are_counted: { (spares : Self.Spares) →
        (Self.Spares.span spares ≡ number spares) × (Self.Spares.pin spares ≡ None) };

    ghost shelf_is_spanned: { (shelf : Self.Shelf) → Self.Shelf.span shelf
        ≡ if_taken Self.Space.takes_frames (Self.Shelf.stocked shelf).free };

    ghost none_are_taken: { Self.Space.takes_frames ≡ false →
        ((spares : Self.Spares) → number spares ≡ 0)
        × ((space : Self.Space) → Self.Space.spares space ≡ 0) };
}
