//! A plan's book is taken apart.

ghost use Rattle.std.specs.Prelude.{◌≡◌, All, None, false};
ghost use Rattle.std.specs.List.{AllByRecursion, sum_by};
ghost use Rattle.plan_book.specs.Stakes.{IsLoose, stakes_of};
ghost use Rattle.slab.specs.Slab.{entries};
ghost use Rattle.space_api.specs.Holding.{with_returned};

use book_core::{Closed, Started};
use context_uc::{Context, Layer, end, release};
use journal_model::Event;
use slab::Slab;
use space_api::Store;

/// What is left of a book that was taken apart.
#[derive(Drop)]
pub struct Remains<H> {
    /// The journal.
    pub events: Vec<Event>,
    /// The requests that were started, in the order of their numbers.
    pub started: Vec<Started>,
    /// The free frames.
    pub shelf: H,
}

/// Each context is over, and what it held comes back. It takes no memory.
fn end_all<'a, T: Store>(store: &T, shelf: &mut T::Shelf, contexts: Slab<Context<'a, T::Space>>)
    requires copied { T.Space.takes_frames ≡ false }
    requires loose { AllByRecursion (λ e. T.Space.pin e.1.space ≡ None) (entries contexts) }
    ensures shelf { T.Shelf.stocked shelf.new ≡ with_returned 0
        (sum_by (λ e. T.Space.stake e.1.space) (entries contexts.entry))
        (T.Shelf.stocked shelf.old) }
{
    'contexts: for (_slot, context) in contexts {
        let spares = end(store, context);
        store.give_back(shelf, spares);
    }
}

/// What each layer held comes back. It takes no memory.
fn release_all<'a, T: Store>(store: &T, shelf: &mut T::Shelf, layers: Slab<Layer<'a, T::Frozen>>)
    requires copied { T.Space.takes_frames ≡ false }
    requires loose { AllByRecursion (λ e. T.Frozen.pin e.1.frozen ≡ None) (entries layers) }
    ensures shelf { T.Shelf.stocked shelf.new ≡ with_returned 0
        (sum_by (λ e. T.Frozen.stake e.1.frozen) (entries layers.entry))
        (T.Shelf.stocked shelf.old) }
{
    'layers: for (_slot, layer) in layers {
        let spares = release(store, layer);
        store.give_back(shelf, spares);
    }
}

/// What each image held comes back. It takes no memory.
fn release_images<'a, T: Store>(store: &T, shelf: &mut T::Shelf, images: Vec<Layer<'a, T::Frozen>>)
    requires copied { T.Space.takes_frames ≡ false }
    requires loose { All (λ l. T.Frozen.pin l.frozen ≡ None) images.items }
    ensures shelf { T.Shelf.stocked shelf.new ≡ with_returned 0
        (sum_by (λ l. T.Frozen.stake l.frozen) images.entry.items) (T.Shelf.stocked shelf.old) }
{
    let mut images = images;
    'images: while let Some(image) = images.pop() {
        let spares = release(store, image);
        store.give_back(shelf, spares);
    }
}

/// What a book held is given back: idle contexts, kept layers and images. No event tells of it, and
/// it takes no memory.
pub fn take_apart<'a, T: Store>(
    store: &T,
    closed: Closed<Context<'a, T::Space>, Layer<'a, T::Frozen>, T::Shelf>,
) -> Remains<T::Shelf>
    requires copied { T.Space.takes_frames ≡ false }
    requires loose { IsLoose (λ c. T.Space.pin c.space) (λ l. T.Frozen.pin l.frozen) closed }
    ensures events { result.events.items ≡ closed.entry.events.items }
    ensures started { result.started.items ≡ closed.entry.started.items }
    ensures shelf { T.Shelf.stocked result.shelf ≡ with_returned 0
        (stakes_of (λ c. T.Space.stake c.space) (λ l. T.Frozen.stake l.frozen) closed.entry)
        (T.Shelf.stocked closed.entry.shelf) }
{
    let Closed {
        contexts,
        layers,
        images,
        shelf,
        events,
        started,
    } = closed;
    let mut shelf = shelf;
    end_all(store, &mut shelf, contexts);
    release_all(store, &mut shelf, layers);
    release_images(store, &mut shelf, images);
    Remains {
        events,
        started,
        shelf,
    }
}
