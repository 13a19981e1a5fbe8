//! A layer that was captured is kept.

ghost use Rattle.std.specs.Prelude.{◌≡◌, true, false, OnOk, OnErr, IfSome};
ghost use Rattle.book_model.specs.Steps.{built_events, is_kept, last_kept};
ghost use Rattle.space_api.specs.Stores.{frozen_of};
ghost use Rattle.deployer.specs.Layering.{IsAbove};
ghost use Rattle.service_model.specs.Going.{WentBy};

use crate::returning::give;
use book_core::{Book, Grounds};
use context_uc::{Context, Layer, release};
use machine_model::Memory;
use space_api::Store;

/// The layer with so many pages written is kept, and what goes for it, or itself where its number
/// is kept already, is released. The only error is want of memory, and stops the book.
pub fn keep_layer<'a, T: Store, G: Grounds<Context<'a, T::Space>, Layer<'a, T::Frozen>>>(
    store: &T,
    book: &mut Book<Context<'a, T::Space>, Layer<'a, T::Frozen>, T::Shelf, G>,
    c: u32,
    layer: Layer<'a, T::Frozen>,
    pages: u32,
) -> Result<(), Memory>
    requires copied { T.Space.takes_frames ≡ false }
    requires root { book.old.sizes.root ≡ 0 }
    requires grounds { G.is_layer layer }
    requires above { IsAbove (λ z. frozen_of (T.Frozen.flat z) (T.Frozen.image z)) T.Frozen.pin c
        layer book.old }
    ensures went { OnOk result (IfSome layer.entry.number (λ k. WentBy
        (built_events c k pages (is_kept k book.old) (last_kept book.old))
        book.old book.new)) }
    ensures stopped { OnErr result (book.new.stopped ≡ true) }
{
    book.is_sound();
    match book.keep(c, layer, pages) {
        Err(layer) => {
            let spares = release(store, layer);
            book.abandon(store, Some(spares));
            Err(Memory)
        }
        Ok(None) => Ok(()),
        Ok(Some(last)) => give(store, book, release(store, last)),
    }
}
