//! The images of a book are opened.

ghost use Rattle.std.specs.Prelude.{◌≡◌, ◌<◌, ◌≤◌, ◌++◌, ◌∷◌, [], true, length, None, IfOk, OnOk};
ghost use Rattle.space_api.specs.Holding.{first_stake, if_taken};
ghost use Rattle.space_api.specs.Stores.{frozen_of};
ghost use Rattle.book_model.specs.Kept.{IsImageOf};
ghost use Rattle.book_core_tests.specs.Images.{IsFresh, HasOpened, AreImages, stakes};
ghost use Rattle.book_core_tests.specs.Told.{kept_of};

use crate::stored::Stored;
use machine_model::{Hart, REGISTERS};
use space_api::{FrozenMemory, Refused, Store};
use std::alloc::Global;

/// A hart that a context or a layer of that mark may have.
pub(crate) fn marked_hart(mark: u16) -> Hart {
    Hart {
        x: [0; REGISTERS],
        pc: u64::from(mark) * 4,
        resting: true,
    }
}

/// The image of that number. Its hart is marked with the number.
fn opened<T: Store>(
    alloc: Global,
    store: &T,
    shelf: &mut T::Shelf,
    start: u16,
) -> Result<Stored<T::Frozen>, Refused>
    requires within { start < length (T.starts store.now) }
    requires stake { T.Space.takes_frames ≡ true →
        first_stake < (T.Shelf.stocked shelf.old).stake }
    ensures image { IfOk result (λ image. IsImageOf start
        (kept_of image.number image.start image.hart
        (frozen_of (T.Frozen.flat image.frozen) (T.Frozen.image image.frozen)))
        (T.Frozen.pin image.frozen)) }
    ensures holds { IfOk result (λ image. T.Frozen.stake image.frozen
        ≡ if_taken T.Space.takes_frames first_stake) }
    ensures shelf { OnOk result (T.Space.takes_frames ≡ true →
        HasOpened 1 first_stake (T.Shelf.stocked shelf.old) (T.Shelf.stocked shelf.new)) }
{
    let frozen = store.open_image(alloc, shelf, start)?;
    Ok(Stored {
        number: None,
        start,
        hart: marked_hart(start),
        frozen,
    })
}

/// One image more.
fn add<Z: FrozenMemory + Drop>(images: &mut Vec<Stored<Z>>, image: Stored<Z>) -> Result<(), Refused>
    ensures { OnOk result (images.new.items ≡ images.old.items ++ image ∷ []) }
{
    if images.push(image).is_err() {
        return Err(Refused::Memory);
    }
    Ok(())
}

/// The images of the first starts, so many, in order.
pub(crate) fn all_opened<T: Store>(
    alloc: Global,
    store: &T,
    shelf: &mut T::Shelf,
    count: u16,
) -> Result<Vec<Stored<T::Frozen>>, Refused>
    requires images { count ≤ length (T.starts store.now) }
    requires fresh { T.Space.takes_frames ≡ true → IsFresh count (T.Shelf.stocked shelf.old) }
    ensures images { IfOk result (λ images. AreImages images.items
        (λ l. kept_of l.number l.start l.hart
        (frozen_of (T.Frozen.flat l.frozen) (T.Frozen.image l.frozen)))
        (λ l. T.Frozen.pin l.frozen) count) }
    ensures shelf { IfOk result (λ images. T.Space.takes_frames ≡ true →
        HasOpened count (stakes images.items (λ l. T.Frozen.stake l.frozen))
        (T.Shelf.stocked shelf.old) (T.Shelf.stocked shelf.new)) }
{
    let mut images = Vec::new(alloc);
    for start in 0..count {
        let image = opened(alloc, store, shelf, start)?;
        add(&mut images, image)?;
    }
    Ok(images)
}
