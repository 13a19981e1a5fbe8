//! A plan's book is opened.

ghost use Rattle.std.specs.Prelude.{◌≡◌, ◌<◌, ◌≤◌, IfOk, false, length};
ghost use Rattle.book_model.specs.Kept.{IsOpenable, most_requests};
ghost use Rattle.deployer.specs.Grounds.{AreGrounds, IsSizedBy};
ghost use Rattle.plan_book.specs.Opened.{AreImages, AreOfGrounds, IsPlanImage, fresh_book};
ghost use Rattle.plan_book.specs.Opened.{image_count};
ghost use Rattle.plan_book.specs.Sized.{sizes_for, start_limit};

use crate::adding::add;
use crate::sizing::sizes_of_plan;
use book_core::{Book, Grounds};
use context_uc::{Context, Layer};
use journal_model::Sizes;
use layer_model::Plan;
use machine_model::Memory;
use plan_model::stacks_have_no_layer_twice;
use space_api::{Refused, Store};
use std::alloc::Global;

/// How many starts a layer can name.
const START_LIMIT: usize = 65_536;

/// The plan's image with the number of its start. The only error is want of memory.
fn image_at<'a, T: Store>(
    alloc: Global,
    plan: &'a Plan,
    store: &T,
    shelf: &mut T::Shelf,
    start: u16,
) -> Result<Layer<'a, T::Frozen>, Memory>
    requires copied { T.Space.takes_frames ≡ false }
    requires starts { T.starts store.now ≡ plan.now.starts }
    requires within { start < length plan.now.starts }
    ensures image { IfOk result (λ image. IsPlanImage T.Frozen.flat T.Frozen.image T.Frozen.pin
        T.Frozen.stake plan.now start image) }
    ensures shelf { T.Shelf.stocked shelf.new ≡ T.Shelf.stocked shelf.old }
{
    match store.open_image(alloc, shelf, start) {
        Ok(frozen) => {
            let image = Layer::image(plan, start, frozen);
            image.is_the_model();
            Ok(image)
        }
        Err(Refused::Memory) => Err(Memory),
        Err(Refused::Frames) => unreachable!(),
    }
}

/// The plan's images, in the order of the starts. The only error is want of memory.
fn images_of<'a, T: Store>(
    alloc: Global,
    plan: &'a Plan,
    store: &T,
    shelf: &mut T::Shelf,
) -> Result<Vec<Layer<'a, T::Frozen>>, Memory>
    requires copied { T.Space.takes_frames ≡ false }
    requires starts { T.starts store.now ≡ plan.now.starts }
    ensures images { IfOk result (λ images. AreImages T.Frozen.flat T.Frozen.image T.Frozen.pin
        T.Frozen.stake plan.now (image_count plan.now) images.items) }
    ensures shelf { T.Shelf.stocked shelf.new ≡ T.Shelf.stocked shelf.old }
{
    let mut images = Vec::new(alloc);
    let count = plan.starts().len().min(START_LIMIT);
    for start in 0..count {
        let image = image_at(alloc, plan, store, shelf, start as u16)?;
        add(&mut images, image)?;
    }
    Ok(images)
}

/// A book of these sizes and images, over copied pages; a part of `open_book` by itself. The only
/// error is want of memory.
fn book_of<'a, T: Store, G: Grounds<Context<'a, T::Space>, Layer<'a, T::Frozen>>>(
    alloc: Global,
    sizes: Sizes,
    shelf: T::Shelf,
    images: Vec<Layer<'a, T::Frozen>>,
) -> Result<Book<Context<'a, T::Space>, Layer<'a, T::Frozen>, T::Shelf, G>, Memory>
    requires sizes { IsOpenable sizes (length images.items) }
    requires root { sizes.root ≡ 0 }
    requires free { (T.Shelf.stocked shelf).free ≡ sizes.frames }
    requires images { AreOfGrounds T.Frozen.flat T.Frozen.image T.Frozen.pin G.is_layer
        images.items }
    ensures { IfOk result (λ book. book ≡ fresh_book sizes images.entry.items shelf) }
{
    Book::open(alloc, sizes, shelf, images)
}

/// The book of a batch of so many requests of the plan, over copied pages: its images are opened,
/// one for each start, in order, and nothing was done yet. The only error is want of memory.
pub fn open_book<'a, T: Store, G: Grounds<Context<'a, T::Space>, Layer<'a, T::Frozen>>>(
    alloc: Global,
    plan: &'a Plan,
    store: &T,
    shelf: T::Shelf,
    requests: u32,
) -> Result<Book<Context<'a, T::Space>, Layer<'a, T::Frozen>, T::Shelf, G>, Memory>
    requires copied { T.Space.takes_frames ≡ false }
    requires grounds { AreGrounds plan.now T.Frozen.flat G.is_context G.is_layer }
    requires starts { T.starts store.now ≡ plan.now.starts }
    requires free { (T.Shelf.stocked shelf).free ≡ plan.now.numbers.frames }
    requires few { requests ≤ most_requests }
    ensures opened { IfOk result (λ book. book
        ≡ fresh_book (sizes_for plan.now requests) book.images book.shelf) }
    ensures sized { IfOk result (λ book. IsSizedBy plan.now book.sizes) }
    ensures images { IfOk result (λ book. AreImages T.Frozen.flat T.Frozen.image T.Frozen.pin
        T.Frozen.stake plan.now (image_count plan.now) book.images) }
    ensures shelf { IfOk result (λ book. T.Shelf.stocked book.shelf ≡ T.Shelf.stocked shelf) }
{
    plan.is_sound();
    stacks_have_no_layer_twice();
    let sizes = sizes_of_plan(alloc, plan, requests)?;
    let mut shelf = shelf;
    let images = images_of(alloc, plan, store, &mut shelf)?;
    book_of::<T, G>(alloc, sizes, shelf, images)
}
