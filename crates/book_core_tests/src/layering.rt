//! Layers are captured and kept.

ghost use Rattle.std.specs.Prelude.{◌≡◌, true, Some, IfOk, IfSome, IsSome};
ghost use Rattle.journal_model.specs.Legal.{may_build};

use crate::opening::marked_hart;
use crate::played::Played;
use crate::stored::Stored;
use crate::waiter::Waiter;
use journal_model::{Event, Sizes};
use machine_model::Memory;
use space_api::{Captured, Space, Store};
use std::alloc::Global;

/// The mark of the layer of number 0; that of an image is its number.
const FIRST_MARK: u16 = 100;

/// How a layer was captured and kept.
#[derive(Drop)]
pub enum Layered<T: Store> {
    /// It is kept, in front, and the context stands on it. The layer of that number went for it,
    /// if one did.
    Kept {
        waiter: Waiter<T::Space>,
        went: Option<u16>,
    },
    /// Its number was kept already, and what was captured was released. The context stands on the
    /// layer of that number.
    Twice(Waiter<T::Space>),
    /// The space has no spare, and a capture takes one. Nothing changed.
    NeedFrames(Waiter<T::Space>),
    /// The layer may not be built there. Nothing changed.
    Not(Waiter<T::Space>),
}

/// Where the image of a function stands; 0 where it is no function.
fn start_of(sizes: &Sizes, f: u16) -> u16 {
    match sizes.stacks.get(usize::from(f)) {
        Some(stack) => stack.start,
        None => 0,
    }
}

/// The context, above what was captured of it, and that as the layer k; or the context as it was,
/// where it holds no spare and a capture takes one. The only error is want of memory.
fn captured<T: Store>(
    alloc: Global,
    store: &T,
    waiter: Waiter<T::Space>,
    k: u16,
    start: u16,
) -> Result<(Waiter<T::Space>, Option<Stored<T::Frozen>>), Memory>
    ensures { IfOk result (λ both. IfSome both.1 (λ layer. layer.number ≡ Some k)) }
{
    match store.capture(alloc, waiter.space) {
        Captured::Memory(_) => Err(Memory),
        Captured::NeedFrames(space) => {
            let waiter = Waiter {
                id: waiter.id,
                function: waiter.function,
                layer: waiter.layer,
                served: waiter.served,
                space,
            };
            Ok((waiter, None))
        }
        Captured::Done {
            frozen,
            space,
            pages: _,
        } => {
            let waiter = Waiter {
                id: waiter.id,
                function: waiter.function,
                layer: Some(k),
                served: waiter.served,
                space,
            };
            let layer = Stored {
                number: Some(k),
                start,
                hart: marked_hart(k.saturating_add(FIRST_MARK)),
                frozen,
            };
            Ok((waiter, Some(layer)))
        }
    }
}

impl<T: Store> Played<T> {
    /// A layer that was captured of a context is kept, and what comes back is released: its number,
    /// where anything does. The only error is want of memory.
    fn kept(
        &mut self,
        store: &T,
        c: u32,
        layer: Stored<T::Frozen>,
        pages: u32,
    ) -> Result<Option<u16>, Memory>
        requires number { IsSome layer.number }
        requires may { IfSome layer.number
            (λ k. may_build self.old.book.sizes self.old.book.state c k ≡ true) }
    {
        match self.book.keep(c, layer, pages) {
            Err(_) => Err(Memory),
            Ok(None) => Ok(None),
            Ok(Some(last)) => {
                let went = last.number;
                let spares = store.release_frozen(last.frozen);
                self.returned(store, spares)?;
                Ok(went)
            }
        }
    }

    /// A context is captured as the layer k, with so many pages written, which is kept. The only
    /// error is want of memory; then the context is lost.
    pub fn keep(
        &mut self,
        alloc: Global,
        store: &T,
        waiter: Waiter<T::Space>,
        k: u16,
        pages: u32,
    ) -> Result<Layered<T>, Memory> {
        let c = waiter.id;
        let may = self.may_note(Event::Built { c, k, d: pages })?;
        if !may {
            return Ok(Layered::Not(waiter));
        }
        let start = start_of(self.book.sizes(), waiter.function);
        let (waiter, captured) = captured(alloc, store, waiter, k, start)?;
        let Some(layer) = captured else {
            return Ok(Layered::NeedFrames(waiter));
        };
        let went = self.kept(store, c, layer, pages)?;
        if went == Some(k) {
            return Ok(Layered::Twice(waiter));
        }
        Ok(Layered::Kept { waiter, went })
    }
}
