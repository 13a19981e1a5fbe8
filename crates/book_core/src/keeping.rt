//! Layers are kept.

ghost use Rattle.std.specs.Prelude.{◌≡◌, true, IsErr, IfOk, IfErr, OnErr, IsSome, IfSome};
ghost use Rattle.journal_model.specs.Legal.{may_build};
ghost use Rattle.book_model.specs.Kept.{IsLayerOf};
ghost use Rattle.book_model.specs.Steps.{Keeps};

use crate::book::Book;
use crate::grounds::Grounds;
use journal_model::Event;
use space_api::{Kept, Parked, Stock};

impl<C: Parked, L: Kept, H: Stock, G: Grounds<C, L>> Book<C, L, H, G> {
    /// `built c k d` of a layer of that number with so many pages written, and then `dup k` exactly
    /// where the number is kept already, and the given layer comes back; or else `keep k`, after
    /// `drop j` of the layer that was used longest ago where there is no room, which comes back.
    /// The only error is want of memory, which always comes of a stopped book: it hands the layer
    /// back, and nothing changed.
    pub fn keep(&mut self, c: u32, layer: L, pages: u32) -> Result<Option<L>, L>
        requires number { IsSome (L.kept layer).number }
        requires layer { IfSome (L.kept layer).number
            (λ k. (may_build self.old.sizes self.old.state c k ≡ true)
            × IsLayerOf k (L.kept layer) (L.pin layer)) }
        requires grounds { G.is_layer layer }
        ensures kept { IfOk result (λ handed. IfSome (L.kept layer).number
            (λ k. Keeps c k pages layer handed self.old self.new)) }
        ensures back { IfErr result (λ given. given ≡ layer) }
        ensures memory { OnErr result (self.new ≡ self.old) }
        ensures stopped { self.old.stopped ≡ true → IsErr result }
    {
        if self.stopped || self.log.reserve(3).is_err() {
            return Err(layer);
        }
        let Some(k) = layer.number() else {
            unreachable!()
        };
        if self.kept.has(k) {
            self.log.append(Event::Built { c, k, d: pages });
            self.log.append(Event::Dup { k });
            return Ok(Some(layer));
        }
        match self.kept.keep(k, layer)? {
            None => {
                self.log.append(Event::Built { c, k, d: pages });
                self.log.append(Event::Keep { k });
                Ok(None)
            }
            Some((j, last)) => {
                self.log.append(Event::Built { c, k, d: pages });
                self.log.append(Event::Drop { k: j });
                self.log.append(Event::Keep { k });
                Ok(Some(last))
            }
        }
    }
}
