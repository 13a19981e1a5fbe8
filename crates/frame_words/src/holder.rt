//! Who has frames.

ghost use Rattle.std.specs.Prelude.{◌≡◌, ◌*◌, []};
ghost use Rattle.frame_model.specs.Views.{IsSound};

use atomic_table::Seat;
use frame_model::Holding;

/// The frames that one owner has, and what it knows of those that it reaches. It has no bytes.
/// One that is dropped keeps its frames and its stake for good.
#[derive(Drop)]
pub struct Holder {
    pub seat: Seat<(), Holding>,
    pub ghost sound: { IsSound seat.me.0.view },
    pub ghost sized: { seat.table_id.words ≡ seat.me.0.view.frames * 513 },
    pub ghost bare: { seat.me.1 ≡ [] },
}
