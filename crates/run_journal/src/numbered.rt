//! Items of a list by their numbers, from 1.

ghost use Rattle.std.specs.Prelude.{◌≡◌, ◌==◌, ◌+◌, length};
ghost use Rattle.journal_model.specs.Legal as legal;
ghost use Rattle.journal_model.specs.State as model;

/// The item of a number, counted from 1; none where there is none.
#[tactic(auto, unfolding(journal_model::specs::State::numbered))]
pub fn numbered<T: Copy>(items: &[T], number: u32) -> Option<T>
    ensures { result ≡ model.numbered items.now number }
{
    if number == 0 {
        return None;
    }
    items.get(number as usize - 1).copied()
}

/// Gives a number, counted from 1, another item, where it has one.
#[tactic(auto, unfolding(journal_model::specs::Legal::with_numbered))]
pub fn put<T: Copy>(items: &mut [T], number: u32, item: T)
    ensures { items.new ≡ legal.with_numbered number item items.old }
{
    let number = number as usize;
    if number >= 1 && number <= items.len() {
        items[number - 1] = item;
    }
}

/// Whether a number comes next after so many items.
pub fn is_next(number: u32, count: usize) -> bool
    ensures { result ≡ (number == count + 1) }
{
    number >= 1 && number as usize - 1 == count
}
