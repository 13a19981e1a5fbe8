//! What a context was given by the requests that it answered.

ghost use Rattle.std.specs.Prelude.{◌≡◌, [], ◌∷◌, ◌++◌, Some, IfOk, IfSome, OnOk, map};
ghost use Rattle.std.specs.Prelude.{option_map};
ghost use Rattle.journal_model.specs.Extents.{Extents};
ghost use Rattle.journal_model.specs.State.{State, numbered};
ghost use Rattle.journal_model.specs.Legal.{after_all, at_first};
ghost use Rattle.journal_model.specs.Reads.{served};
ghost use Rattle.journal_laws.specs.Served.{with_answer};
ghost use Rattle.book_model.specs.Kept.{givens};
ghost use Rattle.book_core_tests.specs.Answered.{with_answers};

use book_core::Started;
use journal_model::Event;
use machine_model::Memory;
use space_api::Given;
use std::alloc::Global;

/// Puts the number of a request that the context answers by this event behind the others.
fn note_answer(numbers: &mut Vec<u32>, c: u32, event: Event) -> Result<(), Memory>
    ensures { IfOk result (λ _. numbers.new.items ≡ with_answer c event numbers.old.items) }
{
    match event {
        Event::Start { i: _, f: _, t: _ } => Ok(()),
        Event::Take { c: _, i: _ } => Ok(()),
        Event::Deploy {
            c: _,
            k: _,
            i: _,
            n: _,
        } => Ok(()),
        Event::Refill { c: _, h: _, n: _ } => Ok(()),
        Event::Built { c: _, k: _, d: _ } => Ok(()),
        Event::Keep { k: _ } => Ok(()),
        Event::Dup { k: _ } => Ok(()),
        Event::Drop { k: _ } => Ok(()),
        Event::Evict { c: _ } => Ok(()),
        Event::Park { c: _ } => Ok(()),
        Event::End { c: _ } => Ok(()),
        Event::Back { n: _ } => Ok(()),
        Event::Refuse { i: _ } => Ok(()),
        Event::Want { i: _ } => Ok(()),
        Event::Answer { i, c: d, u: _ } => {
            if d == c && numbers.push(i).is_err() {
                return Err(Memory);
            }
            Ok(())
        }
    }
}

/// The numbers of the requests that the context answered, in order: those that it served, where
/// the events are legal. The only error is want of memory.
pub(crate) fn answered_by(alloc: Global, c: u32, events: &[Event]) -> Result<Vec<u32>, Memory>
    ensures events { IfOk result (λ numbers. numbers.items ≡ with_answers c events.now []) }
    ensures served { (sizes : Extents) (s : State) →
        after_all sizes (at_first sizes) events.now ≡ Some s →
        IfOk result (λ numbers. numbers.items ≡ served s c) }
{
    let mut numbers = Vec::new(alloc);
    'events: for event in events {
        note_answer(&mut numbers, c, *event)?;
    }
    Ok(numbers)
}

/// What the request with this number was given; none where it wasn't started. The only error is
/// want of memory.
#[tactic(auto, unfolding(journal_model::specs::State::numbered))]
fn given_of(alloc: Global, started: &[Started], number: u32) -> Result<Option<Given>, Memory>
    ensures { IfOk result (λ found. found
        ≡ option_map (λ one. one.given) (numbered started.now number)) }
{
    if number == 0 {
        return Ok(None);
    }
    match started.get(number as usize - 1) {
        None => Ok(None),
        Some(one) => Ok(Some(one.given.copy(alloc)?)),
    }
}

/// One more. It stands apart for the proof of `given_to`.
fn add(list: &mut Vec<Given>, given: Given) -> Result<(), Memory>
    ensures { OnOk result (list.new.items ≡ list.old.items ++ given ∷ []) }
{
    if list.push(given).is_err() {
        return Err(Memory);
    }
    Ok(())
}

/// What the requests with these numbers were given, in order; none where one of them wasn't
/// started. The only error is want of memory.
pub(crate) fn given_to(
    alloc: Global,
    started: &[Started],
    numbers: &[u32],
) -> Result<Option<Vec<Given>>, Memory>
    ensures { IfOk result (λ found. IfSome found (λ list.
        map Some list.items ≡ givens started.now numbers.now)) }
{
    let mut list = Vec::new(alloc);
    'numbers: for number in numbers {
        let Some(given) = given_of(alloc, started, *number)? else {
            return Ok(None);
        };
        add(&mut list, given)?;
    }
    Ok(Some(list))
}
