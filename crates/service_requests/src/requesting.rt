//! What comes of the end of a request's run.

ghost use Rattle.std.specs.Prelude.{◌≡◌, false, true, IfOk, OnErr};
ghost use Rattle.deployer.specs.Grounds.{AreGrounds, IsSizedBy};
ghost use Rattle.service_requests.specs.Requesting.{IsAnswered, IsClosed, MayClose, MayEnd};

use book_core::{Book, Grounds};
use context_runs::{RequestRun, after_request};
use context_uc::{Context, Layer, end};
use hyper_calls::Ports;
use journal_model::Answer;
use machine_model::{Memory, Stop};
use request_service::InRun;
use service_ends::{answer_with, finish_request, is_parked, lose_context, park_request};
use space_api::Store;
use std::alloc::Global;

/// A request is answered with this line, which is handed back. Its context is idle where it is to
/// be parked, and over elsewhere. The only error is want of memory, and stops the book.
fn close_request<'a, T: Store, G: Grounds<Context<'a, T::Space>, Layer<'a, T::Frozen>>>(
    store: &T,
    book: &mut Book<Context<'a, T::Space>, Layer<'a, T::Frozen>, T::Shelf, G>,
    answer: Answer,
    context: Context<'a, T::Space>,
) -> Result<Answer, Memory>
    requires copied { T.Space.takes_frames ≡ false }
    requires sizes { IsSizedBy context.plan book.old.sizes }
    requires grounds { AreGrounds context.plan T.Frozen.flat G.is_context G.is_layer }
    requires may { MayClose (record {
      flat = T.Space.flat;
      spares = T.Space.spares;
      finished = T.Space.finished;
      pin = T.Space.pin;
    }) answer context book.old }
    ensures same { IfOk result (λ a. a ≡ answer) }
    ensures closes { IfOk result (λ a. IsClosed context.entry.plan a book.old book.new) }
    ensures stopped { OnErr result (book.new.stopped ≡ true) }
{
    book.is_sound();
    if is_parked(context.plan(), &answer) {
        park_request(store, book, &answer, context)?;
        Ok(answer)
    } else {
        let spares = end(store, context);
        finish_request(store, book, &answer, spares)?;
        Ok(answer)
    }
}

/// What comes of the run of a request that stopped so: the request is closed, with the line that
/// shows what the run did, or with that of want of memory, where that kept the line from being
/// made. The only error is want of memory, and stops the book.
pub fn end_request<'a, T: Store, G: Grounds<Context<'a, T::Space>, Layer<'a, T::Frozen>>>(
    alloc: Global,
    store: &T,
    book: &mut Book<Context<'a, T::Space>, Layer<'a, T::Frozen>, T::Shelf, G>,
    at: InRun<Context<'a, T::Space>, RequestRun>,
    ports: &Ports,
    stop: Stop,
) -> Result<Answer, Memory>
    requires copied { T.Space.takes_frames ≡ false }
    requires may { MayEnd (record {
      flat = T.Space.flat;
      spares = T.Space.spares;
      finished = T.Space.finished;
      pin = T.Space.pin;
    }) T.Frozen.flat G.is_context G.is_layer at ports.now stop book.old }
    ensures answered { IfOk result (λ answer. IsAnswered at.entry.context.plan at.entry.origin.i
        at.entry.run.done answer book.old book.new) }
    ensures stopped { OnErr result (book.new.stopped ≡ true) }
{
    book.is_sound();
    at.context.is_the_model();
    let InRun {
        origin,
        mut context,
        run,
    } = at;
    match after_request(alloc, &mut context, ports, run, stop) {
        Ok(reply) => {
            let answer = answer_with(origin, reply);
            close_request(store, book, answer, context)
        }
        Err(Memory) => lose_context(alloc, store, book, origin, context),
    }
}
