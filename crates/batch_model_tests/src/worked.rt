//! Worked batches.

ghost use Rattle.std.specs.Prelude.{◌∷◌, []};
ghost use Rattle.batch_model.specs.Fits.{Fits, IsWholeJournal};
ghost use Rattle.batch_model_tests.specs.Misfits as misfits;
ghost use Rattle.batch_model_tests.specs.Misfits.{AreWrong, IsMisspelled};
ghost use Rattle.batch_model_tests.specs.Plans as plans;
ghost use Rattle.batch_model_tests.specs.Rows as rows;
ghost use Rattle.journal_model.specs.declared.event.Event.TheVariants as event;

/// Texts that fit. Three requests of one function: with room for an idle context, with none, and
/// where a context may answer two; one request through three layers; two whose layer isn't there;
/// two functions with room for one layer; a request that faults; and two that find no memory.
fn texts_fit()
    ensures hot { Fits (plans.copied (plans.counting 1 64)) rows.thrice rows.hot_text }
    ensures warm { Fits (plans.copied (plans.counting 0 64)) rows.thrice rows.warm_text }
    ensures worn { Fits (plans.copied (plans.counting 1 2)) rows.thrice rows.worn_text }
    ensures three { Fits (plans.copied plans.three) rows.one_three rows.three_text }
    ensures spinning { Fits (plans.copied plans.spinning) rows.empty_twice rows.spinning_text }
    ensures two { Fits (plans.copied plans.two) rows.mixed rows.two_text }
    ensures breaking { Fits (plans.copied plans.breaking) rows.once rows.breaking_text }
    ensures wanted { Fits (plans.copied (plans.counting 1 64)) rows.twice rows.wanted_text }
{}

/// Wrong lines with a right journal: a hot request that is said to be warm, one of another context,
/// a wrong use, wrong steps, the packets of the request before, `memory` and `frames` without their
/// events, and `ok` where the journal says `want`.
fn lines_are_wrong()
    ensures how { AreWrong (plans.copied (plans.counting 1 64)) rows.thrice
        (misfits.with_second misfits.said_warm) rows.hot_events }
    ensures context { AreWrong (plans.copied (plans.counting 1 64)) rows.thrice
        (misfits.with_second misfits.of_another) rows.hot_events }
    ensures used { AreWrong (plans.copied (plans.counting 1 64)) rows.thrice
        (misfits.with_second misfits.used_once_more) rows.hot_events }
    ensures steps { AreWrong (plans.copied (plans.counting 1 64)) rows.thrice
        (misfits.with_second misfits.stepped_more) rows.hot_events }
    ensures packets { AreWrong (plans.copied (plans.counting 1 64)) rows.thrice
        (misfits.with_second misfits.packets_before) rows.hot_events }
    ensures memory { AreWrong (plans.copied (plans.counting 1 64)) rows.thrice
        (misfits.with_second misfits.said_memory) rows.hot_events }
    ensures frames { AreWrong (plans.copied (plans.counting 1 64)) rows.thrice
        (misfits.with_second misfits.said_frames) rows.hot_events }
    ensures want { AreWrong (plans.copied (plans.counting 1 64)) rows.twice
        (misfits.with_first misfits.said_ok) rows.wanted_events }
{}

/// Wrong journals with the lines of a right batch: a layer is built with a page less, or more; a
/// context is parked after a fault, ended where it is to be parked, or neither.
fn journals_are_wrong()
    ensures fewer { AreWrong (plans.copied (plans.counting 1 64)) rows.thrice rows.hot_answers
        (misfits.built_with 0) }
    ensures more { AreWrong (plans.copied (plans.counting 1 64)) rows.thrice rows.hot_answers
        (misfits.built_with 2) }
    ensures parked { AreWrong (plans.copied plans.breaking) rows.once rows.breaking_answers
        misfits.parked_events }
    ensures ended { AreWrong (plans.copied (plans.counting 1 64)) rows.thrice rows.hot_answers
        (misfits.ended_with (event.End 1 ∷ [])) }
    ensures unparked { AreWrong (plans.copied (plans.counting 1 64)) rows.thrice rows.hot_answers
        (misfits.ended_with []) }
{}

/// These journals, but the last, are legal and whole, and started their requests: what is wrong
/// with them is their number of pages, and which contexts they park.
fn wrong_journals_are_legal()
    ensures fewer { IsWholeJournal (plans.copied (plans.counting 1 64)) rows.thrice
        (misfits.built_with 0) rows.hot_state }
    ensures more { IsWholeJournal (plans.copied (plans.counting 1 64)) rows.thrice
        (misfits.built_with 2) rows.hot_state }
    ensures parked { IsWholeJournal (plans.copied plans.breaking) rows.once
        misfits.parked_events misfits.parked_state }
    ensures ended { IsWholeJournal (plans.copied (plans.counting 1 64)) rows.thrice
        (misfits.ended_with (event.End 1 ∷ [])) misfits.ended_state }
{}

/// Texts of right lines and a right journal with wrong totals: a hot request is counted as warm, or
/// a frame is missing.
fn totals_are_wrong()
    ensures counted { IsMisspelled (plans.copied (plans.counting 1 64)) rows.thrice
        rows.hot_answers rows.hot_events misfits.counted_warm }
    ensures free { IsMisspelled (plans.copied (plans.counting 1 64)) rows.thrice
        rows.hot_answers rows.hot_events misfits.fewer_free }
{}
