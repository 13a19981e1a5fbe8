//! What a command is given of the outside.

ghost use Rattle.std.specs.Prelude.{◌≡◌};
ghost use Rattle.command_parts.specs.Outside.{Names, Outside, outside, see};

use edge_files::Files;
use edge_streams::{Sink, Source};

/// What a command is given: files, what it reads, what it writes, and where it reports refusals.
/// It is made once, and lent to a command.
#[derive(Drop)]
pub struct Given<'a, F, S, K, E> {
    pub files: &'a mut F,
    pub source: &'a mut S,
    pub sink: &'a mut K,
    pub errs: &'a mut E,
}

/// What contracts see of what a command is given: what all its objects tell, before and after it,
/// and that they are the same ones.
pub trait Shows {
    /// What they tell, before and after.
    ghost outside: { Self → Self → Outside };

    /// Which objects they are.
    ghost names: { Self → Names };
}

impl<'a, F: Files, S: Source, K: Sink, E: Sink> Shows for Given<'a, F, S, K, E> {
    ghost outside = { λ old new. outside
        (see F.contents F.faults old.files.now new.files.now)
        (see S.remaining S.faults old.source.now new.source.now)
        (see K.contents K.faults old.sink.now new.sink.now)
        (see E.contents E.faults old.errs.now new.errs.now) };

    ghost names = { λ given. record {
      files = given.files.ghost_name;
      source = given.source.ghost_name;
      sink = given.sink.ghost_name;
      errs = given.errs.ghost_name;
    } };
}

impl<'a, F: Files, S: Source, K: Sink, E: Sink> Given<'a, F, S, K, E> {
    /// These objects, for a command.
    pub fn over(
        files: &'a mut F,
        source: &'a mut S,
        sink: &'a mut K,
        errs: &'a mut E,
    ) -> Given<'a, F, S, K, E>
        ensures files { result.files ≡ files.entry }
        ensures source { result.source ≡ source.entry }
        ensures sink { result.sink ≡ sink.entry }
        ensures errs { result.errs ≡ errs.entry }
    {
        Given {
            files,
            source,
            sink,
            errs,
        }
    }
}
