//! The state of a journal, and how its parts are read and changed.

ghost use Rattle.std.specs.Prelude.{◌≡◌, ℕ, ◌+◌, ◌^◌, ◌<◌, ◌∷◌, ◌++◌, [], length, OnOk, true};
ghost use Rattle.std.specs.Prelude.{◌==◌, ◌-◌, OnErr, take};
ghost use Rattle.journal_model.specs.Legal as legal;
ghost use Rattle.journal_model.specs.State as model;
ghost use Rattle.journal_model.specs.declared.state.Owed.TheVariants.{Nothing};

use crate::numbered::{is_next, numbered, put};
use crate::recent::Recent;
use journal_model::{ContextState, Duty, How, Owed, RequestState, Standing};
use machine_model::Memory;
use std::alloc::Global;
use std::marker::Model;

/// Where a journal stands: the model's state, with requests and contexts found by their numbers.
#[derive(Drop)]
pub struct Current {
    idle: Recent,
    kept: Recent,
    requests: Vec<RequestState>,
    contexts: Vec<ContextState>,
    free: u32,
    owed: Owed,
}

impl Model for Current {
    ghost use Rattle.std.specs.Prelude.{◌<◌, ◌^◌, length};
    ghost use Rattle.journal_model.specs.State.{State};

    ghost Value = { State };

    ghost view = { λ j. record {
      idle = j.idle;
      kept = j.kept;
      requests = j.requests.items;
      contexts = j.contexts.items;
      free = j.free;
      owed = j.owed;
    } };

    ghost invariant = { λ j. length j.requests.items < 2 ^ 32 };
}

impl Current {
    /// Nothing was started or drawn, and so many frames are free.
    pub fn new(alloc: Global, free: u32) -> Current
        ensures { result ≡ record {
          idle = [];
          kept = [];
          requests = [];
          contexts = [];
          free = free;
          owed = Nothing;
        } }
    {
        Current {
            idle: Recent::new(alloc),
            kept: Recent::new(alloc),
            requests: Vec::new(alloc),
            contexts: Vec::new(alloc),
            free,
            owed: Owed::Nothing,
        }
    }

    /// The idle contexts, most recent first.
    pub fn idle(&self) -> &Recent
        ensures { result.now ≡ self.now.idle }
    {
        &self.idle
    }

    /// The kept layers, most recent first.
    pub fn kept(&self) -> &Recent
        ensures { result.now ≡ self.now.kept }
    {
        &self.kept
    }

    /// The requests that were started, fewer than 2^32.
    pub fn requests(&self) -> &[RequestState]
        ensures items { result.now ≡ self.now.requests }
        ensures few { length result.now < 2 ^ 32 }
    {
        &self.requests
    }

    /// The contexts that were drawn.
    pub fn contexts(&self) -> &[ContextState]
        ensures { result.now ≡ self.now.contexts }
    {
        &self.contexts
    }

    /// How many frames are free.
    pub fn free(&self) -> u32
        ensures { result ≡ self.now.free }
    {
        self.free
    }

    /// Says how many frames are free.
    pub fn set_free(&mut self, free: u32)
        ensures { self.new ≡ record self.old { free = free } }
    {
        self.free = free;
    }

    /// What must stand next.
    pub fn owed(&self) -> Owed
        ensures { result ≡ self.now.owed }
    {
        self.owed
    }

    /// Says what must stand next.
    pub fn set_owed(&mut self, owed: Owed)
        ensures { self.new ≡ record self.old { owed = owed } }
    {
        self.owed = owed;
    }

    /// Request `i`, if it was started.
    pub fn request(&self, i: u32) -> Option<RequestState>
        ensures { result ≡ model.numbered self.now.requests i }
    {
        numbered(&self.requests, i)
    }

    /// Context `c`, if it was drawn.
    pub fn context(&self, c: u32) -> Option<ContextState>
        ensures { result ≡ model.numbered self.now.contexts c }
    {
        numbered(&self.contexts, c)
    }

    /// Whether `i` is the number of the next request.
    pub fn is_next_request(&self, i: u32) -> bool
        ensures { result ≡ (i == length self.now.requests + 1) }
    {
        is_next(i, self.requests.len())
    }

    /// Whether `c` is the number of the next context.
    pub fn is_next_context(&self, c: u32) -> bool
        ensures { result ≡ (c == length self.now.contexts + 1) }
    {
        is_next(c, self.contexts.len())
    }

    /// Adds a request. Where memory ran out, all is as before.
    pub fn add_request(&mut self, request: RequestState) -> Result<(), Memory>
        requires { length self.old.requests + 1 < 2 ^ 32 }
        ensures added { OnOk result (self.new ≡ record self.old {
          requests = self.old.requests ++ request ∷ [];
        }) }
        ensures memory { OnErr result (self.new ≡ self.old) }
    {
        if self.requests.push(request).is_err() {
            return Err(Memory);
        }
        Ok(())
    }

    /// Adds a context. Where memory ran out, all is as before.
    pub fn add_context(&mut self, context: ContextState) -> Result<(), Memory>
        ensures added { OnOk result (self.new ≡ record self.old {
          contexts = self.old.contexts ++ context ∷ [];
        }) }
        ensures memory { OnErr result (self.new ≡ self.old) }
    {
        if self.contexts.push(context).is_err() {
            return Err(Memory);
        }
        Ok(())
    }

    /// Takes the context that was added last away.
    pub fn remove_context(&mut self)
        ensures { self.new ≡ record self.old {
          contexts = take (length self.old.contexts - 1) self.old.contexts;
        } }
    {
        let _context = self.contexts.pop();
    }

    /// Makes a context the most recent idle one. Where memory ran out, all is as before.
    pub fn put_idle(&mut self, c: u32) -> Result<(), Memory>
        ensures put { OnOk result (self.new ≡ record self.old { idle = c ∷ self.old.idle }) }
        ensures memory { OnErr result (self.new ≡ self.old) }
    {
        self.idle.put_first(c)
    }

    /// Takes a context from the idle ones.
    pub fn remove_idle(&mut self, c: u32)
        ensures { self.new ≡ record self.old { idle = model.without c self.old.idle } }
    {
        self.idle.remove(c);
    }

    /// Makes a layer the most recent kept one. Where memory ran out, all is as before.
    pub fn put_kept(&mut self, k: u16) -> Result<(), Memory>
        ensures put { OnOk result (self.new ≡ record self.old { kept = k ∷ self.old.kept }) }
        ensures memory { OnErr result (self.new ≡ self.old) }
    {
        self.kept.put_first(u32::from(k))
    }

    /// Brings a kept layer to the front. Where memory ran out, all is as before.
    pub fn bring_to_front(&mut self, k: u16) -> Result<(), Memory>
        ensures brought { OnOk result (self.new ≡ record self.old {
          kept = k ∷ model.without k self.old.kept;
        }) }
        ensures memory { OnErr result (self.new ≡ self.old) }
    {
        self.kept.bring_to_front(u32::from(k))
    }

    /// Takes a layer from the kept ones.
    pub fn remove_kept(&mut self, k: u16)
        ensures { self.new ≡ record self.old { kept = model.without k self.old.kept } }
    {
        self.kept.remove(u32::from(k));
    }

    /// Gives request `i` another state.
    fn set_request(&mut self, i: u32, request: RequestState)
        ensures { self.new ≡ record self.old {
          requests = legal.with_numbered i request self.old.requests;
        } }
    {
        put(&mut self.requests, i, request);
    }

    /// Gives context `c` another state.
    fn set_context(&mut self, c: u32, context: ContextState)
        ensures { self.new ≡ record self.old {
          contexts = legal.with_numbered c context self.old.contexts;
        } }
    {
        put(&mut self.contexts, c, context);
    }

    /// Says how request `i` stands, and where its context stood then.
    #[tactic(auto, unfolding(journal_model::specs::Legal::with_standing))]
    pub fn set_standing(&mut self, i: u32, standing: Standing, place: Option<u16>)
        ensures { self.new ≡ record self.old {
          requests = legal.with_standing i standing place self.old.requests;
        } }
    {
        if let Some(request) = self.request(i) {
            self.set_request(
                i,
                RequestState {
                    standing,
                    place,
                    ..request
                },
            );
        }
    }

    /// Says which context request `i` was given, where that came from, and how many requests it had
    /// answered.
    #[tactic(auto, unfolding(journal_model::specs::Legal::with_service))]
    pub fn set_service(&mut self, i: u32, how: How, c: u32, used: u64)
        ensures { self.new ≡ record self.old {
          requests = legal.with_service i how c used self.old.requests;
        } }
    {
        if let Some(request) = self.request(i) {
            let context = Some(c);
            self.set_request(
                i,
                RequestState {
                    how,
                    context,
                    used,
                    ..request
                },
            );
        }
    }

    /// Says what context `c` is there for.
    #[tactic(auto, unfolding(journal_model::specs::Legal::with_duty))]
    pub fn set_duty(&mut self, c: u32, duty: Duty)
        ensures { self.new ≡ record self.old {
          contexts = legal.with_duty c duty self.old.contexts;
        } }
    {
        if let Some(context) = self.context(c) {
            self.set_context(c, ContextState { duty, ..context });
        }
    }

    /// Says at which layer context `c` stands.
    #[tactic(auto, unfolding(journal_model::specs::Legal::with_layer))]
    pub fn set_layer(&mut self, c: u32, k: u16)
        ensures { self.new ≡ record self.old {
          contexts = legal.with_layer c k self.old.contexts;
        } }
    {
        if let Some(context) = self.context(c) {
            let layer = Some(k);
            self.set_context(c, ContextState { layer, ..context });
        }
    }

    /// Says how many requests context `c` answered.
    #[tactic(auto, unfolding(journal_model::specs::Legal::with_used))]
    pub fn set_used(&mut self, c: u32, used: u64)
        ensures { self.new ≡ record self.old {
          contexts = legal.with_used c used self.old.contexts;
        } }
    {
        if let Some(context) = self.context(c) {
            self.set_context(c, ContextState { used, ..context });
        }
    }
}
