//! A door over a listener of the standard library.

ghost use Rattle.std.specs.Prelude.{◌≡◌, ◌≤◌, None, IsSome, IfOk};
ghost use Rattle.edge_streams.specs.Faults.{Rises};

use crate::door::Door;
use crate::link::Link;
use crate::std_link::StdLink;
use edge_streams::{Failed, RETRIES, one_more};
use std::io::ErrorKind;
use std::net::{Net, OpenListener, OpenStream, TcpListener};
use std::time::Duration;

/// How long a read or a write of an accepted connection may wait for its peer.
const TIME_OUT_SECONDS: u64 = 30;

/// The connections of the system, over TCP. It tells none of them. A connection that is
/// accepted has time-outs of 30 seconds, so that a silent peer can't hold its server for ever.
///
/// In `main` this is `StdDoor::new(&rt)`.
#[derive(Drop)]
pub struct StdDoor<'a, R: Net> {
    runtime: &'a R,
    listener: Option<R::Listener>,
    /// How many calls failed. At its type's end it stands still.
    faults: u64,
}

/// The next connection. One that a signal interrupts is asked for again, 16 times at most.
fn next_stream<L: OpenListener>(listener: &L) -> Result<L::Stream, Failed> {
    for _ in 0..RETRIES + 1 {
        match listener.accept() {
            Ok((stream, _)) => return Ok(stream),
            Err(error) if error.kind() == ErrorKind::Interrupted => {}
            Err(_) => return Err(Failed),
        }
    }
    Err(Failed)
}

/// Lets no read and no write of this stream wait longer than the time-out.
fn set_time_outs<S: OpenStream>(stream: &S) -> Result<(), Failed> {
    let time_out = Duration::from_secs(TIME_OUT_SECONDS);
    if stream.set_read_timeout(Some(time_out)).is_err() {
        return Err(Failed);
    }
    stream.set_write_timeout(Some(time_out)).map_err(|_| Failed)
}

impl<'a, R: Net> StdDoor<'a, R> {
    /// The door of this runtime. It doesn't listen yet, and has no faults.
    pub fn new(runtime: &'a R) -> StdDoor<'a, R>
        ensures log { ⟦<StdDoor<'a, R> as Door>⟧.log result ≡ None }
        ensures faults { ⟦<StdDoor<'a, R> as Door>⟧.faults result ≡ 0 }
    {
        StdDoor {
            runtime,
            listener: None,
            faults: 0,
        }
    }

    /// How many calls failed. At its type's end the count stands still.
    pub fn faults(&self) -> u64
        ensures { ⟦<StdDoor<'a, R> as Door>⟧.faults self.now ≡ result }
    {
        self.faults
    }

    /// The port at which the door listens, where it does and the system tells it. Whoever
    /// listens at port 0 gets one that is free.
    pub fn port(&self) -> Option<u16> {
        match &self.listener {
            Some(listener) => Some(listener.local_addr().ok()?.port()),
            None => None,
        }
    }

    /// The next connection, with its time-outs.
    fn next_link(&self) -> Result<StdLink<R::Stream>, Failed>
        ensures faults { IfOk result (λ link.
            ⟦<StdLink<R::Stream> as Link>⟧.faults link ≡ 0) }
        ensures sent { IfOk result (λ link.
            ⟦<StdLink<R::Stream> as Link>⟧.sent link ≡ None) }
    {
        let Some(listener) = &self.listener else {
            return Err(Failed);
        };
        let stream = next_stream(listener)?;
        set_time_outs(&stream)?;
        Ok(StdLink::new(stream))
    }

    /// Counts an edge fault, and answers it.
    fn fail(&mut self) -> Failed
        ensures rises { Rises self.old.faults self.new.faults }
        ensures never_falls { self.old.faults ≤ self.new.faults }
        ensures listener { self.new.listener ≡ self.old.listener }
    {
        self.faults = one_more(self.faults);
        Failed
    }
}

impl<'a, R: Net> Door for StdDoor<'a, R> {
    type Conn = StdLink<R::Stream>;

    ghost faults = { λ door. door.faults };

    ghost listens = { λ door. IsSome door.listener };

    ghost log = { λ _. None };

    /// Binds a listener. An error is an edge fault.
    fn listen(&mut self, address: &str) -> Result<(), Failed> {
        match TcpListener::bind(self.runtime, address) {
            Ok(listener) => {
                self.listener = Some(listener);
                Ok(())
            }
            Err(_) => Err(self.fail()),
        }
    }

    /// Takes another handle of the listener of `first`. An error is an edge fault.
    fn share(&mut self, first: &StdDoor<'a, R>) -> Result<(), Failed> {
        let Some(shared) = &first.listener else {
            return Err(self.fail());
        };
        match shared.try_clone() {
            Ok(listener) => {
                self.listener = Some(listener);
                Ok(())
            }
            Err(_) => Err(self.fail()),
        }
    }

    /// Accepts a connection, and gives it its time-outs. An error of either is an edge fault.
    fn accept(&mut self) -> Result<StdLink<R::Stream>, Failed> {
        match self.next_link() {
            Ok(link) => Ok(link),
            Err(Failed) => Err(self.fail()),
        }
    }

    /// Closes the connection.
    fn finish(&mut self, _conn: StdLink<R::Stream>) {}
}
