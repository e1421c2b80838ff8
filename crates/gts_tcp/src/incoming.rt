ghost use Rattle.std.specs.Prelude.{◌≡◌, ◌≤◌, [], length, IfOk};

use crate::cause::{named, note};
use crate::pausing::Pauses;
use crate::stop::{LONGEST_WAIT, Patience, goes_on, has_waited};
use crate::telling::{A_MINUTE, News, Teller};
use crate::{LineCall, LineCause, Stop};
use gts_traits::{Failed, Line, Place, Source, counted};
use std::io;
use std::io::{ErrorKind, Read};
use std::net::{IpAddr, Ipv4Addr, SocketAddr, TcpListener, TcpStream};
use std::time::{Clock, Duration};

/// How often a connection that is waited for without an end is read in a second.
const LOOKS_A_SECOND: u64 = 1_000 / LONGEST_WAIT as u64;

/// The connections that a circuit's bytes come in on, one after another. They tell no bytes.
#[derive(Drop)]
pub struct TcpIn<'a, R: Clock + Eprint> {
    rt: &'a R,
    /// None where the circuit is closed.
    listener: Option<TcpListener>,
    place: Place,
    patience: Patience<'a>,
    /// The present connection. None where it isn't accepted yet, or was read to its end.
    stream: Option<TcpStream>,
    /// Whether the neighbour has ended the present connection, which is closed then at once.
    has_ended: bool,
    faults: u64,
    cause: Option<LineCause>,
    /// Tells of who is turned away.
    callers: Teller,
    /// Tells of failures.
    failures: Teller,
}

impl<'a, R: Clock + Eprint> TcpIn<'a, R> {
    /// The connections of this listener, which doesn't wait; none was accepted yet, and none has failed. Where accepting fails, that
    /// is answered, or it is tried again and again. Without a listener none comes.
    pub(crate) fn new(
        rt: &'a R,
        circuit: u32,
        listener: Option<TcpListener>,
        at: &Place,
        patience: Patience<'a>,
    ) -> TcpIn<'a, R>
        ensures { result.faults ≡ 0 }
    {
        TcpIn {
            rt,
            listener,
            place: *at,
            patience,
            stream: None,
            has_ended: false,
            faults: 0,
            cause: None,
            callers: Teller::new(circuit),
            failures: Teller::new(circuit),
        }
    }

    /// How often it has failed.
    pub(crate) fn faults(&self) -> u64
        ensures { result ≡ self.now.faults }
    {
        self.faults
    }

    /// Why it failed last.
    pub(crate) fn cause(&self) -> Option<LineCause> {
        self.cause
    }

    /// Tells the operator of a caller who is turned away, at most of one a minute.
    fn tell_turned_away(&mut self, caller: IpAddr)
        ensures { self.new.faults ≡ self.old.faults }
    {
        self.callers
            .tell(self.rt, A_MINUTE, News::TurnedAway { caller });
    }

    /// Tells the operator of a failure where a service goes on behind it, at most of one a minute. A run tells of its own at its end.
    fn tell_failure(&mut self, cause: LineCause)
        ensures { self.new.faults ≡ self.old.faults }
    {
        if self.patience.tries.is_none() && goes_on(self.patience.stop).is_ok() {
            self.failures
                .tell(self.rt, A_MINUTE, News::Failed { cause });
        }
    }

    /// The neighbour's next connection, which is looked for again and again. A caller that was gone before it was accepted is passed
    /// over. One from another address is closed, and told of.
    fn next_caller(&mut self) -> io::Result<TcpStream>
        ensures { self.new.faults ≡ self.old.faults }
    {
        let mut looks = Pauses::of_looks();
        let mut pauses = Pauses::new();
        for _ in 0..u64::MAX {
            goes_on(self.patience.stop)?;
            match caller_at(&self.listener) {
                Ok((stream, from)) if is_neighbour(self.place.host, from.ip()) => {
                    if is_ready(&stream) {
                        return Ok(stream);
                    }
                }
                Ok((stream, from)) => {
                    drop(stream);
                    self.tell_turned_away(from.ip());
                }
                Err(error) if has_waited(&error) => looks.make(self.rt, self.patience.stop),
                Err(error) if error.kind() == ErrorKind::ConnectionAborted => {}
                Err(error) if self.patience.tries.is_some() => return Err(error),
                // Nobody calls on a closed circuit, which is no failure: a service waits there until it is to end.
                Err(_) if self.listener.is_none() => {
                    pauses.make(self.rt, self.patience.stop);
                }
                // There may be no descriptor left for a while.
                Err(error) => {
                    let (call, port) = (LineCall::Accept, self.place.input);
                    self.tell_failure(LineCause { call, port, error });
                    pauses.make(self.rt, self.patience.stop);
                }
            }
        }
        Err(io::Error::from(ErrorKind::ConnectionAborted))
    }

    /// Whether no connection comes, and none is waited for: the circuit is closed, and the run is no service.
    fn is_over(&self) -> bool {
        self.listener.is_none() && self.patience.tries.is_some()
    }

    /// Accepts the next connection. None comes where the circuit is closed; a service then waits until it is to end.
    fn accept(&mut self) -> io::Result<()>
        ensures { self.new.faults ≡ self.old.faults }
    {
        if self.is_over() {
            return Ok(());
        }
        self.stream = Some(self.next_caller()?);
        self.has_ended = false;
        Ok(())
    }

    /// Reads some bytes of the present connection, or of the next one, where none was accepted yet.
    fn read_some(&mut self, into: &mut [u8]) -> Result<usize, LineCause>
        ensures count { IfOk result (λ count. count ≤ length into.new) }
        ensures faults { self.new.faults ≡ self.old.faults }
    {
        let port = self.place.input;
        if self.stream.is_none() && !self.has_ended {
            named(self.accept(), LineCall::Accept, port)?;
        }
        if self.has_ended || self.is_over() {
            return Ok(0);
        }
        let idle = self.place.idle;
        let stop = self.patience.stop;
        let is_asked = !into.is_empty();
        let answer = match &mut self.stream {
            Some(stream) => named(read_within(stream, into, idle, stop), LineCall::Read, port),
            None => named(Err(not_connected()), LineCall::Read, port),
        };
        if let Ok(0) = answer
            && is_asked
        {
            self.stream = None;
            self.has_ended = true;
        }
        answer
    }
}

/// Looks for a caller, of whom there is none where nobody listens.
fn caller_at(listener: &Option<TcpListener>) -> io::Result<(TcpStream, SocketAddr)> {
    match listener {
        Some(listener) => listener.accept(),
        None => Err(not_connected()),
    }
}

/// Reads some bytes of a connection, whose reads wait for a short time each. One on which no byte comes for so many seconds is broken;
/// without a number it is waited for without an end.
fn read_within(
    stream: &mut TcpStream,
    into: &mut [u8],
    idle: Option<u16>,
    stop: Option<&Stop>,
) -> io::Result<usize>
    ensures { IfOk result (λ count. count ≤ length into.new) }
{
    let looks = idle.map_or(u64::MAX, |seconds| u64::from(seconds) * LOOKS_A_SECOND);
    for _ in 0..looks {
        goes_on(stop)?;
        match stream.read(into) {
            Err(error) if has_waited(&error) => {}
            answer => return answer,
        }
    }
    Err(io::Error::from(ErrorKind::TimedOut))
}

/// Whether a caller from this address is the neighbour at that host. On the machine itself the system lets callers come from
/// 127.0.0.1, whatever loopback address is their own.
fn is_neighbour(host: Ipv4Addr, caller: IpAddr) -> bool {
    caller == IpAddr::V4(host) || (host.is_loopback() && caller == IpAddr::V4(Ipv4Addr::LOCALHOST))
}

/// No connection stands.
pub(crate) fn not_connected() -> io::Error {
    io::Error::from(ErrorKind::NotConnected)
}

/// Whether a caller is still there, and can be read for a short time at once. One that broke its connection before it was accepted
/// has left an error on it.
fn is_ready(caller: &TcpStream) -> bool {
    let shortly = Duration::from_millis(u64::from(LONGEST_WAIT));
    matches!(caller.take_error(), Ok(None)) && caller.set_read_timeout(Some(shortly)).is_ok()
}

impl<R: Clock + Eprint> Source for TcpIn<'_, R> {
    ghost observed = { ⊥ };

    ghost left = { λ _. [] };

    ghost faults = { λ s. s.faults };

    /// Accepts a connection, where none was yet. Fails where that broke, where no byte came on it for the circuit's `idle` seconds,
    /// or where none could be accepted.
    fn read(&mut self, into: &mut [u8]) -> Result<usize, Failed> {
        let answer = self.read_some(into);
        if let Err(cause) = answer {
            self.tell_failure(cause);
        }
        note(&answer, &mut self.cause);
        counted(answer, &mut self.faults)
    }
}

impl<R: Clock + Eprint> Line for TcpIn<'_, R> {
    /// Closes the connection and waits for the next one on the same port. It is closed before, since a neighbour that still
    /// sends on it would else never hear that nobody reads.
    fn again(&mut self) -> Result<(), Failed> {
        self.stream = None;
        let answer = named(self.accept(), LineCall::Accept, self.place.input);
        note(&answer, &mut self.cause);
        counted(answer, &mut self.faults)
    }
}
