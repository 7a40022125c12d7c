//! The connections that a worker takes for itself, one after the other, from a listener that all workers share.

ghost use Rattle.std.specs.Prelude.{◌≡◌, All, IfOk, length};
ghost use Rattle.permit_sockets.specs.Taking.{HasGiven, IsNew, IsSpent};

use crate::limits::PAUSE;
use crate::pace::{AnswerWriter, RequestReader, with_timeouts};
pub use crate::stop::Flag;
use crate::stop::Stop;
use permit_hall::doors::Door;
use std::alloc::Global;
use std::net::{Net, SocketAddr, TcpListener, TcpStream};
use std::sync::{Arc, Wait};
use std::time::{Clock, Duration};
use std::{io, thread};

/// The connections that one worker takes, one after the other.
#[derive(Drop)]
pub struct Connections<C: Drop, W: Drop> {
    listener: TcpListener,
    /// Where the listener takes connections.
    address: SocketAddr,
    clock: C,
    waits: W,
    alloc: Global,
    /// Once it is set, no more are taken.
    shut: Flag,
    /// That it was found set.
    pub(crate) stop: Option<Stop>,
    /// How many more it takes; `None` for no end.
    left: Option<u32>,
}

impl<C: Clock + Net + Copy + Drop + Send, W: Wait + Copy + Drop + Send> Door for Connections<C, W> {
    type In = RequestReader<C>;

    type Out = AnswerWriter<C>;

    ghost spent = { IsSpent };

    ghost gave = { HasGiven };

    fn next(&mut self) -> Option<(RequestReader<C>, AnswerWriter<C>)> {
        let waits = self.waits;
        for _ in waits.forever() {
            // The flag is looked at first: the worker whose connection set it finds it so, after its last one too.
            if let Some(stop) = Stop::seen(&self.shut) {
                self.stop = Some(stop);
                // Another worker that waits here takes this connection, and sees the flag then.
                let _woken = TcpStream::connect(&self.clock, self.address);
                return None;
            }
            if self.left == Some(0) {
                return None;
            }
            let Ok((stream, _)) = self.listener.accept() else {
                thread::sleep(&self.clock, Duration::from_millis(PAUSE));
                continue;
            };
            if Stop::seen(&self.shut).is_some() {
                continue;
            }
            if let Ok(connection) = with_timeouts(self.alloc, self.clock, stream) {
                self.left = self.left.map(|left| left.saturating_sub(1));
                return Some(connection);
            }
        }
        unreachable!()
    }
}

/// A door for each worker, over a listener that all share, which takes connections at the address until the flag is set.
pub fn doors<C: Clock + Copy + Drop + Send, W: Copy + Drop>(
    alloc: Global,
    clock: C,
    waits: W,
    listener: &TcpListener,
    address: SocketAddr,
    shut: &Flag,
    workers: u32,
    connections: Option<u32>,
) -> io::Result<Vec<Connections<C, W>>>
    ensures count { IfOk result (λ doors. length doors.items ≡ workers) }
    ensures fresh { IfOk result (λ doors. All (λ d. IsNew connections address d) doors.items) }
{
    let mut doors = Vec::new(alloc);
    for worker in 0..workers {
        doors.push(Connections {
            listener: listener.try_clone()?,
            address,
            clock,
            waits,
            alloc,
            shut: Arc::try_clone(shut)?,
            stop: None,
            left: connections,
        })?;
    }
    Ok(doors)
}
