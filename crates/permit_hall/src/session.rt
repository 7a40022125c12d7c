//! A session, in its worker's thread.
ghost use Rattle.std.specs.Prelude.{◌≡◌, ◌++◌, ◌∷◌, [], true, false, Some, None};
ghost use Rattle.crossbeam_channel.specs.Claims.{view, IsSeatAt};
ghost use Rattle.crossbeam_channel.specs.Ends.{sends_on, receives_on};
ghost use Rattle.permit_hall.specs.Intake.{session, said};
ghost use Rattle.permit_hall.specs.Lane.{lane_note};
ghost use Rattle.permit_hall.specs.Session.{Has, put_by, got_by, IsSession, IsSamePlace};

use crate::intake::{Envelope, IntakePass, IntakeSender, Puts};
use crate::lane::{Collects, LanePass, LaneReceiver};
use std::sync::Wait;
use std::thread;

/// A session: its number, its ends of the intake and of its lane, and a pass of each.
#[derive(Drop)]
pub struct Session<A: Drop, Y: Drop> {
    pub number: usize,
    pub intake: IntakeSender<A>,
    pub pass: IntakePass<A>,
    pub lane: LaneReceiver<Y>,
    pub lane_pass: LanePass<Y>,
}

// Puts an envelope, and tries again where the send is refused.
fn put<A: Drop, R: Wait>(
    rt: &R,
    intake: &IntakeSender<A>,
    pass: &mut IntakePass<A>,
    envelope: Envelope<A>,
)
    requires seat { IsSeatAt (sends_on intake.now) pass.old }
    requires session { view pass.old ≡ session envelope.from (view pass.old).put }
    ensures seat { IsSeatAt (sends_on intake.now) pass.new }
    ensures put { view pass.new ≡ session envelope.from ((view pass.old).put ++ said envelope.request) }
{
    let mut envelope = envelope;
    for _ in rt.forever() {
        match intake.send_as::<Puts, R>(rt, pass, envelope) {
            Ok(()) => return,
            Err(refused) => envelope = refused.into_inner(),
        }
        thread::yield_now();
    }
    unreachable!()
}

// Collects an answer, and tries again where the receive is refused.
fn collect<Y: Drop, R: Wait>(rt: &R, lane: &LaneReceiver<Y>, mine: &mut LanePass<Y>) -> Y
    requires seat { IsSeatAt (receives_on lane.now) mine.old }
    requires session { view mine.old ≡ lane_note false true [] (view mine.old).got }
    ensures seat { IsSeatAt (receives_on lane.now) mine.new }
    ensures got { view mine.new ≡ lane_note false true [] ((view mine.old).got ++ result ∷ []) }
{
    for _ in rt.forever() {
        if let Ok(answer) = lane.recv_as::<Collects, R>(rt, mine) {
            return answer;
        }
        thread::yield_now();
    }
    unreachable!()
}

impl<A: Drop, Y: Drop> Session<A, Y> {
    /// Puts a request and collects its answer. It waits for room in the intake and then for the owner, without a bound.
    pub fn ask<R: Wait>(&mut self, rt: &R, request: A) -> Y
        requires { IsSession self.old }
        ensures has { Has self.new (put_by self.old ++ request ∷ []) (got_by self.old ++ result ∷ []) }
        ensures same { IsSamePlace self.old self.new }
    {
        put(
            rt,
            &self.intake,
            &mut self.pass,
            Envelope {
                from: self.number,
                request: Some(request),
            },
        );
        collect(rt, &self.lane, &mut self.lane_pass)
    }

    /// Puts the end mark, after which the owner expects nothing more of the session.
    pub fn end<R: Wait>(&mut self, rt: &R)
        requires { IsSession self.old }
        ensures has { Has self.new (put_by self.old) (got_by self.old) }
        ensures same { IsSamePlace self.old self.new }
    {
        put(
            rt,
            &self.intake,
            &mut self.pass,
            Envelope {
                from: self.number,
                request: None,
            },
        );
    }
}
