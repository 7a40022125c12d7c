//! The owner's ends of the intake and of the lanes.
ghost use Rattle.std.specs.Prelude.{◌≡◌, ◌+◌, ◌<◌, ◌≤◌, ◌++◌, ◌∷◌, [], IfOk, length, map};
ghost use Rattle.crossbeam_channel.specs.Claims.{view, IsSeatAt};
ghost use Rattle.crossbeam_channel.specs.Ends.{sends_on, receives_on, ruled_capacity};
ghost use Rattle.permit_hall.specs.Intake.{owner, session};
ghost use Rattle.permit_hall.specs.Lane.{lane_note};
ghost use Rattle.permit_hall.specs.Owner.{HasSent};
ghost use Rattle.permit_hall.specs.Session.{Has};
ghost use Rattle.permit_hall.specs.Hall.{IsOf, IsWhole, IsNew};

use crate::intake::{
    Envelope, Intake, IntakeNote, IntakePass, IntakeReceiver, IntakeSender, Sessions,
};
use crate::lane::{Ends, Lane, LaneNote};
use crate::owner::Outlet;
use crate::session::Session;
use crossbeam_channel::bounded_with;
use std::alloc::{AllocError, Global};

/// How many requests may wait in the intake.
const ROOM: usize = 64;

/// The owner's ends. The owner never sends by `sender`: with it sessions are made, and taken back at the end.
#[derive(Drop)]
pub struct Hall<A: Drop, Y: Drop> {
    pub sender: IntakeSender<A>,
    pub intake: IntakeReceiver<A>,
    pub pass: IntakePass<A>,
    pub outlets: Vec<Outlet<Y>>,
}

// A lane, by its two ends.
fn lane<A: Drop, Y: Drop>(
    alloc: Global,
    number: usize,
    intake: IntakeSender<A>,
    pass: IntakePass<A>,
) -> Result<(Outlet<Y>, Session<A, Y>), AllocError>
    requires { IsSeatAt (sends_on intake) pass × (view pass ≡ session number []) }
    ensures outlet { IfOk result (λ r. HasSent [] r.0) }
    ensures room { IfOk result (λ r. ruled_capacity (sends_on r.0.lane) ≡ 1) }
    ensures session { IfOk result (λ r. Has r.1 [] [] × (r.1.number ≡ number)
        × (sends_on r.1.intake ≡ sends_on intake) × (receives_on r.1.lane ≡ sends_on r.0.lane)) }
{
    let (to, from, mut whole) = bounded_with::<Y, LaneNote<Y>, Lane, Global>(alloc, 1)?;
    let lane_pass = to.another::<Ends>(&mut whole);
    let outlet = Outlet {
        lane: to,
        lane_pass: whole,
    };
    let session = Session {
        number,
        intake,
        pass,
        lane: from,
        lane_pass,
    };
    Ok((outlet, session))
}

// A hall with no session.
fn empty<A: Drop, Y: Drop>(alloc: Global) -> Result<Hall<A, Y>, AllocError>
    ensures new { IfOk result (λ h. IsNew h []) }
    ensures room { IfOk result (λ h. ruled_capacity (sends_on h.sender) ≡ 64) }
{
    let (sender, intake, pass) = bounded_with::<Envelope<A>, IntakeNote<A>, Intake, Global>(
        alloc, ROOM,
    )?;
    Ok(Hall {
        sender,
        intake,
        pass,
        outlets: Vec::new(alloc),
    })
}

/// A hall with a session for each task, in order.
pub fn open<A: Drop, Y: Drop, P: Drop>(
    alloc: Global,
    tasks: Vec<P>,
) -> Result<(Hall<A, Y>, Vec<(Session<A, Y>, P)>), AllocError>
    ensures tasks { IfOk result (λ r. map (λ j. j.1) r.1.items ≡ tasks.items) }
    ensures new { IfOk result (λ r. IsNew r.0 (map (λ j. j.0) r.1.items)) }
{
    let mut hall = empty(alloc)?;
    let mut jobs = Vec::new(alloc);
    for task in tasks {
        let number = jobs.len();
        let pass = hall.sender.another::<Sessions>(&mut hall.pass);
        let (outlet, session) = lane(alloc, number, hall.sender.try_clone()?, pass)?;
        hall.outlets.push(outlet)?;
        jobs.push((session, task))?;
    }
    Ok((hall, jobs))
}
