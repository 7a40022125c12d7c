//! The owner's loop: it takes what is put into the intake, one after the other, and sends each answer into its session's lane.
ghost use Rattle.std.specs.Prelude.{◌≡◌, ℕ, ◌++◌, ◌∷◌, [], ◌<◌, true, false, Some, None, List, length};
ghost use Rattle.crossbeam_channel.specs.Claims.{view, IsSeatAt};
ghost use Rattle.crossbeam_channel.specs.Ends.{sends_on, receives_on};
ghost use Rattle.permit_base.specs.declared.request.Asked.{Asked};
ghost use Rattle.permit_wire.specs.declared.service.Dated.{Dated};
ghost use Rattle.permit_hall.specs.Runs.{Entry};
ghost use Rattle.permit_hall.specs.declared.intake.Envelope.{Envelope};
ghost use Rattle.permit_hall.specs.Intake.{owner};
ghost use Rattle.permit_hall.specs.Lane.{lane_note};
ghost use Rattle.permit_hall.specs.Owner.{Serves, Sent, SameLanes, HasSent};

use crate::intake::{Envelope, IntakePass, IntakeReceiver, Takes};
use crate::lane::{LanePass, LaneSender, Sends};
use permit_base::request::Asked;
use permit_base::values::Day;
use permit_wire::{Dated, Service};
use std::sync::Wait;
use std::thread;

/// The owner's end of a lane.
#[derive(Drop)]
pub struct Outlet<Y: Drop> {
    pub lane: LaneSender<Y>,
    pub lane_pass: LanePass<Y>,
}

impl<Y: Drop> Outlet<Y> {
    // Sends a reply, and tries again where the send is refused.
    fn send<R: Wait>(&mut self, rt: &R, reply: Y)
        requires seat { IsSeatAt (sends_on self.old.lane) self.old.lane_pass }
        requires note { view self.old.lane_pass ≡ lane_note true false (view self.old.lane_pass).sent [] }
        ensures sent { HasSent ((view self.old.lane_pass).sent ++ reply ∷ []) self.new }
        ensures lane { sends_on self.new.lane ≡ sends_on self.old.lane }
    {
        let mut reply = reply;
        for _ in rt.forever() {
            match self
                .lane
                .send_as::<Sends, R>(rt, &mut self.lane_pass, reply)
            {
                Ok(()) => return,
                Err(refused) => reply = refused.into_inner(),
            }
            thread::yield_now();
        }
        unreachable!()
    }
}

// Serves a request of one of the sessions.
fn answer<M: Service<Day>, C: FnMut() -> Day, R: Wait>(
    rt: &R,
    service: &mut M,
    outlets: &mut Vec<Outlet<Dated>>,
    clock: &mut C,
    from: usize,
    request: Asked,
)
    requires ready { M.ready service.old }
    requires clock { C.IsAlwaysCallable clock.old }
    requires from { from < length outlets.old.items }
    requires sent { (served : List (Entry Asked Dated)) × Sent served outlets.old.items }
    ensures ready { M.ready service.new }
    ensures clock { C.IsAlwaysCallable clock.new }
    ensures lanes { SameLanes outlets.old.items outlets.new.items }
    ensures served { (served : List (Entry Asked Dated)) → Sent served outlets.old.items
        → (day : ℕ) × (reply : Dated) × C.step clock.old day clock.new × M.did service.old request day reply service.new
        × Sent (served ++ record { from = from; request = request; day = day; reply = reply } ∷ []) outlets.new.items }
{
    let day = clock();
    let reply = service.serve(&day, request);
    outlets[from].send(rt, reply);
}

// Takes an envelope, and says whether it was an end mark.
fn take_one<M: Service<Day>, C: FnMut() -> Day, R: Wait>(
    rt: &R,
    service: &mut M,
    outlets: &mut Vec<Outlet<Dated>>,
    clock: &mut C,
    envelope: Envelope<Asked>,
) -> bool
    requires ready { M.ready service.old }
    requires clock { C.IsAlwaysCallable clock.old }
    requires sent { (served : List (Entry Asked Dated)) × Sent served outlets.old.items }
    ensures ready { M.ready service.new }
    ensures clock { C.IsAlwaysCallable clock.new }
    ensures lanes { SameLanes outlets.old.items outlets.new.items }
    ensures served { (n : ℕ) (got : List (Envelope Asked)) (start : M) (first : C) (served : List (Entry Asked Dated))
        → n ≡ length outlets.old.items
        → Serves M.did C.step n got start service.old first clock.old served → Sent served outlets.old.items
        → (next : List (Entry Asked Dated))
        × Serves M.did C.step n (got ++ envelope ∷ []) start service.new first clock.new next × Sent next outlets.new.items }
{
    let Envelope { from, request } = envelope;
    let Some(request) = request else {
        return true;
    };
    if from >= outlets.len() {
        return false;
    }
    answer(rt, service, outlets, clock, from, request);
    false
}

/// Serves what is put, until as many end marks were taken.
pub fn serve_all<M: Service<Day>, C: FnMut() -> Day, R: Wait>(
    rt: &R,
    service: &mut M,
    intake: &IntakeReceiver<Asked>,
    pass: &mut IntakePass<Asked>,
    outlets: &mut Vec<Outlet<Dated>>,
    clock: &mut C,
    marks: usize,
)
    requires ready { M.ready service.old }
    requires clock { C.IsAlwaysCallable clock.old }
    requires pass { IsSeatAt (receives_on intake.now) pass.old × (view pass.old ≡ owner (view pass.old).made [] []) }
    requires sent { Sent {A = Asked} [] outlets.old.items }
    ensures ready { M.ready service.new }
    ensures pass { IsSeatAt (receives_on intake.now) pass.new × (view pass.new ≡ owner (view pass.old).made (view pass.new).got []) }
    ensures lanes { SameLanes outlets.old.items outlets.new.items }
    ensures served { (served : List (Entry Asked Dated))
        × Serves M.did C.step (length outlets.old.items) (view pass.new).got service.old service.new clock.old clock.new served
        × Sent served outlets.new.items }
{
    let mut left = marks;
    for _ in rt.forever() {
        if left == 0 {
            break;
        }
        match intake.recv_as::<Takes, R>(rt, pass) {
            Ok(envelope) => {
                let ended = take_one(rt, service, outlets, clock, envelope);
                left = left.saturating_sub(usize::from(ended));
            }
            Err(_) => thread::yield_now(),
        }
    }
}
