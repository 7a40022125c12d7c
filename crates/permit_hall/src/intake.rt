//! The intake: a channel under a rule, into which the sessions put and from which the owner takes.
//!
//! In the rules v is the note of a pass before a call, and w the note after it. Where two passes are joined they are the
//! notes of the two. The items are what is queued.

ghost use Rattle.std.specs.Prelude.{[], ◌∷◌, ◌++◌, ◌+◌};
ghost use Rattle.permit_hall.specs.Intake.{Taken, owner, session, nobody, PutsOne, TakesOne, Compares};

use crossbeam_channel::protocol::{Join, Lesson, Outcome, Protocol, Split};
use crossbeam_channel::{Pass, RuledReceiver, RuledSender};
use std::collections::LinkedList;

/// What a session puts, with its number: a request, or an end mark, which has none.
#[derive(Drop)]
pub struct Envelope<A> {
    pub from: usize,
    pub request: Option<A>,
}

/// The note of a pass of the intake: what the holder of that pass knows. It is used in contracts only, and no value of it is made.
///
/// A session's pass sends. It knows the session's number and what the session has put. The owner's pass gets. It knows how
/// many sessions were made, what was got, and what each session that came back had put.
pub struct IntakeNote<A> {
    pub sends: bool,
    pub gets: bool,
    pub from: usize,
    pub made: u64,
    pub put: LinkedList<A>,
    pub got: LinkedList<Envelope<A>>,
    pub known: LinkedList<LinkedList<A>>,
}

/// The rule of the intake.
pub struct Intake;

impl<A> Protocol<Envelope<A>, IntakeNote<A>> for Intake {
    ghost holds = { Taken };

    ghost first = { owner 0 [] [] };
}

/// A session puts. At a full intake it learns nothing.
pub struct Puts;

impl<A> Outcome<Envelope<A>, IntakeNote<A>> for Puts {
    ghost then = { PutsOne };
}

impl<A> Lesson<Envelope<A>, IntakeNote<A>> for Puts {
    ghost fact = { λ v items. Unit {0} };
}

/// The owner takes. At an empty intake it learns nothing.
pub struct Takes;

impl<A> Outcome<Envelope<A>, IntakeNote<A>> for Takes {
    ghost then = { TakesOne };
}

impl<A> Lesson<Envelope<A>, IntakeNote<A>> for Takes {
    ghost fact = { λ v items. Unit {0} };
}

/// Of the sessions that came back the owner learns that what they had put is what it has taken, and what still waits.
pub struct Compared;

impl<A> Lesson<Envelope<A>, IntakeNote<A>> for Compared {
    ghost fact = { Compares };
}

/// The owner makes the next session, and takes back one that has ended.
pub struct Sessions;

impl<A> Split<IntakeNote<A>> for Sessions {
    ghost left = { λ v. owner (v.made + 1) v.got v.known };

    ghost right = { λ v. session v.made [] };
}

impl<A> Join<IntakeNote<A>> for Sessions {
    ghost both = { λ v w. owner v.made v.got (v.known ++ w.put ∷ []) };

    ghost spent = { nobody };
}

/// A session's end of the intake.
pub type IntakeSender<A> = RuledSender<Envelope<A>, IntakeNote<A>, Intake>;

/// The owner's end of the intake.
pub type IntakeReceiver<A> = RuledReceiver<Envelope<A>, IntakeNote<A>, Intake>;

/// A pass of the intake, with its holder's note. The owner has one, and so has each session.
pub type IntakePass<A> = Pass<Envelope<A>, IntakeNote<A>>;
