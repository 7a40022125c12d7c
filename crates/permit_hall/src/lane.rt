//! A lane: a channel under a rule, by which the owner sends a session its answers. Its rules name v, w and the items as
//! those of the intake do; x is the answer that is sent or collected.

ghost use Rattle.std.specs.Prelude.{◌≡◌, true, false, [], ◌∷◌, ◌++◌};
ghost use Rattle.permit_hall.specs.Lane.{Carried, lane_note};

use crossbeam_channel::protocol::{Join, Lesson, Outcome, Protocol, Split};
use crossbeam_channel::{Pass, RuledReceiver, RuledSender};
use std::collections::LinkedList;

/// The note of a pass of a lane: what the holder of that pass knows. It is used in contracts only, and no value of it is made.
/// The owner's pass sends, and knows what was sent. The session's pass gets, and knows what was got.
pub struct LaneNote<Y> {
    pub sends: bool,
    pub gets: bool,
    pub sent: LinkedList<Y>,
    pub got: LinkedList<Y>,
}

/// The rule of a lane.
pub struct Lane;

impl<Y> Protocol<Y, LaneNote<Y>> for Lane {
    ghost holds = { Carried };

    ghost first = { lane_note true true [] [] };
}

/// The owner sends. At a full lane it learns nothing.
pub struct Sends;

impl<Y> Outcome<Y, LaneNote<Y>> for Sends {
    ghost then = { λ v x w. w ≡ lane_note v.sends v.gets (v.sent ++ x ∷ []) v.got };
}

impl<Y> Lesson<Y, LaneNote<Y>> for Sends {
    ghost fact = { λ v items. Unit {0} };
}

/// The session collects. At an empty lane it learns nothing.
pub struct Collects;

impl<Y> Outcome<Y, LaneNote<Y>> for Collects {
    ghost then = { λ v x w. w ≡ lane_note v.sends v.gets v.sent (v.got ++ x ∷ []) };
}

impl<Y> Lesson<Y, LaneNote<Y>> for Collects {
    ghost fact = { λ v items. Unit {0} };
}

/// A holder who knows both learns that what was sent is what was collected, and then what still waits.
pub struct Total;

impl<Y> Lesson<Y, LaneNote<Y>> for Total {
    ghost fact = { λ v items. v.sent ≡ v.got ++ items };
}

/// A new lane's one pass is split into the owner's and the session's. The two are joined at the end.
pub struct Ends;

impl<Y> Split<LaneNote<Y>> for Ends {
    ghost left = { λ v. lane_note true false v.sent [] };

    ghost right = { λ v. lane_note false true [] v.got };
}

impl<Y> Join<LaneNote<Y>> for Ends {
    ghost both = { λ v w. lane_note true true v.sent w.got };

    ghost spent = { lane_note false false [] [] };
}

/// The owner's end of a lane.
pub type LaneSender<Y> = RuledSender<Y, LaneNote<Y>, Lane>;

/// The session's end of its lane.
pub type LaneReceiver<Y> = RuledReceiver<Y, LaneNote<Y>, Lane>;

/// A pass of a lane, with its holder's note. The owner and the session have one each.
pub type LanePass<Y> = Pass<Y, LaneNote<Y>>;
