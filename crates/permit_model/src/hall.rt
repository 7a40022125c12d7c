//! A worked run of the hall.

ghost use Rattle.std.specs.Prelude.{◌≡◌, ◌∷◌, []};
ghost use Rattle.permit_base.specs.declared.refusal.Reason.TheVariants as reason;
ghost use Rattle.permit_model.specs.HallRun.{hall_run};
ghost use Rattle.permit_model.specs.StandardPolicy.{standard_policy};
ghost use Rattle.permit_model.specs.Examples.{done, not_admitted, asked_by_official, asked_by_inspector, hall_events, pending_with_token, frame_approved};

/// Of nine events the third put, the first collect and the third take do nothing: a session has one request out, no
/// answer waits yet, and no request waits any more. Of the two approvals served, the first alone is done.
pub fn hall_events_that_do_nothing()
    ensures served { (hall_run standard_policy hall_events pending_with_token).served ≡ (asked_by_official, 19820) ∷ (asked_by_inspector, 19820) ∷ [] }
    ensures answers { (hall_run standard_policy hall_events pending_with_token).answers ≡ (1, not_admitted reason.NothingPending) ∷ (0, done) ∷ [] }
    ensures history { (hall_run standard_policy hall_events pending_with_token).history ≡ frame_approved ∷ pending_with_token }
{}
