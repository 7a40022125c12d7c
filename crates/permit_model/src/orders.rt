//! Worked examples of stop work orders, temporary certificates and revocation.

ghost use Rattle.std.specs.Prelude.{◌≡◌, ◌∷◌, [], ◌++◌, None, Some, codes, option_map};
ghost use Rattle.permit_base.specs.declared.words.Kind.TheVariants.{Construct, Alter};
ghost use Rattle.permit_base.specs.declared.words.Step.TheVariants.{Footing, Lath};
ghost use Rattle.permit_base.specs.declared.words.Stage.TheVariants as stage;
ghost use Rattle.permit_base.specs.declared.words.Timing.TheVariants as timing;
ghost use Rattle.permit_base.specs.declared.words.PaperSort.TheVariants as sort;
ghost use Rattle.permit_base.specs.declared.refusal.Reason.TheVariants as reason;
ghost use Rattle.permit_base.specs.declared.request.Command.TheVariants.{RequestInspection, Revoke, Temporary};
ghost use Rattle.permit_model.specs.Tables.{State};
ghost use Rattle.permit_model.specs.Examples.{opening, on_one, replies, after, last_reply, done, made, not_admitted, read_after, state_after, papers_after, begun_file, house_state, stopped_file, lifted_file, issued_file, worked_with_ask, answered_asks, temporary_turns, revoking_turns, paper_turns};

/// A stop work order and its lift leave the deadline 19990, and each makes a paper of its sort; an inspection is refused
/// while the order is in force, and activity after the lift moves the deadline to 20010.
pub fn stop_order_leaves_the_deadline()
    ensures before { read_after (begun_file Construct) 19810 ≡ Some (stage.Working, timing.Ahead, Some 19990) }
    ensures stopped { last_reply stopped_file (on_one 6 19820 (RequestInspection Footing)) opening ≡ not_admitted reason.Stopped }
    ensures lifted { read_after lifted_file 19830 ≡ Some (stage.Working, timing.Ahead, Some 19990) }
    ensures active { read_after (lifted_file ++ on_one 6 19830 (RequestInspection Footing) ∷ []) 19830 ≡ Some (stage.Working, timing.Ahead, Some 20010) }
    ensures papers { papers_after lifted_file ≡ (sort.Permit, 0, [], []) ∷ (sort.Stop, 0, codes "Unsafe", codes "Shore it") ∷ (sort.Lifted, 0, [], []) ∷ [] }
{}

/// The last temporary certificate counts, also where it ends earlier; none is for more than 180 days, and none moves
/// the deadline.
pub fn temporary_certificates()
    ensures replies { replies temporary_turns (after (begun_file Construct) opening) ≡ made 2 ∷ made 3 ∷ not_admitted reason.Days ∷ [] }
    ensures first { option_map (λ (s : State). s.temporary) (state_after (begun_file Construct ++ on_one 1 19850 (Temporary 60 (codes "Floor 1")) ∷ []) 19850) ≡ Some (Some 19910) }
    ensures last { state_after (begun_file Construct ++ temporary_turns) 19860 ≡ Some (record house_state {
      filed = 19790;
      contractor = Some 6;
      reviewer = Some 3;
      inspector = Some 4;
      stage = stage.Working;
      deadline = Some 19990;
      papers = 3;
      temporary = Some 19890;
    }) }
{}

/// What is done on 19850 is no activity and closes nothing: the deadline stays the 20000 of a request on 19820, and that
/// request and the ask of 19815 stay pending. The ask's grant adds its ten days and no more, and a refused ask none.
pub fn what_is_no_activity()
    ensures replies { replies (worked_with_ask ++ answered_asks) (after (begun_file Alter) opening) ≡
        made 2 ∷ done ∷ done ∷ done ∷ made 3 ∷ done ∷ done ∷ done ∷ done ∷ made 4 ∷ made 5 ∷ made 6 ∷ made 7 ∷ made 8 ∷ made 9 ∷ [] }
    ensures asked { state_after (begun_file Alter ++ worked_with_ask) 19850 ≡ Some (record house_state {
      filed = 19790;
      kind = Alter;
      contractor = Some 6;
      reviewer = Some 3;
      inspector = Some 4;
      stage = stage.Working;
      deadline = Some 20000;
      done = 1;
      request = Some Lath;
      requested = Some 19820;
      ask = Some 10;
      papers = 6;
      temporary = Some 19880;
    }) }
    ensures answered { state_after (begun_file Alter ++ worked_with_ask ++ answered_asks) 19850 ≡ Some (record house_state {
      filed = 19790;
      kind = Alter;
      contractor = Some 6;
      reviewer = Some 3;
      inspector = Some 4;
      stage = stage.Working;
      deadline = Some 20010;
      done = 1;
      request = Some Lath;
      requested = Some 19820;
      papers = 9;
      temporary = Some 19880;
    }) }
{}

/// A revocation leaves the pending request and the pending ask.
pub fn revocation_closes_nothing()
    ensures request { option_map (λ (s : State). s.request)
        (state_after (begun_file Alter ++ worked_with_ask ++ on_one 1 19850 (Revoke (codes "Void")) ∷ []) 19850) ≡ Some (Some Lath) }
    ensures ask { option_map (λ (s : State). s.ask)
        (state_after (begun_file Alter ++ worked_with_ask ++ on_one 1 19850 (Revoke (codes "Void")) ∷ []) 19850) ≡ Some (Some 10) }
{}

/// A paper has the days, the text and the terms that its command gives.
pub fn what_papers_say()
    ensures papers { papers_after (begun_file Construct ++ paper_turns) ≡
        (sort.Permit, 0, [], [])
        ∷ (sort.Asked, 5, codes "Ill", []) ∷ (sort.Refused, 0, codes "No", [])
        ∷ (sort.Temporary, 60, codes "Floor 1", []) ∷ (sort.Notice, 0, codes "Cracks", [])
        ∷ (sort.Stop, 0, codes "Unsafe", codes "Shore it") ∷ (sort.Revoked, 0, codes "Void", [])
        ∷ [] }
{}

/// A permit under which work never began is revoked once, and has no deadline then; orders may still stop and release
/// it.
pub fn revoke_a_lapsed_permit()
    ensures lapsed { read_after issued_file 19981 ≡ Some (stage.Lapsed, timing.Past, Some 19980) }
    ensures replies { replies revoking_turns (after issued_file opening) ≡ made 2 ∷ not_admitted reason.Stage ∷ made 3 ∷ not_admitted reason.Stopped ∷ made 4 ∷ [] }
    ensures revoked { read_after (issued_file ++ on_one 1 19981 (Revoke (codes "Void")) ∷ []) 19981 ≡ Some (stage.Revoked, timing.Untimed, None) }
{}
