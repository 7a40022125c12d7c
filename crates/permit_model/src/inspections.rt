//! Worked examples of inspections, notices and certificates.

ghost use Rattle.std.specs.Prelude.{◌≡◌, ◌∷◌, [], ◌++◌, None, Some, codes, true, false, map, option_map};
ghost use Rattle.permit_base.specs.declared.words.Kind.TheVariants.{Construct, Enlarge, Alter, Repair, Move, Demolish, Occupancy};
ghost use Rattle.permit_base.specs.declared.words.Step.TheVariants.{Footing, Slab, Frame, Lath, Final};
ghost use Rattle.permit_base.specs.declared.words.Stage.TheVariants as stage;
ghost use Rattle.permit_base.specs.declared.words.Timing.TheVariants as timing;
ghost use Rattle.permit_base.specs.declared.words.PaperSort.TheVariants as sort;
ghost use Rattle.permit_base.specs.declared.refusal.Reason.TheVariants as reason;
ghost use Rattle.permit_base.specs.declared.request.Command.TheVariants.{RequestInspection, ApproveStep, Notice, Temporary, Certify};
ghost use Rattle.permit_model.specs.Tables.{State, Paper, next_in_row, tables};
ghost use Rattle.permit_model.specs.Examples.{opening, on_one, replies, after, last_reply, done, made, denied, not_admitted, read_after, state_after, papers_after, begun_file, inspected, interest_turns, notice_given, notice_cleared, one_of_two_cleared, other_cleared, finaled_file, by_official, by_inspector, pending_repair};

/// An inspector with a declared interest isn't assigned; one who declares an interest later may not approve.
pub fn interested_inspector_conflict_at_approval()
    ensures replies { replies interest_turns opening ≡
        done ∷ made 1 ∷ done ∷ done ∷ done ∷ done
        ∷ not_admitted reason.Interested ∷ done ∷ made 1 ∷ done
        ∷ done ∷ done ∷ denied (codes "no-conflict") ∷ [] }
{}

/// After the footing comes the slab, so the frame isn't the next step; of an alteration it is the first.
pub fn steps_in_order()
    ensures construct { last_reply (begun_file Construct ++ inspected 19820 Footing) (on_one 6 19830 (RequestInspection Frame)) opening ≡ not_admitted reason.Step }
    ensures alter { last_reply (begun_file Alter) (on_one 6 19830 (RequestInspection Frame)) opening ≡ done }
{}

/// An approval and a notice are activity too: on 19830, ten days after the inspection was requested, each moves the
/// deadline to 20010.
pub fn activity_of_the_inspector()
    ensures approved { read_after (begun_file Construct ++ on_one 6 19820 (RequestInspection Footing) ∷ on_one 4 19830 (ApproveStep Footing) ∷ []) 19830 ≡ Some (stage.Working, timing.Ahead, Some 20010) }
    ensures noticed { read_after (begun_file Construct ++ on_one 6 19820 (RequestInspection Footing) ∷ on_one 4 19830 (Notice (codes "Cracks")) ∷ []) 19830 ≡ Some (stage.Working, timing.Ahead, Some 20010) }
{}

/// A notice closes the request, and while it is open the step isn't approved. The permit is no notice; once the notice
/// is cleared the step is approved, and the final one is next.
pub fn notice_blocks_approval()
    ensures issued { replies (begun_file Repair) opening ≡ made 1 ∷ done ∷ done ∷ done ∷ done ∷ done ∷ made 1 ∷ done ∷ [] }
    ensures noticed { replies notice_given (after (begun_file Repair) opening) ≡ done ∷ made 2 ∷ [] }
    ensures cleared { replies notice_cleared (after (begun_file Repair ++ notice_given) opening) ≡ done ∷ not_admitted reason.NoticeOpen ∷ not_admitted reason.NoSuchNotice ∷ done ∷ done ∷ [] }
    ensures next { option_map next_in_row (state_after (begun_file Repair ++ notice_given ++ notice_cleared) 19830) ≡ Some (Some Final) }
    ensures paper_open { map (λ (p : Paper). p.is_open) (tables (after (begun_file Repair ++ notice_given) opening)).papers ≡ false ∷ true ∷ [] }
    ensures paper_closed { map (λ (p : Paper). p.is_open) (tables (after (begun_file Repair ++ notice_given ++ notice_cleared) opening)).papers ≡ false ∷ false ∷ [] }
{}

/// Of two open notices one is cleared, and not a second time: the other still blocks the approval until it is cleared as
/// well.
pub fn one_of_two_notices_cleared()
    ensures replies { replies (one_of_two_cleared ++ other_cleared) (after (begun_file Repair) opening) ≡
        done ∷ made 2 ∷ done ∷ made 3 ∷ done ∷ not_admitted reason.NoSuchNotice ∷ done ∷ not_admitted reason.NoticeOpen ∷ done ∷ done ∷ [] }
    ensures left { option_map (λ (s : State). s.notices) (state_after (begun_file Repair ++ one_of_two_cleared) 19830) ≡ Some 1 }
    ensures papers { map (λ (p : Paper). p.is_open) (tables (after (begun_file Repair ++ one_of_two_cleared) opening)).papers ≡ false ∷ false ∷ true ∷ [] }
{}

/// An enlargement has the steps of a construction, a move the footing, the frame and the final one, an occupancy the
/// final one alone.
pub fn steps_by_kind()
    ensures enlarge { replies (on_one 6 19830 (RequestInspection Frame) ∷ on_one 6 19830 (RequestInspection Slab) ∷ []) (after (begun_file Enlarge ++ inspected 19820 Footing) opening) ≡ not_admitted reason.Step ∷ done ∷ [] }
    ensures move_frame { replies (on_one 6 19830 (RequestInspection Slab) ∷ on_one 6 19830 (RequestInspection Frame) ∷ []) (after (begun_file Move ++ inspected 19820 Footing) opening) ≡ not_admitted reason.Step ∷ done ∷ [] }
    ensures move_final { replies (on_one 6 19830 (RequestInspection Lath) ∷ on_one 6 19830 (RequestInspection Final) ∷ []) (after (begun_file Move ++ inspected 19820 Footing ++ inspected 19821 Frame) opening) ≡ not_admitted reason.Step ∷ done ∷ [] }
    ensures occupancy { replies (on_one 6 19820 (RequestInspection Footing) ∷ inspected 19820 Final ++ on_one 1 19821 Certify ∷ []) (after (begun_file Occupancy) opening) ≡ not_admitted reason.Step ∷ done ∷ done ∷ made 2 ∷ [] }
{}

/// A temporary certificate is given while an enlargement, an alteration, a move or an occupancy is worked on, and none for
/// a repair or a demolition.
pub fn temporary_certificates_by_kind()
    ensures enlarge { last_reply (begun_file Enlarge) (on_one 1 19820 (Temporary 30 (codes "Floor 1"))) opening ≡ made 2 }
    ensures alter { last_reply (begun_file Alter) (on_one 1 19820 (Temporary 30 (codes "Floor 1"))) opening ≡ made 2 }
    ensures move_house { last_reply (begun_file Move) (on_one 1 19820 (Temporary 30 (codes "Floor 1"))) opening ≡ made 2 }
    ensures occupancy { last_reply (begun_file Occupancy) (on_one 1 19820 (Temporary 30 (codes "Floor 1"))) opening ≡ made 2 }
    ensures repair { last_reply (begun_file Repair) (on_one 1 19820 (Temporary 30 (codes "Floor 1"))) opening ≡ not_admitted reason.Kind }
    ensures demolish { last_reply (begun_file Demolish) (on_one 1 19820 (Temporary 30 (codes "Floor 1"))) opening ≡ not_admitted reason.Kind }
{}

/// With its five steps approved a construction is finaled, and then certified, without a timing: the certificate is a
/// paper after the permit. A demolition gets none.
pub fn certificates_by_kind()
    ensures finaled { read_after finaled_file 19824 ≡ Some (stage.Finaled, timing.Untimed, None) }
    ensures certified { read_after (finaled_file ++ on_one 1 19825 Certify ∷ []) 19825 ≡ Some (stage.Certified, timing.Untimed, None) }
    ensures papers { papers_after (finaled_file ++ on_one 1 19825 Certify ∷ []) ≡ (sort.Permit, 0, [], []) ∷ (sort.Certificate, 0, [], []) ∷ [] }
    ensures demolish { last_reply (begun_file Demolish ++ inspected 19820 Final) (on_one 1 19820 Certify) opening ≡ not_admitted reason.Kind }
{}

/// The official and the assigned inspector approve one pending step: whoever comes second finds nothing pending.
pub fn two_approvals_of_one_request()
    ensures official_first { replies (by_official ∷ by_inspector ∷ []) pending_repair ≡ done ∷ not_admitted reason.NothingPending ∷ [] }
    ensures inspector_first { replies (by_inspector ∷ by_official ∷ []) pending_repair ≡ done ∷ not_admitted reason.NothingPending ∷ [] }
{}
