//! Worked examples of applications: filing, review, extensions and issuance.

ghost use Rattle.std.specs.Prelude.{◌≡◌, ◌∷◌, [], ◌++◌, None, Some, codes, false, option_map};
ghost use Rattle.permit_base.specs.declared.words.Edition.TheVariants.{First};
ghost use Rattle.permit_base.specs.declared.words.Kind.TheVariants.{Construct};
ghost use Rattle.permit_base.specs.declared.words.Step.TheVariants.{Footing};
ghost use Rattle.permit_base.specs.declared.words.Stage.TheVariants as stage;
ghost use Rattle.permit_base.specs.declared.words.Timing.TheVariants as timing;
ghost use Rattle.permit_base.specs.declared.words.PaperSort.TheVariants as sort;
ghost use Rattle.permit_base.specs.declared.refusal.Reason.TheVariants as reason;
ghost use Rattle.permit_base.specs.declared.request.Command.TheVariants.{ApprovePlans, Issue, AskExtension, GrantExtension, BeginWork, RequestInspection, Temporary};
ghost use Rattle.permit_base.specs.declared.request.Request.TheVariants.{ReadFile};
ghost use Rattle.permit_model.specs.Days.{timing_on};
ghost use Rattle.permit_model.specs.Tables.{State, tables};
ghost use Rattle.permit_model.specs.Machine.{IsHistory};
ghost use Rattle.permit_model.specs.Examples.{opening, asks, on_one, replies, after, last_reply, done, made, denied, not_admitted, shown, turn, read_after, state_after, begun_file, file_house, house_state, house_shown, extended_house, ask_turns, reviewed_with_ask, reviewed_and_granted, issued_file, extended_file, begun_extended_file, requested_file, late_grant, returned_file, resubmitted_file, rejected_file, review_of_own, far_file};

/// An application filed on 19723 (2024-01-01) has the deadline 19903 (2024-06-29). On that day it is open, also for
/// its applicant; from the next day on it is abandoned and closed to the public.
pub fn filing_and_abandonment()
    ensures filed { replies (file_house ∷ []) opening ≡ made 1 ∷ [] }
    ensures on_deadline_day { last_reply (file_house ∷ []) (asks 1 19903 (ReadFile 1)) opening ≡ house_shown stage.Filed timing.Near }
    ensures by_applicant { last_reply (file_house ∷ []) (asks 5 19903 (ReadFile 1)) opening ≡ house_shown stage.Filed timing.Near }
    ensures next_day { last_reply (file_house ∷ []) (asks 1 19904 (ReadFile 1)) opening ≡ house_shown stage.Abandoned timing.Past }
    ensures closed { last_reply (file_house ∷ []) (asks 5 19904 (ReadFile 1)) opening ≡ denied (codes "closed-to-public") }
{}

/// On the deadline day 91 days are too many before issuance; 90 are asked and granted, and the deadline is 19993.
pub fn extension_before_the_deadline()
    ensures replies { replies extended_house opening ≡ made 1 ∷ not_admitted reason.Days ∷ made 1 ∷ made 2 ∷ [] }
    ensures deadline { read_after extended_house 19903 ≡ Some (stage.Filed, timing.Ahead, Some 19993) }
    ensures none_pending { option_map (λ (s : State). s.ask) (state_after extended_house 19903) ≡ Some None }
    ensures desk { (tables (after extended_house opening)).desk ≡ record { edition = First; last = 19903; parties = 7; parcels = 2; files = 1 } }
    ensures papers { (tables (after extended_house opening)).papers ≡
        record { file = 1; number = 1; day = 19903; author = 5; sort = sort.Asked; days = 90; text = codes "Ill"; terms = []; is_open = false }
        ∷ record { file = 1; number = 2; day = 19903; author = 1; sort = sort.Granted; days = 90; text = []; terms = []; is_open = false }
        ∷ [] }
{}

/// Issued on 19800, a permit runs to 19980; with 100 days granted to 20080, which the start of work on 19810 leaves; an
/// inspection requested on 20000 makes it 20180.
pub fn deadline_arithmetic_from_issuance()
    ensures issued { read_after issued_file 19800 ≡ Some (stage.Issued, timing.Ahead, Some 19980) }
    ensures granted { read_after extended_file 19800 ≡ Some (stage.Issued, timing.Ahead, Some 20080) }
    ensures begun { read_after begun_extended_file 19810 ≡ Some (stage.Working, timing.Ahead, Some 20080) }
    ensures requested { read_after requested_file 20000 ≡ Some (stage.Working, timing.Ahead, Some 20180) }
{}

/// A reviewer who isn't assigned is denied, though the stage would not admit the command either.
pub fn policy_before_admission()
    ensures denied { last_reply (file_house ∷ []) (on_one 3 19723 ApprovePlans) opening ≡ denied (codes "default") }
{}

/// A reviewer to whom the parcel was transferred is denied by the rule on own work.
pub fn own_work_denied_after_transfer()
    ensures denied { last_reply review_of_own (on_one 3 19723 ApprovePlans) opening ≡ denied (codes "own-work") }
{}

/// One ask is pending at a time, a refused one leaves the deadline, and issuance closes one: a grant after it finds
/// nothing pending.
pub fn asks_grants_and_issue()
    ensures replies { replies ask_turns opening ≡ made 1 ∷ made 1 ∷ made 2 ∷ made 3 ∷ not_admitted reason.Pending ∷ done ∷ done ∷ done ∷ made 4 ∷ not_admitted reason.NothingPending ∷ [] }
    ensures filed { read_after (file_house ∷ []) 19723 ≡ Some (stage.Filed, timing.Ahead, Some 19903) }
    ensures row { state_after ask_turns 19740 ≡ Some (record house_state { reviewer = Some 3; stage = stage.Issued; deadline = Some 19920; ask = None; papers = 4 }) }
{}

/// An ask stays pending while the plans are reviewed. Its grant moves the application's deadline from 19903 to 19993, and
/// none of its days goes to the permit: issued on 19750, that runs to 19930.
pub fn days_granted_before_issuance()
    ensures replies { replies reviewed_and_granted opening ≡ made 1 ∷ made 1 ∷ done ∷ done ∷ done ∷ made 2 ∷ made 3 ∷ done ∷ done ∷ made 4 ∷ [] }
    ensures reviewed { state_after reviewed_with_ask 19745 ≡ Some (record house_state {
      contractor = Some 6;
      reviewer = Some 3;
      inspector = Some 4;
      stage = stage.Approved;
      ask = Some 90;
      papers = 3;
    }) }
    ensures granted { read_after reviewed_and_granted 19745 ≡ Some (stage.Approved, timing.Ahead, Some 19993) }
    ensures issued { read_after (reviewed_and_granted ++ on_one 1 19750 Issue ∷ []) 19750 ≡ Some (stage.Issued, timing.Ahead, Some 19930) }
{}

/// A reviewer returns an application, its applicant resubmits it, and the reviewer rejects it: each makes a paper with
/// its reasons, and each has its stage. A rejected application has no deadline.
pub fn return_resubmit_reject()
    ensures replies { replies rejected_file opening ≡
        made 1 ∷ done ∷ done ∷ made 1 ∷ not_admitted reason.Stage ∷ made 2 ∷ not_admitted reason.Stage ∷ made 3 ∷ not_admitted reason.Stage ∷ [] }
    ensures returned { read_after returned_file 19730 ≡ Some (stage.Returned, timing.Ahead, Some 19903) }
    ensures resubmitted { read_after resubmitted_file 19740 ≡ Some (stage.Review, timing.Ahead, Some 19903) }
    ensures rejected { read_after rejected_file 19904 ≡ Some (stage.Rejected, timing.Untimed, None) }
    ensures papers { (tables (after rejected_file opening)).papers ≡
        record { file = 1; number = 1; day = 19730; author = 3; sort = sort.Returned; days = 0; text = codes "No plan"; terms = []; is_open = false }
        ∷ record { file = 1; number = 2; day = 19740; author = 5; sort = sort.Resubmitted; days = 0; text = codes "Plan"; terms = []; is_open = false }
        ∷ record { file = 1; number = 3; day = 19750; author = 3; sort = sort.Rejected; days = 0; text = codes "Too tall"; terms = []; is_open = false }
        ∷ [] }
{}

/// An extension that is asked before work begins and granted after it moves the deadline that the start of work set: from
/// 19990 to 20090, which an inspection requested on 19830 leaves.
pub fn grant_after_work_began()
    ensures begun { read_after (issued_file ++ on_one 5 19800 (AskExtension 100 (codes "Ill")) ∷ on_one 6 19810 BeginWork ∷ []) 19810 ≡ Some (stage.Working, timing.Ahead, Some 19990) }
    ensures granted { read_after late_grant 19820 ≡ Some (stage.Working, timing.Ahead, Some 20090) }
    ensures requested { read_after (late_grant ++ on_one 6 19830 (RequestInspection Footing) ∷ []) 19830 ≡ Some (stage.Working, timing.Ahead, Some 20090) }
{}

/// Work may begin on the deadline day, which moves the deadline to 20160. A day later the contractor finds the permit
/// closed, and the official finds it lapsed.
pub fn begin_work_on_the_last_day()
    ensures issued { read_after issued_file 19800 ≡ Some (stage.Issued, timing.Ahead, Some 19980) }
    ensures begun { last_reply issued_file (on_one 6 19980 BeginWork) opening ≡ done }
    ensures deadline { read_after (issued_file ++ on_one 6 19980 BeginWork ∷ []) 19980 ≡ Some (stage.Working, timing.Ahead, Some 20160) }
    ensures too_late { replies (on_one 6 19981 BeginWork ∷ on_one 1 19981 BeginWork ∷ []) (after issued_file opening) ≡ denied (codes "closed-to-public") ∷ not_admitted reason.Stage ∷ [] }
{}

/// With the deadline at 199900, a grant of 100 days gives 200000, and one of 101 days would be too far.
pub fn limits_of_text_and_deadline()
    ensures history { IsHistory far_file }
    ensures before { shown (turn far_file (asks 1 199720 (ReadFile 1))).reply ≡ Some (stage.Working, timing.Ahead, Some 199900) }
    ensures granted { shown (last_reply (on_one 5 199720 (AskExtension 100 (codes "Ill")) ∷ on_one 1 199720 GrantExtension ∷ []) (asks 1 199720 (ReadFile 1)) far_file) ≡ Some (stage.Working, timing.Ahead, Some 200000) }
    ensures too_far { last_reply (on_one 5 199720 (AskExtension 101 (codes "Ill")) ∷ []) (on_one 1 199720 GrantExtension) far_file ≡ not_admitted reason.Far }
{}

/// A deadline is near with 30 days left and ahead with 31. Once the permit is issued 180 days may be asked for, and 181
/// may not; so with the days of a temporary certificate.
pub fn days_at_their_limits()
    ensures near { timing_on 19873 (Some 19903) ≡ timing.Near }
    ensures ahead { timing_on 19872 (Some 19903) ≡ timing.Ahead }
    ensures asked { last_reply issued_file (on_one 5 19800 (AskExtension 180 (codes "Ill"))) opening ≡ made 2 }
    ensures too_many_asked { last_reply issued_file (on_one 5 19800 (AskExtension 181 (codes "Ill"))) opening ≡ not_admitted reason.Days }
    ensures occupied { last_reply (begun_file Construct) (on_one 1 19850 (Temporary 180 (codes "Floor 1"))) opening ≡ made 2 }
    ensures occupied_too_long { last_reply (begun_file Construct) (on_one 1 19850 (Temporary 181 (codes "Floor 1"))) opening ≡ not_admitted reason.Days }
{}
