//! Worked examples of listings, and of the rows that they open.

ghost use Rattle.std.specs.Prelude.{◌≡◌, ◌∷◌, [], ◌++◌, codes};
ghost use Rattle.permit_base.specs.declared.words.RegisterKind.TheVariants.{Files};
ghost use Rattle.permit_base.specs.declared.words.Role.TheVariants.{Public, Clerk, Reviewer, Official};
ghost use Rattle.permit_base.specs.declared.words.Stage.TheVariants.{Filed, Review, Abandoned, Lapsed};
ghost use Rattle.permit_base.specs.declared.refusal.Refusal.TheVariants as refusal;
ghost use Rattle.permit_base.specs.declared.request.Filter.TheVariants.{All, InStage, Due};
ghost use Rattle.permit_base.specs.declared.request.Request.TheVariants.{ListFiles, Register};
ghost use Rattle.permit_model.specs.Machine.{Listed, Refused};
ghost use Rattle.permit_model.specs.StandardPolicy.{standard_policy};
ghost use Rattle.permit_model.specs.Examples.{founded, opening, asks, after, last_reply, numbers, reply_under, opened_for, opened_by_filter, file_house, three_files, staged_files, lists, own_denied, assigned_files, owner_and_contractor, contracted_files, selections, register_by, line_end};

/// After the founding alone a listing is empty and opens no row.
pub fn founding_alone_lists_nothing()
    ensures files { last_reply [] (asks 1 19700 (ListFiles All)) founded ≡ Listed [] }
    ensures opened { opened_for standard_policy founded 1 19700 ≡ 0 }
{}

/// Each file is listed once, also where it is opened by two relations: party 5 is the applicant of file 1 and owns its
/// parcel, and is the contractor of file 2. The clerk lists all, each opened once.
pub fn who_lists_which_files()
    ensures holder { numbers (last_reply [] (asks 5 19723 (ListFiles All)) three_files) ≡ 1 ∷ 2 ∷ [] }
    ensures holder_opened { opened_for standard_policy three_files 5 19723 ≡ 3 }
    ensures clerk { numbers (last_reply [] (asks 2 19723 (ListFiles All)) three_files) ≡ 1 ∷ 2 ∷ 3 ∷ [] }
    ensures clerk_opened { opened_for standard_policy three_files 2 19723 ≡ 3 }
{}

/// A listing and a register are refused to one who is no party, and then on a day below that of the last accepted
/// command.
pub fn callers_and_clock_of_listings()
    ensures caller { last_reply [] (asks 8 19723 (ListFiles All)) three_files ≡ Refused refusal.Caller }
    ensures caller_first { last_reply [] (asks 8 19722 (ListFiles All)) three_files ≡ Refused refusal.Caller }
    ensures clock { last_reply [] (asks 1 19722 (ListFiles All)) three_files ≡ Refused refusal.Clock }
    ensures register_caller { last_reply [] (asks 8 19722 (Register Files)) three_files ≡ Refused refusal.Caller }
    ensures register_clock { last_reply [] (asks 1 19722 (Register Files)) three_files ≡ Refused refusal.Clock }
{}

/// A listing by a stage holds the files that are in it on the day: those past their deadline are abandoned.
pub fn listings_by_stage()
    ensures filed { lists 1 19873 (InStage Filed) ≡ 1 ∷ 3 ∷ [] }
    ensures in_review { lists 1 19873 (InStage Review) ≡ 2 ∷ [] }
    ensures none_abandoned { lists 1 19903 (InStage Abandoned) ≡ [] }
    ensures abandoned { lists 1 19904 (InStage Abandoned) ≡ 1 ∷ 2 ∷ [] }
    ensures still_filed { lists 1 19904 (InStage Filed) ≡ 3 ∷ [] }
    ensures by_applicant { lists 5 19873 (InStage Filed) ≡ 1 ∷ [] }
{}

/// A listing of what is due holds the files with at most 30 days left, and those past their deadline, which are closed
/// to the public.
pub fn listings_of_what_is_due()
    ensures none_due { lists 1 19872 Due ≡ [] }
    ensures near { lists 1 19873 Due ≡ 1 ∷ 2 ∷ [] }
    ensures past { lists 1 19904 Due ≡ 1 ∷ 2 ∷ 3 ∷ [] }
    ensures by_reviewer { lists 3 19873 Due ≡ 2 ∷ [] }
    ensures by_applicant { lists 6 19904 Due ≡ 3 ∷ [] }
    ensures opened { opened_by_filter standard_policy staged_files 5 19873 Due ≡ 2 }
    ensures closed { opened_by_filter standard_policy staged_files 5 19904 Due ≡ 0 }
{}

/// A reviewer who is assigned to nothing lists nothing, and the register that it asks for has no line.
pub fn nothing_assigned_nothing_listed()
    ensures files { last_reply [] (asks 3 19723 (ListFiles All)) three_files ≡ Listed [] }
    ensures register { register_by three_files 3 Files 19723 ≡
        codes " FILE PARCEL KIND      STAGE     TIMING DEADLINE           CENTS" ++ line_end
        ++ codes "files 0" ++ line_end }
{}

/// No row is opened for a reviewer who is assigned to nothing, nor for anyone under a policy without rules.
pub fn nothing_opened_nothing_read()
    ensures reviewer { opened_for standard_policy three_files 3 19723 ≡ 0 }
    ensures no_rules { reply_under [] (after (file_house ∷ []) opening) 1 19723 (ListFiles All) ≡ Listed [] }
    ensures no_rules_opened { opened_for [] (after (file_house ∷ []) opening) 1 19723 ≡ 0 }
{}

/// Where owners are denied before assigned reviewers may list, a reviewer's two files are opened, and the one on its
/// own parcel isn't listed.
pub fn deny_on_owner_allow_on_reviewer()
    ensures files { numbers (reply_under own_denied assigned_files 3 19723 (ListFiles All)) ≡ 1 ∷ [] }
    ensures opened { opened_for own_denied assigned_files 3 19723 ≡ 2 }
{}

/// Where only who is both its parcel's owner and its contractor may list a file, the public lists by one selection a
/// kept cell, and opens the one file to which it is both.
pub fn two_relations_at_once()
    ensures files { numbers (reply_under owner_and_contractor contracted_files 6 19723 (ListFiles All)) ≡ 3 ∷ [] }
    ensures opened { opened_for owner_and_contractor contracted_files 6 19723 ≡ 1 }
    ensures selections { selections owner_and_contractor Public All ≡ 44 }
{}

/// How many selections a listing makes. Nothing is selected that no rule can open.
pub fn selections_of_listings()
    ensures official { selections standard_policy Official All ≡ 1 }
    ensures clerk { selections standard_policy Clerk Due ≡ 24 }
    ensures reviewer_abandoned { selections standard_policy Reviewer (InStage Abandoned) ≡ 32 }
    ensures reviewer { selections standard_policy Reviewer All ≡ 176 }
    ensures public { selections standard_policy Public All ≡ 96 }
    ensures public_due { selections standard_policy Public Due ≡ 36 }
    ensures public_lapsed { selections standard_policy Public (InStage Lapsed) ≡ 0 }
    ensures own_denied { selections own_denied Reviewer All ≡ 44 }
    ensures no_rules { selections [] Official All ≡ 0 }
{}
