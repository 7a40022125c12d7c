//! The laws on which listings by selections rest. They hold of every history and of every policy.

ghost use Rattle.std.specs.Prelude.{◌≡◌, ◌≤◌, ◌*◌, ℕ, length, map, true, IsPermutation};
ghost use Rattle.std.specs.List.{flat_map, list_any, sum_by};
ghost use Rattle.permit_base.specs.Limits.{most_records};
ghost use Rattle.permit_base.specs.declared.words.Action.TheVariants as action;
ghost use Rattle.permit_base.specs.declared.request.Filter.{Filter};
ghost use Rattle.permit_model.specs.History.{History};
ghost use Rattle.permit_model.specs.Caller.{Party};
ghost use Rattle.permit_model.specs.Files.{CaseFile, case_files};
ghost use Rattle.permit_model.specs.Facts.{stage_on, timing_of};
ghost use Rattle.permit_model.specs.Policy.{Policy};
ghost use Rattle.permit_model.specs.Tables.{file_row, tables};
ghost use Rattle.permit_model.specs.Listing.{meets, is_listed};
ghost use Rattle.permit_model.specs.Opened.{allowed_by, opened};
ghost use Rattle.permit_model.specs.Routes.{routes_of, Found, found_row, is_found, found_by};
ghost use Rattle.permit_model.specs.Machine.{IsHistory};

/// The rows that a listing's selections find are the rows that the listing may open, each as often: once where no
/// relation is wanted, else once for each relation, and for each two, by which it may be opened.
pub fn routes_open_what_is_opened()
    ensures rows { (policy : Policy) (h : History) (day : ℕ) (caller : Party) (wanted : Filter)
        → IsPermutation (flat_map (λ r. map (λ (f : Found). f.row) (found_by r caller.id day (tables h))) (routes_of (allowed_by policy caller.role action.List) wanted)) (map file_row (opened policy h day caller wanted)) }
    ensures count { (policy : Policy) (h : History) (day : ℕ) (caller : Party) (wanted : Filter)
        → sum_by (λ r. length (found_by r caller.id day (tables h))) (routes_of (allowed_by policy caller.role action.List) wanted) ≡ length (opened policy h day caller wanted) }
{}

/// The row of each file that is listed is found by some selection of the listing, and no selection of it finds the row
/// of a file that its filter doesn't want.
pub fn no_listed_file_is_missed()
    ensures found { (policy : Policy) (h : History) (day : ℕ) (caller : Party) (wanted : Filter) (file : CaseFile)
        → is_listed policy h day caller wanted file ≡ true
        → list_any (λ r. is_found r caller.id day (found_row (tables h) caller.id (file_row file))) (routes_of (allowed_by policy caller.role action.List) wanted) ≡ true }
    ensures wanted { (policy : Policy) (h : History) (day : ℕ) (caller : Party) (wanted : Filter) (file : CaseFile)
        → list_any (λ r. is_found r caller.id day (found_row (tables h) caller.id (file_row file))) (routes_of (allowed_by policy caller.role action.List) wanted) ≡ true
        → meets wanted (stage_on day file) (timing_of day file) ≡ true }
{}

/// There are at most 99999 files, since one more isn't admitted. A listing opens the row of each at most 21 times: by
/// each of six relations, and by each two of them.
pub fn few_files()
    ensures files { (h : History) → IsHistory h → length (case_files h) ≤ most_records }
    ensures opened { (policy : Policy) (h : History) (day : ℕ) (caller : Party) (wanted : Filter) → IsHistory h → length (opened policy h day caller wanted) ≤ 21 * most_records }
{}
