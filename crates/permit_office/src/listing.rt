//! Listings and registers.

ghost use Rattle.std.specs.Prelude.{◌≡◌, ◌↔◌, Some, length, map, IfOk, List, IsTrue};
ghost use Rattle.std.specs.List.{Contains, Any};
ghost use Rattle.permit_base.specs.declared.request.Request.TheVariants as request;
ghost use Rattle.permit_base.specs.declared.request.Filter.{Filter as TheFilter};
ghost use Rattle.permit_base.specs.declared.words.Action.TheVariants as action;
ghost use Rattle.permit_model.specs.Tables.{FileView as TheView, Tables};
ghost use Rattle.permit_model.specs.Listing.{listing, register_filter};
ghost use Rattle.permit_model.specs.Opened.{opened, allowed_by};
ghost use Rattle.permit_policy.specs.Selections.{items_of, selections_of};
ghost use Rattle.permit_model.specs.Machine.{outcome_by_request};
ghost use Rattle.permit_store.specs.Frames.{OverHistory};
ghost use Rattle.permit_office.specs.Answers.{IsOwn};
ghost use Rattle.permit_office.specs.Decisions.{Decides, IsDeciding, IsProper, LeavesSound, replies, reply_for};
ghost use Rattle.permit_office.specs.Frames.{IsMaking};
ghost use Rattle.permit_office.specs.Listings.{Adds, Gathers, AreRising, selections_for};
ghost use Rattle.permit_office.specs.Opening.{Opens, OpensRows};
ghost use Rattle.permit_office.specs.Reach.{ManyRows, WereRead};

use crate::decision::Decision;
use crate::passing::pass_on;
use crate::reply::{Listing, Reply};
use crate::showing::{RowsEnd, register_filter};
use permit_base::request::Filter;
use permit_base::route::Route;
use permit_base::values::Day;
use permit_base::words::{Action, RegisterKind, Role};
use permit_core::taker::Taker;
use permit_policy::Policy;
use permit_policy::routes::listing_selections;
use permit_store::rows::{FileView, Party};
use permit_store::store::{Got, Store, StoreError};
use std::alloc::AllocError;

/// Keeps the files of a listing. One that several selections find is there as often.
#[derive(Drop)]
struct FileList {
    files: Vec<FileView>,
}

impl Taker<FileView> for FileList {
    ghost took = { Adds };

    /// False where memory is refused.
    fn take(&mut self, view: FileView) -> bool {
        self.files.push(view).is_ok()
    }
}

/// The files that the caller may list among the rows that the selections find, as often as they are found and in any
/// order. The store goes over its rows once for each selection.
fn gather<S: Store>(
    store: &mut S,
    policy: &Policy,
    caller: &Party,
    day: Day,
    selections: &[Vec<Route>],
) -> Got<Listing>
    ensures gathered { IfOk result (λ all. Gathers policy.now caller.now day (map items_of selections.now) (S.view store.old) (S.view store.new)
        all.files.items all.read) }
    ensures making { IsMaking (S.view store.old) (S.view store.new) result }
{
    let mut list = FileList {
        files: Vec::new(policy.allocator()),
    };
    let mut read: u32 = 0;
    for selection in selections {
        match pass_on(store, policy, caller, day, selection, &mut list)? {
            RowsEnd::All { read: more } => read = read.wrapping_add(more),
            RowsEnd::Stopped | RowsEnd::Refused(_) => return Err(StoreError),
        }
    }
    Ok(Listing {
        files: list.files,
        read,
    })
}

/// Whether each file's number is above that of the file before it.
fn is_rising(files: &[FileView]) -> bool
    ensures { IsTrue result ↔ AreRising files.now }
{
    files.is_sorted_by(|one, next| {
        let one: &FileView = one;
        let next: &FileView = next;
        one.row.id.get() < next.row.id.get()
    })
}

/// The files in rising number, each once. Those of one selection come so, and none of them is moved then.
fn in_order(mut files: Vec<FileView>) -> Vec<FileView>
    ensures order { AreRising result.items }
    ensures from { (view : TheView) → Contains result.items view → Contains files.items view }
    ensures all { (view : TheView) → Contains files.items view → Any (λ kept. kept.row.id ≡ view.row.id) result.items }
{
    if is_rising(&files) {
        return files;
    }
    files.sort_unstable_by_key(|view| {
        let view: &FileView = view;
        view.row.id.get()
    });
    files.dedup_by_key(|view| {
        let view: &mut FileView = view;
        view.row.id.get()
    });
    files
}

/// The selections of a listing for callers of the role.
pub(crate) fn selections_for(policy: &Policy, role: Role, wanted: Filter) -> Got<Vec<Vec<Route>>>
    ensures { IfOk result (λ all. map items_of all.items ≡ selections_of (allowed_by policy.now role action.List) wanted) }
{
    match listing_selections(policy, role, wanted) {
        Ok(all) => Ok(all),
        Err(AllocError) => Err(StoreError),
    }
}

/// Makes the listing whose files the selections find, as far as memory and the store's calls allow.
pub(crate) fn list_selected<S: Store>(
    store: &mut S,
    policy: &Policy,
    caller: &Party,
    day: Day,
    selections: &[Vec<Route>],
) -> Got<Listing>
    ensures files { OverHistory (S.view store.old) (S.view store.new) (λ h.
        (wanted : TheFilter) → map items_of selections.now ≡ selections_for policy.now caller.now wanted
        → IfOk result (λ it. it.files.items ≡ listing policy.now h day caller.now wanted)) }
    ensures opened { OverHistory (S.view store.old) (S.view store.new) (λ h.
        (wanted : TheFilter) → map items_of selections.now ≡ selections_for policy.now caller.now wanted
        → IfOk result (λ it. OpensRows (length (opened policy.now h day caller.now wanted)) it (S.view store.old).handed (S.view store.new).handed)) }
    ensures read { IfOk result (λ it. WereRead it (S.view store.old).handed (S.view store.new).handed) }
    ensures making { IsMaking (S.view store.old) (S.view store.new) result }
{
    let all = gather(store, policy, caller, day, selections)?;
    Ok(Listing {
        files: in_order(all.files),
        read: all.read,
    })
}

/// Makes the listing of the files wanted, as far as memory and the store's calls allow.
fn make_listing<S: Store>(
    store: &mut S,
    policy: &Policy,
    caller: &Party,
    day: Day,
    wanted: Filter,
) -> Got<Listing>
    ensures files { OverHistory (S.view store.old) (S.view store.new) (λ h.
        IfOk result (λ it. it.files.items ≡ listing policy.now h day caller.now wanted)) }
    ensures opened { OverHistory (S.view store.old) (S.view store.new) (λ h.
        IfOk result (λ it. OpensRows (length (opened policy.now h day caller.now wanted)) it (S.view store.old).handed (S.view store.new).handed)) }
    ensures read { IfOk result (λ it. WereRead it (S.view store.old).handed (S.view store.new).handed) }
    ensures making { IsMaking (S.view store.old) (S.view store.new) result }
{
    let selections = selections_for(policy, caller.role, wanted)?;
    list_selected(store, policy, caller, day, &selections)
}

/// Lists the files wanted.
pub(crate) fn list_files<'a, S: Store>(
    store: &mut S,
    policy: &Policy,
    caller: &Party,
    day: Day,
    wanted: Filter,
) -> Got<Decision<'a>>
    ensures model { OverHistory (S.view store.old) (S.view store.new) (λ h.
        IfOk result (λ d. Decides day d (outcome_by_request policy.now h day caller.now (request.ListFiles wanted)) h)) }
    ensures opened { OverHistory (S.view store.old) (S.view store.new) (λ h.
        IfOk result (λ d. Opens (Some (length (opened policy.now h day caller.now wanted))) (reply_for d) (S.view store.old).handed (S.view store.new).handed)) }
    ensures sound { (t : Tables) → IfOk result (LeavesSound day t) }
    ensures deciding { IsDeciding ManyRows (S.view store.old) (S.view store.new) (replies result) }
    ensures proper { IfOk result (IsProper caller.now.id) }
{
    let listing = make_listing(store, policy, caller, day, wanted)?;
    Ok(Decision::Answered(Reply::Listed(listing)))
}

/// Shows a register.
pub(crate) fn show_register<'a, S: Store>(
    store: &mut S,
    policy: &Policy,
    caller: &Party,
    day: Day,
    kind: RegisterKind,
) -> Got<Decision<'a>>
    ensures model { OverHistory (S.view store.old) (S.view store.new) (λ h.
        IfOk result (λ d. Decides day d (outcome_by_request policy.now h day caller.now (request.Register kind)) h)) }
    ensures opened { OverHistory (S.view store.old) (S.view store.new) (λ h.
        IfOk result (λ d. Opens (Some (length (opened policy.now h day caller.now (register_filter kind)))) (reply_for d)
        (S.view store.old).handed (S.view store.new).handed)) }
    ensures sound { (t : Tables) → IfOk result (LeavesSound day t) }
    ensures deciding { IsDeciding ManyRows (S.view store.old) (S.view store.new) (replies result) }
    ensures proper { IfOk result (IsProper caller.now.id) }
{
    let listing = make_listing(store, policy, caller, day, register_filter(kind))?;
    Ok(Decision::Answered(Reply::Register { kind, listing }))
}
