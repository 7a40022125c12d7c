//! The files of a listing, passed to a taker one at a time.

ghost use Rattle.std.specs.Prelude.{◌≡◌, ◌∷◌, [], map, IfSome, IsSome, length, List, Some};
ghost use Rattle.permit_base.specs.declared.route.Route.{Route as TheRoute};
ghost use Rattle.permit_base.specs.declared.request.Request.TheVariants as request;
ghost use Rattle.permit_model.specs.Listing.{listing, register_filter};
ghost use Rattle.permit_model.specs.Opened.{opened};
ghost use Rattle.permit_model.specs.Tables.{FileView as TheView};
ghost use Rattle.permit_model.specs.Machine.{Listed, step_as};
ghost use Rattle.permit_policy.specs.Selections.{items_of};
ghost use Rattle.permit_store.specs.Frames.{OverHistory};
ghost use Rattle.permit_office.specs.Frames.{IsMaking};
ghost use Rattle.permit_office.specs.Opening.{rows_opened};
ghost use Rattle.permit_office.specs.Showing.{HandedAt, IsShowing, OpensAt, Shows, ShowsSome, TakesUp, end_of};
ghost use Rattle.permit_office.specs.Stops.{StopsAt, StopsFor};

use crate::callers::known_caller;
use crate::listing::{list_selected, selections_for};
use crate::passing::pass_on;
use permit_base::refusal::Refusal;
use permit_base::request::{FileStage, Filter};
use permit_base::route::Route;
use permit_base::values::{Day, Digest};
use permit_base::words::{RegisterKind, Stage};
use permit_core::taker::Taker;
use permit_policy::Policy;
use permit_store::rows::{FileView, Party};
use permit_store::store::{Got, Store, StoreError};

/// How the passing of a listing's files to a taker ended.
#[derive(Clone, Copy)]
pub enum RowsEnd {
    /// The taker took each file, and each answer was true. The store returned so many rows for the listing; the count
    /// wraps after 4294967295.
    All { read: u32 },
    /// The caller isn't known or the day is below the last, and nothing was taken; or the store failed or memory was
    /// refused, and what was taken is a prefix, with each answer true.
    Refused(Refusal),
    /// The taker asked to stop at the last file that it took.
    Stopped,
}

/// Which files a register of the kind holds.
pub fn register_filter(kind: RegisterKind) -> Filter
    ensures { result ≡ register_filter kind }
{
    match kind {
        RegisterKind::Files => Filter::All,
        RegisterKind::Deadlines => Filter::Due,
        RegisterKind::Inspections => match FileStage::new(Stage::Working) {
            Some(stage) => Filter::InStage(stage),
            // Files can be in that stage, so there is always one.
            None => Filter::All,
        },
    }
}

/// The route, where the selections have no other.
fn only_route(selections: &[Vec<Route>]) -> Option<Route>
    ensures one { IfSome result (λ route. map items_of selections.now ≡ (route ∷ []) ∷ []) }
    ensures other { (route : TheRoute) → map items_of selections.now ≡ (route ∷ []) ∷ [] → IsSome result }
{
    if selections.len() != 1 || selections[0].len() != 1 {
        return None;
    }
    Some(selections[0][0])
}

/// Hands the files to the taker until it asks to stop: whether each answer was true.
fn hand_out<T: Taker<FileView>>(files: Vec<FileView>, taker: &mut T) -> bool
    ensures { TakesUp T.took files.items taker.old taker.new result }
{
    for view in files {
        if !taker.take(view) {
            return false;
        }
    }
    true
}

/// Hands the files wanted to the taker, in rising number and each once, as far as memory and the store's calls allow.
/// Those of one route come so from the store; those of several are made a list first.
fn hand_files<S: Store, T: Taker<FileView>>(
    store: &mut S,
    policy: &Policy,
    caller: &Party,
    day: Day,
    wanted: Filter,
    taker: &mut T,
) -> Got<RowsEnd>
    ensures shown { OverHistory (S.view store.old) (S.view store.new) (λ h.
        Shows T.took (Listed (listing policy.now h day caller.now wanted)) taker.old taker.new (end_of result)) }
    ensures some { (files : List TheView) × Shows T.took (Listed files) taker.old taker.new (end_of result) }
    ensures opened { OverHistory (S.view store.old) (S.view store.new) (λ h.
        OpensAt (Some (length (opened policy.now h day caller.now wanted))) (end_of result) (S.view store.old).handed (S.view store.new).handed) }
    ensures stopped { OverHistory (S.view store.old) (S.view store.new) (λ h.
        StopsFor T.took policy.now h caller.now day wanted (end_of result) taker.old taker.new (S.view store.old).handed (S.view store.new).handed) }
    ensures handed { HandedAt (end_of result) (S.view store.old).handed (S.view store.new).handed }
    ensures making { IsMaking (S.view store.old) (S.view store.new) result }
{
    let selections = selections_for(policy, caller.role, wanted)?;
    if let Some(route) = only_route(&selections) {
        return pass_on(store, policy, caller, day, &[route], taker);
    }
    let Ok(listing) = list_selected(store, policy, caller, day, &selections) else {
        return Err(StoreError);
    };
    if hand_out(listing.files, taker) {
        Ok(RowsEnd::All { read: listing.read })
    } else {
        Ok(RowsEnd::Stopped)
    }
}

/// Passes the listing for the caller that has the digest to the taker.
pub(crate) fn show<S: Store, T: Taker<FileView>>(
    store: &mut S,
    policy: &Policy,
    digest: &Digest,
    day: Day,
    wanted: Filter,
    taker: &mut T,
) -> RowsEnd
    ensures shown { OverHistory (S.view store.old) (S.view store.new) (λ h.
        Shows T.took (step_as policy.now h digest.now (request.ListFiles wanted) day).reply taker.old taker.new result) }
    ensures some { ShowsSome T.took taker.old taker.new result }
    ensures opened { OverHistory (S.view store.old) (S.view store.new) (λ h.
        OpensAt (rows_opened policy.now h digest.now (request.ListFiles wanted) day) result (S.view store.old).handed (S.view store.new).handed) }
    ensures stopped { OverHistory (S.view store.old) (S.view store.new) (λ h.
        StopsAt T.took policy.now h digest.now day wanted result taker.old taker.new (S.view store.old).handed (S.view store.new).handed) }
    ensures showing { IsShowing (S.view store.old) (S.view store.new) result }
{
    match known_caller(store, digest, day) {
        Ok(Ok((caller, _))) => match hand_files(store, policy, &caller, day, wanted, taker) {
            Ok(end) => end,
            Err(_) => RowsEnd::Refused(Refusal::Store),
        },
        Ok(Err(refusal)) => RowsEnd::Refused(refusal),
        Err(_) => RowsEnd::Refused(Refusal::Store),
    }
}
