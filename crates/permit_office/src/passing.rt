//! The files that routes find, passed on as the store hands out its rows.

ghost use Rattle.std.specs.Prelude.{◌≡◌, List};
ghost use Rattle.permit_model.specs.Routes.{Found as TheFound};
ghost use Rattle.permit_store.specs.Frames.{OverTables};
ghost use Rattle.permit_store.specs.Handing.{Hands};
ghost use Rattle.permit_office.specs.Frames.{IsMaking};
ghost use Rattle.permit_office.specs.Listings.{found_facts, view_found};
ghost use Rattle.permit_office.specs.Passing.{AreHandedBy, PassedOn};

use crate::showing::RowsEnd;
use permit_base::route::Route;
use permit_base::values::{Day, PartyId};
use permit_base::words::Action;
use permit_core::taker::Taker;
use permit_policy::decide::decide;
use permit_policy::{Facts, Policy};
use permit_store::rows::{FileView, Found, Party};
use permit_store::store::{Got, Store};

/// Passes on the files that the caller may list among the rows found.
#[derive(Drop)]
struct Passer<'a, T> {
    policy: &'a Policy,
    caller: &'a Party,
    day: Day,
    taker: &'a mut T,
    /// How many rows it took; the count wraps.
    read: u32,
}

/// The facts on a file that is found for the caller.
fn facts_on(caller: &Party, day: Day, found: &Found) -> Facts
    ensures { result ≡ found_facts caller.now day found.now }
{
    let state = &found.row.state;
    Facts {
        role: caller.role,
        relations: state.relations(caller.id, found.owner, found.conflict),
        action: Action::List,
        stage: state.stage(day),
        stopped: state.is_stopped(),
        timing: state.timing(day),
    }
}

/// The file, as it is shown on the day.
fn view_on(day: Day, found: Found) -> FileView
    ensures { result ≡ view_found day found }
{
    let row = found.row;
    let stage = row.state.stage(day);
    let timing = row.state.timing(day);
    FileView { row, stage, timing }
}

impl<T: Taker<FileView>> Taker<Found> for Passer<'_, T> {
    ghost use Rattle.permit_office.specs.Passing.{Passes};

    ghost took = { Passes T.took };

    /// Decides by the policy's first match on the full set of the caller's relations, whatever route found the row, and
    /// passes the file on where it may be listed. False where the taker asks to stop.
    fn take(&mut self, found: Found) -> bool {
        self.read = self.read.wrapping_add(1);
        let facts = facts_on(self.caller, self.day, &found);
        if !decide(self.policy, &facts).is_allow() {
            return true;
        }
        self.taker.take(view_on(self.day, found))
    }
}

/// Hands the rows that any of the routes finds to the taker. Those of one route come in rising number.
fn hand<S: Store, T: Taker<Found>>(
    store: &mut S,
    routes: &[Route],
    caller: PartyId,
    day: Day,
    taker: &mut T,
) -> Got<bool>
    ensures handed { (given : List TheFound) × Hands T.took given (S.view store.old) (S.view store.new) taker.old taker.new result
        × OverTables (S.view store.old) (S.view store.new) (λ t. AreHandedBy routes.now caller day t result given) }
{
    if routes.len() == 1 {
        return store.each(&routes[0], caller, day, taker);
    }
    store.each_of_any(routes, caller, day, taker)
}

/// Passes on the files that the caller may list among the rows that any of the routes finds, each row once. It keeps no list
/// of them.
pub(crate) fn pass_on<S: Store, T: Taker<FileView>>(
    store: &mut S,
    policy: &Policy,
    caller: &Party,
    day: Day,
    routes: &[Route],
    taker: &mut T,
) -> Got<RowsEnd>
    ensures passed { PassedOn T.took policy.now caller.now day routes.now (S.view store.old) (S.view store.new) taker.old taker.new result }
    ensures making { IsMaking (S.view store.old) (S.view store.new) result }
{
    let mut passer = Passer {
        policy,
        caller,
        day,
        taker,
        read: 0,
    };
    let is_whole = hand(store, routes, caller.id, day, &mut passer)?;
    if is_whole {
        Ok(RowsEnd::All { read: passer.read })
    } else {
        Ok(RowsEnd::Stopped)
    }
}
