//! Whether typed tables are sound: the parties, parcels and interests.

ghost use Rattle.std.specs.Prelude.{◌≡◌, ◌++◌, ◌∷◌, [], map, IsTrue, MatchBool, IfOk};
ghost use Rattle.std.specs.List.{list_all};
ghost use Rattle.sqlite.specs.State.{HasCleanDisk};
ghost use Rattle.sqlite.specs.Held.{state};
ghost use Rattle.permit_sql.specs.Tested.{fits_parcel, fits_interest};
ghost use Rattle.permit_sql.specs.Passed.{PassesParty, PassesParcel, StopsParcel, PassesInterest, StopsInterest, StopsParty};
ghost use Rattle.permit_sql.specs.Frames.{IsLook, OverTyped};
ghost use Rattle.permit_sql_statements.specs.Frames.{IsIdle};

use crate::each::Taker;
use crate::texts::{EACH_INTEREST, EACH_PARCEL, EACH_PARTY};
use crate::typed::takes_all;
use permit_base::words::{Edition, Role};
use permit_sql_rows::decode::{interest_in, owner_in, role_in};
use permit_store::store::{Got, StoreError};
use sqlite::{Alter, Connection, Row};
use std::alloc::Global;

/// The roles of the parties that were read.
#[derive(Drop)]
struct Roles {
    roles: Vec<Role>,
    lacks_memory: bool,
}

impl Taker for Roles {
    ghost took = { λ a row b good. MatchBool good (PassesParty a.roles.items row b.roles.items) (StopsParty row b.lacks_memory) };

    fn take(&mut self, row: &Row) -> bool {
        let Some(role) = role_in(row) else {
            return false;
        };
        match self.roles.push(role) {
            Ok(()) => true,
            Err(_) => {
                self.lacks_memory = true;
                false
            }
        }
    }
}

/// The roles of typed parties, in the order of their numbers.
pub(crate) fn roles_of<S: Alter>(
    conn: &mut Connection<S>,
    alloc: Global,
    edition: Edition,
) -> Got<Vec<Role>>
    requires idle { IsIdle conn.old }
    ensures told { HasCleanDisk (state S.Store conn.new)
        → OverTyped S.Store edition conn.old (λ t. IfOk result (λ roles. roles.items ≡ map (λ p. p.role) t.parties)) }
    ensures look { IsLook S.Store conn.old conn.new result }
{
    let mut roles = Roles {
        roles: Vec::new(alloc),
        lacks_memory: false,
    };
    let all = takes_all(conn, edition, EACH_PARTY, &mut roles)?;
    if roles.lacks_memory {
        return Err(StoreError);
    }
    if !all {
        return Err(StoreError);
    }
    Ok(roles.roles)
}

/// How many parties there are.
#[derive(Drop)]
struct Owners {
    parties: u32,
}

impl Taker for Owners {
    ghost took = { λ a row b good. MatchBool good (PassesParcel a.parties row × (b.parties ≡ a.parties)) (StopsParcel a.parties row) };

    fn take(&mut self, row: &Row) -> bool {
        match owner_in(row) {
            Some(owner) => owner.get() <= self.parties,
            None => false,
        }
    }
}

/// Whether the owner of each of the typed parcels is among so many parties.
pub(crate) fn has_owners<S: Alter>(
    conn: &mut Connection<S>,
    edition: Edition,
    parties: u32,
) -> Got<bool>
    requires idle { IsIdle conn.old }
    ensures told { HasCleanDisk (state S.Store conn.new)
        → OverTyped S.Store edition conn.old (λ t. IfOk result (λ good. good ≡ list_all (fits_parcel parties) t.parcels)) }
    ensures look { IsLook S.Store conn.old conn.new result }
{
    takes_all(conn, edition, EACH_PARCEL, &mut Owners { parties })
}

/// How many parcels and parties there are.
#[derive(Drop)]
struct Declarers {
    parcels: u32,
    parties: u32,
}

impl Taker for Declarers {
    ghost took = { λ a row b good. MatchBool good
        (PassesInterest a.parcels a.parties row × ((b.parcels ≡ a.parcels) × (b.parties ≡ a.parties)))
        (StopsInterest a.parcels a.parties row) };

    fn take(&mut self, row: &Row) -> bool {
        match interest_in(row) {
            Some((parcel, party)) => parcel.get() <= self.parcels && party.get() <= self.parties,
            None => false,
        }
    }
}

/// Whether the parcel and the party of each of the typed interests are among so many.
pub(crate) fn has_declarers<S: Alter>(
    conn: &mut Connection<S>,
    edition: Edition,
    parcels: u32,
    parties: u32,
) -> Got<bool>
    requires idle { IsIdle conn.old }
    ensures told { HasCleanDisk (state S.Store conn.new)
        → OverTyped S.Store edition conn.old (λ t. IfOk result (λ good. good ≡ list_all (fits_interest parcels parties) t.interests)) }
    ensures look { IsLook S.Store conn.old conn.new result }
{
    takes_all(
        conn,
        edition,
        EACH_INTEREST,
        &mut Declarers { parcels, parties },
    )
}
