//! A token that is renewed in a database.

use crate::database::{founded, opened, over_database};
use permit_base::refusal::{Reason, Refusal};
use permit_samples::ask::TOKENS;
use permit_samples::held::Held;
use permit_samples::makers::{digest_of, token};
use permit_samples::opening::OPENING;
use permit_samples::script::play;
use permit_sql::renew::RenewError;
use permit_sql::store::SqlStore;
use permit_store::store::{OpenError, Store};
use sqlite::{Connection, MemStore};
use std::alloc::Global;
use std::process::Abort;
use std::test::Fail;

/// A token that nobody has at first, and one that nobody ever has.
const NEW: &str = "renewed2renewed2renewed2";

const OTHER: &str = "nobody0nobody0nobody0";

/// The number of the party that has the token, and 0 where nobody has it.
fn holder(alloc: Global, store: &mut SqlStore<MemStore>, letters: &str) -> Result<u32, Fail> {
    match store.party_by_token(&digest_of(alloc, letters)?)? {
        Some(party) => Ok(party.id.get()),
        None => Ok(0),
    }
}

/// What a renewal answers.
fn renewal(
    alloc: Global,
    conn: &mut Connection<MemStore>,
    party: u32,
    letters: &str,
) -> Result<Result<(), RenewError>, Fail> {
    Ok(SqlStore::renew_token(alloc, conn, party, &token(alloc, letters)?))
}

/// The database of the office after the opening of the scenarios.
fn played(alloc: Global) -> Result<Connection<MemStore>, Fail> {
    let mut office = Held::new(over_database(alloc)?);
    play(alloc, &mut office.value, OPENING)?;
    Ok(office.into_inner().into_store().into_connection())
}

/// Each token is the party's, of a number; nobody's for 0.
fn are_held(rt: &impl Abort, alloc: Global, store: &mut SqlStore<MemStore>) -> Result<(), Fail> {
    for (party, letters) in [
        (1, TOKENS[0]),
        (2, NEW),
        (3, TOKENS[2]),
        (0, TOKENS[1]),
        (0, OTHER),
    ] {
        assert_eq!(rt; holder(alloc, store, letters)?, party);
    }
    Ok(())
}

#[test]
fn a_renewed_token_is_the_party_s_only_one(rt: HostRuntime) -> Result<(), Fail> {
    let alloc = rt.alloc();
    let mut conn = played(alloc)?;
    assert!(rt; renewal(alloc, &mut conn, 2, NEW)? == Ok(()));
    let taken = Err(RenewError::Refused(Refusal::NotAdmitted(Reason::Taken)));
    for (party, letters) in [(2, NEW), (3, NEW), (3, TOKENS[0])] {
        assert!(rt; renewal(alloc, &mut conn, party, letters)? == taken);
    }
    for party in [0, 99, 100_000] {
        let missing = Err(RenewError::Refused(Refusal::Record));
        assert!(rt; renewal(alloc, &mut conn, party, OTHER)? == missing);
    }
    let store = &mut Held::new(opened(alloc, conn)?).value;
    are_held(&rt, alloc, store)
}

#[test]
fn what_is_no_office_has_no_token_renewed(rt: HostRuntime) -> Result<(), Fail> {
    let alloc = rt.alloc();
    let mut conn = founded(alloc)?.into_connection();
    conn.execute("UPDATE desk SET version = 1", &[])?;
    let other = Err(RenewError::Open(OpenError::Version));
    assert!(rt; renewal(alloc, &mut conn, 1, NEW)? == other);
    conn.execute("UPDATE desk SET version = 2, parties = 2", &[])?;
    let damaged = Err(RenewError::Open(OpenError::Damaged));
    assert!(rt; renewal(alloc, &mut conn, 1, NEW)? == damaged);
    let mut none = Connection::open_in_memory(alloc)?;
    let store = Err(RenewError::Open(OpenError::Store));
    assert!(rt; renewal(alloc, &mut none, 1, NEW)? == store);
    Ok(())
}
