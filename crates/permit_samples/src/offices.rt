//! The offices of the scenarios, as they are founded.

use crate::ask::TOKENS;
use crate::makers::{day, digest_of, text};
use crate::standard::POLICY;
use permit_office::log::NoLog;
use permit_office::office::Office;
use permit_policy::text::read_policy;
use permit_store::founder::Founder;
use permit_store::plain::PlainStore;
use permit_store::store::Store;
use std::alloc::Global;
use std::test::Fail;

/// The day of the founding.
pub const FOUNDED: u32 = 19700;

/// Party 1.
pub fn founder(alloc: Global) -> Result<Founder, Fail> {
    let (name, digest) = (text(alloc, "Chief")?, digest_of(alloc, TOKENS[0])?);
    Ok(Founder::new(name, digest, day(FOUNDED)?).ok_or("a founder")?)
}

/// The office over a store, under a policy.
pub fn office_over<S: Store + Drop>(
    alloc: Global,
    store: S,
    policy: &str,
) -> Result<Office<S>, Fail> {
    match Office::open(store, read_policy(alloc, policy)?, NoLog) {
        Ok(office) => Ok(office),
        Err(_) => Err(Fail::new("no office")),
    }
}

/// The office with the tables that it has, under another policy.
pub fn under<S: Store + Drop>(
    alloc: Global,
    office: Office<S>,
    policy: &str,
) -> Result<Office<S>, Fail> {
    office_over(alloc, office.into_store(), policy)
}

/// The office after its founding, over vectors.
pub fn over_vectors(alloc: Global) -> Result<Office<PlainStore>, Fail> {
    let store = PlainStore::create(alloc, &founder(alloc)?)?;
    office_over(alloc, store, POLICY)
}
