//! What founding leaves in a store over vectors. The changes are tested through the office.

use permit_base::values::Text;
use permit_base::words::Role;
use permit_samples::ask::TOKENS;
use permit_samples::makers::{day, digest_of, party, text};
use permit_samples::offices::founder;
use permit_store::founder::Founder;
use permit_store::plain::PlainStore;
use permit_store::store::Store;
use std::alloc::Global;
use std::test::Fail;

#[test]
fn day_zero_founds_nothing(rt: HostRuntime) -> Result<(), Fail> {
    let name = text(rt.alloc(), "Ada")?;
    assert!(rt; Founder::new(name, digest_of(rt.alloc(), TOKENS[0])?, day(0)?).is_none());
    Ok(())
}

/// The name and the role of party 1.
fn first_party<S: Store>(store: &mut S) -> Result<(Text, Role), Fail> {
    let found = store.party(party(1)?)?.ok_or("party 1")?;
    Ok((found.name, found.role))
}

/// The number of the party with the first token.
fn party_of_token<S: Store>(store: &mut S, alloc: Global) -> Result<u32, Fail> {
    let digest = digest_of(alloc, TOKENS[0])?;
    Ok(store.party_by_token(&digest)?.ok_or("its party")?.id.get())
}

#[test]
fn founding_sets_the_desk_and_the_first_party(rt: HostRuntime) -> Result<(), Fail> {
    let mut store = PlainStore::create(rt.alloc(), &founder(rt.alloc())?)?;
    let desk = store.desk()?;
    assert!(rt; desk.last.get() == 19700);
    assert!(rt; desk.parties == 1 && desk.parcels == 0 && desk.files == 0);
    assert!(rt; store.role(party(1)?)? == Some(Role::Official));
    assert!(rt; store.role(party(2)?)?.is_none());
    assert!(rt; party_of_token(&mut store, rt.alloc())? == 1);
    let (name, role) = first_party(&mut store)?;
    assert!(rt; name.as_str() == "Chief" && role == Role::Official);
    Ok(())
}
