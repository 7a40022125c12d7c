//! The examples of the doc comments of replaying and printing a text, line by line as they are written there.

use permit_base::values::{Day, Digest, PartyId, Text};
use permit_chronicle::wanted::Wanted;
use permit_chronicle::{evidence_text, lacks_text, tell, verified_text};
use permit_history::entry::{Deed, Entry};
use permit_history::evidence_of;
use permit_replay::beginning::Beginning;
use permit_replay::fault::Why;
use permit_replay::following::follow;
use permit_replay::replay;
use permit_replay::replayed::Replayed;
use permit_store::founder::Founder;
use permit_store::plain::PlainStore;
use permit_store::store::Store;
use std::alloc::Global;
use std::process::Abort;
use std::test::*;

/// The lines of the founding, of the upgrade and of a new clerk.
const FOUND: &str =
    r#"{"body":{"digest":"1111111111111111111111111111111111111111111111111111111111111111","name":"Chief"},"caller":0,"day":19700,"done":"found","id":null,"number":1}"#;

const UPGRADE: &str =
    r#"{"body":{},"caller":0,"day":19700,"done":"upgrade","id":null,"number":null}"#;

const ADD_CLERK: &str =
    r#"{"body":{"digest":"2222222222222222222222222222222222222222222222222222222222222222","name":"Cal","role":"clerk"},"caller":1,"day":19701,"done":"add-staff","id":null,"number":2}"#;

const ONES: &str = "1111111111111111111111111111111111111111111111111111111111111111";

const NINES: &str = "9999999999999999999999999999999999999999999999999999999999999999";

fn replays(rt: &impl Abort, alloc: Global) -> Result<(), Fail> {
    let text = format!(in alloc; "{FOUND}\n{UPGRADE}\n{ADD_CLERK}\n")?;
    let mut source = text.as_bytes();
    let Ok(mut store) = replay(alloc, Beginning::Founding, &mut source) else {
        return Err(Fail::new("no tables"));
    };
    assert!(rt; store.desk()?.parties == 2);
    Ok(())
}

fn takes(rt: &impl Abort, alloc: Global, name: Text, digest: Digest, day: Day) -> Result<(), Fail> {
    let deed = Deed::Found { name, digest };
    let nothing = Replayed::Nothing(Beginning::Founding);
    let Ok(founded) = nothing.take(alloc, &Entry { day, deed }) else {
        return Err(Fail::new("no founding"));
    };
    let deed = Deed::Upgrade;
    let opened = founded.take(alloc, &Entry { day, deed });
    assert!(rt; matches!(opened, Ok(Replayed::Open(_))));
    Ok(())
}

fn follows(
    rt: &impl Abort,
    mut store: PlainStore,
    day: Day,
    party: PartyId,
    digest: Digest,
) -> Result<(), Fail> {
    let renewal = Deed::RenewToken { party, digest };
    assert!(rt; follow(&mut store, day, &renewal).is_ok());
    assert!(rt; store.party_by_token(&digest)?.is_some());
    let again = follow(&mut store, day, &Deed::Upgrade);
    assert!(rt; matches!(again, Err(Why::SecondUpgrade)));
    Ok(())
}

fn tells(rt: &impl Abort, alloc: Global, wanted: &Wanted) -> Result<(), Fail> {
    let line = r#"{"body":{},"caller":0,"day":19700,"done":"upgrade","id":null,"number":null}"#;
    let text = format!(in alloc; "{line}\n")?;
    let (mut source, mut out) = (text.as_bytes(), Vec::new(alloc));
    let ended = tell(alloc, &mut source, wanted, &mut out);
    assert!(rt; ended.is_ok());
    assert!(rt; out.as_slice() == b"2023-12-09 - upgrade\n".as_slice());
    Ok(())
}

fn wants(rt: &impl Abort, day: Day, day_behind: Day) -> Wanted {
    let all = Wanted {
        since: None,
        file: None,
        parcel: None,
        party: None,
    };
    let since = Some(day_behind);
    let later = Wanted { since, ..all };
    let deed = Deed::Upgrade;
    let upgrade = Entry { day, deed };
    assert!(rt; all.is_wanted(&upgrade) && !later.is_wanted(&upgrade));
    all
}

fn says_of_a_text(rt: &impl Abort, alloc: Global) -> Result<(), Fail> {
    let evidence = evidence_of(&mut b"one\ntwo\n".as_slice())?;
    let text = evidence_text(alloc, &evidence)?;
    assert!(rt; text.as_str().starts_with("history lines 2 sha256 c3f9c8c2"));
    assert!(rt; verified_text(alloc, 2)?.as_str() == "verified lines 2\n");
    assert!(rt; lacks_text(alloc, 2)?.as_str() == "history: the tables lack 2 commands\n");
    Ok(())
}

/// A name, the digest of 64 ones and the day of a founding.
fn founding(alloc: Global) -> Result<(Text, Digest, Day), Fail> {
    let (digest, day) = (Digest::read(ONES), Day::new(19700));
    let (digest, day) = (digest.ok_or("a digest")?, day.ok_or("a day")?);
    let name = Text::new(String::from_str(alloc, "Chief")?).ok_or("a name")?;
    Ok((name, digest, day))
}

/// The store of the founding.
fn founded(alloc: Global) -> Result<PlainStore, Fail> {
    let (name, digest, day) = founding(alloc)?;
    let founder = Founder::new(name, digest, day).ok_or("a founder")?;
    Ok(PlainStore::create(alloc, &founder)?)
}

#[test]
fn examples_of_replaying_hold(rt: HostRuntime) -> Result<(), Fail> {
    let alloc = rt.alloc();
    replays(&rt, alloc)?;
    let (name, digest, day) = founding(alloc)?;
    takes(&rt, alloc, name, digest, day)?;
    let (party, digest) = (PartyId::new(1), Digest::read(NINES));
    let (party, digest) = (party.ok_or("a party")?, digest.ok_or("a digest")?);
    follows(&rt, founded(alloc)?, day, party, digest)
}

#[test]
fn examples_of_telling_hold(rt: HostRuntime) -> Result<(), Fail> {
    let (day, day_behind) = (Day::new(19700), Day::new(19701));
    let (day, day_behind) = (day.ok_or("a day")?, day_behind.ok_or("a day")?);
    let wanted = wants(&rt, day, day_behind);
    tells(&rt, rt.alloc(), &wanted)?;
    says_of_a_text(&rt, rt.alloc())
}
