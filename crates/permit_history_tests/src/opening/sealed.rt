//! The seals of small offices. Each digest was made by another program, of the text that docs/HISTORY.md says.

use crate::opening::texts::store;
use permit_replay::beginning::Beginning;
use permit_replay::replay;
use permit_replay::seal::seal;
use permit_store::plain::PlainStore;
use std::test::*;

/// Two files, the first with two papers. The interests are declared in no order.
const TEXT: &str =
    r#"{"body":{"digest":"71c480df93d6ae2f1efad1447c66c9525e316218cf51fc8d9ed832f2daf18b73","name":"Chief"},"caller":0,"day":19700,"done":"found","id":null,"number":1}
{"body":{},"caller":0,"day":19700,"done":"upgrade","id":null,"number":null}
{"body":{"digest":"88394b0645cfb603571c171e01edd449363341d776973c422614dfd0efe55937","name":"Sam","role":"public"},"caller":1,"day":19701,"done":"add-party","id":null,"number":2}
{"body":{"digest":"4605b248089a824141cc1e1cf568b4ab0e2839dbacff8c5f6a46ff0de3eddcfa","name":"Rae","role":"reviewer"},"caller":1,"day":19701,"done":"add-staff","id":null,"number":3}
{"body":{"address":"1 Main St","lot":"A-1","owner":2},"caller":1,"day":19701,"done":"add-parcel","id":null,"number":1}
{"body":{"address":"2 Élm St","lot":"B-2","owner":2},"caller":1,"day":19701,"done":"add-parcel","id":null,"number":2}
{"body":{},"caller":1,"day":19701,"done":"declare","id":2,"number":null}
{"body":{},"caller":2,"day":19701,"done":"declare","id":1,"number":null}
{"body":{},"caller":1,"day":19701,"done":"declare","id":1,"number":null}
{"body":{"description":"House","kind":"construct","parcel":1,"valuation":25000000},"caller":2,"day":19702,"done":"file","id":null,"number":1}
{"body":{"party":3},"caller":1,"day":19702,"done":"assign-reviewer","id":1,"number":null}
{"body":{},"caller":3,"day":19703,"done":"start-review","id":1,"number":null}
{"body":{"text":"Say which \"rafters\""},"caller":3,"day":19703,"done":"return","id":1,"number":1}
{"body":{"text":"All of them"},"caller":2,"day":19704,"done":"resubmit","id":1,"number":2}
{"body":{"description":"Roof","kind":"repair","parcel":2,"valuation":0},"caller":2,"day":19705,"done":"file","id":null,"number":2}
"#;

/// Fails where the seal of a store is another one.
fn want(store: &mut PlainStore, wanted: &str) -> Result<(), Fail> {
    match seal(store) {
        Ok(digest) if digest.as_str() == wanted => Ok(()),
        Ok(_) => Err("another seal".into()),
        Err(_) => Err("no seal".into()),
    }
}

#[test]
fn a_founding_alone_has_its_seal(rt: HostRuntime) -> Result<(), Fail> {
    let mut founded = store(rt.alloc(), 2)?;
    want(
        &mut founded,
        "8e4ad670e47c05c90fb8f36b87c0fe417be8208108542e1427ab9f9bc402fc97",
    )
}

#[test]
fn every_row_stands_in_the_seal(rt: HostRuntime) -> Result<(), Fail> {
    let mut source = TEXT.as_bytes();
    match replay(rt.alloc(), Beginning::Founding, &mut source) {
        Ok(mut replayed) => want(
            &mut replayed,
            "ba381be2b70ced6d6ec11503560457be98c15ffb2e0c2aa613fbbb7026b4d51b",
        ),
        Err(_) => Err("the lines are not replayed".into()),
    }
}
