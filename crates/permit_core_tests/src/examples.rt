//! The examples of the doc comments, line by line as they are written there.

use jiff::Timestamp;
use jiff::tz::TimeZone;
use permit_base::digests::digest;
use permit_base::limits::TERM;
use permit_base::request::{Asked, Filter, Request};
use permit_base::values::{Day, Digest, Lot, PartyId, Text, Token};
use permit_base::words::{Action, Edition, Kind, Role, Stage};
use permit_core::restore::StateFields;
use permit_core::state::FileState;
use permit_days::dates::{date_text, read_date};
use permit_days::instants::day_of;
use permit_http::inbox::Inbox;
use permit_office::log::NoLog;
use permit_office::office::Office;
use permit_office::reply::Reply;
use permit_policy::decide::decide;
use permit_policy::facts::Facts;
use permit_policy::{Policy, read_policy};
use permit_routes::bearer::read_token;
use permit_routes::fault::RequestFault;
use permit_routes::id;
use permit_routes::routing::Routes;
use permit_samples::ask::TOKENS;
use permit_samples::held::Held;
use permit_samples::makers::{day, digest_of, parcel, party, text, token};
use permit_samples::offices::over_vectors;
use permit_samples::script::play;
use permit_samples::standard::POLICY;
use permit_store::founder::Founder;
use permit_store::plain::PlainStore;
use permit_store::store::Store;
use permit_wire::read::read_request;
use permit_wire::serve::{Served, serve_one};
use std::alloc::Global;
use std::process::Abort;
use std::test::Fail;

fn numbers(rt: &impl Abort) -> Result<(), Fail> {
    let party = PartyId::new(7).ok_or("a party")?;
    assert!(rt; party.get() == 7);
    assert!(rt; PartyId::new(0).is_none());
    Ok(())
}

fn texts(rt: &impl Abort, alloc: Global) -> Result<(), Fail> {
    let lot = Lot::new(String::from_str(alloc, "A-1")?).ok_or("a lot")?;
    assert!(rt; lot.as_str() == "A-1");
    assert!(rt; Lot::new(String::from_str(alloc, "a lot")?).is_none());
    Ok(())
}

fn digests(rt: &impl Abort, alloc: Global) -> Result<(), Fail> {
    let letters = String::from_str(alloc, "abcdefghijklmnopqrstuvwxyz")?;
    let token = Token::new(letters).ok_or("a token")?;
    assert!(rt; digest(&token)?.as_str().starts_with("71c480df93d6ae2f"));
    Ok(())
}

fn dates_read(rt: &impl Abort) -> Result<(), Fail> {
    let day = read_date("2024-01-01").ok_or("a date")?;
    assert!(rt; day.get() == 19723);
    assert!(rt; read_date("2024-1-1").is_none());
    Ok(())
}

fn dates_written(rt: &impl Abort, alloc: Global) -> Result<(), Fail> {
    let date = date_text(alloc, 19723)?;
    assert!(rt; date.as_str() == "2024-01-01");
    Ok(())
}

fn days(rt: &impl Abort) -> Result<(), Fail> {
    let midnight = Timestamp::from_second(1_704_067_200)?;
    let there = day_of(midnight, &TimeZone::posix("EST5")?);
    assert!(rt; there.map(Day::get) == Ok(19722));
    Ok(())
}

fn states(rt: &impl Abort) -> Result<(), Fail> {
    let (applicant, parcel, day) = (party(5)?, parcel(1)?, day(19723)?);
    let state = FileState::file(applicant, parcel, Kind::Repair, Edition::Second, day);
    assert!(rt; state.parcel() == parcel && state.papers() == 0);
    let state = FileState::file(applicant, parcel, Kind::Repair, Edition::Second, day);
    assert!(rt; state.deadline() == Some(day.get() + TERM));
    let fields = state.fields();
    assert!(rt; FileState::restore(fields).is_some());
    let certified = StateFields {
        stage: Stage::Certified,
        ..fields
    };
    assert!(rt; FileState::restore(certified).is_none());
    Ok(())
}

fn policy_read(rt: &impl Abort, alloc: Global) -> Result<Policy, Fail> {
    let text = "[[rule]]\nname = \"clerks\"\neffect = \"allow\"\nrole = [\"clerk\"]\n";
    let policy = read_policy(alloc, text)?;
    assert!(rt; policy.rules() == 1);
    Ok(policy)
}

fn denials(rt: &impl Abort, policy: &Policy) -> Result<(), Fail> {
    let asked = Facts::office(Role::Public, Action::AddParcel);
    let rule = policy.denial(&asked).ok_or("a denial")?;
    assert!(rt; rule.as_str() == "default");
    Ok(())
}

fn decisions(rt: &impl Abort, policy: Policy) {
    let asked = Facts::office(Role::Clerk, Action::AddParcel);
    let decision = decide(&policy, &asked);
    assert!(rt; decision.is_allow() && decision.rule.as_str() == "clerks");
}

fn policies(rt: &impl Abort, alloc: Global) -> Result<(), Fail> {
    let policy = policy_read(rt, alloc)?;
    denials(rt, &policy)?;
    decisions(rt, policy);
    Ok(())
}

fn founder(name: Text, digest: Digest, day: Day) -> Result<Founder, Fail> {
    let founder = Founder::new(name, digest, day).ok_or("a founder")?;
    Ok(founder)
}

fn founded(rt: &impl Abort, alloc: Global) -> Result<PlainStore, Fail> {
    let (digest, day) = (digest_of(alloc, TOKENS[0])?, day(19700)?);
    let founder = founder(text(alloc, "Ada")?, digest, day)?;
    let mut store = PlainStore::create(alloc, &founder)?;
    assert!(rt; store.desk()?.parties == 1);
    Ok(store)
}

fn loaded(rt: &impl Abort, alloc: Global, mut store: PlainStore) -> Result<PlainStore, Fail> {
    let mut copy = PlainStore::load(alloc, &mut store)?;
    assert!(rt; copy.desk()?.parties == store.desk()?.parties);
    Ok(copy)
}

fn opened(store: PlainStore, policy: Policy) -> Result<Office<PlainStore>, Fail> {
    let Ok(mut office) = Office::open(store, policy, NoLog) else {
        return Err(Fail::new("no office"));
    };
    Ok(office)
}

fn listed(rt: &impl Abort, office: &mut Office<PlainStore>, token: Token, day: Day) {
    let request = Request::ListFiles {
        filter: Filter::All,
    };
    let reply = office.step(&Asked { token, request }, day);
    assert!(rt; matches!(reply, Reply::Listed(_)));
}

fn closed(rt: &impl Abort, office: Office<PlainStore>) -> Result<(), Fail> {
    let mut store = office.into_store();
    assert!(rt; store.desk()?.files == 0);
    Ok(())
}

fn parted(rt: &impl Abort, office: Office<PlainStore>) -> Result<(), Fail> {
    let (mut store, _log) = office.into_parts();
    assert!(rt; store.desk()?.files == 0);
    Ok(())
}

fn offices(rt: &impl Abort, alloc: Global) -> Result<(), Fail> {
    let store = loaded(rt, alloc, founded(rt, alloc)?)?;
    let mut office = opened(store, read_policy(alloc, POLICY)?)?;
    listed(rt, &mut office, token(alloc, TOKENS[0])?, day(19700)?);
    closed(rt, office)?;
    let store = founded(rt, alloc)?;
    parted(rt, opened(store, read_policy(alloc, POLICY)?)?)
}

fn routed(rt: &impl Abort, alloc: Global) {
    let mut routes = Routes::new(alloc);
    let request = routes.request(b"POST", b"/parcels/2/transfer", b"{\"to\":5}");
    assert!(rt; matches!(request, Ok(Request::Transfer { .. })));
    let request = routes.request(b"GET", b"/files/0", b"");
    assert!(rt; matches!(request, Err(RequestFault::Route)));
}

fn routed_numbers(rt: &impl Abort) {
    assert!(rt; id("99999") == Some(99999));
    assert!(rt; id("0").is_none() && id("007").is_none() && id("100000").is_none());
}

fn tokens(rt: &impl Abort, alloc: Global) -> Result<(), Fail> {
    let token = read_token(alloc, b"Bearer abcdefghijklmnopqrstuvwxyz")?;
    assert!(rt; token.is_some());
    Ok(())
}

fn messages(rt: &impl Abort) -> Result<(), Fail> {
    let mut inbox = Inbox::new();
    assert!(rt; !inbox.is_closed());
    let mut reader: &[u8] = b"GET /files HTTP/1.1\r\nHost: office\r\n\r\n";
    let Ok(Some(spans)) = inbox.read_message(&mut reader) else {
        return Err(Fail::new("no message"));
    };
    assert!(rt; inbox.message(&spans).path == b"/files".as_slice());
    Ok(())
}

fn messages_let_go(rt: &impl Abort, inbox: &mut Inbox) -> Result<(), Fail> {
    let mut reader: &[u8] = b"GET /files HTTP/1.1\r\nHost: office\r\nConnection: close\r\n\r\n";
    let Ok(Some(spans)) = inbox.read_message(&mut reader) else {
        return Err(Fail::new("no message"));
    };
    inbox.let_go(&spans);
    assert!(rt; inbox.as_slice().is_empty() && inbox.is_closed());
    Ok(())
}

fn requests_served(rt: &impl Abort, alloc: Global) -> Result<(), Fail> {
    let day = day(19700)?;
    let office = &mut over_vectors(alloc)?;
    let mut inbox = Inbox::new();
    let mut reader: &[u8] = b"GET /files HTTP/1.1\r\nHost: office\r\n\r\n";
    let mut written = Vec::new(alloc);
    let served = serve_one(alloc, office, &mut inbox, &mut reader, &mut written, day);
    assert!(rt; served == Served::Kept);
    assert!(rt; written.as_slice().starts_with(b"HTTP/1.1 401 Unauthorized"));
    assert!(rt; Served::Ended.is_shut() && !Served::Kept.is_shut());
    Ok(())
}

fn requests_read(rt: &impl Abort, alloc: Global) {
    let mut inbox = Inbox::new();
    let mut reader: &[u8] = b"";
    let read = read_request(alloc, &mut inbox, &mut reader);
    assert!(rt; matches!(read, Ok(None)));
}

fn samples(rt: &impl Abort, alloc: Global) -> Result<(), Fail> {
    let first = day(19700)?;
    assert!(rt; first.get() == 19700);
    let held = Held::new(19700);
    assert!(rt; held.value == 19700);
    assert!(rt; held.into_inner() == 19700);
    let office = &mut over_vectors(alloc)?;
    let script = "> 1 19700 GET /\n< 404 Not Found {\"refused\":\"route\"}\n";
    let bodies = play(alloc, office, script)?;
    assert!(rt; bodies.as_str() == "{\"refused\":\"route\"}\n");
    Ok(())
}

#[test]
fn examples_hold(rt: HostRuntime) -> Result<(), Fail> {
    let alloc = rt.alloc();
    numbers(&rt)?;
    texts(&rt, alloc)?;
    digests(&rt, alloc)?;
    dates_read(&rt)?;
    dates_written(&rt, alloc)?;
    days(&rt)?;
    states(&rt)?;
    policies(&rt, alloc)?;
    offices(&rt, alloc)?;
    routed(&rt, alloc);
    routed_numbers(&rt);
    tokens(&rt, alloc)?;
    messages(&rt)?;
    messages_let_go(&rt, &mut Inbox::new())?;
    requests_served(&rt, alloc)?;
    requests_read(&rt, alloc);
    samples(&rt, alloc)
}
