//! The time of a store's calls: look-ups by key, and commits.

use crate::clock::micros_since;
use crate::office::text;
use crate::orders::Order;
use anyhow::{Result, anyhow};
use permit_base::digests::digest;
use permit_base::request::Command;
use permit_base::values::{Day, Digest, FileId, Lot, ParcelId, PartyId, Text, Token};
use permit_base::words::{PaperSort, Role};
use permit_core::people::People;
use permit_core::state::FileState;
use permit_store::rows::{Change, Desk, NewPaper, RowEffect};
use permit_store::store::Store;
use std::alloc::Global;
use std::time::{Clock, Instant};

/// How many calls of each look-up are timed.
const CALLS: u32 = 20_000;

/// How many commits of each kind are timed, and how many texts are made before.
const COMMITS: u32 = 1000;

/// What a store is asked, by its keys.
#[derive(Clone, Copy)]
enum LookUp {
    Desk,
    Party,
    Digest,
    Parcel,
    Lot,
    File,
    Papers,
}

const LOOK_UPS: [(LookUp, &str); 7] = [
    (LookUp::Desk, "desk"),
    (LookUp::Party, "party"),
    (LookUp::Digest, "party-by-token"),
    (LookUp::Parcel, "parcel"),
    (LookUp::Lot, "parcel-by-lot"),
    (LookUp::File, "file"),
    (LookUp::Papers, "papers"),
];

/// The keys that are looked up: how many rows there are, and the texts of the first ones.
#[derive(Drop)]
struct Keys {
    desk: Desk,
    digests: Vec<Digest>,
    lots: Vec<Lot>,
}

/// A number from 1 to a count, which moves with the turn.
fn number(turn: u32, count: u32) -> u32 {
    let count = count.max(1);
    let at = turn.wrapping_mul(7919) % count;
    at.saturating_add(1)
}

/// The digest of the token that begins so and ends in the number.
fn numbered_digest(alloc: Global, begin: &str, number: u32) -> Result<Digest> {
    let words = format!(in alloc; "{begin}{number}")?;
    let token = Token::new(words).ok_or(anyhow!("no token"))?;
    Ok(digest(&token)?)
}

fn digests(alloc: Global, begin: &str, count: u32) -> Result<Vec<Digest>> {
    let mut digests = Vec::new(alloc);
    for number in 1..=count.min(COMMITS) {
        digests.push(numbered_digest(alloc, begin, number)?)?;
    }
    Ok(digests)
}

fn lots(alloc: Global, count: u32) -> Result<Vec<Lot>> {
    let mut lots = Vec::new(alloc);
    for number in 1..=count.min(COMMITS) {
        let words = format!(in alloc; "L-{number}")?;
        lots.push(Lot::new(words).ok_or(anyhow!("no lot"))?)?;
    }
    Ok(lots)
}

fn keys_of<S: Store>(alloc: Global, store: &mut S) -> Result<Keys> {
    let desk = desk_of(store)?;
    Ok(Keys {
        desk,
        digests: digests(alloc, "tokentokentoken", desk.parties)?,
        lots: lots(alloc, desk.parcels)?,
    })
}

/// The element of a turn.
fn at_turn<T>(texts: &[T], turn: u32) -> Option<&T> {
    texts.get(turn.wrapping_mul(7919) as usize % texts.len().max(1))
}

fn finds_desk<S: Store>(store: &mut S) -> bool {
    store.desk().is_ok()
}

fn finds_party<S: Store>(store: &mut S, id: PartyId) -> bool {
    matches!(store.party(id), Ok(Some(_)))
}

fn finds_digest<S: Store>(store: &mut S, digest: &Digest) -> bool {
    matches!(store.party_by_token(digest), Ok(Some(_)))
}

fn finds_parcel<S: Store>(store: &mut S, id: ParcelId) -> bool {
    matches!(store.parcel(id), Ok(Some(_)))
}

fn finds_lot<S: Store>(store: &mut S, lot: &Lot) -> bool {
    matches!(store.parcel_by_lot(lot), Ok(Some(_)))
}

fn finds_file<S: Store>(store: &mut S, id: FileId) -> bool {
    matches!(store.file(id), Ok(Some(_)))
}

fn finds_papers<S: Store>(store: &mut S, id: FileId) -> bool {
    store.papers(id).is_ok()
}

/// Whether a look-up finds a row.
fn finds<S: Store>(store: &mut S, keys: &Keys, what: LookUp, turn: u32) -> Option<bool> {
    let desk = keys.desk;
    Some(match what {
        LookUp::Desk => finds_desk(store),
        LookUp::Party => finds_party(store, PartyId::new(number(turn, desk.parties))?),
        LookUp::Digest => finds_digest(store, at_turn(&keys.digests, turn)?),
        LookUp::Parcel => finds_parcel(store, ParcelId::new(number(turn, desk.parcels))?),
        LookUp::Lot => finds_lot(store, at_turn(&keys.lots, turn)?),
        LookUp::File => finds_file(store, FileId::new(number(turn, desk.files))?),
        LookUp::Papers => finds_papers(store, FileId::new(number(turn, desk.files))?),
    })
}

/// Prints a name with the nanoseconds a call.
fn say(rt: &impl Print, name: &str, micros: u64, calls: u32) -> Result<()> {
    let nanos = micros.saturating_mul(1000) / u64::from(calls.max(1));
    println!(rt; "{name} {nanos}")?;
    Ok(())
}

fn time_look_up<S: Store>(
    rt: &(impl Clock + Print),
    store: &mut S,
    keys: &Keys,
    (what, name): (LookUp, &str),
) -> Result<()> {
    let start = Instant::now(rt)?;
    for turn in 0..CALLS {
        if finds(store, keys, what, turn) != Some(true) {
            return Err(anyhow!("a look-up found nothing"));
        }
    }
    say(rt, name, micros_since(rt, start)?, CALLS)
}

fn row_of<S: Store>(store: &mut S, file: FileId) -> Result<FileState> {
    match store.file(file) {
        Ok(Some(row)) => Ok(row.state),
        _ => Err(anyhow!("no file")),
    }
}

fn desk_of<S: Store>(store: &mut S) -> Result<Desk> {
    match store.desk() {
        Ok(desk) => Ok(desk),
        Err(_) => Err(anyhow!("no desk")),
    }
}

fn keep<S: Store>(store: &mut S, change: &Change<'_>, day: Day) -> Result<()> {
    match store.commit(change, day) {
        Ok(()) => Ok(()),
        Err(_) => Err(anyhow!("a commit failed")),
    }
}

/// What an ask for an extension makes of a file's state.
fn asked(mut state: FileState, day: Day, ask: &Command) -> Result<FileState> {
    let people = People {
        named: None,
        owner: None,
        is_open_notice: false,
    };
    if state.admit(day, ask, &people).is_err() {
        return Err(anyhow!("the ask is not admitted"));
    }
    state.apply(day, ask, state.applicant());
    Ok(state)
}

/// The files whose papers are timed, each as an ask leaves it. No file may have an ask.
fn asked_states<S: Store>(
    alloc: Global,
    store: &mut S,
    desk: Desk,
    ask: &Command,
) -> Result<Vec<(FileId, FileState)>> {
    let mut states = Vec::new(alloc);
    for turn in 0..COMMITS {
        let file = FileId::new(number(turn, desk.files)).ok_or(anyhow!("no file"))?;
        let state = row_of(store, file)?;
        states.push((file, asked(state, desk.last, ask)?))?;
    }
    Ok(states)
}

fn keep_paper<S: Store>(
    store: &mut S,
    (file, state): (FileId, FileState),
    day: Day,
    words: &Text,
) -> Result<()> {
    let paper = NewPaper {
        author: state.applicant(),
        sort: PaperSort::Asked,
        days: 30,
        text: Some(words),
        terms: None,
    };
    let effect = RowEffect::Paper(paper);
    keep(
        store,
        &Change::NewRow {
            file,
            state,
            effect,
        },
        day,
    )
}

fn keep_papers<S: Store>(
    store: &mut S,
    states: &[(FileId, FileState)],
    day: Day,
    words: &Text,
) -> Result<()> {
    for asked in states {
        keep_paper(store, *asked, day, words)?;
    }
    Ok(())
}

/// Times commits of a file's new row with a paper.
fn time_papers<S: Store>(
    rt: &(impl Clock + Print + AllocGlobal),
    store: &mut S,
    desk: Desk,
    words: &Text,
) -> Result<()> {
    let alloc = rt.alloc();
    let ask = Order::AskExtension.command(alloc, None)?;
    let states = asked_states(alloc, store, desk, &ask)?;
    let start = Instant::now(rt)?;
    keep_papers(store, &states, desk.last, words)?;
    say(rt, "commit-paper", micros_since(rt, start)?, COMMITS)
}

fn keep_parties<S: Store>(store: &mut S, digests: &[Digest], day: Day, name: &Text) -> Result<()> {
    for digest in digests {
        let role = Role::Public;
        let digest = *digest;
        keep(store, &Change::NewParty { name, role, digest }, day)?;
    }
    Ok(())
}

/// Times commits of a new party.
fn time_parties<S: Store>(
    rt: &(impl Clock + Print + AllocGlobal),
    store: &mut S,
    desk: Desk,
    name: &Text,
) -> Result<()> {
    let digests = digests(rt.alloc(), "newpartynewparty", COMMITS)?;
    let start = Instant::now(rt)?;
    keep_parties(store, &digests, desk.last, name)?;
    say(rt, "commit-party", micros_since(rt, start)?, COMMITS)
}

/// Times the look-ups.
fn time_look_ups<S: Store>(rt: &(impl Clock + Print), store: &mut S, keys: &Keys) -> Result<()> {
    for look_up in &LOOK_UPS {
        time_look_up(rt, store, keys, *look_up)?;
    }
    Ok(())
}

/// Times the calls of a store whose tokens and lots are numbered, and prints a line for each kind, in nanoseconds.
pub fn measure<S: Store>(rt: &(impl Clock + Print + AllocGlobal), store: &mut S) -> Result<()> {
    let keys = keys_of(rt.alloc(), store)?;
    let words = text(rt.alloc(), "Late delivery")?;
    time_look_ups(rt, store, &keys)?;
    time_papers(rt, store, keys.desk, &words)?;
    time_parties(rt, store, keys.desk, &words)
}
