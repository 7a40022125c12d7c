//! An office in memory, who works in it, and the text of a request to it.

use anyhow::{Result, anyhow};
use permit_base::digests::digest;
use permit_base::request::Request;
use permit_base::values::{Day, Digest, Lot, PartyId, Text, Token};
use permit_base::words::Role;
use permit_office::log::NoLog;
use permit_office::office::Office;
use permit_office::reply::Reply;
use permit_policy::Policy;
use permit_policy::text::read_policy;
use permit_store::founder::Founder;
use permit_store::plain::PlainStore;
use std::alloc::{AllocError, Global};
use std::fs;
use std::rt::Files;

/// The founder's token: party 1, an official.
pub const OFFICIAL: &str = "abcdefghijklmnopqrstuvwxyz";

/// The token of party 2 of an office that is measured.
pub const REVIEWER: &str = "reviewer2reviewer2";

/// The token of party 3 of an office that is measured.
pub const INSPECTOR: &str = "inspector3inspector3";

/// The token of party 4 of an office that is measured, one of the public, who owns its parcel.
pub const PUBLIC: &str = "public4public4public4";

/// The day of the founding, 2023-12-09.
const FOUNDED: u32 = 19700;

/// The day of all that is done in an office that is measured.
pub fn day() -> Result<Day> {
    Day::new(FOUNDED).ok_or(anyhow!("no day"))
}

/// A text of these words.
pub fn text(alloc: Global, words: &str) -> Result<Text> {
    Text::new(String::from_str(alloc, words)?).ok_or(anyhow!("no text"))
}

fn token(alloc: Global, words: &str) -> Result<Token> {
    Token::new(String::from_str(alloc, words)?).ok_or(anyhow!("no token"))
}

fn lot(alloc: Global, words: &str) -> Result<Lot> {
    Lot::new(String::from_str(alloc, words)?).ok_or(anyhow!("no lot"))
}

/// The party of a number.
pub fn party(number: u32) -> Result<PartyId> {
    PartyId::new(number).ok_or(anyhow!("no party"))
}

/// The digest of a token.
pub fn digest_of(alloc: Global, words: &str) -> Result<Digest> {
    Ok(digest(&token(alloc, words)?)?)
}

/// The founder of an office, who has the token.
pub fn founder(alloc: Global, token: &str) -> Result<Founder> {
    let name = text(alloc, "Chief")?;
    let digest = digest_of(alloc, token)?;
    Founder::new(name, digest, day()?).ok_or(anyhow!("no founder"))
}

/// A store over vectors that has its founding alone. The founder has the token `OFFICIAL`.
fn store(alloc: Global) -> Result<PlainStore> {
    let founder = founder(alloc, OFFICIAL)?;
    match PlainStore::create(alloc, &founder) {
        Ok(store) => Ok(store),
        Err(_) => Err(anyhow!("no store")),
    }
}

fn policy_of(alloc: Global, words: &str) -> Result<Policy> {
    match read_policy(alloc, words) {
        Ok(policy) => Ok(policy),
        Err(_) => Err(anyhow!("no policy")),
    }
}

/// The policy at a path.
pub fn policy_at(rt: &(impl Files + AllocGlobal), path: &str) -> Result<Policy> {
    let words = fs::read_to_string(rt, path)?;
    policy_of(rt.alloc(), words.as_str())
}

/// Founds an office over vectors, under the policy of the text.
pub fn founded(alloc: Global, policy: &str) -> Result<Office<PlainStore>> {
    let store = store(alloc)?;
    let policy = policy_of(alloc, policy)?;
    match Office::open(store, policy, NoLog) {
        Ok(office) => Ok(office),
        Err(_) => Err(anyhow!("no office")),
    }
}

/// The number that a request made, where it was done.
pub fn made(reply: &Reply) -> Result<Option<u32>> {
    match reply {
        Reply::Done { number } => Ok(*number),
        _ => Err(anyhow!("a request was refused")),
    }
}

/// Adds a party with the token.
fn join(alloc: Global, office: &mut Office<PlainStore>, role: Role, words: &str) -> Result<()> {
    let request = Request::AddParty {
        name: text(alloc, "Name")?,
        role,
        token: token(alloc, words)?,
    };
    order(alloc, office, &request)
}

/// Asks as the official, and wants it done.
fn order(alloc: Global, office: &mut Office<PlainStore>, request: &Request) -> Result<()> {
    let official = digest_of(alloc, OFFICIAL)?;
    let day = day()?;
    made(&office.step_as(&official, request, day))?;
    Ok(())
}

/// Adds a parcel of the party with the token `PUBLIC`.
fn survey(alloc: Global, office: &mut Office<PlainStore>) -> Result<()> {
    let request = Request::AddParcel {
        lot: lot(alloc, "A-1")?,
        address: text(alloc, "1 Main St")?,
        owner: party(4)?,
    };
    order(alloc, office, &request)
}

/// An office with four parties and a parcel of the last one, under the policy at a path.
pub fn opened(rt: &(impl Files + AllocGlobal), policy: &str) -> Result<Office<PlainStore>> {
    let alloc = rt.alloc();
    let policy = fs::read_to_string(rt, policy)?;
    let mut office = founded(alloc, policy.as_str())?;
    for (role, words) in [
        (Role::Reviewer, REVIEWER),
        (Role::Inspector, INSPECTOR),
        (Role::Public, PUBLIC),
    ] {
        join(alloc, &mut office, role, words)?;
    }
    survey(alloc, &mut office)?;
    Ok(office)
}

/// The text of a request.
pub fn request_text(
    alloc: Global,
    method: &str,
    path: &str,
    token: &str,
    body: &str,
) -> Result<String, AllocError> {
    let size = body.len();
    format!(in alloc;
        "{method} {path} HTTP/1.1\r\nHost: localhost\r\nAuthorization: Bearer {token}\r\nContent-Length: {size}\r\n\r\n{body}"
    )
}
