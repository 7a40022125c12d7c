//! Requests of the scenarios.

use std::test::Fail;

/// The tokens of the parties, by their numbers from 1.
pub const TOKENS: [&str; 7] = [
    "abcdefghijklmnopqrstuvwxyz",
    "clerk2clerk2clerk2",
    "reviewer3reviewer3",
    "inspector4inspector4",
    "public5public5public5",
    "public6public6public6",
    "inspector7inspector7",
];

/// The token of nobody.
const STRANGER: &str = "0000000000000000";

/// A request of a party on a day.
#[derive(Clone, Copy)]
pub struct Ask<'x> {
    /// The party's token.
    pub token: &'x str,
    /// The day's number.
    pub day: u32,
    /// The method.
    pub method: &'x str,
    /// The path.
    pub path: &'x str,
    /// The body.
    pub body: &'x str,
}

/// The token of a party by its number; nobody's for 0.
fn token_of(party: usize) -> &'static str {
    TOKENS
        .get(party.wrapping_sub(1))
        .copied()
        .unwrap_or(STRANGER)
}

/// The request that is written as `PARTY DAY METHOD PATH BODY`; without a body it is empty.
pub fn read_ask<'x>(text: &'x str) -> Result<Ask<'x>, Fail> {
    let (party, rest) = text.split_once(' ').ok_or("a party")?;
    let (number, rest) = rest.split_once(' ').ok_or("a day")?;
    let (method, rest) = rest.split_once(' ').ok_or("a method")?;
    let (path, body) = rest.split_once(' ').unwrap_or((rest, ""));
    Ok(Ask {
        token: token_of(party.parse()?),
        day: number.parse()?,
        method,
        path,
        body,
    })
}
