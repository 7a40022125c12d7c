//! Values by their numbers and texts.

use permit_base::digests::digest;
use permit_base::values::{Day, Digest, FileId, Lot, ParcelId, PartyId, Text, Token};
use std::alloc::Global;
use std::test::Fail;

/// A day.
///
/// # Examples
///
/// ```
/// let first = day(19700)?;
/// assert!(rt; first.get() == 19700);
/// ```
pub fn day(number: u32) -> Result<Day, Fail> {
    Ok(Day::new(number).ok_or("a day")?)
}

/// A party's number.
pub fn party(number: u32) -> Result<PartyId, Fail> {
    Ok(PartyId::new(number).ok_or("a party")?)
}

/// A parcel's number.
pub fn parcel(number: u32) -> Result<ParcelId, Fail> {
    Ok(ParcelId::new(number).ok_or("a parcel")?)
}

/// A file's number.
pub fn file(number: u32) -> Result<FileId, Fail> {
    Ok(FileId::new(number).ok_or("a file")?)
}

/// A text within its limits.
pub fn text(alloc: Global, letters: &str) -> Result<Text, Fail> {
    Ok(Text::new(String::from_str(alloc, letters)?).ok_or("a text")?)
}

/// A lot's number.
pub fn lot(alloc: Global, letters: &str) -> Result<Lot, Fail> {
    Ok(Lot::new(String::from_str(alloc, letters)?).ok_or("a lot")?)
}

/// A token.
pub fn token(alloc: Global, letters: &str) -> Result<Token, Fail> {
    Ok(Token::new(String::from_str(alloc, letters)?).ok_or("a token")?)
}

/// The digest of a token.
pub fn digest_of(alloc: Global, letters: &str) -> Result<Digest, Fail> {
    Ok(digest(&token(alloc, letters)?)?)
}
