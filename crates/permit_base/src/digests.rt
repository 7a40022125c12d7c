//! Digests of tokens.

ghost use Rattle.std.specs.Prelude.{◌≡◌};
ghost use Rattle.permit_base.specs.Digests.{digest_of};

use crate::values::{Digest, Token};
use sha2::{Digest as _, Sha256};
use std::alloc::AllocError;

/// The digest that the tables keep of a token: its SHA-256 (FIPS 180-4) in lower-case hexadecimal.
///
/// It takes no memory, so that it always answers `Ok`.
///
/// # Examples
///
/// ```
/// let letters = String::from_str(alloc, "abcdefghijklmnopqrstuvwxyz")?;
/// let token = Token::new(letters).ok_or("a token")?;
/// assert!(rt; digest(&token)?.as_str().starts_with("71c480df93d6ae2f"));
/// ```
pub fn digest(token: &Token) -> Result<Digest, AllocError>
    ensures { result ≡ Ok (digest_of token.now) }
{
    let mut letters = [0u8; 64];
    match hex::encode_to_slice(Sha256::digest(token.as_str()), &mut letters) {
        Ok(()) => Ok(Digest::of_letters(letters)),
        Err(_) => unreachable!(),
    }
}
