//! Who founds an office.

ghost use Rattle.std.specs.Prelude.{◌≡◌, ◌⊎◌, false, IfOk, IfErr, IsTrue};
ghost use Rattle.permit_subcommands.specs.Failures.{plain};
ghost use Rattle.permit_subcommands.specs.Founders.{is_person, Founds, IsRefusedFor};
ghost use Rattle.permit_import.specs.declared.refused.RefusalWord.TheVariants.{Store, Syntax};

use crate::failure::Failure;
use crate::refused::RefusalWord;
use permit_base::digests::digest;
use permit_base::values::{Day, Text, Token};
use permit_store::founder::Founder;
use std::alloc::Global;

/// The name and the token, where both are within their limits.
fn person(alloc: Global, name: &str, token: &str) -> Result<(Text, Token), Failure>
    ensures made { IfOk result (λ p. (p.0 ≡ name.now) × (p.1 ≡ token.now) × IsTrue (is_person name.now token.now)) }
    ensures refused { IfErr result (λ why. (why ≡ plain Store) ⊎ ((why ≡ plain Syntax) × (is_person name.now token.now ≡ false))) }
{
    let name = Text::new(String::from_str(alloc, name)?);
    let token = Token::new(String::from_str(alloc, token)?);
    match (name, token) {
        (Some(name), Some(token)) => Ok((name, token)),
        _ => Err(Failure::plain(RefusalWord::Syntax)),
    }
}

/// The founder with this name and token on this day. A name or a token out of its limits is refused as `syntax`; else day 0
/// is refused as `clock`.
///
/// # Examples
///
/// ```
/// let Ok(founder) = founder(alloc, "Ada", "abcdefghijklmnopqrstuvwxyz", day) else {
///     return Err(Fail::new("no founder"));
/// };
/// assert!(rt; founder.name.as_str() == "Ada");
/// ```
pub fn founder(alloc: Global, name: &str, token: &str, day: Day) -> Result<Founder, Failure>
    ensures made { IfOk result (Founds name.now token.now day) }
    ensures refused { IfErr result (IsRefusedFor name.now token.now day) }
{
    let (name, token) = person(alloc, name, token)?;
    match Founder::new(name, digest(&token)?, day) {
        Some(founder) => Ok(founder),
        None => Err(Failure::plain(RefusalWord::Clock)),
    }
}
