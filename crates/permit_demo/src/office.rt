//! An office in memory.

use anyhow::{Result, anyhow};
use permit_base::digests::digest;
use permit_base::values::{Day, Text, Token};
use permit_office::log::NoLog;
use permit_office::office::Office;
use permit_policy::text::read_policy;
use permit_store::founder::Founder;
use permit_store::plain::PlainStore;
use std::alloc::Global;

/// The day of the founding, 2023-12-09.
const FOUNDED: u32 = 19700;

/// Founds an office over vectors, under the policy of the text, with the founder's token.
pub fn found(alloc: Global, policy: &str, token: &str) -> Result<Office<PlainStore>> {
    let name = Text::new(String::from_str(alloc, "Chief")?).ok_or(anyhow!("no name"))?;
    let token = Token::new(String::from_str(alloc, token)?).ok_or(anyhow!("no token"))?;
    let day = Day::new(FOUNDED).ok_or(anyhow!("no day"))?;
    let founder = Founder::new(name, digest(&token)?, day).ok_or(anyhow!("no founder"))?;
    let Ok(store) = PlainStore::create(alloc, &founder) else {
        return Err(anyhow!("no store"));
    };
    let Ok(policy) = read_policy(alloc, policy) else {
        return Err(anyhow!("no policy"));
    };
    match Office::open(store, policy, NoLog) {
        Ok(office) => Ok(office),
        Err(_) => Err(anyhow!("no office")),
    }
}
