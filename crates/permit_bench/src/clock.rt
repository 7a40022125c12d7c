//! Microseconds by the clock.

use anyhow::Result;
use std::time::{Clock, Instant};

/// The microseconds since a start.
pub fn micros_since(rt: &impl Clock, start: Instant) -> Result<u64> {
    Ok(u64::try_from(start.elapsed(rt)?.as_micros()).unwrap_or(u64::MAX))
}
