//! Programs that measure the office, in one. The first word says what is measured; without words, and with an unknown
//! one, it lists what can be.
#![tactic(auto)]

mod calls;
mod clock;
mod database;
mod heads;
mod history;
mod listings;
mod office;
mod orders;
mod served;

use anyhow::Result;
use database::{Task, measure_at};
use std::env;

/// The words that say what is measured, each with the words after it.
const USAGE: &str =
    "heads, served POLICY, lives POLICY COMMANDS, rounds POLICY COMMANDS FILES, found PATH, open PATH, calls PATH, listings PATH POLICY";

/// The word at a place, empty where there is none.
fn word(words: &[String], at: usize) -> &str {
    match words.get(at) {
        Some(word) => word.as_str(),
        None => "",
    }
}

/// The word at a place as a number, at most a million; 0 where it is none.
fn number(words: &[String], at: usize) -> u32 {
    word(words, at).parse::<u32>().unwrap_or(0).min(1_000_000)
}

fn main(rt: HostRuntime) -> Result<()> {
    let words: Vec<String> = env::args(&rt)?.skip(1).collect(rt.alloc())?;
    let place = word(&words, 1);
    match word(&words, 0) {
        "heads" => heads::measure(&rt),
        "served" => served::measure(&rt, place),
        "lives" => history::measure_lives(&rt, place, number(&words, 2)),
        "rounds" => history::measure_rounds(&rt, place, number(&words, 2), number(&words, 3)),
        "found" => measure_at(&rt, place, Task::Found),
        "open" => measure_at(&rt, place, Task::Open),
        "calls" => measure_at(&rt, place, Task::Calls),
        "listings" => listings::measure(&rt, place, word(&words, 2)),
        _ => {
            println!(rt; "{USAGE}")?;
            Ok(())
        }
    }
}
