//! Shows what the office answers and leaves where it is refused something: memory, or a call of its store.
//!
//! Without words the scenarios are played with nothing refused, and then over a store that fails once, at each of its
//! calls in turn. Memory is refused by a test driver, between two lines of the output (`.ci/growths`): by its words the
//! program plays what is to be looked at, and prints each answer and the tables that are left.
#![tactic(auto)]

mod calls;
mod failing;
mod lists;
mod others;
mod serving;

use lists::listed;
use others::{hall, imported, made, passed};
use permit_samples::held::Held;
use permit_samples::offices::over_vectors;
use permit_samples::opening::OPENING;
use permit_samples::script::{play, play_all, requests_of};
use serving::{Way, scenarios, serve_all};
use std::alloc::Global;
use std::env;
use std::test::Fail;

/// The words that say what is played, each with the words after it.
const USAGE: &str =
    "calls, scenarios, steps SCENARIO LEFT-OUT, bytes SCENARIO LEFT-OUT, made, hall LEFT-OUT, lists LEFT-OUT, import LEFT-OUT RECORDS, rows";

/// The number at a place, 0 where there is none.
fn number(words: &[String], at: usize) -> usize {
    match words.get(at) {
        Some(word) => word.as_str().parse::<usize>().unwrap_or(0),
        None => 0,
    }
}

/// Plays each scenario with nothing refused, and gives how many requests they have.
fn play_each(alloc: Global) -> Result<usize, Fail> {
    let mut count = 0;
    for scenario in scenarios(alloc)?.as_slice() {
        let mut office = Held::new(over_vectors(alloc)?);
        play(alloc, &mut office.value, OPENING)?;
        play_all(alloc, &mut office.value, scenario)?;
        count = requests_of(alloc, scenario)?.len().saturating_add(count);
    }
    Ok(count)
}

/// Plays the scenarios with nothing refused, and then over a store that fails, and says that all came as is wanted.
fn show(rt: &(impl Print + AllocGlobal)) -> Result<(), Fail> {
    play_each(rt.alloc())?;
    println!(rt; "with nothing refused, the scenarios are answered as their scripts want")?;
    calls::fail_each(rt.alloc())?;
    println!(rt; "each call of a store that fails refuses its own request, and no other")?;
    Ok(())
}

/// The same with counts: scenarios, their requests, and calls of a store that failed.
fn count(rt: &(impl Print + AllocGlobal)) -> Result<(), Fail> {
    let scenarios = scenarios(rt.alloc())?.len();
    let requests = play_each(rt.alloc())?;
    let failed = calls::fail_each(rt.alloc())?;
    println!(rt;
        "{failed} calls of a store failed in turn, in {scenarios} scenarios of {requests} requests"
    )?;
    Ok(())
}

fn main(rt: HostRuntime) -> Result<(), Fail> {
    let alloc = rt.alloc();
    let words: Vec<String> = env::args(&rt)?.skip(1).collect(alloc)?;
    let (first, second) = (number(&words, 1), number(&words, 2));
    match words.first() {
        None => show(&rt),
        Some(word) => match word.as_str() {
            "calls" => count(&rt),
            "scenarios" => {
                let count = scenarios(alloc)?.len();
                Ok(println!(rt; "{count}")?)
            }
            "steps" => serve_all(&rt, Way::Step, first, second),
            "bytes" => serve_all(&rt, Way::Bytes, first, second),
            "made" => made(&rt),
            "hall" => hall(&rt, first),
            "lists" => listed(rt, first),
            "import" => imported(&rt, first, second),
            "rows" => passed(&rt),
            _ => Ok(println!(rt; "{USAGE}")?),
        },
    }
}
