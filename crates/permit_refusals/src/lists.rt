//! A hall over a list of requests, whose one worker asks them in order. Growths count for the whole hall, its threads among
//! them.

use crate::others::{SESSIONS, asked, print_reply};
use crate::serving::{COUNT, REST, opened, print_tables};
use permit_base::request::Asked;
use permit_base::values::Day;
use permit_hall::error::HallError;
use permit_hall::lists::{ListsEnd, run_lists};
use permit_office::office::Office;
use permit_office::reply::Reply;
use permit_samples::held::Held;
use permit_samples::makers::day;
use permit_store::plain::PlainStore;
use std::alloc::Global;
use std::sync::Wait;
use std::test::Fail;
use std::thread::Threads;

/// The list of the requests but that of the number, from 1, which is left out.
fn list(alloc: Global, left_out: usize) -> Result<Vec<Asked>, Fail> {
    let mut list = Vec::new(alloc);
    let mut number = 0usize;
    for line in SESSIONS {
        number = number.saturating_add(1);
        if number != left_out {
            list.push(asked(alloc, line)?)?;
        }
    }
    Ok(list)
}

/// How the hall over the lists ends, each request served on the day.
fn ended<R: Threads + Wait + Copy + Drop + Send + 'static>(
    rt: R,
    alloc: Global,
    office: Office<PlainStore>,
    lists: Vec<Vec<Asked>>,
    on: Day,
) -> Result<ListsEnd<PlainStore>, (Office<PlainStore>, HallError)> {
    run_lists(rt, alloc, office, lists, &mut || on)
}

/// Prints the replies to the requests of a list but that of the number, which is left out, or that there was no worker.
fn print_each(
    rt: &(impl Print + AllocGlobal),
    left_out: usize,
    replies: Option<Vec<Reply>>,
) -> Result<(), Fail> {
    let Some(replies) = replies else {
        return Ok(println!(rt; "0 no worker")?);
    };
    let mut number = 0usize;
    for reply in replies {
        number = number.saturating_add(1);
        if number == left_out {
            number = number.saturating_add(1);
        }
        print_reply(rt, number, reply)?;
    }
    Ok(())
}

/// Prints the answers of each list, and the tables.
fn print_end(
    rt: &(impl Print + AllocGlobal),
    left_out: usize,
    end: ListsEnd<PlainStore>,
) -> Result<(), Fail> {
    let ListsEnd { office, answers } = end;
    let office = Held::new(office);
    for replies in answers {
        print_each(rt, left_out, replies)?;
    }
    print_tables(rt, office.into_inner())
}

/// Prints that there was no memory, and the tables.
fn print_memory(rt: &(impl Print + AllocGlobal), office: Office<PlainStore>) -> Result<(), Fail> {
    let office = Held::new(office);
    println!(rt; "0 memory")?;
    print_tables(rt, office.into_inner())
}

/// Runs the hall without the request of the number, and prints the answers and the tables.
pub fn listed<R>(rt: R, left_out: usize) -> Result<(), Fail>
where
    R: Threads + Wait + Print + AllocGlobal + Copy + Drop + Send + 'static,
{
    let alloc = rt.alloc();
    let (office, on) = (Held::new(opened(alloc)?), day(19723)?);
    let lists = Held::new(vec![in alloc; list(alloc, left_out)?]?);
    println!(rt; "{COUNT}")?;
    let end = Held::new(ended(rt, alloc, office.into_inner(), lists.into_inner(), on));
    println!(rt; "{REST}")?;
    match end.into_inner() {
        Ok(end) => print_end(&rt, left_out, end),
        Err((office, _)) => print_memory(&rt, office),
    }
}
