//! The scenarios over a store that fails at one of its calls, for each call in turn.

use crate::failing::Failing;
use crate::serving::{opened, scenarios};
use permit_office::log::NoLog;
use permit_office::office::Office;
use permit_policy::text::read_policy;
use permit_samples::ask::read_ask;
use permit_samples::exchange::asked;
use permit_samples::held::Held;
use permit_samples::scenarios::Scenario;
use permit_samples::script::{agree, requests_of};
use permit_samples::standard::POLICY;
use permit_samples::tables::tables_text;
use permit_store::plain::PlainStore;
use std::alloc::Global;
use std::test::Fail;

/// More calls than the requests of any scenario make of a store.
const MOST_CALLS: u32 = 10_000;

/// The end of an answer that refuses for the store.
const REFUSED: &str = "\r\n\r\n{\"refused\":\"store\"}";

/// The office that is opened once more on the store that came back.
fn reopened(
    alloc: Global,
    store: Failing<PlainStore>,
) -> Result<Office<Failing<PlainStore>>, Fail> {
    let store = Held::new(store);
    let policy = read_policy(alloc, POLICY)?;
    match Office::open(store.into_inner(), policy, NoLog) {
        Ok(office) => Ok(office),
        Err(_) => Err(Fail::new("an office on what came back")),
    }
}

/// The office over a store whose call of the number fails. Where that is the call that opens the office, the office is
/// opened once more on what came back.
fn office_failing_at(alloc: Global, number: u32) -> Result<Office<Failing<PlainStore>>, Fail> {
    let policy = Held::new(read_policy(alloc, POLICY)?);
    let store = Failing::new(opened(alloc)?.into_store(), number);
    match Office::open(store, policy.into_inner(), NoLog) {
        Ok(office) => Ok(office),
        Err((store, _, _)) => reopened(alloc, store),
    }
}

/// Serves the request of the line in an office whose store fails, and in the sound one where it isn't refused for the
/// store. Whether it was refused. Fails where the two answers differ.
fn is_refused(
    alloc: Global,
    failing: &mut Office<Failing<PlainStore>>,
    sound: &mut Office<PlainStore>,
    line: &str,
) -> Result<bool, Fail> {
    let ask = read_ask(line)?;
    let answer = asked(alloc, failing, &ask)?;
    if answer.as_str().ends_with(REFUSED) {
        return Ok(true);
    }
    let wanted = asked(alloc, sound, &ask)?;
    agree(alloc, answer.as_str(), wanted.as_str())?;
    Ok(false)
}

/// Serves the requests in the two offices, and gives how many were refused for the store.
fn count_refused(
    alloc: Global,
    failing: &mut Office<Failing<PlainStore>>,
    sound: &mut Office<PlainStore>,
    scenario: Scenario,
) -> Result<u32, Fail> {
    let mut refused = 0u32;
    for line in requests_of(alloc, scenario)?.as_slice() {
        if is_refused(alloc, failing, sound, line)? {
            refused = refused.saturating_add(1);
        }
    }
    Ok(refused)
}

/// Whether the call of the store has failed. Fails where the tables of the two offices differ.
fn has_failed_alike(
    alloc: Global,
    failing: Office<Failing<PlainStore>>,
    sound: Office<PlainStore>,
) -> Result<bool, Fail> {
    let mut store = Held::new(failing.into_store());
    let mut sound = Held::new(sound.into_store());
    let has_failed = store.value.has_failed();
    let left = tables_text(alloc, store.value.inner())?;
    let wanted = tables_text(alloc, &mut sound.value)?;
    agree(alloc, left.as_str(), wanted.as_str())?;
    Ok(has_failed)
}

/// Serves the requests in an office whose store's call of the number fails, and beside it in one without what was refused
/// for the store. Whether the call came. Fails where the two differ, where more than one request was refused, or one
/// without the call.
fn fail_at(alloc: Global, scenario: Scenario, number: u32) -> Result<bool, Fail> {
    let mut failing = Held::new(office_failing_at(alloc, number)?);
    let mut sound = Held::new(opened(alloc)?);
    let refused = count_refused(alloc, &mut failing.value, &mut sound.value, scenario)?;
    let has_failed = has_failed_alike(alloc, failing.into_inner(), sound.into_inner())?;
    // The first call of all opens the office, and no request.
    let due = u32::from(has_failed && number > 0);
    if refused == due {
        Ok(has_failed)
    } else {
        Err(Fail::new(format!(in alloc; "{refused} requests refused by call {number}")?))
    }
}

/// Lets each call of a store fail in turn, in each scenario, until a run meets no failure. Gives how many failed.
pub fn fail_each(alloc: Global) -> Result<u32, Fail> {
    let mut failed = 0u32;
    for scenario in scenarios(alloc)?.as_slice() {
        for number in 0..MOST_CALLS {
            if !fail_at(alloc, scenario, number)? {
                break;
            }
            failed = failed.saturating_add(1);
        }
    }
    Ok(failed)
}
