//! What the program does: a plan is carried out, and what it came to is printed.

ghost use Rattle.std.specs.Prelude.{◌≡◌, ◌≤◌, ◌⊎◌, ℕ, [], false, Err, IfErr, IfOk, List, None, Ok, OnErr, Option, Some, map, string_bytes};
ghost use Rattle.std.specs.Io.KnownBytes.{Appends};
ghost use Rattle.permit_base.specs.Texts.{is_token};
ghost use Rattle.permit_import.specs.declared.refused.RefusalWord.TheVariants.{Syntax};
ghost use Rattle.permit_report.specs.Outgoing.{WroteFront};
ghost use Rattle.permit_args.specs.Keepings.{named_history};
ghost use Rattle.permit_args.specs.declared.plan.PlanFault.{PlanFault as TheFault};
ghost use Rattle.permit_subcommands.specs.Failures.{plain, IsUnread};
ghost use Rattle.permit_subcommands.specs.Lines.{name_line};
ghost use Rattle.permit_subcommands.specs.declared.failure.Failure.TheVariants as failure;
ghost use Rattle.permit_subcommands.specs.Printing.{TellsNoPlan};
ghost use Rattle.permit_database.specs.Doing.{IsBegin, IsImported, IsUpgrade, SaysIn, SaysOpening, SaysRedone};
ghost use Rattle.permit_database.specs.Failing.{IsOfHistory, IsUnusable};
ghost use Rattle.permit_database.specs.Served.{SaysWhere};
ghost use Rattle.permit_cli.specs.Doing.{ActsAs, ComesTo, IsToldOnRunDay, ListsAs, RegistersAs, SaysImport, ServesAs};
ghost use Rattle.permit_cli.specs.Failing.{FailsAs, FailsToAct, FailsToAsk, FailsToFound, FailsToImport, FailsToList};
ghost use Rattle.permit_cli.specs.Failing.{FailsToRegister, FailsToRenew, FailsToServe, IsUnbegun, IsUncalled, IsUnfinished, IsUnkeptBy, IsUnused};
ghost use Rattle.permit_cli.specs.Running.{ExplainsAnswer, Performs, Reports, RunsAs, SaysFirst, SaysServing};
ghost use Rattle.permit_cli.specs.Streams.{printed};
ghost use Rattle.permit_cli.specs.Telling.{PrintsThen, SaysNoPlan};

use crate::checks::check_db;
use crate::complaining::complain;
use crate::database::{done_at, has_database, serve_at};
use crate::entries::tell_history;
use crate::explaining::{database_of, explain};
use crate::history::{journal_at, journal_named, new_at, unless_failed};
use crate::keeping::{keeping_at, kept_at, old_at};
use crate::listening::try_address;
use crate::policies::{check_policy, policy_at};
use crate::replaying::replay;
use crate::stream::Stream;
use crate::telling::{tell, without_plan};
use permit_args::plan::{
    ActWords, BeginHistoryWords, HistoryPaths, ImportWords, InitWords, Keeping, ListWords,
    OfficeWords, Plan, RegisterWords, RenewTokenWords, ServeWords, UpgradeWords,
};
use permit_args::words::{plan, words_given};
use permit_base::values::Token;
use permit_database::outcome::Outcome;
use permit_database::question::Question;
use permit_database::work::Work;
use permit_policy::Policy;
use permit_store::founder::Founder;
use permit_subcommands::days::{RunDays, day_of_run, days_of_run};
use permit_subcommands::failure::{Failure, HistoryFailure};
use permit_subcommands::founding::founder;
use permit_subcommands::refused::RefusalWord;
use permit_subcommands::request::caller;
use permit_subcommands::token::token_of;
use std::alloc::Global;
use std::fs::File;
use std::sync::Wait;
use std::thread::Threads;

/// The founder that the words name.
fn founder_of(rt: &HostRuntime, words: &InitWords<'_>) -> Result<Founder, Failure>
    ensures fails { IfErr result (FailsToFound words.now) }
{
    let day = day_of_run(rt, &words.days)?;
    let token = token_of(rt, &words.token)?;
    founder(rt.alloc(), words.name, token.as_str(), day)
}

/// Founds an office with this founder, and begins its history where one is named.
fn found(rt: &HostRuntime, words: &InitWords<'_>, founder: &Founder) -> Result<Outcome, Failure>
    ensures founds { IfOk result (λ done. done ≡ Outcome.Founded) }
    ensures fails { IfErr result (λ why. FailsToFound words.now why ⊎ IsUnbegun words.now.history why) }
{
    match journal_named(rt, words.history) {
        Ok(journal) => {
            let work = Work::Found { founder, journal };
            done_at(rt, words.db, work, &mut Stream::Sink, &mut Stream::Sink)
        }
        Err(why) => Err(why),
    }
}

/// Founds an office, and begins its history where one is named. Where it fails, no file is left that was made for the history.
fn init(rt: &HostRuntime, words: &InitWords<'_>) -> Result<Outcome, Failure>
    ensures founds { IfOk result (λ done. done ≡ Outcome.Founded) }
    ensures fails { IfErr result (λ why. FailsToFound words.now why ⊎ IsUnbegun words.now.history why) }
{
    match founder_of(rt, words) {
        Ok(founder) => {
            let made = new_at(rt, words.history);
            let founded = found(rt, words, &founder);
            unless_failed(rt, made, founded)
        }
        Err(why) => Err(why),
    }
}

/// Asks the office that the words name, with its history where one is kept. No database is made where there is none.
#[tactic(auto, using(crate::proofs::Doings::says_no_asking))]
fn ask_office(
    rt: &HostRuntime,
    words: &OfficeWords<'_>,
    keeping: Keeping<HistoryPaths<'_>>,
    question: Question<'_, File>,
    out: &mut Stream,
    err: &mut Stream,
) -> Result<Outcome, Failure>
    ensures told { IfOk result (IsToldOnRunDay words.now.days question.entry (printed out.old) (printed out.new)) }
    ensures fails { IfErr result (FailsToAsk words.now keeping.entry question.entry (printed out.old) (printed out.new)) }
    ensures says { SaysIn (named_history keeping.entry) question.entry (printed err.old) (printed err.new) }
{
    let day = day_of_run(rt, &words.days)?;
    let policy = policy_at(rt, words.policy)?;
    has_database(rt, words.db)?;
    let history = kept_at(rt, words.db, keeping)?;
    let work = Work::Ask {
        policy,
        day,
        question,
        history,
    };
    done_at(rt, words.db, work, out, err)
}

/// Has the office serve one request, and enters it into its history where one is named and it is a command that is done.
fn act(
    rt: &HostRuntime,
    words: &ActWords<'_>,
    out: &mut Stream,
    err: &mut Stream,
) -> Result<Outcome, Failure>
    ensures acts { IfOk result (ActsAs words.now (printed out.old) (printed out.new)) }
    ensures fails { IfErr result (λ why. FailsToAct words.now why ⊎ IsUnkeptBy words.now.history why) }
    ensures unwritten { OnErr result (printed out.new ≡ printed out.old) }
    ensures says { SaysOpening (named_history words.now.history) (printed err.old) (printed err.new) }
{
    let token = token_of(rt, &words.office.token)?;
    let question = Question::of_act(rt.alloc(), words, token.as_str())?;
    ask_office(rt, &words.office, words.history, question, out, err)
}

/// Lists files.
fn list(rt: &HostRuntime, words: &ListWords<'_>, out: &mut Stream) -> Result<Outcome, Failure>
    ensures lists { IfOk result (ListsAs (printed out.old) (printed out.new)) }
    ensures fails { IfErr result (FailsToList words.now.office) }
    ensures unwritten { OnErr result (printed out.new ≡ printed out.old) }
{
    let token = token_of(rt, &words.office.token)?;
    let question = Question::of_list(rt.alloc(), words, token.as_str())?;
    ask_office(
        rt,
        &words.office,
        Keeping::Without,
        question,
        out,
        &mut Stream::Sink,
    )
}

/// Writes a register.
fn register(
    rt: &HostRuntime,
    words: &RegisterWords<'_>,
    out: &mut Stream,
) -> Result<Outcome, Failure>
    ensures registers { IfOk result (RegistersAs words.now (printed out.old) (printed out.new)) }
    ensures fails { IfErr result (FailsToRegister words.now (printed out.old) (printed out.new)) }
{
    let token = token_of(rt, &words.office.token)?;
    let question = Question::of_register(rt.alloc(), words, token.as_str())?;
    ask_office(
        rt,
        &words.office,
        Keeping::Without,
        question,
        out,
        &mut Stream::Sink,
    )
}

/// The file of records that the words name.
fn records_of(rt: &HostRuntime, words: &ImportWords<'_>) -> Result<File, Failure>
    ensures { IfErr result (IsUnread words.now.file.now) }
{
    match File::open(rt, words.file) {
        Ok(records) => Ok(records),
        Err(error) => Err(Failure::of_reading(rt.alloc(), words.file, &error)),
    }
}

/// The caller whose token the words name.
fn caller_of(rt: &HostRuntime, words: &OfficeWords<'_>) -> Result<Token, Failure>
    ensures { IfErr result (IsUncalled words.now.token) }
{
    let token = token_of(rt, &words.token)?;
    caller(rt.alloc(), token.as_str())
}

/// Imports the records of a file, and enters what is added into the history where one is named. Where the words ask for that, why
/// records are refused is written to `err` on the way.
#[tactic(auto, using(crate::proofs::Doings::says_no_import))]
fn import(
    rt: &HostRuntime,
    words: &ImportWords<'_>,
    out: &mut Stream,
    err: &mut Stream,
) -> Result<Outcome, Failure>
    ensures imports { IfOk result (IsImported (printed out.old) (printed out.new)) }
    ensures fails { IfErr result (λ why. FailsToImport words.now (printed out.old) (printed out.new) why
        ⊎ (IsUnkeptBy words.now.history why × (printed out.new ≡ printed out.old))) }
    ensures says { SaysImport (named_history words.now.history) words.now.office.why (printed err.old) (printed err.new) }
{
    let token = caller_of(rt, &words.office)?;
    let records = records_of(rt, words)?;
    let question = Question::of_import(words, token, records);
    ask_office(rt, &words.office, words.history, question, out, err)
}

/// The days and the policy of the office that the words name, whose database is there.
fn days_and_policy(rt: &HostRuntime, words: &ServeWords<'_>) -> Result<(RunDays, Policy), Failure>
    ensures fails { IfErr result (FailsToServe words.now) }
{
    let days = days_of_run(&words.days)?;
    let policy = policy_at(rt, words.policy)?;
    has_database(rt, words.db)?;
    Ok((days, policy))
}

/// Serves an office over TCP on the days of a run, with its history where one is named.
fn serve_on_days<R>(
    rt: &HostRuntime,
    workers: R,
    words: &ServeWords<'_>,
    days: &RunDays,
    policy: Policy,
    out: &mut Stream,
    err: &mut Stream,
) -> Result<Outcome, Failure>
where
    R: Threads + Wait + Copy + Drop + Send + 'static,
    ensures serves { IfOk result (ServesAs (printed out.old) (printed out.new)) }
    ensures fails { IfErr result (λ why. FailsToServe words.now why ⊎ IsUnkeptBy words.now.history why) }
    ensures says { IfErr result (λ why. SaysWhere (printed out.old) (printed out.new) (Err why)) }
    ensures redone { SaysOpening (named_history words.now.history) (printed err.old) (printed err.new) }
{
    match kept_at(rt, words.db, words.history) {
        Ok(history) => match serve_at(rt, workers, policy, days, words, history, out, err) {
            Ok(()) => Ok(Outcome::Ended),
            Err(why) => Err(why),
        },
        Err(why) => Err(why),
    }
}

/// Serves the office that the words name over TCP. The policy and the address are tested before the database is opened.
fn serve<R>(
    rt: &HostRuntime,
    workers: R,
    words: &ServeWords<'_>,
    out: &mut Stream,
    err: &mut Stream,
) -> Result<Outcome, Failure>
where
    R: Threads + Wait + Copy + Drop + Send + 'static,
    ensures serves { IfOk result (ServesAs (printed out.old) (printed out.new)) }
    ensures fails { IfErr result (λ why. FailsToServe words.now why ⊎ IsUnkeptBy words.now.history why) }
    ensures says { IfErr result (λ why. SaysWhere (printed out.old) (printed out.new) (Err why)) }
    ensures first { SaysServing words.now (printed err.old) (printed err.new) }
{
    let (days, policy) = match days_and_policy(rt, words) {
        Ok(read) => read,
        Err(why) => return Err(why),
    };
    match try_address(rt, words.listen, err) {
        Ok(()) => serve_on_days(rt, workers, words, &days, policy, out, err),
        Err(why) => Err(why),
    }
}

/// Makes of the database at a path, of the version before, one of this version, and begins the office's history in the file at
/// the other, which has no text yet.
fn upgrade_and_begin(rt: &HostRuntime, path: &str, history: &str) -> Result<Outcome, Failure>
    ensures upgrades { IfOk result IsUpgrade }
    ensures fails { IfErr result (λ why. IsUnusable why ⊎ IsOfHistory why) }
{
    let journal = match journal_at(rt, history) {
        Ok(journal) => journal,
        Err(why) => return Err(why),
    };
    if journal.length() != 0 {
        return Err(Failure::History(HistoryFailure::Exists));
    }
    let work = Work::Upgrade;
    let upgraded = match done_at(rt, path, work, &mut Stream::Sink, &mut Stream::Sink) {
        Ok(upgraded) => upgraded,
        Err(why) => return Err(why),
    };
    let work = Work::Begin { journal, old: None };
    match done_at(rt, path, work, &mut Stream::Sink, &mut Stream::Sink) {
        Ok(_) => Ok(upgraded),
        Err(why) => Err(why),
    }
}

/// Makes of the database at a path one of this version, and begins the office's history where one is named. Where it fails, no file is
/// left that was made for the history.
fn upgrade_with(rt: &HostRuntime, path: &str, history: Option<&str>) -> Result<Outcome, Failure>
    ensures upgrades { IfOk result IsUpgrade }
    ensures fails { IfErr result (λ why. IsUnusable why ⊎ IsUnbegun history.entry why) }
{
    match history {
        None => {
            let work = Work::Upgrade;
            done_at(rt, path, work, &mut Stream::Sink, &mut Stream::Sink)
        }
        Some(history) => {
            let made = new_at(rt, Some(history));
            let upgraded = upgrade_and_begin(rt, path, history);
            unless_failed(rt, made, upgraded)
        }
    }
}

/// Makes of a database one of this version, and begins the office's history where one is named. No database is made where there
/// is none.
fn upgrade(rt: &HostRuntime, words: &UpgradeWords<'_>) -> Result<Outcome, Failure>
    ensures upgrades { IfOk result IsUpgrade }
    ensures fails { IfErr result (λ why. IsUnusable why ⊎ (IsUnbegun (named_history words.now.history) why ⊎ IsUnused words.now.history why)) }
{
    if let Err(why) = has_database(rt, words.db) {
        return Err(why);
    }
    match keeping_at(rt, words.db, words.history) {
        Ok(history) => upgrade_with(rt, words.db, history),
        Err(why) => Err(why),
    }
}

/// Begins the history of the office in the database at a path, in the file at the other. An older history that lies beside the
/// database is redone first.
fn begin_at(rt: &HostRuntime, db: &str, history: &str, err: &mut Stream) -> Result<Outcome, Failure>
    ensures begins { IfOk result IsBegin }
    ensures fails { IfErr result (λ why. IsUnusable why ⊎ IsUnfinished why) }
    ensures says { (redone : ℕ) × SaysRedone redone (printed err.old) (printed err.new) }
{
    let journal = match journal_at(rt, history) {
        Ok(journal) => journal,
        Err(why) => return Err(why),
    };
    match old_at(rt, db, history) {
        Ok(old) => {
            let work = Work::Begin { journal, old };
            done_at(rt, db, work, &mut Stream::Sink, err)
        }
        Err(why) => Err(why),
    }
}

/// Begins the history of an office. No database is made where there is none, and where it fails, no file is left that was made for the
/// history.
fn begin_history(
    rt: &HostRuntime,
    words: &BeginHistoryWords<'_>,
    err: &mut Stream,
) -> Result<Outcome, Failure>
    ensures begins { IfOk result IsBegin }
    ensures fails { IfErr result (λ why. IsUnusable why ⊎ IsUnfinished why) }
    ensures says { (redone : ℕ) × SaysRedone redone (printed err.old) (printed err.new) }
{
    match has_database(rt, words.db) {
        Ok(()) => {
            let made = new_at(rt, Some(words.history));
            let begun = begin_at(rt, words.db, words.history, err);
            unless_failed(rt, made, begun)
        }
        Err(why) => Err(why),
    }
}

/// The new token of a text. A text that has another form is refused as syntax.
fn new_token(text: String) -> Result<Token, Failure>
    ensures token { IfOk result (λ token. token ≡ string_bytes text) }
    ensures refused { IfErr result (λ why. (why ≡ plain Syntax) × (is_token (string_bytes text) ≡ false)) }
{
    match Token::new(text) {
        Some(token) => Ok(token),
        None => Err(Failure::plain(RefusalWord::Syntax)),
    }
}

/// Replaces the token of a party, and enters that into the office's history where one is named. No database is made where there is
/// none.
fn renew_token(
    rt: &HostRuntime,
    words: &RenewTokenWords<'_>,
    err: &mut Stream,
) -> Result<Outcome, Failure>
    ensures renews { IfOk result (λ done. done ≡ Outcome.Renewed words.now.party) }
    ensures fails { IfErr result (λ why. FailsToRenew words.now why ⊎ IsUnkeptBy words.now.history why) }
    ensures says { SaysOpening (named_history words.now.history) (printed err.old) (printed err.new) }
{
    let token = new_token(token_of(rt, &words.token)?)?;
    has_database(rt, words.db)?;
    let history = kept_at(rt, words.db, words.history)?;
    let work = Work::Renew {
        party: words.party,
        token: &token,
        history,
    };
    done_at(rt, words.db, work, &mut Stream::Sink, err)
}

/// Does what a plan asks for. The database is closed before anything else is printed than how many commands were redone, a register,
/// the lines of an import and why its records are refused, or the address that is listened on and what is said of it, so that
/// nothing that was printed is undone.
fn carry_out<R>(
    rt: &HostRuntime,
    workers: R,
    plan: &Plan<'_>,
    out: &mut Stream,
    err: &mut Stream,
) -> Result<Outcome, Failure>
where
    R: Threads + Wait + Copy + Drop + Send + 'static,
    ensures comes { IfOk result (ComesTo plan.now (printed out.old) (printed out.new)) }
    ensures fails { IfErr result (FailsAs plan.now (printed out.old) (printed out.new)) }
    ensures says { SaysFirst plan.now (printed err.old) (printed err.new) }
    ensures name { plan.now ≡ Plan.Name → (result ≡ Ok Outcome.Name) × (printed out.new ≡ printed out.old) }
{
    match plan {
        Plan::Name => Ok(Outcome::Name),
        Plan::CheckPolicy(words) => check_policy(rt, words),
        Plan::Init(words) => init(rt, words),
        Plan::Act(words) => act(rt, words, out, err),
        Plan::List(words) => list(rt, words, out),
        Plan::Register(words) => register(rt, words, out),
        Plan::Import(words) => import(rt, words, out, err),
        Plan::Serve(words) => serve(rt, workers, words, out, err),
        Plan::Upgrade(words) => upgrade(rt, words),
        Plan::CheckDb(words) => check_db(rt, words),
        Plan::RenewToken(words) => renew_token(rt, words, err),
        Plan::History(words) => tell_history(rt, words, out),
        Plan::Replay(words) => replay(rt, words),
        Plan::BeginHistory(words) => begin_history(rt, words, err),
    }
}

/// Prints why an answer is a refusal, where the words ask for that.
fn explain_answer(rt: &HostRuntime, plan: &Plan<'_>, told: &Result<u8, Failure>, err: &mut Stream)
    ensures { ExplainsAnswer plan.now told.now (printed err.old) (printed err.new) }
{
    if let Err(failure) = told
        && let Failure::Refused(_) = failure
    {
        explain(rt, plan, failure, err);
    }
}

/// Prints what a plan came to, and returns the status. Where an answer is a refusal, it prints why on `err` if the words ask for
/// that.
fn report(
    rt: &HostRuntime,
    plan: &Plan<'_>,
    outcome: &Outcome,
    out: &mut Stream,
    err: &mut Stream,
) -> Result<u8, Failure>
    ensures reports { Reports plan.now outcome.now (printed out.old) (printed out.new) (printed err.old) (printed err.new) result }
    ensures within { IfOk result (λ status. status ≤ 1) }
{
    let told = tell(rt.alloc(), database_of(plan), outcome, out, err);
    explain_answer(rt, plan, &told, err);
    told
}

/// Does what a plan asks for, prints what it came to, and returns the status. Before a failure it prints why on `err`, where the
/// words ask for that.
fn perform<R>(
    rt: &HostRuntime,
    workers: R,
    plan: &Plan<'_>,
    out: &mut Stream,
    err: &mut Stream,
) -> Result<u8, Failure>
where
    R: Threads + Wait + Copy + Drop + Send + 'static,
    ensures performs { Performs plan.now (printed out.old) (printed out.new) (printed err.old) (printed err.new) result }
    ensures name { plan.now ≡ Plan.Name → PrintsThen name_line (Ok 0) (printed out.old) (printed out.new) result }
    ensures within { IfOk result (λ status. status ≤ 1) }
{
    match carry_out(rt, workers, plan, out, err) {
        Ok(outcome) => report(rt, plan, &outcome, out, err),
        Err(failure) => {
            explain(rt, plan, &failure, err);
            Err(failure)
        }
    }
}

/// Runs the program on the words after its name, and returns its status: 0 done, 1 refused, 2 bad words or files.
/// What it prints goes to `out`, its faults to `err`. Where it serves, its workers are started by `workers`.
///
/// # Examples
///
/// ```
/// let mut words = Vec::new(alloc);
/// words.push(String::from_str(alloc, "--version")?)?;
/// let mut out = Stream::Memory(Vec::new(alloc));
/// let status = run_words(&rt, rt, words.as_slice(), &mut out, &mut Stream::Sink);
/// let printed = b"permit 2.0 (schema 2)\n".as_slice();
/// assert!(rt; status == 0 && matches!(out, Stream::Memory(bytes) if bytes.as_slice() == printed));
/// ```
pub fn run_words<R>(
    rt: &HostRuntime,
    workers: R,
    words: &[String],
    out: &mut Stream,
    err: &mut Stream,
) -> u8
where
    R: Threads + Wait + Copy + Drop + Send + 'static,
    ensures runs { RunsAs (map string_bytes words.now) (printed out.old) (printed out.new) (printed err.old) (printed err.new) result }
    ensures name { words.now ≡ [] → ((result ≡ 0) × Appends (printed out.old) (printed out.new) name_line)
        ⊎ ((result ≡ 1) × WroteFront (printed out.old) (printed out.new) name_line) }
    ensures within { result ≤ 2 }
{
    match plan(rt.alloc(), words) {
        Ok(plan) => match perform(rt, workers, &plan, out, err) {
            Ok(status) => status,
            Err(failure) => complain(&failure, err),
        },
        Err(fault) => without_plan(&fault, out, err),
    }
}

/// Runs the program on the words that the process has, as `run_words` does.
pub fn run<R>(rt: &HostRuntime, workers: R, out: &mut Stream, err: &mut Stream) -> u8
where
    R: Threads + Wait + Copy + Drop + Send + 'static,
    ensures runs { ((words : List (List ℕ)) × RunsAs words (printed out.old) (printed out.new) (printed err.old) (printed err.new) result)
        ⊎ ((fault : TheFault) × TellsNoPlan fault (printed out.old) (printed out.new) result
        × SaysNoPlan fault (printed err.old) (printed err.new) result) }
    ensures within { result ≤ 2 }
{
    match words_given(rt) {
        Ok(words) => run_words(rt, workers, words.as_slice(), out, err),
        Err(fault) => without_plan(&fault, out, err),
    }
}
