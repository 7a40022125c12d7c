//! What is printed on standard error before the line of a failure, where `--why` asks for it.

ghost use Rattle.std.specs.Prelude.{◌≡◌, Err, IfSome, IsTrue, List, ℕ, Option, option_map, string_bytes};
ghost use Rattle.permit_import.specs.Headings.{IsHeadingText};
ghost use Rattle.permit_policy.specs.PolicyText.{meaning, Means};
ghost use Rattle.permit_cli.specs.Explained.{against_of, asks_why, database_of, history_of, is_beside, named_path, policy_of, refused_day, syntax_reason, text_path, wanted_by};
ghost use Rattle.permit_cli.specs.Explained.{Explains, ExplainsFactsOf, ExplainsBeside, ExplainsFile, ExplainsHistory, ExplainsPolicy, ExplainsRefusal, FailsWith, IsUnreadLine};

use crate::database::reason_at;
use crate::keeping::beside;
use crate::reason::history_reason;
use permit_args::facts::facts_fault;
use permit_args::plan::{Check, HistoryPaths, Plan};
use permit_base::words::Edition;
use permit_import::heading::heading_reason;
use permit_policy::fault::PolicyError;
use permit_policy::text::read_policy;
use permit_reasons::policy_reason;
use permit_store::store::OpenError;
use permit_subcommands::explaining::{
    Unread, act_reason, day_reason, founder_reason, listen_reason, since_reason, token_reason,
    zone_reason,
};
use permit_subcommands::failure::{Failure, HistoryFailure};
use permit_subcommands::printing::{print_about, print_line_of};
use permit_subcommands::refused::{RefusalWord, Refused};
use std::alloc::Global;
use std::fs::{self, File};
use std::io::{ErrorKind, Write};
use std::os::unix::fs::MetadataExt;

/// Whether the words of a plan ask why it fails.
fn asks_why(plan: &Plan<'_>) -> bool
    ensures { result ≡ asks_why plan.now }
{
    match plan {
        Plan::Name => false,
        Plan::CheckPolicy(words) => words.why,
        Plan::Init(words) => words.why,
        Plan::Act(words) => words.office.why,
        Plan::List(words) => words.office.why,
        Plan::Register(words) => words.office.why,
        Plan::Import(words) => words.office.why,
        Plan::Serve(words) => words.why,
        Plan::Upgrade(words) => words.why,
        Plan::CheckDb(words) => words.why,
        Plan::RenewToken(words) => words.why,
        Plan::History(words) => words.why,
        Plan::Replay(words) => words.why,
        Plan::BeginHistory(words) => words.why,
    }
}

/// Which tables a plan wants in its database.
fn wanted_by(plan: &Plan<'_>) -> Edition
    ensures { result ≡ wanted_by plan.now }
{
    match plan {
        Plan::Upgrade(_) => Edition::First,
        _ => Edition::Second,
    }
}

/// Whether a plan makes its database.
fn makes_database(plan: &Plan<'_>) -> bool {
    matches!(plan, Plan::Init(_) | Plan::Replay(_))
}

/// A path that is named; else empty.
fn named_path<'a>(path: Option<&'a str>) -> &'a str
    ensures { result.now ≡ named_path path.entry }
{
    path.unwrap_or("")
}

/// The path of a plan's database; empty where it has none.
pub(crate) fn database_of<'a>(plan: &Plan<'a>) -> &'a str
    ensures { result.now ≡ database_of plan.now }
{
    match plan {
        Plan::Name | Plan::CheckPolicy(_) => "",
        Plan::Init(words) => words.db,
        Plan::Act(words) => words.office.db,
        Plan::List(words) => words.office.db,
        Plan::Register(words) => words.office.db,
        Plan::Import(words) => words.office.db,
        Plan::Serve(words) => words.db,
        Plan::Upgrade(words) => words.db,
        Plan::CheckDb(words) => words.db,
        Plan::RenewToken(words) => words.db,
        Plan::History(words) => named_path(words.db),
        Plan::Replay(words) => words.db,
        Plan::BeginHistory(words) => words.db,
    }
}

/// The path of its policy.
fn policy_of<'a>(plan: &Plan<'a>) -> &'a str
    ensures { result.now ≡ policy_of plan.now }
{
    match plan {
        Plan::CheckPolicy(words) => words.policy,
        Plan::Act(words) => words.office.policy,
        Plan::List(words) => words.office.policy,
        Plan::Register(words) => words.office.policy,
        Plan::Import(words) => words.office.policy,
        Plan::Serve(words) => words.policy,
        _ => "",
    }
}

/// The path of the policy that it is compared with.
fn against_of<'a>(plan: &Plan<'a>) -> &'a str
    ensures { result.now ≡ against_of plan.now }
{
    let Plan::CheckPolicy(words) = plan else {
        return "";
    };
    match words.check {
        Check::Against(path) => path,
        _ => "",
    }
}

/// The path of the text of a history; empty where none is named.
fn text_path<'a>(history: Option<HistoryPaths<'a>>) -> &'a str
    ensures { result.now ≡ text_path history.entry }
{
    match history {
        Some(paths) => paths.text,
        None => "",
    }
}

/// The path of its history.
fn history_of<'a>(plan: &Plan<'a>) -> &'a str
    ensures { result.now ≡ history_of plan.now }
{
    match plan {
        Plan::Init(words) => named_path(words.history),
        Plan::Act(words) => text_path(words.history.named()),
        Plan::Import(words) => text_path(words.history.named()),
        Plan::Serve(words) => text_path(words.history.named()),
        Plan::Upgrade(words) => named_path(words.history.named()),
        Plan::CheckDb(words) => text_path(words.history),
        Plan::RenewToken(words) => text_path(words.history.named()),
        Plan::History(words) => words.history,
        Plan::Replay(words) => words.history.text,
        Plan::BeginHistory(words) => words.history,
        _ => "",
    }
}

/// The path of the copy of the database with which its history begins, where one is named.
fn copy_of<'a>(plan: &Plan<'a>) -> Option<&'a str> {
    match plan {
        Plan::Act(words) => words.history.named()?.copy,
        Plan::Import(words) => words.history.named()?.copy,
        Plan::Serve(words) => words.history.named()?.copy,
        Plan::CheckDb(words) => words.history?.copy,
        Plan::RenewToken(words) => words.history.named()?.copy,
        Plan::Replay(words) => words.history.copy,
        _ => None,
    }
}

/// Whether a policy's text is refused by this error.
fn is_refused_by(alloc: Global, text: &str, error: &PolicyError) -> bool
    ensures { IsTrue result → Means (Err error.now) (meaning text.now) }
{
    match read_policy(alloc, text) {
        Ok(_) => false,
        Err(again) => again == *error,
    }
}

/// Says what is wrong with the policy at a path, whose text is read again for that. Where it isn't there any more, or memory runs
/// out, nothing is said.
fn explain_policy<E: Write>(
    rt: &HostRuntime,
    path: &str,
    error: &PolicyError,
    err: &mut E,
) -> Result<(), Failure>
    ensures { ExplainsPolicy path.now error.now (E.contents err.old) (E.contents err.new) result }
{
    let Ok(text) = fs::read_to_string(rt, path) else {
        return Ok(());
    };
    if !is_refused_by(rt.alloc(), text.as_str(), error) {
        return Ok(());
    }
    match policy_reason(rt.alloc(), text.as_str(), error) {
        Ok(line) => print_about(err, path, line.as_str()),
        Err(_) => Ok(()),
    }
}

/// What is found at the path of a file that can't be read; `-` is standard input. A pipe isn't opened again, since that would wait
/// for a writer. A history may have no second name.
fn unread_at(rt: &HostRuntime, path: &str, history: &str) -> Unread {
    if path == "-" {
        return Unread::Failed;
    }
    let found = match fs::metadata(rt, path) {
        Ok(found) if found.is_dir() => return Unread::Folder,
        Ok(found) if !found.is_file() => return Unread::NotRegular,
        Ok(found) if found.nlink() != 1 && path == history => return Unread::SecondName,
        Ok(_) => File::open(rt, path).map(drop),
        Err(error) => Err(error),
    };
    match found.map_err(|error| error.kind()) {
        Err(ErrorKind::NotFound | ErrorKind::NotADirectory) => Unread::NoFile,
        Err(ErrorKind::PermissionDenied) => Unread::NoRight,
        _ => Unread::Failed,
    }
}

/// Why the file at a path can't be read. A copy of the database is one that can't be used.
fn unread_line(rt: &HostRuntime, plan: &Plan<'_>, path: &str) -> &'static str
    ensures { IsUnreadLine result.now }
{
    match copy_of(plan) {
        Some(copy) if copy == path => {
            reason_at(rt, path, false, Edition::Second, OpenError::Store).line()
        }
        _ => unread_at(rt, path, history_of(plan)).line(),
    }
}

/// What the first record of the records at a path is, where it isn't that of a parcel list. Only a file can be read again.
fn heading_at(rt: &HostRuntime, path: &str) -> Option<String>
    ensures { IfSome result (λ text. (left : Option (List ℕ)) × IsHeadingText left (string_bytes text)) }
{
    match fs::metadata(rt, path) {
        Ok(found) if found.is_file() => {}
        _ => return None,
    }
    let Ok(records) = File::open(rt, path) else {
        return None;
    };
    match heading_reason(rt.alloc(), records) {
        Ok(found) => found,
        Err(_) => None,
    }
}

/// The same, where the plan imports the records at the path.
fn heading_of(rt: &HostRuntime, plan: &Plan<'_>, path: &str) -> Option<String>
    ensures { IfSome result (λ text. (left : Option (List ℕ)) × IsHeadingText left (string_bytes text)) }
{
    match plan {
        Plan::Import(words) if words.file == path => heading_at(rt, path),
        _ => None,
    }
}

/// Says why the file at a path can't be read. One of records may have another first record.
fn explain_file<E: Write>(
    rt: &HostRuntime,
    plan: &Plan<'_>,
    path: &str,
    err: &mut E,
) -> Result<(), Failure>
    ensures { ExplainsFile path.now (E.contents err.old) (E.contents err.new) result }
{
    match heading_of(rt, plan, path) {
        Some(line) => print_about(err, path, line.as_str()),
        None => print_about(err, path, unread_line(rt, plan, path)),
    }
}

/// Says which of the words of the facts is wrong.
fn explain_facts<E: Write>(alloc: Global, plan: &Plan<'_>, err: &mut E) -> Result<(), Failure>
    ensures { ExplainsFactsOf plan.now (E.contents err.old) (E.contents err.new) result }
{
    let Plan::CheckPolicy(words) = plan else {
        return Ok(());
    };
    let Check::Facts(text) = words.check else {
        return Ok(());
    };
    match facts_fault(alloc, text) {
        Ok(Some(fault)) => print_line_of(err, fault.line()),
        _ => Ok(()),
    }
}

/// Which word of a plan is refused as syntax, and what it takes.
fn syntax_reason(plan: &Plan<'_>) -> Option<&'static str>
    ensures { option_map (λ s. s.now) result ≡ syntax_reason plan.now }
{
    match plan {
        Plan::Init(words) => Some(founder_reason(words.name, &words.token)),
        Plan::Act(words) => Some(act_reason(words)),
        Plan::RenewToken(words) => Some(token_reason(&words.token)),
        _ => None,
    }
}

/// Says why a request or a founding is refused, where it is the words' syntax.
fn explain_refusal<E: Write>(plan: &Plan<'_>, why: &Refused, err: &mut E) -> Result<(), Failure>
    ensures { ExplainsRefusal plan.now why.now (E.contents err.old) (E.contents err.new) result }
{
    match why {
        Refused::Plain(RefusalWord::Syntax) => match syntax_reason(plan) {
            Some(line) => print_line_of(err, line),
            None => Ok(()),
        },
        _ => Ok(()),
    }
}

/// What is taken as the day that is refused.
fn refused_day(plan: &Plan<'_>) -> &'static str
    ensures { result.now ≡ refused_day plan.now }
{
    match plan {
        Plan::History(_) => since_reason(),
        _ => day_reason(),
    }
}

/// Whether what is wrong is so of the history that lies beside the database: it isn't named, or is to be redone before a new one
/// begins.
fn is_beside(plan: &Plan<'_>, why: HistoryFailure) -> bool
    ensures { result ≡ is_beside plan.now why }
{
    match why {
        HistoryFailure::Unused => true,
        HistoryFailure::Differs
        | HistoryFailure::Line(..)
        | HistoryFailure::Short
        | HistoryFailure::Copy => matches!(plan, Plan::BeginHistory(_)),
        _ => false,
    }
}

/// Says what is wrong with the history that lies beside the database at a path. Without memory for its path nothing is said.
fn explain_beside<E: Write>(
    alloc: Global,
    db: &str,
    why: HistoryFailure,
    err: &mut E,
) -> Result<(), Failure>
    ensures { ExplainsBeside db.now why (E.contents err.old) (E.contents err.new) result }
{
    match beside(alloc, db) {
        Ok(Some(path)) => print_about(err, path.as_str(), history_reason(why)),
        _ => Ok(()),
    }
}

/// Says why a history can't be used.
fn explain_history<E: Write>(
    alloc: Global,
    plan: &Plan<'_>,
    why: HistoryFailure,
    err: &mut E,
) -> Result<(), Failure>
    ensures { ExplainsHistory plan.now why (E.contents err.old) (E.contents err.new) result }
{
    if is_beside(plan, why) {
        explain_beside(alloc, database_of(plan), why, err)
    } else {
        print_about(err, history_of(plan), history_reason(why))
    }
}

/// Says why a plan failed.
fn say_why<E: Write>(
    rt: &HostRuntime,
    plan: &Plan<'_>,
    failure: &Failure,
    err: &mut E,
) -> Result<(), Failure>
    ensures { Explains plan.now failure.now (E.contents err.old) (E.contents err.new) result }
{
    match failure {
        Failure::Refused(why) => explain_refusal(plan, why, err),
        Failure::File(path) => explain_file(rt, plan, path.as_str(), err),
        Failure::Policy(error) => explain_policy(rt, policy_of(plan), error, err),
        Failure::Against(error) => explain_policy(rt, against_of(plan), error, err),
        Failure::Facts => explain_facts(rt.alloc(), plan, err),
        Failure::Database(why) => {
            let path = database_of(plan);
            let reason = reason_at(rt, path, makes_database(plan), wanted_by(plan), *why);
            print_about(err, path, reason.line())
        }
        Failure::History(why) => explain_history(rt.alloc(), plan, *why, err),
        Failure::Day => print_line_of(err, refused_day(plan)),
        Failure::Zone => print_line_of(err, zone_reason()),
        Failure::Listen(_) => print_line_of(err, listen_reason()),
        Failure::Output => Ok(()),
    }
}

/// Says why a plan failed, where its words ask for it. A writer that fails is left alone, as for the failure's own line.
pub(crate) fn explain<E: Write>(rt: &HostRuntime, plan: &Plan<'_>, failure: &Failure, err: &mut E)
    ensures { FailsWith plan.now failure.now (E.contents err.old) (E.contents err.new) }
{
    if asks_why(plan) {
        let _ = say_why(rt, plan, failure, err);
    }
}
