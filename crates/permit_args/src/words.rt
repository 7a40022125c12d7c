//! What the words after the program's name ask for.

ghost use Rattle.std.specs.Prelude.{◌≡◌, [], IfErr, IfOk, None, Some, Ok, map, true, string_bytes};
ghost use Rattle.clap.specs.Words.{app_of, found_of, is_simple_and_free, kind_of, rows_of};
ghost use Rattle.permit_args.specs.Blames.{Blames};
ghost use Rattle.permit_args.specs.Faults.{is_help, is_memory, IsFaultBy, IsFoundIn, IsNoPlan, IsParserFault, IsUnread, Refuses, Says};
ghost use Rattle.permit_args.specs.Lines.{no_text_line};
ghost use Rattle.permit_args.specs.Plans.{named, subcommand_in, IsPlanIn, IsPlanOf};

use crate::commands::{command, program};
use crate::places::bad;
use crate::plan::{Plan, PlanFault, Subcommand};
use crate::subcommands::{
    act, begin_history, check_db, check_policy, history, import, init, list, register, renew_token,
    replay, serve, upgrade,
};
use clap::error::ErrorKind;
use clap::{ArgMatches, Command, Error};
use std::alloc::Global;
use std::{env, io};

/// The words after the program's name, as the process has them.
pub fn words_given(rt: &HostRuntime) -> Result<Vec<String>, PlanFault>
    ensures { IfErr result (Says no_text_line) }
{
    match env::args(rt) {
        Ok(words) => Ok(words.skip(1).collect(rt.alloc())?),
        Err(error) if error.kind() == io::ErrorKind::OutOfMemory => Err(PlanFault::Memory),
        Err(_) => Err(bad(rt.alloc(), "error: a word is not UTF-8\n")),
    }
}

/// Whether an error of the parser is that memory ran out.
fn is_memory(kind: ErrorKind) -> bool
    ensures { result ≡ is_memory kind }
{
    matches!(kind, ErrorKind::OutOfMemory)
}

/// Whether an error of the parser is help, or the version.
fn is_help(kind: ErrorKind) -> bool
    ensures { result ≡ is_help kind }
{
    matches!(kind, ErrorKind::DisplayHelp | ErrorKind::DisplayVersion)
}

/// What an error of the parser says.
fn fault(alloc: Global, error: &Error) -> PlanFault
    ensures { IsFaultBy (kind_of error.now) result }
{
    let kind = error.kind();
    if is_memory(kind) {
        return PlanFault::Memory;
    }
    let Ok(text) = error.to_string(alloc) else {
        return PlanFault::Memory;
    };
    if is_help(kind) {
        PlanFault::Help(text)
    } else {
        PlanFault::Words(text)
    }
}

/// What the words, the first of which names the subcommand, give its options and words.
fn matches<'a>(
    alloc: Global,
    command: Command<'a>,
    words: &'a [String],
) -> Result<ArgMatches<'a>, PlanFault>
    ensures found { IfOk result (λ m. is_simple_and_free (app_of command.entry) ≡ true
        → IsFoundIn (app_of command.entry) (map string_bytes words.now) (rows_of (found_of m))) }
    ensures refused { IfErr result (λ fault. is_simple_and_free (app_of command.entry) ≡ true
        → IsParserFault (app_of command.entry) (map string_bytes words.now) fault) }
{
    match command.try_get_matches_from(words) {
        Ok(matches) => Ok(matches),
        Err(error) => Err(fault(alloc, &error)),
    }
}

/// The plan that a subcommand finds in what its options and words say.
fn plan_of<'a>(
    alloc: Global,
    subcommand: Subcommand,
    matches: &ArgMatches<'a>,
) -> Result<Plan<'a>, PlanFault>
    ensures plan { IfOk result (IsPlanIn subcommand (rows_of (found_of matches.now))) }
    ensures refused { IfErr result (Refuses (IsPlanIn subcommand (rows_of (found_of matches.now))) (Blames (Some subcommand) (rows_of (found_of matches.now)))) }
{
    match subcommand {
        Subcommand::CheckPolicy => Ok(Plan::CheckPolicy(check_policy(alloc, matches)?)),
        Subcommand::Init => Ok(Plan::Init(init(alloc, matches)?)),
        Subcommand::Act => Ok(Plan::Act(act(alloc, matches)?)),
        Subcommand::List => Ok(Plan::List(list(alloc, matches)?)),
        Subcommand::Register => Ok(Plan::Register(register(alloc, matches)?)),
        Subcommand::Import => Ok(Plan::Import(import(alloc, matches)?)),
        Subcommand::Serve => Ok(Plan::Serve(serve(alloc, matches)?)),
        Subcommand::Upgrade => Ok(Plan::Upgrade(upgrade(alloc, matches)?)),
        Subcommand::CheckDb => Ok(Plan::CheckDb(check_db(alloc, matches)?)),
        Subcommand::RenewToken => Ok(Plan::RenewToken(renew_token(alloc, matches)?)),
        Subcommand::History => Ok(Plan::History(history(alloc, matches)?)),
        Subcommand::Replay => Ok(Plan::Replay(replay(alloc, matches)?)),
        Subcommand::BeginHistory => Ok(Plan::BeginHistory(begin_history(alloc, matches)?)),
    }
}

/// Why words that begin with no subcommand give no plan.
fn no_subcommand(alloc: Global, words: &[String]) -> PlanFault
    ensures { IsUnread None (map string_bytes words.now) result }
{
    let Ok(command) = program(alloc) else {
        return PlanFault::Memory;
    };
    match matches(alloc, command, words) {
        Ok(_) => bad(alloc, "error: no subcommand is named\n"),
        Err(fault) => fault,
    }
}

/// The subcommand of a word.
fn named(word: &str) -> Option<Subcommand>
    ensures { result ≡ named word.now }
{
    match word {
        "check-policy" => Some(Subcommand::CheckPolicy),
        "init" => Some(Subcommand::Init),
        "act" => Some(Subcommand::Act),
        "list" => Some(Subcommand::List),
        "register" => Some(Subcommand::Register),
        "import" => Some(Subcommand::Import),
        "serve" => Some(Subcommand::Serve),
        "upgrade" => Some(Subcommand::Upgrade),
        "check-db" => Some(Subcommand::CheckDb),
        "renew-token" => Some(Subcommand::RenewToken),
        "history" => Some(Subcommand::History),
        "replay" => Some(Subcommand::Replay),
        "begin-history" => Some(Subcommand::BeginHistory),
        _ => None,
    }
}

/// The subcommand that the first word names.
fn subcommand(words: &[String]) -> Option<Subcommand>
    ensures { result ≡ subcommand_in (map string_bytes words.now) }
{
    match words.first() {
        Some(word) => named(word.as_str()),
        None => None,
    }
}

/// What the words after the program's name ask for. Without words the program prints its name. Else the first word names
/// a subcommand, and the command line library reads the words for it.
///
/// # Examples
///
/// ```
/// let mut words = Vec::new(alloc);
/// for word in ["check-db", "--db", "office.db"] {
///     words.push(String::from_str(alloc, word)?)?;
/// }
/// let planned = plan(alloc, words.as_slice());
/// assert!(rt; matches!(planned, Ok(Plan::CheckDb(_))));
/// ```
pub fn plan<'a>(alloc: Global, words: &'a [String]) -> Result<Plan<'a>, PlanFault>
    ensures plan { IfOk result (IsPlanOf (map string_bytes words.now)) }
    ensures refused { IfErr result (IsNoPlan (map string_bytes words.now)) }
    ensures name { words.now ≡ [] → result ≡ Ok Plan.Name }
{
    if words.is_empty() {
        return Ok(Plan::Name);
    }
    let Some(subcommand) = subcommand(words) else {
        return Err(no_subcommand(alloc, words));
    };
    let matches = matches(alloc, command(alloc, subcommand)?, words)?;
    plan_of(alloc, subcommand, &matches)
}
