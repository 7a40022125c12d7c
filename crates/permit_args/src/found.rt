//! What the options and words of a subcommand say, as the command line library found them.

ghost use Rattle.std.specs.Prelude.{◌≡◌, ℕ, List, IfErr, IfNone, IfOk, IfSome, IsSome, IsTrue, Some, true};
ghost use Rattle.clap.specs.Words.{first_of, found_of, rows_of};
ghost use Rattle.permit_base.specs.Limits.{most_records};
ghost use Rattle.permit_base.specs.Stages.{is_file_stage};
ghost use Rattle.permit_base.specs.Words.{register_word, stage_word};
ghost use Rattle.permit_args.specs.Blames.{BlamesBoth, BlamesCheck, BlamesForm, BlamesKeeping, BlamesOffice, BlamesPaths, BlamesPlace, BlamesToken, BlamesVerify, Misses};
ghost use Rattle.permit_args.specs.Faults.{Refuses, Says};
ghost use Rattle.permit_args.specs.Lines.{choice_line, clash_line, invalid_line, record_name, two_histories_line};
ghost use Rattle.permit_args.specs.Keepings.{is_without, named_history};
ghost use Rattle.permit_args.specs.Plans.{choice_name, is_given, most_lines, second_of, text_of, ArePathsOf, ChoosesNone, Clashes, IsCheckBy, IsCheckOf, IsConnectionsOf, IsCountOf, IsDaysOf, IsDigestOf, IsFormOf, IsKeepingOf, IsOfficeOf, IsPathOf, IsRecordOf, IsStageOf, IsTokenOf, IsVerifyOf, IsWorkersOf};
ghost use Rattle.permit_args.specs.declared.places.Place.TheVariants as place;

use crate::places::{Place, RecordKind, bad, invalid, missing};
use crate::plan::{
    Check, Choice, Clash, DayWords, HistoryPaths, Keeping, OfficeWords, PlanFault, TokenWords,
    VerifyWords,
};
use clap::ArgMatches;
use permit_base::limits::MOST_RECORDS;
use permit_base::request::FileStage;
use permit_base::values::Digest;
use permit_base::words::{RegisterKind, Stage, Word};
use permit_policy::TableForm;
use std::alloc::Global;

/// The most workers that serve at once.
const MOST_WORKERS: u32 = 8;

/// The most connections after which a worker ends.
const MOST_CONNECTIONS: u32 = 99999;

/// The value of an option or a word that may be left out.
pub(crate) fn value<'a>(matches: &ArgMatches<'a>, name: &str) -> Option<&'a str>
    ensures { first_of name.now (rows_of (found_of matches.now)) ≡ text_of result }
{
    matches.get_str(name)
}

/// The value of an option or a word that has to be there.
pub(crate) fn required<'a>(
    alloc: Global,
    matches: &ArgMatches<'a>,
    name: &str,
) -> Result<&'a str, PlanFault>
    ensures value { IfOk result (λ s. first_of name.now (rows_of (found_of matches.now)) ≡ Some s.now) }
    ensures refused { IfErr result (Refuses (λ (text : List ℕ). first_of name.now (rows_of (found_of matches.now)) ≡ Some text)
        (Misses name.now (rows_of (found_of matches.now)))) }
{
    match value(matches, name) {
        Some(text) => Ok(text),
        None => Err(missing(alloc, name)),
    }
}

/// The second value of an option that takes two.
fn second<'a>(matches: &ArgMatches<'a>, name: &str) -> Option<&'a str>
    ensures { second_of name.now (rows_of (found_of matches.now)) ≡ text_of result }
{
    matches.get_raw(name)?.get(1).copied()
}

/// Whether an option without a value is given.
pub(crate) fn is_given(matches: &ArgMatches<'_>, name: &str) -> bool
    ensures { is_given name.now (rows_of (found_of matches.now)) ≡ result }
{
    match value(matches, name) {
        Some(text) => text == "true",
        None => false,
    }
}

/// The day and the zone.
pub(crate) fn days<'a>(matches: &ArgMatches<'a>) -> DayWords<'a>
    ensures { IsDaysOf (rows_of (found_of matches.now)) result }
{
    DayWords {
        day: value(matches, "day"),
        zone: value(matches, "zone"),
    }
}

/// The token, or the file that has it: the one or the other is given, and not both.
pub(crate) fn token<'a>(
    alloc: Global,
    matches: &ArgMatches<'a>,
) -> Result<TokenWords<'a>, PlanFault>
    ensures found { IfOk result (IsTokenOf (rows_of (found_of matches.now))) }
    ensures refused { IfErr result (Refuses (IsTokenOf (rows_of (found_of matches.now))) (BlamesToken (rows_of (found_of matches.now)))) }
{
    match (value(matches, "token"), value(matches, "token-file")) {
        (Some(token), None) => Ok(TokenWords::Given(token)),
        (None, Some(path)) => Ok(TokenWords::File(path)),
        (None, None) => Err(bad(
            alloc,
            "error: the following required arguments were not provided:\n  <--token <TOKEN>|--token-file <PATH>>\n\nFor more information, try '--help'.\n",
        )),
        (Some(_), Some(_)) => Err(bad(
            alloc,
            "error: the argument '--token <TOKEN>' cannot be used with '--token-file <PATH>'\n\nFor more information, try '--help'.\n",
        )),
    }
}

/// The office that is asked.
pub(crate) fn office<'a>(
    alloc: Global,
    matches: &ArgMatches<'a>,
) -> Result<OfficeWords<'a>, PlanFault>
    ensures found { IfOk result (IsOfficeOf (rows_of (found_of matches.now))) }
    ensures refused { IfErr result (Refuses (IsOfficeOf (rows_of (found_of matches.now))) (BlamesOffice (rows_of (found_of matches.now)))) }
{
    Ok(OfficeWords {
        db: required(alloc, matches, "db")?,
        policy: required(alloc, matches, "policy")?,
        token: token(alloc, matches)?,
        days: days(matches),
        why: is_given(matches, "why"),
    })
}

/// The stage of this word, where a file can be in it.
fn file_stage(word: &str) -> Option<FileStage>
    ensures word { IfSome result (λ stage. stage_word stage ≡ word.now) }
    ensures within { IfSome result (λ stage. IsTrue (is_file_stage stage)) }
    ensures every { (stage : Stage) → stage_word stage ≡ word.now → IsTrue (is_file_stage stage) → result ≡ Some stage }
{
    FileStage::new(Stage::read(word)?)
}

/// The stage of the files that are listed.
pub(crate) fn stage(alloc: Global, matches: &ArgMatches<'_>) -> Result<Option<FileStage>, PlanFault>
    ensures stage { IfOk result (IsStageOf (rows_of (found_of matches.now))) }
    ensures refused { IfErr result (Refuses (IsStageOf (rows_of (found_of matches.now))) (BlamesPlace place.Stage (rows_of (found_of matches.now)))) }
{
    let Some(text) = value(matches, "stage") else {
        return Ok(None);
    };
    match file_stage(text) {
        Some(stage) => Ok(Some(stage)),
        None => Err(invalid(alloc, Place::Stage, text)),
    }
}

/// The register of a name.
pub(crate) fn kind(alloc: Global, name: &str) -> Result<RegisterKind, PlanFault>
    ensures kind { IfOk result (λ kind. register_word kind ≡ name.now) }
    ensures refused { IfErr result (Refuses (λ (kind : RegisterKind). register_word kind ≡ name.now) (λ line. line ≡ invalid_line place.Register name.now)) }
{
    match RegisterKind::read(name) {
        Some(kind) => Ok(kind),
        None => Err(invalid(alloc, Place::Register, name)),
    }
}

/// The number of a word, from 1 to the greatest that its place takes, as it is written out.
fn count(alloc: Global, text: &str, greatest: u32, place: Place) -> Result<u32, PlanFault>
    ensures number { IfOk result (IsCountOf greatest text.now) }
    ensures refused { IfErr result (Refuses (IsCountOf greatest text.now) (λ line. line ≡ invalid_line place text.now)) }
{
    let Ok(number) = text.parse::<u32>() else {
        return Err(invalid(alloc, place, text));
    };
    let spelled = format!(in alloc; "{number}")?;
    if spelled.as_str() == text && 1 <= number && number <= greatest {
        Ok(number)
    } else {
        Err(invalid(alloc, place, text))
    }
}

/// How many workers serve.
pub(crate) fn workers(alloc: Global, matches: &ArgMatches<'_>) -> Result<u32, PlanFault>
    ensures number { IfOk result (IsWorkersOf (rows_of (found_of matches.now))) }
    ensures refused { IfErr result (Refuses (IsWorkersOf (rows_of (found_of matches.now))) (BlamesPlace place.Workers (rows_of (found_of matches.now)))) }
{
    match value(matches, "workers") {
        Some(text) => count(alloc, text, MOST_WORKERS, Place::Workers),
        None => Ok(4),
    }
}

/// After how many connections a worker ends.
pub(crate) fn connections(alloc: Global, matches: &ArgMatches<'_>) -> Result<Option<u32>, PlanFault>
    ensures number { IfOk result (IsConnectionsOf (rows_of (found_of matches.now))) }
    ensures refused { IfErr result (Refuses (IsConnectionsOf (rows_of (found_of matches.now))) (BlamesPlace place.Connections (rows_of (found_of matches.now)))) }
{
    match value(matches, "connections") {
        Some(text) => Ok(Some(count(alloc, text, MOST_CONNECTIONS, Place::Connections)?)),
        None => Ok(None),
    }
}

/// The number of the record of this word.
pub(crate) fn number(alloc: Global, text: &str, kind: RecordKind) -> Result<u32, PlanFault>
    ensures number { IfOk result (IsCountOf most_records text.now) }
    ensures refused { IfErr result (Refuses (IsCountOf most_records text.now) (λ line. line ≡ invalid_line (place.Record kind) text.now)) }
{
    count(alloc, text, MOST_RECORDS, Place::Record(kind))
}

/// The number of a record, where the option for it is given.
pub(crate) fn record(
    alloc: Global,
    matches: &ArgMatches<'_>,
    kind: RecordKind,
) -> Result<Option<u32>, PlanFault>
    ensures number { IfOk result (IsRecordOf (record_name kind) (rows_of (found_of matches.now))) }
    ensures refused { IfErr result (Refuses (IsRecordOf (record_name kind) (rows_of (found_of matches.now))) (BlamesPlace (place.Record kind) (rows_of (found_of matches.now)))) }
{
    match value(matches, kind.option()) {
        Some(text) => Ok(Some(number(alloc, text, kind)?)),
        None => Ok(None),
    }
}

/// How many lines a word says, as it is written out.
fn lines(alloc: Global, text: &str) -> Result<u64, PlanFault>
    ensures number { IfOk result (IsCountOf most_lines text.now) }
    ensures refused { IfErr result (Refuses (IsCountOf most_lines text.now) (λ line. line ≡ invalid_line place.Lines text.now)) }
{
    let Ok(number) = text.parse::<u64>() else {
        return Err(invalid(alloc, Place::Lines, text));
    };
    let spelled = format!(in alloc; "{number}")?;
    if spelled.as_str() == text && 1 <= number {
        Ok(number)
    } else {
        Err(invalid(alloc, Place::Lines, text))
    }
}

/// The digest that a word is.
fn sha256(alloc: Global, text: &str) -> Result<Digest, PlanFault>
    ensures digest { IfOk result (IsDigestOf text.now) }
    ensures refused { IfErr result (Refuses (IsDigestOf text.now) (λ line. line ≡ invalid_line place.Sha256 text.now)) }
{
    match Digest::read(text) {
        Some(digest) => Ok(digest),
        None => Err(invalid(alloc, Place::Sha256, text)),
    }
}

impl Choice {
    /// The line that names the option beside `--verify`.
    fn line(self) -> &'static str
        ensures { result.now ≡ choice_line self }
    {
        match self {
            Choice::File => {
                "error: the argument '--file <N>' cannot be used with '--verify <LINES> <SHA256>'\n\nFor more information, try '--help'.\n"
            }
            Choice::Parcel => {
                "error: the argument '--parcel <N>' cannot be used with '--verify <LINES> <SHA256>'\n\nFor more information, try '--help'.\n"
            }
            Choice::Party => {
                "error: the argument '--party <N>' cannot be used with '--verify <LINES> <SHA256>'\n\nFor more information, try '--help'.\n"
            }
            Choice::Since => {
                "error: the argument '--since <DAY>' cannot be used with '--verify <LINES> <SHA256>'\n\nFor more information, try '--help'.\n"
            }
            Choice::Db => {
                "error: the argument '--db <PATH>' cannot be used with '--verify <LINES> <SHA256>'\n\nFor more information, try '--help'.\n"
            }
        }
    }
}

/// An option that chooses entries of a history or names the database beside it, where one is given.
fn chosen(matches: &ArgMatches<'_>) -> Option<Choice>
    ensures given { IfSome result (λ choice. IsSome (first_of (choice_name choice) (rows_of (found_of matches.now)))) }
    ensures none { IfNone result (ChoosesNone (rows_of (found_of matches.now))) }
{
    if value(matches, "file").is_some() {
        Some(Choice::File)
    } else if value(matches, "parcel").is_some() {
        Some(Choice::Parcel)
    } else if value(matches, "party").is_some() {
        Some(Choice::Party)
    } else if value(matches, "since").is_some() {
        Some(Choice::Since)
    } else if value(matches, "db").is_some() {
        Some(Choice::Db)
    } else {
        None
    }
}

/// The lines with which a history is to begin still; no option that chooses entries or names the database is given beside them.
pub(crate) fn verify(
    alloc: Global,
    matches: &ArgMatches<'_>,
) -> Result<Option<VerifyWords>, PlanFault>
    ensures verify { IfOk result (IsVerifyOf (rows_of (found_of matches.now))) }
    ensures refused { IfErr result (Refuses (IsVerifyOf (rows_of (found_of matches.now))) (BlamesVerify (rows_of (found_of matches.now)))) }
{
    let Some(count) = value(matches, "verify") else {
        return Ok(None);
    };
    let Some(digest) = second(matches, "verify") else {
        return Err(bad(
            alloc,
            "error: 2 values required for '--verify <LINES> <SHA256>' but 1 was provided\n\nFor more information, try '--help'.\n",
        ));
    };
    if let Some(choice) = chosen(matches) {
        return Err(bad(alloc, choice.line()));
    }
    Ok(Some(VerifyWords {
        lines: lines(alloc, count)?,
        sha256: sha256(alloc, digest)?,
    }))
}

impl Clash {
    /// The line that names the two words.
    fn line(self) -> &'static str
        ensures { result.now ≡ clash_line self }
    {
        match self {
            Clash::DeadFacts => {
                "error: the argument '--dead' cannot be used with '--facts <FACTS>'\n\nFor more information, try '--help'.\n"
            }
            Clash::DeadAgainst => {
                "error: the argument '--dead' cannot be used with '--against <OLD>'\n\nFor more information, try '--help'.\n"
            }
            Clash::DeadTable => {
                "error: the argument '--dead' cannot be used with '--table'\n\nFor more information, try '--help'.\n"
            }
            Clash::FactsAgainst => {
                "error: the argument '--facts <FACTS>' cannot be used with '--against <OLD>'\n\nFor more information, try '--help'.\n"
            }
            Clash::FactsTable => {
                "error: the argument '--facts <FACTS>' cannot be used with '--table'\n\nFor more information, try '--help'.\n"
            }
            Clash::AgainstTable => {
                "error: the argument '--against <OLD>' cannot be used with '--table'\n\nFor more information, try '--help'.\n"
            }
        }
    }
}

/// What is said of a policy by what is given of four words, or two of them that clash.
fn choice<'a>(
    dead: bool,
    facts: Option<&'a str>,
    against: Option<&'a str>,
    table: bool,
) -> Result<Check<'a>, Clash>
    ensures check { IfOk result (IsCheckBy dead (text_of facts.entry) (text_of against.entry) table) }
    ensures clash { IfErr result (Clashes dead (text_of facts.entry) (text_of against.entry) table) }
{
    match (dead, facts, against, table) {
        (false, None, None, false) => Ok(Check::Rules),
        (true, None, None, false) => Ok(Check::Dead),
        (false, Some(facts), None, false) => Ok(Check::Facts(facts)),
        (false, None, Some(path), false) => Ok(Check::Against(path)),
        (false, None, None, true) => Ok(Check::Table),
        (true, Some(_), _, _) => Err(Clash::DeadFacts),
        (true, None, Some(_), _) => Err(Clash::DeadAgainst),
        (true, None, None, true) => Err(Clash::DeadTable),
        (false, Some(_), Some(_), _) => Err(Clash::FactsAgainst),
        (false, Some(_), None, true) => Err(Clash::FactsTable),
        (false, None, Some(_), true) => Err(Clash::AgainstTable),
    }
}

/// What is said of a policy.
pub(crate) fn check<'a>(alloc: Global, matches: &ArgMatches<'a>) -> Result<Check<'a>, PlanFault>
    ensures check { IfOk result (IsCheckOf (rows_of (found_of matches.now))) }
    ensures refused { IfErr result (Refuses (IsCheckOf (rows_of (found_of matches.now))) (BlamesCheck (rows_of (found_of matches.now)))) }
{
    let dead = is_given(matches, "dead");
    let facts = value(matches, "facts");
    let against = value(matches, "against");
    let table = is_given(matches, "table");
    match choice(dead, facts, against, table) {
        Ok(check) => Ok(check),
        Err(clash) => Err(bad(alloc, clash.line())),
    }
}

/// How a table is written: the two words for it are given only beside `--table`, and not both.
pub(crate) fn form(alloc: Global, matches: &ArgMatches<'_>) -> Result<TableForm, PlanFault>
    ensures form { IfOk result (IsFormOf (rows_of (found_of matches.now))) }
    ensures refused { IfErr result (Refuses (IsFormOf (rows_of (found_of matches.now))) (BlamesForm (rows_of (found_of matches.now)))) }
{
    let table = is_given(matches, "table");
    match (is_given(matches, "csv"), is_given(matches, "markdown")) {
        (false, false) => Ok(TableForm::Columns),
        (true, true) => Err(bad(
            alloc,
            "error: the argument '--csv' cannot be used with '--markdown'\n\nFor more information, try '--help'.\n",
        )),
        (true, false) if table => Ok(TableForm::Csv),
        (false, true) if table => Ok(TableForm::Markdown),
        _ => Err(bad(
            alloc,
            "error: the following required arguments were not provided:\n  --table\n\nFor more information, try '--help'.\n",
        )),
    }
}

/// The files of the office's history, where one is kept: the copy is given only beside the text.
pub(crate) fn paths<'a>(
    alloc: Global,
    matches: &ArgMatches<'a>,
) -> Result<Option<HistoryPaths<'a>>, PlanFault>
    ensures found { IfOk result (ArePathsOf (rows_of (found_of matches.now))) }
    ensures refused { IfErr result (Refuses (ArePathsOf (rows_of (found_of matches.now))) (BlamesPaths (rows_of (found_of matches.now)))) }
{
    match (value(matches, "history"), value(matches, "from")) {
        (Some(text), copy) => Ok(Some(HistoryPaths { text, copy })),
        (None, None) => Ok(None),
        (None, Some(_)) => Err(bad(
            alloc,
            "error: the following required arguments were not provided:\n  --history <PATH>\n\nFor more information, try '--help'.\n",
        )),
    }
}

/// What is said of the history that is kept, by what is given of two words, or none where both are.
fn keeping_by<H: Drop>(history: Option<H>, without: bool) -> Option<Keeping<H>>
    ensures keeping { IfSome result (λ keeping. (named_history keeping ≡ history) × (is_without keeping ≡ without)) }
    ensures both { IfNone result (IsSome history × (without ≡ true)) }
{
    match (history, without) {
        (None, false) => Some(Keeping::Unsaid),
        (None, true) => Some(Keeping::Without),
        (Some(history), false) => Some(Keeping::With(history)),
        (Some(_), true) => None,
    }
}

/// Bad words: a history is named, and none is to be kept.
fn both_said(alloc: Global) -> PlanFault
    ensures { Says two_histories_line result }
{
    bad(
        alloc,
        "error: the argument '--history <PATH>' cannot be used with '--no-history'\n\nFor more information, try '--help'.\n",
    )
}

/// The files of the history that the office keeps, or that none is kept.
pub(crate) fn keeping<'a>(
    alloc: Global,
    matches: &ArgMatches<'a>,
) -> Result<Keeping<HistoryPaths<'a>>, PlanFault>
    ensures found { IfOk result (IsKeepingOf (ArePathsOf (rows_of (found_of matches.now))) (rows_of (found_of matches.now))) }
    ensures refused { IfErr result (Refuses (IsKeepingOf (ArePathsOf (rows_of (found_of matches.now))) (rows_of (found_of matches.now))) (BlamesKeeping (rows_of (found_of matches.now)))) }
{
    let paths = paths(alloc, matches)?;
    match keeping_by(paths, is_given(matches, "no-history")) {
        Some(keeping) => Ok(keeping),
        None => Err(both_said(alloc)),
    }
}

/// The file in which the history of an office begins, or that none is kept.
pub(crate) fn new_keeping<'a>(
    alloc: Global,
    matches: &ArgMatches<'a>,
) -> Result<Keeping<&'a str>, PlanFault>
    ensures found { IfOk result (IsKeepingOf (IsPathOf (rows_of (found_of matches.now))) (rows_of (found_of matches.now))) }
    ensures refused { IfErr result (Refuses (IsKeepingOf (IsPathOf (rows_of (found_of matches.now))) (rows_of (found_of matches.now))) (BlamesBoth (rows_of (found_of matches.now)))) }
{
    match keeping_by(value(matches, "history"), is_given(matches, "no-history")) {
        Some(keeping) => Ok(keeping),
        None => Err(both_said(alloc)),
    }
}
