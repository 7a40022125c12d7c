//! What each subcommand finds in its options and words.

ghost use Rattle.std.specs.Prelude.{IfErr, IfOk, Some};
ghost use Rattle.clap.specs.Words.{found_of, rows_of};
ghost use Rattle.permit_args.specs.Blames.{Blames};
ghost use Rattle.permit_args.specs.Faults.{Refuses};
ghost use Rattle.permit_args.specs.Plans.{IsActOf, IsBeginningOf, IsCheckDbOf, IsCheckPolicyOf, IsHistoryOf, IsImportOf, IsInitOf, IsListOf, IsRegisterOf, IsRenewalOf, IsReplayOf, IsServeOf, IsUpgradeOf};
ghost use Rattle.permit_args.specs.declared.plan.Subcommand.TheVariants as subcommand;

use crate::found::{
    check, connections, days, form, is_given, keeping, kind, new_keeping, number, office, paths,
    record, required, stage, token, value, verify, workers,
};
use crate::places::RecordKind;
use crate::plan::{
    ActWords, BeginHistoryWords, CheckDbWords, CheckPolicyWords, HistoryPaths, HistoryWords,
    ImportWords, InitWords, ListWords, PlanFault, RegisterWords, RenewTokenWords, ReplayWords,
    ServeWords, UpgradeWords,
};
use clap::ArgMatches;
use std::alloc::Global;

/// What `check-policy` finds.
pub(crate) fn check_policy<'a>(
    alloc: Global,
    matches: &ArgMatches<'a>,
) -> Result<CheckPolicyWords<'a>, PlanFault>
    ensures found { IfOk result (IsCheckPolicyOf (rows_of (found_of matches.now))) }
    ensures refused { IfErr result (Refuses (IsCheckPolicyOf (rows_of (found_of matches.now))) (Blames (Some subcommand.CheckPolicy) (rows_of (found_of matches.now)))) }
{
    Ok(CheckPolicyWords {
        policy: required(alloc, matches, "policy")?,
        check: check(alloc, matches)?,
        form: form(alloc, matches)?,
        why: is_given(matches, "why"),
    })
}

/// What `init` finds.
pub(crate) fn init<'a>(alloc: Global, matches: &ArgMatches<'a>) -> Result<InitWords<'a>, PlanFault>
    ensures found { IfOk result (IsInitOf (rows_of (found_of matches.now))) }
    ensures refused { IfErr result (Refuses (IsInitOf (rows_of (found_of matches.now))) (Blames (Some subcommand.Init) (rows_of (found_of matches.now)))) }
{
    Ok(InitWords {
        db: required(alloc, matches, "db")?,
        name: required(alloc, matches, "name")?,
        token: token(alloc, matches)?,
        days: days(matches),
        history: value(matches, "history"),
        why: is_given(matches, "why"),
    })
}

/// What `act` finds.
pub(crate) fn act<'a>(alloc: Global, matches: &ArgMatches<'a>) -> Result<ActWords<'a>, PlanFault>
    ensures found { IfOk result (IsActOf (rows_of (found_of matches.now))) }
    ensures refused { IfErr result (Refuses (IsActOf (rows_of (found_of matches.now))) (Blames (Some subcommand.Act) (rows_of (found_of matches.now)))) }
{
    Ok(ActWords {
        office: office(alloc, matches)?,
        history: keeping(alloc, matches)?,
        method: required(alloc, matches, "method")?,
        path: required(alloc, matches, "path")?,
        body: value(matches, "body"),
    })
}

/// What `list` finds.
pub(crate) fn list<'a>(alloc: Global, matches: &ArgMatches<'a>) -> Result<ListWords<'a>, PlanFault>
    ensures found { IfOk result (IsListOf (rows_of (found_of matches.now))) }
    ensures refused { IfErr result (Refuses (IsListOf (rows_of (found_of matches.now))) (Blames (Some subcommand.List) (rows_of (found_of matches.now)))) }
{
    Ok(ListWords {
        office: office(alloc, matches)?,
        stage: stage(alloc, matches)?,
    })
}

/// What `register` finds.
pub(crate) fn register<'a>(
    alloc: Global,
    matches: &ArgMatches<'a>,
) -> Result<RegisterWords<'a>, PlanFault>
    ensures found { IfOk result (IsRegisterOf (rows_of (found_of matches.now))) }
    ensures refused { IfErr result (Refuses (IsRegisterOf (rows_of (found_of matches.now))) (Blames (Some subcommand.Register) (rows_of (found_of matches.now)))) }
{
    let name = required(alloc, matches, "name")?;
    Ok(RegisterWords {
        office: office(alloc, matches)?,
        kind: kind(alloc, name)?,
    })
}

/// What `import` finds.
pub(crate) fn import<'a>(
    alloc: Global,
    matches: &ArgMatches<'a>,
) -> Result<ImportWords<'a>, PlanFault>
    ensures found { IfOk result (IsImportOf (rows_of (found_of matches.now))) }
    ensures refused { IfErr result (Refuses (IsImportOf (rows_of (found_of matches.now))) (Blames (Some subcommand.Import) (rows_of (found_of matches.now)))) }
{
    Ok(ImportWords {
        office: office(alloc, matches)?,
        history: keeping(alloc, matches)?,
        file: required(alloc, matches, "file")?,
    })
}

/// What `serve` finds.
pub(crate) fn serve<'a>(
    alloc: Global,
    matches: &ArgMatches<'a>,
) -> Result<ServeWords<'a>, PlanFault>
    ensures found { IfOk result (IsServeOf (rows_of (found_of matches.now))) }
    ensures refused { IfErr result (Refuses (IsServeOf (rows_of (found_of matches.now))) (Blames (Some subcommand.Serve) (rows_of (found_of matches.now)))) }
{
    Ok(ServeWords {
        db: required(alloc, matches, "db")?,
        policy: required(alloc, matches, "policy")?,
        days: days(matches),
        history: keeping(alloc, matches)?,
        listen: required(alloc, matches, "listen")?,
        workers: workers(alloc, matches)?,
        connections: connections(alloc, matches)?,
        why: is_given(matches, "why"),
    })
}

/// What `upgrade` finds.
pub(crate) fn upgrade<'a>(
    alloc: Global,
    matches: &ArgMatches<'a>,
) -> Result<UpgradeWords<'a>, PlanFault>
    ensures found { IfOk result (IsUpgradeOf (rows_of (found_of matches.now))) }
    ensures refused { IfErr result (Refuses (IsUpgradeOf (rows_of (found_of matches.now))) (Blames (Some subcommand.Upgrade) (rows_of (found_of matches.now)))) }
{
    Ok(UpgradeWords {
        db: required(alloc, matches, "db")?,
        history: new_keeping(alloc, matches)?,
        why: is_given(matches, "why"),
    })
}

/// What `check-db` finds.
pub(crate) fn check_db<'a>(
    alloc: Global,
    matches: &ArgMatches<'a>,
) -> Result<CheckDbWords<'a>, PlanFault>
    ensures found { IfOk result (IsCheckDbOf (rows_of (found_of matches.now))) }
    ensures refused { IfErr result (Refuses (IsCheckDbOf (rows_of (found_of matches.now))) (Blames (Some subcommand.CheckDb) (rows_of (found_of matches.now)))) }
{
    Ok(CheckDbWords {
        db: required(alloc, matches, "db")?,
        history: paths(alloc, matches)?,
        why: is_given(matches, "why"),
    })
}

/// What `renew-token` finds.
pub(crate) fn renew_token<'a>(
    alloc: Global,
    matches: &ArgMatches<'a>,
) -> Result<RenewTokenWords<'a>, PlanFault>
    ensures found { IfOk result (IsRenewalOf (rows_of (found_of matches.now))) }
    ensures refused { IfErr result (Refuses (IsRenewalOf (rows_of (found_of matches.now))) (Blames (Some subcommand.RenewToken) (rows_of (found_of matches.now)))) }
{
    let text = required(alloc, matches, "party")?;
    Ok(RenewTokenWords {
        db: required(alloc, matches, "db")?,
        party: number(alloc, text, RecordKind::Party)?,
        token: token(alloc, matches)?,
        history: keeping(alloc, matches)?,
        why: is_given(matches, "why"),
    })
}

/// What `history` finds.
pub(crate) fn history<'a>(
    alloc: Global,
    matches: &ArgMatches<'a>,
) -> Result<HistoryWords<'a>, PlanFault>
    ensures found { IfOk result (IsHistoryOf (rows_of (found_of matches.now))) }
    ensures refused { IfErr result (Refuses (IsHistoryOf (rows_of (found_of matches.now))) (Blames (Some subcommand.History) (rows_of (found_of matches.now)))) }
{
    Ok(HistoryWords {
        history: required(alloc, matches, "history")?,
        file: record(alloc, matches, RecordKind::File)?,
        parcel: record(alloc, matches, RecordKind::Parcel)?,
        party: record(alloc, matches, RecordKind::Party)?,
        since: value(matches, "since"),
        db: value(matches, "db"),
        verify: verify(alloc, matches)?,
        why: is_given(matches, "why"),
    })
}

/// What `replay` finds.
pub(crate) fn replay<'a>(
    alloc: Global,
    matches: &ArgMatches<'a>,
) -> Result<ReplayWords<'a>, PlanFault>
    ensures found { IfOk result (IsReplayOf (rows_of (found_of matches.now))) }
    ensures refused { IfErr result (Refuses (IsReplayOf (rows_of (found_of matches.now))) (Blames (Some subcommand.Replay) (rows_of (found_of matches.now)))) }
{
    Ok(ReplayWords {
        db: required(alloc, matches, "db")?,
        history: HistoryPaths {
            text: required(alloc, matches, "history")?,
            copy: value(matches, "from"),
        },
        settled: is_given(matches, "settled"),
        why: is_given(matches, "why"),
    })
}

/// What `begin-history` finds.
pub(crate) fn begin_history<'a>(
    alloc: Global,
    matches: &ArgMatches<'a>,
) -> Result<BeginHistoryWords<'a>, PlanFault>
    ensures found { IfOk result (IsBeginningOf (rows_of (found_of matches.now))) }
    ensures refused { IfErr result (Refuses (IsBeginningOf (rows_of (found_of matches.now))) (Blames (Some subcommand.BeginHistory) (rows_of (found_of matches.now)))) }
{
    Ok(BeginHistoryWords {
        db: required(alloc, matches, "db")?,
        history: required(alloc, matches, "history")?,
        why: is_given(matches, "why"),
    })
}
