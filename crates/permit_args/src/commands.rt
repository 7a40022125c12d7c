//! The subcommands, as they are declared to the command line library.

ghost use Rattle.std.specs.Prelude.{◌≡◌, IfOk, Some, codes, false};
ghost use Rattle.clap.specs.Words.{App, Rule, new_app, rule_of, with_rule, with_subcommand};
ghost use Rattle.permit_args.specs.Commands.{Extends, IsCommandOf};
ghost use Rattle.permit_args.specs.Plans.{act_app, asking_app, bare_app, begin_history_app, check_db_app, check_policy_app, flag, history_app, import_app, init_app, list_app, optional_option, optional_word, pair_option, upgrade_app};
ghost use Rattle.permit_args.specs.Plans.{program_app, reader_of, register_app, renew_token_app, replay_app, required_option, required_word, serve_app, serving_app};
ghost use Rattle.permit_args.specs.Plans.{with_copy, with_days, with_history, with_keeping, with_no_history, with_office, with_paths, with_token, with_why};

use crate::plan::Subcommand;
use clap::{Arg, ArgAction, Command};
use std::alloc::{AllocError, Global};

/// What `--version` prints after the program's name: its version, and that of the tables.
const VERSION: &str = "2.0 (schema 2)";

/// A command as far as it is declared, or that there was no memory for it.
#[derive(Drop)]
struct Declaration<'a> {
    alloc: Global,
    command: Result<Command<'a>, AllocError>,
}

/// A word by its place or an option, which takes a value and may be left out.
fn valued<'a>(alloc: Global, name: &'a str, value: &'a str, help: &'a str) -> Arg<'a>
    ensures rule { rule_of result ≡ optional_word name.now }
    ensures own { result.global ≡ false }
{
    Arg::new(alloc, name)
        .value_name(value)
        .help(help)
        .action(ArgAction::Set)
}

/// The command with one argument more.
fn with_arg<'a>(
    command: Result<Command<'a>, AllocError>,
    arg: Arg<'a>,
) -> Result<Command<'a>, AllocError>
    ensures { (rule : Rule) → arg.entry.global ≡ false → rule_of arg.entry ≡ rule → Extends (λ app. with_rule app rule) command.entry result }
{
    command?.arg(arg)
}

/// The command with one subcommand more.
fn with_subcommand<'a>(
    command: Result<Command<'a>, AllocError>,
    subcommand: Result<Command<'a>, AllocError>,
) -> Result<Command<'a>, AllocError>
    ensures { (sub : App) → IfOk subcommand.entry (IsCommandOf sub) → Extends (λ app. with_subcommand app sub.top) command.entry result }
{
    command?.subcommand(subcommand?)
}

impl<'a> Declaration<'a> {
    /// The subcommand of this name, whose usage names the program too, and whose help says what it does and shows an example.
    fn new(
        alloc: Global,
        name: &'a str,
        usage: &str,
        about: &'a str,
        example: &'a str,
    ) -> Declaration<'a>
        ensures { IfOk result.command (IsCommandOf (new_app name.now)) }
    {
        let command = Command::new(alloc, name).about(about).after_help(example);
        Declaration {
            alloc,
            command: command.bin_name(usage),
        }
    }

    /// The program without its subcommands.
    fn bare(alloc: Global) -> Declaration<'a>
        ensures { IfOk result.command (IsCommandOf bare_app) }
    {
        let command = Command::new(alloc, "permit")
            .about("A city's building permits and inspections")
            .version(VERSION)
            .no_binary_name(true)
            .subcommand_required(true);
        Declaration {
            alloc,
            command: command.bin_name("permit"),
        }
    }

    /// Adds an argument.
    fn arg(self, arg: Arg<'a>) -> Declaration<'a>
        ensures { (rule : Rule) → arg.entry.global ≡ false → rule_of arg.entry ≡ rule → Extends (λ app. with_rule app rule) self.entry.command result.command }
    {
        Declaration {
            alloc: self.alloc,
            command: with_arg(self.command, arg),
        }
    }

    /// Adds a subcommand.
    fn subcommand(self, subcommand: Result<Command<'a>, AllocError>) -> Declaration<'a>
        ensures { (sub : App) → IfOk subcommand.entry (IsCommandOf sub) → Extends (λ app. with_subcommand app sub.top) self.entry.command result.command }
    {
        Declaration {
            alloc: self.alloc,
            command: with_subcommand(self.command, subcommand),
        }
    }

    /// Adds a word by its place, which may be left out.
    fn word(self, name: &'a str, value: &'a str, help: &'a str) -> Declaration<'a>
        ensures { Extends (λ app. with_rule app (optional_word name.now)) self.entry.command result.command }
    {
        let word = valued(self.alloc, name, value, help);
        self.arg(word)
    }

    /// Adds a word by its place, which has to be there.
    fn required_word(self, name: &'a str, value: &'a str, help: &'a str) -> Declaration<'a>
        ensures { Extends (λ app. with_rule app (required_word name.now)) self.entry.command result.command }
    {
        let word = valued(self.alloc, name, value, help).required(true);
        self.arg(word)
    }

    /// Adds an option, `--NAME VALUE`, which may be left out.
    fn option(self, name: &'a str, value: &'a str, help: &'a str) -> Declaration<'a>
        ensures { Extends (λ app. with_rule app (optional_option name.now)) self.entry.command result.command }
    {
        let option = valued(self.alloc, name, value, help).long(name);
        self.arg(option)
    }

    /// Adds an option, `--NAME VALUE`, which has to be there.
    fn required_option(self, name: &'a str, value: &'a str, help: &'a str) -> Declaration<'a>
        ensures { Extends (λ app. with_rule app (required_option name.now)) self.entry.command result.command }
    {
        let option = valued(self.alloc, name, value, help)
            .long(name)
            .required(true);
        self.arg(option)
    }

    /// Adds an option that takes two values, `--NAME ONE OTHER`, and may be left out.
    fn pair(self, name: &'a str, values: &'a [&'a str; 2], help: &'a str) -> Declaration<'a>
        ensures { Extends (λ app. with_rule app (pair_option name.now)) self.entry.command result.command }
    {
        let pair = Arg::new(self.alloc, name)
            .long(name)
            .value_names(values)
            .help(help)
            .action(ArgAction::Set);
        self.arg(pair)
    }

    /// Adds an option that takes no value.
    fn flag(self, name: &'a str, help: &'a str) -> Declaration<'a>
        ensures { Extends (λ app. with_rule app (flag name.now)) self.entry.command result.command }
    {
        let flag = Arg::new(self.alloc, name)
            .long(name)
            .help(help)
            .action(ArgAction::SetTrue);
        self.arg(flag)
    }

    /// Adds the option for the database's path.
    fn database(self) -> Declaration<'a>
        ensures { Extends (λ app. with_rule app (required_option (codes "db"))) self.entry.command result.command }
    {
        self.required_option("db", "DB", "The database's path")
    }

    /// Adds the option for the policy's path.
    fn policy(self) -> Declaration<'a>
        ensures { Extends (λ app. with_rule app (required_option (codes "policy"))) self.entry.command result.command }
    {
        self.required_option("policy", "POLICY", "The policy's path")
    }

    /// Adds the option for which failures are explained.
    fn why(self) -> Declaration<'a>
        ensures { Extends with_why self.entry.command result.command }
    {
        self.flag("why", "On a failure, says in one more line what is wrong")
    }

    /// Adds the option for the file of the office's history.
    fn history(self) -> Declaration<'a>
        ensures { Extends with_history self.entry.command result.command }
    {
        self.option(
            "history",
            "PATH",
            "The path of a file in which the office's history is kept",
        )
    }

    /// Adds the option for the copy of the database with which a history begins.
    fn copy(self) -> Declaration<'a>
        ensures { Extends with_copy self.entry.command result.command }
    {
        self.option(
            "from",
            "COPY",
            "The path of the copy of the database that was made when the history was begun by begin-history",
        )
    }

    /// Adds the options for the files of the office's history.
    fn paths(self) -> Declaration<'a>
        ensures { Extends with_paths self.entry.command result.command }
    {
        self.history().copy()
    }

    /// Adds the option for which the office is used without a history.
    fn no_history(self) -> Declaration<'a>
        ensures { Extends with_no_history self.entry.command result.command }
    {
        self.flag(
            "no-history",
            "Uses the office without the history that lies beside its database",
        )
    }

    /// Adds the options for the history that the office keeps, or for none.
    fn keeping(self) -> Declaration<'a>
        ensures { Extends with_keeping self.entry.command result.command }
    {
        self.paths().no_history()
    }

    /// Adds the options for the day.
    fn days(self) -> Declaration<'a>
        ensures { Extends with_days self.entry.command result.command }
    {
        self.option(
            "day",
            "DAY",
            "The day, as YYYY-MM-DD, in place of the clock's",
        )
        .option(
            "zone",
            "ZONE",
            "The clock's zone, as a POSIX rule; UTC0 without it",
        )
    }

    /// Adds the options for a token.
    fn token(self) -> Declaration<'a>
        ensures { Extends with_token self.entry.command result.command }
    {
        self.option(
            "token",
            "TOKEN",
            "The token, unless --token-file is given; other users of the machine can see it",
        )
        .option(
            "token-file",
            "PATH",
            "The path of a file whose first line is the token; - is standard input",
        )
    }

    /// Adds the options for the office that is asked.
    fn office(self) -> Declaration<'a>
        ensures { Extends with_office self.entry.command result.command }
    {
        self.database().policy().token().days().why()
    }
}

/// The subcommand that reads a policy.
fn check_policy<'a>(alloc: Global) -> Result<Command<'a>, AllocError>
    ensures { IfOk result (IsCommandOf check_policy_app) }
{
    Declaration::new(
        alloc,
        "check-policy",
        "permit check-policy",
        "Reads a policy and says how many rules it has, which of them are dead, how it decides, what it changes, or who may do what",
        "Example: permit check-policy --policy new.toml --against policy.toml",
    )
    .policy()
    .flag(
        "dead",
        "Names the rules that decide for no facts, in their order",
    )
    .option(
        "facts",
        "FACTS",
        "Tells how the policy decides: ROLE,RELATIONS,ACTION,STAGE,STOPPED,TIMING, where RELATIONS are joined by + or - for none, and STOPPED is yes or no",
    )
    .option(
        "against",
        "OLD",
        "Tells what the policy opens and closes beside the one at this path",
    )
    .flag(
        "table",
        "Tells who may do what: a row for each action, a column for each role",
    )
    .flag("csv", "Writes the table as comma-separated values")
    .flag("markdown", "Writes the table for a page")
    .why()
    .command
}

/// The subcommand that founds an office.
fn init<'a>(alloc: Global) -> Result<Command<'a>, AllocError>
    ensures { IfOk result (IsCommandOf init_app) }
{
    Declaration::new(
        alloc,
        "init",
        "permit init",
        "Founds an office in a database, with its first official, who has the token",
        "Example: permit init --db office.db --name Chief --token-file chief.token",
    )
    .database()
    .required_option("name", "NAME", "The first official's name")
    .token()
    .days()
    .history()
    .why()
    .command
}

/// The subcommand that has the office serve one request.
fn act<'a>(alloc: Global) -> Result<Command<'a>, AllocError>
    ensures { IfOk result (IsCommandOf act_app) }
{
    Declaration::new(
        alloc,
        "act",
        "permit act",
        "Has the office serve one request, and prints the answer's body",
        "Example: permit act GET /files/1 --db office.db --policy policy.toml --token-file caller.token",
    )
    .office()
    .keeping()
    .required_word("method", "METHOD", "The request's method")
    .required_word("path", "PATH", "The request's path")
    .word("body", "BODY", "The request's body, in JSON")
    .command
}

/// The subcommand that lists files.
fn list<'a>(alloc: Global) -> Result<Command<'a>, AllocError>
    ensures { IfOk result (IsCommandOf list_app) }
{
    Declaration::new(
        alloc,
        "list",
        "permit list",
        "Prints the numbers of the files that the caller may list, one a line, and how many rows were read for them",
        "Example: permit list --stage review --db office.db --policy policy.toml --token-file caller.token",
    )
    .office()
    .option(
        "stage",
        "STAGE",
        "Only the files in this stage: filed, review, returned, approved, rejected, issued, working, revoked, finaled, certified, abandoned or lapsed",
    )
    .command
}

/// The subcommand that writes a register.
fn register<'a>(alloc: Global) -> Result<Command<'a>, AllocError>
    ensures { IfOk result (IsCommandOf register_app) }
{
    Declaration::new(
        alloc,
        "register",
        "permit register",
        "Prints a register of the files that the caller may list",
        "Example: permit register deadlines --db office.db --policy policy.toml --token-file caller.token",
    )
    .office()
    .required_word(
        "name",
        "NAME",
        "The register: files, deadlines or inspections",
    )
    .command
}

/// The subcommand that imports parcels.
fn import<'a>(alloc: Global) -> Result<Command<'a>, AllocError>
    ensures { IfOk result (IsCommandOf import_app) }
{
    Declaration::new(
        alloc,
        "import",
        "permit import",
        "Adds the parcels of a file of comma-separated records, and says of each record what became of it",
        "Example: permit import parcels.csv --db office.db --policy policy.toml --token-file caller.token",
    )
    .office()
    .keeping()
    .required_word(
        "file",
        "FILE",
        "The records' path; the first record is lot,address,owner",
    )
    .command
}

/// The subcommand that serves the office.
fn serve<'a>(alloc: Global) -> Result<Command<'a>, AllocError>
    ensures { IfOk result (IsCommandOf serve_app) }
{
    Declaration::new(
        alloc,
        "serve",
        "permit serve",
        "Serves the office's HTTP requests on an address, until it is stopped",
        "Example: permit serve --listen 127.0.0.1:8080 --db office.db --policy policy.toml",
    )
    .database()
    .policy()
    .days()
    .keeping()
    .required_option(
        "listen",
        "LISTEN",
        "The address to listen on, as 127.0.0.1:8080; port 0 takes a free one",
    )
    .option(
        "workers",
        "WORKERS",
        "How many connections are served at once, 1 to 8; 4 without it",
    )
    .option(
        "connections",
        "CONNECTIONS",
        "After how many connections a worker ends, 1 to 99999; never without it",
    )
    .why()
    .command
}

/// The subcommand that says whether a database's tables are sound.
fn check_db<'a>(alloc: Global) -> Result<Command<'a>, AllocError>
    ensures { IfOk result (IsCommandOf check_db_app) }
{
    Declaration::new(
        alloc,
        "check-db",
        "permit check-db",
        "Says whether the tables of a database are sound, and how many parties, parcels and files there are; with --why also the first place that is wrong; changes nothing",
        "Example: permit check-db --db office.db",
    )
    .database()
    .option(
        "history",
        "PATH",
        "The path of a file whose history the tables are to be those of",
    )
    .copy()
    .why()
    .command
}

/// The subcommand that upgrades a database.
fn upgrade<'a>(alloc: Global) -> Result<Command<'a>, AllocError>
    ensures { IfOk result (IsCommandOf upgrade_app) }
{
    Declaration::new(
        alloc,
        "upgrade",
        "permit upgrade",
        "Makes of a database of schema version 1 one of version 2, whole or not at all; there is no way back but a backup",
        "Example: permit upgrade --db office.db",
    )
    .database()
    .option(
        "history",
        "PATH",
        "The path of a new file, in which the office's history is kept from then on",
    )
    .no_history()
    .why()
    .command
}

/// The subcommand that replaces a party's token.
fn renew_token<'a>(alloc: Global) -> Result<Command<'a>, AllocError>
    ensures { IfOk result (IsCommandOf renew_token_app) }
{
    Declaration::new(
        alloc,
        "renew-token",
        "permit renew-token",
        "Gives a party of a closed office a new token, whole or not at all; the old one is nobody's then",
        "Example: permit renew-token --db office.db --party 2 --token-file new.token",
    )
    .database()
    .required_option("party", "N", "The party's number, 1 to 99999")
    .token()
    .keeping()
    .why()
    .command
}

/// The subcommand that prints the entries of a history.
fn history<'a>(alloc: Global) -> Result<Command<'a>, AllocError>
    ensures { IfOk result (IsCommandOf history_app) }
{
    Declaration::new(
        alloc,
        "history",
        "permit history",
        "Prints the entries of an office's history, a line each",
        "Example: permit history --history office.history --file 1",
    )
    .required_option("history", "PATH", "The path of a file that has the history")
    .option("file", "N", "Only what was done to this file, 1 to 99999")
    .option(
        "parcel",
        "N",
        "Only what was done to this parcel, 1 to 99999",
    )
    .option(
        "party",
        "N",
        "Only what this party did, or what names it, 1 to 99999",
    )
    .option(
        "since",
        "DAY",
        "Only what was done from this day on, as YYYY-MM-DD",
    )
    .option(
        "db",
        "PATH",
        "The path of the database: how many of the last commands its tables lack is said on standard error",
    )
    .pair(
        "verify",
        &["LINES", "SHA256"],
        "Says whether the first LINES lines still have this SHA-256, as check-db printed it",
    )
    .why()
    .command
}

/// The subcommand that makes an office of a history, or brings one further to it.
fn replay<'a>(alloc: Global) -> Result<Command<'a>, AllocError>
    ensures { IfOk result (IsCommandOf replay_app) }
{
    Declaration::new(
        alloc,
        "replay",
        "permit replay",
        "Makes an office in a database of the history of another, or brings one further that is at a beginning of it",
        "Example: permit replay --history office.history --db standby.db",
    )
    .database()
    .required_option("history", "PATH", "The path of a file that has the history")
    .copy()
    .flag(
        "settled",
        "Replays the last line too, for a machine that takes over; else it is left out, since it alone may still be taken back",
    )
    .why()
    .command
}

/// The subcommand that begins the history of an office.
fn begin_history<'a>(alloc: Global) -> Result<Command<'a>, AllocError>
    ensures { IfOk result (IsCommandOf begin_history_app) }
{
    Declaration::new(
        alloc,
        "begin-history",
        "permit begin-history",
        "Begins the history of an office that has none, or a new file of it; the tables are to be copied before anything else is done",
        "Example: permit begin-history --db office.db --history office.history",
    )
    .database()
    .required_option(
        "history",
        "PATH",
        "The path of a new file, in which the office's history is kept from now on",
    )
    .why()
    .command
}

/// The command of a subcommand.
pub(crate) fn command<'a>(alloc: Global, named: Subcommand) -> Result<Command<'a>, AllocError>
    ensures { IfOk result (IsCommandOf (reader_of (Some named))) }
{
    match named {
        Subcommand::CheckPolicy => check_policy(alloc),
        Subcommand::Init => init(alloc),
        Subcommand::Act => act(alloc),
        Subcommand::List => list(alloc),
        Subcommand::Register => register(alloc),
        Subcommand::Import => import(alloc),
        Subcommand::Serve => serve(alloc),
        Subcommand::Upgrade => upgrade(alloc),
        Subcommand::CheckDb => check_db(alloc),
        Subcommand::RenewToken => renew_token(alloc),
        Subcommand::History => history(alloc),
        Subcommand::Replay => replay(alloc),
        Subcommand::BeginHistory => begin_history(alloc),
    }
}

/// The program with the subcommands that read a policy, found an office and ask it.
fn asking_program<'a>(alloc: Global) -> Declaration<'a>
    ensures { IfOk result.command (IsCommandOf asking_app) }
{
    Declaration::bare(alloc)
        .subcommand(check_policy(alloc))
        .subcommand(init(alloc))
        .subcommand(act(alloc))
        .subcommand(list(alloc))
        .subcommand(register(alloc))
}

/// The program with the subcommands that bring in parcels, serve an office and look after its database too.
fn serving_program<'a>(alloc: Global) -> Declaration<'a>
    ensures { IfOk result.command (IsCommandOf serving_app) }
{
    asking_program(alloc)
        .subcommand(import(alloc))
        .subcommand(serve(alloc))
        .subcommand(upgrade(alloc))
        .subcommand(check_db(alloc))
}

/// The program with all its subcommands, for help and for words that begin with none of them.
pub(crate) fn program<'a>(alloc: Global) -> Result<Command<'a>, AllocError>
    ensures { IfOk result (IsCommandOf program_app) }
{
    serving_program(alloc)
        .subcommand(renew_token(alloc))
        .subcommand(history(alloc))
        .subcommand(replay(alloc))
        .subcommand(begin_history(alloc))
        .command
}
