//! What an office is asked, made of the words of a plan.

ghost use Rattle.std.specs.Prelude.{IfErr, IfOk};
ghost use Rattle.permit_subcommands.specs.Requests.{IsRefusedFor};
ghost use Rattle.permit_database.specs.Asked.{AsksFiles, AsksImport, AsksRegister, AsksRequest, IsRefusedCaller};

use permit_args::plan::{ActWords, ImportWords, ListWords, RegisterWords};
use permit_base::request::Filter;
use permit_base::values::Token;
use permit_base::words::RegisterKind;
use permit_subcommands::failure::Failure;
use permit_subcommands::listing::filter_of;
use permit_subcommands::request::{caller, request};
use std::alloc::Global;

/// What an office is asked.
#[derive(Drop)]
pub enum Question<'a, R: Drop> {
    /// To serve the request of these bytes.
    Serve {
        request: String,
    },
    /// To list files for the caller of the token.
    List {
        token: Token,
        filter: Filter,
    },
    /// To write a register for the caller of the token.
    Register {
        token: Token,
        kind: RegisterKind,
    },
    /// To import the records that a reader of the file at the path gives, for the caller of the token, and to say on standard error
    /// what is wrong with a record that is refused, where that is asked for.
    Import {
        token: Token,
        path: &'a str,
        records: R,
        why: bool,
    },
}

impl<'a, R: Drop> Question<'a, R> {
    /// The request that the words of `act` make, for the caller of the token.
    pub fn of_act(
        alloc: Global,
        words: &ActWords<'_>,
        token: &str,
    ) -> Result<Question<'a, R>, Failure>
        ensures asks { IfOk result (AsksRequest words.now token.now) }
        ensures refused { IfErr result (IsRefusedFor words.now token.now) }
    {
        let request = request(alloc, words, token)?;
        Ok(Question::Serve { request })
    }

    /// The files that the words of `list` ask for, for the caller of the token.
    pub fn of_list(
        alloc: Global,
        words: &ListWords<'_>,
        token: &str,
    ) -> Result<Question<'a, R>, Failure>
        ensures asks { IfOk result (AsksFiles words.now token.now) }
        ensures refused { IfErr result (IsRefusedCaller token.now) }
    {
        let token = caller(alloc, token)?;
        Ok(Question::List {
            token,
            filter: filter_of(words.stage),
        })
    }

    /// The register that the words of `register` ask for, for the caller of the token.
    pub fn of_register(
        alloc: Global,
        words: &RegisterWords<'_>,
        token: &str,
    ) -> Result<Question<'a, R>, Failure>
        ensures asks { IfOk result (AsksRegister words.now token.now) }
        ensures refused { IfErr result (IsRefusedCaller token.now) }
    {
        let token = caller(alloc, token)?;
        Ok(Question::Register {
            token,
            kind: words.kind,
        })
    }

    /// The import that the words of `import` ask for, of the records that a reader gives.
    pub fn of_import(words: &ImportWords<'a>, token: Token, records: R) -> Question<'a, R>
        ensures { AsksImport words.now token records result }
    {
        Question::Import {
            token,
            path: words.file,
            records,
            why: words.office.why,
        }
    }
}
