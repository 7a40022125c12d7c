//! The statements of a change, written down with parameters of their own.

ghost use Rattle.std.specs.Prelude.{◌≡◌, [], ◌∷◌, IfOk, map};
ghost use Rattle.sqlite.specs.Values.{bound, bound_value};
ghost use Rattle.permit_sql_statements.specs.Written.{Writes, written_in};

use permit_store::store::{Got, StoreError};
use sqlite_value::row::Row;
use sqlite_value::value::ValueRef;
use std::alloc::{AllocError, Global};

/// A statement that is written down.
#[derive(Drop)]
pub struct Written {
    pub(crate) text: &'static str,
    pub(crate) params: Row,
}

/// The statements of a change, which are not run yet.
#[derive(Drop)]
pub struct Step {
    alloc: Global,
    pub(crate) statements: Vec<Written>,
}

/// Parameters as a row of their own.
fn row_of(alloc: Global, params: &[ValueRef<'_>]) -> Result<Row, AllocError>
    ensures { IfOk result (λ row. map bound_value row ≡ bound params.now) }
{
    let mut row = Row::new(alloc);
    'params: for value in params {
        row.push(*value)?;
    }
    Ok(row)
}

impl Step {
    /// No statement.
    pub(crate) fn new(alloc: Global) -> Step
        ensures { written_in result ≡ [] }
    {
        Step {
            alloc,
            statements: Vec::new(alloc),
        }
    }

    /// Writes one more statement down. It fails only where memory is refused.
    pub(crate) fn add(&mut self, text: &'static str, params: &[ValueRef<'_>]) -> Got<()>
        ensures { Writes ((text.now, bound params.now) ∷ []) self.old self.new result }
    {
        let Ok(params) = row_of(self.alloc, params) else {
            return Err(StoreError);
        };
        match self.statements.push(Written { text, params }) {
            Ok(()) => Ok(()),
            Err(_) => Err(StoreError),
        }
    }
}
