//! Running what is written down.

ghost use Rattle.std.specs.Prelude.{◌≡◌, ◌++◌, IfOk, OnOk, map};
ghost use Rattle.std.specs.List.{flat_map};
ghost use Rattle.sqlite.specs.Values.{bound, bound_value};
ghost use Rattle.permit_sql_statements.specs.Frames.{IsRun};
ghost use Rattle.permit_sql_statements.specs.TextAndParams.{text_and_params};
ghost use Rattle.permit_sql_statements.specs.Written.{lent, written_in};

use crate::idle::Idle;
use crate::runs::run;
use crate::statements::Statement;
use crate::step::Step;
use permit_store::store::{Got, StoreError};
use sqlite::Alter;
use sqlite_value::row::Row;
use sqlite_value::value::ValueRef;
use std::alloc::{AllocError, Global};

/// A statement that is written down, with its parameters lent.
#[derive(Drop)]
pub struct Lent<'a> {
    text: &'static str,
    params: Vec<ValueRef<'a>>,
}

/// The values of a row.
fn lent_params(alloc: Global, params: &Row) -> Result<Vec<ValueRef<'_>>, AllocError>
    ensures { IfOk result (λ values. bound values.items ≡ map bound_value params.now) }
{
    let mut values = Vec::new(alloc);
    'params: for at in 0..params.len() {
        values.push(params.get(at))?;
    }
    Ok(values)
}

/// Adds the statements of a step.
fn lend_step<'a>(alloc: Global, all: &mut Vec<Lent<'a>>, step: &'a Step) -> Result<(), AllocError>
    ensures { OnOk result (map lent all.new.items ≡ map lent all.old.items ++ written_in step.now) }
{
    'statements: for statement in &step.statements {
        let params = lent_params(alloc, &statement.params)?;
        all.push(Lent {
            text: statement.text,
            params,
        })?;
    }
    Ok(())
}

/// The statements of all steps.
fn lend<'a>(alloc: Global, steps: &'a [Step]) -> Result<Vec<Lent<'a>>, AllocError>
    ensures { IfOk result (λ all. map lent all.items ≡ flat_map written_in steps.now) }
{
    let mut all = Vec::new(alloc);
    'steps: for step in steps {
        lend_step(alloc, &mut all, step)?;
    }
    Ok(all)
}

/// The statements as a transaction takes them.
fn stated<'a>(alloc: Global, all: &'a [Lent<'a>]) -> Result<Vec<Statement<'a>>, AllocError>
    ensures { IfOk result (λ statements. map text_and_params statements.items ≡ map lent all.now) }
{
    let mut statements = Vec::new(alloc);
    'lent: for statement in all {
        statements.push(Statement {
            text: statement.text,
            params: statement.params.as_slice(),
        })?;
    }
    Ok(statements)
}

/// The statements of all steps in turn, or none, also over a crash. Where memory is refused, none is run.
pub fn run_steps<S: Alter>(conn: &mut Idle<S>, alloc: Global, steps: &[Step]) -> Got<()>
    ensures { IsRun S.Store (flat_map written_in steps.now) conn.old conn.new result }
{
    let Ok(all) = lend(alloc, steps) else {
        return Err(StoreError);
    };
    let Ok(statements) = stated(alloc, all.as_slice()) else {
        return Err(StoreError);
    };
    run(conn, statements.as_slice())
}
