//! Members of JSON objects, sent to a serializer.

ghost use Rattle.std.specs.Prelude.{OnOk};
ghost use Rattle.serde_json.specs.Data.{boolean, string};
ghost use Rattle.permit_answer.specs.RowData.{count, count_or_null, step_or_null};
ghost use Rattle.permit_answer.specs.Sent.{SendsMember};

use permit_base::words::{Step, Word};
use serde::Serializer;

/// Puts a truth value.
pub fn put_flag<S: Serializer>(out: &mut S, key: &str, flag: bool) -> Result<(), S::Error>
    ensures { OnOk result (SendsMember key.now (boolean flag) (S.written out.old) (S.written out.new)) }
{
    out.key(key)?;
    out.bool(flag)
}

/// Puts a number that is always there.
pub fn put_count<S: Serializer>(out: &mut S, key: &str, number: u64) -> Result<(), S::Error>
    ensures { OnOk result (SendsMember key.now (count number) (S.written out.old) (S.written out.new)) }
{
    out.key(key)?;
    out.u64(number)
}

/// Puts a text.
pub fn put_text<S: Serializer>(out: &mut S, key: &str, text: &str) -> Result<(), S::Error>
    ensures { OnOk result (SendsMember key.now (string text.now) (S.written out.old) (S.written out.new)) }
{
    out.key(key)?;
    out.str(text)
}

/// Puts a number, or null where there is none.
pub fn put_number<S: Serializer>(
    out: &mut S,
    key: &str,
    number: Option<u32>,
) -> Result<(), S::Error>
    ensures { OnOk result (SendsMember key.now (count_or_null number) (S.written out.old) (S.written out.new)) }
{
    out.key(key)?;
    match number {
        Some(n) => out.u64(u64::from(n)),
        None => out.unit(),
    }
}

/// Puts a step's word, or null where there is none.
pub fn put_step<S: Serializer>(out: &mut S, key: &str, step: Option<Step>) -> Result<(), S::Error>
    ensures { OnOk result (SendsMember key.now (step_or_null step) (S.written out.old) (S.written out.new)) }
{
    out.key(key)?;
    match step {
        Some(step) => out.str(step.word()),
        None => out.unit(),
    }
}
