//! Members of JSON objects, sent to a serializer.

ghost use Rattle.std.specs.Prelude.{OnOk};
ghost use Rattle.serde_json.specs.Data.{string};
ghost use Rattle.permit_history.specs.LineData.{count, count_or_null};
ghost use Rattle.permit_history.specs.Sent.{SendsMember};

use serde::Serializer;

/// Puts a number that is always there.
pub fn put_count<S: Serializer>(out: &mut S, key: &str, number: u64) -> Result<(), S::Error>
    ensures { OnOk result (SendsMember key.now (count number) (S.written out.old) (S.written out.new)) }
{
    out.key(key)?;
    out.u64(number)
}

/// Puts a text.
pub fn put_text<S: Serializer>(out: &mut S, key: &str, text: &str) -> Result<(), S::Error>
    ensures { OnOk result (SendsMember key.now (string text.now) (S.written out.old) (S.written out.new)) }
{
    out.key(key)?;
    out.str(text)
}

/// Puts a number, or null where there is none.
pub fn put_number<S: Serializer>(
    out: &mut S,
    key: &str,
    number: Option<u32>,
) -> Result<(), S::Error>
    ensures { OnOk result (SendsMember key.now (count_or_null number) (S.written out.old) (S.written out.new)) }
{
    out.key(key)?;
    match number {
        Some(n) => out.u64(u64::from(n)),
        None => out.unit(),
    }
}
