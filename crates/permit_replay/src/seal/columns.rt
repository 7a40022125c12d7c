//! Lines of columns, on their way into a hash.

ghost use Rattle.std.specs.Prelude.{◌≡◌, ◌∷◌, map};
ghost use Rattle.permit_replay.specs.Adding.{Adds, column_text};
ghost use Rattle.permit_replay.specs.TablesText.{columns, line, number_or_none, step_or_none, truth};

use itoa::Buffer;
use permit_base::values::Number;
use permit_base::words::{Step, Word};
use sha2::{Digest, Sha256};

/// What is in a column of a line.
#[derive(Clone, Copy)]
pub(crate) enum Column<'t> {
    Text(&'t str),
    Number(u64),
    /// A column without a value.
    Nothing,
}

impl Column<'_> {
    /// A number, or nothing.
    pub(crate) fn number_or_none(number: Option<u32>) -> Column<'static>
        ensures { column_text result ≡ number_or_none number }
    {
        match number {
            Some(number) => Column::Number(u64::from(number)),
            None => Column::Nothing,
        }
    }

    /// A number within limits, or nothing.
    pub(crate) fn limited_or_none<K, const LEAST: u32, const MOST: u32>(
        number: Option<Number<K, LEAST, MOST>>,
    ) -> Column<'static>
        ensures { column_text result ≡ number_or_none number }
    {
        match number {
            Some(number) => Column::Number(u64::from(number.get())),
            None => Column::Nothing,
        }
    }

    /// The word of a step, or nothing.
    pub(crate) fn step_or_none(step: Option<Step>) -> Column<'static>
        ensures { column_text result ≡ step_or_none step }
    {
        match step {
            Some(step) => Column::Text(step.word()),
            None => Column::Nothing,
        }
    }

    /// `true` or `false`.
    pub(crate) fn truth(value: bool) -> Column<'static>
        ensures { column_text result ≡ truth value }
    {
        Column::Text(if value { "true" } else { "false" })
    }
}

/// Puts a TAB and then a column.
fn put_column(hash: &mut Sha256, column: &Column<'_>)
    ensures { Adds (9 ∷ column_text column.now) hash.old hash.new }
{
    hash.update("\t");
    match column {
        Column::Text(text) => hash.update(text),
        Column::Number(number) => {
            let mut buffer = Buffer::new();
            hash.update(buffer.format(*number));
        }
        Column::Nothing => (),
    }
}

/// Puts a line: the word of its table, each column, and LF.
pub(crate) fn put_line(hash: &mut Sha256, word: &str, columns: &[Column<'_>])
    ensures { Adds (line word.now (map column_text columns.now)) hash.old hash.new }
{
    hash.update(word);
    for column in columns {
        put_column(hash, column);
    }
    hash.update("\n");
}
