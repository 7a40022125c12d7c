//! The text of a column, in place.

ghost use Rattle.std.specs.Prelude.{◌≡◌, ℕ, ◌+◌, ◌<◌, ◌≤◌, ◌++◌, length, replicate, decimal, codes};
ghost use Rattle.arrayvec.specs.ArrayString.{array_string_len};
ghost use Rattle.permit_model.specs.Register.{padded_number, or_hyphen, days_left};

use arrayvec::ArrayString;
use itoa::Buffer;
use permit_base::values::{Day, PartyId};

/// The text of a column: at most as long as the greatest number.
pub type Column = ArrayString<20>;

/// Appends a letter so many times.
pub fn fill<const N: usize>(text: &mut ArrayString<N>, letter: char, count: usize)
    requires ascii { letter < 128 }
    requires room { array_string_len text.old + count ≤ N }
    ensures { text.new.bytes ≡ text.old.bytes ++ replicate count letter }
{
    for _filled in 0..count {
        text.push(letter);
    }
}

/// Appends a number in at least so many digits, with zeros in front.
pub fn push_padded(text: &mut Column, width: usize, number: u32)
    requires { array_string_len text.old + width + length (decimal number) ≤ 20 }
    ensures text { text.new.bytes ≡ text.old.bytes ++ padded_number width number }
    ensures exact { length (decimal number) ≤ width → array_string_len text.new ≡ array_string_len text.old + width }
{
    let mut buffer = Buffer::new();
    let digits = buffer.format(number);
    fill(text, '0', width.saturating_sub(digits.len()));
    text.push_str(digits);
}

/// A hyphen, which means none.
pub fn hyphen() -> Column
    ensures { result.bytes ≡ codes "-" }
{
    let mut text = Column::new();
    text.push('-');
    text
}

/// A number.
pub fn number(n: u64) -> Column
    ensures { result.bytes ≡ decimal n }
{
    let mut buffer = Buffer::new();
    let mut text = Column::new();
    text.push_str(buffer.format(n));
    text
}

/// A party's number, or a hyphen for none.
pub fn party_or_hyphen(party: Option<PartyId>) -> Column
    ensures { result.bytes ≡ or_hyphen decimal party }
{
    match party {
        Some(party) => number(u64::from(party.get())),
        None => hyphen(),
    }
}

/// The days from a day to a deadline, negative where the deadline is past, or a hyphen for none.
pub fn days_left_or_hyphen(day: Day, deadline: Option<u32>) -> Column
    ensures { result.bytes ≡ or_hyphen (days_left day) deadline }
{
    match deadline {
        Some(deadline) => {
            let mut buffer = Buffer::new();
            let mut text = Column::new();
            text.push_str(buffer.format(i64::from(deadline) - i64::from(day.get())));
            text
        }
        None => hyphen(),
    }
}
