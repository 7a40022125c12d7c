//! The values of the rows as a statement takes them: none is 0 for a party and for the days of an ask, and -1
//! elsewhere.

ghost use Rattle.std.specs.Prelude.{◌≡◌, ℕ, [], ◌∷◌};
ghost use Rattle.sqlite.specs.declared.types.Value.TheVariants.{Text as TextValue};
ghost use Rattle.sqlite.specs.Values.{bound, bound_value};
ghost use Rattle.sqlite_value.specs.Value.{owned};
ghost use Rattle.permit_model.specs.Codes.{role_code as code_of_role};
ghost use Rattle.permit_model.specs.Tables.{FileRow as TheRow, Paper as ThePaper};
ghost use Rattle.permit_store.specs.Changes.{paper_of};
ghost use Rattle.permit_sql_rows.specs.Rows.{int, or_zero, or_minus_one, step_value, flag, shown_file, shown_paper, row_params};

use crate::codes::{kind_code, role_code, sort_code, stage_code, step_code};
use permit_base::values::{Cents, Day, Days, Digest, FileId, Lot, ParcelId, PartyId, Text};
use permit_base::words::{PaperSort, Role, Step};
use permit_core::restore::StateFields;
use permit_store::rows::{Desk, NewPaper};
use sqlite_value::value::ValueRef;

/// A number.
pub fn number<'a>(n: u32) -> ValueRef<'a>
    ensures { bound_value (owned result) ≡ int n }
{
    ValueRef::Int(i64::from(n))
}

/// Cents, which 63 bits hold.
fn cents<'a>(cents: Cents) -> ValueRef<'a>
    ensures { bound_value (owned result) ≡ int cents }
{
    ValueRef::Int(cents.get() as i64)
}

/// A text.
fn text(text: &str) -> ValueRef<'_>
    ensures { bound_value (owned result) ≡ TextValue text.now }
{
    ValueRef::Text(text.as_bytes())
}

/// A number, where 0 means none.
fn number_or_zero<'a>(n: Option<u32>) -> ValueRef<'a>
    ensures { bound_value (owned result) ≡ or_zero n }
{
    match n {
        None => number(0),
        Some(n) => number(n),
    }
}

/// A party, where 0 means none.
fn party_or_zero<'a>(party: Option<PartyId>) -> ValueRef<'a>
    ensures { bound_value (owned result) ≡ or_zero party }
{
    match party {
        None => number(0),
        Some(party) => number(party.get()),
    }
}

/// The days of an ask, where 0 means none.
fn days_or_zero<'a>(days: Option<Days>) -> ValueRef<'a>
    ensures { bound_value (owned result) ≡ or_zero days }
{
    match days {
        None => number(0),
        Some(days) => number(days.get()),
    }
}

/// A number, where -1 means none.
fn number_or_minus_one<'a>(n: Option<u32>) -> ValueRef<'a>
    ensures { bound_value (owned result) ≡ or_minus_one n }
{
    match n {
        None => ValueRef::Int(-1),
        Some(n) => number(n),
    }
}

/// A day, where -1 means none.
fn day_or_minus_one<'a>(day: Option<Day>) -> ValueRef<'a>
    ensures { bound_value (owned result) ≡ or_minus_one day }
{
    match day {
        None => ValueRef::Int(-1),
        Some(day) => number(day.get()),
    }
}

/// A step by its code, where -1 means none.
fn step_or_minus_one<'a>(step: Option<Step>) -> ValueRef<'a>
    ensures { bound_value (owned result) ≡ step_value step }
{
    match step {
        None => ValueRef::Int(-1),
        Some(step) => number(step_code(step)),
    }
}

/// 1 or 0.
pub fn truth<'a>(is: bool) -> ValueRef<'a>
    ensures { bound_value (owned result) ≡ flag is }
{
    number(if is { 1 } else { 0 })
}

/// What sets the desk's row.
pub fn desk_values<'a>(desk: &Desk) -> [ValueRef<'a>; 4]
    ensures { bound result ≡ int desk.now.last ∷ int desk.now.parties ∷ int desk.now.parcels ∷ int desk.now.files ∷ [] }
{
    [
        number(desk.last.get()),
        number(desk.parties),
        number(desk.parcels),
        number(desk.files),
    ]
}

/// The row of a party, whose number is the desk's count of parties.
pub fn party_values<'a>(
    desk: &Desk,
    name: &'a Text,
    role: Role,
    digest: &'a Digest,
) -> [ValueRef<'a>; 4]
    ensures { bound result ≡ int desk.now.parties ∷ TextValue name.now ∷ int (code_of_role role) ∷ TextValue digest.now ∷ [] }
{
    [
        number(desk.parties),
        text(name.as_str()),
        number(role_code(role)),
        text(digest.as_str()),
    ]
}

/// The row of a parcel, whose number is the desk's count of parcels.
pub fn parcel_values<'a>(
    desk: &Desk,
    lot: &'a Lot,
    address: &'a Text,
    owner: PartyId,
) -> [ValueRef<'a>; 4]
    ensures { bound result ≡ int desk.now.parcels ∷ TextValue lot.now ∷ TextValue address.now ∷ int owner ∷ [] }
{
    [
        number(desk.parcels),
        text(lot.as_str()),
        text(address.as_str()),
        number(owner.get()),
    ]
}

/// Two numbers.
///
/// # Examples
///
/// ```
/// let row = conn.query_row("SELECT ?1, ?2", &pair_values(2, 7))?;
/// assert!(rt; whole_number(&row, 0) == Some(2) && whole_number(&row, 1) == Some(7));
/// ```
pub fn pair_values<'a>(a: u32, b: u32) -> [ValueRef<'a>; 2]
    ensures { bound result ≡ int a ∷ int b ∷ [] }
{
    [number(a), number(b)]
}

/// The row of a file, whose number is the desk's count of files.
pub fn file_values<'a>(
    desk: &Desk,
    valuation: Cents,
    description: &'a Text,
    file: &StateFields,
) -> [ValueRef<'a>; 20]
    ensures { bound result ≡ shown_file (record { id = desk.now.files; state = file.now; valuation = valuation; description = description.now }) }
{
    [
        number(desk.files),
        number(file.parcel.get()),
        number(file.applicant.get()),
        party_or_zero(file.contractor),
        party_or_zero(file.reviewer),
        party_or_zero(file.inspector),
        number(kind_code(file.kind)),
        cents(valuation),
        text(description.as_str()),
        number(file.filed.get()),
        number(stage_code(file.stage)),
        number_or_minus_one(file.deadline),
        number(u32::from(file.done)),
        step_or_minus_one(file.request),
        day_or_minus_one(file.requested),
        days_or_zero(file.ask),
        truth(file.stopped),
        number(u32::from(file.notices)),
        number(u32::from(file.papers)),
        number_or_minus_one(file.temporary),
    ]
}

/// What sets a file's row: its number, and what may change in it.
pub fn row_values<'a>(id: FileId, file: &StateFields) -> [ValueRef<'a>; 16]
    ensures { bound result ≡ row_params id file.now }
{
    [
        number(id.get()),
        party_or_zero(file.contractor),
        party_or_zero(file.reviewer),
        party_or_zero(file.inspector),
        number(kind_code(file.kind)),
        number(file.filed.get()),
        number(stage_code(file.stage)),
        number_or_minus_one(file.deadline),
        number(u32::from(file.done)),
        step_or_minus_one(file.request),
        day_or_minus_one(file.requested),
        days_or_zero(file.ask),
        truth(file.stopped),
        number(u32::from(file.notices)),
        number(u32::from(file.papers)),
        number_or_minus_one(file.temporary),
    ]
}

/// A text, or the empty one.
fn text_or_empty<'a>(words: Option<&'a Text>) -> ValueRef<'a>
    ensures { bound_value (owned result) ≡ TextValue (Rattle.permit_store.specs.Changes.text_of words.entry) }
{
    match words {
        None => text(""),
        Some(words) => text(words.as_str()),
    }
}

/// The row of a new paper, whose number is the file's count of papers, on the desk's day.
pub fn paper_values<'a>(
    file: FileId,
    row: &StateFields,
    desk: &Desk,
    paper: &NewPaper<'a>,
) -> [ValueRef<'a>; 9]
    ensures { bound result ≡ shown_paper (paper_of file row.now.papers desk.now.last paper.now) }
{
    [
        number(file.get()),
        number(u32::from(row.papers)),
        number(desk.last.get()),
        number(paper.author.get()),
        number(sort_code(paper.sort)),
        number(paper.days),
        text_or_empty(paper.text),
        text_or_empty(paper.terms),
        truth(matches!(paper.sort, PaperSort::Notice)),
    ]
}
