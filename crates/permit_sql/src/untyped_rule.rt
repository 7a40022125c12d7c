//! Which rule a row breaks that isn't one of its table's type.

ghost use Rattle.std.specs.Prelude.{◌≡◌, ◌<◌, ◌^◌, ℕ, Some};
ghost use Rattle.sqlite_value.specs.Order.{column};
ghost use Rattle.permit_sql_rows.specs.Rows.{int};

use crate::fault::{
    DeskRule, FileRule, InterestRule, PaperRule, ParcelRule, PartyRule, UpgradeRule,
};
use crate::row_rules::is_done_in;
use permit_base::limits::{LATEST_DAY, MOST_CENTS, MOST_DAYS, MOST_PAPERS, MOST_RECORDS};
use permit_base::values::Digest;
use permit_base::words::{Edition, Kind, PaperSort, Role, Stage, Step, Word};
use permit_core::steps::required_steps;
use permit_sql_rows::fields::{has_text, string_in, whole_number};
use sqlite::Row;

/// The greatest number of a party, a parcel or a file.
const MOST: i64 = MOST_RECORDS as i64;

/// The greatest number of 32 bits.
const MOST_32: i64 = u32::MAX as i64;

/// The greatest number of 16 bits.
const MOST_16: i64 = u16::MAX as i64;

/// A column of numbers, the least and the greatest of them, and the rule that another value breaks.
#[derive(Clone, Copy)]
struct Column<R>(usize, i64, i64, R);

/// The rule of the first of the columns whose value isn't a number within its limits.
fn first_outside<R: Copy>(row: &Row, columns: &[Column<R>]) -> Option<R> {
    for Column(at, least, most, rule) in columns {
        match whole_number(row, *at) {
            Some(number) if *least <= number && number <= *most => {}
            _ => return Some(*rule),
        }
    }
    None
}

/// The greatest code of a kind of words.
fn last_code<W: Word>() -> i64 {
    i64::try_from(W::all().len()).unwrap_or(i64::MAX) - 1
}

/// The number in a column, where it is one of 32 bits.
pub(crate) fn number_in(row: &Row, at: usize) -> Option<u32>
    ensures { (n : ℕ) → n < 2 ^ 32 → column row.now at ≡ int n → result ≡ Some n }
{
    u32::try_from(whole_number(row, at)?).ok()
}

/// A rule that a row breaks which isn't a desk's.
pub(crate) fn desk_rule(row: &Row) -> DeskRule {
    let columns = [
        Column(0, 1, 1, DeskRule::Row),
        Column(1, 2, 2, DeskRule::Row),
        Column(2, 0, i64::from(LATEST_DAY), DeskRule::Last),
        Column(3, 0, MOST_32, DeskRule::Parties),
        Column(4, 0, MOST_32, DeskRule::Parcels),
    ];
    match first_outside(row, &columns) {
        Some(rule) => rule,
        None => DeskRule::Files,
    }
}

/// A rule that a row breaks which isn't an upgrade's.
pub(crate) fn upgrade_rule(row: &Row) -> UpgradeRule {
    match first_outside(row, &[Column(0, 1, 1, UpgradeRule::Row)]) {
        Some(rule) => rule,
        None => UpgradeRule::Files,
    }
}

/// A rule that a row breaks which isn't a party's.
pub(crate) fn party_rule(row: &Row) -> PartyRule {
    let columns = [
        Column(0, 1, MOST, PartyRule::Number),
        Column(2, 0, last_code::<Role>(), PartyRule::Role),
    ];
    match first_outside(row, &columns) {
        Some(rule) => rule,
        None if !has_text(row, 1) => PartyRule::Name,
        None => PartyRule::Digest,
    }
}

/// A rule that a row breaks which isn't a parcel's.
pub(crate) fn parcel_rule(row: &Row) -> ParcelRule {
    let columns = [
        Column(0, 1, MOST, ParcelRule::Number),
        Column(3, 1, MOST, ParcelRule::Owner),
    ];
    match first_outside(row, &columns) {
        Some(rule) => rule,
        None if !has_text(row, 2) => ParcelRule::Address,
        None => ParcelRule::Lot,
    }
}

/// A rule that a row breaks which isn't an interest's.
pub(crate) fn interest_rule(row: &Row) -> InterestRule {
    match first_outside(row, &[Column(0, 1, MOST, InterestRule::Parcel)]) {
        Some(rule) => rule,
        None => InterestRule::Party,
    }
}

/// The rule of the first number in a file's row that isn't within its limits.
fn file_number_rule(row: &Row) -> Option<FileRule> {
    let last_day = i64::from(LATEST_DAY);
    let columns = [
        Column(0, 1, MOST, FileRule::Number),
        Column(1, 1, MOST, FileRule::Parcel),
        Column(2, 1, MOST, FileRule::Applicant),
        Column(3, 0, MOST, FileRule::Contractor),
        Column(4, 0, MOST, FileRule::Reviewer),
        Column(5, 0, MOST, FileRule::Inspector),
        Column(6, 0, last_code::<Kind>(), FileRule::Kind),
        Column(7, 0, MOST_CENTS as i64, FileRule::Valuation),
        Column(9, 0, last_day, FileRule::Filed),
        Column(10, 0, 9, FileRule::Stage),
        Column(11, -1, i64::MAX, FileRule::EarlyDeadline),
        Column(11, -1, MOST_32, FileRule::LateDeadline),
        Column(12, 0, i64::from(u8::MAX), FileRule::Done),
        Column(13, -1, last_code::<Step>(), FileRule::Request),
        Column(14, -1, last_day, FileRule::Requested),
        Column(15, 0, i64::from(MOST_DAYS), FileRule::Ask),
        Column(16, 0, 1, FileRule::Stopped),
        Column(17, 0, MOST_16, FileRule::Notices),
        Column(18, 0, MOST_16, FileRule::Papers),
        Column(19, -1, MOST_32, FileRule::Temporary),
    ];
    first_outside(row, &columns)
}

/// The word whose code is in a column.
fn word_in<W: Word>(row: &Row, at: usize) -> Option<W> {
    W::all().get(number_in(row, at)? as usize).copied()
}

/// Whether -1 is in a column, which means none.
fn is_absent(row: &Row, at: usize) -> bool {
    whole_number(row, at) == Some(-1)
}

/// How many steps are required of a file of the kind, by the count of files at the upgrade.
fn required(row: &Row, kind: Kind, upgrade: Option<u32>) -> usize {
    let edition = match (number_in(row, 0), upgrade) {
        (Some(id), Some(count)) if count < id => Edition::Second,
        _ => Edition::First,
    };
    required_steps(edition, kind).len()
}

/// A rule that the numbers of a file's row break together, of a file in the stage.
fn state_rule(row: &Row, stage: Stage, required: usize) -> FileRule {
    let facts = stage.facts();
    let done = number_in(row, 12).unwrap_or(0) as usize;
    if is_absent(row, 11) == facts.expiry.is_timed() {
        FileRule::NoDeadline
    } else if !is_done_in(stage, required, done) {
        FileRule::Done
    } else if is_absent(row, 13) != is_absent(row, 14) {
        FileRule::Requested
    } else if number_in(row, 16) == Some(1) && !facts.stopped {
        FileRule::Stopped
    } else if number_in(row, 17) != Some(0) && !facts.begun {
        FileRule::NoticesStage
    } else {
        FileRule::Request
    }
}

/// A rule that a row breaks which isn't a file's.
pub(crate) fn file_rule(row: &Row, upgrade: Option<u32>) -> FileRule {
    if let Some(rule) = file_number_rule(row) {
        return rule;
    }
    if !has_text(row, 8) {
        return FileRule::Description;
    }
    match (word_in(row, 10), word_in(row, 6)) {
        (Some(stage), Some(kind)) => state_rule(row, stage, required(row, kind, upgrade)),
        (None, _) => FileRule::Stage,
        (_, None) => FileRule::Kind,
    }
}

/// A rule that a row breaks which isn't a paper's.
pub(crate) fn paper_rule(row: &Row) -> PaperRule {
    let columns = [
        Column(0, 1, MOST, PaperRule::File),
        Column(1, 1, i64::from(MOST_PAPERS), PaperRule::Number),
        Column(2, 0, i64::MAX, PaperRule::EarlyDay),
        Column(2, 0, i64::from(LATEST_DAY), PaperRule::LateDay),
        Column(3, 1, MOST, PaperRule::Author),
        Column(4, 0, last_code::<PaperSort>(), PaperRule::Sort),
        Column(5, 0, MOST_32, PaperRule::Days),
        Column(8, 0, 1, PaperRule::Open),
    ];
    match first_outside(row, &columns) {
        Some(rule) => rule,
        None if string_in(row, 6).is_none() => PaperRule::Text,
        None => PaperRule::Terms,
    }
}
