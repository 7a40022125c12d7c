//! The lines of the registers.

ghost use Rattle.std.specs.Prelude.{◌≡◌, ℕ};
ghost use Rattle.permit_model.specs.Register;
ghost use Rattle.permit_report.specs.Progress;
ghost use Rattle.permit_base.specs.Words.{step_word};
ghost use Rattle.permit_base.specs.declared.words.RegisterKind.TheVariants.{Files, Deadlines, Inspections};

use crate::column::{days_left_or_hyphen, number, party_or_hyphen};
use crate::date::date_or_hyphen;
use crate::line::Line;
use permit_base::values::Day;
use permit_base::words::{RegisterKind, Step, Word};
use permit_core::row::FileView;

/// The line of the columns' words.
fn header(kind: RegisterKind) -> &'static str
    ensures { result.now ≡ Register.header kind }
{
    match kind {
        RegisterKind::Files => " FILE PARCEL KIND      STAGE     TIMING DEADLINE           CENTS\n",
        RegisterKind::Deadlines => " FILE STAGE     TIMING DEADLINE      LEFT\n",
        RegisterKind::Inspections => " FILE NEXT    REQUESTED  INSPECTOR NOTICES\n",
    }
}

/// What comes before the next line or the foot, after so many lines: the header before the first, else nothing.
pub fn opening(kind: RegisterKind, lines: u64) -> &'static str
    ensures { result.now ≡ Progress.opening kind lines }
{
    if lines == 0 { header(kind) } else { "" }
}

/// A step's word, or a hyphen for none.
fn step_or_hyphen(step: Option<Step>) -> &'static str
    ensures { result.now ≡ Register.or_hyphen step_word step }
{
    match step {
        Some(step) => step.word(),
        None => "-",
    }
}

/// The number of a day.
fn day_number(day: Option<Day>) -> Option<u32>
    ensures { result ≡ day }
{
    day.map(Day::get)
}

/// The line of a file in the register of files.
fn files_line(file: &FileView) -> Line
    ensures { (day : ℕ) → result ≡ Register.file_line Files day file.now }
{
    let state = &file.row.state;
    let mut line = Line::new();
    line.right(5, number(u64::from(file.row.id.get())).as_str());
    line.right(6, number(u64::from(state.parcel().get())).as_str());
    line.left(9, state.kind().word());
    line.left(9, file.stage.word());
    line.left(6, file.timing.word());
    line.left(10, date_or_hyphen(state.deadline()).as_str());
    line.last(13, number(file.row.valuation.get()).as_str());
    line
}

/// The line of a file in the register of deadlines.
fn deadlines_line(day: Day, file: &FileView) -> Line
    ensures { result ≡ Register.file_line Deadlines day file.now }
{
    let state = &file.row.state;
    let mut line = Line::new();
    line.right(5, number(u64::from(file.row.id.get())).as_str());
    line.left(9, file.stage.word());
    line.left(6, file.timing.word());
    line.left(10, date_or_hyphen(state.deadline()).as_str());
    line.last(7, days_left_or_hyphen(day, state.deadline()).as_str());
    line
}

/// The line of a file in the register of inspections.
fn inspections_line(file: &FileView) -> Line
    ensures { (day : ℕ) → result ≡ Register.file_line Inspections day file.now }
{
    let state = &file.row.state;
    let mut line = Line::new();
    line.right(5, number(u64::from(file.row.id.get())).as_str());
    line.left(7, step_or_hyphen(state.next_step()));
    line.left(10, date_or_hyphen(day_number(state.requested())).as_str());
    line.right(9, party_or_hyphen(state.inspector()).as_str());
    line.last(7, number(u64::from(state.notices())).as_str());
    line
}

/// The line of a file.
pub fn file_line(kind: RegisterKind, day: Day, file: &FileView) -> Line
    ensures { result ≡ Register.file_line kind day file.now }
{
    match kind {
        RegisterKind::Files => files_line(file),
        RegisterKind::Deadlines => deadlines_line(day, file),
        RegisterKind::Inspections => inspections_line(file),
    }
}

/// The line of the count of the files.
pub fn foot(count: u64) -> Line
    ensures { result ≡ Register.foot count }
{
    let mut line = Line::new();
    line.left(5, "files");
    line.last(0, number(count).as_str());
    line
}
