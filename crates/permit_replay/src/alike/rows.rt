//! Whether two rows are the same.

ghost use Rattle.std.specs.Prelude.{◌≡◌};
ghost use Rattle.std.specs.Bool.{Decides};
ghost use Rattle.permit_base.specs.declared.words.Edition.TheVariants.{Second};
ghost use Rattle.permit_replay.specs.Comparing.{HaveSameCourse, HaveSameFiling, HaveSamePeople, HaveSameWork};

use permit_base::words::Edition;
use permit_core::state::FileState;
use permit_store::rows::{Desk, FileRow, Paper, Parcel, Party};

pub(crate) fn is_same_desk(first: &Desk, second: &Desk) -> bool
    ensures { Decides result (first.now ≡ second.now) }
{
    first.edition == second.edition
        && first.last == second.last
        && first.parties == second.parties
        && first.parcels == second.parcels
        && first.files == second.files
}

/// Whether the office keeps to the second edition.
pub(crate) fn is_of_second(desk: &Desk) -> bool
    ensures { Decides result (desk.now.edition ≡ Second) }
{
    desk.edition == Edition::Second
}

fn is_same_party(first: &Party, second: &Party) -> bool
    ensures { Decides result (first.now ≡ second.now) }
{
    first.id == second.id
        && first.name == second.name
        && first.role == second.role
        && first.digest == second.digest
}

/// Whether both are no party, or the same.
pub(crate) fn are_same_parties(first: &Option<Party>, second: &Option<Party>) -> bool
    ensures { Decides result (first.now ≡ second.now) }
{
    match (first, second) {
        (None, None) => true,
        (Some(first), Some(second)) => is_same_party(first, second),
        (None, Some(_)) | (Some(_), None) => false,
    }
}

fn is_same_parcel(first: &Parcel, second: &Parcel) -> bool
    ensures { Decides result (first.now ≡ second.now) }
{
    first.id == second.id
        && first.lot == second.lot
        && first.address == second.address
        && first.owner == second.owner
}

/// Whether both are no parcel, or the same.
pub(crate) fn are_same_parcels(first: &Option<Parcel>, second: &Option<Parcel>) -> bool
    ensures { Decides result (first.now ≡ second.now) }
{
    match (first, second) {
        (None, None) => true,
        (Some(first), Some(second)) => is_same_parcel(first, second),
        (None, Some(_)) | (Some(_), None) => false,
    }
}

fn has_same_filing(first: &FileState, second: &FileState) -> bool
    ensures { Decides result (HaveSameFiling first.now second.now) }
{
    first.parcel() == second.parcel()
        && first.applicant() == second.applicant()
        && first.kind() == second.kind()
        && first.edition() == second.edition()
        && first.filed() == second.filed()
}

fn has_same_people(first: &FileState, second: &FileState) -> bool
    ensures { Decides result (HaveSamePeople first.now second.now) }
{
    first.contractor() == second.contractor()
        && first.reviewer() == second.reviewer()
        && first.inspector() == second.inspector()
}

fn has_same_course(first: &FileState, second: &FileState) -> bool
    ensures { Decides result (HaveSameCourse first.now second.now) }
{
    first.stored_stage() == second.stored_stage()
        && first.deadline() == second.deadline()
        && first.ask() == second.ask()
        && first.temporary() == second.temporary()
}

fn has_same_work(first: &FileState, second: &FileState) -> bool
    ensures { Decides result (HaveSameWork first.now second.now) }
{
    first.done() == second.done()
        && first.request() == second.request()
        && first.requested() == second.requested()
        && first.is_stopped() == second.is_stopped()
        && first.notices() == second.notices()
        && first.papers() == second.papers()
}

fn is_same_state(first: &FileState, second: &FileState) -> bool
    ensures { Decides result (first.now ≡ second.now) }
{
    has_same_filing(first, second)
        && has_same_people(first, second)
        && has_same_course(first, second)
        && has_same_work(first, second)
}

fn is_same_row(first: &FileRow, second: &FileRow) -> bool
    ensures { Decides result (first.now ≡ second.now) }
{
    first.id == second.id
        && first.valuation == second.valuation
        && first.description.as_str() == second.description.as_str()
        && is_same_state(&first.state, &second.state)
}

/// Whether both are no file's row, or the same.
pub(crate) fn are_same_rows(first: &Option<FileRow>, second: &Option<FileRow>) -> bool
    ensures { Decides result (first.now ≡ second.now) }
{
    match (first, second) {
        (None, None) => true,
        (Some(first), Some(second)) => is_same_row(first, second),
        (None, Some(_)) | (Some(_), None) => false,
    }
}

fn is_same_paper(first: &Paper, second: &Paper) -> bool
    ensures { Decides result (first.now ≡ second.now) }
{
    first.file == second.file
        && first.number == second.number
        && first.day == second.day
        && first.author == second.author
        && first.sort == second.sort
        && first.days == second.days
        && first.text == second.text
        && first.terms == second.terms
        && first.is_open == second.is_open
}

/// Whether the papers are the same, in the same order.
pub(crate) fn are_same_papers(first: &[Paper], second: &[Paper]) -> bool
    ensures { Decides result (first.now ≡ second.now) }
{
    if first.len() != second.len() {
        return false;
    }
    for place in 0..first.len() {
        if !is_same_paper(&first[place], &second[place]) {
            return false;
        }
    }
    true
}
