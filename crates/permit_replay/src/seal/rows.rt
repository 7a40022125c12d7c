//! The line of each row.

ghost use Rattle.std.specs.Prelude.{◌≡◌};
ghost use Rattle.permit_model.specs.Tables.{version_of};
ghost use Rattle.permit_replay.specs.Adding.{Adds};
ghost use Rattle.permit_replay.specs.TablesText.{desk_line, file_line, file_lines, interest_line, paper_line, parcel_line, party_line};

use crate::seal::columns::{Column, put_line};
use permit_base::words::{Edition, Word};
use permit_store::rows::{Desk, FileRow, Interest, Paper, Parcel, Party};
use sha2::Sha256;

/// The version of the tables under an edition.
fn version(edition: Edition) -> u64
    ensures { result ≡ version_of edition }
{
    match edition {
        Edition::First => 1,
        Edition::Second => 2,
    }
}

/// Puts the line of the desk.
pub(crate) fn put_desk(hash: &mut Sha256, desk: &Desk)
    ensures { Adds (desk_line desk.now) hash.old hash.new }
{
    let columns = [
        Column::Number(version(desk.edition)),
        Column::Number(u64::from(desk.last.get())),
        Column::Number(u64::from(desk.parties)),
        Column::Number(u64::from(desk.parcels)),
        Column::Number(u64::from(desk.files)),
    ];
    put_line(hash, "desk", &columns);
}

/// Puts the line of a party.
pub(crate) fn put_party(hash: &mut Sha256, party: &Party)
    ensures { Adds (party_line party.now) hash.old hash.new }
{
    let columns = [
        Column::Number(u64::from(party.id.get())),
        Column::Text(party.name.as_str()),
        Column::Text(party.role.word()),
        Column::Text(party.digest.as_str()),
    ];
    put_line(hash, "party", &columns);
}

/// Puts the line of a parcel.
pub(crate) fn put_parcel(hash: &mut Sha256, parcel: &Parcel)
    ensures { Adds (parcel_line parcel.now) hash.old hash.new }
{
    let columns = [
        Column::Number(u64::from(parcel.id.get())),
        Column::Text(parcel.lot.as_str()),
        Column::Text(parcel.address.as_str()),
        Column::Number(u64::from(parcel.owner.get())),
    ];
    put_line(hash, "parcel", &columns);
}

/// Puts the line of an interest.
pub(crate) fn put_interest(hash: &mut Sha256, interest: &Interest)
    ensures { Adds (interest_line interest.now) hash.old hash.new }
{
    let columns = [
        Column::Number(u64::from(interest.parcel.get())),
        Column::Number(u64::from(interest.party.get())),
    ];
    put_line(hash, "interest", &columns);
}

/// Puts the line of a paper.
fn put_paper(hash: &mut Sha256, paper: &Paper)
    ensures { Adds (paper_line paper.now) hash.old hash.new }
{
    let columns = [
        Column::Number(u64::from(paper.file.get())),
        Column::Number(u64::from(paper.number.get())),
        Column::Number(u64::from(paper.day.get())),
        Column::Number(u64::from(paper.author.get())),
        Column::Text(paper.sort.word()),
        Column::Number(u64::from(paper.days)),
        Column::Text(paper.text.as_str()),
        Column::Text(paper.terms.as_str()),
        Column::truth(paper.is_open),
    ];
    put_line(hash, "paper", &columns);
}

/// Puts the line of a file.
fn put_file(hash: &mut Sha256, file: &FileRow)
    ensures { Adds (file_line file.now) hash.old hash.new }
{
    let state = &file.state;
    let columns = [
        Column::Number(u64::from(file.id.get())),
        Column::Number(u64::from(state.parcel().get())),
        Column::Number(u64::from(state.applicant().get())),
        Column::Text(state.kind().word()),
        Column::Number(version(state.edition())),
        Column::Number(u64::from(state.filed().get())),
        Column::limited_or_none(state.contractor()),
        Column::limited_or_none(state.reviewer()),
        Column::limited_or_none(state.inspector()),
        Column::Text(state.stored_stage().word()),
        Column::number_or_none(state.deadline()),
        Column::limited_or_none(state.ask()),
        Column::number_or_none(state.temporary()),
        Column::Number(u64::from(state.done())),
        Column::step_or_none(state.request()),
        Column::limited_or_none(state.requested()),
        Column::truth(state.is_stopped()),
        Column::Number(u64::from(state.notices())),
        Column::Number(u64::from(state.papers())),
        Column::Number(file.valuation.get()),
        Column::Text(file.description.as_str()),
    ];
    put_line(hash, "file", &columns);
}

/// Puts the lines of a file and of its papers.
pub(crate) fn put_file_with_papers(hash: &mut Sha256, file: &FileRow, papers: &[Paper])
    ensures { Adds (file_lines file.now papers.now) hash.old hash.new }
{
    put_file(hash, file);
    for paper in papers {
        put_paper(hash, paper);
    }
}
