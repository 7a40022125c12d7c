//! The tables of a store as text.

use crate::makers::{file, parcel, party};
use permit_base::words::Word;
use permit_core::state::FileState;
use permit_store::rows::{FileRow, Paper};
use permit_store::store::Store;
use std::alloc::Global;
use std::fmt::Write;
use std::test::Fail;

/// The party of the number, a line.
fn push_party<S: Store>(text: &mut String, store: &mut S, number: u32) -> Result<(), Fail> {
    let row = store.party(party(number)?)?.ok_or("a party")?;
    let (name, role, digest) = (row.name.as_str(), row.role.word(), row.digest.as_str());
    writeln!(text, "party {number} {role} {name:?} {digest}")?;
    Ok(())
}

/// The parcel of the number with its owner, a line, and a line for each party with an interest in it.
fn push_parcel<S: Store>(
    text: &mut String,
    store: &mut S,
    number: u32,
    parties: u32,
) -> Result<(), Fail> {
    let id = parcel(number)?;
    let row = store.parcel(id)?.ok_or("a parcel")?;
    let (lot, address, owner) = (row.lot.as_str(), row.address.as_str(), row.owner.get());
    writeln!(text, "parcel {number} {lot} {address:?} {owner}")?;
    for holder in 1..parties.saturating_add(1) {
        if store.interest(id, party(holder)?)? {
            writeln!(text, "interest {number} {holder}")?;
        }
    }
    Ok(())
}

/// The columns of a file's state that speak of parties, its kind and its stage.
fn push_people(text: &mut String, state: &FileState) -> Result<(), Fail> {
    let (parcel, applicant) = (state.parcel().get(), state.applicant().get());
    let contractor = state.contractor().map_or(0, |party| party.get());
    let reviewer = state.reviewer().map_or(0, |party| party.get());
    let inspector = state.inspector().map_or(0, |party| party.get());
    let (kind, stage) = (state.kind().word(), state.stored_stage().word());
    write!(
        text,
        "on {parcel} by {applicant} {contractor} {reviewer} {inspector} {kind} {stage}"
    )?;
    Ok(())
}

/// The other columns of a file's state.
fn push_work(text: &mut String, state: &FileState) -> Result<(), Fail> {
    let (filed, done, stopped) = (state.filed().get(), state.done(), state.is_stopped());
    let (deadline, temporary) = (
        state.deadline().unwrap_or(0),
        state.temporary().unwrap_or(0),
    );
    let request = state.request().map_or("-", |step| step.word());
    let requested = state.requested().map_or(0, |day| day.get());
    let ask = state.ask().map_or(0, |days| days.get());
    let (notices, papers) = (state.notices(), state.papers());
    write!(
        text,
        " {filed} {deadline} {done} {request} {requested} {ask} {stopped} {temporary} {notices} {papers}"
    )?;
    Ok(())
}

/// A file's row, a line.
fn push_file(text: &mut String, row: &FileRow) -> Result<(), Fail> {
    let (number, cents, description) = (
        row.id.get(),
        row.valuation.get(),
        row.description.as_str(),
    );
    write!(text, "file {number} {cents} {description:?} ")?;
    push_people(text, &row.state)?;
    push_work(text, &row.state)?;
    writeln!(text)?;
    Ok(())
}

/// A paper, a line.
fn push_paper(text: &mut String, paper: &Paper) -> Result<(), Fail> {
    let (file, number, day, author) = (
        paper.file.get(),
        paper.number.get(),
        paper.day.get(),
        paper.author.get(),
    );
    let (sort, days, is_open) = (paper.sort.word(), paper.days, paper.is_open);
    let (body, terms) = (paper.text.as_str(), paper.terms.as_str());
    writeln!(
        text,
        "paper {file} {number} {day} {author} {sort} {days} {is_open} {body:?} {terms:?}"
    )?;
    Ok(())
}

/// All that a store's tables hold.
pub fn tables_text<S: Store>(alloc: Global, store: &mut S) -> Result<String, Fail> {
    let mut text = String::new(alloc);
    let desk = store.desk()?;
    let (last, parties, parcels, files) = (desk.last.get(), desk.parties, desk.parcels, desk.files);
    writeln!(text, "desk {last} {parties} {parcels} {files}")?;
    for number in 1..parties.saturating_add(1) {
        push_party(&mut text, store, number)?;
    }
    for number in 1..parcels.saturating_add(1) {
        push_parcel(&mut text, store, number, parties)?;
    }
    for number in 1..files.saturating_add(1) {
        let id = file(number)?;
        let row = store.file(id)?.ok_or("a file")?;
        push_file(&mut text, &row)?;
        for paper in store.papers(id)?.as_slice() {
            push_paper(&mut text, paper)?;
        }
    }
    Ok(text)
}
