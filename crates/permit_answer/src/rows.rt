//! Parcels, files and listings as JSON.

ghost use Rattle.std.specs.Prelude.{◌≡◌, [], Some, IfOk, OnOk};
ghost use Rattle.serde.specs.Event.{Log};
ghost use Rattle.serde_json.specs.Events.{SendsValue, SendsMembers};
ghost use Rattle.serde_json.specs.Sent.{IsTextOf};
ghost use Rattle.serde_json.specs.Written.{compact_text};
ghost use Rattle.permit_answer.specs.RowData.{steps_data, parcel_data, paper_data, papers_data, later_members, listed_data, files_data, listing_data, file_data};
ghost use Rattle.permit_answer.specs.Sent.{SendsBefore};

use crate::member::{put_count, put_flag, put_number, put_step, put_text};
use permit_base::words::{Step, Word};
use permit_core::row::FileView;
use permit_core::steps::required_steps;
use permit_store::rows::{Paper, Parcel};
use serde::{Described, Serialize, Serializer};
use std::alloc::{AllocError, Global};

/// The text of what is sent. The writer fails where memory is refused, and any failure counts as that.
fn text_of<T: Serialize>(alloc: Global, sent: &T) -> Result<Vec<u8>, AllocError>
    ensures { IfOk result (λ text. (log : Log) × T.writes sent.now (Some []) log × IsTextOf log text.items) }
{
    match serde_json::to_vec(alloc, sent) {
        Ok(text) => Ok(text),
        Err(_) => Err(AllocError),
    }
}

/// A parcel that is sent.
#[derive(Drop)]
struct SentParcel<'p>(&'p Parcel);

impl Described for SentParcel<'_> {
    ghost writes = { λ sent. SendsValue (parcel_data sent.0.now) };
}

impl Serialize for SentParcel<'_> {
    fn serialize<S: Serializer>(&self, out: &mut S) -> Result<(), S::Error> {
        let parcel = self.0;
        out.begin_map(Some(4))?;
        put_text(out, "address", parcel.address.as_str())?;
        put_count(out, "id", u64::from(parcel.id.get()))?;
        put_text(out, "lot", parcel.lot.as_str())?;
        put_count(out, "owner", u64::from(parcel.owner.get()))?;
        out.end_map()
    }
}

/// The text of a parcel.
pub fn parcel_text(alloc: Global, parcel: &Parcel) -> Result<Vec<u8>, AllocError>
    ensures { IfOk result (λ text. text.items ≡ compact_text (parcel_data parcel.now)) }
{
    text_of(alloc, &SentParcel(parcel))
}

fn send_steps<S: Serializer>(out: &mut S, steps: &[Step]) -> Result<(), S::Error>
    ensures { OnOk result (SendsValue (steps_data steps.now) (S.written out.old) (S.written out.new)) }
{
    out.begin_seq(Some(steps.len()))?;
    for step in steps {
        out.str(step.word())?;
    }
    out.end_seq()
}

fn send_paper<S: Serializer>(out: &mut S, paper: &Paper) -> Result<(), S::Error>
    ensures { OnOk result (SendsValue (paper_data paper.now) (S.written out.old) (S.written out.new)) }
{
    out.begin_map(Some(8))?;
    put_count(out, "author", u64::from(paper.author.get()))?;
    put_count(out, "day", u64::from(paper.day.get()))?;
    put_count(out, "days", u64::from(paper.days))?;
    put_count(out, "number", u64::from(paper.number.get()))?;
    put_flag(out, "open", paper.is_open)?;
    put_text(out, "sort", paper.sort.word())?;
    put_text(out, "terms", paper.terms.as_str())?;
    put_text(out, "text", paper.text.as_str())?;
    out.end_map()
}

fn send_papers<S: Serializer>(out: &mut S, papers: &[Paper]) -> Result<(), S::Error>
    ensures { OnOk result (SendsValue (papers_data papers.now) (S.written out.old) (S.written out.new)) }
{
    out.begin_seq(Some(papers.len()))?;
    for paper in papers {
        send_paper(out, paper)?;
    }
    out.end_seq()
}

/// Sends the members up to notices.
fn send_before<S: Serializer>(out: &mut S, file: &FileView) -> Result<(), S::Error>
    ensures { OnOk result (SendsBefore file.now (S.written out.old) (S.written out.new)) }
{
    let state = &file.row.state;
    let required = required_steps(state.edition(), state.kind());
    put_count(out, "applicant", u64::from(state.applicant().get()))?;
    put_number(out, "ask", state.ask().map(|days| days.get()))?;
    put_number(
        out,
        "contractor",
        state.contractor().map(|party| party.get()),
    )?;
    put_number(out, "deadline", state.deadline())?;
    put_text(out, "description", file.row.description.as_str())?;
    out.key("done")?;
    send_steps(
        out,
        &required[..usize::from(state.done()).min(required.len())],
    )?;
    put_count(out, "filed", u64::from(state.filed().get()))?;
    put_count(out, "id", u64::from(file.row.id.get()))?;
    put_number(out, "inspector", state.inspector().map(|party| party.get()))?;
    put_text(out, "kind", state.kind().word())?;
    put_step(out, "next", state.next_step())?;
    put_count(out, "notices", u64::from(state.notices()))
}

/// Sends the members from parcel on, and the object's end.
fn send_later<S: Serializer>(out: &mut S, file: &FileView) -> Result<(), S::Error>
    ensures { OnOk result (SendsMembers (later_members file.now) (S.written out.old) (S.written out.new)) }
{
    let state = &file.row.state;
    put_count(out, "parcel", u64::from(state.parcel().get()))?;
    put_step(out, "request", state.request())?;
    put_number(out, "requested", state.requested().map(|day| day.get()))?;
    put_number(out, "reviewer", state.reviewer().map(|party| party.get()))?;
    put_text(out, "stage", file.stage.word())?;
    put_flag(out, "stopped", state.is_stopped())?;
    put_number(out, "temporary", state.temporary())?;
    put_text(out, "timing", file.timing.word())?;
    put_count(out, "valuation", file.row.valuation.get())?;
    out.end_map()
}

/// A file that is sent with its papers.
#[derive(Drop)]
struct SentFile<'f>(&'f FileView, &'f [Paper]);

impl Described for SentFile<'_> {
    ghost writes = { λ sent. SendsValue (file_data sent.0.now sent.1.now) };
}

impl Serialize for SentFile<'_> {
    fn serialize<S: Serializer>(&self, out: &mut S) -> Result<(), S::Error> {
        out.begin_map(Some(22))?;
        send_before(out, self.0)?;
        out.key("papers")?;
        send_papers(out, self.1)?;
        send_later(out, self.0)
    }
}

/// The text of a file with its papers.
pub fn file_text(alloc: Global, file: &FileView, papers: &[Paper]) -> Result<Vec<u8>, AllocError>
    ensures { IfOk result (λ text. text.items ≡ compact_text (file_data file.now papers.now)) }
{
    text_of(alloc, &SentFile(file, papers))
}

/// Sends a file as a listing has it.
fn send_listed<S: Serializer>(out: &mut S, file: &FileView) -> Result<(), S::Error>
    ensures { OnOk result (SendsValue (listed_data file.now) (S.written out.old) (S.written out.new)) }
{
    out.begin_map(Some(21))?;
    send_before(out, file)?;
    send_later(out, file)
}

fn send_files<S: Serializer>(out: &mut S, files: &[FileView]) -> Result<(), S::Error>
    ensures { OnOk result (SendsValue (files_data files.now) (S.written out.old) (S.written out.new)) }
{
    out.begin_seq(Some(files.len()))?;
    for file in files {
        send_listed(out, file)?;
    }
    out.end_seq()
}

/// The files of a listing that are sent.
#[derive(Drop)]
struct SentListing<'f>(&'f [FileView]);

impl Described for SentListing<'_> {
    ghost writes = { λ sent. SendsValue (listing_data sent.0.now) };
}

impl Serialize for SentListing<'_> {
    fn serialize<S: Serializer>(&self, out: &mut S) -> Result<(), S::Error> {
        out.begin_map(Some(1))?;
        out.key("files")?;
        send_files(out, self.0)?;
        out.end_map()
    }
}

/// The text of a listing.
pub fn listing_text(alloc: Global, files: &[FileView]) -> Result<Vec<u8>, AllocError>
    ensures { IfOk result (λ text. text.items ≡ compact_text (listing_data files.now)) }
{
    text_of(alloc, &SentListing(files))
}
