//! What is looked for in the rows.

ghost use Rattle.std.specs.Prelude.{◌≡◌, IfOk, IfSome, ◌==◌, ◌&&◌, ◌+◌, ◌<◌, find, option_map, map, length, None};
ghost use Rattle.std.specs.List.{list_any, slice_get};
ghost use Rattle.permit_store.specs.Plain.{papers_at, AreInPlace};

use crate::plain::kept::Kept;
use crate::rows::{FileRow, Paper, Parcel, Party};
use permit_base::values::{FileId, PaperNumber};
use permit_core::state::FileState;
use std::alloc::{AllocError, Global};
use std::collections::LinkedList;

/// The place of the file of the number: the files are numbered from 1 without a gap.
pub(crate) fn place_of(files: &[Kept], id: FileId) -> Option<usize>
    requires places { AreInPlace files.now }
    ensures some { IfSome result (λ place. (id ≡ 1 + place) × (place < length files.now)) }
    ensures none { result ≡ None → length files.now < id }
{
    let place = id.get() as usize - 1;
    if place < files.len() {
        Some(place)
    } else {
        None
    }
}

/// The row at the place.
pub(crate) fn row_at<T>(rows: &[T], place: usize) -> Option<&T>
    ensures { option_map (λ row. row.now) result ≡ slice_get rows.now place }
{
    rows.get(place)
}

fn file_numbered(files: &[Kept], id: FileId) -> Option<&Kept>
    requires places { AreInPlace files.now }
    ensures { option_map (λ k. k.now) result ≡ find (λ k. k.row.id == id) files.now }
{
    row_at(files, id.get() as usize - 1)
}

/// A copy of the party that is found.
pub(crate) fn copy_party(found: Option<&Party>) -> Result<Option<Party>, AllocError>
    ensures { IfOk result (λ p. p ≡ option_map (λ q. q.now) found.entry) }
{
    match found {
        None => Ok(None),
        Some(party) => Ok(Some(party.clone()?)),
    }
}

/// A copy of the parcel that is found.
pub(crate) fn copy_parcel(found: Option<&Parcel>) -> Result<Option<Parcel>, AllocError>
    ensures { IfOk result (λ p. p ≡ option_map (λ q. q.now) found.entry) }
{
    match found {
        None => Ok(None),
        Some(parcel) => Ok(Some(parcel.clone()?)),
    }
}

fn copy_file(found: Option<&Kept>) -> Result<Option<FileRow>, AllocError>
    ensures { IfOk result (λ p. p ≡ option_map (λ k. k.row) (option_map (λ k. k.now) found.entry)) }
{
    match found {
        None => Ok(None),
        Some(kept) => Ok(Some(kept.row.clone()?)),
    }
}

fn copy_state(found: Option<&Kept>) -> Option<FileState>
    ensures { result ≡ option_map (λ f. f.state) (option_map (λ k. k.row) (option_map (λ k. k.now) found.entry)) }
{
    match found {
        None => None,
        Some(kept) => Some(kept.row.state),
    }
}

/// A copy of papers.
fn copy_papers(alloc: Global, papers: &LinkedList<Paper>) -> Result<Vec<Paper>, AllocError>
    ensures { IfOk result (λ v. v.items ≡ papers.now) }
{
    let mut copies = Vec::with_capacity(alloc, papers.len())?;
    for paper in papers.iter() {
        copies.push(paper.clone()?)?;
    }
    Ok(copies)
}

/// The file of the number.
pub(crate) fn find_file(files: &[Kept], id: FileId) -> Result<Option<FileRow>, AllocError>
    requires places { AreInPlace files.now }
    ensures { IfOk result (λ p. p ≡ find (λ f. f.id == id) (map (λ k. k.row) files.now)) }
{
    copy_file(file_numbered(files, id))
}

/// The state of the file of the number.
pub(crate) fn state_of(files: &[Kept], id: FileId) -> Option<FileState>
    requires places { AreInPlace files.now }
    ensures { result ≡ option_map (λ f. f.state) (find (λ f. f.id == id) (map (λ k. k.row) files.now)) }
{
    copy_state(file_numbered(files, id))
}

/// Whether one of the papers is an open notice of the number.
fn is_notice_open(papers: &LinkedList<Paper>, number: PaperNumber) -> bool
    ensures { result ≡ list_any (λ p. p.is_open && (p.number == number)) papers.now }
{
    papers.iter().any(|paper| {
        let paper: &Paper = paper;
        paper.is_open && paper.number.get() == number.get()
    })
}

/// Whether the paper of the number is an open notice of the file.
pub(crate) fn has_open_notice(files: &[Kept], file: FileId, number: PaperNumber) -> bool
    requires places { AreInPlace files.now }
    ensures { result ≡ list_any (λ p. p.is_open && (p.number == number)) (papers_at file files.now) }
{
    match file_numbered(files, file) {
        None => false,
        Some(kept) => is_notice_open(&kept.papers, number),
    }
}

/// The papers of a file.
pub(crate) fn papers_of(
    alloc: Global,
    files: &[Kept],
    file: FileId,
) -> Result<Vec<Paper>, AllocError>
    requires places { AreInPlace files.now }
    ensures { IfOk result (λ v. v.items ≡ papers_at file files.now) }
{
    match file_numbered(files, file) {
        None => Ok(Vec::new(alloc)),
        Some(kept) => copy_papers(alloc, &kept.papers),
    }
}
