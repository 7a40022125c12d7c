//! The papers of a file.

ghost use Rattle.std.specs.Prelude.{◌≡◌, ◌++◌, map, take, drop, IfOk, IfSome, string_bytes};
ghost use Rattle.permit_model.specs.Tables;
ghost use Rattle.permit_store.specs.Changes.{closed_by, text_of, paper_of};

use crate::rows::{NewPaper, Paper};
use permit_base::values::{Day, FileId, PaperNumber, Text};
use permit_base::words::PaperSort;
use std::alloc::{AllocError, Global};
use std::collections::LinkedList;

/// A copy of a text, or the empty text.
fn copied(alloc: Global, text: Option<&Text>) -> Result<String, AllocError>
    ensures { IfOk result (λ s. string_bytes s ≡ text_of text.entry) }
{
    match text {
        None => Ok(String::new(alloc)),
        Some(text) => String::from_str(alloc, text.as_str()),
    }
}

/// Whether the paper is a correction notice.
fn is_notice(sort: PaperSort) -> bool
    ensures { result ≡ Tables.is_notice sort }
{
    match sort {
        PaperSort::Notice => true,
        PaperSort::Permit
        | PaperSort::Returned
        | PaperSort::Resubmitted
        | PaperSort::Rejected
        | PaperSort::Asked
        | PaperSort::Granted
        | PaperSort::Refused
        | PaperSort::Stop
        | PaperSort::Lifted
        | PaperSort::Revoked
        | PaperSort::Temporary
        | PaperSort::Certificate => false,
    }
}

/// Closes the paper if it is the file's of the number.
fn close(paper: &mut Paper, file: FileId, number: PaperNumber)
    ensures { paper.new ≡ closed_by file number paper.old }
{
    if paper.file.get() == file.get() && paper.number.get() == number.get() {
        paper.is_open = false;
    }
}

/// Closes the list's first paper if it is the file's of the number.
fn close_first(papers: &mut LinkedList<Paper>, file: FileId, number: PaperNumber)
    ensures { papers.new ≡ map (closed_by file number) (take 1 papers.old) ++ drop 1 papers.old }
{
    if let Some(first) = papers.front_mut() {
        close(first, file, number);
    }
}

/// Puts the list's first paper after the others, which moves no paper and asks for no memory.
fn turn(papers: &mut LinkedList<Paper>)
    ensures { papers.new ≡ drop 1 papers.old ++ take 1 papers.old }
{
    if papers.len() < 2 {
        return;
    }
    if let Ok(mut rest) = papers.split_off(1) {
        let _joined = rest.append(papers).is_ok();
        *papers = rest;
    }
}

/// Closes a paper of a file. The list is turned once round: its `iter_mut` promises nothing of what is written by it.
pub(crate) fn close_paper(papers: &mut LinkedList<Paper>, file: FileId, number: PaperNumber)
    ensures { papers.new ≡ map (closed_by file number) papers.old }
{
    for _place in 0..papers.len() {
        close_first(papers, file, number);
        turn(papers);
    }
}

/// The paper of a file's new row, which has this count of papers.
pub(crate) fn made_paper(
    alloc: Global,
    file: FileId,
    count: u16,
    day: Day,
    new: &NewPaper<'_>,
) -> Option<Paper>
    ensures { IfSome result (λ p. p ≡ paper_of file count day new.now) }
{
    let number = PaperNumber::new(count as u32)?;
    let Ok(text) = copied(alloc, new.text) else {
        return None;
    };
    let Ok(terms) = copied(alloc, new.terms) else {
        return None;
    };
    let is_open = is_notice(new.sort);
    Some(Paper {
        file,
        number,
        day,
        author: new.author,
        sort: new.sort,
        days: new.days,
        text,
        terms,
        is_open,
    })
}

/// The papers as a list.
pub(crate) fn listed(alloc: Global, papers: Vec<Paper>) -> Result<LinkedList<Paper>, AllocError>
    ensures { IfOk result (λ list. list ≡ papers.items) }
{
    LinkedList::from_iter(alloc, papers)
}
