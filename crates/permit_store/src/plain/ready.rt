//! The memory that a change needs, asked for beforehand, and the changes that then can't fail.

ghost use Rattle.std.specs.Prelude.{◌≡◌, ◌≤◌, ◌<◌, [], ◌∷◌, ◌++◌, ◌+◌, length, map, ℕ, if◌then◌else◌, ◌==◌, IfSome, vec_capacity};
ghost use Rattle.permit_base.specs.Limits.{most_records};
ghost use Rattle.permit_model.specs.Caller.{Party as TheParty};
ghost use Rattle.permit_model.specs.Parcels.{Parcel as TheParcel};
ghost use Rattle.permit_model.specs.Tables.{FileRow as TheRow};
ghost use Rattle.permit_store.specs.Changes.{with_state, papers_after, paper_of};
ghost use Rattle.permit_store.specs.Plain.{renewed, papers_at, AreInPlace};
ghost use Rattle.permit_store.specs.declared.plain.ready.Ready.TheVariants as is;
ghost use Rattle.permit_store.specs.Preparing.{CanTake, TakesParty, TakesParcel, TakesInterest, IsReadyPaper, IsReadyEffect};

use crate::plain::find;
use crate::plain::interests::Interests;
use crate::plain::kept::Kept;
use crate::plain::papers::{close_paper, made_paper};
use crate::plain::parcels::Parcels;
use crate::plain::parties::Parties;
use crate::rows::{FileRow, Interest, NewPaper, Paper, Parcel, Party, RowEffect};
use permit_base::limits::{MOST_RECORDS, number_after};
use permit_base::values::{Cents, Day, Digest, FileId, Lot, ParcelId, PartyId, Text};
use permit_base::words::Role;
use permit_core::shared::SharedText;
use permit_core::state::FileState;
use std::alloc::Global;
use std::collections::LinkedList;

/// The most that a list holds, so one with fewer takes in another paper. Memory never has room for so many.
const MOST_LISTED: usize = usize::MAX / 2;

/// The row that a change adds, with room for it.
#[derive(Drop)]
pub enum Ready {
    Nothing,
    Party(Party),
    Parcel(Parcel),
    File(FileRow),
    /// A list of the paper alone, which the list of its file's papers takes in.
    Paper(LinkedList<Paper>),
}

/// A party with the next number, and room for it; None where there may be no more, or no memory.
pub(crate) fn ready_party(
    parties: &mut Parties,
    name: &Text,
    role: Role,
    digest: &Digest,
) -> Option<Ready>
    ensures kept { parties.new.rows.items ≡ parties.old.rows.items }
    ensures ready { IfSome result
        (λ r. r ≡ is.Party (record { id = length parties.new.rows.items + 1; name = name.now; role = role; digest = digest.now })) }
    ensures room { IfSome result (λ _. TakesParty parties.new) }
{
    let number = number_after(parties.count())?;
    let id = PartyId::new(number)?;
    let Ok(name) = name.clone() else {
        return None;
    };
    let Ok(()) = parties.reserve() else {
        return None;
    };
    Some(Ready::Party(Party {
        id,
        name,
        role,
        digest: *digest,
    }))
}

/// Adds the party.
pub(crate) fn put_party(parties: &mut Parties, ready: Ready)
    requires number { (party : TheParty) → ready ≡ is.Party party → party.id ≡ length parties.old.rows.items + 1 }
    requires room { TakesParty parties.old }
    ensures { (party : TheParty) → ready ≡ is.Party party → parties.new.rows.items ≡ parties.old.rows.items ++ party ∷ [] }
{
    if let Ready::Party(party) = ready {
        parties.add(party);
    }
}

/// A parcel with the next number, and room for it; None where there may be no more, or no memory.
pub(crate) fn ready_parcel(
    parcels: &mut Parcels,
    lot: &Lot,
    address: &Text,
    owner: PartyId,
) -> Option<Ready>
    ensures kept { parcels.new.rows.items ≡ parcels.old.rows.items }
    ensures ready { IfSome result
        (λ r. r ≡ is.Parcel (record { id = length parcels.new.rows.items + 1; lot = lot.now; address = address.now; owner = owner })) }
    ensures room { IfSome result (λ _. TakesParcel parcels.new) }
{
    let number = number_after(parcels.count())?;
    let id = ParcelId::new(number)?;
    let Ok(lot) = lot.clone() else {
        return None;
    };
    let Ok(address) = address.clone() else {
        return None;
    };
    let Ok(()) = parcels.reserve() else {
        return None;
    };
    Some(Ready::Parcel(Parcel {
        id,
        lot,
        address,
        owner,
    }))
}

/// Adds the parcel.
pub(crate) fn put_parcel(parcels: &mut Parcels, ready: Ready)
    requires number { (parcel : TheParcel) → ready ≡ is.Parcel parcel → parcel.id ≡ length parcels.old.rows.items + 1 }
    requires room { TakesParcel parcels.old }
    ensures { (parcel : TheParcel) → ready ≡ is.Parcel parcel → parcels.new.rows.items ≡ parcels.old.rows.items ++ parcel ∷ [] }
{
    if let Ready::Parcel(parcel) = ready {
        parcels.add(parcel);
    }
}

/// Room for an interest; None where there is no memory.
pub(crate) fn ready_interest(interests: &mut Interests) -> Option<Ready>
    ensures kept { interests.new.rows.items ≡ interests.old.rows.items }
    ensures room { IfSome result (λ _. TakesInterest interests.new) }
{
    match interests.reserve() {
        Ok(()) => Some(Ready::Nothing),
        Err(_) => None,
    }
}

/// A file with the next number, and room for it; None where there may be no more, or no memory.
pub(crate) fn ready_file(
    files: &mut Vec<Kept>,
    state: FileState,
    valuation: Cents,
    description: &Text,
) -> Option<Ready>
    requires few { length files.old.items ≤ most_records }
    ensures kept { files.new.items ≡ files.old.items }
    ensures ready { IfSome result
        (λ r. r ≡ is.File (record { id = length files.new.items + 1; state = state; valuation = valuation; description = description.now })) }
    ensures room { IfSome result (λ _. CanTake (length files.new.items) (vec_capacity files.new)) }
{
    let number = number_after(files.len() as u32)?;
    let id = FileId::new(number)?;
    let Ok(description) = description.clone() else {
        return None;
    };
    let Ok(description) = SharedText::new(*files.allocator(), description) else {
        return None;
    };
    let Ok(()) = files.reserve(1) else {
        return None;
    };
    Some(Ready::File(FileRow {
        id,
        state,
        valuation,
        description,
    }))
}

/// Adds the file, with no papers.
pub(crate) fn put_file(alloc: Global, files: &mut Vec<Kept>, ready: Ready)
    ensures made { (row : TheRow) → ready ≡ is.File row → row.id ≡ length files.old.items + 1 → CanTake (length files.old.items) (vec_capacity files.old)
        → files.new.items ≡ files.old.items ++ (record { row = row; papers = [] }) ∷ [] }
    ensures few { length files.old.items ≤ most_records → length files.new.items ≤ most_records }
    ensures places { AreInPlace files.old.items → AreInPlace files.new.items }
{
    let Ready::File(row) = ready else {
        return;
    };
    if row.id.get() as usize == files.len() + 1 && files.len() < MOST_RECORDS as usize {
        let papers = LinkedList::new(alloc);
        let _pushed = files.push(Kept { row, papers }).is_ok();
    }
}

/// A list of the paper alone, which those of its file can take in; None where there is no memory.
fn ready_paper(
    alloc: Global,
    papers: &LinkedList<Paper>,
    file: FileId,
    count: u16,
    day: Day,
    new: &NewPaper<'_>,
) -> Option<Ready>
    ensures { IfSome result (λ r. IsReadyPaper (paper_of file count day new.now) (length papers.now) r) }
{
    if papers.len() >= MOST_LISTED {
        return None;
    }
    let paper = made_paper(alloc, file, count, day, new)?;
    let mut alone = LinkedList::new(alloc);
    let Ok(()) = alone.push_back(paper) else {
        return None;
    };
    Some(Ready::Paper(alone))
}

/// What the papers of a file need for its new row.
fn ready_effect(
    alloc: Global,
    papers: &LinkedList<Paper>,
    file: FileId,
    count: u16,
    effect: &RowEffect<'_>,
    day: Day,
) -> Option<Ready>
    ensures { IfSome result (λ r. IsReadyEffect file count day effect.now papers.now r) }
{
    match effect {
        RowEffect::None | RowEffect::NoticeClosed(_) => Some(Ready::Nothing),
        RowEffect::Paper(new) => ready_paper(alloc, papers, file, count, day, new),
    }
}

/// What a file's new row needs; None where there is no such file, or no memory.
pub(crate) fn ready_row(
    alloc: Global,
    files: &[Kept],
    file: FileId,
    count: u16,
    effect: &RowEffect<'_>,
    day: Day,
) -> Option<Ready>
    requires places { AreInPlace files.now }
    ensures there { IfSome result (λ _. file ≤ length files.now) }
    ensures ready { IfSome result (λ r. IsReadyEffect file count day effect.now (papers_at file files.now) r) }
{
    let place = find::place_of(files, file)?;
    let kept = &files[place];
    ready_effect(alloc, &kept.papers, file, count, effect, day)
}

/// What changes of a file's papers by its new row.
fn put_effect(
    papers: &mut LinkedList<Paper>,
    file: FileId,
    count: u16,
    effect: &RowEffect<'_>,
    day: Day,
    ready: Ready,
)
    ensures { IsReadyEffect file count day effect.now papers.old ready → papers.new ≡ papers_after file count day effect.now papers.old }
{
    match effect {
        RowEffect::None => {}
        RowEffect::NoticeClosed(number) => close_paper(papers, file, *number),
        RowEffect::Paper(_) => {
            if let Ready::Paper(mut paper) = ready {
                let _joined = papers.append(&mut paper).is_ok();
            }
        }
    }
}

/// The file's new row, with what else changes by it.
fn refresh(
    kept: &mut Kept,
    file: FileId,
    state: FileState,
    effect: &RowEffect<'_>,
    day: Day,
    ready: Ready,
)
    ensures made { IsReadyEffect file state.papers day effect.now kept.old.papers ready → kept.new ≡ renewed file state day effect.now kept.old }
    ensures row { kept.new.row ≡ record kept.old.row { state = state } }
{
    put_effect(&mut kept.papers, file, state.papers(), effect, day, ready);
    kept.row.state = state;
}

/// A file's new row, with what else changes by it, at the file's place.
pub(crate) fn put_ready_row(
    files: &mut [Kept],
    file: FileId,
    state: FileState,
    effect: &RowEffect<'_>,
    day: Day,
    ready: Ready,
)
    requires places { AreInPlace files.old }
    ensures rows { file ≤ length files.old → map (λ k. k.row) files.new ≡ map (with_state file state) (map (λ k. k.row) files.old) }
    ensures papers { file ≤ length files.old → IsReadyEffect file state.papers day effect.now (papers_at file files.old) ready → (f : ℕ)
        → papers_at f files.new ≡ (if file == f then papers_after file state.papers day effect.now (papers_at file files.old) else papers_at f files.old) }
    ensures places { AreInPlace files.new }
    ensures count { length files.new ≡ length files.old }
{
    if let Some(place) = find::place_of(files, file) {
        refresh(&mut files[place], file, state, effect, day, ready);
    }
}
