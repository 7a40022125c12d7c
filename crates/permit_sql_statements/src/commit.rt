//! The changes of the tables, written down, and each in one transaction. The desk that is written is the one after the change.

ghost use Rattle.std.specs.Prelude.{◌≡◌, ◌≢◌, ◌+◌, [], ◌∷◌, ℕ, Option, Some, OnOk, IfOk};
ghost use Rattle.sqlite.specs.declared.types.Value.TheVariants.{Text as TextValue};
ghost use Rattle.sqlite.specs.Effect.{Database};
ghost use Rattle.sqlite.specs.State.{Survives};
ghost use Rattle.sqlite.specs.Held.{state};
ghost use Rattle.permit_model.specs.Tables.{Tables};
ghost use Rattle.permit_store.specs.Changes.{changed, Fits};
ghost use Rattle.permit_store.specs.declared.change.Change.TheVariants.{NewFile, NewRow};
ghost use Rattle.permit_sql_rows.specs.Kept.{Keeps, Shows};
ghost use Rattle.permit_sql_rows.specs.Rows.{int};
ghost use Rattle.permit_sql_statements.specs.Changing.{Names, NamesRow, change_statements, row_statements};
ghost use Rattle.permit_sql_statements.specs.Frames.{OverShown, FailureLeavesTables, IsOpenAfter, KeepsDoubt};
ghost use Rattle.permit_sql_statements.specs.Renewing.{renewal_statements};
ghost use Rattle.permit_sql_statements.specs.Written.{Writes, written_in};

use crate::idle::Idle;
use crate::lending::run_steps;
use crate::read::read_desk;
use crate::step::Step;
use crate::texts::{
    ADD_FILE, ADD_INTEREST, ADD_PAPER, ADD_PARCEL, ADD_PARTY, CLOSE_NOTICE, SET_DIGEST, SET_OWNER,
    WRITE_DESK, WRITE_FILE,
};
use permit_base::limits::number_after;
use permit_base::values::{Cents, Day, Days, Digest, FileId, PartyId, Text};
use permit_core::restore::StateFields;
use permit_core::state::FileState;
use permit_sql_rows::values::{
    desk_values, file_values, pair_values, paper_values, parcel_values, party_values, row_values,
};
use permit_store::rows::{Change, Desk, RowEffect};
use permit_store::store::{Got, StoreError};
use sqlite::{Alter, params};
use std::alloc::Global;

/// A party's number isn't 0.
fn is_party(party: Option<PartyId>)
    ensures { party ≢ Some 0 }
{
    if let Some(party) = party {
        let _number = party.get();
    }
}

/// A count of days isn't 0.
fn is_count(days: Option<Days>)
    ensures { days ≢ Some 0 }
{
    if let Some(days) = days {
        let _number = days.get();
    }
}

/// The fields of a row, in which no number is 0. Its edition is stored nowhere.
fn fields_of(row: &FileState) -> StateFields
    ensures same { result ≡ row.now }
    ensures named { Names row.now }
{
    let fields = row.fields();
    is_party(fields.contractor);
    is_party(fields.reviewer);
    is_party(fields.inspector);
    is_count(fields.ask);
    fields
}

/// In the row that a change writes no number is 0.
fn names_row(change: &Change<'_>)
    ensures { NamesRow change.now }
{
    match change {
        Change::NewFile {
            state,
            valuation: _,
            description: _,
        } => {
            let _fields = fields_of(state);
        }
        Change::NewRow {
            file: _,
            state,
            effect: _,
        } => {
            let _fields = fields_of(state);
        }
        Change::NewParty {
            name: _,
            role: _,
            digest: _,
        } => {}
        Change::NewParcel {
            lot: _,
            address: _,
            owner: _,
        } => {}
        Change::NewOwner {
            parcel: _,
            owner: _,
        } => {}
        Change::NewInterest {
            parcel: _,
            party: _,
        } => {}
    }
}

/// Adds a file, whose number is the desk's count of files.
fn write_file(
    step: &mut Step,
    desk: &Desk,
    new: &FileState,
    valuation: Cents,
    description: &Text,
) -> Got<()>
    ensures { Writes (row_statements desk.now (NewFile new.now valuation description.entry)) step.old step.new result }
{
    let file = file_values(desk, valuation, description, &fields_of(new));
    step.add(ADD_FILE, &file)
}

/// Sets a file's row, with its effect: a paper is added on the desk's day, and its number is the row's count of papers.
fn write_row(
    step: &mut Step,
    desk: &Desk,
    file: FileId,
    new: &FileState,
    effect: &RowEffect<'_>,
) -> Got<()>
    ensures { Writes (row_statements desk.now (NewRow file new.now effect.now)) step.old step.new result }
{
    let now = fields_of(new);
    let fields = row_values(file, &now);
    step.add(WRITE_FILE, &fields)?;
    match effect {
        RowEffect::None => Ok(()),
        RowEffect::Paper(paper) => {
            let added = paper_values(file, &now, desk, paper);
            step.add(ADD_PAPER, &added)
        }
        RowEffect::NoticeClosed(number) => {
            let pair = pair_values(file.get(), number.get());
            step.add(CLOSE_NOTICE, &pair)
        }
    }
}

/// Writes a change down, but for the desk. A new record's number is the desk's count of its kind.
fn write_change(step: &mut Step, desk: &Desk, change: &Change<'_>) -> Got<()>
    ensures { Writes (row_statements desk.now change.now) step.old step.new result }
{
    match change {
        Change::NewParty { name, role, digest } => {
            let party = party_values(desk, name, *role, digest);
            step.add(ADD_PARTY, &party)
        }
        Change::NewParcel {
            lot,
            address,
            owner,
        } => {
            let parcel = parcel_values(desk, lot, address, *owner);
            step.add(ADD_PARCEL, &parcel)
        }
        Change::NewOwner { parcel, owner } => {
            let pair = pair_values(parcel.get(), owner.get());
            step.add(SET_OWNER, &pair)
        }
        Change::NewInterest { parcel, party } => {
            let pair = pair_values(parcel.get(), party.get());
            step.add(ADD_INTEREST, &pair)
        }
        Change::NewFile {
            state,
            valuation,
            description,
        } => write_file(step, desk, state, *valuation, description),
        Change::NewRow {
            file,
            state,
            effect,
        } => write_row(step, desk, *file, state, effect),
    }
}

/// The number of the record after so many of its kind, which is their count with it.
fn next(count: u32) -> Got<u32>
    ensures { IfOk result (λ n. n ≡ count + 1) }
{
    number_after(count).ok_or(StoreError)
}

/// The desk after a change on a day.
fn desk_after(desk: &Desk, change: &Change<'_>, day: Day) -> Got<Desk>
    ensures { (t : Tables) → desk.now ≡ t.desk → IfOk result (λ d. d ≡ (changed t change.now day).desk) }
{
    let desk = Desk { last: day, ..*desk };
    match change {
        Change::NewParty { .. } => Ok(Desk {
            parties: next(desk.parties)?,
            ..desk
        }),
        Change::NewParcel { .. } => Ok(Desk {
            parcels: next(desk.parcels)?,
            ..desk
        }),
        Change::NewOwner { .. } => Ok(desk),
        Change::NewInterest { .. } => Ok(desk),
        Change::NewFile { .. } => Ok(Desk {
            files: next(desk.files)?,
            ..desk
        }),
        Change::NewRow { .. } => Ok(desk),
    }
}

/// Writes a change on a day down, of tables with this desk. It fails only where memory is refused, or where there is no number for
/// one more record of its kind.
pub fn change_step(alloc: Global, desk: &Desk, change: &Change<'_>, day: Day) -> Got<Step>
    ensures written { (t : Tables) → desk.now ≡ t.desk
        → IfOk result (λ step. written_in step ≡ change_statements (changed t change.now day).desk change.now) }
    ensures named { NamesRow change.now }
{
    names_row(change);
    let after = desk_after(desk, change, day)?;
    let mut step = Step::new(alloc);
    write_change(&mut step, &after, change)?;
    let office = desk_values(&after);
    step.add(WRITE_DESK, &office)?;
    Ok(step)
}

/// Writes down that a party has another digest. It fails only where memory is refused.
pub fn renewal_step(alloc: Global, party: PartyId, digest: &Digest) -> Got<Step>
    ensures { IfOk result (λ step. written_in step ≡ renewal_statements (int party ∷ TextValue digest.now ∷ [])) }
{
    let mut step = Step::new(alloc);
    step.add(SET_DIGEST, params![party.get(), digest.as_str()])?;
    Ok(step)
}

/// Makes a change that fits on a day, or changes nothing, also over a crash.
///
/// # Examples
///
/// ```
/// let change = Change::NewParty {
///     name: &name,
///     role: Role::Clerk,
///     digest,
/// };
/// commit_in(conn, alloc, &change, day)?;
/// assert!(rt; read_desk(conn)?.parties == 2);
/// ```
pub fn commit_in<S: Alter>(
    conn: &mut Idle<S>,
    alloc: Global,
    change: &Change<'_>,
    day: Day,
) -> Got<()>
    ensures made { OverShown S.Store conn.old conn.new
        (λ t. Fits t change.now day → OnOk result (Shows (changed t change.now day) (state S.Store conn.new))) }
    ensures kept { FailureLeavesTables S.Store conn.old conn.new result }
    ensures open { IsOpenAfter S.Store conn.new result }
    ensures doubt { KeepsDoubt S.Store conn.old conn.new }
    ensures crash { (t : Tables) → Keeps t (state S.Store conn.old).now → Fits t change.now day
        → Survives (state S.Store conn.old) (state S.Store conn.new)
        (λ trees. (db : Database) × Keeps (changed t change.now day) db × (trees ≡ db.trees)) }
{
    let desk = read_desk(conn)?;
    let step = change_step(alloc, &desk, change, day)?;
    run_steps(conn, alloc, &[step])
}
