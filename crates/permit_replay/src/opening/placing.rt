//! Finding a store in a text.

ghost use Rattle.std.specs.Prelude.{◌≡◌, ◌≤◌, ◌+◌, ◌++◌, ◌∷◌, [], ℕ, List, Some, IfErr, IfOk, IfSome, length};
ghost use Rattle.std.specs.Bool.{Decides};
ghost use Rattle.permit_base.specs.declared.words.Edition.TheVariants.{Second};
ghost use Rattle.permit_replay.specs.Alike.{AreAlike};
ghost use Rattle.permit_replay.specs.Comparing.{Looks};
ghost use Rattle.permit_history.specs.declared.entry.Entry.{Entry as TheEntry};
ghost use Rattle.permit_model.specs.History.{History, edition};
ghost use Rattle.permit_model.specs.Machine.{IsHistory};
ghost use Rattle.permit_model.specs.Sound.{IsSoundTables};
ghost use Rattle.permit_model.specs.Tables.{Tables, tables};
ghost use Rattle.permit_replay.specs.Histories.{Unsaid};
ghost use Rattle.permit_replay.specs.Holding.{Holds, IsBeginning};
ghost use Rattle.permit_replay.specs.declared.beginning.Beginning.{Beginning as TheBeginning};
ghost use Rattle.permit_store.specs.Frames.{OverTables};
ghost use Rattle.permit_replay.specs.Placing.{IsPlaceIn, IsWhere};
ghost use Rattle.permit_replay.specs.Telling.{HasTold};
ghost use Rattle.permit_replay.specs.Prefixes.{StopsAs};

use crate::alike::compare::are_alike;
use crate::alike::rows::is_same_desk;
use crate::beginning::Beginning;
use crate::fault::ReplayFault;
use crate::opening::fault::CompareFault;
use crate::replayed::Replayed;
use crate::text::{Progress, replay_line};
use permit_store::plain::PlainStore;
use permit_store::rows::Desk;
use permit_store::store::{Got, Store};
use std::alloc::Global;
use std::io::BufRead;

/// The place of a store in a text.
#[derive(Clone, Copy, PartialEq, Eq)]
pub struct Place {
    /// How many lines of the text give the tables that the store has, if any do: the most such lines.
    pub stood: Option<u64>,
    /// How many whole lines the text has.
    pub lines: u64,
    /// How many bytes these have. What is after them is a part of a line, or nothing.
    pub length: u64,
}

/// Whether a store, which has this desk, has the same tables as one in memory. The rows are compared only where the desks are the
/// same, so that a store is looked at for few lines of a text.
fn has_tables<S: Store>(told: &mut PlainStore, store: &mut S, desk: &Desk) -> Got<bool>
    ensures alike { OverTables (S.view store.old) (S.view store.new) (λ t. (u : Tables) → (⟦<PlainStore as Store>⟧.view told.old).holds u
        → t.desk ≡ desk.now → IsSoundTables u → IsSoundTables t → IfOk result (λ same. Decides same (AreAlike u t))) }
    ensures told { (u : Tables) → (⟦<PlainStore as Store>⟧.view told.old).holds u → (⟦<PlainStore as Store>⟧.view told.new).holds u }
    ensures looks { Looks (S.view store.old) (S.view store.new) }
{
    let here = told.desk()?;
    if !is_same_desk(&here, desk) {
        return Ok(false);
    }
    are_alike(told, store)
}

/// Whether a store, which has this desk, has the tables that were replayed. Where there are none yet it hasn't.
fn is_there<S: Store>(replayed: &mut Replayed, store: &mut S, desk: &Desk) -> Got<bool>
    ensures same { OverTables (S.view store.old) (S.view store.new) (λ t. (unsaid : Unsaid) (h : History) → Holds ⟦<PlainStore as Store>⟧.view unsaid replayed.old h
        → (IsHistory h → IsSoundTables (tables h)) → t.desk ≡ desk.now → IsSoundTables t
        → IfOk result (λ same. Decides same ((edition h ≡ Second) × AreAlike (tables h) t))) }
    ensures replayed { (unsaid : Unsaid) (h : History) → Holds ⟦<PlainStore as Store>⟧.view unsaid replayed.old h → Holds ⟦<PlainStore as Store>⟧.view unsaid replayed.new h }
    ensures looks { Looks (S.view store.old) (S.view store.new) }
{
    match replayed {
        Replayed::Open(told) => has_tables(told, store, desk),
        Replayed::Nothing(_) | Replayed::Founded(_) => Ok(false),
    }
}

/// The place of a store, which has this desk, in the lines of a text with this one, which has so many bytes with its LF and after
/// which so much was replayed.
fn step<S: Store>(
    replayed: &mut Replayed,
    store: &mut S,
    desk: &Desk,
    place: Place,
    line: u64,
    size: usize,
) -> Result<Place, CompareFault>
    ensures told { (beginning : TheBeginning) (bytes : List ℕ) (entries : List TheEntry) (left : List ℕ)
        → HasTold ⟦<PlainStore as Store>⟧.view (IsBeginning ⟦<PlainStore as Store>⟧.view beginning) bytes entries left replayed.old
        → HasTold ⟦<PlainStore as Store>⟧.view (IsBeginning ⟦<PlainStore as Store>⟧.view beginning) bytes entries left replayed.new }
    ensures placed { (beginning : TheBeginning) (bytes : List ℕ) (entries : List TheEntry) (entry : TheEntry) (left : List ℕ)
        → HasTold ⟦<PlainStore as Store>⟧.view (IsBeginning ⟦<PlainStore as Store>⟧.view beginning) bytes (entries ++ entry ∷ []) left replayed.old → line ≡ length entries + 1
        → OverTables (S.view store.old) (S.view store.new) (λ t. t.desk ≡ desk.now → IsSoundTables t
        → IsWhere (IsBeginning ⟦<PlainStore as Store>⟧.view beginning) place.stood entries t
        → IfOk result (λ more. IsWhere (IsBeginning ⟦<PlainStore as Store>⟧.view beginning) more.stood (entries ++ entry ∷ []) t)) }
    ensures counted { IfOk result (λ more. (more.lines ≡ line) × (more.length ≡ place.length + size)) }
    ensures stopped { (beginning : TheBeginning) (bytes : List ℕ) → place.length + size ≤ length bytes
        → IfErr result (StopsAs ⟦<PlainStore as Store>⟧.view (IsBeginning ⟦<PlainStore as Store>⟧.view beginning) bytes) }
    ensures looks { Looks (S.view store.old) (S.view store.new) }
{
    let Some(length) = place.length.checked_add(size as u64) else {
        return Err(CompareFault::Long);
    };
    let here = is_there(replayed, store, desk)?.then_some(line);
    let stood = here.or(place.stood);
    Ok(Place {
        stood,
        lines: line,
        length,
    })
}

/// The place of a store in a text, which may begin so: how many of its lines give the store's tables. Where several prefixes of
/// the text give the same tables, the longest counts. One without the upgrade has no tables here.
///
/// The whole text is replayed, and the store is looked at after each line. A text that is not replayed, or whose lines are the
/// founding alone or none, is a fault, and then it says nothing of the tables. The store is only read. It keeps the tables of the
/// lines that were read, and one line.
///
/// # Examples
///
/// ```
/// let mut source = text.as_bytes();
/// let Ok(place) = find_place(alloc, Beginning::Founding, &mut store, &mut source) else {
///     return Err(Fail::new("no place"));
/// };
/// assert!(rt; place.stood == Some(2) && place.lines == 9);
/// ```
pub fn find_place<S: Store, R: BufRead>(
    alloc: Global,
    beginning: Beginning,
    store: &mut S,
    source: &mut R,
) -> Result<Place, CompareFault>
    ensures placed { (bytes : List ℕ) → R.remaining source.old ≡ Some bytes
        → IfOk result (IsPlaceIn (IsBeginning ⟦<PlainStore as Store>⟧.view beginning) bytes (S.view store.old) (S.view store.new)) }
    ensures looks { Looks (S.view store.old) (S.view store.new) }
    ensures stopped { IfSome (R.remaining source.old) (λ bytes. IfErr result (StopsAs ⟦<PlainStore as Store>⟧.view (IsBeginning ⟦<PlainStore as Store>⟧.view beginning) bytes)) }
{
    let mut room = Vec::new(alloc);
    let desk = store.desk()?;
    let mut replayed = Replayed::Nothing(beginning);
    let mut place = Place {
        stood: None,
        lines: 0,
        length: 0,
    };
    for line in 1..u64::MAX {
        match replay_line(alloc, replayed, line, source, &mut room)? {
            Progress::Line(next) => {
                replayed = next;
                place = step(&mut replayed, store, &desk, place, line, room.len())?;
            }
            Progress::End(_) => return Ok(place),
        }
    }
    Err(CompareFault::Text(ReplayFault::Endless))
}
