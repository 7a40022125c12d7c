//! Bringing a store that has the tables of a prefix of a text to the end of that text.

ghost use Rattle.std.specs.Prelude.{◌≡◌, ◌≤◌, ℕ, false, List, Some, Err, IfErr, IfOk, IfSome, OnErr};
ghost use Rattle.permit_model.specs.Sound.{IsSoundTables};
ghost use Rattle.permit_replay.specs.Comparing.{Looks};
ghost use Rattle.permit_replay.specs.Holding.{IsBeginning};
ghost use Rattle.permit_store.specs.Frames.{OverTables};
ghost use Rattle.permit_replay.specs.Bringing.{HasLines, IsBrought, IsNowhere, IsOnTheWay, IsStopped, may_have_done};
ghost use Rattle.permit_replay.specs.declared.opening.fault.BringFault.TheVariants as fault;

use crate::alike::unordered::Unordered;
use crate::beginning::Beginning;
use crate::opening::fault::BringFault;
use crate::opening::placing::find_place;
use crate::opening::redoing::redo;
use permit_batch::batching::Batching;
use permit_store::plain::PlainStore;
use permit_store::store::Store;
use std::alloc::Global;
use std::io::BufRead;

/// How far a store was brought in a text.
#[derive(Clone, Copy, PartialEq, Eq)]
pub struct Brought {
    /// How many lines gave the tables that the store had: the most such lines.
    pub stood: u64,
    /// How many whole lines the text has, whose tables the store has now.
    pub lines: u64,
    /// How many bytes these have. What is after them is a part of a line, or nothing.
    pub length: u64,
}

/// Brings a store further whose tables are those that a prefix of the text gives, to the tables that the text's whole lines give.
/// The text may begin so. Of it there are two readings, from its start: the first finds the store, and the second is of the lines
/// that are redone, if there are any. At most 1000 lines are redone by one commit, so a crash leaves the tables of some prefix.
///
/// Where several prefixes give the store's tables, the longest counts, so that no more is redone than has to be. Where none with
/// the upgrade does, it is a fault and the tables are as before. The store is only read before the whole text was replayed.
/// The second reading keeps a copy of the tables in memory, and the lines that aren't done yet.
///
/// # Examples
///
/// ```
/// let mut kept = Unordered { store };
/// let (mut source, mut again) = (text.as_bytes(), text.as_bytes());
/// let beginning = Beginning::Founding;
/// let brought = bring(alloc, beginning, &mut kept, &mut source, &mut again);
/// assert!(rt; matches!(brought, Ok(it) if it.stood == 2 && it.lines == 3));
/// ```
pub fn bring<S: Batching, R: BufRead, Q: BufRead>(
    alloc: Global,
    beginning: Beginning,
    store: &mut Unordered<S>,
    source: &mut R,
    again: &mut Q,
) -> Result<Brought, BringFault>
    ensures brought { (bytes : List ℕ) → R.remaining source.old ≡ Some bytes → Q.remaining again.old ≡ Some bytes
        → OverTables (S.Store.view store.old.store) (S.Store.view store.new.store)
        (λ t. IsSoundTables t → IfOk result (IsBrought (IsBeginning ⟦<PlainStore as Store>⟧.view beginning) bytes t (S.Store.view store.new.store))) }
    ensures whole { (bytes : List ℕ) → R.remaining source.old ≡ Some bytes
        → IfOk result (λ brought. HasLines (IsBeginning ⟦<PlainStore as Store>⟧.view beginning) bytes brought.lines brought.length) }
    ensures idle { IfOk result (λ brought. brought.lines ≤ brought.stood → Looks (S.Store.view store.old.store) (S.Store.view store.new.store)) }
    ensures differs { (bytes : List ℕ) → R.remaining source.old ≡ Some bytes
        → OverTables (S.Store.view store.old.store) (S.Store.view store.new.store)
        (λ t. IsSoundTables t → result ≡ Err fault.Differs → IsNowhere (IsBeginning ⟦<PlainStore as Store>⟧.view beginning) bytes t × (S.Store.view store.new.store).holds t) }
    ensures left { (bytes : List ℕ) → R.remaining source.old ≡ Some bytes → Q.remaining again.old ≡ Some bytes
        → OverTables (S.Store.view store.old.store) (S.Store.view store.new.store)
        (λ t. IsSoundTables t → OnErr result (IsOnTheWay (IsBeginning ⟦<PlainStore as Store>⟧.view beginning) bytes t (S.Store.view store.new.store))) }
    ensures looks { IfErr result (λ why. may_have_done why ≡ false → Looks (S.Store.view store.old.store) (S.Store.view store.new.store)) }
    ensures stopped { IfSome (R.remaining source.old) (λ bytes. IfErr result (IsStopped ⟦<PlainStore as Store>⟧.view (IsBeginning ⟦<PlainStore as Store>⟧.view beginning) bytes)) }
    ensures doubt { (S.Store.view store.old.store).doubt ≤ (S.Store.view store.new.store).doubt }
{
    let place = match find_place(alloc, beginning, &mut store.store, source) {
        Ok(place) => place,
        Err(why) => return Err(BringFault::Stopped(why)),
    };
    let Some(stood) = place.stood else {
        return Err(BringFault::Differs);
    };
    let (lines, length) = (place.lines, place.length);
    let brought = Brought {
        stood,
        lines,
        length,
    };
    if lines <= stood {
        return Ok(brought);
    }
    match redo(alloc, &mut store.store, again, stood, lines) {
        Ok(()) => Ok(brought),
        Err(fault) => Err(fault),
    }
}
