//! Where a store's tables differ from those of a text.

ghost use Rattle.std.specs.Prelude.{◌≡◌, ℕ, List, Some, IfErr, IfNone, IfOk, IfSome};
ghost use Rattle.permit_replay.specs.Comparing.{Looks};
ghost use Rattle.permit_model.specs.Sound.{IsSoundTables};
ghost use Rattle.permit_replay.specs.Holding.{IsBeginning};
ghost use Rattle.permit_store.specs.Frames.{OverTables};
ghost use Rattle.permit_replay.specs.Opening.{DiffersFirst, IsAlike};
ghost use Rattle.permit_replay.specs.Prefixes.{StopsAs};

use crate::alike::compare::first_difference;
use crate::alike::differing::Difference;
use crate::beginning::Beginning;
use crate::opening::fault::CompareFault;
use crate::text::replay_whole;
use permit_store::plain::PlainStore;
use permit_store::store::Store;
use std::alloc::Global;
use std::io::BufRead;

/// The first place at which a store's tables differ from those that the whole lines of a text give, or none where they are
/// those. The order of the places is that of `first_difference`.
///
/// A store that keeps to the first edition differs at the desk. A text that is not replayed, or whose lines are the founding
/// alone or none, is a fault, and then it says nothing of the tables. The store is only read.
///
/// # Examples
///
/// ```
/// let other = text.replace(alloc, "\"Rae\"", "\"Ray\"")?;
/// let mut source = other.as_bytes();
/// let found = difference(alloc, Beginning::Founding, &mut store, &mut source);
/// assert!(rt; matches!(found, Ok(Some(Difference::Party(2)))));
/// ```
pub fn difference<S: Store, R: BufRead>(
    alloc: Global,
    beginning: Beginning,
    store: &mut S,
    source: &mut R,
) -> Result<Option<Difference>, CompareFault>
    ensures none { (bytes : List ℕ) → R.remaining source.old ≡ Some bytes → OverTables (S.view store.old) (S.view store.new)
        (λ t. IsSoundTables t → IfOk result (λ found. IfNone found ((size : ℕ) × IsAlike (IsBeginning ⟦<PlainStore as Store>⟧.view beginning) bytes t size))) }
    ensures named { (bytes : List ℕ) → R.remaining source.old ≡ Some bytes → OverTables (S.view store.old) (S.view store.new)
        (λ t. IfOk result (λ found. IfSome found (DiffersFirst (IsBeginning ⟦<PlainStore as Store>⟧.view beginning) bytes t))) }
    ensures looks { Looks (S.view store.old) (S.view store.new) }
    ensures stopped { IfSome (R.remaining source.old) (λ bytes. IfErr result (StopsAs ⟦<PlainStore as Store>⟧.view (IsBeginning ⟦<PlainStore as Store>⟧.view beginning) bytes)) }
{
    let mut told = replay_whole(alloc, beginning, source)?;
    let found = first_difference(&mut told, store)?;
    Ok(found)
}
