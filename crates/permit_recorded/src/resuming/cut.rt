//! Bringing a store to the end of a history's text, and cutting what is after its whole lines.

ghost use Rattle.std.specs.Prelude.{◌≡◌, ◌≤◌, ◌⊎◌, ℕ, List, Err, false, IfErr, IfOk, IsTrue, OnErr, OnOk, length, take};
ghost use Rattle.permit_journal.specs.Files.{Only};
ghost use Rattle.permit_model.specs.Sound.{IsSoundTables};
ghost use Rattle.permit_replay.specs.Bringing.{IsNowhere, IsOnTheWay};
ghost use Rattle.permit_replay.specs.Comparing.{Looks};
ghost use Rattle.permit_replay.specs.Holding.{IsBeginning};
ghost use Rattle.permit_replay.specs.declared.opening.fault.BringFault.TheVariants.{Differs};
ghost use Rattle.permit_store.specs.Frames.{OverTables};
ghost use Rattle.permit_recorded.specs.Resuming.{HasPart, is_of_file, may_have_redone, IsCutTo, IsPartlyCut, IsRedone, IsResumed, StopsBy};
ghost use Rattle.permit_recorded.specs.declared.resuming.fault.ResumeFault.TheVariants.{Bring};

use crate::resuming::fault::ResumeFault;
use crate::resuming::read::read_whole;
use permit_batch::batching::Batching;
use permit_journal::file::{FileError, HistoryFile};
use permit_replay::alike::unordered::Unordered;
use permit_replay::beginning::Beginning;
use permit_replay::opening::bringing::bring;
use permit_store::plain::PlainStore;
use permit_store::store::Store;
use std::alloc::Global;

/// Cuts the text, which has so many bytes and is on the disk, to a length, unless that is its own.
fn cut_to<H: HistoryFile>(file: &mut H, size: usize, kept: u64) -> Result<(), FileError>
    ensures cut { size ≡ length (H.view file.old).text → OnOk result ((H.view file.new).text ≡ take kept (H.view file.old).text) }
    ensures part { size ≡ length (H.view file.old).text
        → OnErr result (HasPart H.leaves (H.view file.old).text kept (H.view file.new).text) }
    ensures crash { size ≡ length (H.view file.old).text → Only (H.view file.old).text (H.view file.old).may_leave
        → (c : List ℕ) → (H.view file.new).may_leave c → (c ≡ (H.view file.old).text) ⊎ HasPart H.leaves (H.view file.old).text kept c }
    ensures clean { (H.view file.new).is_clean ≡ (H.view file.old).is_clean }
{
    if kept < size as u64 {
        file.cut(kept)
    } else {
        Ok(())
    }
}

/// Brings the store to the end of the file's text, and cuts what is after its whole lines. How many lines were redone. The text is
/// synced (fsync) before, so that it stays ahead of the store.
pub(crate) fn bring_to_text<S: Batching, H: HistoryFile>(
    alloc: Global,
    beginning: Beginning,
    store: &mut Unordered<S>,
    file: &mut H,
) -> Result<u64, ResumeFault>
    ensures resumed { OverTables (S.Store.view store.old.store) (S.Store.view store.new.store) (λ t. IsSoundTables t → IsTrue (H.view file.new).is_clean
        → OnOk result (IsResumed (IsBeginning ⟦<PlainStore as Store>⟧.view beginning) (H.view file.new).text (⟦<Unordered<S> as Store>⟧.view store.new))) }
    ensures cut { IsTrue (H.view file.new).is_clean
        → OnOk result (IsCutTo (IsBeginning ⟦<PlainStore as Store>⟧.view beginning) (H.view file.old).text (H.view file.new).text) }
    ensures redone { OverTables (S.Store.view store.old.store) (S.Store.view store.new.store) (λ t. IsSoundTables t → IsTrue (H.view file.new).is_clean
        → IfOk result (IsRedone (IsBeginning ⟦<PlainStore as Store>⟧.view beginning) (H.view file.old).text t)) }
    ensures idle { IfOk result (λ redone. redone ≡ 0 → Looks (S.Store.view store.old.store) (S.Store.view store.new.store)) }
    ensures crash_after { IsTrue (H.view file.new).is_clean → (c : List ℕ) → (H.view file.new).may_leave c
        → OnOk result (IsPartlyCut (IsBeginning ⟦<PlainStore as Store>⟧.view beginning) H.leaves (H.view file.old).text c) }
    ensures differs { OverTables (S.Store.view store.old.store) (S.Store.view store.new.store) (λ t. IsSoundTables t → IsTrue (H.view file.new).is_clean
        → result ≡ Err (Bring Differs) → IsNowhere (IsBeginning ⟦<PlainStore as Store>⟧.view beginning) (H.view file.old).text t × (S.Store.view store.new.store).holds t) }
    ensures left { OverTables (S.Store.view store.old.store) (S.Store.view store.new.store) (λ t. IsSoundTables t → IsTrue (H.view file.new).is_clean
        → IsOnTheWay (IsBeginning ⟦<PlainStore as Store>⟧.view beginning) (H.view file.old).text t (S.Store.view store.new.store)) }
    ensures looks { IfErr result (λ why. may_have_redone why ≡ false → Looks (S.Store.view store.old.store) (S.Store.view store.new.store)) }
    ensures uncut { IfErr result (λ why. is_of_file why ≡ false → (H.view file.new).text ≡ (H.view file.old).text) }
    ensures unmoved { IfErr result (λ why. is_of_file why ≡ false → (c : List ℕ) → (H.view file.new).may_leave c → (H.view file.old).may_leave c) }
    ensures stopped { IsTrue (H.view file.new).is_clean
        → IfErr result (StopsBy ⟦<PlainStore as Store>⟧.view (IsBeginning ⟦<PlainStore as Store>⟧.view beginning) (H.view file.old).text) }
    ensures part { IsTrue (H.view file.new).is_clean
        → OnErr result (IsPartlyCut (IsBeginning ⟦<PlainStore as Store>⟧.view beginning) H.leaves (H.view file.old).text (H.view file.new).text) }
    ensures crash { IsTrue (H.view file.new).is_clean → (c : List ℕ) → (H.view file.new).may_leave c
        → (H.view file.old).may_leave c ⊎ IsPartlyCut (IsBeginning ⟦<PlainStore as Store>⟧.view beginning) H.leaves (H.view file.old).text c }
    ensures ahead { IsTrue (H.view file.new).is_clean → OnErr result (Looks (S.Store.view store.old.store) (S.Store.view store.new.store)
        ⊎ ((c : List ℕ) → (H.view file.new).may_leave c → IsPartlyCut (IsBeginning ⟦<PlainStore as Store>⟧.view beginning) H.leaves (H.view file.old).text c)) }
    ensures clean { IsTrue (H.view file.new).is_clean → IsTrue (H.view file.old).is_clean }
    ensures doubt { (S.Store.view store.old.store).doubt ≤ (S.Store.view store.new.store).doubt }
{
    let text = read_whole(alloc, file)?;
    file.sync()?;
    let whole = text.as_slice();
    let (mut source, mut again) = (whole, whole);
    let brought = bring(alloc, beginning, store, &mut source, &mut again)?;
    cut_to(file, text.len(), brought.length)?;
    Ok(brought.lines.saturating_sub(brought.stood))
}
