//! Bringing a store to its history.
//!
//! The text of the history is a write-ahead log: a command's line is appended and synced (fsync) before the command is committed.
//! So a crash leaves a store whose tables are those of the whole text or of a prefix of it, and so does an operator who restores
//! an older database. `settle` redoes the rest of the text on the store, and cuts what is after the last LF, which is a part of a
//! line. No whole line is ever cut. The office is opened over the store then, with a `log::HistoryLog` over the journal. Where the
//! tables are those of no prefix there is none.

ghost use Rattle.std.specs.Prelude.{◌≡◌, ◌≤◌, ◌⊎◌, ℕ, List, false, IfErr, IfOk, IsTrue, MatchResult};
ghost use Rattle.permit_journal.specs.Journals.{IsSettled};
ghost use Rattle.permit_model.specs.Sound.{IsSoundTables};
ghost use Rattle.permit_replay.specs.Bringing.{IsNowhere, IsOnTheWay};
ghost use Rattle.permit_replay.specs.Comparing.{Looks};
ghost use Rattle.permit_replay.specs.Holding.{IsBeginning};
ghost use Rattle.permit_replay.specs.declared.opening.fault.BringFault.TheVariants.{Differs};
ghost use Rattle.permit_store.specs.Frames.{OverTables};
ghost use Rattle.permit_recorded.specs.Resuming.{is_of_file, may_have_redone, IsCutTo, IsPartlyCut, IsRedone, IsResumed, StopsBy};
ghost use Rattle.permit_recorded.specs.declared.resuming.fault.ResumeFault.TheVariants.{Bring};

mod cut;
pub mod fault;
pub mod read;

use crate::resuming::cut::bring_to_text;
use crate::resuming::fault::ResumeFault;
use permit_batch::batching::Batching;
use permit_journal::file::HistoryFile;
use permit_journal::journal::Journal;
use permit_replay::alike::unordered::Unordered;
use permit_replay::beginning::Beginning;
use permit_store::plain::PlainStore;
use permit_store::store::Store;
use std::alloc::Global;

/// The journal over a text whose tables the store has.
#[derive(Drop)]
pub struct Settled<H: HistoryFile> {
    pub journal: Journal<H>,
    /// How many lines of the text were redone on the store.
    pub redone: u64,
}

/// Redoes on the store what the text of the file, which may begin so, has beyond the store's tables, cuts what is after the text's
/// last LF, and puts what is left on the disk. The text is put there (fsync) before anything is redone or cut. It is held in
/// memory once meanwhile.
///
/// Where several prefixes of the text give the store's tables, the longest counts. Where none does, nothing is changed. Where the
/// text isn't replayed, nothing is redone or cut either. The file is given back with the fault. Where a call of it failed, its text is
/// as it was, or has all whole lines with a part of what was after them, and a crash leaves no less. After any fault the store
/// has the tables that it had, or those of a longer prefix of the text.
///
/// What is said of the text is said of a file that has returned nothing false. No code can detect whether one has.
///
/// # Examples
///
/// ```
/// let whole = file.length();
/// assert!(rt; file.append(b"{\"body\"").is_ok());
/// let beginning = Beginning::Founding;
/// let Ok(settled) = settle(alloc, beginning, &mut store, file) else {
///     return Err(Fail::new("no journal"));
/// };
/// assert!(rt; whole == Ok(settled.journal.length()) && settled.redone == 0);
/// ```
pub fn settle<S: Batching, H: HistoryFile + Drop>(
    alloc: Global,
    beginning: Beginning,
    store: &mut Unordered<S>,
    mut file: H,
) -> Result<Settled<H>, (H, ResumeFault)>
    ensures resumed { IfOk result (λ settled. OverTables (S.Store.view store.old.store) (S.Store.view store.new.store) (λ t. IsSoundTables t
        → IsTrue (H.view settled.journal.file).is_clean → IsResumed (IsBeginning ⟦<PlainStore as Store>⟧.view beginning) (H.view settled.journal.file).text (⟦<Unordered<S> as Store>⟧.view store.new))) }
    ensures settled { IfOk result (λ settled. IsTrue (H.view settled.journal.file).is_clean → IsSettled H.view settled.journal) }
    ensures cut { IfOk result (λ settled. IsTrue (H.view settled.journal.file).is_clean
        → IsCutTo (IsBeginning ⟦<PlainStore as Store>⟧.view beginning) (H.view file).text (H.view settled.journal.file).text) }
    ensures redone { IfOk result (λ settled. OverTables (S.Store.view store.old.store) (S.Store.view store.new.store) (λ t. IsSoundTables t
        → IsTrue (H.view settled.journal.file).is_clean → IsRedone (IsBeginning ⟦<PlainStore as Store>⟧.view beginning) (H.view file).text t settled.redone)) }
    ensures idle { IfOk result (λ settled. settled.redone ≡ 0 → Looks (S.Store.view store.old.store) (S.Store.view store.new.store)) }
    ensures doubt { (S.Store.view store.old.store).doubt ≤ (S.Store.view store.new.store).doubt }
    ensures clean { MatchResult result (λ settled. IsTrue (H.view settled.journal.file).is_clean → IsTrue (H.view file).is_clean)
        (λ back. IsTrue (H.view back.0).is_clean → IsTrue (H.view file).is_clean) }

    // Where the tables are those of no prefix, both are given back as they were.
    ensures differs { IfErr result (λ back. back.1 ≡ Bring Differs → OverTables (S.Store.view store.old.store) (S.Store.view store.new.store) (λ t. IsSoundTables t
        → IsTrue (H.view back.0).is_clean → IsNowhere (IsBeginning ⟦<PlainStore as Store>⟧.view beginning) (H.view file).text t × (S.Store.view store.new.store).holds t)) }
    ensures left { IfErr result (λ back. OverTables (S.Store.view store.old.store) (S.Store.view store.new.store) (λ t. IsSoundTables t
        → IsTrue (H.view back.0).is_clean → IsOnTheWay (IsBeginning ⟦<PlainStore as Store>⟧.view beginning) (H.view file).text t (S.Store.view store.new.store))) }
    ensures looks { IfErr result (λ back. may_have_redone back.1 ≡ false → Looks (S.Store.view store.old.store) (S.Store.view store.new.store)) }
    ensures uncut { IfErr result (λ back. is_of_file back.1 ≡ false → (H.view back.0).text ≡ (H.view file).text) }
    ensures unmoved { IfErr result (λ back. is_of_file back.1 ≡ false → (c : List ℕ) → (H.view back.0).may_leave c → (H.view file).may_leave c) }
    ensures stopped { IfErr result (λ back. IsTrue (H.view back.0).is_clean
        → StopsBy ⟦<PlainStore as Store>⟧.view (IsBeginning ⟦<PlainStore as Store>⟧.view beginning) (H.view file).text back.1) }

    // Where a call of the file failed, it is whole, or what is after its whole lines was cut in part, and a crash leaves the one or
    // the other. Unless the store was only read, it leaves nothing else.
    ensures part { IfErr result (λ back. IsTrue (H.view back.0).is_clean
        → IsPartlyCut (IsBeginning ⟦<PlainStore as Store>⟧.view beginning) H.leaves (H.view file).text (H.view back.0).text) }
    ensures crash { IfErr result (λ back. IsTrue (H.view back.0).is_clean → (c : List ℕ) → (H.view back.0).may_leave c
        → (H.view file).may_leave c ⊎ IsPartlyCut (IsBeginning ⟦<PlainStore as Store>⟧.view beginning) H.leaves (H.view file).text c) }
    ensures ahead { IfErr result (λ back. IsTrue (H.view back.0).is_clean → Looks (S.Store.view store.old.store) (S.Store.view store.new.store)
        ⊎ ((c : List ℕ) → (H.view back.0).may_leave c → IsPartlyCut (IsBeginning ⟦<PlainStore as Store>⟧.view beginning) H.leaves (H.view file).text c)) }
{
    let redone = match bring_to_text(alloc, beginning, store, &mut file) {
        Ok(redone) => redone,
        Err(fault) => return Err((file, fault)),
    };
    match Journal::open(file) {
        Ok(journal) => Ok(Settled { journal, redone }),
        Err(file) => Err((file, ResumeFault::File)),
    }
}
