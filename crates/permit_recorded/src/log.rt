//! The log of an office with a history.

ghost use Rattle.std.specs.Prelude.{◌≡◌, ◌≢◌, ◌++◌, ℕ, List, true, false, length, IsErr, OnErr, OnOk};
ghost use Rattle.permit_journal.specs.Files.{LeavesGrown};
ghost use Rattle.permit_journal.specs.Journals.{IsSettled, HasUnlessShut};
ghost use Rattle.permit_office.specs.Logs.{note, IsWithdrawing};
ghost use Rattle.permit_store.specs.Frames.{HasOneDesk};
ghost use Rattle.permit_recorded.specs.Logs.{HasLine, LeavesLine};

use crate::line::line_of;
use permit_base::request::Request;
use permit_base::values::{Day, PartyId};
use permit_journal::file::HistoryFile;
use permit_journal::journal::Journal;
use permit_office::log::Log;
use permit_store::store::{Got, Store, StoreError};
use std::alloc::Global;
use std::marker::Model;
use std::sync::Arc;
use std::sync::atomic::{AtomicBool, Ordering};

/// Enters the line of the caller's command on the day into the journal.
fn enter_line<H: HistoryFile + Drop>(
    alloc: Global,
    journal: &mut Journal<H>,
    caller: PartyId,
    request: &Request,
    number: Option<u32>,
    day: Day,
) -> Got<()>
    ensures written { IsSettled H.view journal.old
        → OnOk result (HasLine H.view (H.view journal.old.file).text (note caller request.now number day) journal.new) }
    ensures refused { IsSettled H.view journal.old
        → OnErr result (HasUnlessShut H.view journal.new journal.new.is_shut (H.view journal.old.file).text) }
    ensures crash { IsSettled H.view journal.old
        → LeavesLine H.leaves (H.view journal.old.file).text (H.view journal.new.file).may_leave (note caller request.now number day) }
    ensures shut { journal.old.is_shut ≡ true → IsErr result × (journal.new ≡ journal.old) }
{
    let line = line_of(alloc, caller, request, number, day)?;
    match journal.enter(&line) {
        Ok(()) => Ok(()),
        Err(_) => Err(StoreError),
    }
}

/// Takes back the line of a command that failed, to the length that the text had before. Where the store can't be read, the command
/// may be done all the same: then the line stays and the journal is shut. An opening redoes such a line, and takes no tables with a
/// command more than the text.
fn take_back_failed<S: Store, H: HistoryFile + Drop>(
    store: &mut S,
    journal: &mut Journal<H>,
    before: u64,
)
    ensures back { IsSettled H.view journal.old → (base line : List ℕ) → length base ≡ before
        → (H.view journal.old.file).text ≡ base ++ line → HasUnlessShut H.view journal.new journal.new.is_shut base }
    ensures crash { IsSettled H.view journal.old → (base line : List ℕ) → length base ≡ before
        → (H.view journal.old.file).text ≡ base ++ line → LeavesGrown H.leaves line base (H.view journal.new.file).may_leave }

    // Where the call of the store failed the line stays.
    ensures stays { (S.view store.new).failed ≢ (S.view store.old).failed
        → (journal.new.is_shut ≡ true) × (journal.new.file ≡ journal.old.file) }
    ensures withdrawing { IsWithdrawing (S.view store.old) (S.view store.new) }
    ensures read { journal.new.is_shut ≡ false → (S.view store.new).doubt ≡ 0 → HasOneDesk (S.view store.new) }
{
    if store.desk().is_ok() {
        journal.take_back(before);
    } else {
        journal.shut();
    }
}

/// The log of an office with a history: a command's line is in the history's file, and on the disk, before the command is done.
/// Contracts see the journal, and how long its text was before the entry last made.
///
/// Where a line can't be entered nothing of it is left, and where a command isn't done after all its line is taken back. Where that
/// fails the journal is shut, and the office with it: each further request is refused for the store, and nothing is done. It is
/// shut too, and the line stays, where the command failed and the store can't be read, since it isn't known then whether the
/// command is done. An opening finds that out, and redoes the line where it isn't.
#[derive(Drop)]
pub struct HistoryLog<H: HistoryFile> {
    alloc: Global,
    journal: Journal<H>,
    before: u64,
    shut: Option<Arc<AtomicBool, Global>>,
}

impl<H: HistoryFile> Model for HistoryLog<H> {
    ghost use Rattle.permit_recorded.specs.Logs.{LogView};

    ghost Value = { LogView H };

    ghost view = { λ l. record { journal = l.journal; before = l.before } };
}

impl<H: HistoryFile + Drop> HistoryLog<H> {
    /// The log that enters lines into the journal, whose text is the history of the office. That it is isn't tested. Memory for the
    /// lines is taken of `alloc`. The flag, if there is one, is set once the journal is shut: only opening it again mends that.
    ///
    /// # Examples
    ///
    /// ```
    /// let shut = Arc::new(alloc, AtomicBool::new(false))?;
    /// let log = HistoryLog::new(alloc, journal, Some(&shut));
    /// let Ok(office) = Office::open(store, policy, log) else {
    ///     return Err(Fail::new("no office"));
    /// };
    /// assert!(rt; office.is_open() && !shut.load(Ordering::SeqCst));
    /// ```
    pub fn new(
        alloc: Global,
        journal: Journal<H>,
        shut: Option<&Arc<AtomicBool, Global>>,
    ) -> HistoryLog<H>
        ensures journal { result.journal ≡ journal }
    {
        // No clone is made only where there are as many as can be counted.
        let shut = match shut {
            Some(flag) => Arc::try_clone(flag).ok(),
            None => None,
        };
        let before = journal.length();
        let log = HistoryLog {
            alloc,
            journal,
            before,
            shut,
        };
        log.tell();
        log
    }

    /// Sets the flag where the journal is shut.
    fn tell(&self) {
        if self.journal.is_shut()
            && let Some(shut) = &self.shut
        {
            shut.store(true, Ordering::SeqCst);
        }
    }

    /// The journal, as it is.
    ///
    /// # Examples
    ///
    /// ```
    /// let (mut store, log) = office.into_parts();
    /// assert!(rt; store.desk()?.parcels == 1);
    /// let file = log.into_journal().into_file();
    /// let last = "\"done\":\"add-parcel\",\"id\":null,\"number\":1}\n";
    /// assert!(rt; file.bytes().ends_with(last.as_bytes()));
    /// ```
    pub fn into_journal(self) -> Journal<H>
        ensures { result ≡ self.journal }
    {
        let HistoryLog {
            alloc: _alloc,
            journal,
            before: _before,
            shut: _shut,
        } = self;
        journal
    }
}

impl<H: HistoryFile + Drop> Log for HistoryLog<H> {
    ghost use Rattle.std.specs.Prelude.{not};
    ghost use Rattle.permit_recorded.specs.Logs.{IsEntered, IsRefused, IsWithdrawn};

    ghost is_open = { λ log. not log.journal.is_shut };

    ghost entered = { IsEntered H.view H.leaves };

    ghost refused = { IsRefused H.view H.leaves };

    ghost withdrawn = { IsWithdrawn H.view H.leaves };

    fn is_open(&self) -> bool {
        !self.journal.is_shut()
    }

    fn enter(
        &mut self,
        caller: PartyId,
        request: &Request,
        number: Option<u32>,
        day: Day,
    ) -> Got<()> {
        self.before = self.journal.length();
        let entered = enter_line(self.alloc, &mut self.journal, caller, request, number, day);
        self.tell();
        entered
    }

    fn withdraw<S: Store>(&mut self, store: &mut S) {
        take_back_failed(store, &mut self.journal, self.before);
        self.tell();
    }
}
