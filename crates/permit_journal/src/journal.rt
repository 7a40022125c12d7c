//! Entering lines into the file of a history.

ghost use Rattle.std.specs.Prelude.{◌≡◌, ◌≢◌, ◌≤◌, ◌++◌, ℕ, List, true, length, take, IfErr, IfOk, IsErr, IsTrue, OnOk, OnErr};
ghost use Rattle.permit_journal.specs.Files.{Grown, LeavesGrown, Only};
ghost use Rattle.permit_journal.specs.Journals.{IsSettled, Has, HasUnlessShut};

use crate::file::{FileError, HistoryFile};
use std::marker::Model;

/// Appends a line to the text, and syncs the file (fsync).
fn write_out<H: HistoryFile>(file: &mut H, line: &[u8]) -> Result<(), FileError>
    ensures written { (H.view file.old).is_at_end → OnOk result ((H.view file.new).text ≡ (H.view file.old).text ++ line.now) }
    ensures durable { OnOk result (Only (H.view file.new).text (H.view file.new).may_leave) }
    ensures part { (H.view file.old).is_at_end → OnErr result (Grown H.leaves line.now (H.view file.old).text (H.view file.new).text) }
    ensures crash { (H.view file.old).is_at_end → Only (H.view file.old).text (H.view file.old).may_leave
        → LeavesGrown H.leaves line.now (H.view file.old).text (H.view file.new).may_leave }
    ensures at_end { (H.view file.old).is_at_end → (H.view file.new).is_at_end }
    ensures clean { (H.view file.new).is_clean ≡ (H.view file.old).is_clean }
{
    file.append(line)?;
    file.sync()
}

/// Cuts the text, and syncs the file.
fn cut_back<H: HistoryFile>(file: &mut H, to: u64) -> Result<(), FileError>
    ensures cut { to ≤ length (H.view file.old).text → OnOk result ((H.view file.new).text ≡ take to (H.view file.old).text) }
    ensures durable { OnOk result (Only (H.view file.new).text (H.view file.new).may_leave) }
    ensures crash { (base line : List ℕ) → length base ≡ to → LeavesGrown H.leaves line base (H.view file.old).may_leave
        → LeavesGrown H.leaves line base (H.view file.new).may_leave }
    ensures at_end { (H.view file.old).is_at_end → (H.view file.new).is_at_end }
    ensures clean { (H.view file.new).is_clean ≡ (H.view file.old).is_clean }
{
    file.cut(to)?;
    file.sync()
}

/// Puts the text on the disk. How many bytes it has.
fn put_on_disk<H: HistoryFile>(file: &mut H) -> Result<u64, FileError>
    ensures length { IfOk result (λ n. IsTrue (H.view file.new).is_clean → n ≡ length (H.view file.old).text) }
    ensures durable { OnOk result (Only (H.view file.old).text (H.view file.new).may_leave) }
    ensures kept { (H.view file.new).text ≡ (H.view file.old).text }
    ensures crash { (c : List ℕ) → (H.view file.new).may_leave c → (H.view file.old).may_leave c }
    ensures clean { IsTrue (H.view file.new).is_clean → IsTrue (H.view file.old).is_clean }
{
    let length = file.length()?;
    file.sync()?;
    Ok(length)
}

/// Whether the file says that its text has this length.
fn says_length<H: HistoryFile>(file: &mut H, bytes: u64) -> bool
    ensures said { result ≡ true → IsTrue (H.view file.new).is_clean → bytes ≡ length (H.view file.old).text }
    ensures kept { (H.view file.new).text ≡ (H.view file.old).text }
    ensures crash { (c : List ℕ) → (H.view file.new).may_leave c → (H.view file.old).may_leave c }
    ensures at_end { (H.view file.old).is_at_end → (H.view file.new).is_at_end }
{
    file.length() == Ok(bytes)
}

/// The file of a history to which lines are added. Contracts see the file, the length of its text, and whether it is shut.
///
/// A line is entered whole and is on the disk, or nothing of it is left. Where what was written of it can't be cut off, the
/// journal is shut, and stays so: what the file holds then isn't known. Who doesn't know whether a line belongs to the text
/// shuts it too.
///
/// The file is watched: before a line is appended the file is asked for its length. Where it says another than the journal knows, or
/// none, another program may have changed it: nothing is written, and the journal is shut.
///
/// The clauses are said of a journal that is settled: its text is on the disk, has the length that the journal knows, and is appended
/// to at its end. So it is from the opening on, if the file had returned nothing false by then. No code can detect whether one has.
#[derive(Drop)]
pub struct Journal<H: HistoryFile> {
    file: H,
    length: u64,
    is_shut: bool,
}

impl<H: HistoryFile> Model for Journal<H> {
    ghost use Rattle.permit_journal.specs.Journals.{JournalView};

    ghost Value = { JournalView H };

    ghost view = { λ j. record { file = j.file; length = j.length; is_shut = j.is_shut } };
}

impl<H: HistoryFile + Drop> Journal<H> {
    /// A journal over the file, which is synced (fsync). Where a call of the file fails, the file is given back, with its
    /// text as it was.
    ///
    /// # Examples
    ///
    /// ```
    /// let Ok(journal) = Journal::open(file) else {
    ///     return Err(Fail::new("no journal"));
    /// };
    /// assert!(rt; journal.length() == 2 && !journal.is_shut());
    /// ```
    pub fn open(mut file: H) -> Result<Journal<H>, H>
        ensures settled { IfOk result (λ journal. IsTrue (H.view journal.file).is_clean → Has H.view journal (H.view file).text) }
        ensures kept { IfOk result (λ journal. (H.view journal.file).text ≡ (H.view file).text) }
        ensures crash { IfOk result (λ journal. (c : List ℕ) → (H.view journal.file).may_leave c → (H.view file).may_leave c) }
        ensures clean { IfOk result (λ journal. IsTrue (H.view journal.file).is_clean → IsTrue (H.view file).is_clean) }
        ensures back { IfErr result (λ left. (H.view left).text ≡ (H.view file).text) }
        ensures left { IfErr result (λ left. (c : List ℕ) → (H.view left).may_leave c → (H.view file).may_leave c) }
        ensures doubt { IfErr result (λ left. IsTrue (H.view left).is_clean → IsTrue (H.view file).is_clean) }
    {
        match put_on_disk(&mut file) {
            Ok(length) => Ok(Journal {
                file,
                length,
                is_shut: false,
            }),
            Err(_) => Err(file),
        }
    }

    /// The bytes of the text.
    pub fn length(&self) -> u64
        ensures { result ≡ self.now.length }
    {
        self.length
    }

    /// Whether no line is entered any longer: what the file holds isn't known, or not whether it is the text.
    pub fn is_shut(&self) -> bool
        ensures { result ≡ self.now.is_shut }
    {
        self.is_shut
    }

    /// Cuts the text to the length and syncs the file, or shuts the journal.
    fn cut_off(&mut self, to: u64)
        ensures cut { (H.view self.old.file).is_at_end → (base line : List ℕ) → length base ≡ to → Grown H.leaves line base (H.view self.old.file).text
            → HasUnlessShut H.view self.new self.new.is_shut base }
        ensures crash { (base line : List ℕ) → length base ≡ to → LeavesGrown H.leaves line base (H.view self.old.file).may_leave
            → LeavesGrown H.leaves line base (H.view self.new.file).may_leave }
        ensures clean { (H.view self.new.file).is_clean ≡ (H.view self.old.file).is_clean }
    {
        self.length = to;
        self.is_shut = cut_back(&mut self.file, to).is_err();
    }

    /// Appends a line to the text, with its LF, and syncs the file (fsync). Otherwise nothing of it is left, or the journal is shut.
    /// It is shut too, and nothing is written, where the file doesn't say that it has the length that the journal knows.
    ///
    /// # Examples
    ///
    /// ```
    /// let entered = journal.enter(b"b\n");
    /// assert!(rt; entered.is_ok() && journal.length() == 4);
    /// assert!(rt; journal.into_file().into_disk().bytes() == b"a\nb\n".as_slice());
    /// ```
    pub fn enter(&mut self, line: &[u8]) -> Result<(), FileError>
        ensures entered { IsSettled H.view self.old
            → OnOk result (Has H.view self.new ((H.view self.old.file).text ++ line.now)) }
        ensures refused { IsSettled H.view self.old
            → OnErr result (HasUnlessShut H.view self.new self.new.is_shut (H.view self.old.file).text) }

        // A crash leaves the text, with nothing, a part of the line or all of it after it.
        ensures crash { IsSettled H.view self.old
            → LeavesGrown H.leaves line.now (H.view self.old.file).text (H.view self.new.file).may_leave }
        ensures shut { self.old.is_shut ≡ true → IsErr result × (self.new ≡ self.old) }

        // Where the text hasn't the length that the journal knows, nothing is written.
        ensures watched { IsTrue (H.view self.new.file).is_clean → self.old.length ≢ length (H.view self.old.file).text
            → IsErr result × (self.new.is_shut ≡ true) × ((H.view self.new.file).text ≡ (H.view self.old.file).text) }
    {
        if self.is_shut {
            return Err(FileError);
        }
        let before = self.length;
        if !says_length(&mut self.file, before) {
            self.shut();
            return Err(FileError);
        }
        let Some(length) = before.checked_add(line.len() as u64) else {
            return Err(FileError);
        };
        if write_out(&mut self.file, line).is_err() {
            self.cut_off(before);
            return Err(FileError);
        }
        self.length = length;
        Ok(())
    }

    /// Takes back what was added after this length, or shuts the journal.
    ///
    /// # Examples
    ///
    /// ```
    /// let before = journal.length();
    /// let entered = journal.enter(b"b\n");
    /// journal.take_back(before);
    /// assert!(rt; entered.is_ok() && journal.length() == before);
    /// assert!(rt; journal.into_file().into_disk().bytes() == b"a\n".as_slice());
    /// ```
    pub fn take_back(&mut self, to: u64)
        ensures back { IsSettled H.view self.old → (base line : List ℕ) → length base ≡ to → (H.view self.old.file).text ≡ base ++ line
            → HasUnlessShut H.view self.new self.new.is_shut base }
        ensures crash { IsSettled H.view self.old → (base line : List ℕ) → length base ≡ to → (H.view self.old.file).text ≡ base ++ line
            → LeavesGrown H.leaves line base (H.view self.new.file).may_leave }
        ensures shut { self.old.is_shut ≡ true → self.new ≡ self.old }
    {
        if !self.is_shut {
            self.cut_off(to);
        }
    }

    /// Shuts the journal over the text as it is. Nothing is written.
    pub fn shut(&mut self)
        ensures shut { self.new.is_shut ≡ true }
        ensures length { self.new.length ≡ self.old.length }

        // What a crash leaves is what it would have left before.
        ensures file { self.new.file ≡ self.old.file }
    {
        self.is_shut = true;
    }

    /// The file.
    pub fn into_file(self) -> H
        ensures { result ≡ self.file }
    {
        let Journal {
            file,
            length: _,
            is_shut: _,
        } = self;
        file
    }
}
