//! The file of a history's text on a disk: `DiskFile`, over any disk as the database sees one.

ghost use Rattle.std.specs.Prelude.{◌≡◌, ◌⊎◌, ◌++◌, ◌≤◌, ℕ, List, IfOk, IsErr, IsTrue, None, OnErr, OnOk, Some, length, take};
ghost use Rattle.permit_journal.specs.Ends.{EndsThere, IsAtEnd};

use crate::file::{FileError, HistoryFile};
use sqlite_disk::Disk;

/// A text on a disk. Where it ends is asked of the disk once, and known from then on: there `append` writes. `length` asks the disk
/// each time, and fails where the disk says another end, since another program has changed the file then.
///
/// Where a write at the end of the text has failed, what it left there isn't known: nothing is written until the text is cut. Where
/// a sync has failed nothing more is asked of the disk.
#[derive(Drop)]
pub struct DiskFile<D: Disk> {
    disk: D,
    /// Where the text ends; None where a call that changes it has failed.
    end: Option<usize>,
    ghost ends_there: { EndsThere (D.Disk.is_clean disk) (D.Disk.seen disk) end },
}

impl<D: Disk + Drop> DiskFile<D> {
    ghost use Rattle.permit_journal.specs.Shown.{disk_of};

    /// The file on this disk, with the text that is there. There is none where the disk may not be used, or doesn't say how long
    /// the text is.
    ///
    /// # Examples
    ///
    /// ```
    /// let Ok(mut file) = DiskFile::open(disk) else {
    ///     return Err(Fail::new("no file"));
    /// };
    /// assert!(rt; file.append(b"a\n").is_ok() && file.sync().is_ok());
    /// assert!(rt; matches!(file.length(), Ok(2)));
    /// ```
    pub fn open(mut disk: D) -> Result<DiskFile<D>, FileError>
        ensures seen { IfOk result (λ file. D.Disk.seen (disk_of file) ≡ D.Disk.seen disk) }
        ensures crash { IfOk result (λ file. (c : List ℕ) → D.Disk.may_leave (disk_of file) c → D.Disk.may_leave disk c) }
        ensures clean { IfOk result (λ file. IsTrue (D.Disk.is_clean (disk_of file)) → IsTrue (D.Disk.is_clean disk)) }
    {
        if !disk.may_be_used() {
            return Err(FileError);
        }
        match disk.len() {
            Ok(end) => Ok(DiskFile {
                disk,
                end: Some(end),
            }),
            Err(_) => Err(FileError),
        }
    }

    /// The disk.
    ///
    /// # Examples
    ///
    /// ```
    /// let appended = file.append(b"b\n");
    /// let disk = file.into_disk();
    /// assert!(rt; appended.is_ok() && disk.bytes() == b"a\nb\n".as_slice());
    /// ```
    pub fn into_disk(self) -> D
        ensures { result ≡ disk_of self }
    {
        let DiskFile { disk, end: _ } = self;
        disk
    }
}

impl<D: Disk> HistoryFile for DiskFile<D> {
    ghost use Rattle.permit_journal.specs.Parts.{AreNoMore};
    ghost use Rattle.permit_journal.specs.Shown.{end_of};
    ghost use Rattle.permit_journal.specs.Files.{Grown, LeavesGrown, Only};
    ghost use Rattle.std.proofs.Common.{arith};

    ghost view = { λ f. record {
      text = D.Disk.seen f.disk;
      may_leave = D.Disk.may_leave f.disk;
      is_at_end = IsAtEnd (D.Disk.seen f.disk) f.end;
      is_clean = D.Disk.is_clean f.disk;
    } };

    ghost leaves = { AreNoMore };

    ghost clean_at_end = { λ f. f.ends_there };

    ghost leaves_nothing = { λ bytes. Prim.omega arith };

    ghost leaves_all = { λ bytes. Prim.omega arith };

    fn length(&mut self) -> Result<u64, FileError> {
        let Some(end) = self.end else {
            return Err(FileError);
        };
        if !self.disk.may_be_used() {
            return Err(FileError);
        }
        match self.disk.len() {
            Ok(length) if length == end => Ok(length as u64),
            Ok(_) | Err(_) => Err(FileError),
        }
    }

    fn read_at(&mut self, at: u64, room: &mut [u8]) -> Result<usize, FileError> {
        let Some(end) = self.end else {
            return Err(FileError);
        };
        if !self.disk.may_be_used() {
            return Err(FileError);
        }
        let from = end.min(at as usize);
        let count = room.len().min(end - from);
        match self.disk.read_at(from, &mut room[..count]) {
            Ok(()) => Ok(count),
            Err(_) => Err(FileError),
        }
    }

    // Beside the clauses of every file: after a write that failed the end isn't known, and then nothing is written.
    fn append(&mut self, bytes: &[u8]) -> Result<(), FileError>
        ensures written { IsAtEnd (D.Disk.seen self.old.disk) self.old.end → OnOk result (D.Disk.seen self.new.disk ≡ D.Disk.seen self.old.disk ++ bytes.now) }
        ensures part { IsAtEnd (D.Disk.seen self.old.disk) self.old.end
            → OnErr result (Grown AreNoMore bytes.now (D.Disk.seen self.old.disk) (D.Disk.seen self.new.disk)) }
        ensures crash { IsAtEnd (D.Disk.seen self.old.disk) self.old.end → Only (D.Disk.seen self.old.disk) (D.Disk.may_leave self.old.disk)
            → LeavesGrown AreNoMore bytes.now (D.Disk.seen self.old.disk) (D.Disk.may_leave self.new.disk) }
        ensures at_end { IsAtEnd (D.Disk.seen self.old.disk) self.old.end → IsAtEnd (D.Disk.seen self.new.disk) self.new.end }
        ensures clean { D.Disk.is_clean self.new.disk ≡ D.Disk.is_clean self.old.disk }
        ensures unknown { end_of self.old ≡ None → IsErr result × (self.new ≡ self.old) }
        ensures end { OnErr result ((end_of self.new ≡ None) ⊎ (self.new ≡ self.old)) }
    {
        let Some(end) = self.end else {
            return Err(FileError);
        };
        let Some(next) = end.checked_add(bytes.len()) else {
            return Err(FileError);
        };
        if !self.disk.may_be_used() {
            return Err(FileError);
        }
        self.end = None;
        match self.disk.write_at(end, bytes) {
            Ok(()) => {
                self.end = Some(next);
                Ok(())
            }
            Err(_) => Err(FileError),
        }
    }

    fn sync(&mut self) -> Result<(), FileError> {
        if !self.disk.may_be_used() {
            return Err(FileError);
        }
        match self.disk.sync() {
            Ok(()) => Ok(()),
            Err(_) => Err(FileError),
        }
    }

    // Beside the clauses of every file: the end is known again.
    fn cut(&mut self, to: u64) -> Result<(), FileError>
        ensures cut { to ≤ length (D.Disk.seen self.old.disk) → OnOk result (D.Disk.seen self.new.disk ≡ take to (D.Disk.seen self.old.disk)) }
        ensures part { (base bytes : List ℕ) → length base ≡ to → Grown AreNoMore bytes base (D.Disk.seen self.old.disk)
            → Grown AreNoMore bytes base (D.Disk.seen self.new.disk) }
        ensures crash { (base bytes : List ℕ) → length base ≡ to → LeavesGrown AreNoMore bytes base (D.Disk.may_leave self.old.disk)
            → LeavesGrown AreNoMore bytes base (D.Disk.may_leave self.new.disk) }
        ensures at_end { IsAtEnd (D.Disk.seen self.old.disk) self.old.end → IsAtEnd (D.Disk.seen self.new.disk) self.new.end }
        ensures clean { D.Disk.is_clean self.new.disk ≡ D.Disk.is_clean self.old.disk }
        ensures known { OnOk result (end_of self.new ≡ Some to) }
        ensures end { OnErr result ((end_of self.new ≡ None) ⊎ (self.new ≡ self.old)) }
    {
        if !self.disk.may_be_used() {
            return Err(FileError);
        }
        let to = to as usize;
        self.end = None;
        match self.disk.set_len(to) {
            Ok(()) => {
                self.end = Some(to);
                Ok(())
            }
            Err(_) => Err(FileError),
        }
    }
}
