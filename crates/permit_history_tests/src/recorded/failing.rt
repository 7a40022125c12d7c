//! A file of a history that fails.

ghost use Rattle.std.specs.Prelude.{◌≡◌};

use permit_journal::file::{FileError, HistoryFile};

/// A file in memory that fails at one of its calls. A call that fails leaves the text. Of a crash nothing is left.
#[derive(Drop)]
pub struct FailingFile {
    pub bytes: Vec<u8>,
    /// How many calls succeed before one fails; None where none does.
    pub good: Option<u32>,
    /// Whether each call after that one fails too.
    pub stays: bool,
}

impl FailingFile {
    /// Whether this call fails.
    fn fails(&mut self) -> bool
        ensures { self.new.bytes ≡ self.old.bytes }
    {
        match self.good {
            None => false,
            Some(0) => {
                if !self.stays {
                    self.good = None;
                }
                true
            }
            Some(good) => {
                self.good = Some(good - 1);
                false
            }
        }
    }
}

impl HistoryFile for FailingFile {
    ghost use Rattle.std.specs.Prelude.{true, refl, ⊤, []};
    ghost use Rattle.std.proofs.Common.{sym};
    ghost use Rattle.std.proofs.lemmas.List.{append-nil};
    ghost use Rattle.permit_journal.specs.Files.{IsFront};

    ghost view = { λ f. record { text = f.bytes.items; may_leave = λ _. ⊥; is_at_end = ⊤; is_clean = true } };

    ghost leaves = { IsFront };

    ghost clean_at_end = { λ _ _. tt };

    ghost leaves_nothing = { λ bytes. (bytes, refl) };

    ghost leaves_all = { λ bytes. ([], sym (append-nil bytes)) };

    fn length(&mut self) -> Result<u64, FileError> {
        if self.fails() {
            return Err(FileError);
        }
        Ok(self.bytes.len() as u64)
    }

    // No test reads it.
    fn read_at(&mut self, _at: u64, _room: &mut [u8]) -> Result<usize, FileError> {
        Err(FileError)
    }

    fn append(&mut self, bytes: &[u8]) -> Result<(), FileError> {
        if self.fails() {
            return Err(FileError);
        }
        match self.bytes.extend_from_slice(bytes) {
            Ok(()) => Ok(()),
            Err(_) => Err(FileError),
        }
    }

    fn sync(&mut self) -> Result<(), FileError> {
        if self.fails() {
            return Err(FileError);
        }
        Ok(())
    }

    fn cut(&mut self, to: u64) -> Result<(), FileError> {
        if self.fails() {
            return Err(FileError);
        }
        self.bytes.truncate(to as usize);
        Ok(())
    }
}
