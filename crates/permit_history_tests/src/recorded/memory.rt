//! A file of a history in memory.

ghost use Rattle.std.specs.Prelude.{◌≡◌, ◌≤◌, length, take};

use permit_journal::file::{FileError, HistoryFile};

/// A text in memory. Each call is done at once, so that a crash leaves what is there.
#[derive(Drop)]
pub struct MemoryFile {
    bytes: Vec<u8>,
}

impl MemoryFile {
    ghost use Rattle.permit_history_tests.specs.Memory.{memory_bytes};

    /// A file with this text.
    pub fn new(bytes: Vec<u8>) -> Self
        ensures { memory_bytes result ≡ bytes.items }
    {
        MemoryFile { bytes }
    }

    /// Its text.
    pub fn bytes(&self) -> &[u8]
        ensures { result.now ≡ memory_bytes self.now }
    {
        &self.bytes
    }
}

/// Copies the bytes into the room, as many as have room. How many these are.
fn copy_front(bytes: &[u8], room: &mut [u8]) -> usize
    ensures copied { take result room.new ≡ take (length room.old) bytes.now }
    ensures within { result ≤ length room.old }
{
    let count = bytes.len().min(room.len());
    room[..count].copy_from_slice(&bytes[..count]);
    count
}

impl HistoryFile for MemoryFile {
    ghost use Rattle.std.specs.Prelude.{true, refl, ⊤, []};
    ghost use Rattle.std.proofs.Common.{sym};
    ghost use Rattle.std.proofs.lemmas.List.{append-nil};
    ghost use Rattle.permit_journal.specs.Files.{IsFront};

    ghost view = { λ m. record { text = m.bytes.items; may_leave = λ c. c ≡ m.bytes.items; is_at_end = ⊤; is_clean = true } };

    ghost leaves = { IsFront };

    ghost clean_at_end = { λ _ _. tt };

    ghost leaves_nothing = { λ bytes. (bytes, refl) };

    ghost leaves_all = { λ bytes. ([], sym (append-nil bytes)) };

    fn length(&mut self) -> Result<u64, FileError> {
        Ok(self.bytes.len() as u64)
    }

    fn read_at(&mut self, at: u64, room: &mut [u8]) -> Result<usize, FileError> {
        let from = self.bytes.len().min(at as usize);
        Ok(copy_front(&self.bytes[from..], room))
    }

    fn append(&mut self, bytes: &[u8]) -> Result<(), FileError> {
        match self.bytes.extend_from_slice(bytes) {
            Ok(()) => Ok(()),
            Err(_) => Err(FileError),
        }
    }

    fn sync(&mut self) -> Result<(), FileError> {
        Ok(())
    }

    fn cut(&mut self, to: u64) -> Result<(), FileError> {
        self.bytes.truncate(to as usize);
        Ok(())
    }
}
