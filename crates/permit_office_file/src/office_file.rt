//! A file of a database.

ghost use Rattle.std.specs.Prelude.{refl};
ghost use Rattle.std.proofs.Common.{inl};

use sqlite_disk::{Disk, Memory, Tally};
use std::io;

/// A file on a disk or in memory: each call is one of the file that is there, with its limits and errors.
///
/// # Examples
///
/// ```
/// let mut file = OfficeFile::<Memory>::InMemory(Memory::new(alloc));
/// file.write_at(1, b"ab")?;
/// file.sync()?;
/// let mut read = [0; 3];
/// file.read_at(0, &mut read)?;
/// assert!(rt; read == *b"\0ab");
/// ```
#[derive(Drop)]
pub enum OfficeFile<D: Disk> {
    OnDisk(D),
    InMemory(Memory),
}

impl<D: Disk> Disk for OfficeFile<D> {
    ghost use Rattle.permit_office_file.specs.Either.{either};
    ghost use Rattle.permit_office_file.specs.declared.office_file.OfficeFile.TheVariants.{OnDisk, InMemory};

    ghost seen = { either D.Disk.seen ⟦<Memory as Disk>⟧.seen };

    ghost may_leave = { either D.Disk.may_leave ⟦<Memory as Disk>⟧.may_leave };

    ghost is_usable = { either D.Disk.is_usable ⟦<Memory as Disk>⟧.is_usable };

    ghost faults = { either D.Disk.faults ⟦<Memory as Disk>⟧.faults };

    ghost tally_of = { either D.Disk.tally_of ⟦<Memory as Disk>⟧.tally_of };

    ghost is_clean = { either D.Disk.is_clean ⟦<Memory as Disk>⟧.is_clean };

    ghost key_of = { either D.Disk.key_of ⟦<Memory as Disk>⟧.key_of };

    ghost is_fair = { either D.Disk.is_fair ⟦<Memory as Disk>⟧.is_fair };

    ghost is_frozen = { either D.Disk.is_frozen ⟦<Memory as Disk>⟧.is_frozen };

    ghost is_rotten = { either D.Disk.is_rotten ⟦<Memory as Disk>⟧.is_rotten };

    ghost is_mixing = { either D.Disk.is_mixing ⟦<Memory as Disk>⟧.is_mixing };

    ghost seen_may_stay = { elim [ OnDisk d ↦ D.Disk.seen_may_stay d | InMemory m ↦ inl refl ] };

    ghost fair_if_clean = { elim [ OnDisk d ↦ D.Disk.fair_if_clean d | InMemory m ↦ λ _ _. refl ] };

    fn mixes(&self) -> bool {
        match self {
            OfficeFile::OnDisk(disk) => disk.mixes(),
            OfficeFile::InMemory(memory) => memory.mixes(),
        }
    }

    fn key(&self) -> u64 {
        match self {
            OfficeFile::OnDisk(disk) => disk.key(),
            OfficeFile::InMemory(memory) => memory.key(),
        }
    }

    fn tally(&self) -> Tally {
        match self {
            OfficeFile::OnDisk(disk) => disk.tally(),
            OfficeFile::InMemory(memory) => memory.tally(),
        }
    }

    fn may_be_used(&self) -> bool {
        match self {
            OfficeFile::OnDisk(disk) => disk.may_be_used(),
            OfficeFile::InMemory(memory) => memory.may_be_used(),
        }
    }

    fn len(&mut self) -> io::Result<usize> {
        match self {
            OfficeFile::OnDisk(disk) => disk.len(),
            OfficeFile::InMemory(memory) => memory.len(),
        }
    }

    fn read_at(&mut self, at: usize, buf: &mut [u8]) -> io::Result<()> {
        match self {
            OfficeFile::OnDisk(disk) => disk.read_at(at, buf),
            OfficeFile::InMemory(memory) => memory.read_at(at, buf),
        }
    }

    fn read_checked(&mut self, key: u64, want: u64, at: usize, buf: &mut [u8]) -> io::Result<()> {
        match self {
            OfficeFile::OnDisk(disk) => disk.read_checked(key, want, at, buf),
            OfficeFile::InMemory(memory) => memory.read_checked(key, want, at, buf),
        }
    }

    fn write_at(&mut self, at: usize, bytes: &[u8]) -> io::Result<()> {
        match self {
            OfficeFile::OnDisk(disk) => disk.write_at(at, bytes),
            OfficeFile::InMemory(memory) => memory.write_at(at, bytes),
        }
    }

    fn set_len(&mut self, len: usize) -> io::Result<()> {
        match self {
            OfficeFile::OnDisk(disk) => disk.set_len(len),
            OfficeFile::InMemory(memory) => memory.set_len(len),
        }
    }

    fn sync(&mut self) -> io::Result<()> {
        match self {
            OfficeFile::OnDisk(disk) => disk.sync(),
            OfficeFile::InMemory(memory) => memory.sync(),
        }
    }
}
