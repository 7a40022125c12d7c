//! Copies of files in memory.

ghost use Rattle.permit_office_file.specs.Copied.{IsCause, IsCopyIn, IsOnlyRead};
ghost use Rattle.sqlite_disk.specs.Memory.{memory_bytes, memory_is_usable};
ghost use Rattle.std.specs.IoError.{error_kind};
ghost use Rattle.std.specs.Prelude.{◌≡◌, ◌⊎◌, IfErr, IfOk, IsTrue};

use crate::office_file::OfficeFile;
use sqlite_disk::{Disk, Files, Memory};
use std::alloc::Global;
use std::io::{self, ErrorKind};

/// A file in memory that has these bytes. It fails where memory is missing.
fn memory_of(alloc: Global, bytes: &[u8]) -> io::Result<Memory>
    ensures bytes { IfOk result (λ memory. memory_bytes memory ≡ bytes.now) }
    ensures usable { IfOk result (λ memory. IsTrue (memory_is_usable memory)) }
    ensures missing { IfErr result (λ e. error_kind e ≡ ErrorKind.OutOfMemory) }
{
    let mut memory = Memory::new(alloc);
    match memory.write_at(0, bytes) {
        Ok(()) => Ok(memory),
        Err(_) => Err(ErrorKind::OutOfMemory.into()),
    }
}

/// A copy in memory of the file on this disk, which is read and not written to. Making it takes twice the memory of the file.
///
/// # Errors
///
/// One of the kind `OutOfMemory` where memory is missing, and else that of the disk.
///
/// # Examples
///
/// ```
/// let mut disk = Memory::new(alloc);
/// disk.write_at(0, b"first")?;
/// let copy = copied(alloc, &mut disk)?;
/// assert!(rt; copy.bytes() == disk.bytes());
/// ```
pub fn copied<D: Disk>(alloc: Global, disk: &mut D) -> io::Result<Memory>
    requires { IsTrue (D.Disk.is_usable disk.old) }
    ensures usable { IfOk result (λ copy. IsTrue (memory_is_usable copy)) }
    ensures same { IfOk result (λ copy. IsTrue (D.Disk.is_clean disk.new) → memory_bytes copy ≡ D.Disk.seen disk.old) }
    ensures read { IsOnlyRead D.Disk disk.old disk.new }
    ensures cause { IfErr result (IsCause D.Disk disk.old disk.new) }
{
    let len = disk.len()?;
    let mut bytes = vec![in alloc; 0; len]?;
    disk.read_at(0, &mut bytes)?;
    memory_of(alloc, &bytes)
}

/// The files as they are, on their disk.
///
/// # Examples
///
/// ```
/// let mut files = on_disk(files);
/// files.db.write_at(0, b"first")?;
/// assert!(rt; matches!(&files.db, OfficeFile::OnDisk(disk) if disk.bytes() == b"first".as_slice()));
/// ```
pub fn on_disk<D: Disk>(files: Files<D>) -> Files<OfficeFile<D>>
    ensures log { result.log ≡ OfficeFile.OnDisk files.log }
    ensures db { result.db ≡ OfficeFile.OnDisk files.db }
{
    Files {
        log: OfficeFile::OnDisk(files.log),
        db: OfficeFile::OnDisk(files.db),
    }
}

/// The files, and copies of both in memory. The files come back with an error too, which is one of `copied`, so that their lock
/// stays for as long as the caller keeps them.
///
/// # Examples
///
/// ```
/// let (files, copies) = in_memory(alloc, files);
/// let mut copies = copies?;
/// copies.db.write_at(0, b"other")?;
/// copies.db.sync()?;
/// let mut read = [0; 5];
/// copies.db.read_at(0, &mut read)?;
/// assert!(rt; read == *b"other" && files.db.bytes() == b"first".as_slice());
/// ```
pub fn in_memory<D: Disk>(
    alloc: Global,
    mut files: Files<D>,
) -> (Files<D>, io::Result<Files<OfficeFile<D>>>)
    requires log { IsTrue (D.Disk.is_usable files.log) }
    requires db { IsTrue (D.Disk.is_usable files.db) }
    ensures log { IfOk result.1 (λ copies. IsCopyIn D.Disk result.0.log copies.log) }
    ensures db { IfOk result.1 (λ copies. IsCopyIn D.Disk result.0.db copies.db) }
    ensures log_read { IsOnlyRead D.Disk files.log result.0.log }
    ensures db_read { IsOnlyRead D.Disk files.db result.0.db }
    ensures cause { IfErr result.1 (λ e. IsCause D.Disk files.log result.0.log e ⊎ IsCause D.Disk files.db result.0.db e) }
{
    let log = copied(alloc, &mut files.log);
    let db = copied(alloc, &mut files.db);
    let copies = match (log, db) {
        (Ok(log), Ok(db)) => Ok(Files {
            log: OfficeFile::InMemory(log),
            db: OfficeFile::InMemory(db),
        }),
        (Err(error), _) | (_, Err(error)) => Err(error),
    };
    (files, copies)
}
