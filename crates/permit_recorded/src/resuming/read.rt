//! Reading the text of a history's file.

ghost use Rattle.std.specs.Prelude.{◌≡◌, ℕ, List, IfOk, IsTrue};

use permit_journal::file::{FileError, HistoryFile};
use std::alloc::Global;

/// The whole text of the file, which is held in memory here. A reading that ends before the file's length is a failure, and so
/// is memory that was refused.
pub fn read_whole<H: HistoryFile>(alloc: Global, file: &mut H) -> Result<Vec<u8>, FileError>
    ensures text { IfOk result (λ text. IsTrue (H.view file.new).is_clean → text.items ≡ (H.view file.old).text) }
    ensures kept { (H.view file.new).text ≡ (H.view file.old).text }
    ensures crash { (c : List ℕ) → (H.view file.new).may_leave c → (H.view file.old).may_leave c }
    ensures clean { IsTrue (H.view file.new).is_clean → IsTrue (H.view file.old).is_clean }
{
    let length = file.length()?;
    let Ok(mut text) = Vec::from_elem(alloc, 0, length as usize) else {
        return Err(FileError);
    };
    let count = file.read_at(0, text.as_mut_slice())?;
    if count < text.len() {
        return Err(FileError);
    }
    Ok(text)
}
