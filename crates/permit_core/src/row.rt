//! A file's row, and the row on a day.

ghost use Rattle.std.specs.Prelude.{◌≡◌};

use crate::shared::SharedText;
use crate::state::FileState;
use permit_base::values::{Cents, FileId};
use permit_base::words::{Stage, Timing};
use std::alloc::AllocError;
use std::marker::Model;

/// The row of a file.
#[derive(Drop)]
pub struct FileRow {
    pub id: FileId,
    pub state: FileState,
    pub valuation: Cents,
    pub description: SharedText,
}

impl Model for FileRow {
    ghost use Rattle.permit_model.specs.Tables.{FileRow as TheRow};

    ghost Value = { TheRow };

    ghost view = { λ f. record { id = f.id; state = f.state; valuation = f.valuation; description = f.description } };
}

impl Clone for FileRow {
    ghost is_clone = { λ a b. b ≡ a };

    fn clone(&self) -> Result<FileRow, AllocError> {
        Ok(FileRow {
            id: self.id,
            state: self.state,
            valuation: self.valuation,
            description: self.description.clone()?,
        })
    }
}

/// A file's row with its stage and timing on a day.
#[derive(Drop)]
pub struct FileView {
    pub row: FileRow,
    pub stage: Stage,
    pub timing: Timing,
}

impl Model for FileView {
    ghost use Rattle.permit_model.specs.Tables.{FileView as TheView};

    ghost Value = { TheView };

    ghost view = { λ v. record { row = v.row; stage = v.stage; timing = v.timing } };
}
