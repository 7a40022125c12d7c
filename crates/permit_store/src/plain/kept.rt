//! A file as it is kept.

use crate::rows::{FileRow, Paper};
use std::collections::LinkedList;
use std::marker::Model;

/// A file's row, and its papers in rising number.
#[derive(Drop)]
pub(crate) struct Kept {
    pub(crate) row: FileRow,
    pub(crate) papers: LinkedList<Paper>,
}

impl Model for Kept {
    ghost use Rattle.permit_store.specs.Plain.{KeptFile};

    ghost Value = { KeptFile };

    ghost view = { λ k. record { row = k.row; papers = k.papers } };
}
