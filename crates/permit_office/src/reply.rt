//! What the office answers.

use permit_base::refusal::Refusal;
use permit_base::words::RegisterKind;
use permit_store::rows::{FileView, Paper, Parcel};

/// The files of a listing or a register.
#[derive(Drop)]
pub struct Listing {
    /// In rising number, each once.
    pub files: Vec<FileView>,
    /// How many rows the store returned for it; the count wraps after 4294967295.
    pub read: u32,
}

/// A reply to a request.
#[derive(Drop)]
pub enum Reply {
    /// A command was accepted; the number is that of the party, parcel, file or paper that it made.
    Done {
        number: Option<u32>,
    },
    /// The parcel asked for.
    Parcel(Parcel),
    /// The file asked for, with its stage and timing on the day of the request, and its papers in rising number.
    File(FileView, Vec<Paper>),
    /// The files asked for that the caller may list, with their stages and timings on the day of the request.
    Listed(Listing),
    /// The register asked for, of the files that the caller may list.
    Register {
        kind: RegisterKind,
        listing: Listing,
    },
    /// Nothing was done.
    Refused(Refusal),
}
