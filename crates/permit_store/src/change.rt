//! The changes of the tables.

use permit_base::values::{Cents, Digest, FileId, Lot, PaperNumber, ParcelId, PartyId, Text};
use permit_base::words::{PaperSort, Role};
use permit_core::state::FileState;

/// A change of the tables. It borrows its texts, so making one takes no memory. A new row has the number after
/// the count of rows of its kind, which the store gives it.
#[derive(Clone, Copy)]
pub enum Change<'a> {
    /// A party more.
    NewParty {
        name: &'a Text,
        role: Role,
        digest: Digest,
    },
    /// A parcel more.
    NewParcel {
        lot: &'a Lot,
        address: &'a Text,
        owner: PartyId,
    },
    /// Another owner of a parcel.
    NewOwner {
        parcel: ParcelId,
        owner: PartyId,
    },
    /// A declared interest of a party in a parcel.
    NewInterest {
        parcel: ParcelId,
        party: PartyId,
    },
    /// A file more.
    NewFile {
        state: FileState,
        valuation: Cents,
        description: &'a Text,
    },
    /// A file's new row, with what else changes by it.
    NewRow {
        file: FileId,
        state: FileState,
        effect: RowEffect<'a>,
    },
}

/// What changes of the papers together with a file's row.
#[derive(Clone, Copy)]
pub enum RowEffect<'a> {
    /// Nothing.
    None,
    /// The file has a paper more.
    Paper(NewPaper<'a>),
    /// The notice of this number isn't open any longer.
    NoticeClosed(PaperNumber),
}

/// A paper to be added. Its number is the count of papers in the file's new row, its day that of the commit;
/// a notice is open.
#[derive(Clone, Copy)]
pub struct NewPaper<'a> {
    pub author: PartyId,
    pub sort: PaperSort,
    /// The days asked, granted or given; else 0.
    pub days: u32,
    /// None where it is empty.
    pub text: Option<&'a Text>,
    /// None where they are empty.
    pub terms: Option<&'a Text>,
}
