//! The rows of the tables as typed values, and the changes of the tables.

ghost use Rattle.std.specs.Prelude.{◌≡◌, IfOk};

pub use crate::change::{Change, NewPaper, RowEffect};
use permit_base::values::{Day, Digest, FileId, Lot, PaperNumber, ParcelId, PartyId, Text};
use permit_base::words::{Edition, PaperSort, Role};
pub use permit_core::row::{FileRow, FileView};
use std::alloc::AllocError;
use std::marker::Model;

/// The edition of the inspections that is in force, the last day and the counts of rows.
#[derive(Clone, Copy)]
pub struct Desk {
    /// The edition that a new file keeps to.
    pub edition: Edition,
    /// The day of the last accepted command.
    pub last: Day,
    pub parties: u32,
    pub parcels: u32,
    pub files: u32,
}

impl Model for Desk {
    ghost use Rattle.permit_model.specs.Tables.{Desk as TheDesk};

    ghost Value = { TheDesk };

    ghost view = { λ d. record { edition = d.edition; last = d.last; parties = d.parties; parcels = d.parcels; files = d.files } };

    ghost inverse = { λ d. record { edition = d.edition; last = d.last; parties = d.parties; parcels = d.parcels; files = d.files } };
}

/// A party: who may ask the office for something.
#[derive(Drop)]
pub struct Party {
    pub id: PartyId,
    pub name: Text,
    pub role: Role,
    /// The digest of the party's token.
    pub digest: Digest,
}

impl Model for Party {
    ghost use Rattle.permit_model.specs.Caller.{Party as TheParty};

    ghost Value = { TheParty };

    ghost view = { λ p. record { id = p.id; name = p.name; role = p.role; digest = p.digest } };
}

impl Clone for Party {
    ghost is_clone = { λ a b. b ≡ a };

    fn clone(&self) -> Result<Party, AllocError> {
        let name = self.name.clone()?;
        Ok(Party {
            id: self.id,
            name,
            role: self.role,
            digest: self.digest,
        })
    }
}

/// A parcel of land.
#[derive(Drop)]
pub struct Parcel {
    pub id: ParcelId,
    pub lot: Lot,
    pub address: Text,
    pub owner: PartyId,
}

impl Model for Parcel {
    ghost use Rattle.permit_model.specs.Parcels.{Parcel as TheParcel};

    ghost Value = { TheParcel };

    ghost view = { λ p. record { id = p.id; lot = p.lot; address = p.address; owner = p.owner } };
}

impl Clone for Parcel {
    ghost is_clone = { λ a b. b ≡ a };

    fn clone(&self) -> Result<Parcel, AllocError> {
        let lot = self.lot.clone()?;
        let address = self.address.clone()?;
        Ok(Parcel {
            id: self.id,
            lot,
            address,
            owner: self.owner,
        })
    }
}

/// A declared interest of a party in a parcel.
#[derive(Clone, Copy)]
pub struct Interest {
    pub parcel: ParcelId,
    pub party: PartyId,
}

impl Model for Interest {
    ghost use Rattle.permit_model.specs.Parcels.{Interest as TheInterest};

    ghost Value = { TheInterest };

    ghost view = { λ r. record { parcel = r.parcel; party = r.party } };

    ghost inverse = { λ r. record { parcel = r.parcel; party = r.party } };
}

/// A file's row as a selection finds it for a caller, with what the caller's relations to the file are read from.
#[derive(Drop)]
pub struct Found {
    pub row: FileRow,
    /// The owner of the file's parcel; None where the parcel isn't there.
    pub owner: Option<PartyId>,
    /// Whether the caller has declared an interest in the parcel.
    pub conflict: bool,
}

impl Model for Found {
    ghost use Rattle.permit_model.specs.Routes.{Found as TheFound};

    ghost Value = { TheFound };

    ghost view = { λ f. record { row = f.row; owner = f.owner; conflict = f.conflict } };
}

/// A paper of a file. Its text and its terms may be empty.
#[derive(Drop)]
pub struct Paper {
    pub file: FileId,
    pub number: PaperNumber,
    pub day: Day,
    pub author: PartyId,
    pub sort: PaperSort,
    /// The days asked, granted or given; else 0.
    pub days: u32,
    pub text: String,
    /// The conditions of a stop work order.
    pub terms: String,
    /// Whether it is a notice that isn't cleared.
    pub is_open: bool,
}

impl Model for Paper {
    ghost use Rattle.std.specs.Prelude.{string_bytes};
    ghost use Rattle.permit_model.specs.Tables.{Paper as ThePaper};

    ghost Value = { ThePaper };

    ghost view = { λ p. record {
      file = p.file;
      number = p.number;
      day = p.day;
      author = p.author;
      sort = p.sort;
      days = p.days;
      text = string_bytes p.text;
      terms = string_bytes p.terms;
      is_open = p.is_open;
    } };
}

impl Clone for Paper {
    ghost is_clone = { λ a b. b ≡ a };

    fn clone(&self) -> Result<Paper, AllocError> {
        let text = self.text.clone()?;
        let terms = self.terms.clone()?;
        Ok(Paper {
            file: self.file,
            number: self.number,
            day: self.day,
            author: self.author,
            sort: self.sort,
            days: self.days,
            text,
            terms,
            is_open: self.is_open,
        })
    }
}
