//! Three files in a store, selections of them, and a taker of what is found.

ghost use Rattle.std.specs.Prelude.{⊤};

use crate::ask::TOKENS;
use crate::makers::{day, digest_of, lot, parcel, party, text};
use permit_base::route::{By, Route};
use permit_base::values::Cents;
use permit_base::words::{Edition, Kind, Role, Stage, Timing};
use permit_core::state::FileState;
use permit_core::taker::Taker;
use permit_store::rows::{Change, Found};
use permit_store::store::Store;
use std::alloc::Global;
use std::test::Fail;

/// Takes the numbers of files, until it has the most that it wants.
#[derive(Drop)]
pub struct Numbers {
    pub taken: Vec<u32>,
    pub most: usize,
}

/// The number of a file that was found.
fn number_of(found: &Found) -> u32 {
    found.row.id.get()
}

impl Taker<Found> for Numbers {
    ghost took = { λ _ _ _ _. ⊤ };

    fn take(&mut self, found: Found) -> bool {
        let number = number_of(&found);
        self.taken.push(number).is_ok() && self.taken.len() < self.most
    }
}

fn commit<S: Store>(store: &mut S, change: &Change<'_>, number: u32) -> Result<(), Fail> {
    Ok(store.commit(change, day(number)?)?)
}

/// A party more, of the public.
fn add_party<S: Store>(store: &mut S, alloc: Global, token: &str) -> Result<(), Fail> {
    let name = text(alloc, "Owner")?;
    let digest = digest_of(alloc, token)?;
    let change = Change::NewParty {
        name: &name,
        role: Role::Public,
        digest,
    };
    commit(store, &change, 19700)
}

/// A parcel more.
fn add_parcel<S: Store>(
    store: &mut S,
    alloc: Global,
    letters: &str,
    owner: u32,
) -> Result<(), Fail> {
    let address = text(alloc, "Main Street")?;
    let lot = lot(alloc, letters)?;
    let change = Change::NewParcel {
        lot: &lot,
        address: &address,
        owner: party(owner)?,
    };
    commit(store, &change, 19700)
}

/// An interest of the third party in the first parcel.
fn add_interest<S: Store>(store: &mut S) -> Result<(), Fail> {
    let (parcel, party) = (parcel(1)?, party(3)?);
    commit(store, &Change::NewInterest { parcel, party }, 19700)
}

/// A file more, with a deadline 180 days after its filing.
fn add_file<S: Store>(
    store: &mut S,
    alloc: Global,
    applicant: u32,
    on: u32,
    filed: u32,
) -> Result<(), Fail> {
    let description = text(alloc, "House")?;
    let change = Change::NewFile {
        state: FileState::file(
            party(applicant)?,
            parcel(on)?,
            Kind::Construct,
            Edition::Second,
            day(filed)?,
        ),
        valuation: Cents::new(25_000_000).ok_or("an amount")?,
        description: &description,
    };
    commit(store, &change, filed)
}

/// Three files for a founded store. The second party files on its own first parcel, the third party on the same, and the
/// second again on the second parcel, which is the third party's. The third has an interest in the first parcel.
pub fn add_files<S: Store>(store: &mut S, alloc: Global) -> Result<(), Fail> {
    add_party(store, alloc, TOKENS[1])?;
    add_party(store, alloc, TOKENS[2])?;
    add_parcel(store, alloc, "A-1", 2)?;
    add_parcel(store, alloc, "A-2", 3)?;
    add_interest(store)?;
    add_file(store, alloc, 2, 1, 19700)?;
    add_file(store, alloc, 3, 1, 19700)?;
    add_file(store, alloc, 2, 2, 19720)
}

/// The filed rows without a stop order, of this timing.
pub fn filed(by: By, timing: Timing) -> Route {
    Route::Cell {
        by,
        stage: Stage::Filed,
        stopped: false,
        timing,
    }
}
