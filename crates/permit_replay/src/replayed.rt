//! Replaying one entry at a time.

ghost use Rattle.std.specs.Prelude.{◌≡◌, ℕ, List, []};
ghost use Rattle.permit_model.specs.History.{History};
ghost use Rattle.permit_history.specs.declared.entry.Deed.TheVariants as deed;
ghost use Rattle.permit_replay.specs.Histories.{HasToken, Unsaid};
ghost use Rattle.permit_replay.specs.Holding.{Holds, IsBeginning, Takes};
ghost use Rattle.permit_replay.specs.declared.replayed.Replayed.TheVariants as replayed;

use crate::beginning::Beginning;
use crate::fault::Why;
use crate::following::follow;
use permit_base::values::{Day, Digest, Text};
use permit_history::entry::{Deed, Entry};
use permit_store::founder::Founder;
use permit_store::plain::PlainStore;
use permit_store::store::Store;
use std::alloc::Global;

/// How far a history has been replayed. It keeps no entry but the founding, and this until the next one.
#[derive(Drop)]
pub enum Replayed {
    /// No entry was taken. The first may begin so.
    Nothing(Beginning),
    /// The founding was taken.
    Founded(Founder),
    /// The founding and the upgrade were taken, or the entry that begins with an office that was there, and what followed.
    Open(PlainStore),
}

/// Takes the founding as the first entry.
fn found(day: Day, name: &Text, digest: Digest) -> Result<Replayed, Why>
    ensures { (unsaid : Unsaid) → Takes ⟦<PlainStore as Store>⟧.view unsaid [] day (deed.Found name.now digest) result }
{
    let Ok(name) = name.clone() else {
        return Err(Why::Memory);
    };
    match Founder::new(name, digest, day) {
        Some(founder) => Ok(Replayed::Founded(founder)),
        None => Err(Why::NoFounding),
    }
}

/// Takes an entry that begins with an office that was there, as the first one.
fn begin(beginning: Beginning, day: Day, tables: &Digest) -> Result<Replayed, Why>
    ensures { (unsaid : Unsaid) → IsBeginning ⟦<PlainStore as Store>⟧.view beginning unsaid
        → Takes ⟦<PlainStore as Store>⟧.view unsaid [] day (deed.Begin tables.now) result }
{
    match beginning {
        Beginning::Founding => Err(Why::NoCopy),
        Beginning::Copy(mut copy) => {
            if *tables != copy.tables {
                return Err(Why::OtherCopy);
            }
            let Ok(desk) = copy.store.desk() else {
                return Err(Why::Memory);
            };
            if day.get() != desk.last.get() {
                return Err(Why::CopyDay);
            }
            Ok(Replayed::Open(copy.store))
        }
    }
}

/// Takes the first entry.
fn first(beginning: Beginning, day: Day, deed: &Deed) -> Result<Replayed, Why>
    ensures { (unsaid : Unsaid) → IsBeginning ⟦<PlainStore as Store>⟧.view beginning unsaid
        → Takes ⟦<PlainStore as Store>⟧.view unsaid [] day deed.now result }
{
    match deed {
        Deed::Begin { tables } => begin(beginning, day, tables),
        Deed::Found { name, digest } => found(day, name, *digest),
        Deed::Upgrade | Deed::RenewToken { .. } | Deed::Accepted { .. } => Err(Why::NoFounding),
    }
}

/// Takes the second entry.
fn upgrade(alloc: Global, founder: &Founder, day: Day, deed: &Deed) -> Result<Replayed, Why>
    ensures { (unsaid : Unsaid) (h : History) → Holds ⟦<PlainStore as Store>⟧.view unsaid (replayed.Founded founder.now) h
        → Takes ⟦<PlainStore as Store>⟧.view unsaid h day deed.now result }
{
    match deed {
        Deed::Begin { .. } => Err(Why::SecondBeginning),
        Deed::Found { .. } => Err(Why::SecondFounding),
        Deed::Upgrade => {
            if day.get() != founder.day.get() {
                return Err(Why::UpgradeDay);
            }
            match PlainStore::create(alloc, founder) {
                Ok(store) => Ok(Replayed::Open(store)),
                Err(_) => Err(Why::Memory),
            }
        }
        Deed::RenewToken { .. } | Deed::Accepted { .. } => Err(Why::FirstEdition),
    }
}

impl Replayed {
    /// Takes the next entry, where nothing is against it after those that were taken. Otherwise it answers why; then what was
    /// replayed is gone.
    ///
    /// A command is tested in the order caller, clock, record, not admitted, number.
    ///
    /// # Examples
    ///
    /// ```
    /// let deed = Deed::Found { name, digest };
    /// let nothing = Replayed::Nothing(Beginning::Founding);
    /// let Ok(founded) = nothing.take(alloc, &Entry { day, deed }) else {
    ///     return Err(Fail::new("no founding"));
    /// };
    /// let deed = Deed::Upgrade;
    /// let opened = founded.take(alloc, &Entry { day, deed });
    /// assert!(rt; matches!(opened, Ok(Replayed::Open(_))));
    /// ```
    pub fn take(self, alloc: Global, entry: &Entry) -> Result<Replayed, Why>
        ensures { (unsaid : Unsaid) (h : History) → Holds ⟦<PlainStore as Store>⟧.view unsaid self h → HasToken unsaid entry.now.deed
            → Takes ⟦<PlainStore as Store>⟧.view unsaid h entry.now.day entry.now.deed result }
    {
        match self {
            Replayed::Nothing(beginning) => first(beginning, entry.day, &entry.deed),
            Replayed::Founded(founder) => upgrade(alloc, &founder, entry.day, &entry.deed),
            Replayed::Open(mut store) => {
                follow(&mut store, entry.day, &entry.deed)?;
                Ok(Replayed::Open(store))
            }
        }
    }
}
