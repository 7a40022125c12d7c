//! The store that reads from memory.

ghost use Rattle.std.specs.Prelude.{◌≡◌, ◌≤◌, ◌+◌, ◌%◌, ◌^◌, ◌==◌, ◌&&◌, false, IfOk, OnOk, List, find, filter, length, option_map, bytes_eq, ⊤};
ghost use Rattle.std.specs.List.{list_any};
ghost use Rattle.permit_model.specs.Routes.{found_by, Found as TheFound};
ghost use Rattle.permit_model.specs.Tables.{Tables};
ghost use Rattle.permit_store.specs.Counts.{failed_after};
ghost use Rattle.permit_store.specs.Frames.{HasOneDesk, OverTables, Reads, IsRead, IsLookUp};
ghost use Rattle.permit_store.specs.Handing.{AreAmong, AreFound, AreHanded, Hands, found_by_any, selected_after};
ghost use Rattle.permit_store.specs.Interests.{DeclareSame};
ghost use Rattle.permit_mirror.specs.Asked.{IsFromMemory};
ghost use Rattle.permit_mirror.specs.Both.{CanBeRead, WasAsked, LeftBy, both};

use permit_base::route::Route;
use permit_base::values::{Day, Digest, FileId, Lot, PaperNumber, ParcelId, PartyId};
use permit_base::words::Role;
use permit_core::state::FileState;
use permit_core::taker::Taker;
use permit_store::memory::Memory;
use permit_store::rows::{Change, Desk, FileRow, Found, Interest, Paper, Parcel, Party};
use permit_store::store::{Got, Store};

/// Tables that a store keeps, and that are in memory beside it. Memory answers each read. A commit is made by both: memory
/// asks for what the change needs, the store that keeps the tables makes it, then memory makes it.
///
/// A failed commit may have shut the store that keeps the tables with the change on the disk. So memory answers nothing
/// until that store has answered once more: a read asks it for its desk first, and fails where that fails. Each read says
/// by its clause `asked` that it asks no more of it.
///
/// # Examples
///
/// ```
/// let role = store.role(party(1)?)?;
/// assert!(rt; matches!(role, Some(Role::Official)));
/// ```
#[derive(Drop)]
pub struct Mirrored<S: Store, M: Memory> {
    kept: S,
    memory: M,
    /// Whether the store that keeps the tables has answered nothing since it was given here, or since a commit of it failed.
    is_wary: bool,
    failed: u64,
    commits: u64,
    ghost readable: { is_wary ≡ false → (S.view kept).doubt ≡ 0 → HasOneDesk (S.view kept) },
}

impl<S: Store, M: Memory + Drop> Mirrored<S, M> {
    /// Makes one store of both. It holds the tables that the first keeps, where memory holds them too or the first can't be
    /// read.
    pub fn new(kept: S, memory: M) -> Mirrored<S, M>
        ensures held { (t : Tables) → (S.view kept).holds t → (CanBeRead (S.view kept) → (M.view memory).holds t)
            → (⟦<Mirrored<S, M> as Store>⟧.view result).holds t }
        ensures doubt { (⟦<Mirrored<S, M> as Store>⟧.view result).doubt ≡ (S.view kept).doubt }
        ensures handed { (⟦<Mirrored<S, M> as Store>⟧.view result).handed ≡ ((S.view kept).handed + (M.view memory).handed) % 2 ^ 64 }
        ensures failed { (⟦<Mirrored<S, M> as Store>⟧.view result).failed ≡ 0 }
        ensures commits { (⟦<Mirrored<S, M> as Store>⟧.view result).commits ≡ 0 }
    {
        Mirrored {
            kept,
            memory,
            is_wary: true,
            failed: 0,
            commits: 0,
        }
    }

    /// Returns the store that keeps the tables. It holds what was held.
    ///
    /// # Examples
    ///
    /// ```
    /// let mut kept = store.into_kept();
    /// assert!(rt; kept.desk()?.parties == 1);
    /// ```
    pub fn into_kept(self) -> S
        ensures kept { result ≡ self.kept }
        ensures held { (t : Tables) → (⟦<Mirrored<S, M> as Store>⟧.view self).holds t → (S.view result).holds t }
        ensures doubt { (S.view result).doubt ≡ (⟦<Mirrored<S, M> as Store>⟧.view self).doubt }
    {
        let Mirrored {
            kept,
            memory: _,
            is_wary: _,
            failed: _,
            commits: _,
        } = self;
        kept
    }

    /// Counts a failed call, and gives its answer on.
    fn counted<T>(&mut self, answer: Got<T>) -> Got<T>
        ensures answer { result ≡ answer }
        ensures failed { self.new.failed ≡ failed_after answer self.old.failed }
        ensures stores { (self.new.kept ≡ self.old.kept) × (self.new.memory ≡ self.old.memory) }
        ensures others { (self.new.is_wary ≡ self.old.is_wary) × (self.new.commits ≡ self.old.commits) }
    {
        if answer.is_err() {
            self.failed = self.failed.wrapping_add(1);
        }
        answer
    }

    /// Makes sure that the store that keeps the tables can be read, so that memory may answer. Where that store has answered
    /// nothing since it was given here, or since a commit of it failed, it is asked for its desk.
    fn settle(&mut self) -> Got<()>
        ensures read { IsRead (both (S.view self.old.kept) (M.view self.old.memory) self.old.failed self.old.commits)
            (both (S.view self.new.kept) (M.view self.new.memory) self.new.failed self.new.commits) result }
        ensures settled { OnOk result ((S.view self.new.kept).doubt ≡ 0 → (t : Tables)
            → (both (S.view self.old.kept) (M.view self.old.memory) self.old.failed self.old.commits).holds t → (M.view self.new.memory).holds t) }
        ensures readable { OnOk result ((S.view self.new.kept).doubt ≡ 0 → HasOneDesk (S.view self.new.kept)) }
        ensures memory { self.new.memory ≡ self.old.memory }
        ensures asked { IsFromMemory self.old.is_wary self.new.is_wary self.old.kept self.new.kept result }
        ensures crash { (t : Tables) → WasAsked S.crash self.old.kept self.new.kept t }
    {
        if !self.is_wary {
            return Ok(());
        }
        match self.kept.desk() {
            Ok(_) => {
                self.is_wary = false;
                Ok(())
            }
            Err(why) => self.counted(Err(why)),
        }
    }
}

impl<S: Store, M: Memory + Drop> Store for Mirrored<S, M> {
    ghost use Rattle.permit_mirror.specs.Seen.{seen};

    ghost view = { λ s. both (S.view s.kept) (M.view s.memory) s.failed s.commits };

    ghost crash = { λ old new t made. LeftBy S.crash old.kept new.kept t made };

    fn desk(&mut self) -> Got<Desk>
        ensures found { OverTables (seen self.old) (seen self.new) (λ t. IfOk result (λ d. d ≡ t.desk)) }
        ensures read { IsRead (seen self.old) (seen self.new) result }
        ensures crash { (t : Tables) → LeftBy S.crash self.old.kept self.new.kept t (λ _. ⊥) }
        ensures asked { IsFromMemory self.old.is_wary self.new.is_wary self.old.kept self.new.kept result }
    {
        self.settle()?;
        let answer = self.memory.desk();
        self.counted(answer)
    }

    fn party_by_token(&mut self, digest: &Digest) -> Got<Option<Party>>
        ensures found { OverTables (seen self.old) (seen self.new)
            (λ t. IfOk result (λ p. p ≡ find (λ p. bytes_eq p.digest digest.now) t.parties)) }
        ensures read { IsRead (seen self.old) (seen self.new) result }
        ensures crash { (t : Tables) → LeftBy S.crash self.old.kept self.new.kept t (λ _. ⊥) }
        ensures asked { IsFromMemory self.old.is_wary self.new.is_wary self.old.kept self.new.kept result }
    {
        self.settle()?;
        let answer = self.memory.party_by_token(digest);
        self.counted(answer)
    }

    fn party(&mut self, party: PartyId) -> Got<Option<Party>>
        ensures found { OverTables (seen self.old) (seen self.new)
            (λ t. IfOk result (λ p. p ≡ find (λ p. p.id == party) t.parties)) }
        ensures read { IsRead (seen self.old) (seen self.new) result }
        ensures crash { (t : Tables) → LeftBy S.crash self.old.kept self.new.kept t (λ _. ⊥) }
        ensures asked { IsFromMemory self.old.is_wary self.new.is_wary self.old.kept self.new.kept result }
    {
        self.settle()?;
        let answer = self.memory.party(party);
        self.counted(answer)
    }

    fn role(&mut self, party: PartyId) -> Got<Option<Role>>
        ensures found { OverTables (seen self.old) (seen self.new)
            (λ t. IfOk result (λ r. r ≡ option_map (λ p. p.role) (find (λ p. p.id == party) t.parties))) }
        ensures read { IsRead (seen self.old) (seen self.new) result }
        ensures crash { (t : Tables) → LeftBy S.crash self.old.kept self.new.kept t (λ _. ⊥) }
        ensures asked { IsFromMemory self.old.is_wary self.new.is_wary self.old.kept self.new.kept result }
    {
        self.settle()?;
        let answer = self.memory.role(party);
        self.counted(answer)
    }

    fn parcel(&mut self, parcel: ParcelId) -> Got<Option<Parcel>>
        ensures found { OverTables (seen self.old) (seen self.new)
            (λ t. IfOk result (λ p. p ≡ find (λ p. p.id == parcel) t.parcels)) }
        ensures read { IsRead (seen self.old) (seen self.new) result }
        ensures crash { (t : Tables) → LeftBy S.crash self.old.kept self.new.kept t (λ _. ⊥) }
        ensures asked { IsFromMemory self.old.is_wary self.new.is_wary self.old.kept self.new.kept result }
    {
        self.settle()?;
        let answer = self.memory.parcel(parcel);
        self.counted(answer)
    }

    fn owner(&mut self, parcel: ParcelId) -> Got<Option<PartyId>>
        ensures found { OverTables (seen self.old) (seen self.new)
            (λ t. IfOk result (λ o. o ≡ option_map (λ p. p.owner) (find (λ p. p.id == parcel) t.parcels))) }
        ensures read { IsRead (seen self.old) (seen self.new) result }
        ensures crash { (t : Tables) → LeftBy S.crash self.old.kept self.new.kept t (λ _. ⊥) }
        ensures asked { IsFromMemory self.old.is_wary self.new.is_wary self.old.kept self.new.kept result }
    {
        self.settle()?;
        let answer = self.memory.owner(parcel);
        self.counted(answer)
    }

    fn parcel_by_lot(&mut self, lot: &Lot) -> Got<Option<Parcel>>
        ensures found { OverTables (seen self.old) (seen self.new)
            (λ t. IfOk result (λ p. p ≡ find (λ p. bytes_eq p.lot lot.now) t.parcels)) }
        ensures read { IsRead (seen self.old) (seen self.new) result }
        ensures crash { (t : Tables) → LeftBy S.crash self.old.kept self.new.kept t (λ _. ⊥) }
        ensures asked { IsFromMemory self.old.is_wary self.new.is_wary self.old.kept self.new.kept result }
    {
        self.settle()?;
        let answer = self.memory.parcel_by_lot(lot);
        self.counted(answer)
    }

    fn interest(&mut self, parcel: ParcelId, party: PartyId) -> Got<bool>
        ensures found { OverTables (seen self.old) (seen self.new)
            (λ t. IfOk result (λ b. b ≡ list_any (λ i. (i.parcel == parcel) && (i.party == party)) t.interests)) }
        ensures read { IsRead (seen self.old) (seen self.new) result }
        ensures crash { (t : Tables) → LeftBy S.crash self.old.kept self.new.kept t (λ _. ⊥) }
        ensures asked { IsFromMemory self.old.is_wary self.new.is_wary self.old.kept self.new.kept result }
    {
        self.settle()?;
        let answer = self.memory.interest(parcel, party);
        self.counted(answer)
    }

    fn interests(&mut self) -> Got<Vec<Interest>>
        ensures found { OverTables (seen self.old) (seen self.new) (λ t. IfOk result (λ v. DeclareSame v.items t.interests)) }
        ensures read { IsRead (seen self.old) (seen self.new) result }
        ensures crash { (t : Tables) → LeftBy S.crash self.old.kept self.new.kept t (λ _. ⊥) }
        ensures asked { IsFromMemory self.old.is_wary self.new.is_wary self.old.kept self.new.kept result }
    {
        self.settle()?;
        let answer = self.memory.interests();
        self.counted(answer)
    }

    fn file(&mut self, file: FileId) -> Got<Option<FileRow>>
        ensures found { OverTables (seen self.old) (seen self.new)
            (λ t. IfOk result (λ f. f ≡ find (λ f. f.id == file) t.files)) }
        ensures read { IsLookUp (seen self.old) (seen self.new) result }
        ensures crash { (t : Tables) → LeftBy S.crash self.old.kept self.new.kept t (λ _. ⊥) }
        ensures asked { IsFromMemory self.old.is_wary self.new.is_wary self.old.kept self.new.kept result }
    {
        self.settle()?;
        let answer = self.memory.file(file);
        self.counted(answer)
    }

    fn state(&mut self, file: FileId) -> Got<Option<FileState>>
        ensures found { OverTables (seen self.old) (seen self.new)
            (λ t. IfOk result (λ s. s ≡ option_map (λ f. f.state) (find (λ f. f.id == file) t.files))) }
        ensures read { IsLookUp (seen self.old) (seen self.new) result }
        ensures crash { (t : Tables) → LeftBy S.crash self.old.kept self.new.kept t (λ _. ⊥) }
        ensures asked { IsFromMemory self.old.is_wary self.new.is_wary self.old.kept self.new.kept result }
    {
        self.settle()?;
        let answer = self.memory.state(file);
        self.counted(answer)
    }

    fn papers(&mut self, file: FileId) -> Got<Vec<Paper>>
        ensures found { OverTables (seen self.old) (seen self.new)
            (λ t. IfOk result (λ v. v.items ≡ filter (λ p. p.file == file) t.papers)) }
        ensures read { IsRead (seen self.old) (seen self.new) result }
        ensures crash { (t : Tables) → LeftBy S.crash self.old.kept self.new.kept t (λ _. ⊥) }
        ensures asked { IsFromMemory self.old.is_wary self.new.is_wary self.old.kept self.new.kept result }
    {
        self.settle()?;
        let answer = self.memory.papers(file);
        self.counted(answer)
    }

    fn has_open_notice(&mut self, file: FileId, number: PaperNumber) -> Got<bool>
        ensures found { OverTables (seen self.old) (seen self.new)
            (λ t. IfOk result (λ b. b ≡ list_any (λ p. (p.file == file) && (p.is_open && (p.number == number))) t.papers)) }
        ensures read { IsRead (seen self.old) (seen self.new) result }
        ensures crash { (t : Tables) → LeftBy S.crash self.old.kept self.new.kept t (λ _. ⊥) }
        ensures asked { IsFromMemory self.old.is_wary self.new.is_wary self.old.kept self.new.kept result }
    {
        self.settle()?;
        let answer = self.memory.has_open_notice(file, number);
        self.counted(answer)
    }

    fn select(&mut self, route: &Route, caller: PartyId, day: Day) -> Got<Vec<Found>>
        ensures found { OverTables (seen self.old) (seen self.new)
            (λ t. IfOk result (λ v. AreFound t v.items (found_by route.now caller day t))) }
        ensures read { Reads ⊤ (selected_after (λ v. length v.items) result (seen self.old).handed) (seen self.old) (seen self.new) result }
        ensures crash { (t : Tables) → LeftBy S.crash self.old.kept self.new.kept t (λ _. ⊥) }
        ensures asked { IsFromMemory self.old.is_wary self.new.is_wary self.old.kept self.new.kept result }
    {
        self.settle()?;
        let answer = self.memory.select(route, caller, day);
        self.counted(answer)
    }

    fn each<T: Taker<Found>>(
        &mut self,
        route: &Route,
        caller: PartyId,
        day: Day,
        taker: &mut T,
    ) -> Got<bool>
        ensures handed { (given : List TheFound) × Hands T.took given (seen self.old) (seen self.new) taker.old taker.new result
            × OverTables (seen self.old) (seen self.new) (λ t. AreHanded t result given (found_by route.now caller day t)) }
        ensures crash { (t : Tables) → LeftBy S.crash self.old.kept self.new.kept t (λ _. ⊥) }
        ensures asked { IsFromMemory self.old.is_wary self.new.is_wary self.old.kept self.new.kept result }
    {
        self.settle()?;
        let answer = self.memory.each(route, caller, day, taker);
        self.counted(answer)
    }

    fn each_of_any<T: Taker<Found>>(
        &mut self,
        routes: &[Route],
        caller: PartyId,
        day: Day,
        taker: &mut T,
    ) -> Got<bool>
        ensures handed { (given : List TheFound) × Hands T.took given (seen self.old) (seen self.new) taker.old taker.new result
            × OverTables (seen self.old) (seen self.new) (λ t. AreAmong result given (found_by_any routes.now caller day t)) }
        ensures crash { (t : Tables) → LeftBy S.crash self.old.kept self.new.kept t (λ _. ⊥) }
        ensures asked { IsFromMemory self.old.is_wary self.new.is_wary self.old.kept self.new.kept result }
    {
        self.settle()?;
        let answer = self.memory.each_of_any(routes, caller, day, taker);
        self.counted(answer)
    }

    fn commit(&mut self, change: &Change<'_>, day: Day) -> Got<()> {
        self.commits = self.commits.wrapping_add(1);
        self.settle()?;
        let ready = match self.memory.prepare(change, day) {
            Ok(ready) => ready,
            Err(why) => return self.counted(Err(why)),
        };
        let made = self.kept.commit(change, day);
        match made {
            Ok(()) => self.memory.make(ready, change, day),
            Err(_) => self.is_wary = true,
        }
        self.counted(made)
    }
}
