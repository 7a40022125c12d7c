//! What every store promises.

ghost use Rattle.std.specs.Prelude.{◌≡◌, IfOk, ◌==◌, ◌&&◌, find, filter, length, option_map, bytes_eq, OnOk, List, ⊤};
ghost use Rattle.std.specs.List.{list_any};
ghost use Rattle.permit_model.specs.Routes.{found_by, Found as TheFound};
ghost use Rattle.permit_model.specs.Tables.{Tables};
ghost use Rattle.permit_store.specs.Changes.{changed, Fits};
ghost use Rattle.permit_store.specs.Frames.{StoreView, OverTables, Reads, IsRead, IsLookUp, IsCommit};
ghost use Rattle.permit_store.specs.Interests.{DeclareSame};
ghost use Rattle.permit_store.specs.Handing.{AreAmong, AreFound, AreHanded, Hands, found_by_any, selected_after};

use crate::rows::{Change, Desk, FileRow, Found, Interest, Paper, Parcel, Party};
use permit_base::route::Route;
use permit_base::values::{Day, Digest, FileId, Lot, PaperNumber, ParcelId, PartyId};
use permit_base::words::Role;
use permit_core::state::FileState;
use permit_core::taker::Taker;

/// A call of a store failed: memory was refused, or what keeps the tables doesn't answer.
#[derive(Clone, Copy, Debug, PartialEq, Eq)]
pub struct StoreError;

/// What a call of a store answers.
pub type Got<T> = Result<T, StoreError>;

/// Why a store, or an office over one, isn't opened or made.
#[derive(Clone, Copy, Debug, PartialEq, Eq)]
pub enum OpenError {
    /// The rows are out of their limits, or don't agree with one another.
    Damaged,
    /// The tables are of another version.
    Version,
    /// A call failed.
    Store,
    /// There are tables already.
    Exists,
}

/// Tables that are kept.
///
/// What a store holds is a relation to the model's tables: what a call promises of the tables, it promises of
/// all tables that the store holds. A store that can't be read any more holds any tables, and each call of it
/// fails. A call that answers an error leaves what the store holds.
///
/// A disk may return what was never written, and no call can notice it. So an answer says something of the tables only where
/// the store is without doubt after the call. A store in doubt holds any tables. Memory is always without doubt.
///
/// The clauses of each call have the same names. `found`, `made` or `handed` says what the call answers, makes or passes to
/// a taker. `read`, `commit` or `handed` says that what the store holds stays, that doubt never goes, that a store which
/// answered and is without doubt can be read, and how the three counts move. `crash` says what a crash inside the call may
/// leave.
pub trait Store {
    /// What contracts see of it: the tables that it holds, its doubt, and its counts.
    ghost view: { Self → StoreView };

    /// What a crash inside a call may leave, of the store before the call, which keeps these tables, and the store after it:
    /// what a crash would have left before the call, or else tables of which the last value holds. Of memory nothing is left.
    ghost crash: { Self → Self → Tables → ((Tables → Type 0) → Type 0) → Type 0 };

    /// The edition of the inspections in force, the last day and the counts of parties, parcels and files.
    fn desk(&mut self) -> Got<Desk>
        ensures found { OverTables (view self.old) (view self.new) (λ t. IfOk result (λ d. d ≡ t.desk)) }
        ensures read { IsRead (view self.old) (view self.new) result }
        ensures crash { (t : Tables) → crash self.old self.new t (λ _. ⊥) };

    /// The party that keeps the digest.
    fn party_by_token(&mut self, digest: &Digest) -> Got<Option<Party>>
        ensures found { OverTables (view self.old) (view self.new)
            (λ t. IfOk result (λ p. p ≡ find (λ p. bytes_eq p.digest digest.now) t.parties)) }
        ensures read { IsRead (view self.old) (view self.new) result }
        ensures crash { (t : Tables) → crash self.old self.new t (λ _. ⊥) };

    /// The party of the number.
    fn party(&mut self, party: PartyId) -> Got<Option<Party>>
        ensures found { OverTables (view self.old) (view self.new)
            (λ t. IfOk result (λ p. p ≡ find (λ p. p.id == party) t.parties)) }
        ensures read { IsRead (view self.old) (view self.new) result }
        ensures crash { (t : Tables) → crash self.old self.new t (λ _. ⊥) };

    /// The role of the party of the number, with none of the row's texts.
    fn role(&mut self, party: PartyId) -> Got<Option<Role>>
        ensures found { OverTables (view self.old) (view self.new)
            (λ t. IfOk result (λ r. r ≡ option_map (λ p. p.role) (find (λ p. p.id == party) t.parties))) }
        ensures read { IsRead (view self.old) (view self.new) result }
        ensures crash { (t : Tables) → crash self.old self.new t (λ _. ⊥) };

    /// The parcel of the number.
    fn parcel(&mut self, parcel: ParcelId) -> Got<Option<Parcel>>
        ensures found { OverTables (view self.old) (view self.new)
            (λ t. IfOk result (λ p. p ≡ find (λ p. p.id == parcel) t.parcels)) }
        ensures read { IsRead (view self.old) (view self.new) result }
        ensures crash { (t : Tables) → crash self.old self.new t (λ _. ⊥) };

    /// The owner of the parcel of the number, with none of the row's texts.
    fn owner(&mut self, parcel: ParcelId) -> Got<Option<PartyId>>
        ensures found { OverTables (view self.old) (view self.new)
            (λ t. IfOk result (λ o. o ≡ option_map (λ p. p.owner) (find (λ p. p.id == parcel) t.parcels))) }
        ensures read { IsRead (view self.old) (view self.new) result }
        ensures crash { (t : Tables) → crash self.old self.new t (λ _. ⊥) };

    /// The parcel of the lot.
    fn parcel_by_lot(&mut self, lot: &Lot) -> Got<Option<Parcel>>
        ensures found { OverTables (view self.old) (view self.new)
            (λ t. IfOk result (λ p. p ≡ find (λ p. bytes_eq p.lot lot.now) t.parcels)) }
        ensures read { IsRead (view self.old) (view self.new) result }
        ensures crash { (t : Tables) → crash self.old self.new t (λ _. ⊥) };

    /// Whether the party has declared an interest in the parcel.
    fn interest(&mut self, parcel: ParcelId, party: PartyId) -> Got<bool>
        ensures found { OverTables (view self.old) (view self.new)
            (λ t. IfOk result (λ b. b ≡ list_any (λ i. (i.parcel == parcel) && (i.party == party)) t.interests)) }
        ensures read { IsRead (view self.old) (view self.new) result }
        ensures crash { (t : Tables) → crash self.old self.new t (λ _. ⊥) };

    /// All interests that were declared, in no promised order.
    fn interests(&mut self) -> Got<Vec<Interest>>
        ensures found { OverTables (view self.old) (view self.new) (λ t. IfOk result (λ v. DeclareSame v.items t.interests)) }
        ensures read { IsRead (view self.old) (view self.new) result }
        ensures crash { (t : Tables) → crash self.old self.new t (λ _. ⊥) };

    /// The row of the file of the number, which counts as handed out.
    fn file(&mut self, file: FileId) -> Got<Option<FileRow>>
        ensures found { OverTables (view self.old) (view self.new)
            (λ t. IfOk result (λ f. f ≡ find (λ f. f.id == file) t.files)) }
        ensures read { IsLookUp (view self.old) (view self.new) result }
        ensures crash { (t : Tables) → crash self.old self.new t (λ _. ⊥) };

    /// The state of the file of the number, with none of the row's texts. The file counts as handed out.
    fn state(&mut self, file: FileId) -> Got<Option<FileState>>
        ensures found { OverTables (view self.old) (view self.new)
            (λ t. IfOk result (λ s. s ≡ option_map (λ f. f.state) (find (λ f. f.id == file) t.files))) }
        ensures read { IsLookUp (view self.old) (view self.new) result }
        ensures crash { (t : Tables) → crash self.old self.new t (λ _. ⊥) };

    /// The papers of a file, in rising number.
    fn papers(&mut self, file: FileId) -> Got<Vec<Paper>>
        ensures found { OverTables (view self.old) (view self.new)
            (λ t. IfOk result (λ v. v.items ≡ filter (λ p. p.file == file) t.papers)) }
        ensures read { IsRead (view self.old) (view self.new) result }
        ensures crash { (t : Tables) → crash self.old self.new t (λ _. ⊥) };

    /// Whether the paper of the number is an open notice of the file.
    fn has_open_notice(&mut self, file: FileId, number: PaperNumber) -> Got<bool>
        ensures found { OverTables (view self.old) (view self.new)
            (λ t. IfOk result (λ b. b ≡ list_any (λ p. (p.file == file) && (p.is_open && (p.number == number))) t.papers)) }
        ensures read { IsRead (view self.old) (view self.new) result }
        ensures crash { (t : Tables) → crash self.old self.new t (λ _. ⊥) };

    /// The file rows that the selection finds for the caller on the day, in rising number, each with its parcel's owner
    /// and whether the caller has an interest in the parcel. Each counts as handed out.
    fn select(&mut self, route: &Route, caller: PartyId, day: Day) -> Got<Vec<Found>>
        ensures found { OverTables (view self.old) (view self.new)
            (λ t. IfOk result (λ v. AreFound t v.items (found_by route.now caller day t))) }
        ensures read { Reads ⊤ (selected_after (λ v. length v.items) result (view self.old).handed) (view self.old) (view self.new) result }
        ensures crash { (t : Tables) → crash self.old self.new t (λ _. ⊥) };

    /// Passes the same rows to the taker, one at a time and in the same order, until the taker answers false, which asks to
    /// stop. Returns true where it took them all, and false where it asked to stop at the last row that it took. Where the
    /// call fails, it took a prefix of them and never asked to stop. Each row that it took counts as handed out.
    fn each<T: Taker<Found>>(
        &mut self,
        route: &Route,
        caller: PartyId,
        day: Day,
        taker: &mut T,
    ) -> Got<bool>
        ensures handed { (given : List TheFound) × Hands T.took given (view self.old) (view self.new) taker.old taker.new result
            × OverTables (view self.old) (view self.new) (λ t. AreHanded t result given (found_by route.now caller day t)) }
        ensures crash { (t : Tables) → crash self.old self.new t (λ _. ⊥) };

    /// Passes to the taker the rows that any of the selections finds, each once and in any order, one at a time, until the
    /// taker asks to stop. It answers and counts as `each` does.
    fn each_of_any<T: Taker<Found>>(
        &mut self,
        routes: &[Route],
        caller: PartyId,
        day: Day,
        taker: &mut T,
    ) -> Got<bool>
        ensures handed { (given : List TheFound) × Hands T.took given (view self.old) (view self.new) taker.old taker.new result
            × OverTables (view self.old) (view self.new) (λ t. AreAmong result given (found_by_any routes.now caller day t)) }
        ensures crash { (t : Tables) → crash self.old self.new t (λ _. ⊥) };

    /// Makes exactly the change and sets the last day, or answers an error and changes nothing. Where the change doesn't fit
    /// the tables, a success promises nothing. A crash inside leaves the tables as they were, or with the whole change.
    fn commit(&mut self, change: &Change<'_>, day: Day) -> Got<()>
        ensures made { (t : Tables) → (view self.old).holds t → Fits t change.now day → OnOk result ((view self.new).holds (changed t change.now day)) }
        ensures commit { IsCommit (view self.old) (view self.new) result }
        ensures crash { (t : Tables) → Fits t change.now day → crash self.old self.new t (λ left. left (changed t change.now day)) };
}
