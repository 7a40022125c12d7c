//! The store over SQL.

ghost use Rattle.std.specs.Prelude.{◌≡◌, ◌==◌, ◌&&◌, ◌≢◌, ◌≤◌, ◌⊎◌, ⊤, false, IsTrue, IfOk, IfErr, IsErrAnd, OnOk, Err, Some, None, is_err, List, length, find, filter, option_map, bytes_eq};
ghost use Rattle.std.specs.List.{list_any};
ghost use Rattle.sqlite.specs.State.{HasCleanDisk, Survives};
ghost use Rattle.sqlite.specs.Held.{state};
ghost use Rattle.permit_base.specs.declared.words.Edition.TheVariants.{First, Second};
ghost use Rattle.permit_model.specs.Routes.{found_by, Found as TheFound};
ghost use Rattle.permit_model.specs.Tables.{Tables, tables, with_upgrade};
ghost use Rattle.permit_model.specs.Sound.{IsSoundTables};
ghost use Rattle.permit_store.specs.Founding.{founding};
ghost use Rattle.permit_store.specs.Counts.{failed_after, handed_after, next_count};
ghost use Rattle.permit_store.specs.Handing.{AreAmong, AreFound, AreHanded, Hands, found_by_any, selected_after};
ghost use Rattle.permit_store.specs.Interests.{DeclareSame};
ghost use Rattle.permit_store.specs.declared.store.OpenError.TheVariants as open_error;
ghost use Rattle.permit_sql_rows.specs.Schema.{empty_schema};
ghost use Rattle.permit_sql_rows.specs.Kept.{KeepsUnder, Keeps};
ghost use Rattle.permit_sql.specs.Seen.{Lasts, suspect_after};
ghost use Rattle.permit_sql.specs.Creating.{Founds, RefusesToFound};
ghost use Rattle.permit_sql.specs.Found.{KeepsSoundUnder};
ghost use Rattle.permit_sql.specs.Opening.{Opens};
ghost use Rattle.permit_sql.specs.Refusing.{Refuses};
ghost use Rattle.permit_sql.specs.Upgrading.{Upgrades};
ghost use Rattle.permit_sql_statements.specs.Founding.{AreCounted};
ghost use Rattle.permit_sql_statements.specs.Frames.{IsIdle};

use crate::open::check;
use crate::renew::renew_over;
use permit_base::refusal::Refusal;
use permit_base::route::Route;
use permit_base::values::{Day, Digest, FileId, Lot, PaperNumber, ParcelId, PartyId};
use permit_base::words::{Edition, Role};
use permit_batch::batching::Batching;
use permit_core::state::FileState;
use permit_core::taker::Taker;
use permit_sql_statements::commit::{change_step, commit_in, renewal_step};
use permit_sql_statements::create::{create_in, upgrade_in};
use permit_sql_statements::idle::Idle;
use permit_sql_statements::lending::run_steps;
use permit_sql_statements::read::{
    find_parcel, find_party, has_interest, has_open_notice, read_desk, read_file, read_interests,
    read_owner, read_papers, read_parcel, read_party, read_role, read_state,
};
use permit_sql_statements::select::{each_found, each_of_any_found, select_found};
use permit_sql_statements::step::Step;
use permit_store::founder::Founder;
use permit_store::renewing::Renewing;
use permit_store::rows::{Change, Desk, FileRow, Found, Interest, Paper, Parcel, Party};
use permit_store::store::{Got, OpenError, Store};
use sqlite::{Alter, Connection};
use std::alloc::Global;
use std::sync::Arc;
use std::sync::atomic::{AtomicBool, Ordering};

/// The tables of the office in a database, over a connection that the store owns.
#[derive(Drop)]
pub struct SqlStore<S: Alter> {
    alloc: Global,
    conn: Idle<S>,
    /// How many files there were at the upgrade.
    upgrade: Option<u32>,
    handed: u64,
    failed: u64,
    commits: u64,
    /// Whether a commit failed, and no call that a request may begin with has succeeded since.
    is_suspect: bool,
    /// The flag that is set once the connection is shut, where one was given.
    shut: Option<Arc<AtomicBool, Global>>,
}

/// Whether the database has no table, no index and no view.
fn is_empty<S: Alter>(conn: &Connection<S>) -> bool
    ensures yes { IsTrue result → (state S.Store conn.now).now.schema ≡ empty_schema }
    ensures no { result ≡ false → (state S.Store conn.now).now.schema ≢ empty_schema }
{
    let schema = conn.schema();
    if schema.tables.len() != 0 {
        return false;
    }
    if schema.indexes.len() != 0 {
        return false;
    }
    schema.views.len() == 0
}

/// A law: the tables of a founding are sound, since a founder's texts and day are within their limits.
fn founds_sound_tables(founder: &Founder)
    ensures { IsSoundTables (tables (founding founder.now.name founder.now.digest founder.now.day)) }
{
    let _name = founder.name.as_str();
    let _digest = founder.digest.as_str();
    let _day = founder.day.get();
}

impl<S: Alter> SqlStore<S> {
    /// Counts a failed call, and gives its answer on.
    fn counted<T>(&mut self, got: Got<T>) -> Got<T>
        ensures same { result ≡ got }
        ensures failed { self.new.failed ≡ failed_after got self.old.failed }
        ensures others { (self.new.handed ≡ self.old.handed) × (self.new.commits ≡ self.old.commits) × (self.new.upgrade ≡ self.old.upgrade) }
        ensures shut { (self.new.is_suspect ≡ self.old.is_suspect) × (self.new.shut ≡ self.old.shut) }
        ensures conn { self.new.conn ≡ self.old.conn }
    {
        if got.is_err() {
            self.failed = self.failed.wrapping_add(1);
        }
        got
    }

    /// Counts a file's row that was found as handed out, or a failed call, and gives the answer on.
    fn looked_up<T>(&mut self, got: Got<Option<T>>) -> Got<Option<T>>
        ensures same { result ≡ got }
        ensures handed { self.new.handed ≡ handed_after got self.old.handed }
        ensures failed { self.new.failed ≡ failed_after got self.old.failed }
        ensures others { (self.new.commits ≡ self.old.commits) × (self.new.upgrade ≡ self.old.upgrade) }
        ensures shut { (self.new.is_suspect ≡ self.old.is_suspect) × (self.new.shut ≡ self.old.shut) }
        ensures conn { self.new.conn ≡ self.old.conn }
    {
        if let Ok(Some(_)) = &got {
            self.handed = self.handed.wrapping_add(1);
        }
        self.counted(got)
    }

    /// Counts each row that was found as handed out, or a failed call, and gives the answer on.
    fn selected<T>(&mut self, got: Got<Vec<T>>) -> Got<Vec<T>>
        ensures same { result ≡ got }
        ensures handed { self.new.handed ≡ selected_after (λ v. length v.items) got self.old.handed }
        ensures failed { self.new.failed ≡ failed_after got self.old.failed }
        ensures others { (self.new.commits ≡ self.old.commits) × (self.new.upgrade ≡ self.old.upgrade) }
        ensures shut { (self.new.is_suspect ≡ self.old.is_suspect) × (self.new.shut ≡ self.old.shut) }
        ensures conn { self.new.conn ≡ self.old.conn }
    {
        if let Ok(rows) = &got {
            self.handed = self.handed.wrapping_add(rows.len() as u64);
        }
        self.counted(got)
    }

    /// Counts a failed call that a request may begin with, and gives its answer on. Where a commit failed before it, a
    /// fault of the disk has shut the connection, and the flag is set: only opening the file again mends that.
    fn counted_first<T>(&mut self, got: Got<T>) -> Got<T>
        ensures same { result ≡ got }
        ensures failed { self.new.failed ≡ failed_after got self.old.failed }
        ensures others { (self.new.handed ≡ self.old.handed) × (self.new.commits ≡ self.old.commits) × (self.new.upgrade ≡ self.old.upgrade) }
        ensures suspect { self.new.is_suspect ≡ suspect_after got self.old.is_suspect }
        ensures shut { self.new.shut ≡ self.old.shut }
        ensures conn { self.new.conn ≡ self.old.conn }
    {
        if got.is_ok() {
            self.is_suspect = false;
        } else if self.is_suspect
            && let Some(shut) = &self.shut
        {
            shut.store(true, Ordering::SeqCst);
        }
        self.counted(got)
    }

    /// Counts a commit, and gives its answer on. Where it failed it counts as a failed call, and the connection is suspected to be
    /// shut.
    fn committed(&mut self, got: Got<()>) -> Got<()>
        ensures same { result ≡ got }
        ensures failed { self.new.failed ≡ failed_after got self.old.failed }
        ensures commits { self.new.commits ≡ next_count self.old.commits }
        ensures others { (self.new.handed ≡ self.old.handed) × (self.new.upgrade ≡ self.old.upgrade) }
        ensures suspect { self.new.is_suspect ≡ is_err got }
        ensures shut { self.new.shut ≡ self.old.shut }
        ensures conn { self.new.conn ≡ self.old.conn }
    {
        self.commits = self.commits.wrapping_add(1);
        self.is_suspect = got.is_err();
        self.counted(got)
    }

    /// Takes the flag that reports a shut connection. It is set where a commit fails and then a call that a request may
    /// begin with fails too: a fault of the disk has shut the connection, or memory was refused to both. The tables and the
    /// counts stay.
    pub fn tell_when_shut(&mut self, shut: Arc<AtomicBool, Global>)
        ensures shut { self.new.shut ≡ Some shut }
        ensures suspect { self.new.is_suspect ≡ self.old.is_suspect }
        ensures conn { self.new.conn ≡ self.old.conn }
        ensures upgrade { self.new.upgrade ≡ self.old.upgrade }
        ensures counts { (self.new.handed ≡ self.old.handed) × (self.new.failed ≡ self.old.failed) × (self.new.commits ≡ self.old.commits) }
    {
        self.shut = Some(shut);
    }

    /// Makes the tables in an empty database, with one party, number 1, an official, on the founding day, all in
    /// one transaction. It refuses as `Store` where a call failed or a transaction is open, and else as `Exists` exactly
    /// where the database has a table, an index or a view; with a refusal the connection comes back, its database as
    /// before. A crash inside leaves what was there, or the founding with its upgrade alone.
    ///
    /// # Examples
    ///
    /// ```
    /// let conn = Connection::open_in_memory(alloc)?;
    /// let Ok(store) = SqlStore::create(alloc, conn, &founder) else {
    ///     return Err(Fail::new("no tables"));
    /// };
    /// ```
    pub fn create(
        alloc: Global,
        conn: Connection<S>,
        founder: &Founder,
    ) -> Result<SqlStore<S>, (Connection<S>, OpenError)>
        ensures founds { IfOk result (λ s. Founds (tables (founding founder.now.name founder.now.digest founder.now.day))
            (state S.Store conn) (state S.Store s.conn) (⟦<SqlStore<S> as Store>⟧.view s)) }
        ensures sound { IsSoundTables (tables (founding founder.now.name founder.now.digest founder.now.day)) }
        ensures suspect { IfOk result (λ s. (s.is_suspect ≡ false) × (s.shut ≡ None)) }
        ensures refuses { IfErr result (λ e. RefusesToFound (tables (founding founder.now.name founder.now.digest founder.now.day))
            (state S.Store conn) (state S.Store e.0) conn.in_transaction e.1) }
        ensures busy { IsTrue conn.in_transaction → IsErrAnd result (λ e. e.1 ≡ open_error.Store) }
    {
        founds_sound_tables(founder);
        let mut conn = conn;
        if !conn.is_autocommit() {
            return Err((conn, OpenError::Store));
        }
        if !is_empty(&conn) {
            return Err((conn, OpenError::Exists));
        }
        match create_in(&mut conn, founder) {
            Ok(()) => Ok(SqlStore {
                alloc,
                conn: Idle::new(conn),
                upgrade: Some(0),
                handed: 0,
                failed: 0,
                commits: 0,
                is_suspect: false,
                shut: None,
            }),
            Err(_) => Err((conn, OpenError::Store)),
        }
    }

    /// Opens the database that holds the office's tables, which it reads and leaves as they are: they are sound tables.
    /// It refuses as `Version` where the desk's row says another version than 2, which is tested first; as `Damaged`
    /// only where the rows are no sound tables; and as `Store` where a call
    /// failed or gave a rowid that is no number, memory was refused, a transaction is open, or the database has another
    /// schema than `create` makes. The order in which SQLite writes the schema is no part of it, so a database is opened
    /// after `VACUUM` and from a dump too. With a refusal the connection comes back, its database as before; it is still
    /// open where the refusal is another than `Store`.
    ///
    /// # Examples
    ///
    /// ```
    /// let Ok(mut store) = SqlStore::open(alloc, conn) else {
    ///     return Err(Fail::new("no tables"));
    /// };
    /// assert!(rt; store.desk()?.parties == 1);
    /// ```
    pub fn open(
        alloc: Global,
        conn: Connection<S>,
    ) -> Result<SqlStore<S>, (Connection<S>, OpenError)>
        ensures opens { IfOk result (λ s. Opens (state S.Store conn) (state S.Store s.conn) (⟦<SqlStore<S> as Store>⟧.view s)) }
        ensures suspect { IfOk result (λ s. (s.is_suspect ≡ false) × (s.shut ≡ None)) }
        ensures refuses { IfErr result (λ e. Refuses Second (state S.Store conn) (state S.Store e.0) (λ why. e.1 ≡ why)) }
        ensures kept { IfErr result (λ e. Survives (state S.Store conn) (state S.Store e.0) (λ _. ⊥)) }
        ensures busy { IsTrue conn.in_transaction → IsErrAnd result (λ e. e.1 ≡ open_error.Store) }
        ensures refusal { IfErr result (λ e. (e.1 ≡ open_error.Damaged) ⊎ ((e.1 ≡ open_error.Version) ⊎ (e.1 ≡ open_error.Store))) }
    {
        let mut conn = conn;
        match check(&mut conn, alloc, Edition::Second) {
            Ok(sound) => Ok(SqlStore {
                alloc,
                conn: Idle::new(conn),
                upgrade: sound.upgrade,
                handed: 0,
                failed: 0,
                commits: 0,
                is_suspect: false,
                shut: None,
            }),
            Err(why) => Err((conn, why)),
        }
    }

    /// Makes of a database of version 1 one of version 2, all in one transaction: the tables of the same history with the
    /// entry of the upgrade, which are sound. It returns the count of files; these keep to the first edition of the
    /// inspections for good. It refuses as `Version` where the desk's row says another version than 1, which is tested
    /// first; as `Damaged` only where the rows are no sound tables; and as `Store` where a call failed, memory was
    /// refused, a transaction is open, or the database has another schema than that version's, whose order neither
    /// `VACUUM` nor a dump changes. With a refusal the database is as before; the connection is still open where the refusal
    /// is another than `Store`. A crash inside leaves what was there, or, where those were sound tables, the tables after
    /// the upgrade whole.
    pub fn upgrade(alloc: Global, conn: &mut Connection<S>) -> Result<u32, OpenError>
        ensures upgrades { IfOk result (Upgrades (state S.Store conn.old) (state S.Store conn.new)) }
        ensures refuses { IfErr result (λ e. Refuses First (state S.Store conn.old) (state S.Store conn.new) (λ why. e ≡ why)) }
        ensures again { HasCleanDisk (state S.Store conn.new) → (t : Tables) → Keeps t (state S.Store conn.old).now
            → (result ≡ Err open_error.Version) ⊎ (result ≡ Err open_error.Store) }
        ensures busy { IsTrue conn.old.in_transaction → result ≡ Err open_error.Store }
        ensures refusal { IfErr result (λ e. (e ≡ open_error.Damaged) ⊎ ((e ≡ open_error.Version) ⊎ (e ≡ open_error.Store))) }
        ensures crash { Survives (state S.Store conn.old) (state S.Store conn.new)
            (λ trees. KeepsSoundUnder First (state S.Store conn.old).now
            × ((t : Tables) → AreCounted t → KeepsUnder First t (state S.Store conn.old).now
            → (db : _) × Keeps (with_upgrade t) db × (trees ≡ db.trees))) }
        ensures transaction { conn.new.in_transaction ≡ conn.old.in_transaction }
    {
        let sound = check(conn, alloc, Edition::First)?;
        let files = sound.desk.files;
        match upgrade_in(conn, files) {
            Ok(()) => Ok(files),
            Err(_) => Err(OpenError::Store),
        }
    }

    /// Gives the connection back with its database as it is. While the connection is open, a crash leaves exactly what it
    /// shows; that holds of any store, so after each of its calls. A call that succeeds leaves the connection open, on a
    /// disk that has given back what was written.
    ///
    /// # Examples
    ///
    /// ```
    /// let conn = store.into_connection();
    /// assert!(rt; conn.is_autocommit());
    /// ```
    pub fn into_connection(self) -> Connection<S>
        ensures conn { result ≡ self.conn }
        ensures idle { IsIdle result }
        ensures lasts { IsTrue (state S.Store self.conn).is_open → Lasts (state S.Store self.conn) }
    {
        let SqlStore {
            alloc: _,
            conn,
            upgrade: _,
            handed: _,
            failed: _,
            commits: _,
            is_suspect: _,
            shut: _,
        } = self;
        let conn = conn.into_connection();
        let _settled = conn.is_autocommit();
        conn
    }
}

impl<S: Alter> Store for SqlStore<S> {
    ghost use Rattle.sqlite.specs.Held.{state};
    ghost use Rattle.permit_sql.specs.Seen.{seen, Outlasts};
    ghost use Rattle.permit_store.specs.Changes.{changed, Fits};
    ghost use Rattle.permit_store.specs.Frames.{IsCommit, IsLookUp, IsRead, OverTables, Reads};

    ghost view = { λ s. seen (state S.Store s.conn) s.upgrade s.handed s.failed s.commits };

    ghost crash = { λ old new t made. Outlasts (state S.Store old.conn) (state S.Store new.conn) t made };

    fn desk(&mut self) -> Got<Desk>
        ensures found { OverTables (⟦<SqlStore<S> as Store>⟧.view self.old) (⟦<SqlStore<S> as Store>⟧.view self.new) (λ t. IfOk result (λ d. d ≡ t.desk)) }
        ensures read { IsRead (⟦<SqlStore<S> as Store>⟧.view self.old) (⟦<SqlStore<S> as Store>⟧.view self.new) result }
        ensures crash { (t : Tables) → ⟦<SqlStore<S> as Store>⟧.crash self.old self.new t (λ _. ⊥) }
        ensures suspect { self.new.is_suspect ≡ suspect_after result self.old.is_suspect }
        ensures shut { self.new.shut ≡ self.old.shut }
    {
        let got = read_desk(&mut self.conn);
        self.counted_first(got)
    }

    fn party_by_token(&mut self, digest: &Digest) -> Got<Option<Party>>
        ensures found { OverTables (⟦<SqlStore<S> as Store>⟧.view self.old) (⟦<SqlStore<S> as Store>⟧.view self.new)
            (λ t. IfOk result (λ p. p ≡ find (λ p. bytes_eq p.digest digest.now) t.parties)) }
        ensures read { IsRead (⟦<SqlStore<S> as Store>⟧.view self.old) (⟦<SqlStore<S> as Store>⟧.view self.new) result }
        ensures crash { (t : Tables) → ⟦<SqlStore<S> as Store>⟧.crash self.old self.new t (λ _. ⊥) }
        ensures suspect { self.new.is_suspect ≡ suspect_after result self.old.is_suspect }
        ensures shut { self.new.shut ≡ self.old.shut }
    {
        let got = find_party(&mut self.conn, digest);
        self.counted_first(got)
    }

    fn party(&mut self, party: PartyId) -> Got<Option<Party>>
        ensures found { OverTables (⟦<SqlStore<S> as Store>⟧.view self.old) (⟦<SqlStore<S> as Store>⟧.view self.new)
            (λ t. IfOk result (λ p. p ≡ find (λ p. p.id == party) t.parties)) }
        ensures read { IsRead (⟦<SqlStore<S> as Store>⟧.view self.old) (⟦<SqlStore<S> as Store>⟧.view self.new) result }
        ensures crash { (t : Tables) → ⟦<SqlStore<S> as Store>⟧.crash self.old self.new t (λ _. ⊥) }
        ensures suspect { self.new.is_suspect ≡ self.old.is_suspect }
        ensures shut { self.new.shut ≡ self.old.shut }
    {
        let got = read_party(&mut self.conn, party);
        self.counted(got)
    }

    fn role(&mut self, party: PartyId) -> Got<Option<Role>>
        ensures found { OverTables (⟦<SqlStore<S> as Store>⟧.view self.old) (⟦<SqlStore<S> as Store>⟧.view self.new)
            (λ t. IfOk result (λ r. r ≡ option_map (λ p. p.role) (find (λ p. p.id == party) t.parties))) }
        ensures read { IsRead (⟦<SqlStore<S> as Store>⟧.view self.old) (⟦<SqlStore<S> as Store>⟧.view self.new) result }
        ensures crash { (t : Tables) → ⟦<SqlStore<S> as Store>⟧.crash self.old self.new t (λ _. ⊥) }
        ensures suspect { self.new.is_suspect ≡ self.old.is_suspect }
        ensures shut { self.new.shut ≡ self.old.shut }
    {
        let got = read_role(&mut self.conn, party);
        self.counted(got)
    }

    fn parcel(&mut self, parcel: ParcelId) -> Got<Option<Parcel>>
        ensures found { OverTables (⟦<SqlStore<S> as Store>⟧.view self.old) (⟦<SqlStore<S> as Store>⟧.view self.new)
            (λ t. IfOk result (λ p. p ≡ find (λ p. p.id == parcel) t.parcels)) }
        ensures read { IsRead (⟦<SqlStore<S> as Store>⟧.view self.old) (⟦<SqlStore<S> as Store>⟧.view self.new) result }
        ensures crash { (t : Tables) → ⟦<SqlStore<S> as Store>⟧.crash self.old self.new t (λ _. ⊥) }
        ensures suspect { self.new.is_suspect ≡ self.old.is_suspect }
        ensures shut { self.new.shut ≡ self.old.shut }
    {
        let got = read_parcel(&mut self.conn, parcel);
        self.counted(got)
    }

    fn owner(&mut self, parcel: ParcelId) -> Got<Option<PartyId>>
        ensures found { OverTables (⟦<SqlStore<S> as Store>⟧.view self.old) (⟦<SqlStore<S> as Store>⟧.view self.new)
            (λ t. IfOk result (λ o. o ≡ option_map (λ p. p.owner) (find (λ p. p.id == parcel) t.parcels))) }
        ensures read { IsRead (⟦<SqlStore<S> as Store>⟧.view self.old) (⟦<SqlStore<S> as Store>⟧.view self.new) result }
        ensures crash { (t : Tables) → ⟦<SqlStore<S> as Store>⟧.crash self.old self.new t (λ _. ⊥) }
        ensures suspect { self.new.is_suspect ≡ self.old.is_suspect }
        ensures shut { self.new.shut ≡ self.old.shut }
    {
        let got = read_owner(&mut self.conn, parcel);
        self.counted(got)
    }

    fn parcel_by_lot(&mut self, lot: &Lot) -> Got<Option<Parcel>>
        ensures found { OverTables (⟦<SqlStore<S> as Store>⟧.view self.old) (⟦<SqlStore<S> as Store>⟧.view self.new)
            (λ t. IfOk result (λ p. p ≡ find (λ p. bytes_eq p.lot lot.now) t.parcels)) }
        ensures read { IsRead (⟦<SqlStore<S> as Store>⟧.view self.old) (⟦<SqlStore<S> as Store>⟧.view self.new) result }
        ensures crash { (t : Tables) → ⟦<SqlStore<S> as Store>⟧.crash self.old self.new t (λ _. ⊥) }
        ensures suspect { self.new.is_suspect ≡ self.old.is_suspect }
        ensures shut { self.new.shut ≡ self.old.shut }
    {
        let got = find_parcel(&mut self.conn, lot);
        self.counted(got)
    }

    fn interest(&mut self, parcel: ParcelId, party: PartyId) -> Got<bool>
        ensures found { OverTables (⟦<SqlStore<S> as Store>⟧.view self.old) (⟦<SqlStore<S> as Store>⟧.view self.new)
            (λ t. IfOk result (λ b. b ≡ list_any (λ i. (i.parcel == parcel) && (i.party == party)) t.interests)) }
        ensures read { IsRead (⟦<SqlStore<S> as Store>⟧.view self.old) (⟦<SqlStore<S> as Store>⟧.view self.new) result }
        ensures crash { (t : Tables) → ⟦<SqlStore<S> as Store>⟧.crash self.old self.new t (λ _. ⊥) }
        ensures suspect { self.new.is_suspect ≡ self.old.is_suspect }
        ensures shut { self.new.shut ≡ self.old.shut }
    {
        let got = has_interest(&mut self.conn, parcel, party);
        self.counted(got)
    }

    fn interests(&mut self) -> Got<Vec<Interest>>
        ensures found { OverTables (⟦<SqlStore<S> as Store>⟧.view self.old) (⟦<SqlStore<S> as Store>⟧.view self.new) (λ t. IfOk result (λ v. DeclareSame v.items t.interests)) }
        ensures read { IsRead (⟦<SqlStore<S> as Store>⟧.view self.old) (⟦<SqlStore<S> as Store>⟧.view self.new) result }
        ensures crash { (t : Tables) → ⟦<SqlStore<S> as Store>⟧.crash self.old self.new t (λ _. ⊥) }
        ensures suspect { self.new.is_suspect ≡ self.old.is_suspect }
        ensures shut { self.new.shut ≡ self.old.shut }
    {
        let got = read_interests(&mut self.conn, self.alloc);
        self.counted(got)
    }

    fn file(&mut self, file: FileId) -> Got<Option<FileRow>>
        ensures found { OverTables (⟦<SqlStore<S> as Store>⟧.view self.old) (⟦<SqlStore<S> as Store>⟧.view self.new)
            (λ t. IfOk result (λ f. f ≡ find (λ f. f.id == file) t.files)) }
        ensures read { IsLookUp (⟦<SqlStore<S> as Store>⟧.view self.old) (⟦<SqlStore<S> as Store>⟧.view self.new) result }
        ensures crash { (t : Tables) → ⟦<SqlStore<S> as Store>⟧.crash self.old self.new t (λ _. ⊥) }
        ensures suspect { self.new.is_suspect ≡ self.old.is_suspect }
        ensures shut { self.new.shut ≡ self.old.shut }
    {
        let got = read_file(&mut self.conn, file, self.upgrade);
        self.looked_up(got)
    }

    fn state(&mut self, file: FileId) -> Got<Option<FileState>>
        ensures found { OverTables (⟦<SqlStore<S> as Store>⟧.view self.old) (⟦<SqlStore<S> as Store>⟧.view self.new)
            (λ t. IfOk result (λ s. s ≡ option_map (λ f. f.state) (find (λ f. f.id == file) t.files))) }
        ensures read { IsLookUp (⟦<SqlStore<S> as Store>⟧.view self.old) (⟦<SqlStore<S> as Store>⟧.view self.new) result }
        ensures crash { (t : Tables) → ⟦<SqlStore<S> as Store>⟧.crash self.old self.new t (λ _. ⊥) }
        ensures suspect { self.new.is_suspect ≡ self.old.is_suspect }
        ensures shut { self.new.shut ≡ self.old.shut }
    {
        let got = read_state(&mut self.conn, file, self.upgrade);
        self.looked_up(got)
    }

    fn papers(&mut self, file: FileId) -> Got<Vec<Paper>>
        ensures found { OverTables (⟦<SqlStore<S> as Store>⟧.view self.old) (⟦<SqlStore<S> as Store>⟧.view self.new)
            (λ t. IfOk result (λ v. v.items ≡ filter (λ p. p.file == file) t.papers)) }
        ensures read { IsRead (⟦<SqlStore<S> as Store>⟧.view self.old) (⟦<SqlStore<S> as Store>⟧.view self.new) result }
        ensures crash { (t : Tables) → ⟦<SqlStore<S> as Store>⟧.crash self.old self.new t (λ _. ⊥) }
        ensures suspect { self.new.is_suspect ≡ self.old.is_suspect }
        ensures shut { self.new.shut ≡ self.old.shut }
    {
        let got = read_papers(&mut self.conn, file, self.alloc);
        self.counted(got)
    }

    fn has_open_notice(&mut self, file: FileId, number: PaperNumber) -> Got<bool>
        ensures found { OverTables (⟦<SqlStore<S> as Store>⟧.view self.old) (⟦<SqlStore<S> as Store>⟧.view self.new)
            (λ t. IfOk result (λ b. b ≡ list_any (λ p. (p.file == file) && (p.is_open && (p.number == number))) t.papers)) }
        ensures read { IsRead (⟦<SqlStore<S> as Store>⟧.view self.old) (⟦<SqlStore<S> as Store>⟧.view self.new) result }
        ensures crash { (t : Tables) → ⟦<SqlStore<S> as Store>⟧.crash self.old self.new t (λ _. ⊥) }
        ensures suspect { self.new.is_suspect ≡ self.old.is_suspect }
        ensures shut { self.new.shut ≡ self.old.shut }
    {
        let got = has_open_notice(&mut self.conn, file, number);
        self.counted(got)
    }

    fn select(&mut self, route: &Route, caller: PartyId, day: Day) -> Got<Vec<Found>>
        ensures found { OverTables (⟦<SqlStore<S> as Store>⟧.view self.old) (⟦<SqlStore<S> as Store>⟧.view self.new)
            (λ t. IfOk result (λ v. AreFound t v.items (found_by route.now caller day t))) }
        ensures read { Reads ⊤ (selected_after (λ v. length v.items) result (⟦<SqlStore<S> as Store>⟧.view self.old).handed) (⟦<SqlStore<S> as Store>⟧.view self.old) (⟦<SqlStore<S> as Store>⟧.view self.new) result }
        ensures crash { (t : Tables) → ⟦<SqlStore<S> as Store>⟧.crash self.old self.new t (λ _. ⊥) }
        ensures suspect { self.new.is_suspect ≡ self.old.is_suspect }
        ensures shut { self.new.shut ≡ self.old.shut }
    {
        let got = select_found(&mut self.conn, route, caller, day, self.upgrade, self.alloc);
        self.selected(got)
    }

    fn each<T: Taker<Found>>(
        &mut self,
        route: &Route,
        caller: PartyId,
        day: Day,
        taker: &mut T,
    ) -> Got<bool>
        ensures handed { (given : List TheFound) × Hands T.took given (⟦<SqlStore<S> as Store>⟧.view self.old) (⟦<SqlStore<S> as Store>⟧.view self.new) taker.old taker.new result
            × OverTables (⟦<SqlStore<S> as Store>⟧.view self.old) (⟦<SqlStore<S> as Store>⟧.view self.new) (λ t. AreHanded t result given (found_by route.now caller day t)) }
        ensures crash { (t : Tables) → ⟦<SqlStore<S> as Store>⟧.crash self.old self.new t (λ _. ⊥) }
        ensures suspect { self.new.is_suspect ≡ self.old.is_suspect }
        ensures shut { self.new.shut ≡ self.old.shut }
    {
        let all = each_found(
            &mut self.conn,
            route,
            caller,
            day,
            self.upgrade,
            &mut self.handed,
            taker,
        );
        self.counted(all)
    }

    fn each_of_any<T: Taker<Found>>(
        &mut self,
        routes: &[Route],
        caller: PartyId,
        day: Day,
        taker: &mut T,
    ) -> Got<bool>
        ensures handed { (given : List TheFound) × Hands T.took given (⟦<SqlStore<S> as Store>⟧.view self.old) (⟦<SqlStore<S> as Store>⟧.view self.new) taker.old taker.new result
            × OverTables (⟦<SqlStore<S> as Store>⟧.view self.old) (⟦<SqlStore<S> as Store>⟧.view self.new) (λ t. AreAmong result given (found_by_any routes.now caller day t)) }
        ensures crash { (t : Tables) → ⟦<SqlStore<S> as Store>⟧.crash self.old self.new t (λ _. ⊥) }
        ensures suspect { self.new.is_suspect ≡ self.old.is_suspect }
        ensures shut { self.new.shut ≡ self.old.shut }
    {
        let took_all = each_of_any_found(
            &mut self.conn,
            routes,
            caller,
            day,
            self.upgrade,
            &mut self.handed,
            taker,
        );
        self.counted(took_all)
    }

    fn commit(&mut self, change: &Change<'_>, day: Day) -> Got<()>
        ensures made { (t : Tables) → (⟦<SqlStore<S> as Store>⟧.view self.old).holds t → Fits t change.now day
            → OnOk result ((⟦<SqlStore<S> as Store>⟧.view self.new).holds (changed t change.now day)) }
        ensures commit { IsCommit (⟦<SqlStore<S> as Store>⟧.view self.old) (⟦<SqlStore<S> as Store>⟧.view self.new) result }
        ensures crash { (t : Tables) → Fits t change.now day
            → ⟦<SqlStore<S> as Store>⟧.crash self.old self.new t (λ left. left (changed t change.now day)) }
        ensures suspect { self.new.is_suspect ≡ is_err result }
        ensures shut { self.new.shut ≡ self.old.shut }
    {
        let got = commit_in(&mut self.conn, self.alloc, change, day);
        self.committed(got)
    }
}

impl<S: Alter> Renewing for SqlStore<S> {
    ghost use Rattle.sqlite.specs.Held.{state};
    ghost use Rattle.permit_model.specs.Renewal.{with_renewed};
    ghost use Rattle.permit_store.specs.Frames.{OverTables};
    ghost use Rattle.permit_store.specs.Renewing.{Renews};

    fn renew(&mut self, party: PartyId, digest: &Digest) -> Got<Result<(), Refusal>>
        ensures renewed { OverTables (⟦<SqlStore<S> as Store>⟧.view self.old) (⟦<SqlStore<S> as Store>⟧.view self.new)
            (λ t. Renews (⟦<SqlStore<S> as Store>⟧.view self.new).holds party digest.now t result) }
        ensures doubt { (⟦<SqlStore<S> as Store>⟧.view self.old).doubt ≤ (⟦<SqlStore<S> as Store>⟧.view self.new).doubt }
        ensures failed { (⟦<SqlStore<S> as Store>⟧.view self.new).failed ≡ failed_after result (⟦<SqlStore<S> as Store>⟧.view self.old).failed }
        ensures handed { (⟦<SqlStore<S> as Store>⟧.view self.new).handed ≡ (⟦<SqlStore<S> as Store>⟧.view self.old).handed }
        ensures commits { (⟦<SqlStore<S> as Store>⟧.view self.new).commits ≡ (⟦<SqlStore<S> as Store>⟧.view self.old).commits }
        ensures crash { (t : Tables) → ⟦<SqlStore<S> as Store>⟧.crash self.old self.new t (λ left. left (with_renewed party digest.now t)) }
        ensures suspect { (self.new.is_suspect ≡ self.old.is_suspect) × (self.new.shut ≡ self.old.shut) }
    {
        let got = renew_over(&mut self.conn, party, digest);
        self.counted(got)
    }
}

impl<S: Alter> Batching for SqlStore<S> {
    ghost use Rattle.permit_batch.specs.Leading.{LeadThrough};
    ghost use Rattle.permit_store.specs.Frames.{IsCommit};
    ghost use Rattle.permit_sql_statements.specs.Changing.{Lead};
    ghost use Rattle.permit_sql_statements.specs.Written.{written_in};

    type Step = Step;

    ghost leads = { λ step t u. Lead S.Store (written_in step) t u };

    fn change_step(alloc: Global, desk: &Desk, change: &Change<'_>, day: Day) -> Got<Step> {
        change_step(alloc, desk, change, day)
    }

    fn renewal_step(alloc: Global, party: PartyId, digest: &Digest) -> Got<Step> {
        renewal_step(alloc, party, digest)
    }

    fn commit_all(&mut self, steps: &[Step]) -> Got<()>
        ensures made { (t u : Tables) → LeadThrough ⟦<SqlStore<S> as Batching>⟧.leads steps.now t u → (⟦<SqlStore<S> as Store>⟧.view self.old).holds t
            → OnOk result ((⟦<SqlStore<S> as Store>⟧.view self.new).holds u) }
        ensures commit { IsCommit (⟦<SqlStore<S> as Store>⟧.view self.old) (⟦<SqlStore<S> as Store>⟧.view self.new) result }
        ensures crash { (t u : Tables) → LeadThrough ⟦<SqlStore<S> as Batching>⟧.leads steps.now t u
            → ⟦<SqlStore<S> as Store>⟧.crash self.old self.new t (λ left. left u) }
        ensures suspect { self.new.is_suspect ≡ is_err result }
        ensures shut { self.new.shut ≡ self.old.shut }
    {
        let got = run_steps(&mut self.conn, self.alloc, steps);
        self.committed(got)
    }
}
