//! The examples of the doc comments of the stores over a database and over memory, of the files of a database, and of changes
//! that are made together, line by line as they are written there.

ghost use Rattle.sqlite_disk.specs.Memory.{memory_is_usable};
ghost use Rattle.std.specs.Prelude.{IfOk, IsTrue};

use crate::database::founded;
use permit_base::values::{Day, Digest, PartyId, Text};
use permit_base::words::{Edition, Role};
use permit_batch::batching::Batching;
use permit_batch::draft::Draft;
use permit_mirror::indexed::Indexed;
use permit_mirror::mirrored::Mirrored;
use permit_office_file::copies::{copied, in_memory, on_disk};
use permit_office_file::office_file::OfficeFile;
use permit_samples::held::Held;
use permit_samples::makers::{day, digest_of, party, text};
use permit_samples::offices::founder;
use permit_sql::store::SqlStore;
use permit_sql_rows::decode::role_in;
use permit_sql_rows::fields::whole_number;
use permit_sql_rows::schema::{is_office, version_of};
use permit_sql_rows::values::pair_values;
use permit_sql_statements::commit::commit_in;
use permit_sql_statements::create::create_in;
use permit_sql_statements::idle::Idle;
use permit_sql_statements::read::read_desk;
use permit_store::founder::Founder;
use permit_store::plain::PlainStore;
use permit_store::renewing::Renewing;
use permit_store::rows::Change;
use permit_store::store::Store;
use sqlite::{Connection, MemStore};
use sqlite_disk::{Disk, Files, Memory};
use std::alloc::Global;
use std::marker::Brand;
use std::process::Abort;
use std::test::Fail;

fn founds(alloc: Global, founder: Founder) -> Result<SqlStore<MemStore>, Fail> {
    let conn = Connection::open_in_memory(alloc)?;
    let Ok(store) = SqlStore::create(alloc, conn, &founder) else {
        return Err(Fail::new("no tables"));
    };
    Ok(store)
}

fn connects(rt: &impl Abort, store: SqlStore<MemStore>) -> Connection<MemStore> {
    let conn = store.into_connection();
    assert!(rt; conn.is_autocommit());
    conn
}

fn opens(
    rt: &impl Abort,
    alloc: Global,
    conn: Connection<MemStore>,
) -> Result<SqlStore<MemStore>, Fail> {
    let Ok(mut store) = SqlStore::open(alloc, conn) else {
        return Err(Fail::new("no tables"));
    };
    assert!(rt; store.desk()?.parties == 1);
    Ok(store)
}

fn reads(
    rt: &impl Abort,
    store: &mut Mirrored<SqlStore<MemStore>, Indexed<PlainStore>>,
) -> Result<(), Fail> {
    let role = store.role(party(1)?)?;
    assert!(rt; matches!(role, Some(Role::Official)));
    Ok(())
}

fn loads(
    rt: &impl Abort,
    alloc: Global,
    kept: SqlStore<MemStore>,
) -> Result<Mirrored<SqlStore<MemStore>, Indexed<PlainStore>>, Fail> {
    let Ok(mut store) = Mirrored::load(alloc, kept) else {
        return Err(Fail::new("no tables"));
    };
    assert!(rt; store.desk()?.parties == 1);
    Ok(store)
}

fn gives_back(
    rt: &impl Abort,
    store: Mirrored<SqlStore<MemStore>, Indexed<PlainStore>>,
) -> Result<(), Fail> {
    let mut kept = store.into_kept();
    assert!(rt; kept.desk()?.parties == 1);
    Ok(())
}

fn drafts(
    rt: &impl Abort,
    alloc: Global,
    store: &mut SqlStore<MemStore>,
) -> Result<Draft<SqlStore<MemStore>, PlainStore, Brand>, Fail> {
    let memory = PlainStore::load(alloc, store)?;
    let draft = Draft::<SqlStore<MemStore>, PlainStore, Brand>::new(alloc, memory);
    assert!(rt; draft.waiting() == 0);
    Ok(draft)
}

fn commits(
    rt: &impl Abort,
    draft: &mut Draft<SqlStore<MemStore>, PlainStore, Brand>,
    store: &mut SqlStore<MemStore>,
    party: PartyId,
    digest: Digest,
) -> Result<(), Fail> {
    let renewed = draft.renew(party, &digest)?;
    assert!(rt; renewed.is_ok() && draft.waiting() == 1);
    assert!(rt; store.party_by_token(&digest)?.is_none());
    draft.commit_to(store)?;
    assert!(rt; store.party_by_token(&digest)?.is_some());
    Ok(())
}

fn commits_all(
    rt: &impl Abort,
    alloc: Global,
    store: &mut SqlStore<MemStore>,
    party: PartyId,
    digest: Digest,
) -> Result<(), Fail> {
    let mut steps = Vec::new(alloc);
    steps.push(SqlStore::<MemStore>::renewal_step(alloc, party, &digest)?)?;
    store.commit_all(steps.as_slice())?;
    assert!(rt; store.party_by_token(&digest)?.is_some());
    Ok(())
}

#[test]
fn examples_of_drafts_hold(rt: HostRuntime) -> Result<(), Fail> {
    let alloc = rt.alloc();
    let (first, second) = (
        digest_of(alloc, "first2first2first2")?,
        digest_of(alloc, "again2again2again2")?,
    );
    let mut store = Held::new(founded(alloc)?);
    let mut draft = Held::new(drafts(&rt, alloc, &mut store.value)?);
    commits(&rt, &mut draft.value, &mut store.value, party(1)?, first)?;
    commits_all(&rt, alloc, &mut store.value, party(1)?, second)
}

#[test]
fn examples_hold(rt: HostRuntime) -> Result<(), Fail> {
    let alloc = rt.alloc();
    let store = founds(alloc, founder(alloc)?)?;
    let store = opens(&rt, alloc, connects(&rt, store))?;
    let mut store = Held::new(loads(&rt, alloc, store)?);
    reads(&rt, &mut store.value)?;
    gives_back(&rt, store.into_inner())
}

fn versions(rt: &impl Abort) {
    assert!(rt; version_of(Edition::First) == 1 && version_of(Edition::Second) == 2);
}

fn knows(rt: &impl Abort, conn: &Connection<MemStore>) {
    assert!(rt; is_office(Edition::Second, conn.schema()));
    assert!(rt; !is_office(Edition::First, conn.schema()));
}

fn decodes(rt: &impl Abort, conn: &mut Connection<MemStore>) -> Result<(), Fail> {
    let row = conn.query_row("SELECT id, name, role, digest FROM party", &[])?;
    assert!(rt; matches!(role_in(&row), Some(Role::Official)));
    Ok(())
}

fn binds(rt: &impl Abort, conn: &mut Connection<MemStore>) -> Result<(), Fail> {
    let row = conn.query_row("SELECT ?1, ?2", &pair_values(2, 7))?;
    assert!(rt; whole_number(&row, 0) == Some(2) && whole_number(&row, 1) == Some(7));
    Ok(())
}

fn creates(rt: &impl Abort, alloc: Global, founder: Founder) -> Result<(), Fail> {
    let mut conn = Connection::open_in_memory(alloc)?;
    create_in(&mut conn, &founder)?;
    assert!(rt; is_office(Edition::Second, conn.schema()));
    Ok(())
}

fn idles(rt: &impl Abort, alloc: Global) -> Result<(), Fail> {
    let conn = Connection::open_in_memory(alloc)?;
    let idle = Idle::new(conn);
    assert!(rt; idle.into_connection().is_autocommit());
    Ok(())
}

fn reads_desk(rt: &impl Abort, conn: &mut Idle<MemStore>) -> Result<(), Fail> {
    let desk = read_desk(conn)?;
    assert!(rt; desk.parties == 1 && desk.files == 0);
    Ok(())
}

fn commits_in(
    rt: &impl Abort,
    alloc: Global,
    conn: &mut Idle<MemStore>,
    name: Text,
    digest: Digest,
    day: Day,
) -> Result<(), Fail> {
    let change = Change::NewParty {
        name: &name,
        role: Role::Clerk,
        digest,
    };
    commit_in(conn, alloc, &change, day)?;
    assert!(rt; read_desk(conn)?.parties == 2);
    Ok(())
}

/// A connection to a database that was just founded.
fn founded_idle(alloc: Global) -> Result<Idle<MemStore>, Fail> {
    let founder = founder(alloc)?;
    let mut conn = Connection::open_in_memory(alloc)?;
    create_in(&mut conn, &founder)?;
    Ok(Idle::new(conn))
}

#[test]
fn examples_of_statements_hold(rt: HostRuntime) -> Result<(), Fail> {
    let alloc = rt.alloc();
    creates(&rt, alloc, founder(alloc)?)?;
    idles(&rt, alloc)?;
    let (name, digest) = (
        text(alloc, "Ann")?,
        digest_of(alloc, "second2second2second")?,
    );
    let mut conn = Held::new(founded_idle(alloc)?);
    reads_desk(&rt, &mut conn.value)?;
    commits_in(&rt, alloc, &mut conn.value, name, digest, day(19701)?)
}

#[test]
fn examples_of_rows_hold(rt: HostRuntime) -> Result<(), Fail> {
    versions(&rt);
    let mut conn = Held::new(founded(rt.alloc())?.into_connection());
    knows(&rt, &conn.value);
    decodes(&rt, &mut conn.value)?;
    binds(&rt, &mut conn.value)
}

fn makes_memory(rt: &impl Abort, alloc: Global) -> Result<(), Fail> {
    let mut file = OfficeFile::<Memory>::InMemory(Memory::new(alloc));
    file.write_at(1, b"ab")?;
    file.sync()?;
    let mut read = [0; 3];
    file.read_at(0, &mut read)?;
    assert!(rt; read == *b"\0ab");
    Ok(())
}

fn copies_disk(rt: &impl Abort, alloc: Global) -> Result<(), Fail> {
    let mut disk = Memory::new(alloc);
    disk.write_at(0, b"first")?;
    let copy = copied(alloc, &mut disk)?;
    assert!(rt; copy.bytes() == disk.bytes());
    Ok(())
}

/// A log without bytes, and the file of a database.
fn files_of(alloc: Global, bytes: &[u8]) -> Result<Files<Memory>, Fail>
    ensures log { IfOk result (λ files. IsTrue (memory_is_usable files.log)) }
    ensures db { IfOk result (λ files. IsTrue (memory_is_usable files.db)) }
{
    let (log, mut db) = (Memory::new(alloc), Memory::new(alloc));
    db.write_at(0, bytes)?;
    Ok(Files { log, db })
}

fn writes_disk(rt: &impl Abort, alloc: Global) -> Result<(), Fail> {
    let files = files_of(alloc, b"other")?;
    let mut files = on_disk(files);
    files.db.write_at(0, b"first")?;
    assert!(rt; matches!(&files.db, OfficeFile::OnDisk(disk) if disk.bytes() == b"first".as_slice()));
    Ok(())
}

fn writes_copy(rt: &impl Abort, alloc: Global) -> Result<(), Fail> {
    let files = files_of(alloc, b"first")?;
    let (files, copies) = in_memory(alloc, files);
    let mut copies = copies?;
    copies.db.write_at(0, b"other")?;
    copies.db.sync()?;
    let mut read = [0; 5];
    copies.db.read_at(0, &mut read)?;
    assert!(rt; read == *b"other" && files.db.bytes() == b"first".as_slice());
    Ok(())
}

#[test]
fn files_on_disk_and_their_copies_do(rt: HostRuntime) -> Result<(), Fail> {
    let alloc = rt.alloc();
    makes_memory(&rt, alloc)?;
    copies_disk(&rt, alloc)?;
    writes_disk(&rt, alloc)?;
    writes_copy(&rt, alloc)
}
