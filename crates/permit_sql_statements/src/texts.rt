//! The texts of the statements. A specification that speaks of one cites it here.

// ---- the tables and their indexes

/// The table of the desk, which keeps one row.
pub const CREATE_DESK: &str =
    "CREATE TABLE desk (id INTEGER PRIMARY KEY, version INTEGER NOT NULL, last INTEGER NOT NULL, parties INTEGER NOT NULL, parcels INTEGER NOT NULL, files INTEGER NOT NULL) STRICT";

/// The table of the parties.
pub const CREATE_PARTY: &str =
    "CREATE TABLE party (id INTEGER PRIMARY KEY, name TEXT NOT NULL, role INTEGER NOT NULL, digest TEXT NOT NULL UNIQUE) STRICT";

/// The table of the parcels.
pub const CREATE_PARCEL: &str =
    "CREATE TABLE parcel (id INTEGER PRIMARY KEY, lot TEXT NOT NULL UNIQUE, address TEXT NOT NULL, owner INTEGER NOT NULL REFERENCES party) STRICT";

/// The table of the declared interests.
pub const CREATE_INTEREST: &str =
    "CREATE TABLE interest (parcel INTEGER NOT NULL REFERENCES parcel, party INTEGER NOT NULL REFERENCES party, PRIMARY KEY (parcel, party)) STRICT";

/// The table of the files.
pub const CREATE_FILE: &str =
    "CREATE TABLE file (id INTEGER PRIMARY KEY, parcel INTEGER NOT NULL REFERENCES parcel, applicant INTEGER NOT NULL REFERENCES party, contractor INTEGER NOT NULL, reviewer INTEGER NOT NULL, inspector INTEGER NOT NULL, kind INTEGER NOT NULL, valuation INTEGER NOT NULL, description TEXT NOT NULL, filed INTEGER NOT NULL, stage INTEGER NOT NULL, deadline INTEGER NOT NULL, done INTEGER NOT NULL, request INTEGER NOT NULL, requested INTEGER NOT NULL, ask INTEGER NOT NULL, stopped INTEGER NOT NULL, notices INTEGER NOT NULL, papers INTEGER NOT NULL, temporary INTEGER NOT NULL) STRICT";

/// The table of the files' papers.
pub const CREATE_PAPER: &str =
    "CREATE TABLE paper (file INTEGER NOT NULL REFERENCES file, number INTEGER NOT NULL, day INTEGER NOT NULL, author INTEGER NOT NULL, sort INTEGER NOT NULL, days INTEGER NOT NULL, text TEXT NOT NULL, terms TEXT NOT NULL, open INTEGER NOT NULL, PRIMARY KEY (file, number)) STRICT";

/// The files by stage, stop work order and deadline.
pub const INDEX_CELL: &str = "CREATE INDEX file_cell ON file (stage, stopped, deadline)";

/// The files by applicant.
pub const INDEX_APPLICANT: &str = "CREATE INDEX file_applicant ON file (applicant)";

/// The files by contractor.
pub const INDEX_CONTRACTOR: &str = "CREATE INDEX file_contractor ON file (contractor)";

/// The files by reviewer.
pub const INDEX_REVIEWER: &str = "CREATE INDEX file_reviewer ON file (reviewer)";

/// The files by inspector.
pub const INDEX_INSPECTOR: &str = "CREATE INDEX file_inspector ON file (inspector)";

/// The files by parcel.
pub const INDEX_PARCEL: &str = "CREATE INDEX file_parcel ON file (parcel)";

/// The parcels by owner.
pub const INDEX_OWNER: &str = "CREATE INDEX parcel_owner ON parcel (owner)";

/// The interests by party.
pub const INDEX_INTERESTED: &str = "CREATE INDEX interest_party ON interest (party)";

/// The table of the upgrade, which keeps one row. It is made after all indexes.
pub const CREATE_UPGRADE: &str =
    "CREATE TABLE upgrade (id INTEGER PRIMARY KEY, files INTEGER NOT NULL) STRICT";

/// The desk's row at the founding, on the day.
pub const FOUND_DESK: &str =
    "INSERT INTO desk (id, version, last, parties, parcels, files) VALUES (1, 2, ?1, 1, 0, 0)";

// ---- the reads

/// The desk's row.
pub const READ_DESK: &str = "SELECT id, version, last, parties, parcels, files FROM desk";

/// The upgrade's row.
pub const READ_UPGRADE: &str = "SELECT id, files FROM upgrade";

/// The party with the number.
pub const READ_PARTY: &str = "SELECT id, name, role, digest FROM party WHERE id = ?1";

/// The party that keeps the digest.
pub const FIND_PARTY: &str = "SELECT id, name, role, digest FROM party WHERE digest = ?1";

/// The parcel with the number.
pub const READ_PARCEL: &str = "SELECT id, lot, address, owner FROM parcel WHERE id = ?1";

/// The parcel of the lot.
pub const FIND_PARCEL: &str = "SELECT id, lot, address, owner FROM parcel WHERE lot = ?1";

/// A row for each interest of the party in the parcel.
pub const FIND_INTEREST: &str = "SELECT 1 FROM interest WHERE parcel = ?1 AND party = ?2";

/// Every interest.
pub const READ_INTERESTS: &str = "SELECT parcel, party FROM interest";

/// The file with the number.
pub const READ_FILE: &str =
    "SELECT id, parcel, applicant, contractor, reviewer, inspector, kind, valuation, description, filed, stage, deadline, done, request, requested, ask, stopped, notices, papers, temporary FROM file WHERE id = ?1";

/// Every file, in rising number, with the owner of its parcel and whether the party has declared an interest in it.
pub const READ_FOUND: &str =
    "SELECT file.id, file.parcel, applicant, contractor, reviewer, inspector, kind, valuation, description, filed, stage, deadline, done, request, requested, ask, stopped, notices, papers, temporary, parcel.owner, EXISTS (SELECT 1 FROM interest WHERE interest.parcel = file.parcel AND interest.party = ?1) FROM file LEFT JOIN parcel ON parcel.id = file.parcel ORDER BY file.id";

/// The papers of the file, in rising number.
pub const READ_PAPERS: &str =
    "SELECT file, number, day, author, sort, days, text, terms, open FROM paper WHERE file = ?1 ORDER BY number";

/// A row for each paper of the number that is an open notice of the file.
pub const FIND_NOTICE: &str = "SELECT 1 FROM paper WHERE file = ?1 AND open = 1 AND number = ?2";

// ---- the writes

/// Sets the desk's row.
pub const WRITE_DESK: &str =
    "UPDATE desk SET last = ?1, parties = ?2, parcels = ?3, files = ?4 WHERE id = 1";

/// Sets the desk's version.
pub const SET_VERSION: &str = "UPDATE desk SET version = 2 WHERE id = 1";

/// Adds the upgrade's row, with the count of files.
pub const ADD_UPGRADE: &str = "INSERT INTO upgrade (id, files) VALUES (1, ?1)";

/// Adds a party.
pub const ADD_PARTY: &str = "INSERT INTO party (id, name, role, digest) VALUES (?1, ?2, ?3, ?4)";

/// Adds a parcel.
pub const ADD_PARCEL: &str = "INSERT INTO parcel (id, lot, address, owner) VALUES (?1, ?2, ?3, ?4)";

/// Adds an interest.
pub const ADD_INTEREST: &str = "INSERT INTO interest (parcel, party) VALUES (?1, ?2)";

/// Adds a file.
pub const ADD_FILE: &str =
    "INSERT INTO file (id, parcel, applicant, contractor, reviewer, inspector, kind, valuation, description, filed, stage, deadline, done, request, requested, ask, stopped, notices, papers, temporary) VALUES (?1, ?2, ?3, ?4, ?5, ?6, ?7, ?8, ?9, ?10, ?11, ?12, ?13, ?14, ?15, ?16, ?17, ?18, ?19, ?20)";

/// Adds a paper.
pub const ADD_PAPER: &str =
    "INSERT INTO paper (file, number, day, author, sort, days, text, terms, open) VALUES (?1, ?2, ?3, ?4, ?5, ?6, ?7, ?8, ?9)";

/// Sets a party's digest.
pub const SET_DIGEST: &str = "UPDATE party SET digest = ?2 WHERE id = ?1";

/// Sets a parcel's owner.
pub const SET_OWNER: &str = "UPDATE parcel SET owner = ?2 WHERE id = ?1";

/// Sets what may change in a file's row.
pub const WRITE_FILE: &str =
    "UPDATE file SET contractor = ?2, reviewer = ?3, inspector = ?4, kind = ?5, filed = ?6, stage = ?7, deadline = ?8, done = ?9, request = ?10, requested = ?11, ask = ?12, stopped = ?13, notices = ?14, papers = ?15, temporary = ?16 WHERE id = ?1";

/// Closes a notice.
pub const CLOSE_NOTICE: &str = "UPDATE paper SET open = 0 WHERE file = ?1 AND number = ?2";
