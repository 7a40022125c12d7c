//! The office's database: its schema, of version 1, and its rows as typed values.
//!
//! Six STRICT tables hold the department's record: `desk` (one row: version, last day and counts), `party`,
//! `parcel`, `interest`, `file` and `paper`, with their keys and references, and eight indexes beside them. Words
//! are kept by their codes, which count from 0; none is 0 for a party and for the days of an ask, and -1 elsewhere.
//!
//! `specs/Kept.antt` says when a database keeps the tables of the model: it has the office's schema, and the tree of
//! each table has a row for each row of the model's table, in any order; the rowid of an interest and of a paper is
//! of no account. Of the tables themselves it says that no number, digest and lot comes twice, and that a file's
//! papers are in rising number, none above the count in the file's row. `specs/Typed.antt` says which rows are
//! within the limits of the program's types.
#![tactic(auto)]

mod codes;
pub mod decode;
pub mod fields;
pub mod schema;
pub mod values;
