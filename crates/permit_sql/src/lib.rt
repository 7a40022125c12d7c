//! Where the office keeps its tables: a store over SQL.
//!
//! **What a connection shows.** The schema, and when a database keeps the tables of the model, are of
//! `permit_sql_rows`, the statements of `permit_sql_statements`. A connection that a failure shut shows nothing, so
//! each clause is of an open one, and each is of a disk that has so far given back what was written (`HasCleanDisk`
//! of the connection after the call).
//!
//! **What an open finds.** `specs/Found.antt` says when the tables that a database keeps are typed: each row is within
//! the limits of the program's types, its texts in UTF-8, parties, parcels and files are numbered from 1, and the desk
//! counts them; and when they are sound: the model's conditions hold of them too. An open reads the desk's version
//! first, then compares the schema, then tests the rows one at a time, each table by one streamed query: once for their
//! types (`proofs/Refused.antt`), and once for what they say together (`specs/Tested.antt`, `proofs/Passing.antt`). It
//! calls rows damaged exactly where no sound tables are kept; want of memory and a call that failed are the store's.
//!
//! **Which module answers which question.** `typed`, `typed_files`: is each row one of its table's type? `sound`, `sound_files`:
//! are typed rows sound together? `first_untyped`, `first_unsound`, `first_unsound_paper`: which is the first row that isn't?
//! `row_rules`, `untyped_rule`: which rule does a row break? `why` puts these together, for `permit check-db --why`.
#![tactic(auto)]

pub mod counts;
mod each;
pub mod fault;
mod first_unsound;
mod first_unsound_paper;
mod first_untyped;
pub mod laws;
mod open;
pub mod renew;
pub mod reopen;
mod row_rules;
mod sound;
mod sound_files;
pub mod store;
mod tally;
mod texts;
mod typed;
mod typed_files;
mod untyped_rule;
pub mod versions;
pub mod why;
