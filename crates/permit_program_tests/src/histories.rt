//! Offices with a history beside their database.

use crate::program::Program;
use crate::session::play;
use permit_samples::standard::POLICY;
use std::fs;
use std::test::Fail;

/// A second office is founded alike, and is opened with the history of the first, which has two commands more.
const BEHIND: &str = r#"
$ init --db behind/first.db --name Chief --token abcdefghijklmnopqrstuvwxyz --day 2023-12-09 --history behind/first.history
| party 1
$ act POST /parties '{"name":"Rae","role":"reviewer","token":"reviewer2reviewer2"}' --db behind/first.db --policy behind/policy.toml --token abcdefghijklmnopqrstuvwxyz --day 2024-01-01 --history behind/first.history
| {"day":19723,"done":"add-staff","number":2}
$ act POST /parties '{"name":"Pat","role":"public","token":"resident3resident3"}' --db behind/first.db --policy behind/policy.toml --token abcdefghijklmnopqrstuvwxyz --day 2024-01-01 --history behind/first.history
| {"day":19723,"done":"add-party","number":3}
$ check-db --db behind/office.db --history behind/first.history
| sound parties 1 parcels 0 files 0
| history lines 2 sha256 148ee7cf8b563c3092db207332d1d7a5dac75615cce1f79afbf50b32678153b5
$ history --history behind/first.history --db behind/office.db
| 2023-12-09 - found party 1
| 2023-12-09 - upgrade
| 2024-01-01 official 1 add-staff party 2 reviewer
| 2024-01-01 official 1 add-party party 3 public
! history: the tables lack 2 commands
$ act GET /files/1 --history behind/first.history @1
| {"refused":"record"}
! history: redid 2 commands
! refused: record
= 1
$ act GET /files/1 --history behind/first.history @1
| {"refused":"record"}
! refused: record
= 1
$ check-db --db behind/office.db --history behind/first.history
| sound parties 3 parcels 0 files 0
| history lines 4 sha256 88f3e98ca9b71487383292cf9a5290f6ba6a432cc93960eb2b097709b1583a07
$ history --history behind/first.history --db behind/office.db
| 2023-12-09 - found party 1
| 2023-12-09 - upgrade
| 2024-01-01 official 1 add-staff party 2 reviewer
| 2024-01-01 official 1 add-party party 3 public
"#;

/// A history that lies beside the database and isn't named.
const UNUSED: &str = r#"
> lot,address,owner
+ unused/parcels.csv
> nothing of an office
+ unused/office.history
$ act GET /files/1 @1
! history: unused
= 2
$ act GET /files/1 --why @1
! unused/office.history: there is a history, which isn't named
! history: unused
= 2
$ import unused/parcels.csv @1
! history: unused
= 2
$ serve --db unused/office.db --policy unused/policy.toml --listen 127.0.0.1:0 --connections 1 --day 2024-01-01
! history: unused
= 2
$ renew-token --db unused/office.db --party 1 --token anewtokenofthechief
! history: unused
= 2
$ upgrade --db unused/office.db
! history: unused
= 2
$ upgrade --db unused/office.db --why
! unused/office.history: there is a history, which isn't named
! history: unused
= 2
$ upgrade --db unused/office.db --no-history
! database: version
= 2
$ act GET /files/1 --no-history @1
| {"refused":"record"}
! refused: record
= 1
$ import unused/parcels.csv --no-history @1
| added 0 kept 0 refused 0
$ list @1
| read 0
$ register files @1
|  FILE PARCEL KIND      STAGE     TIMING DEADLINE           CENTS
| files 0
$ check-db --db unused/office.db
| sound parties 1 parcels 0 files 0
$ act GET /files/1 --history unused/office.history @1
! history: line 1
= 2
"#;

/// A database of another name, and a folder where a history could be.
const NAMES: &str = r#"
$ init --db names/office --name Chief --token abcdefghijklmnopqrstuvwxyz --day 2023-12-09
| party 1
> nothing of an office
+ names/office.history
$ act GET /files/1 --db names/office --policy names/policy.toml --token abcdefghijklmnopqrstuvwxyz --day 2024-01-01
| {"refused":"record"}
! refused: record
= 1
$ init --db names/.db --name Chief --token abcdefghijklmnopqrstuvwxyz --day 2023-12-09
| party 1
> nothing of an office
+ names/.history
$ act GET /files/1 --db names/.db --policy names/policy.toml --token abcdefghijklmnopqrstuvwxyz --day 2024-01-01
| {"refused":"record"}
! refused: record
= 1
$ init --db names/folder.db --name Chief --token abcdefghijklmnopqrstuvwxyz --day 2023-12-09
| party 1
$ act GET /files/1 --db names/folder.db --policy names/policy.toml --token abcdefghijklmnopqrstuvwxyz --day 2024-01-01
! history: unused
= 2
"#;

/// The evidence of a text, which is changed later.
const EVIDENCE: &str = r#"
$ history --history evidence/office.history --verify 2 148ee7cf8b563c3092db207332d1d7a5dac75615cce1f79afbf50b32678153b5
| verified lines 2
$ history --history evidence/office.history --verify 3 571ad113cc689b4ac2a815d22dde092cc537370fb2e0221acae4f464fc9a2879
| verified lines 3
$ history --history evidence/office.history --verify 3 148ee7cf8b563c3092db207332d1d7a5dac75615cce1f79afbf50b32678153b5
! history: differs
= 2
$ history --history evidence/office.history --verify 3 148ee7cf8b563c3092db207332d1d7a5dac75615cce1f79afbf50b32678153b5 --why
! evidence/office.history: the first lines have another SHA-256, or there are fewer
! history: differs
= 2
$ history --history evidence/office.history --verify 4 88f3e98ca9b71487383292cf9a5290f6ba6a432cc93960eb2b097709b1583a07
! history: differs
= 2
$ history --history evidence/none.history --verify 3 571ad113cc689b4ac2a815d22dde092cc537370fb2e0221acae4f464fc9a2879
! cannot read evidence/none.history
= 2
$ check-db --db evidence/office.db --history evidence/office.history
| sound parties 2 parcels 0 files 0
| history lines 3 sha256 571ad113cc689b4ac2a815d22dde092cc537370fb2e0221acae4f464fc9a2879
"#;

/// An office with a new reviewer.
const FIRST: &str = r#"
$ init --db evidence/office.db --name Chief --token abcdefghijklmnopqrstuvwxyz --day 2023-12-09 --history evidence/office.history
| party 1
$ act POST /parties '{"name":"Rae","role":"reviewer","token":"reviewer2reviewer2"}' --history evidence/office.history @1
| {"day":19723,"done":"add-staff","number":2}
"#;

/// A second office follows a first one, but for its last line.
const FOLLOWED: &str = r#"
$ init --db followed/first.db --name Chief --token abcdefghijklmnopqrstuvwxyz --day 2023-12-09 --history followed/first.history
| party 1
$ replay --db followed/second.db --history followed/first.history
! history: short
= 2
$ check-db --db followed/second.db
! database: store
= 2
$ replay --settled --db followed/settled.db --history followed/first.history
| replayed lines 2 new 0
$ act POST /parties '{"name":"Rae","role":"reviewer","token":"reviewer2reviewer2"}' --db followed/first.db --policy followed/policy.toml --token abcdefghijklmnopqrstuvwxyz --day 2024-01-01 --history followed/first.history
| {"day":19723,"done":"add-staff","number":2}
$ act POST /parties '{"name":"Pat","role":"public","token":"resident3resident3"}' --db followed/first.db --policy followed/policy.toml --token abcdefghijklmnopqrstuvwxyz --day 2024-01-01 --history followed/first.history
| {"day":19723,"done":"add-party","number":3}
$ replay --db followed/second.db --history followed/first.history
| replayed lines 3 new 1
$ check-db --db followed/second.db --history followed/first.history
| sound parties 2 parcels 0 files 0
| history lines 3 sha256 571ad113cc689b4ac2a815d22dde092cc537370fb2e0221acae4f464fc9a2879
$ replay --db followed/second.db --history followed/first.history
| replayed lines 3 new 0
$ replay --settled --db followed/second.db --history followed/first.history
| replayed lines 4 new 1
$ replay --db followed/second.db --history followed/first.history
| replayed lines 4 new 0
$ replay --db followed/office.db --history followed/first.history
| replayed lines 3 new 1
$ renew-token --db followed/office.db --party 1 --token anewtokenofthechief
| party 1
$ replay --db followed/office.db --history followed/first.history
! history: differs
= 2
$ replay --settled --db followed/office.db --history followed/first.history
! history: differs
= 2
"#;

/// A history isn't begun where the office isn't founded or upgraded.
const FAILED: &str = r#"
$ init --db failed/office.db --name Chief --token abcdefghijklmnopqrstuvwxyz --day 2023-12-09 --history failed/office.history
! database: exists
= 2
$ history --history failed/office.history
! cannot read failed/office.history
= 2
$ upgrade --db failed/office.db --history failed/office.history
! database: version
= 2
$ history --history failed/office.history
! cannot read failed/office.history
= 2
$ begin-history --db failed/policy.toml --history failed/office.history
! database: damaged
= 2
$ history --history failed/office.history
! cannot read failed/office.history
= 2
+ failed/empty.history
$ init --db failed/office.db --name Chief --token abcdefghijklmnopqrstuvwxyz --day 2023-12-09 --history failed/empty.history
! database: exists
= 2
$ history --history failed/empty.history
$ act GET /files/1 @1
| {"refused":"record"}
! refused: record
= 1
"#;

/// A history that begins with a copy of the database.
const COPIES: &str = r#"
$ begin-history --db copies/office.db --history copies/office.history
| history begun 2023-12-09
$ act GET /files/1 --history copies/office.history --from copies/office.db @1
! history: copy
= 2
$ act GET /files/1 --history copies/office.history --from copies/office.db --why @1
! copies/office.history: the copy that is named by --from is the database itself
! history: copy
= 2
$ check-db --db copies/office.db --history copies/office.history --from copies/office.db
! history: copy
= 2
$ replay --db copies/office.db --history copies/office.history --from copies/office.db
! history: copy
= 2
$ act GET /files/1 --history copies/office.history --from copies/policy.toml @1
! history: copy
= 2
$ act GET /files/1 --history copies/office.history --from copies --why @1
! copies: the path is a folder
! cannot read copies
= 2
$ history --history copies/office.history
| 2023-12-09 - begin
$ history --history copies/office.history --db copies/office.db
! history: copy
= 2
$ history --history copies/office.history --db copies/none.db --why
! copies/none.db: no such file or folder
! database: store
= 2
$ history --history copies/office.history --since today --why
! --since takes a date, YYYY-MM-DD, from 1970-01-01 to 2243-10-17; example: --since 2026-07-15
! day: unreadable
= 2
$ history --history copies --why
! copies: the path is a folder
! cannot read copies
= 2
"#;

/// Lines that are no entries, and one of a party that isn't there.
const LINES: &str = r#"
> {}
+ lines/fields.history
$ history --history lines/fields.history --why
! lines/fields.history: that line is no entry of a history: fields
! history: line 1
= 2
> nothing of an office
+ lines/syntax.history
$ check-db --db lines/office.db --history lines/syntax.history --why
! lines/syntax.history: that line is no entry of a history: syntax
! history: line 1
= 2
> {"body":{},"caller":0,"day":19700,"done":"upgrade","id":null,"number":null}
+ lines/founding.history
$ replay --settled --db lines/none.db --history lines/founding.history --why
! lines/founding.history: that line may not follow those before it: no founding
! history: line 1
= 2
> {"body":{"digest":"71c480df93d6ae2f1efad1447c66c9525e316218cf51fc8d9ed832f2daf18b73","name":"Chief"},"caller":0,"day":19700,"done":"found","id":null,"number":1}
> {"body":{},"caller":0,"day":19700,"done":"upgrade","id":null,"number":null}
> {"body":{},"caller":9,"day":19723,"done":"declare","id":1,"number":null}
+ lines/caller.history
$ act GET /files/1 --history lines/caller.history --why @1
! lines/caller.history: that line may not follow those before it: caller
! history: line 3
= 2
"#;

/// A history of two names.
const SECOND_NAME: &str = r#"
$ history --history lines/second.history
! cannot read lines/second.history
= 2
$ history --history lines/second.history --why
! lines/second.history: the file has a second name, a hard link
! cannot read lines/second.history
= 2
$ check-db --db lines/office.db --history lines/second.history
! cannot read lines/second.history
= 2
$ replay --db lines/office.db --history lines/second.history
! cannot read lines/second.history
= 2
$ act GET /files/1 --history lines/second.history @1
! history: store
= 2
"#;

#[test]
fn a_history_that_is_not_named(rt: HostRuntime) -> Result<(), Fail> {
    fs::create_dir(&rt, "unused")?;
    Program::found(&rt, rt, "unused")?;
    play(&rt, rt, "unused", UNUSED)?;
    fs::create_dir(&rt, "names")?;
    fs::create_dir(&rt, "names/folder.history")?;
    fs::write(&rt, "names/policy.toml", POLICY)?;
    play(&rt, rt, "names", NAMES)
}

#[test]
fn the_evidence_of_a_history(rt: HostRuntime) -> Result<(), Fail> {
    fs::create_dir(&rt, "evidence")?;
    fs::write(&rt, "evidence/policy.toml", POLICY)?;
    play(&rt, rt, "evidence", FIRST)?;
    play(&rt, rt, "evidence", EVIDENCE)
}

#[test]
fn an_office_that_follows(rt: HostRuntime) -> Result<(), Fail> {
    fs::create_dir(&rt, "followed")?;
    fs::write(&rt, "followed/policy.toml", POLICY)?;
    play(&rt, rt, "followed", FOLLOWED)
}

#[test]
fn a_history_that_is_not_begun(rt: HostRuntime) -> Result<(), Fail> {
    fs::create_dir(&rt, "failed")?;
    Program::found(&rt, rt, "failed")?;
    play(&rt, rt, "failed", FAILED)
}

#[test]
fn a_history_that_begins_with_a_copy(rt: HostRuntime) -> Result<(), Fail> {
    fs::create_dir(&rt, "copies")?;
    Program::found(&rt, rt, "copies")?;
    play(&rt, rt, "copies", COPIES)
}

#[test]
fn lines_that_are_refused(rt: HostRuntime) -> Result<(), Fail> {
    fs::create_dir(&rt, "lines")?;
    Program::found(&rt, rt, "lines")?;
    play(&rt, rt, "lines", LINES)?;
    fs::hard_link(&rt, "lines/caller.history", "lines/second.history")?;
    play(&rt, rt, "lines", SECOND_NAME)
}

#[test]
fn a_database_behind_its_history(rt: HostRuntime) -> Result<(), Fail> {
    fs::create_dir(&rt, "behind")?;
    Program::found(&rt, rt, "behind")?;
    play(&rt, rt, "behind", BEHIND)
}
