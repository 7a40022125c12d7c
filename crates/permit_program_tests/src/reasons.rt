//! What the program prints before a failure, where `--why` asks for it.

use crate::session::play;
use permit_samples::standard::POLICY;
use std::fs;
use std::test::Fail;

/// Paths without a database.
const PATHS: &str = r#"
$ check-db --why --db none.db
! none.db: no such file or folder
! database: store
= 2
$ check-db --db none.db
! database: store
= 2
$ upgrade --why --db none.db
! none.db: no such file or folder
! database: store
= 2
$ upgrade --db none.db
! database: store
= 2
$ check-db --why --db ''
! : no such file or folder
! database: store
= 2
$ check-db --db ''
! database: store
= 2
$ upgrade --why --db ''
! : no such file or folder
! database: store
= 2
$ upgrade --db ''
! database: store
= 2
$ check-db --why --db text.db/x
! text.db/x: no such file or folder
! database: store
= 2
$ check-db --db text.db/x
! database: store
= 2
$ upgrade --why --db text.db/x
! text.db/x: no such file or folder
! database: store
= 2
$ upgrade --db text.db/x
! database: store
= 2
$ check-db --why --db folder
! folder: the path is a folder
! database: store
= 2
$ check-db --db folder
! database: store
= 2
$ upgrade --why --db folder
! folder: the path is a folder
! database: store
= 2
$ upgrade --db folder
! database: store
= 2
$ check-db --why --db /dev/null
! /dev/null: the path is no regular file
! database: store
= 2
$ check-db --db /dev/null
! database: store
= 2
$ upgrade --why --db /dev/null
! /dev/null: the path is no regular file
! database: store
= 2
$ upgrade --db /dev/null
! database: store
= 2
$ check-db --why --db text.db
! text.db: no sound SQLite database
! database: damaged
= 2
$ check-db --db text.db
! database: damaged
= 2
$ upgrade --why --db text.db
! text.db: no sound SQLite database
! database: damaged
= 2
$ upgrade --db text.db
! database: damaged
= 2
$ check-db --why --db empty.db
! empty.db: no tables of an office, or more than those (ANALYZE adds some)
! database: store
= 2
$ check-db --db empty.db
! database: store
= 2
$ upgrade --why --db empty.db
! empty.db: no tables of an office, or more than those (ANALYZE adds some)
! database: store
= 2
$ upgrade --db empty.db
! database: store
= 2
"#;

/// An office of this version.
const OFFICE: &str = r#"
$ init --db reasons.db --name Chief --token abcdefghijklmnopqrstuvwxyz --day 2023-12-09 --why
| party 1
$ init --db none/office.db --name Chief --token abcdefghijklmnopqrstuvwxyz --day 2023-12-09 --why
! none/office.db: no file can be made there: see the folder and its rights
! database: store
= 2
$ init --db reasons.db --name Chief --token abcdefghijklmnopqrstuvwxyz --day 2023-12-09 --why
! reasons.db: an office of version 2
! database: exists
= 2
$ upgrade --db reasons.db --why
! reasons.db: an office of version 2
! database: version
= 2
"#;

/// Words that are refused for what they say, and a policy that is.
const WORDS: &str = r#"
$ list --db none.db --policy policy.toml --token abcdefghijklmnopqrstuvwxyz --day today
! day: unreadable
= 2
$ list --db none.db --policy policy.toml --token abcdefghijklmnopqrstuvwxyz --day today --why
! --day takes a date, YYYY-MM-DD, from 1970-01-01 to 2243-10-17; example: --day 2026-07-15
! day: unreadable
= 2
$ list --db none.db --policy policy.toml --token abcdefghijklmnopqrstuvwxyz --zone nowhere
! zone: unreadable
= 2
$ list --db none.db --policy policy.toml --token abcdefghijklmnopqrstuvwxyz --zone nowhere --why
! --zone takes a POSIX rule, as the last line of a city's file in /usr/share/zoneinfo has it; example: --zone PST8PDT,M3.2.0,M11.1.0
! zone: unreadable
= 2
> [[rule]]
> name = "x"
> effect = "alow"
+ refused.toml
$ check-policy --policy refused.toml
! policy: fault 6 at rule 1
= 2
$ check-policy --policy refused.toml --why
! refused.toml: rule 1 `x`: effect `alow`: allow or deny
! policy: fault 6 at rule 1
= 2
$ check-policy --policy none.toml --facts clerk,-,list,filed,no
! facts: unreadable
= 2
$ check-policy --policy none.toml --facts clerk,-,list,filed,no --why
! --facts takes ROLE,RELATIONS,ACTION,STAGE,STOPPED,TIMING: six words between commas
! facts: unreadable
= 2
$ check-policy --policy none.toml --facts clerk,-,list,filed,no,late --why
! --facts: TIMING is none, past, near or ahead
! facts: unreadable
= 2
$ check-policy --policy none.toml --why
! none.toml: no such file or folder
! cannot read none.toml
= 2
$ check-policy --policy folder --why
! folder: the path is a folder
! cannot read folder
= 2
$ init --db none.db --name '' --token short --day 2023-12-09 --why
! --name takes 1 to 2000 bytes of UTF-8 without a control character
! refused: syntax
= 1
$ init --db none.db --name Chief --token-file policy.toml --day 2023-12-09 --why
! the first line of --token-file's file is no token: 16 to 64 letters and digits of ASCII
! refused: syntax
= 1
$ renew-token --db none.db --party 1 --token short
! refused: syntax
= 1
$ renew-token --db none.db --party 1 --token short --why
! --token takes 16 to 64 letters and digits of ASCII
! refused: syntax
= 1
"#;

/// What an office is asked that is refused, and what is no request of it.
const ASKED: &str = r#"
$ act 'GE T' /files --db reasons.db --policy policy.toml --token abcdefghijklmnopqrstuvwxyz --day 2023-12-09 --why
! METHOD takes printed ASCII characters without a space
! refused: syntax
= 1
$ act GET '/fil es' --db reasons.db --policy policy.toml --token abcdefghijklmnopqrstuvwxyz --day 2023-12-09 --why
! PATH takes printed ASCII characters without a space
! refused: syntax
= 1
$ act POST /parties {} --db reasons.db --policy policy.toml --token abcdefghijklmnopqrstuvwxyz --day 2023-12-09
| {"refused":"syntax"}
! refused: syntax
= 1
$ act POST /parties {} --db reasons.db --policy policy.toml --token abcdefghijklmnopqrstuvwxyz --day 2023-12-09 --why
| {"refused":"syntax"}
! the request's path or body is refused: a number, a key or a value breaks a limit of docs/HTTP.md
! refused: syntax
= 1
> Lot,address,owner
> B-1,1 High St,1
+ parcels.csv
$ import parcels.csv --db reasons.db --policy policy.toml --token abcdefghijklmnopqrstuvwxyz --day 2023-12-09
! cannot read parcels.csv
= 2
$ import parcels.csv --db reasons.db --policy policy.toml --token abcdefghijklmnopqrstuvwxyz --day 2023-12-09 --why
! parcels.csv: heading `Lot` `address` `owner`: lot,address,owner
! cannot read parcels.csv
= 2
> lot,address,owner
> B-1,1 High St,9
> b-2,2 High St,1
+ refused.csv
$ import refused.csv --db reasons.db --policy policy.toml --token abcdefghijklmnopqrstuvwxyz --day 2023-12-09
| 1 refused: not admitted, person
| 2 refused: syntax
| added 0 kept 0 refused 2
= 1
$ import refused.csv --db reasons.db --policy policy.toml --token abcdefghijklmnopqrstuvwxyz --day 2023-12-09 --why
| 1 refused: not admitted, person
| 2 refused: syntax
| added 0 kept 0 refused 2
! 1 why: owner: no party has this number
! 2 why: lot: 1 to 20 of A-Z, 0-9 and -
= 1
$ serve --db reasons.db --policy policy.toml --listen nowhere --day 2023-12-09
! cannot listen nowhere
= 2
$ serve --db text.db --policy policy.toml --listen nowhere --day 2023-12-09 --why
! --listen takes HOST:PORT, an address of this machine on which no other program listens; example: --listen 127.0.0.1:8080
! cannot listen nowhere
= 2
"#;

#[test]
fn reasons_are_told(rt: HostRuntime) -> Result<(), Fail> {
    fs::create_dir(&rt, "folder")?;
    fs::write(&rt, "text.db", POLICY)?;
    fs::write(&rt, "empty.db", "")?;
    fs::write(&rt, "policy.toml", POLICY)?;
    play(&rt, rt, "", PATHS)?;
    play(&rt, rt, "", OFFICE)?;
    play(&rt, rt, "", WORDS)?;
    play(&rt, rt, "", ASKED)
}
