//! The words of a command line, and what the program prints for them.

use crate::run::run;
use crate::session::play;
use permit_samples::standard::POLICY;
use std::fs;
use std::test::Fail;

/// A program without words, policies by themselves, and dead rules.
const POLICIES: &str = r#"
$
| permit
$ --version
| permit 2.0 (schema 2)
> [[rule]]
> name = "a"
> effect = "deny"
>
> [[rule]]
> name = "b"
> effect = "allow"
+ good.toml
$ check-policy --policy good.toml
| rules 2
> [[rule]]
> name = "default"
> effect = "deny"
+ bad.toml
$ check-policy --policy bad.toml
! policy: fault 5 at rule 1
= 2
$ check-policy --policy nowhere.toml
! cannot read nowhere.toml
= 2
$ check-policy --dead --policy standard.toml
| rules 12
> [[rule]]
> name = "a"
> effect = "deny"
> role = ["clerk"]
>
> [[rule]]
> name = "b"
> effect = "deny"
> role = ["public", "reviewer", "inspector", "official"]
>
> [[rule]]
> name = "c"
> effect = "deny"
+ dead.toml
$ check-policy --dead --policy dead.toml
| rules 3
| dead c
"#;

/// Facts, and what a policy says of them.
const FACTS: &str = r#"
$ check-policy --policy standard.toml --facts reviewer,assigned-reviewer+owner,approve-plans,review,no,ahead
| no-conflict relation
| own-work match
| decided own-work deny
$ check-policy --policy standard.toml --facts ''
! facts: unreadable
= 2
$ check-policy --policy standard.toml --facts reviewer
! facts: unreadable
= 2
$ check-policy --policy standard.toml --facts reviewer,,read,review,no,ahead
! facts: unreadable
= 2
$ check-policy --policy standard.toml --facts reviewer,owner+owner,read,review,no,ahead
! facts: unreadable
= 2
$ check-policy --policy standard.toml --facts reviewer,owner+,read,review,no,ahead
! facts: unreadable
= 2
$ check-policy --policy standard.toml --facts reviewer,-+owner,read,review,no,ahead
! facts: unreadable
= 2
$ check-policy --policy standard.toml --facts reviewer,boss,read,review,no,ahead
! facts: unreadable
= 2
$ check-policy --policy standard.toml --facts boss,-,read,review,no,ahead
! facts: unreadable
= 2
$ check-policy --policy standard.toml --facts reviewer,-,frob,review,no,ahead
! facts: unreadable
= 2
$ check-policy --policy standard.toml --facts reviewer,-,read,frob,no,ahead
! facts: unreadable
= 2
$ check-policy --policy standard.toml --facts reviewer,-,read,review,maybe,ahead
! facts: unreadable
= 2
$ check-policy --policy standard.toml --facts reviewer,-,read,review,no,frob
! facts: unreadable
= 2
$ check-policy --policy standard.toml --facts reviewer,-,read,review,no,ahead,
! facts: unreadable
= 2
$ check-policy --policy standard.toml --facts 'reviewer,-,read,review,no, ahead'
! facts: unreadable
= 2
> [[rule]]
> name = "new"
> effect = "allow"
> stage = ["new"]
> stopped = true
+ stages.toml
$ check-policy --policy stages.toml --facts public,-,file,new,yes,none
| new match
| decided new allow
$ check-policy --policy stages.toml --facts public,owner,file,office,yes,past
| new stage
| decided default deny
$ check-policy --policy stages.toml --facts public,-,file,new,no,near
| new stopped
| decided default deny
$ check-policy --policy none.toml --dead --facts x
! error: the argument '--dead' cannot be used with '--facts <FACTS>'
!
! For more information, try '--help'.
= 2
"#;

/// A founding, foundings that are refused, and paths without a database.
const FOUNDINGS: &str = r#"
$ init --db office.db --name Chief --token abcdefghijklmnopqrstuvwxyz --day 2023-12-09
| party 1
$ init --db office.db --name Chief --token abcdefghijklmnopqrstuvwxyz --day 2023-12-09
! database: exists
= 2
$ upgrade --db office.db
! database: version
= 2
$ check-db --db office.db
| sound parties 1 parcels 0 files 0
$ init --db none.db --name Chief --token short --day 2023-12-09
! refused: syntax
= 1
$ init --db none.db --name Chief --token abcdefghijklmnopqrstuvwxyz --day 1970-01-01
! refused: clock
= 1
$ init --db none.db --name Chief --token abcdefghijklmnopqrstuvwxyz --day 2023-12-32
! day: unreadable
= 2
$ upgrade --db none.db
! database: store
= 2
$ check-db --db none.db
! database: store
= 2
$ begin-history --db none.db --history none.history
! database: store
= 2
"#;

/// Words that are wanting, and words that exclude one another.
const MISSING: &str = r#"
$ frob
! error: unrecognized subcommand 'frob'
!
! Usage: permit <COMMAND>
!
! For more information, try '--help'.
= 2
$ check-policy
! error: the following required arguments were not provided:
!   --policy <POLICY>
!
! Usage: permit check-policy --policy <POLICY>
!
! For more information, try '--help'.
= 2
$ history
! error: the following required arguments were not provided:
!   --history <PATH>
!
! Usage: permit history --history <PATH>
!
! For more information, try '--help'.
= 2
$ replay --db none.db
! error: the following required arguments were not provided:
!   --history <PATH>
!
! Usage: permit replay --db <DB> --history <PATH>
!
! For more information, try '--help'.
= 2
$ check-db --db none.db --from none.copy
! error: the following required arguments were not provided:
!   --history <PATH>
!
! For more information, try '--help'.
= 2
$ renew-token --db none.db --party 2 --token-file - --from none.copy
! error: the following required arguments were not provided:
!   --history <PATH>
!
! For more information, try '--help'.
= 2
$ list --db none.db --policy none.toml
! error: the following required arguments were not provided:
!   <--token <TOKEN>|--token-file <PATH>>
!
! For more information, try '--help'.
= 2
$ list --db none.db --policy none.toml --token abcdefghijklmnopqrstuvwxyz --token-file -
! error: the argument '--token <TOKEN>' cannot be used with '--token-file <PATH>'
!
! For more information, try '--help'.
= 2
"#;

/// Words that name nothing, and numbers out of range.
const VALUES: &str = r#"
$ list --db none.db --policy none.toml --token abcdefghijklmnopqrstuvwxyz --stage frob
! error: invalid value 'frob' for '--stage <STAGE>'
!   [possible values: filed, review, returned, approved, rejected, issued, working, revoked, finaled, certified, abandoned, lapsed]
!   [example: --stage review]
!
! For more information, try '--help'.
= 2
$ list --db none.db --policy none.toml --token abcdefghijklmnopqrstuvwxyz --stage new
! error: invalid value 'new' for '--stage <STAGE>'
!   [possible values: filed, review, returned, approved, rejected, issued, working, revoked, finaled, certified, abandoned, lapsed]
!   [example: --stage review]
!
! For more information, try '--help'.
= 2
$ list --db none.db --policy none.toml --token abcdefghijklmnopqrstuvwxyz --stage office
! error: invalid value 'office' for '--stage <STAGE>'
!   [possible values: filed, review, returned, approved, rejected, issued, working, revoked, finaled, certified, abandoned, lapsed]
!   [example: --stage review]
!
! For more information, try '--help'.
= 2
$ register --db none.db --policy none.toml --token abcdefghijklmnopqrstuvwxyz -- frob
! error: invalid value 'frob' for '<NAME>'
!   [possible values: files, deadlines, inspections]
!   [example: permit register deadlines]
!
! For more information, try '--help'.
= 2
$ serve --db none.db --policy none.toml --listen nowhere --workers 0
! error: invalid value '0' for '--workers <WORKERS>'
!   [possible values: 1 to 8]
!   [example: --workers 4]
!
! For more information, try '--help'.
= 2
$ serve --db none.db --policy none.toml --listen nowhere --workers 9
! error: invalid value '9' for '--workers <WORKERS>'
!   [possible values: 1 to 8]
!   [example: --workers 4]
!
! For more information, try '--help'.
= 2
$ serve --db none.db --policy none.toml --listen nowhere --workers 04
! error: invalid value '04' for '--workers <WORKERS>'
!   [possible values: 1 to 8]
!   [example: --workers 4]
!
! For more information, try '--help'.
= 2
$ serve --db none.db --policy none.toml --listen nowhere --connections 100000
! error: invalid value '100000' for '--connections <CONNECTIONS>'
!   [possible values: 1 to 99999]
!   [example: --connections 1000]
!
! For more information, try '--help'.
= 2
$ serve --db none.db --policy none.toml --listen nowhere --connections +1
! error: invalid value '+1' for '--connections <CONNECTIONS>'
!   [possible values: 1 to 99999]
!   [example: --connections 1000]
!
! For more information, try '--help'.
= 2
$ renew-token --db none.db --token abcdefghijklmnopqrstuvwxyz --party 0
! error: invalid value '0' for '--party <N>'
!   [possible values: 1 to 99999]
!   [example: --party 2]
!
! For more information, try '--help'.
= 2
$ renew-token --db none.db --token abcdefghijklmnopqrstuvwxyz --party 100000
! error: invalid value '100000' for '--party <N>'
!   [possible values: 1 to 99999]
!   [example: --party 2]
!
! For more information, try '--help'.
= 2
$ renew-token --db none.db --token abcdefghijklmnopqrstuvwxyz --party one
! error: invalid value 'one' for '--party <N>'
!   [possible values: 1 to 99999]
!   [example: --party 2]
!
! For more information, try '--help'.
= 2
$ renew-token --db none.db --token abcdefghijklmnopqrstuvwxyz --party 01
! error: invalid value '01' for '--party <N>'
!   [possible values: 1 to 99999]
!   [example: --party 2]
!
! For more information, try '--help'.
= 2
$ history --history none.history --party 0
! error: invalid value '0' for '--party <N>'
!   [possible values: 1 to 99999]
!   [example: --party 2]
!
! For more information, try '--help'.
= 2
$ history --history none.history --party 100000
! error: invalid value '100000' for '--party <N>'
!   [possible values: 1 to 99999]
!   [example: --party 2]
!
! For more information, try '--help'.
= 2
$ history --history none.history --party one
! error: invalid value 'one' for '--party <N>'
!   [possible values: 1 to 99999]
!   [example: --party 2]
!
! For more information, try '--help'.
= 2
$ history --history none.history --party 01
! error: invalid value '01' for '--party <N>'
!   [possible values: 1 to 99999]
!   [example: --party 2]
!
! For more information, try '--help'.
= 2
$ history --history none.history --parcel 0
! error: invalid value '0' for '--parcel <N>'
!   [possible values: 1 to 99999]
!   [example: --parcel 1]
!
! For more information, try '--help'.
= 2
$ history --history none.history --parcel 100000
! error: invalid value '100000' for '--parcel <N>'
!   [possible values: 1 to 99999]
!   [example: --parcel 1]
!
! For more information, try '--help'.
= 2
$ history --history none.history --parcel one
! error: invalid value 'one' for '--parcel <N>'
!   [possible values: 1 to 99999]
!   [example: --parcel 1]
!
! For more information, try '--help'.
= 2
$ history --history none.history --parcel 01
! error: invalid value '01' for '--parcel <N>'
!   [possible values: 1 to 99999]
!   [example: --parcel 1]
!
! For more information, try '--help'.
= 2
$ history --history none.history --file 0
! error: invalid value '0' for '--file <N>'
!   [possible values: 1 to 99999]
!   [example: --file 1]
!
! For more information, try '--help'.
= 2
$ history --history none.history --file 100000
! error: invalid value '100000' for '--file <N>'
!   [possible values: 1 to 99999]
!   [example: --file 1]
!
! For more information, try '--help'.
= 2
$ history --history none.history --file one
! error: invalid value 'one' for '--file <N>'
!   [possible values: 1 to 99999]
!   [example: --file 1]
!
! For more information, try '--help'.
= 2
$ history --history none.history --file 01
! error: invalid value '01' for '--file <N>'
!   [possible values: 1 to 99999]
!   [example: --file 1]
!
! For more information, try '--help'.
= 2
"#;

#[test]
fn policies(rt: HostRuntime) -> Result<(), Fail> {
    fs::write(&rt, "standard.toml", POLICY)?;
    play(&rt, rt, "", POLICIES)?;
    play(&rt, rt, "", FACTS)
}

#[test]
fn foundings(rt: HostRuntime) -> Result<(), Fail> {
    play(&rt, rt, "", FOUNDINGS)?;
    assert!(rt; !fs::exists(&rt, "none.db")?);
    Ok(())
}

#[test]
fn words_that_are_wanting(rt: HostRuntime) -> Result<(), Fail> {
    play(&rt, rt, "", MISSING)
}

#[test]
fn values_that_are_not_taken(rt: HostRuntime) -> Result<(), Fail> {
    play(&rt, rt, "", VALUES)
}

#[test]
fn a_history_that_is_not_kept(rt: HostRuntime) -> Result<(), Fail> {
    for name in ["list", "register", "check-policy"] {
        let (status, out, err) = run(&rt, rt, &[name, "--history", "none.history"])?;
        assert_eq!(rt; (status, out.as_str()), (2, ""));
        assert!(rt;
            err.as_str()
                .starts_with("error: unexpected argument '--history' found")
        );
    }
    Ok(())
}
