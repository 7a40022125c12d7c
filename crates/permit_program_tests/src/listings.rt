//! Listings, registers and imports, by the program on a file.

use crate::program::Program;
use crate::session::play;
use permit_samples::filing::FILED;
use permit_samples::opening::OPENING;
use std::fs;
use std::test::Fail;

/// Files 2 and 3 on parcel 2, of party 6; party 5 is the contractor of file 2.
const OTHERS: &str = r#"
> 6 19723 POST /files {"parcel":2,"kind":"repair","valuation":100,"description":"Roof"}
> 6 19723 POST /files {"parcel":2,"kind":"alter","valuation":100,"description":"Wall"}
> 6 19723 POST /files/2/name-contractor {"party":5}
"#;

/// After the founding alone.
const FOUNDED: &str = r#"
$ list @1
| read 0
"#;

/// The registers after one filing.
const REGISTERS: &str = r#"
$ register files @1
|  FILE PARCEL KIND      STAGE     TIMING DEADLINE           CENTS
|     1      1 construct filed     ahead  2024-06-29      25000000
| files 1
$ register deadlines @1
|  FILE STAGE     TIMING DEADLINE      LEFT
| files 0
$ register inspections @1
|  FILE NEXT    REQUESTED  INSPECTOR NOTICES
| files 0
"#;

/// Who lists which of three files.
const LISTINGS: &str = r#"
$ list @5
| 1
| 2
| read 3
$ list @2
| 1
| 2
| 3
| read 3
$ list --stage filed @2
| 1
| 2
| 3
| read 3
$ list --stage review @2
| read 0
$ list @3
| read 0
$ register files @3
|  FILE PARCEL KIND      STAGE     TIMING DEADLINE           CENTS
| files 0
"#;

/// Parcel lists that are denied, read, read again and unreadable.
const IMPORTS: &str = r#"
> lot,address,owner
> B-1,1 High St,5
> B-2,2 High St,99
> B-1,Other,5
+ imported/parcels.csv
$ import imported/parcels.csv @5
| 1 refused: denied by default
| 2 refused: denied by default
| 3 refused: denied by default
| added 0 kept 0 refused 3
= 1
$ act GET /parcels/3 @1
| {"refused":"record"}
! refused: record
= 1
$ import imported/parcels.csv @2
| 1 added 3
| 2 refused: not admitted, person
| 3 kept
| added 1 kept 1 refused 1
= 1
$ import imported/parcels.csv @2
| 1 kept
| 2 refused: not admitted, person
| 3 kept
| added 0 kept 2 refused 1
= 1
$ act GET /parcels/3 @2
| {"address":"1 High St","id":3,"lot":"B-1","owner":5}
$ act GET /parcels/4 @2
| {"refused":"record"}
! refused: record
= 1
+ imported/empty.csv
> lot,address
> B-1,1 High St
+ imported/other.csv
$ import imported/empty.csv @2
! cannot read imported/empty.csv
= 2
$ import imported/other.csv @2
! cannot read imported/other.csv
= 2
$ import imported/none.csv @2
! cannot read imported/none.csv
= 2
$ import imported @2
! cannot read imported
= 2
$ list @2
| read 0
"#;

#[test]
fn listings_and_registers(rt: HostRuntime) -> Result<(), Fail> {
    fs::create_dir(&rt, "listed")?;
    let program = Program::found(&rt, rt, "listed")?;
    play(&rt, rt, "listed", FOUNDED)?;
    program.play(&rt, rt, OPENING)?;
    program.play(&rt, rt, FILED)?;
    play(&rt, rt, "listed", REGISTERS)?;
    program.play(&rt, rt, OTHERS)?;
    play(&rt, rt, "listed", LISTINGS)
}

#[test]
fn imports(rt: HostRuntime) -> Result<(), Fail> {
    fs::create_dir(&rt, "imported")?;
    let program = Program::found(&rt, rt, "imported")?;
    program.play(&rt, rt, OPENING)?;
    play(&rt, rt, "imported", IMPORTS)
}
