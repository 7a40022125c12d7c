//! A party that is given a new token by the program.

use crate::program::Program;
use crate::session::play;
use std::fs;
use std::test::Fail;

/// Renewals that are refused, and one from a file; the official asks for a file after each.
const RENEWALS: &str = r#"
$ act GET /files/1 --db renewed/office.db --policy renewed/policy.toml --token abcdefghijklmnopqrstuvwxyz --day 2024-01-01
| {"refused":"record"}
! refused: record
= 1
$ renew-token --db renewed/office.db --party 2 --token anewtokenofthechief
! refused: record
= 1
$ act GET /files/1 --db renewed/office.db --policy renewed/policy.toml --token abcdefghijklmnopqrstuvwxyz --day 2024-01-01
| {"refused":"record"}
! refused: record
= 1
$ renew-token --db renewed/office.db --party 1 --token abcdefghijklmnopqrstuvwxyz
! refused: not admitted, taken
= 1
$ act GET /files/1 --db renewed/office.db --policy renewed/policy.toml --token abcdefghijklmnopqrstuvwxyz --day 2024-01-01
| {"refused":"record"}
! refused: record
= 1
$ renew-token --db renewed/office.db --party 1 --token short
! refused: syntax
= 1
$ act GET /files/1 --db renewed/office.db --policy renewed/policy.toml --token abcdefghijklmnopqrstuvwxyz --day 2024-01-01
| {"refused":"record"}
! refused: record
= 1
> anewtokenofthechief
> and more
+ renewed/token
$ renew-token --db renewed/office.db --party 1 --token-file renewed/token
| party 1
$ act GET /files/1 --db renewed/office.db --policy renewed/policy.toml --token abcdefghijklmnopqrstuvwxyz --day 2024-01-01
| {"refused":"caller"}
! refused: caller
= 1
$ act GET /files/1 --db renewed/office.db --policy renewed/policy.toml --token anewtokenofthechief --day 2024-01-01
| {"refused":"record"}
! refused: record
= 1
"#;

#[test]
fn a_new_token(rt: HostRuntime) -> Result<(), Fail> {
    fs::create_dir(&rt, "renewed")?;
    Program::found(&rt, rt, "renewed")?;
    play(&rt, rt, "renewed", RENEWALS)
}
