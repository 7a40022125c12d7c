//! The life of a file, printed for people.

use crate::replay::life::{life, text};
use permit_base::values::{Day, FileId, ParcelId, PartyId};
use permit_chronicle::wanted::Wanted;
use permit_chronicle::{ChronicleFault, tell};
use permit_history::fault::LineFault;
use std::alloc::Global;
use std::process::Abort;
use std::test::Fail;

/// The lines of the whole life.
const TOLD: &str = "2023-12-09 - found party 1
2023-12-09 - upgrade
2023-12-10 official 1 add-staff party 2 clerk
2023-12-10 official 1 add-staff party 3 reviewer
2023-12-10 official 1 add-staff party 4 inspector
2023-12-11 clerk 2 add-party party 5 public
2023-12-11 clerk 2 add-party party 6 public
2023-12-11 clerk 2 add-parcel parcel 1 party 5
2023-12-12 public 6 declare parcel 1
2023-12-19 public 5 file file 1 parcel 1 move
2023-12-20 clerk 2 assign-reviewer file 1 party 3
2023-12-20 reviewer 3 start-review file 1
2023-12-21 reviewer 3 return file 1 paper 1
2023-12-22 public 5 resubmit file 1 paper 2
2023-12-23 reviewer 3 approve-plans file 1
2023-12-24 public 5 ask-extension file 1 days 30 paper 3
2023-12-25 official 1 refuse-extension file 1 paper 4
2023-12-26 clerk 2 issue file 1 paper 5
2023-12-27 clerk 2 assign-inspector file 1 party 4
2023-12-27 public 5 name-contractor file 1 party 6
2023-12-28 public 6 begin-work file 1
2023-12-29 inspector 4 stop file 1 paper 6
2023-12-30 inspector 4 lift file 1 paper 7
2023-12-31 public 6 request-inspection file 1 footing
2024-01-01 inspector 4 notice file 1 paper 8
2024-01-02 inspector 4 clear-notice file 1 paper 8
2024-01-02 public 6 request-inspection file 1 footing
2024-01-03 inspector 4 approve-step file 1 footing
2024-01-04 public 6 request-inspection file 1 frame
2024-01-05 inspector 4 approve-step file 1 frame
2024-01-06 official 1 temporary file 1 days 30 paper 9
2024-01-07 public 6 request-inspection file 1 final
2024-01-08 inspector 4 approve-step file 1 final
2024-01-09 official 1 certify file 1 paper 10
2024-01-10 clerk 2 transfer parcel 1 party 6
";

const ALL: Wanted = Wanted {
    since: None,
    file: None,
    parcel: None,
    party: None,
};

/// What printing these lines for people writes, and how it ends.
fn told(
    alloc: Global,
    lines: &[&str],
    wanted: &Wanted,
) -> Result<(Vec<u8>, Result<(), ChronicleFault>), Fail> {
    let text = text(alloc, lines)?;
    let mut source = text.as_slice();
    let mut out = Vec::new(alloc);
    let ended = tell(alloc, &mut source, wanted, &mut out);
    Ok((out, ended))
}

/// Prints the life, of which these lines are wanted.
fn tells(rt: &impl Abort, alloc: Global, wanted: &Wanted, expected: &str) -> Result<(), Fail> {
    let (out, ended) = told(alloc, &life(alloc)?, wanted)?;
    assert!(rt; ended.is_ok());
    assert!(rt; out.as_slice() == expected.as_bytes());
    Ok(())
}

#[test]
fn a_life_is_told(rt: HostRuntime) -> Result<(), Fail> {
    let alloc = rt.alloc();
    tells(&rt, alloc, &ALL, TOLD)?;
    let since = Day::new(19731);
    let last = "2024-01-09 official 1 certify file 1 paper 10
2024-01-10 clerk 2 transfer parcel 1 party 6
";
    tells(&rt, alloc, &Wanted { since, ..ALL }, last)?;
    let parcel = ParcelId::new(1);
    let of_parcel = "2023-12-11 clerk 2 add-parcel parcel 1 party 5
2023-12-12 public 6 declare parcel 1
2023-12-19 public 5 file file 1 parcel 1 move
2024-01-10 clerk 2 transfer parcel 1 party 6
";
    tells(&rt, alloc, &Wanted { parcel, ..ALL }, of_parcel)?;
    let (file, party) = (FileId::new(1), PartyId::new(3));
    let of_reviewer = "2023-12-20 clerk 2 assign-reviewer file 1 party 3
2023-12-20 reviewer 3 start-review file 1
2023-12-21 reviewer 3 return file 1 paper 1
2023-12-23 reviewer 3 approve-plans file 1
";
    tells(&rt, alloc, &Wanted { file, party, ..ALL }, of_reviewer)?;
    let file = FileId::new(2);
    tells(&rt, alloc, &Wanted { file, ..ALL }, "")
}

#[test]
fn a_line_at_fault_ends_it(rt: HostRuntime) -> Result<(), Fail> {
    let alloc = rt.alloc();
    let upgrade = r#"{"body":{},"caller":0,"day":19700,"done":"upgrade","id":null,"number":null}"#;
    let (out, ended) = told(alloc, &[upgrade, "{}", upgrade], &ALL)?;
    assert!(rt;
        matches!(
            ended,
            Err(ChronicleFault::Line {
                line: 2,
                fault: LineFault::Fields
            })
        )
    );
    assert!(rt; out.as_slice() == b"2023-12-09 - upgrade\n".as_slice());
    Ok(())
}
