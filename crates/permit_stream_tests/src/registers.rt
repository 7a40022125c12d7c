//! The worked registers' bytes, a register written line by line, and writers that fail.

use crate::streams::Narrow;
use permit_base::values::{Cents, Day};
use permit_base::words::{Edition, Kind, RegisterKind, Stage, Step};
use permit_core::restore::StateFields;
use permit_core::row::{FileRow, FileView};
use permit_core::shared::SharedText;
use permit_core::state::FileState;
use permit_core::taker::Taker;
use permit_report::{RegisterWriter, ReportError, register};
use permit_samples::makers::{day, file, parcel, party, text};
use std::alloc::Global;
use std::process::Abort;
use std::test::Fail;

/// The register of files on the day of the first filing.
const FILES: &str = " FILE PARCEL KIND      STAGE     TIMING DEADLINE           CENTS
    1      1 construct filed     ahead  2024-06-29      25000000
files 1
";

/// The register of deadlines on the deadline day.
const DEADLINES: &str = " FILE STAGE     TIMING DEADLINE      LEFT
    1 filed     near   2024-06-29       0
files 1
";

/// The register of deadlines on the day after it.
const PAST: &str = " FILE STAGE     TIMING DEADLINE      LEFT
    1 abandoned past   2024-06-29      -1
files 1
";

/// The register of inspections after a request, with no inspector assigned.
const INSPECTIONS: &str = " FILE NEXT    REQUESTED  INSPECTOR NOTICES
    1 footing 2024-10-04         -       0
files 1
";

/// The register of files where the same is filed five times.
const FIVE_FILES: &str = " FILE PARCEL KIND      STAGE     TIMING DEADLINE           CENTS
    1      1 construct filed     ahead  2024-06-29      25000000
    2      1 construct filed     ahead  2024-06-29      25000000
    3      1 construct filed     ahead  2024-06-29      25000000
    4      1 construct filed     ahead  2024-06-29      25000000
    5      1 construct filed     ahead  2024-06-29      25000000
files 5
";

/// A file with a state, as it is shown on a day.
fn shown(alloc: Global, number: u32, state: FileState, on: Day) -> Result<FileView, Fail> {
    let (stage, timing) = (state.stage(on), state.timing(on));
    let row = FileRow {
        id: file(number)?,
        state,
        valuation: Cents::new(25000000).ok_or("cents")?,
        description: SharedText::new(alloc, text(alloc, "House")?)?,
    };
    Ok(FileView { row, stage, timing })
}

/// A construction that party 5 files on parcel 1 on the day 19723.
fn filed() -> Result<FileState, Fail> {
    let applicant = party(5)?;
    Ok(FileState::file(
        applicant,
        parcel(1)?,
        Kind::Construct,
        Edition::Second,
        day(19723)?,
    ))
}

/// A construction under way, with a footing inspection requested on the day 20000.
fn requested() -> Result<FileState, Fail> {
    let fields = StateFields {
        parcel: parcel(1)?,
        applicant: party(5)?,
        contractor: Some(party(6)?),
        reviewer: Some(party(3)?),
        inspector: None,
        kind: Kind::Construct,
        edition: Edition::Second,
        filed: day(19790)?,
        stage: Stage::Working,
        deadline: Some(20180),
        done: 0,
        request: Some(Step::Footing),
        requested: Some(day(20000)?),
        ask: None,
        stopped: false,
        notices: 0,
        papers: 3,
        temporary: None,
    };
    Ok(FileState::restore(fields).ok_or("a state")?)
}

/// So many files of one state, as they are shown on a day.
fn files(alloc: Global, count: u32, state: FileState, on: Day) -> Result<Vec<FileView>, Fail> {
    let mut files = Vec::new(alloc);
    for number in 0..count {
        files.push(shown(alloc, number + 1, state, on)?)?;
    }
    Ok(files)
}

/// The register of so many files of one state on a day.
fn written(
    alloc: Global,
    kind: RegisterKind,
    count: u32,
    state: FileState,
    on: u32,
) -> Result<Vec<u8>, Fail> {
    let on = day(on)?;
    let files = files(alloc, count, state, on)?;
    let mut bytes = Vec::new(alloc);
    register(kind, on, files.as_slice(), &mut bytes).map_err(|_| "write")?;
    Ok(bytes)
}

#[test]
fn registers_of_one_file(rt: HostRuntime) -> Result<(), Fail> {
    let wanted = [
        (RegisterKind::Files, filed()?, 19723, FILES),
        (RegisterKind::Deadlines, filed()?, 19903, DEADLINES),
        (RegisterKind::Deadlines, filed()?, 19904, PAST),
        (RegisterKind::Inspections, requested()?, 20000, INSPECTIONS),
    ];
    for (kind, state, on, text) in wanted {
        let bytes = written(rt.alloc(), kind, 1, state, on)?;
        assert_eq!(rt; bytes.as_slice(), text.as_bytes());
    }
    Ok(())
}

#[test]
fn a_register_of_no_file_has_its_header_and_foot(rt: HostRuntime) -> Result<(), Fail> {
    let bytes = written(rt.alloc(), RegisterKind::Files, 0, filed()?, 19723)?;
    assert_eq!(rt;
        bytes.as_slice(),
        b" FILE PARCEL KIND      STAGE     TIMING DEADLINE           CENTS\nfiles 0\n".as_slice()
    );
    Ok(())
}

/// Hands out files as an office does, until one is answered false.
fn hand_out<T: Taker<FileView>>(files: Vec<FileView>, taker: &mut T) -> bool {
    for file in files {
        if !taker.take(file) {
            return false;
        }
    }
    true
}

#[test]
fn a_register_is_written_one_line_at_a_time(rt: HostRuntime) -> Result<(), Fail> {
    let on = day(19723)?;
    let five = files(rt.alloc(), 5, filed()?, on)?;
    let mut bytes = Vec::new(rt.alloc());
    let mut writer = RegisterWriter::new(RegisterKind::Files, on, &mut bytes);
    assert!(rt; hand_out(five, &mut writer));
    assert!(rt; writer.finish().is_ok());
    assert_eq!(rt; bytes.as_slice(), FIVE_FILES.as_bytes());
    Ok(())
}

/// What goes out of the register of five files before a writer that takes so many bytes in one write fails.
fn cut(rt: &impl Abort, alloc: Global, at_once: usize, fails_at: usize) -> Result<(), Fail> {
    let on = day(19723)?;
    let five = files(alloc, 5, filed()?, on)?;
    let mut writer = Narrow::new(at_once, fails_at);
    let outcome = register(RegisterKind::Files, on, five.as_slice(), &mut writer);
    assert!(rt; outcome == Err(ReportError::Write));
    assert!(rt; FIVE_FILES.as_bytes().starts_with(writer.taken()));
    assert_eq!(rt; writer.taken().len(), fails_at);
    Ok(())
}

#[test]
fn a_writer_that_fails_holds_the_first_bytes(rt: HostRuntime) -> Result<(), Fail> {
    for fails_at in [0, 1, 66, 67, 300, FIVE_FILES.len().wrapping_sub(1)] {
        cut(&rt, rt.alloc(), 1000, fails_at)?;
        cut(&rt, rt.alloc(), 7, fails_at)?;
    }
    Ok(())
}

#[test]
fn a_writer_that_takes_no_byte_is_a_fault(rt: HostRuntime) -> Result<(), Fail> {
    let mut writer = Narrow::new(0, 1000);
    let outcome = register(RegisterKind::Files, day(19723)?, &[], &mut writer);
    assert!(rt; outcome == Err(ReportError::Write) && writer.taken().is_empty());
    Ok(())
}

#[test]
fn a_fault_is_printed(rt: HostRuntime) -> Result<(), Fail> {
    assert_eq!(rt;
        ReportError::Write.to_string(rt.alloc())?.as_str(),
        "cannot write"
    );
    Ok(())
}
