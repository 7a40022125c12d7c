//! Rows of files that are restored. What is done to a file is in the scenarios.

use permit_base::words::{Edition, Kind, Stage, Step};
use permit_core::restore::StateFields;
use permit_core::state::FileState;
use permit_samples::makers::{day, parcel, party};
use std::test::Fail;

/// A row that keeps to the facts of its type is restored, and one that does not is refused.
#[test]
fn rows_are_restored(rt: HostRuntime) -> Result<(), Fail> {
    let filed = day(19723)?;
    let fields = FileState::file(
        party(5)?,
        parcel(1)?,
        Kind::Construct,
        Edition::Second,
        filed,
    )
    .fields();
    let certified = StateFields {
        stage: Stage::Certified,
        ..fields
    };
    let requested = StateFields {
        request: Some(Step::Slab),
        requested: Some(filed),
        ..fields
    };
    let restored = FileState::restore(fields).ok_or("a sound row")?;
    assert!(rt; restored.deadline() == Some(19903));
    assert!(rt; FileState::restore(certified).is_none());
    assert!(rt; FileState::restore(requested).is_none());
    Ok(())
}
