//! The steps of a kind of work.

ghost use Rattle.std.specs.Prelude.{◌≡◌, slice_get};
ghost use Rattle.permit_model.specs.Steps;

use permit_base::words::{Edition, Kind, Step};

/// The steps that the kind requires of a file of the edition, in the order in which they are approved.
pub fn required_steps(edition: Edition, kind: Kind) -> &'static [Step]
    ensures { result.now ≡ Steps.required_steps edition kind }
{
    match (edition, kind) {
        (Edition::First, Kind::Construct | Kind::Enlarge) => &[
            Step::Footing,
            Step::Slab,
            Step::Frame,
            Step::Lath,
            Step::Final,
        ],
        (Edition::Second, Kind::Construct | Kind::Enlarge) => &[
            Step::Footing,
            Step::Slab,
            Step::Frame,
            Step::Energy,
            Step::Lath,
            Step::Final,
        ],
        (Edition::First, Kind::Alter) => &[Step::Frame, Step::Lath, Step::Final],
        (Edition::Second, Kind::Alter) => &[Step::Frame, Step::Energy, Step::Lath, Step::Final],
        (_, Kind::Repair) => &[Step::Frame, Step::Final],
        (_, Kind::Move) => &[Step::Footing, Step::Frame, Step::Final],
        (_, Kind::Demolish | Kind::Occupancy) => &[Step::Final],
    }
}

/// The step at a place among those that the kind requires of a file of the edition, if there are so many.
pub fn step_at(edition: Edition, kind: Kind, place: u8) -> Option<Step>
    ensures { result ≡ slice_get (Steps.required_steps edition kind) place }
{
    required_steps(edition, kind).get(place as usize).copied()
}

/// Whether certificates of occupancy, final and temporary, are given for the kind (IBC 2018, section 111).
pub fn has_certificates(kind: Kind) -> bool
    ensures { result ≡ Steps.has_certificates kind }
{
    match kind {
        Kind::Construct | Kind::Enlarge | Kind::Alter | Kind::Move | Kind::Occupancy => true,
        Kind::Repair | Kind::Demolish => false,
    }
}
