//! The codes of the words, which count from 0.

ghost use Rattle.std.specs.Prelude.{◌≡◌};
ghost use Rattle.permit_model.specs.Codes;

use permit_base::words::{Kind, PaperSort, Role, Stage, Step};

/// The code of a role.
pub(crate) fn role_code(role: Role) -> u32
    ensures { result ≡ Codes.role_code role }
{
    role as u32
}

/// The code of a kind of work.
pub(crate) fn kind_code(kind: Kind) -> u32
    ensures { result ≡ Codes.kind_code kind }
{
    kind as u32
}

/// The code of a step.
pub(crate) fn step_code(step: Step) -> u32
    ensures { result ≡ Codes.step_code step }
{
    step as u32
}

/// The code of a stage.
pub(crate) fn stage_code(stage: Stage) -> u32
    ensures { result ≡ Codes.stage_code stage }
{
    stage as u32
}

/// The code of a sort of paper.
pub(crate) fn sort_code(sort: PaperSort) -> u32
    ensures { result ≡ Codes.sort_code sort }
{
    sort as u32
}
