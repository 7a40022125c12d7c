//! Why a method, a path and a body are no request.

use std::alloc::AllocError;

/// Why no request was made of a method, a path and a body.
#[derive(Clone, Copy, PartialEq, Eq)]
pub enum RequestFault {
    /// The method and the path have no route.
    Route,
    /// They have one, and the body doesn't mean a request of it.
    Body,
    /// Memory was refused while the request was read.
    Memory,
}

impl From<AllocError> for RequestFault {
    ghost use Rattle.std.specs.Prelude.{◌≡◌};
    ghost use Rattle.permit_routes.specs.declared.fault.RequestFault.TheVariants.{Memory};

    ghost from_gives = { λ _ fault. fault ≡ Memory };

    fn from(_error: AllocError) -> RequestFault {
        RequestFault::Memory
    }
}
