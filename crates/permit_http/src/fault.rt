//! What is wrong with a request of bytes.

use std::alloc::AllocError;

/// What is wrong with a request, in the order in which it is tested. Each fault is answered.
///
/// The first four are those of a head, and all that reading a message finds. The others are found once a message came
/// whole, by the layer that reads it as a request.
#[derive(Clone, Copy, PartialEq, Eq)]
pub enum Fault {
    /// There is no head, or it has more than 8192 bytes or 32 fields.
    Head,
    /// The version is not 1.1, there is no Host or a second one, or something is expected.
    Version,
    /// A transfer coding, two lengths, or a length that is not 1 to 9 digits.
    Length,
    /// A body of more than 16384 bytes.
    Large,
    /// No route has the method and the path. The connection stays open.
    Route,
    /// No token, two of them, or one that is not of its form. The connection stays open.
    Caller,
    /// The body is not what the route asks for. The connection stays open.
    Body,
    /// Want of memory in reading.
    Memory,
}

impl From<AllocError> for Fault {
    ghost use Rattle.std.specs.Prelude.{◌≡◌};
    ghost use Rattle.permit_http.specs.declared.fault.Fault.TheVariants.{Memory};

    ghost from_gives = { λ _ fault. fault ≡ Memory };

    fn from(_error: AllocError) -> Fault {
        Fault::Memory
    }
}
