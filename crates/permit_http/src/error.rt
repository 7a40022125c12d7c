//! Why nothing was read from a connection.

ghost use Rattle.std.specs.Prelude.{◌≡◌};
ghost use Rattle.permit_http.specs.Errors.{fault_of};

use crate::fault::Fault;

/// Why a message, or its request, could not be read. Only a fault is answered.
#[derive(Clone, Copy, PartialEq, Eq)]
pub enum WireError {
    /// The reader failed.
    ReadFailed,
    /// The input ended inside a message.
    Ended,
    /// What came has a fault.
    Fault(Fault),
}

impl WireError {
    /// The fault that is answered. To a reader that failed, and to an input that ended, nothing is.
    pub fn fault(self) -> Option<Fault>
        ensures { result ≡ fault_of self }
    {
        match self {
            WireError::ReadFailed | WireError::Ended => None,
            WireError::Fault(fault) => Some(fault),
        }
    }
}
