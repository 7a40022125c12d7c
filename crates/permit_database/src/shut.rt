//! The flag that a store sets once a fault of the disk has shut its database, and that ends the serving.

use permit_sockets::connections::Flag;
use std::alloc::{AllocError, Global};
use std::sync::Arc;
use std::sync::atomic::AtomicBool;

/// A flag that isn't set, twice: for what sets it, and for what looks at it.
pub(crate) fn flag(alloc: Global) -> Result<(Flag, Flag), AllocError> {
    let set = Arc::new(alloc, AtomicBool::new(false))?;
    let seen = Arc::try_clone(&set)?;
    Ok((set, seen))
}
