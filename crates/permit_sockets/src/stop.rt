//! The flag that ends the serving of an office.

use std::alloc::Global;
use std::sync::Arc;
use std::sync::atomic::{AtomicBool, Ordering};

/// A flag that is set once the office can't be served any longer.
pub type Flag = Arc<AtomicBool, Global>;

/// That a flag was found set. Only `seen` makes one.
#[derive(Drop)]
pub struct Stop {
    seen: (),
}

impl Stop {
    /// Looks at a flag.
    ///
    /// # Examples
    ///
    /// ```
    /// let flag = Arc::new(alloc, AtomicBool::new(false))?;
    /// assert!(rt; Stop::seen(&flag).is_none());
    /// flag.store(true, Ordering::SeqCst);
    /// assert!(rt; Stop::seen(&flag).is_some());
    /// ```
    pub fn seen(flag: &Flag) -> Option<Stop> {
        if flag.load(Ordering::SeqCst) {
            Some(Stop { seen: () })
        } else {
            None
        }
    }
}
