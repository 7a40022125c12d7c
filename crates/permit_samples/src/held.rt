//! Values that are held while steps may fail.

/// A value that is held over steps that may fail.
///
/// Each `?` ends the life of each owned value that is there, and a proof goes over that end once more for each, through
/// all variants of a request or a reply. The end of what is held is one call, whose proof is here, for any type.
pub struct Held<T: Drop> {
    /// The value.
    pub value: T,
}

impl<T: Drop> Held<T> {
    /// Holds the value.
    ///
    /// # Examples
    ///
    /// ```
    /// let held = Held::new(19700);
    /// assert!(rt; held.value == 19700);
    /// assert!(rt; held.into_inner() == 19700);
    /// ```
    pub fn new(value: T) -> Held<T> {
        Held { value }
    }

    /// The value, which is held no longer.
    pub fn into_inner(self) -> T {
        let Held { value } = self;
        value
    }
}

impl<T: Drop> Drop for Held<T> {
    fn drop(self) {
        let Held { value: _value } = self;
    }
}
