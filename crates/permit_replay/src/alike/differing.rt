//! The places at which two stores may differ.

/// A place at which two stores may differ.
#[derive(Clone, Copy, PartialEq, Eq)]
pub enum Difference {
    /// The edition, the last day, or how many parties, parcels or files there are.
    Desk,
    /// The party of this number.
    Party(u32),
    /// The parcel of this number.
    Parcel(u32),
    /// The interests that are declared.
    Interests,
    /// The file of this number: its row, or its papers.
    File(u32),
}
