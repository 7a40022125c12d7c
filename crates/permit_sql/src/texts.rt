//! The texts that read whole tables at an open.

/// Every party, in rising number.
pub(crate) const EACH_PARTY: &str = "SELECT id, name, role, digest FROM party ORDER BY id";

/// Every parcel, in rising number.
pub(crate) const EACH_PARCEL: &str = "SELECT id, lot, address, owner FROM parcel ORDER BY id";

/// Every interest.
pub(crate) const EACH_INTEREST: &str = "SELECT parcel, party FROM interest";

/// Every file, in rising number.
pub(crate) const EACH_FILE: &str =
    "SELECT id, parcel, applicant, contractor, reviewer, inspector, kind, valuation, description, filed, stage, deadline, done, request, requested, ask, stopped, notices, papers, temporary FROM file ORDER BY id";

/// Every paper, by file and in rising number.
pub(crate) const EACH_PAPER: &str =
    "SELECT file, number, day, author, sort, days, text, terms, open FROM paper ORDER BY file, number";

/// The rowid of every paper, rising.
pub(crate) const EACH_ROWID: &str = "SELECT rowid FROM paper ORDER BY rowid";
