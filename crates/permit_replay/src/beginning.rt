//! What a text may begin with.

use permit_base::values::Digest;
use permit_store::plain::PlainStore;

/// A copy in memory of the tables of an office, as they were on the day on which its text begins.
#[derive(Drop)]
pub struct CopiedTables {
    pub store: PlainStore,
    /// The digest of the text of the tables, by which the text's first line names them.
    pub tables: Digest,
}

/// What a text may begin with. The founding of the office is always one.
#[derive(Drop)]
pub enum Beginning {
    /// Nothing but that.
    Founding,
    /// Or the tables that the office had before.
    Copy(CopiedTables),
}
