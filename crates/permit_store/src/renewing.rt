//! Stores that give a party another token.

ghost use Rattle.std.specs.Prelude.{◌≡◌, ◌≤◌};
ghost use Rattle.permit_model.specs.Renewal.{with_renewed};
ghost use Rattle.permit_model.specs.Tables.{Tables};
ghost use Rattle.permit_store.specs.Counts.{failed_after};
ghost use Rattle.permit_store.specs.Frames.{OverTables};
ghost use Rattle.permit_store.specs.Renewing.{Renews};

use crate::store::{Got, Store};
use permit_base::refusal::Refusal;
use permit_base::values::{Digest, PartyId};

/// A store that can give a party another token, of which it keeps the digest.
pub trait Renewing: Store {
    /// Gives a party another digest: the tables are then those of the same history in which the party had a token of that
    /// digest. It refuses a number that no party has as `Record`, and a digest that a party has, be it this one, as
    /// `NotAdmitted` for `Taken`. With a refusal or a failure the tables are as before. A crash inside leaves the tables as
    /// they were, or with the digest.
    fn renew(&mut self, party: PartyId, digest: &Digest) -> Got<Result<(), Refusal>>
        ensures renewed { OverTables (Self.view self.old) (Self.view self.new) (λ t. Renews (Self.view self.new).holds party digest.now t result) }
        ensures doubt { (Self.view self.old).doubt ≤ (Self.view self.new).doubt }
        ensures failed { (Self.view self.new).failed ≡ failed_after result (Self.view self.old).failed }
        ensures handed { (Self.view self.new).handed ≡ (Self.view self.old).handed }
        ensures commits { (Self.view self.new).commits ≡ (Self.view self.old).commits }
        ensures crash { (t : Tables) → Self.crash self.old self.new t (λ left. left (with_renewed party digest.now t)) };
}
