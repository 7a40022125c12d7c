//! The parties, each found by its number and by the digest of its token.

ghost use Rattle.std.specs.Prelude.{◌≡◌, ◌<◌, ◌≤◌, ◌==◌, [], ◌∷◌, ◌++◌, ◌+◌, length, find, map, bytes_eq, option_map, OnOk, IsTrue, false, vec_capacity};
ghost use Rattle.std.specs.HashMap.{spare};
ghost use Rattle.std.proofs.Props.{props};
ghost use Rattle.permit_base.specs.Limits.{most_records};
ghost use Rattle.permit_model.specs.Renewal.{with_digest};
ghost use Rattle.permit_store.specs.Places.{AreNumbered, LeadBefore};

use crate::plain::find::row_at;
use crate::plain::marks::{Marks, lead, lead_before, mark_of};
use crate::rows::Party;
use permit_base::values::{Digest, PartyId};
use permit_base::words::Role;
use std::alloc::{AllocError, Global};
use std::collections::HashMap;

/// The parties, numbered from 1 without a gap, so that each is at the place that its number says.
#[derive(Drop)]
pub(crate) struct Parties {
    pub(crate) rows: Vec<Party>,
    /// Their places by the digests of their tokens. The mark of a digest that was given up may lead to a party still.
    pub(crate) tokens: Marks,
    ghost few: { length rows.items ≤ most_records },
    ghost numbered: { AreNumbered (λ p. p.id) rows.items },
    ghost led: { LeadBefore (λ p. p.digest) rows.items tokens } by { Prim.hlevel props },
}

fn set_digest(party: &mut Party, digest: &Digest)
    ensures { party.new ≡ record party.old { digest = digest.now } }
{
    party.digest = *digest;
}

impl Parties {
    pub(crate) fn new(alloc: Global) -> Parties
        ensures { result.rows.items ≡ [] }
    {
        Parties {
            rows: Vec::new(alloc),
            tokens: HashMap::new(alloc),
        }
    }

    /// How many.
    pub(crate) fn count(&self) -> u32
        ensures { result ≡ length self.now.rows.items }
    {
        self.rows.len() as u32
    }

    /// The party of the number.
    pub(crate) fn numbered(&self, id: PartyId) -> Option<&Party>
        ensures { option_map (λ p. p.now) result ≡ find (λ p. p.id == id) self.now.rows.items }
    {
        row_at(&self.rows, id.get() as usize - 1)
    }

    /// The role of the party of the number.
    pub(crate) fn role(&self, id: PartyId) -> Option<Role>
        ensures { result ≡ option_map (λ p. p.role) (find (λ p. p.id == id) self.now.rows.items) }
    {
        match self.numbered(id) {
            None => None,
            Some(party) => Some(party.role),
        }
    }

    /// The party that keeps the digest.
    pub(crate) fn with_token(&self, digest: &Digest) -> Option<&Party>
        ensures { option_map (λ p. p.now) result ≡ find (λ p. bytes_eq p.digest digest.now) self.now.rows.items }
    {
        let place = *self.tokens.get(&mark_of(digest.as_str()))?;
        let first = &self.rows[place];
        if first.digest == *digest {
            return Some(first);
        }
        self.rows.iter().find(|party| {
            let party: &Party = party;
            party.digest == *digest
        })
    }

    /// Asks for room for one more.
    pub(crate) fn reserve(&mut self) -> Result<(), AllocError>
        ensures kept { self.new.rows.items ≡ self.old.rows.items }
        ensures room { OnOk result (length self.new.rows.items < vec_capacity self.new.rows) }
        ensures spare { OnOk result (0 < spare self.new.tokens) }
    {
        self.rows.reserve(1)?;
        self.reserve_mark()
    }

    /// Asks for room for one more mark.
    pub(crate) fn reserve_mark(&mut self) -> Result<(), AllocError>
        ensures kept { self.new.rows ≡ self.old.rows }
        ensures spare { OnOk result (0 < spare self.new.tokens) }
    {
        self.tokens.reserve(1)
    }

    /// Adds a party, where there may be one more and there is room for it.
    pub(crate) fn add(&mut self, party: Party)
        requires few { length self.old.rows.items < most_records }
        requires room { length self.old.rows.items < vec_capacity self.old.rows }
        requires spare { 0 < spare self.old.tokens }
        requires number { party.id ≡ length self.old.rows.items + 1 }
        ensures { self.new.rows.items ≡ self.old.rows.items ++ party ∷ [] }
    {
        let place = self.rows.len();
        lead(&mut self.tokens, mark_of(party.digest.as_str()), place);
        let _pushed = self.rows.push(party).is_ok();
    }

    /// Adds a party, where it has the next number and there is memory. False leaves them.
    pub(crate) fn push(&mut self, party: Party) -> bool
        ensures made { IsTrue result → self.new.rows.items ≡ self.old.rows.items ++ party ∷ [] }
        ensures kept { result ≡ false → self.new.rows.items ≡ self.old.rows.items }
    {
        if party.id.get() != self.count() + 1 {
            return false;
        }
        let Ok(()) = self.reserve() else {
            return false;
        };
        self.add(party);
        true
    }

    /// Gives the party of the number the digest, where there is room for one more mark.
    pub(crate) fn give(&mut self, id: PartyId, digest: &Digest)
        requires spare { 0 < spare self.old.tokens }
        ensures { self.new.rows.items ≡ map (with_digest id digest.now) self.old.rows.items }
    {
        let place = id.get() as usize - 1;
        if place < self.rows.len() {
            lead_before(&mut self.tokens, mark_of(digest.as_str()), place);
            set_digest(&mut self.rows[place], digest);
        }
    }
}
