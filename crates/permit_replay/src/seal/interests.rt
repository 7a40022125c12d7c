//! The interests in rising order.

ghost use Rattle.std.specs.Prelude.{◌≡◌};
ghost use Rattle.std.specs.List.Sorted.{IsStrictlySortedBy};
ghost use Rattle.permit_store.specs.Interests.{DeclareSame};
ghost use Rattle.permit_replay.specs.Sealing.{interest_order};

use permit_store::rows::Interest;

/// The interests by parcel, and those of a parcel by party, each once.
pub(crate) fn in_order(mut interests: Vec<Interest>) -> Vec<Interest>
    ensures rising { IsStrictlySortedBy interest_order result.items }
    ensures declared { DeclareSame result.items interests.items }
{
    interests.sort_unstable_by_key(|one| {
        let one: &Interest = one;
        (one.parcel.get(), one.party.get())
    });
    interests.dedup_by_key(|sorted| {
        let sorted: &mut Interest = sorted;
        (sorted.parcel.get(), sorted.party.get())
    });
    interests
}
