//! The first of typed parcels, interests and files that isn't sound.

ghost use Rattle.std.specs.Prelude.{◌≡◌, map, MatchBool, IsTrue, IfOk, IfSome};
ghost use Rattle.sqlite.specs.State.{HasCleanDisk};
ghost use Rattle.sqlite.specs.Held.{state};
ghost use Rattle.permit_sql_rows.specs.Rows.{shown_parcel, shown_interest, shown_file};
ghost use Rattle.permit_sql_rows.specs.Typed.{IsParcel, IsInterest};
ghost use Rattle.permit_sql.specs.Found.{IsGoodFile};
ghost use Rattle.permit_sql.specs.Named.{breaks};
ghost use Rattle.permit_sql.specs.First.{of_parcel, of_interest, of_file, first_in, IsFirstInterest, Passes, Names};
ghost use Rattle.permit_sql_statements.specs.Frames.{IsIdle};
ghost use Rattle.permit_sql.specs.Frames.{IsLook, OverTyped};

use crate::each::Taker;
use crate::fault::{Fault, InterestRule, ParcelRule};
use crate::row_rules::file_rule;
use crate::texts::{EACH_FILE, EACH_INTEREST, EACH_PARCEL};
use crate::typed::takes_all;
use crate::untyped_rule::number_in;
use permit_base::values::Day;
use permit_base::words::{Edition, Role};
use permit_sql_rows::decode::{interest_in, owner_in, state_in};
use permit_store::store::Got;
use sqlite::{Alter, Connection, Row};

/// How many parties there are, and the parcel whose owner isn't among them.
#[derive(Drop)]
struct Owned {
    parties: u32,
    fault: Option<Fault>,
}

impl Taker for Owned {
    ghost took = { λ a row b good. MatchBool good
        ((b.parties ≡ a.parties) × Passes IsParcel shown_parcel (of_parcel a.parties) row)
        (Names IsParcel shown_parcel (of_parcel a.parties) row b.fault) };

    fn take(&mut self, row: &Row) -> bool {
        let Some(owner) = owner_in(row) else {
            return false;
        };
        if owner.get() <= self.parties {
            return true;
        }
        self.fault = Some(Fault::Parcel {
            number: number_in(row, 0),
            rule: ParcelRule::Owner,
        });
        false
    }
}

/// The first of the typed parcels whose owner isn't among so many parties.
pub(crate) fn parcel_fault<S: Alter>(
    conn: &mut Connection<S>,
    edition: Edition,
    parties: u32,
) -> Got<Option<Fault>>
    requires idle { IsIdle conn.old }
    ensures named { HasCleanDisk (state S.Store conn.new)
        → OverTyped S.Store edition conn.old (λ t. parties ≡ t.desk.parties → IfOk result (λ o. IfSome o (λ fault. IsTrue (breaks t fault)))) }
    ensures first { HasCleanDisk (state S.Store conn.new)
        → OverTyped S.Store edition conn.old (λ t. IfOk result (λ o. o ≡ first_in (of_parcel parties) t.parcels)) }
    ensures look { IsLook S.Store conn.old conn.new result }
{
    let mut owned = Owned {
        parties,
        fault: None,
    };
    if takes_all(conn, edition, EACH_PARCEL, &mut owned)? {
        return Ok(None);
    }
    Ok(owned.fault)
}

/// How many parcels and parties there are, and the interest whose parcel or party isn't among them.
#[derive(Drop)]
struct Declared {
    parcels: u32,
    parties: u32,
    fault: Option<Fault>,
}

impl Taker for Declared {
    ghost took = { λ a row b good. MatchBool good
        ((b.parcels ≡ a.parcels) × (b.parties ≡ a.parties) × Passes IsInterest shown_interest (of_interest a.parcels a.parties) row)
        (Names IsInterest shown_interest (of_interest a.parcels a.parties) row b.fault) };

    fn take(&mut self, row: &Row) -> bool {
        let Some((parcel, party)) = interest_in(row) else {
            return false;
        };
        let rule = if parcel.get() > self.parcels {
            InterestRule::Parcel
        } else if party.get() > self.parties {
            InterestRule::Party
        } else {
            return true;
        };
        self.fault = Some(Fault::Interest {
            parcel: number_in(row, 0),
            party: number_in(row, 1),
            rule,
        });
        false
    }
}

/// The first of the typed interests whose parcel or party isn't among so many.
pub(crate) fn interest_fault<S: Alter>(
    conn: &mut Connection<S>,
    edition: Edition,
    parcels: u32,
    parties: u32,
) -> Got<Option<Fault>>
    requires idle { IsIdle conn.old }
    ensures named { HasCleanDisk (state S.Store conn.new)
        → OverTyped S.Store edition conn.old (λ t. parcels ≡ t.desk.parcels → parties ≡ t.desk.parties
        → IfOk result (λ o. IfSome o (λ fault. IsTrue (breaks t fault)))) }
    ensures first { HasCleanDisk (state S.Store conn.new)
        → OverTyped S.Store edition conn.old (λ t. IfOk result (IsFirstInterest parcels parties t.interests)) }
    ensures look { IsLook S.Store conn.old conn.new result }
{
    let mut declared = Declared {
        parcels,
        parties,
        fault: None,
    };
    if takes_all(conn, edition, EACH_INTEREST, &mut declared)? {
        return Ok(None);
    }
    Ok(declared.fault)
}

/// What files are tested against, and the file that breaks a rule.
#[derive(Drop)]
struct Tested {
    upgrade: Option<u32>,
    roles: Vec<Role>,
    parcels: u32,
    last: Day,
    fault: Option<Fault>,
}

impl Taker for Tested {
    ghost took = { λ a row b good. MatchBool good
        ((b.upgrade ≡ a.upgrade) × (b.roles.items ≡ a.roles.items) × (b.parcels ≡ a.parcels) × (b.last ≡ a.last)
        × Passes (IsGoodFile a.upgrade) shown_file (of_file a.roles.items a.parcels a.last) row)
        (Names (IsGoodFile a.upgrade) shown_file (of_file a.roles.items a.parcels a.last) row b.fault) };

    fn take(&mut self, row: &Row) -> bool {
        let Some(state) = state_in(row, self.upgrade) else {
            return false;
        };
        let Some(rule) = file_rule(&self.roles, self.parcels, self.last, &state) else {
            return true;
        };
        self.fault = Some(Fault::File {
            number: number_in(row, 0),
            rule,
        });
        false
    }
}

/// The first of the typed files that breaks a rule without its papers.
pub(crate) fn file_fault<S: Alter>(
    conn: &mut Connection<S>,
    edition: Edition,
    upgrade: Option<u32>,
    roles: Vec<Role>,
    parcels: u32,
    last: Day,
) -> Got<Option<Fault>>
    requires idle { IsIdle conn.old }
    ensures named { HasCleanDisk (state S.Store conn.new)
        → OverTyped S.Store edition conn.old (λ t. t.upgrade ≡ upgrade → roles.items ≡ map (λ p. p.role) t.parties → parcels ≡ t.desk.parcels
        → last ≡ t.desk.last → IfOk result (λ o. IfSome o (λ fault. IsTrue (breaks t fault)))) }
    ensures first { HasCleanDisk (state S.Store conn.new)
        → OverTyped S.Store edition conn.old (λ t. t.upgrade ≡ upgrade → IfOk result (λ o. o ≡ first_in (of_file roles.items parcels last) t.files)) }
    ensures look { IsLook S.Store conn.old conn.new result }
{
    let mut tested = Tested {
        upgrade,
        roles,
        parcels,
        last,
        fault: None,
    };
    if takes_all(conn, edition, EACH_FILE, &mut tested)? {
        return Ok(None);
    }
    Ok(tested.fault)
}
