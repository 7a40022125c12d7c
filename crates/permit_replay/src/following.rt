//! Taking an entry after the founding and the upgrade, on any store.

ghost use Rattle.std.specs.Prelude.{◌≡◌, ◌≤◌, ℕ, List, IfOk, IfErr, Err};
ghost use Rattle.permit_base.specs.Digests.{digest_of};
ghost use Rattle.permit_history.specs.LineData.{act_number};
ghost use Rattle.permit_history.specs.declared.entry.Deed.TheVariants as deed;
ghost use Rattle.permit_model.specs.History.{History};
ghost use Rattle.permit_model.specs.Tables.{Tables};
ghost use Rattle.permit_store.specs.Counts.{failed_after};
ghost use Rattle.permit_store.specs.Frames.{OverTables};
ghost use Rattle.permit_office.specs.Accepting.{AnswersCommand};
ghost use Rattle.permit_office.specs.Answers.{reply_of};
ghost use Rattle.permit_replay.specs.Against.{is_same, against_reply};
ghost use Rattle.permit_replay.specs.Histories.{HasToken, HasTokenIn, Unsaid};
ghost use Rattle.permit_replay.specs.Holding.{Follows, HoldsHistory, IsAgainst, UnlessNumbered, failed_count};
ghost use Rattle.permit_replay.specs.declared.fault.Why.TheVariants as why;

use crate::fault::Why;
use crate::recorded::recorded;
use permit_base::values::{Day, Digest, PartyId};
use permit_history::entry::{Act, Deed};
use permit_office::accepting::accept;
use permit_office::reply::Reply;
use permit_store::renewing::Renewing;
use permit_store::store::{Got, Store};

/// Whether two numbers, or the lack of them, are the same.
fn is_same(first: Option<u32>, second: Option<u32>) -> bool
    ensures { result ≡ is_same first second }
{
    match (first, second) {
        (None, None) => true,
        (Some(first), Some(second)) => first == second,
        (None, Some(_)) | (Some(_), None) => false,
    }
}

/// What the office's answer to a command says of an entry with this number.
fn judge(answer: Got<Reply>, number: Option<u32>) -> Result<(), Why>
    requires { IfOk answer AnswersCommand }
    ensures answered { IfOk answer (λ reply. IsAgainst result (against_reply number (reply_of reply))) }
    ensures failed { IfErr answer (λ e. result ≡ Err why.Memory) }
    ensures counted { (n : ℕ) → failed_count result n ≡ failed_after answer n }
{
    match &answer {
        Ok(Reply::Done { number: made }) => {
            if is_same(*made, number) {
                Ok(())
            } else {
                Err(Why::Number)
            }
        }
        Ok(Reply::Refused(refusal)) => Err(Why::Refused(*refusal)),
        Ok(Reply::Parcel(_) | Reply::File(_, _) | Reply::Listed(_) | Reply::Register { .. }) => {
            unreachable!()
        }
        Err(_) => Err(Why::Memory),
    }
}

/// Takes a command of the day with this number.
fn follow_command<S: Store>(
    store: &mut S,
    day: Day,
    caller: PartyId,
    act: &Act,
    number: Option<u32>,
) -> Result<(), Why>
    requires { number ≡ act_number act.now }
    ensures follows { (S.view store.new).doubt ≡ 0 → (h : History) → HoldsHistory (S.view store.old).holds h
        → (unsaid : Unsaid) → HasTokenIn unsaid.token_of act.now
        → Follows (S.view store.new).holds unsaid h day (deed.Accepted caller act.now) result }
    ensures kept { (t : Tables) → (S.view store.old).holds t → UnlessNumbered result ((S.view store.new).holds t) }
    ensures doubt { (S.view store.old).doubt ≤ (S.view store.new).doubt }
    ensures failed { (S.view store.new).failed ≡ failed_count result (S.view store.old).failed }
{
    let answer = accept(store, caller, &recorded(act), day);
    judge(answer, number)
}

/// Gives a party another token.
fn follow_renewal<S: Renewing>(store: &mut S, party: PartyId, digest: &Digest) -> Result<(), Why>
    ensures follows { (S.Store.view store.new).doubt ≡ 0 → (h : History) → HoldsHistory (S.Store.view store.old).holds h
        → (unsaid : Unsaid) (day : ℕ) → digest.now ≡ digest_of (unsaid.token_of digest.now)
        → Follows (S.Store.view store.new).holds unsaid h day (deed.RenewToken party digest.now) result }
    ensures kept { OverTables (S.Store.view store.old) (S.Store.view store.new) (λ t. UnlessNumbered result ((S.Store.view store.new).holds t)) }
    ensures doubt { (S.Store.view store.old).doubt ≤ (S.Store.view store.new).doubt }
    ensures failed { (S.Store.view store.new).failed ≡ failed_count result (S.Store.view store.old).failed }
{
    match store.renew(party, digest) {
        Ok(Ok(())) => Ok(()),
        Ok(Err(refusal)) => Err(Why::Refused(refusal)),
        Err(_) => Err(Why::Memory),
    }
}

/// Takes an entry after the founding and the upgrade on a store that holds the tables of the history before it, where nothing
/// is against it. Otherwise it answers why, and the tables are as before, unless a command was done whose number is another
/// than the entry says.
///
/// # Examples
///
/// ```
/// let renewal = Deed::RenewToken { party, digest };
/// assert!(rt; follow(&mut store, day, &renewal).is_ok());
/// assert!(rt; store.party_by_token(&digest)?.is_some());
/// let again = follow(&mut store, day, &Deed::Upgrade);
/// assert!(rt; matches!(again, Err(Why::SecondUpgrade)));
/// ```
pub fn follow<S: Renewing>(store: &mut S, day: Day, deed: &Deed) -> Result<(), Why>
    ensures follows { (S.Store.view store.new).doubt ≡ 0 → (h : History) → HoldsHistory (S.Store.view store.old).holds h
        → (unsaid : Unsaid) → HasToken unsaid deed.now
        → Follows (S.Store.view store.new).holds unsaid h day deed.now result }
    ensures kept { OverTables (S.Store.view store.old) (S.Store.view store.new) (λ t. UnlessNumbered result ((S.Store.view store.new).holds t)) }
    ensures doubt { (S.Store.view store.old).doubt ≤ (S.Store.view store.new).doubt }
    ensures failed { (S.Store.view store.new).failed ≡ failed_count result (S.Store.view store.old).failed }
{
    match deed {
        Deed::Begin { .. } => Err(Why::SecondBeginning),
        Deed::Found { .. } => Err(Why::SecondFounding),
        Deed::Upgrade => Err(Why::SecondUpgrade),
        Deed::RenewToken { party, digest } => follow_renewal(store, *party, digest),
        Deed::Accepted { caller, act } => follow_command(store, day, *caller, act, deed.number()),
    }
}
