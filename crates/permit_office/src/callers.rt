//! Who asks: the caller that has a digest, on a day that isn't below the last.

ghost use Rattle.std.specs.Prelude.{◌≡◌, IfErr, IfOk};
ghost use Rattle.permit_store.specs.Frames.{IsRead, OverTables};
ghost use Rattle.permit_office.specs.Callers.{RefusesCaller, caller_in};

use permit_base::refusal::Refusal;
use permit_base::values::{Day, Digest};
use permit_store::rows::{Desk, Party};
use permit_store::store::{Got, Store};

/// The caller that has the digest, with the desk, or why its request is refused: nobody has the digest, or the day is below
/// the last.
pub(crate) fn known_caller<S: Store>(
    store: &mut S,
    digest: &Digest,
    day: Day,
) -> Got<Result<(Party, Desk), Refusal>>
    ensures known { OverTables (S.view store.old) (S.view store.new) (λ t.
        IfOk result (λ told. told ≡ caller_in t digest.now day)) }
    ensures told { IfOk result (λ told. IfErr told RefusesCaller) }
    ensures read { IsRead (S.view store.old) (S.view store.new) result }
{
    let Some(caller) = store.party_by_token(digest)? else {
        return Ok(Err(Refusal::Caller));
    };
    let desk = store.desk()?;
    if day.get() < desk.last.get() {
        return Ok(Err(Refusal::Clock));
    }
    Ok(Ok((caller, desk)))
}
