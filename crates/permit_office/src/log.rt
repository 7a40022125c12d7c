//! What every log of an office promises, and the log of an office without a history.

ghost use Rattle.std.specs.Prelude.{◌≡◌, true, Bool, OnOk, OnErr};
ghost use Rattle.permit_store.specs.Frames.{StoreView};
ghost use Rattle.permit_office.specs.Logs.{Noted, note, IsStill, IsWithdrawing};

use permit_base::request::Request;
use permit_base::values::{Day, PartyId};
use permit_store::store::{Got, Store};

/// What an office enters before a command is done.
///
/// What a call does is a relation of the log before the call and after it: what a log promises beyond these clauses, as that a
/// file has the command's line, it says by the relations that it gives.
pub trait Log {
    /// It takes commands. Where it doesn't, the office refuses each request for the store, and does nothing.
    ghost is_open: { Self → Bool };

    /// A command was entered: the log before, what was entered, and the log after.
    ghost entered: { Self → Noted → Self → Type 0 };

    /// A command couldn't be entered: the log before, what was to be entered, and the log after.
    ghost refused: { Self → Noted → Self → Type 0 };

    /// A command that had been entered wasn't done: the log before it was entered, what was entered, the store before the
    /// withdrawing and after it, and the log after.
    ghost withdrawn: { Self → Noted → StoreView → StoreView → Self → Type 0 };

    /// Whether it takes commands.
    fn is_open(&self) -> bool
        ensures { result ≡ is_open self.now };

    /// Enters the caller's command on the day, which is admitted and isn't done yet. It gives its record this number, if it
    /// makes one.
    fn enter(
        &mut self,
        caller: PartyId,
        request: &Request,
        number: Option<u32>,
        day: Day,
    ) -> Got<()>
        ensures entered { OnOk result (entered self.old (note caller request.now number day) self.new) }
        ensures refused { OnErr result (refused self.old (note caller request.now number day) self.new) };

    /// Withdraws the command that was entered last, since the store failed to do it. It may read the desk, to find out whether
    /// the store can still be read.
    fn withdraw<S: Store>(&mut self, store: &mut S)
        ensures withdrawn { (before : Self) (noted : Noted) → entered before noted self.old
            → withdrawn before noted (S.view store.old) (S.view store.new) self.new }
        ensures withdrawing { IsWithdrawing (S.view store.old) (S.view store.new) };
}

/// The log of an office without a history: nothing is entered, and nothing is ever refused.
///
/// # Examples
///
/// ```
/// let Ok(mut office) = Office::open(store, policy, NoLog) else {
///     return Err(Fail::new("no office"));
/// };
/// ```
#[derive(Clone, Copy)]
pub struct NoLog;

impl Log for NoLog {
    ghost is_open = { λ log. true };

    ghost entered = { λ before noted after. after ≡ before };

    ghost refused = { λ before noted after. ⊥ };

    ghost withdrawn = { λ before noted old new after. (after ≡ before) × IsStill old new };

    fn is_open(&self) -> bool {
        true
    }

    fn enter(
        &mut self,
        _caller: PartyId,
        _request: &Request,
        _number: Option<u32>,
        _day: Day,
    ) -> Got<()> {
        Ok(())
    }

    fn withdraw<S: Store>(&mut self, _store: &mut S) {}
}
