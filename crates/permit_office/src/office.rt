//! The office and its steps.

ghost use Rattle.std.specs.Prelude.{◌≡◌, ◌≤◌, IfOk, IfErr, OnErr};
ghost use Rattle.permit_base.specs.Digests.{digest_of};
ghost use Rattle.permit_base.specs.declared.request.Request.TheVariants as request;
ghost use Rattle.permit_model.specs.Tables.{tables};
ghost use Rattle.permit_model.specs.Machine.{step_as, step};
ghost use Rattle.permit_store.specs.Frames.{IsRead, OverHistory};
ghost use Rattle.permit_store.specs.declared.store.OpenError.TheVariants as open_error;
ghost use Rattle.permit_office.specs.Answers.{Answers};
ghost use Rattle.permit_office.specs.Frames.{IsStep, Steps};
ghost use Rattle.permit_office.specs.Opening.{rows_opened};
ghost use Rattle.permit_office.specs.Runs.{Ran};
ghost use Rattle.permit_office.specs.Showing.{IsShowing, OpensAt, Shows, ShowsSome};
ghost use Rattle.permit_office.specs.Sound.{KeepsSound};
ghost use Rattle.permit_office.specs.Stops.{StopsAt};

use crate::dispatch::attempt;
use crate::log::{Log, NoLog};
use crate::reply::Reply;
use crate::showing::{RowsEnd, show};
use permit_base::digests::digest;
use permit_base::refusal::Refusal;
use permit_base::request::{Asked, Filter, Request};
use permit_base::values::{Day, Digest, Token};
use permit_core::taker::Taker;
use permit_policy::Policy;
use permit_store::rows::FileView;
use permit_store::store::{OpenError, Store};
use std::alloc::{AllocError, Global};
use std::marker::Model;

/// The office over a store, with a policy and a log. Contracts see the three.
///
/// A command is decided first, without a change. Then it is entered into the log, and then it is done; its answer comes after
/// both. Where it can't be entered nothing is done, and where the store fails to do it, it is withdrawn from the log. An office
/// without a history has `NoLog`, into which nothing is entered.
///
/// What its calls promise of a store that keeps its tables on a disk, they promise while the disk has given back
/// what was written: then the store is without doubt. Memory always gives back what was written.
#[derive(Drop)]
pub struct Office<S: Store, L: Log = NoLog> {
    store: S,
    policy: Policy,
    log: L,
}

impl<S: Store, L: Log> Model for Office<S, L> {
    ghost use Rattle.permit_office.specs.Office.{OfficeView};

    ghost Value = { OfficeView S L };

    ghost view = { λ o. record { store = o.store; policy = o.policy; log = o.log } };
}

impl<S: Store + Drop> Office<S, NoLog> {
    /// The store of an office without a history, with its content as it is.
    ///
    /// # Examples
    ///
    /// ```
    /// let mut store = office.into_store();
    /// assert!(rt; store.desk()?.files == 0);
    /// ```
    pub fn into_store(self) -> S
        ensures { result ≡ self.store }
    {
        let (store, _log) = self.into_parts();
        store
    }
}

impl<S: Store + Drop, L: Log + Drop> Office<S, L> {
    /// The office over a store, with a policy and a log. It reads the desk; where that fails, the store comes back with its
    /// content as it was, the log as it was, and `OpenError::Store`.
    ///
    /// # Examples
    ///
    /// ```
    /// let Ok(mut office) = Office::open(store, policy, NoLog) else {
    ///     return Err(Fail::new("no office"));
    /// };
    /// ```
    pub fn open(mut store: S, policy: Policy, log: L) -> Result<Office<S, L>, (S, L, OpenError)>
        ensures opened { IfOk result (λ office. IsRead (S.view store) (S.view office.store) result) }
        ensures policy { IfOk result (λ office. office.policy ≡ policy) }
        ensures log { IfOk result (λ office. office.log ≡ log) }
        ensures back { IfErr result (λ back. IsRead (S.view store) (S.view back.0) result) }
        ensures log_kept { IfErr result (λ back. back.1 ≡ log) }
        ensures refusal { IfErr result (λ back. back.2 ≡ open_error.Store) }
    {
        match store.desk() {
            Ok(_) => Ok(Office { store, policy, log }),
            Err(_) => Err((store, log, OpenError::Store)),
        }
    }

    /// Whether the log takes commands: where it doesn't, each request is refused for the store.
    pub fn is_open(&self) -> bool
        ensures { result ≡ L.is_open self.now.log }
    {
        self.log.is_open()
    }

    /// The store, with its content as it is, and the log.
    ///
    /// # Examples
    ///
    /// ```
    /// let (mut store, _log) = office.into_parts();
    /// assert!(rt; store.desk()?.files == 0);
    /// ```
    pub fn into_parts(self) -> (S, L)
        ensures store { result.0 ≡ self.store }
        ensures log { result.1 ≡ self.log }
    {
        let Office {
            store,
            policy: _policy,
            log,
        } = self;
        (store, log)
    }

    /// One step for a request of the party that keeps the digest, on the day.
    ///
    /// The refusals are tested in the order caller, clock, record, denied, not admitted; the first that applies
    /// is answered, and nothing has changed. Only an accepted command changes the tables, by one commit, and
    /// moves the last day; it leaves sound tables sound, also those that no history makes. It is entered into the log
    /// before. A listing has no test but the first two; its files are found by the selections that the policy's rules
    /// give, and no other row is read. The refusal for the store comes exactly where a call of the store failed, where
    /// the log failed, or where memory was refused to a listing; then, too, nothing has changed. Where the log takes no
    /// commands each request is refused so, also one that only reads, and nothing is called.
    pub fn step_as(&mut self, digest: &Digest, request: &Request, day: Day) -> Reply
        ensures model { OverHistory (S.view self.old.store) (S.view self.new.store) (λ h.
            Answers (S.view self.new.store).holds result (step_as self.old.policy h digest.now request.now day) h) }
        ensures sound { KeepsSound (S.view self.old.store) (S.view self.new.store) }
        ensures step { IsStep S.view L.Log digest.now request.now day self.old self.new result }
    {
        match attempt(
            &mut self.store,
            &mut self.log,
            &self.policy,
            digest,
            request,
            day,
        ) {
            Ok(reply) => reply,
            Err(_) => Reply::Refused(Refusal::Store),
        }
    }

    /// One step for a request with its caller's token, on the day: `step_as` on the token's digest.
    ///
    /// # Examples
    ///
    /// ```
    /// let request = Request::ListFiles {
    ///     filter: Filter::All,
    /// };
    /// let reply = office.step(&Asked { token, request }, day);
    /// assert!(rt; matches!(reply, Reply::Listed(_)));
    /// ```
    pub fn step(&mut self, asked: &Asked, day: Day) -> Reply
        ensures model { OverHistory (S.view self.old.store) (S.view self.new.store) (λ h.
            Answers (S.view self.new.store).holds result (step self.old.policy h asked.now day) h) }
        ensures sound { KeepsSound (S.view self.old.store) (S.view self.new.store) }
        ensures step { IsStep S.view L.Log (digest_of asked.now.token) asked.now.request day self.old self.new result }
    {
        match digest(&asked.token) {
            Ok(digest) => self.step_as(&digest, &asked.request, day),
            Err(_) => Reply::Refused(Refusal::Store),
        }
    }

    /// Hands the files that the token's party may list on the day to the taker, in rising number and each once, until it
    /// asks to stop. The refusals are those of a request to list them.
    ///
    /// Where one selection finds all these files, each goes to the taker as the store hands it out: no list is kept, and
    /// no row after the file at which the taker stops is read. Where it takes several, the files are listed first.
    ///
    /// It only reads, so nothing is entered into the log, and the log isn't asked whether it takes commands.
    pub fn rows<T: Taker<FileView>>(
        &mut self,
        token: &Token,
        day: Day,
        wanted: Filter,
        taker: &mut T,
    ) -> RowsEnd
        ensures shown { OverHistory (S.view self.old.store) (S.view self.new.store) (λ h.
            Shows T.took (step_as self.old.policy h (digest_of token.now) (request.ListFiles wanted) day).reply taker.old taker.new result) }
        ensures some { ShowsSome T.took taker.old taker.new result }
        ensures opened { OverHistory (S.view self.old.store) (S.view self.new.store) (λ h.
            OpensAt (rows_opened self.old.policy h (digest_of token.now) (request.ListFiles wanted) day) result
            (S.view self.old.store).handed (S.view self.new.store).handed) }
        ensures stopped { OverHistory (S.view self.old.store) (S.view self.new.store) (λ h.
            StopsAt T.took self.old.policy h (digest_of token.now) day wanted result taker.old taker.new
            (S.view self.old.store).handed (S.view self.new.store).handed) }
        ensures showing { IsShowing (S.view self.old.store) (S.view self.new.store) result }
        ensures policy { self.new.policy ≡ self.old.policy }
        ensures log { self.new.log ≡ self.old.log }
    {
        match digest(token) {
            Ok(digest) => show(&mut self.store, &self.policy, &digest, day, wanted, taker),
            Err(_) => RowsEnd::Refused(Refusal::Store),
        }
    }

    /// Serves requests on their days, in order. Room for all replies is made first, so an error means that nothing
    /// was done. A request that is refused for the store has its refusal at its place, and has changed nothing.
    pub fn run(
        &mut self,
        alloc: Global,
        requests: &[(Asked, Day)],
    ) -> Result<Vec<Reply>, AllocError>
        ensures model { OverHistory (S.view self.old.store) (S.view self.new.store) (λ h.
            IfOk result (λ replies. Ran (S.view self.new.store).holds self.old.policy requests.now replies.items h)) }
        ensures sound { KeepsSound (S.view self.old.store) (S.view self.new.store) }
        ensures policy { self.new.policy ≡ self.old.policy }
        ensures doubt { (S.view self.old.store).doubt ≤ (S.view self.new.store).doubt }
        ensures steps { IfOk result (λ replies. Steps S.view L.Log requests.now replies.items self.old self.new) }
        ensures err { OnErr result (self.new ≡ self.old) }
    {
        let mut replies = Vec::with_capacity(alloc, requests.len())?;
        for (asked, day) in requests {
            let reply = self.step(asked, *day);
            replies.push_reserved(reply);
        }
        Ok(replies)
    }
}
