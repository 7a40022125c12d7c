//! The facts that `check-policy` is asked about, as one word of the command line.

ghost use Rattle.std.specs.Prelude.{◌≡◌, ◌<◌, ◌↔◌, IfOk, IsNone, IsSome, map, Some};
ghost use Rattle.permit_args.specs.FactsText.{absent_in, alternative_in, facts_by, facts_in, facts_reason, facts_read, fault_in, first_from, pieces, relations_in, set_from, stage_in, timing_in, truth_in, with_relation, word_more};
ghost use Rattle.permit_base.specs.Words.{named, all_relations, relation_word};
ghost use Rattle.permit_model.specs.Facts.{no_relations};

use permit_base::words::{Action, Relation, Relations, Role, Stage, Timing, Word};
use permit_policy::Facts;
use std::alloc::{AllocError, Global};

/// The truth value that `yes` or `no` says, and false where a hyphen says that it doesn't matter.
fn truth(text: &str) -> Option<bool>
    ensures { result ≡ truth_in text.now }
{
    match text {
        "yes" => Some(true),
        "no" | "-" => Some(false),
        _ => None,
    }
}

/// The relation that a word says isn't there.
fn absent(text: &str) -> Option<Relation>
    ensures { result ≡ absent_in text.now }
{
    match text {
        "not-applicant" => Some(Relation::Applicant),
        "not-contractor" => Some(Relation::Contractor),
        "not-owner" => Some(Relation::Owner),
        "not-assigned-reviewer" => Some(Relation::AssignedReviewer),
        "not-assigned-inspector" => Some(Relation::AssignedInspector),
        "not-conflict" => Some(Relation::Conflict),
        _ => None,
    }
}

/// The set with one relation more.
fn with_relation(set: Relations, relation: Relation) -> Relations
    ensures { result ≡ with_relation set relation }
{
    let mut set = set;
    match relation {
        Relation::Applicant => set.applicant = true,
        Relation::Contractor => set.contractor = true,
        Relation::Owner => set.owner = true,
        Relation::AssignedReviewer => set.assigned_reviewer = true,
        Relation::AssignedInspector => set.assigned_inspector = true,
        Relation::Conflict => set.conflict = true,
    }
    set
}

/// The set without a relation.
fn no_relations() -> Relations
    ensures { result ≡ no_relations }
{
    Relations {
        applicant: false,
        contractor: false,
        owner: false,
        assigned_reviewer: false,
        assigned_inspector: false,
        conflict: false,
    }
}

/// A word more: the relations that were named, and those that are there. No relation may be named twice.
fn word_more(word: &str, seen: Relations, set: Relations) -> Option<(Relations, Relations)>
    ensures { result ≡ word_more (named relation_word all_relations word.now) (absent_in word.now) seen set }
{
    match (Relation::read(word), absent(word)) {
        (Some(relation), _) if !seen.has(relation) => {
            Some((with_relation(seen, relation), with_relation(set, relation)))
        }
        (None, Some(relation)) if !seen.has(relation) => {
            Some((with_relation(seen, relation), set))
        }
        _ => None,
    }
}

/// The set of the relations of these words.
fn set_of(words: &[&str]) -> Option<Relations>
    ensures { result ≡ set_from no_relations no_relations (map (λ w. w.now) words.now) }
{
    let mut seen = no_relations();
    let mut set = no_relations();
    for word in words {
        (seen, set) = word_more(word, seen, set)?;
    }
    Some(set)
}

/// The first of some words, each of which has to be one of its kind.
fn first_of<W: Word>(words: &[&str]) -> Option<W>
    ensures { result ≡ first_from (named W.spelling W.every) None (map (λ w. w.now) words.now) }
{
    let mut first = None;
    for word in words {
        let read = W::read(word)?;
        first = Some(first.unwrap_or(read));
    }
    first
}

/// The texts between the letters of this kind.
fn pieces(alloc: Global, text: &str, letter: char) -> Result<Vec<&str>, AllocError>
    requires { letter < 128 }
    ensures { IfOk result (λ v. map (λ x. x.now) v.items ≡ pieces letter text.now) }
{
    text.split(letter).collect(alloc)
}

/// The set of relations joined by `+`.
fn alternative(alloc: Global, text: &str) -> Result<Option<Relations>, AllocError>
    ensures { IfOk result (λ set. set ≡ alternative_in text.now) }
{
    let words = pieces(alloc, text, '+')?;
    Ok(set_of(words.as_slice()))
}

/// The first of the sets that are named between slashes, or the empty one for a hyphen.
fn relations(alloc: Global, text: &str) -> Result<Option<Relations>, AllocError>
    ensures { IfOk result (λ set. set ≡ relations_in text.now) }
{
    if text == "-" {
        return Ok(Some(no_relations()));
    }
    let mut first = None;
    for word in &pieces(alloc, text, '/')? {
        match alternative(alloc, word)? {
            Some(set) => first = Some(first.unwrap_or(set)),
            None => return Ok(None),
        }
    }
    Ok(first)
}

/// The first of the stages between slashes, or `filed` for a hyphen.
fn stage(alloc: Global, text: &str) -> Result<Option<Stage>, AllocError>
    ensures { IfOk result (λ stage. stage ≡ stage_in text.now) }
{
    if text == "-" {
        return Ok(Some(Stage::Filed));
    }
    let words = pieces(alloc, text, '/')?;
    Ok(first_of(words.as_slice()))
}

/// The first of the timings between slashes, or `none` for a hyphen.
fn timing(alloc: Global, text: &str) -> Result<Option<Timing>, AllocError>
    ensures { IfOk result (λ timing. timing ≡ timing_in text.now) }
{
    if text == "-" {
        return Ok(Some(Timing::Untimed));
    }
    let words = pieces(alloc, text, '/')?;
    Ok(first_of(words.as_slice()))
}

/// What is wrong with the text of facts: how many parts it has, or the first of them that is no word of its kind.
#[derive(Clone, Copy, Debug, PartialEq, Eq)]
pub enum FactsFault {
    /// The text has another number of parts than six.
    Count,
    /// The first part is no role.
    Role,
    /// The second is no hyphen, and isn't relations joined by `+`, each once, with slashes between alternatives.
    Relations,
    /// The third is no action.
    Action,
    /// The fourth is no stage.
    Stage,
    /// The fifth is neither `yes` nor `no` nor a hyphen.
    Stopped,
    /// The sixth is no timing.
    Timing,
}

impl FactsFault {
    /// What is taken in place of the part that is wrong, in a line without its end.
    pub fn line(self) -> &'static str
        ensures { result.now ≡ facts_reason self }
    {
        match self {
            FactsFault::Count => {
                "--facts takes ROLE,RELATIONS,ACTION,STAGE,STOPPED,TIMING: six words between commas"
            }
            FactsFault::Role => "--facts: ROLE is public, clerk, reviewer, inspector or official",
            FactsFault::Relations => {
                "--facts: RELATIONS is - or, joined by + and each once, applicant, contractor, owner, assigned-reviewer, assigned-inspector or conflict"
            }
            FactsFault::Action => {
                "--facts: ACTION is add-party, add-staff, add-parcel, transfer, declare, read-parcel, file, read, list, assign-reviewer, assign-inspector, name-contractor, start-review, return, resubmit, approve-plans, reject, issue, ask-extension, grant-extension, refuse-extension, begin-work, request-inspection, approve-step, notice, clear-notice, stop, lift, revoke, temporary or certify"
            }
            FactsFault::Stage => {
                "--facts: STAGE is filed, review, returned, approved, rejected, issued, working, revoked, finaled, certified, abandoned, lapsed, new or office"
            }
            FactsFault::Stopped => "--facts: STOPPED is yes or no",
            FactsFault::Timing => "--facts: TIMING is none, past, near or ahead",
        }
    }
}

/// The facts of these parts, or the first of them that isn't there.
fn facts_by(
    role: Option<Role>,
    relations: Option<Relations>,
    action: Option<Action>,
    stage: Option<Stage>,
    stopped: Option<bool>,
    timing: Option<Timing>,
) -> Result<Facts, FactsFault>
    ensures { result ≡ facts_by role relations action stage stopped timing }
{
    let Some(role) = role else {
        return Err(FactsFault::Role);
    };
    let Some(relations) = relations else {
        return Err(FactsFault::Relations);
    };
    let Some(action) = action else {
        return Err(FactsFault::Action);
    };
    let Some(stage) = stage else {
        return Err(FactsFault::Stage);
    };
    let Some(stopped) = stopped else {
        return Err(FactsFault::Stopped);
    };
    let Some(timing) = timing else {
        return Err(FactsFault::Timing);
    };
    Ok(Facts {
        role,
        relations,
        action,
        stage,
        stopped,
        timing,
    })
}

/// The facts of a text, or what is wrong with it.
fn facts_read(alloc: Global, text: &str) -> Result<Result<Facts, FactsFault>, AllocError>
    ensures { IfOk result (λ read. read ≡ facts_read (pieces 44 text.now)) }
{
    let parts = pieces(alloc, text, ',')?;
    match parts.as_slice() {
        [role, set, action, stage, stopped, timing] => Ok(facts_by(
            Role::read(role),
            relations(alloc, set)?,
            Action::read(action),
            self::stage(alloc, stage)?,
            truth(stopped),
            self::timing(alloc, timing)?,
        )),
        _ => Ok(Err(FactsFault::Count)),
    }
}

/// The facts of a text `ROLE,RELATIONS,ACTION,STAGE,STOPPED,TIMING`, or none where it says no facts. Relations are joined
/// by `+`, each at most once, with `not-` before one that isn't there; a stop order is `yes` or `no`. Of alternatives, which
/// slashes separate, the first is taken, and for a hyphen no relation, `filed`, `no` or `none`.
///
/// # Examples
///
/// ```
/// let text = "reviewer,assigned-reviewer,approve-plans,review,no,ahead";
/// let facts = read_facts(alloc, text)?.ok_or("facts")?;
/// assert!(rt; facts.role == Role::Reviewer);
/// assert!(rt; read_facts(alloc, "reviewer")?.is_none());
/// let text = "public,applicant/owner+not-conflict,read,-,-,past/near";
/// let facts = read_facts(alloc, text)?.ok_or("facts")?;
/// assert!(rt; facts.relations.applicant && facts.timing == Timing::Past);
/// ```
pub fn read_facts(alloc: Global, text: &str) -> Result<Option<Facts>, AllocError>
    ensures { IfOk result (λ facts. facts ≡ facts_in (pieces 44 text.now)) }
{
    Ok(facts_read(alloc, text)?.ok())
}

/// What is wrong with a text of which `read_facts` makes no facts: how many parts it has, or the first of them that is no word of
/// its kind. None where it makes facts.
///
/// # Examples
///
/// ```
/// let text = "reviewer,friend,approve-plans,review,maybe,ahead";
/// assert!(rt; facts_fault(alloc, text)? == Some(FactsFault::Relations));
/// assert!(rt; facts_fault(alloc, "reviewer")? == Some(FactsFault::Count));
/// assert!(rt; facts_fault(alloc, "clerk,-,list,filed,no,near")?.is_none());
/// ```
pub fn facts_fault(alloc: Global, text: &str) -> Result<Option<FactsFault>, AllocError>
    ensures fault { IfOk result (λ fault. fault ≡ fault_in (pieces 44 text.now)) }
    ensures none { IfOk result (λ fault. IsNone fault ↔ IsSome (facts_in (pieces 44 text.now))) }
{
    Ok(facts_read(alloc, text)?.err())
}
