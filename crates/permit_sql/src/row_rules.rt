//! Tests of one row, beyond the limits of its types.

ghost use Rattle.std.specs.Prelude.{◌≡◌, nat_le, false, is_none, IfSome, ℕ, List};
ghost use Rattle.permit_sql.specs.Named.{fits_desk_rule, fits_file_rule, fits_paper_rule};
ghost use Rattle.permit_sql.specs.First.{first_broken, desk_rules, names_rules, days_rules, work_rules, file_rules, paper_rules};
ghost use Rattle.permit_base.specs.declared.words.Role.{Role as TheRole};
ghost use Rattle.permit_base.specs.declared.words.Role.TheVariants.{Official};
ghost use Rattle.std.specs.List.{list_all};
ghost use Rattle.permit_base.specs.Texts.{is_long, is_printable_letter, is_printable as is_printable_text};
ghost use Rattle.permit_base.specs.Limits.{is_between as is_within};
ghost use Rattle.permit_model.specs.Tables.{is_notice as is_notice_sort};
ghost use Rattle.permit_model.specs.Sound;
ghost use Rattle.permit_sql.specs.Tested;

use crate::fault::{DeskRule, FileRule, PaperRule};
use permit_base::limits::{
    LATEST_DEADLINE, LONGEST_PERMIT_EXTENSION, LONGEST_REVIEW_EXTENSION, LONGEST_TEMPORARY,
    MOST_PAPERS, MOST_RECORDS, TERM,
};
use permit_base::values::{Day, PartyId};
use permit_base::words::{PaperSort, Role, Stage};
use permit_core::state::FileState;
use permit_core::steps::{has_certificates, required_steps};
use permit_store::rows::{Desk, Paper};

/// The first rule that the desk breaks: the last day is one that the office takes, and there is a party, and no more
/// records than the most.
pub(crate) fn desk_rule(desk: Desk) -> Option<DeskRule>
    ensures none { is_none result ≡ Tested.fits_desk desk }
    ensures broken { IfSome result (λ rule. fits_desk_rule desk rule ≡ false) }
    ensures exact { result ≡ first_broken (fits_desk_rule desk) desk_rules }
{
    if desk.last.get() < 1 {
        Some(DeskRule::Last)
    } else if desk.parties < 1
        || desk.parties > MOST_RECORDS
        || desk.parcels > MOST_RECORDS
        || desk.files > MOST_RECORDS
    {
        Some(DeskRule::Records)
    } else {
        None
    }
}

/// Whether the desk breaks no rule.
pub(crate) fn fits_desk(desk: Desk) -> bool
    ensures { result ≡ Tested.fits_desk desk }
{
    desk_rule(desk).is_none()
}

/// Whether the first party is there, and an official.
pub(crate) fn has_official(roles: &[Role]) -> bool
    ensures { result ≡ Tested.has_role_at roles.now Official 1 }
{
    match roles.first() {
        Some(found) => *found == Role::Official,
        None => false,
    }
}

/// Whether the party of the number is there, and of the role.
fn has_role_at(roles: &[Role], role: Role, party: PartyId) -> bool
    ensures { result ≡ Tested.has_role_at roles.now role party }
{
    match roles.get(party.get() as usize - 1) {
        Some(found) => *found == role,
        None => false,
    }
}

/// Whether there is none, or one of the role.
fn is_none_or_of_role(roles: &[Role], role: Role, party: Option<PartyId>) -> bool
    ensures { result ≡ Sound.if_any (Tested.has_role_at roles.now role) party }
{
    match party {
        Some(party) => has_role_at(roles, role, party),
        None => true,
    }
}

/// Whether there is none, or one of so many.
fn is_none_or_among(count: usize, party: Option<PartyId>) -> bool
    ensures { result ≡ Sound.if_any (λ id. nat_le id count) party }
{
    match party {
        Some(party) => party.get() as usize <= count,
        None => true,
    }
}

/// Whether there is no number, or one from `low` to `high`.
fn is_none_or_between(low: u32, high: u32, number: Option<u32>) -> bool
    ensures { result ≡ Sound.if_any (is_within low high) number }
{
    match number {
        Some(number) => low <= number && number <= high,
        None => true,
    }
}

/// Whether there is no number, or one that is `low` at least.
fn is_none_or_least(low: u32, number: Option<u32>) -> bool
    ensures { result ≡ Sound.if_any (nat_le low) number }
{
    match number {
        Some(number) => low <= number,
        None => true,
    }
}

/// Whether there is no number, or one that is `high` at most.
fn is_none_or_most(high: u32, number: Option<u32>) -> bool
    ensures { result ≡ Sound.if_any (λ n. nat_le n high) number }
{
    match number {
        Some(number) => number <= high,
        None => true,
    }
}

/// The first rule on names that the file breaks: its parcel and its people are there, of their roles.
fn names_rule(roles: &[Role], parcels: u32, state: &FileState) -> Option<FileRule>
    ensures none { is_none result ≡ Tested.names_known roles.now parcels state.now }
    ensures broken { IfSome result (λ rule. (last : ℕ) → fits_file_rule roles.now parcels last rule state.now ≡ false) }
    ensures exact { (last : ℕ) → result ≡ first_broken (λ rule. fits_file_rule roles.now parcels last rule state.now) names_rules }
{
    if state.parcel().get() > parcels {
        Some(FileRule::Parcel)
    } else if state.applicant().get() as usize > roles.len() {
        Some(FileRule::Applicant)
    } else if !is_none_or_among(roles.len(), state.contractor()) {
        Some(FileRule::Contractor)
    } else if !is_none_or_of_role(roles, Role::Reviewer, state.reviewer()) {
        Some(FileRule::Reviewer)
    } else if !is_none_or_of_role(roles, Role::Inspector, state.inspector()) {
        Some(FileRule::Inspector)
    } else {
        None
    }
}

/// The number of a day, if there is one.
fn number_of_day(day: Option<Day>) -> Option<u32>
    ensures { result ≡ day }
{
    match day {
        Some(day) => Some(day.get()),
        None => None,
    }
}

/// The first rule on days, in their order, that the file breaks, where this is the office's last day.
fn days_rule(last: Day, state: &FileState) -> Option<FileRule>
    ensures none { is_none result ≡ Tested.fits_days last state.now }
    ensures broken { IfSome result (λ rule. (roles : List TheRole) (parcels : ℕ) → fits_file_rule roles parcels last rule state.now ≡ false) }
    ensures exact { (roles : List TheRole) (parcels : ℕ) → result ≡ first_broken (λ rule. fits_file_rule roles parcels last rule state.now) days_rules }
{
    let filed = state.filed().get();
    if filed < 1 || filed > last.get() {
        Some(FileRule::Filed)
    } else if !is_none_or_least(filed + TERM, state.deadline()) {
        Some(FileRule::EarlyDeadline)
    } else if !is_none_or_most(LATEST_DEADLINE, state.deadline()) {
        Some(FileRule::LateDeadline)
    } else if !is_none_or_between(filed, last.get(), number_of_day(state.requested())) {
        Some(FileRule::Requested)
    } else if !is_none_or_between(filed + 1, last.get() + LONGEST_TEMPORARY, state.temporary()) {
        Some(FileRule::Temporary)
    } else {
        None
    }
}

/// The most days of an ask that is kept in the stage.
fn longest_ask(stage: Stage) -> u32
    ensures { result ≡ Sound.longest_ask stage }
{
    if stage.facts().unissued {
        LONGEST_REVIEW_EXTENSION
    } else {
        LONGEST_PERMIT_EXTENSION
    }
}

/// Whether so many steps may be done of those required in the stage.
pub(crate) fn is_done_in(stage: Stage, required: usize, done: usize) -> bool
    ensures { result ≡ Sound.is_done_in stage required done }
{
    let facts = stage.facts();
    if facts.begun {
        done < required
    } else if facts.complete {
        done == required
    } else {
        done == 0
    }
}

/// Whether the ask is of no more days than its stage allows.
fn fits_ask(state: &FileState) -> bool
    ensures { result ≡ Sound.if_any (is_within 1 (Sound.longest_ask state.now.stage)) state.now.ask }
{
    match state.ask() {
        Some(days) => days.get() <= longest_ask(state.stored_stage()),
        None => true,
    }
}

/// The first rule on the work that the file breaks: what is kept of it fits its stage.
fn work_rule(state: &FileState) -> Option<FileRule>
    ensures none { is_none result ≡ Tested.fits_work state.now }
    ensures broken { IfSome result (λ rule. (roles : List TheRole) (parcels last : ℕ) → fits_file_rule roles parcels last rule state.now ≡ false) }
    ensures exact { (roles : List TheRole) (parcels last : ℕ)
        → result ≡ first_broken (λ rule. fits_file_rule roles parcels last rule state.now) work_rules }
{
    let stage = state.stored_stage();
    let facts = stage.facts();
    let required = required_steps(state.edition(), state.kind()).len();
    if !is_done_in(stage, required, state.done() as usize) {
        Some(FileRule::Done)
    } else if state.request().is_some() && !facts.begun {
        Some(FileRule::RequestStage)
    } else if state.is_stopped() && !facts.stopped {
        Some(FileRule::Stopped)
    } else if !fits_ask(state) {
        Some(FileRule::Ask)
    } else if state.temporary().is_some() && !(facts.occupied && has_certificates(state.kind())) {
        Some(FileRule::TemporaryStage)
    } else if state.notices() != 0 && !facts.begun {
        Some(FileRule::NoticesStage)
    } else {
        None
    }
}

/// The first rule that the file breaks without its papers, by the roles of the parties, the count of parcels and the
/// last day.
pub(crate) fn file_rule(
    roles: &[Role],
    parcels: u32,
    last: Day,
    state: &FileState,
) -> Option<FileRule>
    ensures none { is_none result ≡ Tested.fits_file roles.now parcels last state.now }
    ensures broken { IfSome result (λ rule. fits_file_rule roles.now parcels last rule state.now ≡ false) }
    ensures exact { result ≡ first_broken (λ rule. fits_file_rule roles.now parcels last rule state.now) file_rules }
{
    if let Some(rule) = names_rule(roles, parcels, state) {
        return Some(rule);
    }
    if let Some(rule) = days_rule(last, state) {
        return Some(rule);
    }
    if let Some(rule) = work_rule(state) {
        return Some(rule);
    }
    if state.papers() > MOST_PAPERS {
        return Some(FileRule::Papers);
    }
    None
}

/// Whether the file breaks no rule without its papers.
pub(crate) fn fits_file(roles: &[Role], parcels: u32, last: Day, state: &FileState) -> bool
    ensures { result ≡ Tested.fits_file roles.now parcels last state.now }
{
    file_rule(roles, parcels, last, state).is_none()
}

/// Whether there are from 1 to 2000 bytes.
fn has_length(bytes: &[u8]) -> bool
    ensures { result ≡ is_long 1 2000 bytes.now }
{
    1 <= bytes.len() && bytes.len() <= 2000
}

/// Whether no byte is a control character.
fn are_printable(bytes: &[u8]) -> bool
    ensures { result ≡ list_all is_printable_letter bytes.now }
{
    bytes.iter().all(|c| *c >= 0x20 && *c != 0x7F)
}

/// Whether the text is of a length and letters that the office takes.
fn is_printable(text: &str) -> bool
    ensures { result ≡ is_printable_text text.now }
{
    let bytes = text.as_bytes();
    has_length(bytes) && are_printable(bytes)
}

/// Whether the paper names days where its sort does, and only so many.
fn has_sound_days(paper: &Paper) -> bool
    ensures { result ≡ Sound.has_sound_days paper.now }
{
    match paper.sort {
        PaperSort::Asked | PaperSort::Granted => {
            1 <= paper.days && paper.days <= LONGEST_PERMIT_EXTENSION
        }
        PaperSort::Temporary => 1 <= paper.days && paper.days <= LONGEST_TEMPORARY,
        PaperSort::Permit
        | PaperSort::Returned
        | PaperSort::Resubmitted
        | PaperSort::Rejected
        | PaperSort::Refused
        | PaperSort::Notice
        | PaperSort::Stop
        | PaperSort::Lifted
        | PaperSort::Revoked
        | PaperSort::Certificate => paper.days == 0,
    }
}

/// Whether the paper has a text where its sort does.
fn has_sound_text(paper: &Paper) -> bool
    ensures { result ≡ Sound.has_sound_text paper.now }
{
    match paper.sort {
        PaperSort::Permit | PaperSort::Granted | PaperSort::Lifted | PaperSort::Certificate => {
            paper.text.len() == 0
        }
        PaperSort::Returned
        | PaperSort::Resubmitted
        | PaperSort::Rejected
        | PaperSort::Asked
        | PaperSort::Refused
        | PaperSort::Notice
        | PaperSort::Stop
        | PaperSort::Revoked
        | PaperSort::Temporary => is_printable(paper.text.as_str()),
    }
}

/// Whether the paper states terms where its sort does.
fn has_sound_terms(paper: &Paper) -> bool
    ensures { result ≡ Sound.has_sound_terms paper.now }
{
    match paper.sort {
        PaperSort::Stop => is_printable(paper.terms.as_str()),
        PaperSort::Permit
        | PaperSort::Returned
        | PaperSort::Resubmitted
        | PaperSort::Rejected
        | PaperSort::Asked
        | PaperSort::Granted
        | PaperSort::Refused
        | PaperSort::Notice
        | PaperSort::Lifted
        | PaperSort::Revoked
        | PaperSort::Temporary
        | PaperSort::Certificate => paper.terms.len() == 0,
    }
}

/// Whether the sort is a correction notice.
fn is_notice(sort: PaperSort) -> bool
    ensures { result ≡ is_notice_sort sort }
{
    match sort {
        PaperSort::Notice => true,
        PaperSort::Permit
        | PaperSort::Returned
        | PaperSort::Resubmitted
        | PaperSort::Rejected
        | PaperSort::Asked
        | PaperSort::Granted
        | PaperSort::Refused
        | PaperSort::Stop
        | PaperSort::Lifted
        | PaperSort::Revoked
        | PaperSort::Temporary
        | PaperSort::Certificate => false,
    }
}

/// The first rule that the paper breaks without those before it, by the count of parties and the last day.
pub(crate) fn paper_rule(parties: u32, last: Day, paper: &Paper) -> Option<PaperRule>
    ensures none { is_none result ≡ Tested.fits_paper parties last paper.now }
    ensures broken { IfSome result (λ rule. fits_paper_rule parties last rule paper.now ≡ false) }
    ensures exact { result ≡ first_broken (λ rule. fits_paper_rule parties last rule paper.now) paper_rules }
{
    if paper.author.get() > parties {
        Some(PaperRule::Author)
    } else if paper.day > last {
        Some(PaperRule::LateDay)
    } else if !has_sound_days(paper) {
        Some(PaperRule::Days)
    } else if !has_sound_text(paper) {
        Some(PaperRule::Text)
    } else if !has_sound_terms(paper) {
        Some(PaperRule::Terms)
    } else if paper.is_open && !is_notice(paper.sort) {
        Some(PaperRule::Open)
    } else {
        None
    }
}

/// Whether the paper breaks no rule without those before it.
pub(crate) fn fits_paper(parties: u32, last: Day, paper: &Paper) -> bool
    ensures { result ≡ Tested.fits_paper parties last paper.now }
{
    paper_rule(parties, last, paper).is_none()
}
