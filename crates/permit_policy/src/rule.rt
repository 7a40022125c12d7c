//! One rule of a policy, and when it matches.

ghost use Rattle.std.specs.Prelude.{◌≡◌, Bool, Some, option_map};
ghost use Rattle.permit_base.specs.Relations.{holds};
ghost use Rattle.permit_model.specs.Codes.{is_role, is_action, is_stage, is_timing};
ghost use Rattle.permit_model.specs.Policy.{matches, matches_list, matches_relations, matches_truth};
ghost use Rattle.permit_policy.specs.Relating.{relation_view};
ghost use Rattle.permit_policy.specs.Hits.{is_for, covers};
ghost use Rattle.permit_policy.specs.Explained.{relation_key, failing_key};

use crate::cell::Cell;
use crate::facts::Facts;
use crate::key::Key;
use permit_base::values::RuleName;
use permit_base::words::{Action, Effect, Relation, Relations, Role, Stage, Timing};
use std::marker::Model;

/// What a rule asks of the caller's relations to the object.
#[derive(Drop)]
pub enum RelationTest {
    /// Nothing.
    Any,
    /// One of these at least.
    OneOf(Vec<Relation>),
    /// Both of these.
    Both(Relation, Relation),
}

/// A rule: its effect where each of its conditions holds. A condition that isn't there holds always.
#[derive(Drop)]
pub struct Rule {
    /// The rule's name, by which a denial is explained.
    pub name: RuleName,
    /// What the rule does where it decides.
    pub effect: Effect,
    /// The caller has one of these roles.
    pub role: Option<Vec<Role>>,
    /// What the caller is to the object passes this test.
    pub relation: RelationTest,
    /// One of these actions is asked.
    pub action: Option<Vec<Action>>,
    /// The object is in one of these stages.
    pub stage: Option<Vec<Stage>>,
    /// The object's deadline is one of these.
    pub timing: Option<Vec<Timing>>,
    /// Whether a stop work order is in force.
    pub stopped: Option<bool>,
}

impl Model for Rule {
    ghost use Rattle.std.specs.Prelude.{option_map};
    ghost use Rattle.permit_model.specs.Policy.{Rule as TheRule};
    ghost use Rattle.permit_policy.specs.Relating.{relation_view};

    ghost Value = { TheRule };

    ghost view = { λ r. record { name = r.name; effect = r.effect; role = option_map (λ v. v.items) r.role; relation = relation_view r.relation; action = option_map (λ v. v.items) r.action; stage = option_map (λ v. v.items) r.stage; timing = option_map (λ v. v.items) r.timing; stopped = r.stopped } };
}

/// A type of words, of which a key has a list. Its contracts name the equality of the type.
trait Listed: Copy {
    ghost same: { Self → Self → Bool };

    /// Whether the two are one word.
    fn is(self, other: Self) -> bool
        ensures { result ≡ same self other };
}

impl Listed for Role {
    ghost same = { is_role };

    fn is(self, other: Role) -> bool {
        self == other
    }
}

impl Listed for Action {
    ghost same = { is_action };

    fn is(self, other: Action) -> bool {
        self == other
    }
}

impl Listed for Stage {
    ghost same = { is_stage };

    fn is(self, other: Stage) -> bool {
        self == other
    }
}

impl Listed for Timing {
    ghost same = { is_timing };

    fn is(self, other: Timing) -> bool {
        self == other
    }
}

impl Rule {
    /// Whether each condition of the rule holds.
    pub fn matches(&self, facts: &Facts) -> bool
        ensures { result ≡ matches self.now facts.now }
    {
        word_matches(&self.role, facts.role)
            && relation_matches(&self.relation, &facts.relations)
            && word_matches(&self.action, facts.action)
            && word_matches(&self.stage, facts.stage)
            && word_matches(&self.timing, facts.timing)
            && truth_matches(self.stopped, facts.stopped)
    }

    /// The first key whose condition doesn't hold, or None where the rule matches.
    pub(crate) fn failing_key(&self, facts: &Facts) -> Option<Key>
        ensures { result ≡ failing_key self.now facts.now }
    {
        if !word_matches(&self.role, facts.role) {
            return Some(Key::Role);
        }
        if !relation_matches(&self.relation, &facts.relations) {
            return Some(relation_key(&self.relation));
        }
        if !word_matches(&self.action, facts.action) {
            return Some(Key::Action);
        }
        if !word_matches(&self.stage, facts.stage) {
            return Some(Key::Stage);
        }
        if !word_matches(&self.timing, facts.timing) {
            return Some(Key::Timing);
        }
        if !truth_matches(self.stopped, facts.stopped) {
            return Some(Key::Stopped);
        }
        None
    }

    /// Whether the rule's conditions on the role and the action hold.
    pub(crate) fn is_for(&self, role: Role, action: Action) -> bool
        ensures { result ≡ is_for self.now role action }
    {
        word_matches(&self.role, role) && word_matches(&self.action, action)
    }

    /// Whether the rule's conditions on the stage, the timing and the stop order hold.
    pub(crate) fn covers(&self, cell: Cell) -> bool
        ensures { result ≡ covers self.now cell }
    {
        word_matches(&self.stage, cell.stage)
            && word_matches(&self.timing, cell.timing)
            && truth_matches(self.stopped, cell.stopped)
    }
}

fn relation_in(words: &[Relation], set: &Relations) -> bool
    ensures { result ≡ matches_list (Some words.now) (holds set.now) }
{
    words.iter().any(|word| set.has(*word))
}

fn has_word<W: Listed>(words: &[W], word: W) -> bool
    ensures { result ≡ matches_list (Some words.now) (W.same word) }
{
    words.iter().any(|one| word.is(*one))
}

/// Whether the key isn't there, or has the word.
fn word_matches<W: Listed>(key: &Option<Vec<W>>, word: W) -> bool
    ensures { result ≡ matches_list (option_map (λ v. v.items) key.now) (W.same word) }
{
    match key {
        None => true,
        Some(words) => has_word(words, word),
    }
}

/// The key under which a rule asks for relations: `both` for two at once, else `relation`.
fn relation_key(test: &RelationTest) -> Key
    ensures { result ≡ relation_key (relation_view test.now) }
{
    match test {
        RelationTest::Any | RelationTest::OneOf(_) => Key::Relation,
        RelationTest::Both(_, _) => Key::Both,
    }
}

fn relation_matches(test: &RelationTest, set: &Relations) -> bool
    ensures { result ≡ matches_relations (relation_view test.now) set.now }
{
    match test {
        RelationTest::Any => true,
        RelationTest::OneOf(words) => relation_in(words, set),
        RelationTest::Both(first, second) => set.has(*first) && set.has(*second),
    }
}

fn truth_matches(key: Option<bool>, value: bool) -> bool
    ensures { result ≡ matches_truth key value }
{
    match key {
        None => true,
        Some(true) => value,
        Some(false) => !value,
    }
}
