//! The conditions of a rule that are lists of words.

ghost use Rattle.std.specs.Prelude.{◌≡◌};
ghost use Rattle.permit_reasons.specs.Lists.{is_of_length, is_taken, length_taken};
ghost use Rattle.permit_reasons.specs.Shapes.{list_keys};
ghost use Rattle.permit_reasons.specs.Takes.{key_word, taken};

use permit_base::words::{Action, Relation, Role, Stage, Timing, Word};

/// A condition of a rule that is a list of words. The variants are in the order in which they are read.
#[derive(Clone, Copy, PartialEq, Eq)]
pub enum ListKey {
    Role,
    Relation,
    Both,
    Action,
    Stage,
    Timing,
}

impl ListKey {
    /// Each key once, in the order in which they are read.
    pub(crate) fn all() -> &'static [ListKey]
        ensures { result.now ≡ list_keys }
    {
        &[
            ListKey::Role,
            ListKey::Relation,
            ListKey::Both,
            ListKey::Action,
            ListKey::Stage,
            ListKey::Timing,
        ]
    }

    /// The key in the policy's text.
    pub(crate) fn word(self) -> &'static str
        ensures { result.now ≡ key_word self }
    {
        match self {
            ListKey::Role => "role",
            ListKey::Relation => "relation",
            ListKey::Both => "both",
            ListKey::Action => "action",
            ListKey::Stage => "stage",
            ListKey::Timing => "timing",
        }
    }

    /// The words that it takes, each of them.
    pub(crate) fn taken(self) -> &'static str
        ensures { result.now ≡ taken self }
    {
        match self {
            ListKey::Role => "public, clerk, reviewer, inspector or official",
            ListKey::Relation | ListKey::Both => {
                "applicant, contractor, owner, assigned-reviewer, assigned-inspector or conflict"
            }
            ListKey::Action => {
                "add-party, add-staff, add-parcel, transfer, declare, read-parcel, file, read, list, assign-reviewer, assign-inspector, name-contractor, start-review, return, resubmit, approve-plans, reject, issue, ask-extension, grant-extension, refuse-extension, begin-work, request-inspection, approve-step, notice, clear-notice, stop, lift, revoke, temporary or certify"
            }
            ListKey::Stage => {
                "filed, review, returned, approved, rejected, issued, working, revoked, finaled, certified, abandoned, lapsed, new or office"
            }
            ListKey::Timing => "none, past, near or ahead",
        }
    }

    /// Whether a text spells a word that it takes.
    pub(crate) fn takes(self, text: &str) -> bool
        ensures { result ≡ is_taken self text.now }
    {
        match self {
            ListKey::Role => Role::read(text).is_some(),
            ListKey::Relation | ListKey::Both => Relation::read(text).is_some(),
            ListKey::Action => Action::read(text).is_some(),
            ListKey::Stage => Stage::read(text).is_some(),
            ListKey::Timing => Timing::read(text).is_some(),
        }
    }

    /// Whether it takes lists of this length.
    pub(crate) fn takes_length(self, count: usize) -> bool
        ensures { result ≡ is_of_length self count }
    {
        match self {
            ListKey::Both => count == 2,
            _ => count != 0,
        }
    }

    /// How many words it takes.
    pub(crate) fn length_taken(self) -> &'static str
        ensures { result.now ≡ length_taken self }
    {
        match self {
            ListKey::Both => "two words of ",
            _ => "one word or more of ",
        }
    }
}
