//! The keys under which a rule's conditions are written.

use permit_base::words::Word;

/// A condition of a rule, by its key in the policy's text. The variants are in the order in which they are tested.
#[derive(Clone, Copy, PartialEq, Eq)]
pub enum Key {
    Role,
    Relation,
    Both,
    Action,
    Stage,
    Timing,
    Stopped,
}

impl Word for Key {
    ghost use Rattle.std.proofs.Common.{rules};
    ghost use Rattle.permit_policy.specs.Keys.{key_word, all_keys};

    ghost spelling = { key_word };

    ghost every = { all_keys };

    fn word(self) -> &'static str {
        match self {
            Key::Role => "role",
            Key::Relation => "relation",
            Key::Both => "both",
            Key::Action => "action",
            Key::Stage => "stage",
            Key::Timing => "timing",
            Key::Stopped => "stopped",
        }
    }

    fn all() -> &'static [Key] {
        &[
            Key::Role,
            Key::Relation,
            Key::Both,
            Key::Action,
            Key::Stage,
            Key::Timing,
            Key::Stopped,
        ]
    }

    ghost is_read = { Prim.search rules };
}
