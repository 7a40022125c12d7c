//! The vocabulary: the lists of words against the department's, and the digest. The limits of numbers and texts are in the
//! scenarios. The helpers with clauses are what a caller learns by several contracts together.

ghost use Rattle.std.specs.Prelude.{◌≡◌, IsTrue, ◌↔◌, codes, Some};
ghost use Rattle.permit_base.specs.Digests.{digest_of};

use permit_base::digests::digest;
use permit_base::laws;
use permit_base::refusal::Reason;
use permit_base::values::{Digest, RuleName, Token};
use permit_base::words::{
    Action, Effect, Kind, PaperSort, RegisterKind, Relation, Role, Stage, Step, Timing, Word,
};
use permit_samples::ask::TOKENS;
use permit_samples::held::Held;
use permit_samples::makers::token;
use std::process::Abort;
use std::test::Fail;

fn is_clerk(text: &str) -> bool
    ensures { IsTrue result ↔ (text.now ≡ codes "clerk") }
{
    matches!(Role::read(text), Some(Role::Clerk))
}

fn role_again(role: Role) -> Option<Role>
    ensures { result ≡ Some role }
{
    Role::read(role.word())
}

fn digest_again(token: &Token) -> Option<Digest>
    ensures { result ≡ Some (digest_of token.now) }
{
    Digest::read(digest(token).ok()?.as_str())
}

fn default_name() -> Option<RuleName>
    ensures { result ≡ Some (codes "default") }
{
    RuleName::new("default")
}

/// The words of a type have these spellings, in this order, and each is read back.
fn check_words<W: Word>(rt: &impl Abort, spellings: &[&str]) {
    assert_eq!(rt; W::all().len(), spellings.len());
    for (word, spelling) in W::all().iter().zip(spellings) {
        assert!(rt; word.word() == *spelling);
        assert!(rt; W::read(*spelling).is_some());
    }
}

#[test]
fn words_are_spelled_as_the_department_spells_them(rt: HostRuntime) {
    check_words::<Role>(
        &rt,
        &["public", "clerk", "reviewer", "inspector", "official"],
    );
    check_words::<Kind>(
        &rt,
        &[
            "construct",
            "enlarge",
            "alter",
            "repair",
            "move",
            "demolish",
            "occupancy",
        ],
    );
    check_words::<Step>(
        &rt,
        &["footing", "slab", "frame", "lath", "final", "energy"],
    );
    check_words::<Stage>(
        &rt,
        &[
            "filed",
            "review",
            "returned",
            "approved",
            "rejected",
            "issued",
            "working",
            "revoked",
            "finaled",
            "certified",
            "abandoned",
            "lapsed",
            "new",
            "office",
        ],
    );
    check_words::<Timing>(&rt, &["none", "past", "near", "ahead"]);
    check_words::<Relation>(
        &rt,
        &[
            "applicant",
            "contractor",
            "owner",
            "assigned-reviewer",
            "assigned-inspector",
            "conflict",
        ],
    );
    check_words::<PaperSort>(
        &rt,
        &[
            "permit",
            "returned",
            "resubmitted",
            "rejected",
            "asked",
            "granted",
            "refused",
            "notice",
            "stop",
            "lifted",
            "revoked",
            "temporary",
            "certificate",
        ],
    );
    check_words::<Action>(
        &rt,
        &[
            "add-party",
            "add-staff",
            "add-parcel",
            "transfer",
            "declare",
            "read-parcel",
            "file",
            "read",
            "list",
            "assign-reviewer",
            "assign-inspector",
            "name-contractor",
            "start-review",
            "return",
            "resubmit",
            "approve-plans",
            "reject",
            "issue",
            "ask-extension",
            "grant-extension",
            "refuse-extension",
            "begin-work",
            "request-inspection",
            "approve-step",
            "notice",
            "clear-notice",
            "stop",
            "lift",
            "revoke",
            "temporary",
            "certify",
        ],
    );
    check_words::<Effect>(&rt, &["allow", "deny"]);
    check_words::<RegisterKind>(&rt, &["files", "deadlines", "inspections"]);
    check_words::<Reason>(
        &rt,
        &[
            "stage",
            "stopped",
            "person",
            "interested",
            "days",
            "pending",
            "nothing-pending",
            "step",
            "notice-open",
            "no-such-notice",
            "kind",
            "taken",
            "full",
            "far",
        ],
    );
}

#[test]
fn nothing_else_is_read(rt: HostRuntime) {
    for text in ["", "Clerk", "clerk ", "cler", "clerks", "untimed"] {
        assert!(rt; Role::read(text).is_none());
        assert!(rt; Timing::read(text).is_none());
    }
    assert!(rt; is_clerk("clerk") && role_again(Role::Clerk) == Some(Role::Clerk));
    assert!(rt; default_name() == Some(RuleName::default_denial()));
    laws::each_word_has_one_spelling();
}

#[test]
fn digest_is_that_of_the_standard(rt: HostRuntime) -> Result<(), Fail> {
    let token = Held::new(token(rt.alloc(), TOKENS[0])?);
    let known = "71c480df93d6ae2f1efad1447c66c9525e316218cf51fc8d9ed832f2daf18b73";
    let again = digest_again(&token.value);
    assert!(rt; digest(&token.value)?.as_str() == known && again == Digest::read(known));
    assert!(rt;
        Digest::read("71C480DF93D6AE2F1EFAD1447C66C9525E316218CF51FC8D9ED832F2DAF18B73").is_none()
    );
    laws::digest_example();
    Ok(())
}
