//! What holds of a history in which a party's token is renewed.

ghost use Rattle.std.specs.Prelude.{◌≡◌, ℕ, List, None};
ghost use Rattle.permit_base.specs.Digests.{digest_of};
ghost use Rattle.permit_model.specs.History.{History};
ghost use Rattle.permit_model.specs.Caller.{parties};
ghost use Rattle.permit_model.specs.Tables.{tables};
ghost use Rattle.permit_model.specs.Machine.{IsHistory};
ghost use Rattle.permit_model.specs.Renewal.{renewed, with_renewed, against_renewal};

/// A party may have had another token all along, where nobody has it: with the party's token in place of the one that it
/// was given, a history is a history still, and its tables are the same but for the party's digest.
pub fn renewed_histories()
    ensures history { (h : History) (party : ℕ) (token : List ℕ) → IsHistory h
        → against_renewal (parties h) party (digest_of token) ≡ None → IsHistory (renewed party token h) }
    ensures tables { (h : History) (party : ℕ) (token : List ℕ) → tables (renewed party token h) ≡ with_renewed party (digest_of token) (tables h) }
{}
