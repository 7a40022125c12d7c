//! Worked examples of sound tables, and of changes that damage them.

ghost use Rattle.std.specs.Prelude.{◌≡◌, ◌∷◌, [], true, false};
ghost use Rattle.permit_model.specs.Damage.{met, repair_office, late_office, parcel_too_many, upgrade_missing, parcels_turned, founder_demoted, owner_missing, clerk_reviews, deadline_too_early, rejected_at_work, step_too_many, notice_forgotten, paper_forgotten, day_falls, author_missing};

/// The tables of a repair with an open notice meet each of the eight conditions.
pub fn sound_office()
    ensures sound { met repair_office ≡ true ∷ true ∷ true ∷ true ∷ true ∷ true ∷ true ∷ true ∷ [] }
{}

/// The model bounds no day, so the first condition asks of the last day what the model doesn't.
pub fn office_on_a_late_day()
    ensures late { met late_office ≡ false ∷ true ∷ true ∷ true ∷ true ∷ true ∷ true ∷ true ∷ [] }
{}

/// One change fails the condition that it is of, and no other.
pub fn damaged_offices()
    ensures desk { met (parcel_too_many repair_office) ≡ false ∷ true ∷ true ∷ true ∷ true ∷ true ∷ true ∷ true ∷ [] }
    ensures numbering { met (parcels_turned repair_office) ≡ true ∷ false ∷ true ∷ true ∷ true ∷ true ∷ true ∷ true ∷ [] }
    ensures parties { met (founder_demoted repair_office) ≡ true ∷ true ∷ false ∷ true ∷ true ∷ true ∷ true ∷ true ∷ [] }
    ensures parcels { met (owner_missing repair_office) ≡ true ∷ true ∷ true ∷ false ∷ true ∷ true ∷ true ∷ true ∷ [] }
    ensures filings { met (clerk_reviews repair_office) ≡ true ∷ true ∷ true ∷ true ∷ false ∷ true ∷ true ∷ true ∷ [] }
    ensures stages { met (deadline_too_early repair_office) ≡ true ∷ true ∷ true ∷ true ∷ true ∷ false ∷ true ∷ true ∷ [] }
    ensures work { met (notice_forgotten repair_office) ≡ true ∷ true ∷ true ∷ true ∷ true ∷ true ∷ false ∷ true ∷ [] }
    ensures papers { met (paper_forgotten repair_office) ≡ true ∷ true ∷ true ∷ true ∷ true ∷ true ∷ true ∷ false ∷ [] }
{}

/// Further changes: an edition without its upgrade, a stage that doesn't fit the rest, a step too many, and papers of
/// falling days or of nobody.
pub fn further_damage()
    ensures edition { met (upgrade_missing repair_office) ≡ false ∷ true ∷ true ∷ true ∷ true ∷ true ∷ true ∷ true ∷ [] }
    ensures stage { met (rejected_at_work repair_office) ≡ true ∷ true ∷ true ∷ true ∷ true ∷ false ∷ false ∷ true ∷ [] }
    ensures step { met (step_too_many repair_office) ≡ true ∷ true ∷ true ∷ true ∷ true ∷ true ∷ false ∷ true ∷ [] }
    ensures day { met (day_falls repair_office) ≡ true ∷ true ∷ true ∷ true ∷ true ∷ true ∷ true ∷ false ∷ [] }
    ensures author { met (author_missing repair_office) ≡ true ∷ true ∷ true ∷ true ∷ true ∷ true ∷ true ∷ false ∷ [] }
{}
