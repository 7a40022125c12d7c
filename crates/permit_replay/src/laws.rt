//! Laws of replay: functions with nothing to do, whose contracts are the laws.

ghost use Rattle.std.specs.Prelude.{◌≡◌, ◌⊎◌, ℕ, IsTrue, None, Some};
ghost use Rattle.permit_model.specs.History.{History};
ghost use Rattle.permit_model.specs.Machine.{IsHistory};
ghost use Rattle.permit_history.specs.declared.entry.Deed.{Deed};
ghost use Rattle.permit_replay.specs.Against.{against};
ghost use Rattle.permit_replay.specs.Histories.{Unsaid, adds_entry, history_with};
ghost use Rattle.permit_replay.specs.declared.fault.Why.TheVariants.{FirstEdition};

/// What is refused makes no history: a founding, an upgrade or a command after which the entries are a history is taken, but
/// for one that is between the founding and the upgrade.
pub fn what_is_refused_makes_no_history()
    ensures { (unsaid : Unsaid) (h : History) (day : ℕ) (done : Deed) → IsTrue (adds_entry done)
        → IsHistory (history_with unsaid h day done) → (against unsaid h day done ≡ None) ⊎ (against unsaid h day done ≡ Some FirstEdition) }
{}
