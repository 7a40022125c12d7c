//! Why a store isn't found in a text, or isn't brought to its end.

use crate::fault::ReplayFault;
use permit_store::store::StoreError;

/// Why a text and a store aren't compared. Of the tables it says nothing.
#[derive(Drop)]
pub enum CompareFault {
    /// A call of the store failed, or memory was refused for a row.
    Store,
    /// The text is not replayed, or can't be read.
    Text(ReplayFault),
    /// The text has 18446744073709551616 bytes or more.
    Long,
}

impl From<StoreError> for CompareFault {
    ghost use Rattle.std.specs.Prelude.{◌≡◌};
    ghost use Rattle.permit_replay.specs.declared.opening.fault.CompareFault.TheVariants.{Store};

    ghost from_gives = { λ _ fault. fault ≡ Store };

    fn from(_error: StoreError) -> CompareFault {
        CompareFault::Store
    }
}

impl From<ReplayFault> for CompareFault {
    ghost use Rattle.std.specs.Prelude.{◌≡◌};
    ghost use Rattle.permit_replay.specs.declared.opening.fault.CompareFault.TheVariants.{Text};

    ghost from_gives = { λ why fault. fault ≡ Text why };

    fn from(why: ReplayFault) -> CompareFault {
        CompareFault::Text(why)
    }
}

/// Why a store isn't brought to the end of a text.
#[derive(Drop)]
pub enum BringFault {
    /// The tables are those of no prefix of the text. They are as before.
    Differs,
    /// A call of the store failed, or the text isn't replayed or can't be read. Where it was a call of the store, or memory was
    /// refused for a row, the store has the tables that it had, or those of a longer prefix of the text. Otherwise it was only
    /// read.
    Stopped(CompareFault),
    /// The second reading of the text failed, memory was refused in it, or it gave fewer lines than the first. The store has the
    /// tables that it had, or those of a longer prefix of the text.
    Again,
}

impl From<CompareFault> for BringFault {
    ghost use Rattle.std.specs.Prelude.{◌≡◌};
    ghost use Rattle.permit_replay.specs.declared.opening.fault.BringFault.TheVariants.{Stopped};

    ghost from_gives = { λ why fault. fault ≡ Stopped why };

    fn from(why: CompareFault) -> BringFault {
        BringFault::Stopped(why)
    }
}

impl From<StoreError> for BringFault {
    ghost use Rattle.std.specs.Prelude.{◌≡◌};
    ghost use Rattle.permit_replay.specs.declared.opening.fault.BringFault.TheVariants.{Stopped};
    ghost use Rattle.permit_replay.specs.declared.opening.fault.CompareFault.TheVariants.{Store};

    ghost from_gives = { λ _ fault. fault ≡ Stopped Store };

    fn from(_error: StoreError) -> BringFault {
        BringFault::Stopped(CompareFault::Store)
    }
}
