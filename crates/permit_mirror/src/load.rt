//! The tables of a store, read into memory beside it.

ghost use Rattle.std.specs.Prelude.{◌≡◌, ◌≤◌, IfErr, IfOk};
ghost use Rattle.permit_model.specs.Sound.{IsSoundTables};
ghost use Rattle.permit_model.specs.Tables.{Tables};

use crate::indexed::Indexed;
use crate::mirrored::Mirrored;
use permit_store::plain::PlainStore;
use permit_store::store::{Store, StoreError};
use std::alloc::Global;

impl<S: Store> Mirrored<S, Indexed<PlainStore>> {
    /// Reads the tables of a store into memory. The new store holds all sound tables that the given one held. It refuses
    /// where a call of the given store failed or memory was refused; that store then comes back, and holds what it held.
    ///
    /// # Examples
    ///
    /// ```
    /// let Ok(mut store) = Mirrored::load(alloc, kept) else {
    ///     return Err(Fail::new("no tables"));
    /// };
    /// assert!(rt; store.desk()?.parties == 1);
    /// ```
    pub fn load(
        alloc: Global,
        mut kept: S,
    ) -> Result<Mirrored<S, Indexed<PlainStore>>, (S, StoreError)>
        ensures held { IfOk result (λ both. (t : Tables) → (S.view kept).holds t → IsSoundTables t → (⟦<Mirrored<S, Indexed<PlainStore>> as Store>⟧.view both).holds t) }
        ensures doubt { IfOk result (λ both. (S.view kept).doubt ≤ (⟦<Mirrored<S, Indexed<PlainStore>> as Store>⟧.view both).doubt) }
        ensures failed { IfOk result (λ both. (⟦<Mirrored<S, Indexed<PlainStore>> as Store>⟧.view both).failed ≡ 0) }
        ensures commits { IfOk result (λ both. (⟦<Mirrored<S, Indexed<PlainStore>> as Store>⟧.view both).commits ≡ 0) }
        ensures back { IfErr result (λ back. (t : Tables) → (S.view kept).holds t → (S.view back.0).holds t) }
        ensures told { IfErr result (λ back. (S.view kept).doubt ≤ (S.view back.0).doubt) }
    {
        let memory = match PlainStore::load(alloc, &mut kept) {
            Ok(memory) => memory,
            Err(why) => return Err((kept, why)),
        };
        match Indexed::load(alloc, memory) {
            Ok(memory) => Ok(Mirrored::new(kept, memory)),
            Err(why) => Err((kept, why)),
        }
    }
}
