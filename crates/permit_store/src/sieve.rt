//! A taker that keeps back what none of several selections finds.

use crate::routes::any_finds;
use crate::rows::Found;
use permit_base::route::Route;
use permit_base::values::{Day, PartyId};
use permit_core::taker::Taker;

/// Passes on the rows that any of the selections finds, each once, however many find it.
#[derive(Drop)]
pub struct Sieve<'a, T> {
    pub routes: &'a [Route],
    pub caller: PartyId,
    pub day: Day,
    pub taker: &'a mut T,
    /// How many rows it passed on; the count wraps.
    pub passed: u64,
}

impl<T: Taker<Found>> Taker<Found> for Sieve<'_, T> {
    ghost use Rattle.permit_store.specs.Sieving.{Sieves};

    ghost took = { Sieves T.took };

    /// What its taker answers to a row that is passed on; true to any other.
    fn take(&mut self, found: Found) -> bool {
        if !any_finds(self.routes, self.caller, self.day, &found) {
            return true;
        }
        self.passed = self.passed.wrapping_add(1);
        self.taker.take(found)
    }
}
