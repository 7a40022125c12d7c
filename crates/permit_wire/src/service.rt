//! What serves requests: those of connections, and those that several sessions put.

use permit_base::request::Asked;
use permit_base::values::Day;
use permit_office::log::Log;
use permit_office::office::Office;
use permit_office::reply::Reply;
use permit_store::store::Store;

/// A reply, and the day on which the office gave it.
#[derive(Drop)]
pub struct Dated {
    pub day: Day,
    pub reply: Reply,
}

/// What serves requests, one after the other. Each call is given a `C`, which the service needs for it: an office needs the
/// day, and a session that asks an office from another thread needs the handle by which it waits.
pub trait Service<C> {
    ghost use Rattle.permit_base.specs.declared.request.Asked.{Asked};
    ghost use Rattle.permit_wire.specs.declared.service.Dated.{Dated};

    /// When it may be asked.
    ghost ready: { Self → Type 0 };

    /// What serving a request does. It relates the service before it, the request, what the call is given, the reply, and
    /// the service after it.
    ghost did: { Self → Asked → C → Dated → Self → Type 0 };

    /// Serves a request.
    fn serve(&mut self, by: &C, asked: Asked) -> Dated
        requires { ready self.old }
        ensures ready { ready self.new }
        ensures did { did self.old asked by.now result self.new };
}

impl<S: Store + Drop, L: Log + Drop> Service<Day> for Office<S, L> {
    ghost use Rattle.permit_wire.specs.Serving.{StepsOn};

    ghost ready = { λ _. Unit {0} };

    ghost did = { StepsOn S.view L.Log };

    fn serve(&mut self, day: &Day, asked: Asked) -> Dated {
        let reply = self.step(&asked, *day);
        drop(asked);
        Dated { day: *day, reply }
    }
}
