//! A law of the definitions: a function with nothing to do, whose contract is the law.

ghost use Rattle.std.specs.Prelude.{◌≡◌, ℕ, List, Bool, Option, Result};
ghost use Rattle.permit_base.specs.declared.request.Asked.{Asked};
ghost use Rattle.permit_wire.specs.Conversation.{Conversation, Exchanges};
ghost use Rattle.permit_wire.specs.Reading.{Asks};
ghost use Rattle.permit_wire.specs.Requests.{ServesWhatIsAsked};
ghost use Rattle.permit_wire.specs.Written.{WritesWhatIsAnswered};
ghost use Rattle.permit_wire.specs.declared.serve.Served.{Served};
ghost use Rattle.permit_http.specs.Stream.{fresh};
ghost use Rattle.permit_http.specs.declared.fault.Fault.{Fault};

use permit_http::laws::one_meaning;

/// A whole message asks one thing: one request, or one fault after its head. It closes the connection or doesn't, and one
/// rest follows it.
pub fn one_request()
    ensures { (bytes rest other_rest : List ℕ) (asked other : Result Asked Fault) (closes other_closes : Bool)
        → Asks bytes asked closes rest → Asks bytes other other_closes other_rest
        → (asked ≡ other) × (closes ≡ other_closes) × (rest ≡ other_rest) }
{
    one_meaning()
}

/// The requests that are put for a connection are those that its bytes ask, one for one, each with its reply.
pub fn puts_what_is_asked()
    ensures { (after : Option (List ℕ)) (ends : Served) (bytes : List ℕ) (before : Option (List ℕ)) (exchanges : Exchanges)
        → Conversation after ends bytes fresh before exchanges → ServesWhatIsAsked bytes exchanges ends }
{}

/// What is written for a connection is the texts of the answers to its requests and faults, in one order.
pub fn writes_what_is_answered()
    ensures { (after : Option (List ℕ)) (ends : Served) (bytes : List ℕ) (before : Option (List ℕ)) (exchanges : Exchanges)
        → Conversation after ends bytes fresh before exchanges → WritesWhatIsAnswered before after exchanges ends }
{}
