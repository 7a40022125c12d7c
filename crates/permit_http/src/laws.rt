//! Laws of the definitions: functions with nothing to do, whose contracts are the laws.

ghost use Rattle.std.specs.Prelude.{◌≡◌, ℕ, List, ◌++◌};
ghost use Rattle.permit_http.specs.Message.{MessageData, IsMessage, HasFault, IsUnfinished};
ghost use Rattle.permit_http.specs.declared.fault.Fault.{Fault};

/// What a stream's prefix gives is one thing: one message and one rest, or one fault of a head that is there, or
/// neither while the bytes are unfinished.
pub fn one_meaning()
    ensures message { (bytes rest other_rest : List ℕ) (m other : MessageData)
        → IsMessage bytes m rest → IsMessage bytes other other_rest → (m ≡ other) × (rest ≡ other_rest) }
    ensures fault { (bytes : List ℕ) (fault other : Fault) → HasFault bytes fault → HasFault bytes other → fault ≡ other }
    ensures message_or_fault { (bytes rest : List ℕ) (m : MessageData) (fault : Fault) → IsMessage bytes m rest → HasFault bytes fault → ⊥ }
    ensures message_or_unfinished { (bytes rest : List ℕ) (m : MessageData) → IsMessage bytes m rest → IsUnfinished bytes → ⊥ }
    ensures fault_or_unfinished { (bytes : List ℕ) (fault : Fault) → HasFault bytes fault → IsUnfinished bytes → ⊥ }
{}

/// The message or the fault that bytes begin with, they begin with whatever comes after them. So bytes that begin with
/// either are no prefix of unfinished ones.
pub fn front_stays()
    ensures message { (bytes rest more : List ℕ) (m : MessageData) → IsMessage bytes m rest → IsMessage (bytes ++ more) m (rest ++ more) }
    ensures fault { (bytes more : List ℕ) (fault : Fault) → HasFault bytes fault → HasFault (bytes ++ more) fault }
{}
