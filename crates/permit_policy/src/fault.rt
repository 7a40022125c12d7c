//! Why a policy's text is refused.

ghost use Rattle.std.specs.Prelude.{◌≡◌};
ghost use Rattle.permit_policy.specs.Fault.{fault_number, place_of};
ghost use Rattle.permit_policy.specs.declared.fault.PolicyFault.TheVariants.{Memory};

use std::alloc::AllocFailed;

/// A fault of a policy's text. Of several, the one of the lowest number is answered.
#[derive(Clone, Copy, Debug, PartialEq, Eq)]
pub enum PolicyFault {
    /// The text has more than 65536 bytes.
    TooLong,
    /// The text is not TOML 1.1.
    Unreadable,
    /// An unknown key, a missing `name` or `effect`, `relation` and `both` in one table, or a value of another type
    /// than is stated.
    Shape,
    /// More than 64 rules.
    TooMany,
    /// A name that isn't 1 to 32 of a-z, 0-9 and hyphen, that is `default`, or that was used before.
    Name,
    /// An effect that is neither `allow` nor `deny`.
    Effect,
    /// A list that is empty, has an unknown word, or a word twice, and `both` of other than two words.
    List,
    /// Want of memory, which may come in place of any other.
    Memory,
}

impl PolicyFault {
    /// The fault's number, 1 to 8 in the order above.
    pub fn number(self) -> u8
        ensures { result ≡ fault_number self }
    {
        match self {
            PolicyFault::TooLong => 1,
            PolicyFault::Unreadable => 2,
            PolicyFault::Shape => 3,
            PolicyFault::TooMany => 4,
            PolicyFault::Name => 5,
            PolicyFault::Effect => 6,
            PolicyFault::List => 7,
            PolicyFault::Memory => 8,
        }
    }

    /// The fault at a place, from 1; running out of memory lies in no table.
    pub(crate) fn at(self, place: usize) -> PolicyError
        ensures { result ≡ record { code = self; rule = place_of self place } }
    {
        let rule = match self {
            PolicyFault::Memory => 0,
            _ => place,
        };
        PolicyError { code: self, rule }
    }
}

/// The refusal of a policy's text.
#[derive(Clone, Copy, Debug, PartialEq, Eq)]
pub struct PolicyError {
    /// The fault.
    pub code: PolicyFault,
    /// The place, from 1, of the first table with that fault; 0 where the fault lies in no table.
    pub rule: usize,
}

impl<T: Drop> From<AllocFailed<T>> for PolicyFault {
    ghost from_gives = { λ _ code. code ≡ Memory };

    fn from(_: AllocFailed<T>) -> PolicyFault {
        PolicyFault::Memory
    }
}

impl<T: Drop> From<AllocFailed<T>> for PolicyError {
    ghost use Rattle.permit_policy.specs.Reading.{out_of_memory};

    ghost from_gives = { λ _ error. error ≡ out_of_memory };

    fn from(_: AllocFailed<T>) -> PolicyError {
        PolicyError {
            code: PolicyFault::Memory,
            rule: 0,
        }
    }
}
