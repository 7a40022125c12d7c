//! Why a record is refused: the field, and what is wrong with it.

ghost use Rattle.std.specs.Prelude.{◌≡◌, Some, option_map};
ghost use Rattle.csv.specs.Records.{fields_of};
ghost use Rattle.permit_import.specs.Causes.{fault_text, field_fault, field_word, is_within, record_fault, why_text, word_cause};

use crate::refused::{RefusalWord, Refused};
use crate::requests::text_at;
use csv::ByteRecord;
use permit_base::refusal::Reason;
use permit_base::values::{LotNumber, Printable, TextKind};
use permit_base::words::Word;
use std::fmt;

/// A field of a parcel list's record.
#[derive(Clone, Copy, PartialEq, Eq)]
pub enum Field {
    /// The parcel's lot.
    Lot,
    /// The parcel's address.
    Address,
    /// The number of the party that owns the parcel.
    Owner,
}

impl Field {
    /// The field's name, as the list's first record has it.
    pub fn word(self) -> &'static str
        ensures { result.now ≡ field_word self }
    {
        match self {
            Field::Lot => "lot",
            Field::Address => "address",
            Field::Owner => "owner",
        }
    }
}

/// Why a record is no request for a parcel.
#[derive(Clone, Copy, PartialEq, Eq)]
pub enum RecordFault {
    /// The record has this number of fields, which is not three.
    Count { fields: usize },
    /// The field is not UTF-8.
    Encoding(Field),
    /// The field's text is out of its limits.
    Limits(Field),
}

fn field_fault(field: Field, text: Option<&str>) -> RecordFault
    ensures { result ≡ field_fault field (option_map (λ s. s.now) text.entry) }
{
    match text {
        None => RecordFault::Encoding(field),
        Some(_) => RecordFault::Limits(field),
    }
}

impl RecordFault {
    /// What is wrong with a record that is no request: the number of its fields, else the first field that is wrong.
    pub(crate) fn of(row: &ByteRecord) -> RecordFault
        ensures { result ≡ record_fault (fields_of row.now) }
    {
        if row.len() != 3 {
            return RecordFault::Count { fields: row.len() };
        }
        let lot = text_at(row, 0);
        if !is_within::<LotNumber>(lot) {
            return field_fault(Field::Lot, lot);
        }
        let address = text_at(row, 1);
        if !is_within::<Printable>(address) {
            return field_fault(Field::Address, address);
        }
        field_fault(Field::Owner, text_at(row, 2))
    }
}

/// Whether a text is there, and is of its kind.
fn is_within<K: TextKind>(text: Option<&str>) -> bool
    ensures { result ≡ is_within K.is_of (option_map (λ s. s.now) text.entry) }
{
    match text {
        None => false,
        Some(text) => K::admits(text.as_bytes()),
    }
}

impl fmt::Display for RecordFault {
    ghost output = { λ fault. Some (fault_text fault) };

    fn fmt<W: fmt::Write>(&self, f: &mut fmt::Formatter<W>) -> fmt::Result {
        match self {
            RecordFault::Count { fields } => {
                write!(f, "record: field count {fields}: lot,address,owner")
            }
            RecordFault::Encoding(field) => {
                let field = field.word();
                write!(f, "{field}: not UTF-8")
            }
            RecordFault::Limits(Field::Lot) => f.write_str("lot: 1 to 20 of A-Z, 0-9 and -"),
            RecordFault::Limits(Field::Address) => {
                f.write_str("address: 1 to 2000 bytes without a control character")
            }
            RecordFault::Limits(Field::Owner) => {
                f.write_str("owner: a party's number, 1 to 99999")
            }
        }
    }
}

/// Why a record is refused. Printed, it is the field, and what is wrong with it.
#[derive(Clone, Copy, PartialEq, Eq)]
pub enum Why {
    /// The record is no request.
    Record(RecordFault),
    /// The office refuses the record's request.
    Office(Refused),
}

/// What is wrong, where a refusal has nothing but its word.
fn word_cause(word: RefusalWord) -> &'static str
    ensures { result.now ≡ word_cause word }
{
    match word {
        RefusalWord::Caller => "token: no party has it",
        RefusalWord::Clock => "day: before that of the last accepted command",
        RefusalWord::Store => "office: out of memory, or its database failed",
        // The office refuses no request for a parcel so.
        RefusalWord::Syntax | RefusalWord::Record | RefusalWord::Route | RefusalWord::Large => {
            "record: the office doesn't take it"
        }
    }
}

impl fmt::Display for Why {
    ghost output = { λ why. Some (why_text why) };

    fn fmt<W: fmt::Write>(&self, f: &mut fmt::Formatter<W>) -> fmt::Result {
        match self {
            Why::Record(fault) => write!(f, "{fault}"),
            Why::Office(Refused::Plain(word)) => f.write_str(word_cause(*word)),
            Why::Office(Refused::Denied(rule)) => {
                let rule = rule.as_str();
                write!(f, "policy: denied by {rule}")
            }
            Why::Office(Refused::NotAdmitted(Reason::Person)) => {
                f.write_str("owner: no party has this number")
            }
            Why::Office(Refused::NotAdmitted(Reason::Taken)) => {
                f.write_str("lot: a parcel has it already")
            }
            Why::Office(Refused::NotAdmitted(Reason::Full)) => {
                f.write_str("record: the office has no room for another parcel")
            }
            Why::Office(Refused::NotAdmitted(reason)) => {
                let reason = reason.word();
                write!(f, "record: not admitted, {reason}")
            }
        }
    }
}
