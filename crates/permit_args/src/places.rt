//! The places of a command line whose values are tested: what is taken there, and the lines on what isn't.

ghost use Rattle.std.specs.Prelude.{◌≡◌};
ghost use Rattle.permit_args.specs.Faults.{Says};
ghost use Rattle.permit_args.specs.Lines.{example_text, invalid_line, missing_line, place_name, record_name, taken_text};

use crate::plan::PlanFault;
use std::alloc::Global;

/// What has a number that an option may give.
#[derive(Clone, Copy)]
pub(crate) enum RecordKind {
    File,
    Parcel,
    Party,
}

impl RecordKind {
    /// The option for its number.
    pub(crate) fn option(self) -> &'static str
        ensures { result.now ≡ record_name self }
    {
        match self {
            RecordKind::File => "file",
            RecordKind::Parcel => "parcel",
            RecordKind::Party => "party",
        }
    }
}

/// A place whose value is tested.
#[derive(Clone, Copy)]
pub(crate) enum Place {
    /// The stage of the files that are listed.
    Stage,
    /// The name of a register.
    Register,
    /// How many workers serve.
    Workers,
    /// After how many connections a worker ends.
    Connections,
    /// The number of a file, a parcel or a party.
    Record(RecordKind),
    /// How many lines of a history are verified.
    Lines,
    /// The digest that they are to have.
    Sha256,
}

impl Place {
    /// How a line names the place.
    fn name(self) -> &'static str
        ensures { result.now ≡ place_name self }
    {
        match self {
            Place::Stage => "--stage <STAGE>",
            Place::Register => "<NAME>",
            Place::Workers => "--workers <WORKERS>",
            Place::Connections => "--connections <CONNECTIONS>",
            Place::Record(RecordKind::File) => "--file <N>",
            Place::Record(RecordKind::Parcel) => "--parcel <N>",
            Place::Record(RecordKind::Party) => "--party <N>",
            Place::Lines | Place::Sha256 => "--verify <LINES> <SHA256>",
        }
    }

    /// What is taken there.
    fn taken(self) -> &'static str
        ensures { result.now ≡ taken_text self }
    {
        match self {
            Place::Stage => {
                "filed, review, returned, approved, rejected, issued, working, revoked, finaled, certified, abandoned, lapsed"
            }
            Place::Register => "files, deadlines, inspections",
            Place::Workers => "1 to 8",
            Place::Connections | Place::Record(_) => "1 to 99999",
            Place::Lines => "1 to 18446744073709551615",
            Place::Sha256 => "64 hexadecimal digits in lower case",
        }
    }

    /// An example of it.
    fn example(self) -> &'static str
        ensures { result.now ≡ example_text self }
    {
        match self {
            Place::Stage => "--stage review",
            Place::Register => "permit register deadlines",
            Place::Workers => "--workers 4",
            Place::Connections => "--connections 1000",
            Place::Record(RecordKind::File) => "--file 1",
            Place::Record(RecordKind::Parcel) => "--parcel 1",
            Place::Record(RecordKind::Party) => "--party 2",
            Place::Lines | Place::Sha256 => {
                "--verify 2 8e4ad670e47c05c90fb8f36b87c0fe417be8208108542e1427ab9f9bc402fc97"
            }
        }
    }
}

/// Bad words, with the line that says why.
pub(crate) fn bad(alloc: Global, line: &str) -> PlanFault
    ensures { Says line.now result }
{
    match String::from_str(alloc, line) {
        Ok(text) => PlanFault::Words(text),
        Err(_) => PlanFault::Memory,
    }
}

/// Bad words: a place has a value that it can't have.
pub(crate) fn invalid(alloc: Global, place: Place, value: &str) -> PlanFault
    ensures { Says (invalid_line place value.now) result }
{
    let name = place.name();
    let taken = place.taken();
    let example = place.example();
    match format!(in alloc;
        "error: invalid value '{value}' for '{name}'\n  [possible values: {taken}]\n  [example: {example}]\n\nFor more information, try '--help'.\n"
    ) {
        Ok(text) => PlanFault::Words(text),
        Err(_) => PlanFault::Memory,
    }
}

/// Bad words: an option or a word that has to be there isn't.
pub(crate) fn missing(alloc: Global, name: &str) -> PlanFault
    ensures { Says (missing_line name.now) result }
{
    match format!(in alloc; "error: no {name} is given\n") {
        Ok(text) => PlanFault::Words(text),
        Err(_) => PlanFault::Memory,
    }
}
