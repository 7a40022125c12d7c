//! Laws about the definitions of this crate: functions with nothing to do, whose contracts are the laws, and what each kind of
//! number takes.

ghost use Rattle.std.specs.Prelude.{◌≡◌, codes};
ghost use Rattle.permit_base.specs.Digests.{digest_of};
ghost use Rattle.permit_base.specs.Limits.{only_if, is_object_number, is_day, is_days, is_paper_number};
ghost use Rattle.permit_base.specs.Words.{IsReadBack, role_word, all_roles, kind_word, all_kinds, step_word, all_steps, stage_word, all_stages, timing_word, all_timings, relation_word, all_relations, sort_word, all_sorts, action_word, all_actions, effect_word, all_effects, register_word, all_registers, reason_word, all_reasons};

use crate::values::{Day, Days, FileId, PaperNumber, ParcelId, PartyId};

/// Parties have the numbers from 1 to 99999.
pub fn party_number(number: u32) -> Option<PartyId>
    ensures { result ≡ only_if is_object_number number }
{
    PartyId::new(number)
}

/// Parcels have the numbers from 1 to 99999.
pub fn parcel_number(number: u32) -> Option<ParcelId>
    ensures { result ≡ only_if is_object_number number }
{
    ParcelId::new(number)
}

/// Files have the numbers from 1 to 99999.
pub fn file_number(number: u32) -> Option<FileId>
    ensures { result ≡ only_if is_object_number number }
{
    FileId::new(number)
}

/// Papers of a file have the numbers from 1 to 9999.
pub fn paper_number(number: u32) -> Option<PaperNumber>
    ensures { result ≡ only_if is_paper_number number }
{
    PaperNumber::new(number)
}

/// Days are those from 0 to 100000.
pub fn day(number: u32) -> Option<Day>
    ensures { result ≡ only_if is_day number }
{
    Day::new(number)
}

/// Counts of days go from 1 to 365.
pub fn count_of_days(number: u32) -> Option<Days>
    ensures { result ≡ only_if is_days number }
{
    Days::new(number)
}

/// Each word type has one spelling for each word: reading what a word is spelled gives that word.
pub fn each_word_has_one_spelling()
    ensures roles { IsReadBack role_word all_roles }
    ensures kinds { IsReadBack kind_word all_kinds }
    ensures steps { IsReadBack step_word all_steps }
    ensures stages { IsReadBack stage_word all_stages }
    ensures timings { IsReadBack timing_word all_timings }
    ensures relations { IsReadBack relation_word all_relations }
    ensures sorts { IsReadBack sort_word all_sorts }
    ensures actions { IsReadBack action_word all_actions }
    ensures effects { IsReadBack effect_word all_effects }
    ensures registers { IsReadBack register_word all_registers }
    ensures reasons { IsReadBack reason_word all_reasons }
{}

/// A worked digest: that of a token of the letters from a to z.
pub fn digest_example()
    ensures { digest_of (codes "abcdefghijklmnopqrstuvwxyz") ≡ codes "71c480df93d6ae2f1efad1447c66c9525e316218cf51fc8d9ed832f2daf18b73" }
{}
