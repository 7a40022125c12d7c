//! Worked examples of callers, the clock, the policy as a whole, and parcels from a list.

ghost use Rattle.std.specs.Prelude.{◌≡◌, ◌∷◌, [], None, Some, codes};
ghost use Rattle.permit_base.specs.declared.words.Kind.TheVariants.{Construct};
ghost use Rattle.permit_base.specs.declared.words.Stage.TheVariants as stage;
ghost use Rattle.permit_base.specs.declared.words.Timing.TheVariants as timing;
ghost use Rattle.permit_base.specs.declared.refusal.Reason.TheVariants as reason;
ghost use Rattle.permit_base.specs.declared.refusal.Refusal.TheVariants as refusal;
ghost use Rattle.permit_base.specs.declared.request.Command.TheVariants.{NameContractor, StartReview};
ghost use Rattle.permit_base.specs.declared.request.Filter.TheVariants.{All};
ghost use Rattle.permit_base.specs.declared.request.Request.TheVariants.{ReadParcel, File, ReadFile, ListFiles, OnFile};
ghost use Rattle.permit_base.specs.Digests.{digest_of};
ghost use Rattle.permit_model.specs.Caller.{parties};
ghost use Rattle.permit_model.specs.Machine.{ParcelShown, Listed, Refused, replies_to};
ghost use Rattle.permit_model.specs.Tables.{tables};
ghost use Rattle.permit_model.specs.Renewal.{renewed, with_renewed, against_renewal};
ghost use Rattle.permit_model.specs.StandardPolicy.{standard_policy};
ghost use Rattle.permit_model.specs.Examples.{founded_with_token, opening_requests, opening, asks, on_one, replies, after, last_reply, done, made, denied, not_admitted, house_state, file_shown, reply_under, opened_for, three_files, transfer_turns, declaring_turns, parcel_list, founded};

/// The opening by tokens, whose digests are computed by SHA-256: a token that is taken, one of no party, a member of
/// the public who may add no parcel, and a file that isn't there.
pub fn opening_by_tokens()
    ensures replies { replies_to standard_policy opening_requests founded_with_token ≡
        made 2 ∷ made 3 ∷ made 4 ∷ made 5 ∷ made 6 ∷ made 7 ∷ not_admitted reason.Taken ∷ made 1 ∷ made 2
        ∷ Refused refusal.Caller ∷ denied (codes "default") ∷ Refused refusal.Record ∷ Listed [] ∷ [] }
{}

/// A caller who is no party is refused before the file that isn't there; party 1 learns that it isn't there.
pub fn unknown_caller_missing_record()
    ensures caller { last_reply [] (asks 8 19700 (ReadFile 1)) opening ≡ Refused refusal.Caller }
    ensures record { last_reply [] (asks 1 19700 (ReadFile 99)) opening ≡ Refused refusal.Record }
    ensures caller_first { last_reply [] (asks 8 19700 (ReadFile 99)) opening ≡ Refused refusal.Caller }
{}

/// A command on a day below that of the last accepted command is refused by the clock. Reads are served on a later day
/// and then on the last one again, since only an accepted command moves it.
pub fn clock_that_goes_back()
    ensures replies { replies
        (asks 5 20000 (File 1 Construct 1 (codes "House")) ∷ on_one 5 19990 (NameContractor 6)
        ∷ asks 1 20001 (ReadFile 1) ∷ asks 1 20000 (ReadParcel 2) ∷ []) opening
        ≡ made 1 ∷ Refused refusal.Clock
        ∷ file_shown (record house_state { filed = 20000; deadline = Some 20180 }) 1 (codes "House") stage.Filed timing.Ahead
        ∷ ParcelShown (record { id = 2; lot = codes "A-2"; address = codes "2 Main St"; owner = 6 }) ∷ [] }
{}

/// A transfer is refused where the parcel isn't there, whoever is to receive it, where its receiver isn't there, and
/// where the receiver is the owner. The receiver then reads the parcel, and the former owner no more.
pub fn transfers_refused()
    ensures replies { replies transfer_turns opening ≡
        Refused refusal.Record ∷ not_admitted reason.Person ∷ not_admitted reason.Taken ∷ done ∷ not_admitted reason.Taken
        ∷ denied (codes "default") ∷ denied (codes "default")
        ∷ ParcelShown (record { id = 1; lot = codes "A-1"; address = codes "1 Main St"; owner = 6 }) ∷ [] }
{}

/// An interest in a parcel is declared once by a party: a second declaration is refused, and one by another party or in
/// another parcel isn't.
pub fn second_declaration()
    ensures replies { replies declaring_turns opening ≡
        done ∷ not_admitted reason.Taken ∷ done ∷ Refused refusal.Record ∷ done ∷ denied (codes "default") ∷ [] }
    ensures interests { (tables (after declaring_turns opening)).interests ≡
        record { parcel = 1; party = 7 } ∷ record { parcel = 2; party = 7 } ∷ record { parcel = 1; party = 4 } ∷ [] }
{}

/// The founder's token is renewed, and the digest is computed by SHA-256.
pub fn renewed_founder()
    ensures founder { renewed 1 (codes "abcdefghijklmnopqrstuvwxyz") founded ≡ founded_with_token }
{}

/// A token is renewed in a history that has a parcel of the party's number too: the party's digest is another
/// one, and nothing else. A party that isn't there, and a digest that a party has already, are refused.
pub fn renewals()
    ensures tables { tables (renewed 1 (codes "abcdefghijklmnopqrstuvwxyz") opening) ≡
        with_renewed 1 (digest_of (codes "abcdefghijklmnopqrstuvwxyz")) (tables opening) }
    ensures inspector { tables (renewed 4 (codes "inspector0000004") opening) ≡ with_renewed 4 (digest_of (codes "inspector0000004")) (tables opening) }
    ensures free { against_renewal (parties founded) 1 (codes "1") ≡ None }
    ensures missing { against_renewal (parties founded) 2 (codes "1") ≡ Some refusal.Record }
    ensures taken { against_renewal (parties founded) 1 (codes "0") ≡ Some (refusal.NotAdmitted reason.Taken) }
{}

/// A policy without rules denies every request on one record by the rule `default`, and a listing under it is empty
/// and opens no row.
pub fn policy_without_rules()
    ensures read { reply_under [] three_files 1 19723 (ReadFile 1) ≡ denied (codes "default") }
    ensures read_parcel { reply_under [] three_files 1 19723 (ReadParcel 1) ≡ denied (codes "default") }
    ensures command { reply_under [] three_files 1 19723 (OnFile 1 StartReview) ≡ denied (codes "default") }
    ensures listing { reply_under [] three_files 1 19723 (ListFiles All) ≡ Listed [] }
    ensures opened { opened_for [] three_files 1 19723 ≡ 0 }
{}

/// Three parcels from a list: one is added, one is refused for its owner who isn't there, one lot is taken. Asked
/// again, the list changes nothing.
pub fn import_twice()
    ensures first { replies (parcel_list 2) opening ≡ made 3 ∷ not_admitted reason.Person ∷ not_admitted reason.Taken ∷ [] }
    ensures second { replies (parcel_list 2) (after (parcel_list 2) opening) ≡ not_admitted reason.Taken ∷ not_admitted reason.Person ∷ not_admitted reason.Taken ∷ [] }
    ensures unchanged { after (parcel_list 2) (after (parcel_list 2) opening) ≡ after (parcel_list 2) opening }
{}

/// The same list asked by a member of the public: each record is denied by the rule `default`, and nothing changes.
pub fn import_denied()
    ensures replies { replies (parcel_list 5) opening ≡ denied (codes "default") ∷ denied (codes "default") ∷ denied (codes "default") ∷ [] }
    ensures unchanged { after (parcel_list 5) opening ≡ opening }
{}
