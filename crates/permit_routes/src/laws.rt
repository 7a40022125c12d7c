//! Laws and worked examples of the routes: functions with nothing to do, whose contracts are the laws.

ghost use Rattle.std.specs.Prelude.{◌≡◌, ℕ, List, IsTrue, codes, Some, None};
ghost use Rattle.std.specs.Fmt.{decimal};
ghost use Rattle.permit_base.specs.Limits.{is_object_number};
ghost use Rattle.permit_routes.specs.Ids.{id_in};
ghost use Rattle.permit_routes.specs.Requests.{party_in, parcel_in, filing_in, transfer_in, without_keys, without_body, on_file};
ghost use Rattle.permit_routes.specs.Routing.{request_of};
ghost use Rattle.permit_base.specs.declared.words.Action.TheVariants.{Issue};
ghost use Rattle.permit_base.specs.declared.request.Request.TheVariants.{Declare, ReadParcel, ReadFile, ListFiles, Register};
ghost use Rattle.permit_base.specs.declared.request.Filter.TheVariants.{All, InStage};
ghost use Rattle.permit_base.specs.declared.words.Stage.TheVariants.{Review};
ghost use Rattle.permit_base.specs.declared.words.RegisterKind.TheVariants.{Deadlines};

/// What methods and paths ask for, by their bodies.
pub fn worked_routes()
    ensures a_party { (body : List ℕ) → request_of (codes "POST") (codes "/parties") body ≡ Some (party_in body) }
    ensures a_new_parcel { (body : List ℕ) → request_of (codes "POST") (codes "/parcels") body ≡ Some (parcel_in body) }
    ensures a_new_file { (body : List ℕ) → request_of (codes "POST") (codes "/files") body ≡ Some (filing_in body) }
    ensures a_transfer { (body : List ℕ) → request_of (codes "POST") (codes "/parcels/2/transfer") body ≡ Some (transfer_in 2 body) }
    ensures an_interest { (body : List ℕ) → request_of (codes "POST") (codes "/parcels/2/declare") body ≡ Some (without_keys (Declare 2) body) }
    ensures a_parcel { (body : List ℕ) → request_of (codes "GET") (codes "/parcels/2") body ≡ Some (without_body (ReadParcel 2) body) }
    ensures an_issue { (body : List ℕ) → request_of (codes "POST") (codes "/files/1/issue") body ≡ on_file 1 Issue body }
    ensures a_file { (body : List ℕ) → request_of (codes "GET") (codes "/files/1") body ≡ Some (without_body (ReadFile 1) body) }
    ensures all_files { (body : List ℕ) → request_of (codes "GET") (codes "/files") body ≡ Some (without_body (ListFiles All) body) }
    ensures files_in_review { (body : List ℕ) → request_of (codes "GET") (codes "/files/stage/review") body ≡ Some (without_body (ListFiles (InStage Review)) body) }
    ensures a_register { (body : List ℕ) → request_of (codes "GET") (codes "/registers/deadlines") body ≡ Some (without_body (Register Deadlines) body) }
    ensures the_last_file { (body : List ℕ) → request_of (codes "GET") (codes "/files/99999") body ≡ Some (without_body (ReadFile 99999) body) }
{}

/// Methods and paths that have no route.
pub fn worked_refusals()
    ensures too_high { (body : List ℕ) → request_of (codes "GET") (codes "/files/100000") body ≡ None }
    ensures leading_zero { (body : List ℕ) → request_of (codes "POST") (codes "/files/01/issue") body ≡ None }
    ensures no_number { (body : List ℕ) → request_of (codes "GET") (codes "/files/0") body ≡ None }
    ensures a_sign { (body : List ℕ) → request_of (codes "GET") (codes "/files/+1") body ≡ None }
    ensures a_query { (body : List ℕ) → request_of (codes "GET") (codes "/files?x=1") body ≡ None }
    ensures another_method { (body : List ℕ) → request_of (codes "BREW") (codes "/files") body ≡ None }
    ensures another_case { (body : List ℕ) → request_of (codes "post") (codes "/files") body ≡ None }
    ensures a_slash_more { (body : List ℕ) → request_of (codes "POST") (codes "/files/") body ≡ None }
    ensures another_word { (body : List ℕ) → request_of (codes "POST") (codes "/files/1/sleep") body ≡ None }
    ensures a_read_as_a_command { (body : List ℕ) → request_of (codes "POST") (codes "/files/1/read") body ≡ None }
    ensures a_command_on_a_parcel { (body : List ℕ) → request_of (codes "POST") (codes "/parcels/1/issue") body ≡ None }
    ensures a_stage_of_no_file { (body : List ℕ) → request_of (codes "GET") (codes "/files/stage/new") body ≡ None }
    ensures no_stage { (body : List ℕ) → request_of (codes "GET") (codes "/files/stage") body ≡ None }
    ensures another_register { (body : List ℕ) → request_of (codes "GET") (codes "/registers/fees") body ≡ None }
    ensures a_command_by_get { (body : List ℕ) → request_of (codes "GET") (codes "/files/1/issue") body ≡ None }
{}

/// An id is the decimal spelling of a number from 1 to 99999, and each of these numbers has that one.
pub fn each_id_has_one_spelling()
    ensures read { (n : ℕ) → IsTrue (is_object_number n) → id_in (decimal n) ≡ Some n }
    ensures spelled { (word : List ℕ) (n : ℕ) → id_in word ≡ Some n → IsTrue (is_object_number n) × (decimal n ≡ word) }
{}
