//! Worked examples of answers: each text computes from what was asked.

ghost use Rattle.std.specs.Prelude.{◌≡◌, [], ◌∷◌, ◌++◌, codes, true};
ghost use Rattle.permit_base.specs.declared.request.Request.TheVariants.{ReadFile, ReadParcel, ListFiles};
ghost use Rattle.permit_base.specs.declared.request.Command.TheVariants.{AskExtension};
ghost use Rattle.permit_base.specs.declared.request.Filter.TheVariants.{All};
ghost use Rattle.permit_model.specs.Examples.{asks, on_one, file_house, extended_house};
ghost use Rattle.permit_answer.specs.AnswerText.{line, answer_text, body_text, Faulted};
ghost use Rattle.permit_answer.specs.Examples.{text_after, body_after};
ghost use Rattle.permit_http.specs.declared.fault.Fault.TheVariants as fault;

/// A worked example: a caller whom no party is.
#[tactic(auto, unfolding(crate::proofs::Computing::text_on_literals))]
pub fn unknown_caller_example()
    ensures { text_after [] (asks 8 19700 (ReadFile 1))
        ≡ line (codes "HTTP/1.1 401 Unauthorized") ++ line (codes "Content-Type: application/json") ++ line (codes "Content-Length: 20")
        ++ line (codes "WWW-Authenticate: Bearer") ++ line [] ++ codes "{\"refused\":\"caller\"}" }
{}

/// A worked example: a file that is not there.
#[tactic(auto, unfolding(crate::proofs::Computing::text_on_literals))]
pub fn missing_record_example()
    ensures { text_after [] (asks 1 19700 (ReadFile 99))
        ≡ line (codes "HTTP/1.1 404 Not Found") ++ line (codes "Content-Type: application/json") ++ line (codes "Content-Length: 20")
        ++ line [] ++ codes "{\"refused\":\"record\"}" }
{}

/// A worked example: an application is filed, and read on its deadline day and on the next.
#[tactic(auto, unfolding(crate::proofs::Computing::text_on_literals))]
pub fn filing_and_abandonment_example()
    ensures filed { body_after [] file_house ≡ codes "{\"day\":19723,\"done\":\"file\",\"number\":1}" }
    ensures read { body_after (file_house ∷ []) (asks 1 19903 (ReadFile 1)) ≡ codes "{\"applicant\":5,\"ask\":null,\"contractor\":null,\"deadline\":19903,\"description\":\"House\",\"done\":[],\"filed\":19723,\"id\":1,\"inspector\":null,\"kind\":\"construct\",\"next\":\"footing\",\"notices\":0,\"papers\":[],\"parcel\":1,\"request\":null,\"requested\":null,\"reviewer\":null,\"stage\":\"filed\",\"stopped\":false,\"temporary\":null,\"timing\":\"near\",\"valuation\":25000000}" }
    ensures closed { body_after (file_house ∷ []) (asks 5 19904 (ReadFile 1)) ≡ codes "{\"refused\":\"denied\",\"rule\":\"closed-to-public\"}" }
{}

/// A worked example: an extension of more days than may be asked is refused, one is asked and granted, and the file has both papers.
#[tactic(auto, unfolding(crate::proofs::Computing::text_on_literals))]
pub fn extension_example()
    ensures refused { body_after (file_house ∷ []) (on_one 5 19903 (AskExtension 91 (codes "Ill"))) ≡ codes "{\"reason\":\"days\",\"refused\":\"not-admitted\"}" }
    ensures granted { body_after extended_house (asks 1 19903 (ReadFile 1)) ≡ codes "{\"applicant\":5,\"ask\":null,\"contractor\":null,\"deadline\":19993,\"description\":\"House\",\"done\":[],\"filed\":19723,\"id\":1,\"inspector\":null,\"kind\":\"construct\",\"next\":\"footing\",\"notices\":0,\"papers\":[{\"author\":5,\"day\":19903,\"days\":90,\"number\":1,\"open\":false,\"sort\":\"asked\",\"terms\":\"\",\"text\":\"Ill\"},{\"author\":1,\"day\":19903,\"days\":90,\"number\":2,\"open\":false,\"sort\":\"granted\",\"terms\":\"\",\"text\":\"\"}],\"parcel\":1,\"request\":null,\"requested\":null,\"reviewer\":null,\"stage\":\"filed\",\"stopped\":false,\"temporary\":null,\"timing\":\"ahead\",\"valuation\":25000000}" }
{}

/// A worked example: a parcel is read.
#[tactic(auto, unfolding(crate::proofs::Computing::text_on_literals))]
pub fn parcel_example()
    ensures { body_after [] (asks 1 19700 (ReadParcel 1)) ≡ codes "{\"address\":\"1 Main St\",\"id\":1,\"lot\":\"A-1\",\"owner\":5}" }
{}

/// A worked example: a listing before any file is there.
#[tactic(auto, unfolding(crate::proofs::Computing::text_on_literals))]
pub fn empty_listing_example()
    ensures { body_after [] (asks 1 19700 (ListFiles All)) ≡ codes "{\"files\":[]}" }
{}

/// A worked example: a body above its limit.
#[tactic(auto, unfolding(crate::proofs::Computing::text_on_literals))]
pub fn large_body_example()
    ensures { answer_text (Faulted fault.Large) true
        ≡ line (codes "HTTP/1.1 413 Content Too Large") ++ line (codes "Content-Type: application/json") ++ line (codes "Content-Length: 19")
        ++ line (codes "Connection: close") ++ line [] ++ codes "{\"refused\":\"large\"}" }
{}
