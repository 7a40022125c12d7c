//! Worked examples, which compute.

ghost use Rattle.std.specs.Prelude.{◌≡◌, ◌++◌, ◌∷◌, [], None, Some, codes, option_map};
ghost use Rattle.permit_base.specs.Digests.{digest_of};
ghost use Rattle.permit_history.specs.Evidence.{line_count, lines_of};
ghost use Rattle.permit_history.specs.Examples.{small_history};
ghost use Rattle.permit_history.specs.LineData.{text_of};
ghost use Rattle.permit_history.specs.Told.{told_history};

/// A worked example: a founding, the upgrade, a party whose token is the letters from a to z, a parcel, a filing and the
/// start of its review.
pub fn text_example()
    ensures { text_of (told_history small_history)
        ≡ codes "{\"body\":{\"digest\":\"9f86d081884c7d659a2feaa0c55ad015a3bf4f1b2b0b822cd15d6c15b0f00a08\",\"name\":\"Chief\"},\"caller\":0,\"day\":19700,\"done\":\"found\",\"id\":null,\"number\":1}" ++ 10
        ∷ (codes "{\"body\":{},\"caller\":0,\"day\":19700,\"done\":\"upgrade\",\"id\":null,\"number\":null}" ++ 10
        ∷ (codes "{\"body\":{\"digest\":\"71c480df93d6ae2f1efad1447c66c9525e316218cf51fc8d9ed832f2daf18b73\",\"name\":\"Sam\",\"role\":\"public\"},\"caller\":1,\"day\":19701,\"done\":\"add-party\",\"id\":null,\"number\":2}" ++ 10
        ∷ (codes "{\"body\":{\"address\":\"1 Main St\",\"lot\":\"A-1\",\"owner\":2},\"caller\":1,\"day\":19701,\"done\":\"add-parcel\",\"id\":null,\"number\":1}" ++ 10
        ∷ (codes "{\"body\":{\"description\":\"Roof\",\"kind\":\"repair\",\"parcel\":1,\"valuation\":250000},\"caller\":2,\"day\":19723,\"done\":\"file\",\"id\":null,\"number\":1}" ++ 10
        ∷ (codes "{\"body\":{},\"caller\":1,\"day\":19723,\"done\":\"start-review\",\"id\":1,\"number\":null}" ++ 10 ∷ []))))) }
{}

/// A worked example: a text of two lines and a part of a third.
pub fn lines_example()
    ensures count { line_count (codes "one\ntwo\nthr") ≡ 2 }
    ensures two { lines_of 2 (codes "one\ntwo\nthr") ≡ Some (codes "one\ntwo\n") }
    ensures fewer { lines_of 3 (codes "one\ntwo\nthr") ≡ None }
    ensures digest { option_map digest_of (lines_of 2 (codes "one\ntwo\nthr"))
        ≡ Some (codes "c3f9c8c283a2b1f2f1896f27a01cbe3cddc0c9d93f752e4639035a0f5b36f6e8") }
{}
