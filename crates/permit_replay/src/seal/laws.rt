//! Laws about seals: functions with nothing to do, whose contracts are the laws.

ghost use Rattle.std.specs.Prelude.{◌≡◌, ℕ, List, [], codes};
ghost use Rattle.permit_model.specs.Tables.{Tables, tables};
ghost use Rattle.permit_store.specs.Founding.{founding};
ghost use Rattle.permit_replay.specs.Alike.{AreAlike};
ghost use Rattle.permit_replay.specs.Sealing.{IsSealOf};
ghost use Rattle.permit_replay.specs.TablesText.{tables_text};

/// Tables that no call of a store distinguishes have one seal.
pub fn alike_tables_have_one_seal()
    ensures { (t u : Tables) (one other : List ℕ) → AreAlike t u → IsSealOf t one → IsSealOf u other → one ≡ other }
{}

/// The text of an office that was only founded, on day 19700.
pub fn text_of_a_founding()
    ensures { tables_text (tables (founding (codes "Chief") (codes "71c480df93d6ae2f1efad1447c66c9525e316218cf51fc8d9ed832f2daf18b73") 19700)) []
        ≡ codes "desk\t2\t19700\t1\t0\t0\nparty\t1\tChief\tofficial\t71c480df93d6ae2f1efad1447c66c9525e316218cf51fc8d9ed832f2daf18b73\n" }
{}
