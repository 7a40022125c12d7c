//! Laws of lines and texts: functions with nothing to do, whose contracts are the laws.

ghost use Rattle.std.specs.Prelude.{◌≡◌, ◌↔◌, ◌≤◌, ◌==◌, ◌++◌, [], ◌∷◌, not, ℕ, IsTrue, List, Some, length};
ghost use Rattle.std.specs.List.{list_all};
ghost use Rattle.std.specs.Str.{is_utf8};
ghost use Rattle.permit_model.specs.History.{History};
ghost use Rattle.permit_base.specs.Digests.{digest_of};
ghost use Rattle.permit_model.specs.Renewal.{renewed};
ghost use Rattle.permit_model.specs.Machine.{IsHistory};
ghost use Rattle.permit_history.specs.Evidence.{lines_of};
ghost use Rattle.permit_history.specs.LineData.{line_of, text_of};
ghost use Rattle.permit_history.specs.LineRead.{longest_line, reading_of};
ghost use Rattle.permit_history.specs.Meaning.{Tells, begins_none, meant};
ghost use Rattle.permit_history.specs.declared.entry.Deed.TheVariants.{Begin, RenewToken};
ghost use Rattle.permit_history.specs.Text.{next_line, GivesInTurn};
ghost use Rattle.permit_history.specs.Told.{told_on, told_history};
ghost use Rattle.permit_history.specs.Within.{is_within};
ghost use Rattle.permit_history.specs.declared.entry.Entry.{Entry};

/// What is written is read: the line of each entry within its limits is one that is taken, and as that entry.
pub fn what_is_written_is_read()
    ensures read { (entry : Entry) → IsTrue (is_within entry) → reading_of (line_of entry) ≡ Ok entry }
    ensures short { (entry : Entry) → IsTrue (is_within entry) → length (line_of entry) ≤ longest_line }
    ensures utf8 { (entry : Entry) → IsTrue (is_within entry) → IsTrue (is_utf8 (line_of entry)) }
{}

/// What is taken is what was written: a line is read as the entry whose line it is, and as no other.
pub fn what_is_read_was_written()
    ensures { (line : List ℕ) (entry : Entry) → reading_of line ≡ Ok entry → line_of entry ≡ line }
{}

/// No two entries have one line, and no two lists of entries have one text.
pub fn no_two_histories_have_one_text()
    ensures lines { (a b : Entry) → IsTrue (is_within a) → IsTrue (is_within b) → line_of a ≡ line_of b → a ≡ b }
    ensures texts { (a b : List Entry) → IsTrue (list_all is_within a) → IsTrue (list_all is_within b) → text_of a ≡ text_of b → a ≡ b }
{}

/// Reading a text a line at a time gives exactly its entries, in their order, and then what comes after them; and it ends
/// where no LF is left.
pub fn a_text_is_read_entry_by_entry()
    ensures all { (entries : List Entry) (left : List ℕ) → IsTrue (list_all is_within entries) → GivesInTurn (text_of entries ++ left) entries left }
    ensures only { (bytes : List ℕ) (entries : List Entry) (left : List ℕ) → GivesInTurn bytes entries left → bytes ≡ text_of entries ++ left }
    ensures end { (left : List ℕ) → (next_line left ≡ None) ↔ IsTrue (list_all (λ byte. not (byte == 10)) left) }
{}

/// The first lines of a text are those of its first entries, and what is appended changes none of them.
pub fn first_lines_are_those_of_first_entries()
    ensures entries { (bytes : List ℕ) (entries : List Entry) (left : List ℕ) → GivesInTurn bytes entries left
        → lines_of (length entries) bytes ≡ Some (text_of entries) }
    ensures appended { (n : ℕ) (bytes more lines : List ℕ) → lines_of n bytes ≡ Some lines → lines_of n (bytes ++ more) ≡ Some lines }
{}

/// Each entry of a history is in its text: one line for each.
pub fn each_entry_is_told()
    ensures { (h : History) → IsHistory h → length (told_history h) ≡ length h }
{}

/// The text of a history has no entry that begins with an office that was there already. Entries without one mean the same over any
/// start, and such an entry alone means its start.
pub fn a_start_is_what_was_before_a_beginning()
    ensures founded { (h : History) → IsTrue (list_all (λ entry. begins_none entry.deed) (told_history h)) }
    ensures same { (start other entries : List Entry) → IsTrue (list_all (λ entry. begins_none entry.deed) entries)
        → meant start entries ≡ meant other entries }
    ensures begun { (start : List Entry) (day : ℕ) (digest : List ℕ) → meant start (told_on day (Begin digest) ∷ []) ≡ start }
{}

/// The text of a history gives that history. A line after it with another token of a party makes it the text of the history in
/// which the party had the token from the start, whatever the line's day.
pub fn a_text_tells_its_history()
    ensures told { (h : History) → Tells (text_of (told_history h)) h }
    ensures renewed { (h : History) (party day : ℕ) (token : List ℕ) → IsHistory h
        → Tells (text_of (told_history h ++ told_on day (RenewToken party (digest_of token)) ∷ [])) (renewed party token h) }
{}
