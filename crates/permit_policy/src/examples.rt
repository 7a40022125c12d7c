//! Worked texts of policies: functions with nothing to do, whose contracts say what the texts mean.

ghost use Rattle.std.specs.Prelude.{◌≡◌, ◌≢◌, ◌<◌, ◌++◌, ℕ, List, [], ◌∷◌, length, Ok, Err, codes};
ghost use Rattle.permit_model.specs.Facts.{Facts};
ghost use Rattle.permit_model.specs.Policy.{decision, default_denial};
ghost use Rattle.permit_model.specs.StandardPolicy.{standard_policy};
ghost use Rattle.permit_policy.specs.Examples.{line, table_text, owner_and_contractor, good_rules, fault_in, count_read, standard_text};
ghost use Rattle.permit_policy.specs.PolicyText.{meaning, refused};
ghost use Rattle.permit_policy.specs.declared.fault.PolicyFault.TheVariants as fault;

/// The text of the standard policy means the standard policy.
pub fn standard_text_means_standard_policy()
    ensures { meaning standard_text ≡ Ok standard_policy }
{}

/// Faults that lie in no table. Want of memory is the meaning of no text.
pub fn faults_of_the_whole()
    ensures too_long { (text : List ℕ) → 65536 < length text → meaning text ≡ refused fault.TooLong }
    ensures never_memory { (text : List ℕ) (rule : ℕ) →
        meaning text ≢ Err (record { code = fault.Memory; rule = rule }) }
    ensures unreadable { meaning (codes "rule") ≡ refused fault.Unreadable }
    ensures unknown_top { meaning (line (codes "rules = 1")) ≡ refused fault.Shape }
    ensures no_array { meaning (line (codes "rule = 1")) ≡ refused fault.Shape }
{}

/// Faults in a table, each with its place.
pub fn faults_in_a_table()
    ensures missing_effect { meaning (line (codes "[[rule]]") ++ line (codes "name = \"a\""))
        ≡ fault_in fault.Shape 1 }
    ensures named_default { meaning (table_text (codes "default") (codes "deny"))
        ≡ fault_in fault.Name 1 }
    ensures used_before { meaning (table_text (codes "a") (codes "deny") ++ table_text (codes "a") (codes "allow"))
        ≡ fault_in fault.Name 2 }
    ensures unknown_effect { meaning (table_text (codes "a") (codes "let"))
        ≡ fault_in fault.Effect 1 }
    ensures empty_list { meaning (table_text (codes "a") (codes "deny") ++ line (codes "role = []"))
        ≡ fault_in fault.List 1 }
    ensures lowest_first { meaning (table_text (codes "a") (codes "let") ++ table_text (codes "default") (codes "deny"))
        ≡ fault_in fault.Name 2 }
{}

/// Two relations at once: the key `both`, which has two words and is written in place of `relation`.
pub fn two_relations()
    ensures good { meaning (table_text (codes "a") (codes "allow") ++ line (codes "both = [\"owner\", \"contractor\"]"))
        ≡ Ok (owner_and_contractor (codes "a") ∷ []) }
    ensures beside_relation { meaning (table_text (codes "a") (codes "allow") ++ line (codes "relation = [\"owner\"]")
        ++ line (codes "both = [\"owner\", \"contractor\"]")) ≡ fault_in fault.Shape 1 }
    ensures no_list { meaning (table_text (codes "a") (codes "allow") ++ line (codes "both = \"owner\""))
        ≡ fault_in fault.Shape 1 }
    ensures no_words { meaning (table_text (codes "a") (codes "allow") ++ line (codes "both = []"))
        ≡ fault_in fault.List 1 }
    ensures one_word { meaning (table_text (codes "a") (codes "allow") ++ line (codes "both = [\"owner\"]"))
        ≡ fault_in fault.List 1 }
    ensures three_words { meaning (table_text (codes "a") (codes "allow") ++ line (codes "both = [\"owner\", \"contractor\", \"applicant\"]"))
        ≡ fault_in fault.List 1 }
    ensures unknown_word { meaning (table_text (codes "a") (codes "allow") ++ line (codes "both = [\"owner\", \"neighbour\"]"))
        ≡ fault_in fault.List 1 }
    ensures word_twice { meaning (table_text (codes "a") (codes "allow") ++ line (codes "both = [\"owner\", \"owner\"]"))
        ≡ fault_in fault.List 1 }
{}

/// How many rules a policy may have: none, with the key `rule` or without it, and up to 64.
pub fn policy_sizes()
    ensures no_text { meaning [] ≡ Ok [] }
    ensures no_tables { meaning (line (codes "rule = []")) ≡ Ok [] }
    ensures no_rules_deny { (facts : Facts) → decision [] facts ≡ default_denial }
    ensures sixty_four { count_read (meaning (good_rules 64)) ≡ 64 }
    ensures sixty_five { meaning (good_rules 65) ≡ refused fault.TooMany }
{}
