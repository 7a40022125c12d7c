//! Worked registers and dates.

ghost use Rattle.std.specs.Prelude.{◌≡◌, ◌∷◌, [], ◌++◌, codes};
ghost use Rattle.permit_base.specs.declared.words.RegisterKind.TheVariants.{Files, Deadlines, Inspections};
ghost use Rattle.permit_model.specs.Register.{date_text};
ghost use Rattle.permit_model.specs.Examples.{file_house, requested_file, register_after, line_end};

/// Dates by their day numbers, from the first day to the last deadline.
pub fn date_texts()
    ensures first { date_text 0 ≡ codes "1970-01-01" }
    ensures new_year { date_text 19723 ≡ codes "2024-01-01" }
    ensures leap_day { date_text 19782 ≡ codes "2024-02-29" }
    ensures deadline { date_text 19903 ≡ codes "2024-06-29" }
    ensures requested { date_text 20000 ≡ codes "2024-10-04" }
    ensures last { date_text 200000 ≡ codes "2517-08-01" }
{}

/// The register of all files on the day of a filing.
pub fn files_register()
    ensures text { register_after (file_house ∷ []) Files 19723 ≡
        codes " FILE PARCEL KIND      STAGE     TIMING DEADLINE           CENTS" ++ line_end
        ++ codes "    1      1 construct filed     ahead  2024-06-29      25000000" ++ line_end
        ++ codes "files 1" ++ line_end }
{}

/// The register of deadlines on the deadline day, and on the day after it, when a day is missing.
pub fn deadlines_register()
    ensures on_the_day { register_after (file_house ∷ []) Deadlines 19903 ≡
        codes " FILE STAGE     TIMING DEADLINE      LEFT" ++ line_end
        ++ codes "    1 filed     near   2024-06-29       0" ++ line_end
        ++ codes "files 1" ++ line_end }
    ensures past { register_after (file_house ∷ []) Deadlines 19904 ≡
        codes " FILE STAGE     TIMING DEADLINE      LEFT" ++ line_end
        ++ codes "    1 abandoned past   2024-06-29      -1" ++ line_end
        ++ codes "files 1" ++ line_end }
{}

/// The register of inspections, with one requested and no inspector assigned.
pub fn inspections_register()
    ensures text { register_after requested_file Inspections 20000 ≡
        codes " FILE NEXT    REQUESTED  INSPECTOR NOTICES" ++ line_end
        ++ codes "    1 footing 2024-10-04         -       0" ++ line_end
        ++ codes "files 1" ++ line_end }
{}
