//! Worked rows of when a trace fits and of the first word that does not, with the traces of `specs/FitRows.antt`.

ghost use Rattle.std.specs.Prelude.{◌≡◌, true, false, [], ◌∷◌, None, Some, codes};
ghost use Rattle.lus_meaning.specs.Value.{absent, flag};
ghost use Rattle.lus_meaning.specs.Fits.{FitsProgram, misfit};
ghost use Rattle.meaning_rows.specs.RowParts.{natural};
ghost use Rattle.meaning_rows.specs.PlacedParts.{at};
ghost use Rattle.meaning_rows.specs.TraceRows.{listing_program};
ghost use Rattle.meaning_rows.specs.FitRows.{fitting, placed_lines, trace_of, misfit_with, f_with, fifth_with, name_line, first_line, in_columns, inputs_alone, input_missing, greatest, least, too_great, too_small};

/// A trace that lists free names and first values in frames two calls deep fits.
pub fn fitting_row()
    ensures fits { FitsProgram listing_program fitting }
    ensures no_misfit { misfit listing_program fitting ≡ None }
    ensures nothing_else_listed { FitsProgram listing_program inputs_alone }
{}

/// A value of a free name in a frame two calls deep has its type, and a number a size of at most 2^63 - 1. There are as
/// many values as instants.
pub fn values_misfit_row()
    ensures greatest { f_with ((7, natural 10) ∷ (10, greatest) ∷ (30, least) ∷ []) ≡ None }
    ensures too_great { f_with ((7, natural 10) ∷ (10, too_great) ∷ (30, natural 30) ∷ []) ≡ Some (at 6 10) }
    ensures too_small { f_with ((7, natural 10) ∷ (10, too_small) ∷ (31, natural 30) ∷ []) ≡ Some (at 6 10) }
    ensures other_type { f_with ((7, natural 10) ∷ (10, flag true) ∷ (15, natural 30) ∷ []) ≡ Some (at 6 10) }
    ensures absent { f_with ((7, absent) ∷ (9, absent) ∷ (11, absent) ∷ []) ≡ None }
    ensures too_few { f_with ((7, natural 10) ∷ (10, flag true) ∷ []) ≡ Some (at 6 1) }
    ensures too_many { f_with ((7, natural 10) ∷ (10, natural 20) ∷ (13, natural 30) ∷ (16, natural 40) ∷ [])
        ≡ Some (at 6 16) }
    ensures input { misfit_with 0 (name_line 2 [] "c" ((3, flag false) ∷ (9, absent) ∷ (11, flag true) ∷ []))
        ≡ Some (at 2 9) }
    ensures input_too_great { misfit_with 1 (name_line 3 [] "x" ((3, natural 1) ∷ (5, too_great) ∷ (25, natural 3)
        ∷ []))
        ≡ Some (at 3 5) }
{}

/// Only free names and first values of frames are listed, besides the inputs, and each once.
pub fn places_misfit_row()
    ensures first_type { fifth_with (first_line 5 (1 ∷ 1 ∷ []) 1 ((8, flag true) ∷ [])) ≡ Some (at 5 8) }
    ensures first_absent { fifth_with (first_line 5 (1 ∷ 1 ∷ []) 1 ((8, absent) ∷ [])) ≡ None }
    ensures two_firsts { fifth_with (first_line 5 (1 ∷ 1 ∷ []) 1 ((8, natural 7) ∷ (10, natural 8) ∷ []))
        ≡ Some (at 5 10) }
    ensures no_such_first { fifth_with (first_line 5 (1 ∷ 1 ∷ []) 2 ((8, natural 7) ∷ [])) ≡ Some (at 5 1) }
    ensures first_elsewhere { fifth_with (first_line 5 (1 ∷ []) 1 ((6, natural 7) ∷ [])) ≡ Some (at 5 1) }
    ensures twice { fifth_with (first_line 5 (1 ∷ 2 ∷ []) 1 ((8, natural 7) ∷ [])) ≡ Some (at 7 1) }
    ensures of_condact { fifth_with (name_line 5 (3 ∷ []) "f" (in_columns 5 7 9)) ≡ None }
    ensures first_of_condact { fifth_with (first_line 5 (3 ∷ []) 1 ((6, natural 7) ∷ [])) ≡ None }
    ensures import_output { fifth_with (name_line 5 (1 ∷ 1 ∷ []) "r" (in_columns 7 9 11)) ≡ Some (at 5 1) }
    ensures argument { fifth_with (name_line 5 (1 ∷ 2 ∷ []) "a" (in_columns 7 9 11)) ≡ Some (at 5 1) }
    ensures defined { fifth_with (name_line 5 [] "y" (in_columns 3 5 7)) ≡ Some (at 5 1) }
    ensures elsewhere { fifth_with (name_line 5 (2 ∷ []) "g" (in_columns 5 7 9)) ≡ Some (at 5 1) }
    ensures turned { fifth_with (name_line 5 (2 ∷ 1 ∷ []) "f" (in_columns 7 9 11)) ≡ Some (at 5 1) }
    ensures no_such_call { fifth_with (name_line 5 (1 ∷ 3 ∷ []) "f" (in_columns 7 9 11)) ≡ Some (at 5 1) }
{}

/// The words are tested in their order: the node, the number of instants, the lines, and at the end whether an input is
/// missing.
pub fn words_misfit_row()
    ensures no_such_node { misfit listing_program (trace_of "nobody" 0 placed_lines) ≡ Some (at 1 7) }
    ensures contract { misfit listing_program (trace_of "lim" 3 placed_lines) ≡ Some (at 1 7) }
    ensures no_instant { misfit listing_program (trace_of "main" 0 placed_lines) ≡ Some (at 1 12) }
    ensures many_instants { misfit listing_program (trace_of "main" 1002 placed_lines) ≡ Some (at 1 12) }
    ensures fewer_instants { misfit listing_program (trace_of "main" 2 placed_lines) ≡ Some (at 2 14) }
    ensures more_instants { misfit listing_program (trace_of "main" 4 placed_lines) ≡ Some (at 2 1) }
    ensures other_node { misfit listing_program (trace_of "outer" 3 placed_lines) ≡ Some (at 2 1) }
    ensures missing { input_missing ≡ Some (at 9 1) }
{}
