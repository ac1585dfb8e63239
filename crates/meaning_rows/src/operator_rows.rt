//! Worked rows of the operators, with the programs of `specs/OperatorRows.antt`.

ghost use Rattle.std.specs.Prelude.{◌≡◌, true, false};
ghost use Rattle.lus_tree.specs.declared.expression.Operator.{Operator};
ghost use Rattle.lus_tree.specs.declared.expression.Operator.TheVariants.{Add, And, Equal, Less};
ghost use Rattle.lus_meaning.specs.Value.{Value, absent, flag, not_value, minus_value, apply, choose};
ghost use Rattle.lus_meaning.specs.Meaning.{merge_values};
ghost use Rattle.lus_meaning.specs.Run.{IsRun};
ghost use Rattle.lus_meaning.specs.Verdict.{throughout};
ghost use Rattle.meaning_rows.specs.RowParts.{natural};
ghost use Rattle.meaning_rows.specs.OperatorRows.{counting, counting_frame, dividing, dividing_frame, ordering, ordering_frame, deciding, deciding_frame};

/// `+`, `-`, `*`, `div`, `mod` and the unary `-` of 7 and -7.
pub fn number_row()
    ensures run { IsRun counting 2 throughout counting_frame }
{}

/// Quotients and remainders of numbers of both signs.
pub fn division_row()
    ensures run { IsRun dividing 4 throughout dividing_frame }
{}

/// The six comparisons of a smaller, an equal and a greater number.
pub fn order_row()
    ensures run { IsRun ordering 4 throughout ordering_frame }
{}

/// The operators of truth values, and `if`.
pub fn flag_row()
    ensures run { IsRun deciding 4 throughout deciding_frame }
{}

/// Of an absent operand, or one of another type, an operator makes an absent value.
pub fn operand_row()
    ensures left { (o : Operator) (v : Value) → apply o absent v ≡ absent }
    ensures right { (o : Operator) (v : Value) → apply o v absent ≡ absent }
    ensures sum { apply Add (natural 1) (flag true) ≡ absent }
    ensures order { apply Less (flag false) (flag true) ≡ absent }
    ensures both { apply And (natural 1) (natural 1) ≡ absent }
    ensures equal { apply Equal (natural 1) (flag true) ≡ absent }
    ensures negation { not_value absent ≡ absent }
    ensures not_of_number { not_value (natural 1) ≡ absent }
    ensures opposite { minus_value absent ≡ absent }
    ensures opposite_of_flag { minus_value (flag true) ≡ absent }
    ensures merge { (v : Value) → merge_values absent v v ≡ absent }
    ensures merge_by_number { (v : Value) → merge_values (natural 1) v v ≡ absent }
    ensures choice { (v : Value) → choose absent v v ≡ absent }
    ensures choice_by_number { (v : Value) → choose (natural 1) v v ≡ absent }
{}
