//! The laws of the slots on which the parts of an instant rest.

ghost use Rattle.rest_laws.specs.Rests.{EachEvaluationRests};

/// Of a checked program, in the evaluation of an instant of a declaration: there are slots on which its parts rest.
/// They are all that the parts read, and the conditions, and all that the sources of these slots read, now and from
/// before. In the row of a run at an instant, where no part is outside 128 bits, none of these sources has an
/// operation outside; and where no part is that stands before another one, none has on which that one rests.
pub fn parts_rest()
    ensures { EachEvaluationRests }
{}
