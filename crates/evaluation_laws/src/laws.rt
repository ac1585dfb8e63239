//! The laws of evaluations and rows.

ghost use Rattle.evaluation_laws.specs.Laws.{EachHasOneEvaluation};
ghost use Rattle.evaluation_laws.specs.Rows.{RowsShow, RowsGiveValues};

/// Of a checked program an instant of each declaration has exactly one evaluation: each frame has its least order of
/// equations, and no parts wait for each other in a circle.
pub fn each_has_an_evaluation()
    ensures { EachHasOneEvaluation }
{}

/// Of a checked program the row of a run of a declaration at an instant, which has the value of each slot, shows the
/// frame at the end of each way of calls. So in it the resolution of an expression of that frame is worth the
/// expression's value, on its clock and off it.
pub fn rows_show()
    ensures shown { RowsShow }
    ensures values { RowsGiveValues }
{}
