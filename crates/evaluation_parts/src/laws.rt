//! Laws of unfolded declarations, and of the order in which an instant would be evaluated if nothing had to wait.

ghost use Rattle.evaluation_parts.specs.Declares.{InstancesUnfold};
ghost use Rattle.evaluation_parts.specs.Turns.{TurnsAreInTurn};

/// The declarations of a program, each with the places of those that it calls, unfold to the program's instances.
pub fn instances_unfold()
    ensures { InstancesUnfold }
{}

/// Where the orders of frames are those of their declarations, what is evaluated at an instant by the orders of the
/// declarations is what is evaluated by those of the frames.
pub fn turns_are_in_turn()
    ensures { TurnsAreInTurn }
{}
