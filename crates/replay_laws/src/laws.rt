//! The laws of replays.

ghost use Rattle.replay_laws.specs.Chosen.{ShapesChoose};
ghost use Rattle.replay_laws.specs.Replayed.{AnswerIsShown, ToldIsMet};

use rest_laws::laws::parts_rest;

/// Take lines of a trace that fit a declaration of a checked program, an order of its slots, and the table of these
/// by what the lines choose. An operation that is told by the table, of the parts of an evaluation over slots, is
/// the first value outside 128 bits that the evaluation of the one frame of the lines meets. Where none is told
/// that evaluation stays within, what the table breaks and has lawful is so of the frame, and the table has the
/// values of the names of the declaration, and of each frame in which something is evaluated.
pub fn replays_tell_frames()
    ensures told { ToldIsMet }
    ensures answered { AnswerIsShown }
{
    parts_rest();
}

/// What is listed of each slot, else 0 or false by its shape, is what the lines choose.
pub fn shapes_choose()
    ensures { ShapesChoose }
{}
