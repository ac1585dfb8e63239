//! What the values of the table are.

ghost use Rattle.slot_rows.specs.Agreement.{DoneAgrees, NoneMetWithin, ReadAgree, RowsAgree, UnmetAgree, UnmetWithin};

/// Take a set of slots whose sources read only slots of the set, and rows that follow from these. Up to an instant at
/// which no operation is outside 128 bits, in these rows or by what the table says, the table has their values.
pub fn rows_agree()
    ensures within { RowsAgree }
    ensures unmet { UnmetAgree }
    ensures read { ReadAgree }
{}

/// Where the table says of no instant so far that an operation was outside 128 bits, none is outside in the rows that
/// follow. And where none is outside in these, in no slot that is read, the table says so.
pub fn none_met()
    ensures rows { UnmetWithin }
    ensures table { NoneMetWithin }
{}

/// Take the first instant at which an operation is outside 128 bits in the rows that follow. There too the table
/// has the values of slots whose sources have none there and read only such slots.
pub fn done_agrees()
    ensures { DoneAgrees }
{}
