//! What `MainSeat::split` and `MainSeat::join` do to the table is the core's step. Each law is the contract of a
//! function without a body.
ghost use Rattle.shared_words.specs.Laws.{SplitIsItsStep, JoinIsItsStep};

/// Where main's view has a plan and the number isn't out, a split is lawful, and the views after it are those that
/// the table has when a seat is cut off main's.
pub fn split_is_its_step()
    ensures { SplitIsItsStep }
{}

/// Where a worker's view stands among the views, a join is lawful, and the views after it are those that the table
/// has when main's seat takes the worker's in.
pub fn join_is_its_step()
    ensures { JoinIsItsStep }
{}
