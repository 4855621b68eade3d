//! Laws of answers, each the contract of a function that does nothing.

ghost use Rattle.nest_top.specs.Laws.{EachHasItsCause, FilesAreOfI64s, OneAnswer, SomeAnswer};

/// Arguments and a text have at most one answer: bytes and a status.
pub fn one_answer()
    ensures { OneAnswer }
{}

/// The numbers of every file that a text reads as are i64s.
pub fn files_are_of_i64s()
    ensures { FilesAreOfI64s }
{}

/// Arguments and a text have an answer.
pub fn some_answer()
    ensures { SomeAnswer }
{}

/// Usage, Refused, Ended, Trapped and Limited are the answer's status exactly where their causes hold.
pub fn each_has_its_cause()
    ensures { EachHasItsCause }
{}
