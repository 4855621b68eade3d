//! What holds over every list of lawful steps. Each law is the contract of a function without a body, and stands for
//! all values of the definitions in `specs/Laws.antt`.
ghost use Rattle.core_steps.specs.Laws.{EveryRunKeepsTheInvariant, OtherWordsKeep, BeforeEachSettle, TwoWorkersNeverHoldOneTile, OneWriterInAPhase, LoadAnswersOwnStoreOrPost};

/// Every list of lawful steps from the start keeps the invariant.
pub fn inv_holds()
    ensures { EveryRunKeepsTheInvariant }
{}

/// Between a post and its settle, words that are writes of no tile of the plan keep their values.
pub fn others_keep()
    ensures { OtherWordsKeep }
{}

/// Just before each lawful settle, each known tile is held by main, and main's failure is set exactly where the flag
/// is at the epoch.
pub fn before_settle()
    ensures { BeforeEachSettle }
{}

/// Two workers never hold one tile.
pub fn one_holder()
    ensures { TwoWorkersNeverHoldOneTile }
{}

/// Between a post and its settle a word is written by at most one view.
pub fn one_writer()
    ensures { OneWriterInAPhase }
{}

/// A worker's load answers its own latest store to that word, else the value at the post, whatever the others did.
pub fn own_loads()
    ensures { LoadAnswersOwnStoreOrPost }
{}
