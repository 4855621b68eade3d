//! Laws: functions that do nothing, each with a law of the definitions as its contract.

ghost use Rattle.chunk_run.specs.ScheduleLaw.{ScheduledKeeps};
ghost use Rattle.chunk_run.specs.Groups.{OneTileCounts};
ghost use Rattle.chunk_run.specs.Moments.{OthersStay};

/// The schedule law: where a schedule is legal, the follow run of the scheduled list of a launched chunk is that of its
/// predicted instances in original order: the same memory and the same steps, or None for both.
pub fn scheduled_keeps()
    ensures { ScheduledKeeps }
{}

/// The numbers of non-empty tiles of a chunk's non-empty phases are one list.
pub fn one_tile_counts()
    ensures { OneTileCounts }
{}

/// At every moment of a chunk, words that are no address of its plan's stripes have their values from the chunk's
/// start.
pub fn others_stay()
    ensures { OthersStay }
{}
