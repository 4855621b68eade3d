//! Laws: functions that do nothing, each with a law of the definitions as its contract.

ghost use Rattle.transform.specs.Laws.{KeysCompareAsLists, PlacesComeFromPoints, PlacesTellPoints, ScriptsMakeSchedules, StandardsAreSchedules};

/// What a script that keeps the rules makes maps whole-number points one to one and onto, with entries of at most
/// 2^20 in size.
pub fn scripts_make_schedules()
    ensures { ScriptsMakeSchedules }
{}

/// Each script of the table of standard candidates keeps the rules, for 1 to 6 loops.
pub fn standards_are_schedules()
    ensures { StandardsAreSchedules }
{}

/// Equal places come from equal points.
pub fn places_tell_points()
    ensures { PlacesTellPoints }
{}

/// Each place is that of a point.
pub fn places_come_from_points()
    ensures { PlacesComeFromPoints }
{}

/// Keys of one schedule compare as the lists of their numbers do.
pub fn keys_compare_as_lists()
    ensures { KeysCompareAsLists }
{}
