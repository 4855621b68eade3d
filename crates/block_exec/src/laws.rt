//! Laws of instances whose addresses are verified, which every law on other orders rests on, each the
//! contract of a function that does nothing.

ghost use Rattle.block_exec.specs.Laws.{DependsWhereLoaded, ChangesWhereStored, InstancesDependWhereLoaded, InstancesChangeWhereStored, InstancesArePlainOrStop};

/// What a block does depends on the memory only where its loads are expected, and on the number of
/// words.
pub fn depends_where_loaded()
    ensures { DependsWhereLoaded }
{}

/// A block leaves every word where no store is expected, also where it is cut off.
pub fn changes_where_stored()
    ensures { ChangesWhereStored }
{}

/// What an instance of a block or of a head shows and does depends on its scalars and locals, on the words
/// where its loads are expected, and on the number of words.
pub fn instances_depend_where_loaded()
    ensures { InstancesDependWhereLoaded }
{}

/// An instance of a block leaves every word where no store is expected; one of a head changes nothing.
pub fn instances_change_where_stored()
    ensures { InstancesChangeWhereStored }
{}

/// An instance whose addresses are verified is the plain one, or stops at an access that is not expected:
/// it then did what the plain one does, up to the address of that access.
pub fn instances_are_plain_or_stop()
    ensures { InstancesArePlainOrStop }
{}
