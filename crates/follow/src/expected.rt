//! What is expected of one instance.

ghost use Rattle.std.specs.Prelude.{◌≡◌, List, ℤ, pos, slice_index_or};
ghost use Rattle.follow.specs.Intervals.{Intervals, interval_by};

use crate::verify::Interval;

/// What is expected of one instance: the interval of each of its accesses, by number from 1, where there is one, and the
/// scalars that its successor begins with. Each is given where it is asked for, so nothing has to be laid out before an
/// instance is run.
pub trait Expected {
    ghost intervals: { Self → Intervals };

    ghost after: { Self → List ℤ };

    /// The expected interval of an access; None where there is none.
    fn interval(&self, access: u8) -> Option<Interval>
        ensures { interval_by result ≡ intervals self.now access };

    /// The scalar of that number, from 0, that the successor begins with; 0 where there is none.
    fn scalar_after(&self, number: u8) -> i128
        ensures { result ≡ slice_index_or (after self.now) number (pos 0) };
}
