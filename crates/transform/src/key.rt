//! The key of a phase.

/// The key of a phase: the leading numbers of the place, with a 0 for each row of the band, and the wave. Keys of one
/// schedule compare as their lists of numbers do, by the first number that differs; phases run in this order.
#[derive(Clone, Copy, Debug, PartialEq, Eq, PartialOrd, Ord)]
pub struct Key<const D: usize> {
    /// The leading numbers of the place, then zeros.
    pub lead: [i128; D],
    /// The sum of the tile numbers of the band's wave rows.
    pub wave: i128,
}
