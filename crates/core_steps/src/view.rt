//! What a seat knows.
use crate::plan::Plan;
use crate::sequence::Sequence;

/// What a seat knows of the shared words. Main's seat has the number 0, and a worker's a number from 1 up; a seat
/// that main took back is spent, and has the number 0 and nothing else.
#[derive(Debug, Drop)]
pub struct View {
    /// The number of the seat.
    pub number: u32,
    /// Whether a plan is posted.
    pub posted: bool,
    /// How many phases were posted.
    pub epoch: u64,
    /// The bits of the memory words at the post, or now where no plan is posted.
    pub base: Sequence<u64>,
    /// The plan of the phase, without a tile where none is posted.
    pub plan: Plan,
    /// The numbers of the workers whose seats are lent; main's alone.
    pub out: Sequence<u32>,
    /// The tiles claimed, in the order of the claims.
    pub held: Sequence<u32>,
    /// The tiles that were put into a claim, whatever the answer, in order.
    pub known: Sequence<u32>,
    /// The stores as address and bits, the newest first.
    pub own: Sequence<(u64, u64)>,
    /// Whether the flag was raised.
    pub failed: bool,
    /// Whether the flag was seen at the epoch.
    pub seen: bool,
    /// The epoch at main's latest own store, and 0 before the first.
    pub stored: u64,
}
