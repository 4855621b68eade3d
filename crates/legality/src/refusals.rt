//! What is answered of a schedule.

use dependence::Side;
use fourier_motzkin::Ruling;
use nest_lang::AccessRef;

/// Why a schedule is refused: two accesses and a case, the row of the schedule, from 1, that may be violated there, how,
/// and the verdict on that, which isn't Empty.
#[derive(Clone, Copy, Debug, PartialEq, Eq)]
pub struct Refusal {
    pub first: AccessRef,
    pub second: AccessRef,
    pub case: u8,
    pub row: u8,
    pub side: Side,
    pub verdict: Ruling,
}

/// What is answered of a schedule.
#[derive(Clone, Copy, Debug, PartialEq, Eq)]
pub enum Judged {
    Legal,
    Refused(Refusal),
}
