//! Certificates, and what a check finds of one.

use dependence::Side;
use nest_lang::AccessRef;
use refutation::{Refutation, Why};
use std::marker::Model;

/// A block of a certificate: that no point meets the system of two accesses and a case, from 1, together with a row of a
/// schedule, from 1, that is violated on a side; and the proof of that.
#[derive(Debug, Drop)]
pub struct Claimed {
    pub first: AccessRef,
    pub second: AccessRef,
    pub case: u8,
    pub row: u8,
    pub side: Side,
    pub proof: Refutation,
}

/// Blocks about a schedule for chunks of at most `length` turns. The number of its candidate, from 1, and the number of turns
/// that were observed say where the schedule and the prediction come from; a check looks at neither.
#[derive(Debug, Drop)]
pub struct Certificate {
    pub candidate: u8,
    pub length: i64,
    pub sample: i64,
    pub blocks: Vec<Claimed>,
}

impl Model for Certificate {
    ghost use Rattle.certify.specs.Certificates as certificates;

    ghost Value = { certificates.Certificate };

    ghost view = { λ c. record { candidate = c.candidate; length = c.length; sample = c.sample; blocks = c.blocks.items } };
}

/// The number of a block that fails, from 0, and why. `Order`: it is about something else than what is due, it is missing,
/// or it is one too many.
#[derive(Clone, Copy, Debug, PartialEq, Eq)]
pub struct BlockFault {
    pub block: usize,
    pub why: Why,
}

/// What a check of a certificate finds.
#[derive(Clone, Copy, Debug, PartialEq, Eq)]
pub enum ScheduleCheck {
    /// Each block is the one that is due, and refutes its rows.
    Yes,
    /// The first block that fails.
    No(BlockFault),
}
