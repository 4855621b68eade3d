//! The lines of a report, and those of a listing.

use arrayvec::ArrayVec;
use domain::{HeldWhy, What};
use follow::How;
use fourier_motzkin::Ruling;
use nest_lang::BlockRef;

/// An instance: its block, and the turn numbers of the loops around it, the outermost first.
#[derive(Clone, Debug, Drop, PartialEq, Eq)]
pub struct At {
    pub block: BlockRef,
    pub counters: ArrayVec<i64, 6>,
}

/// An access: its block, and its number in that block, from 1.
#[derive(Clone, Copy, Debug, PartialEq, Eq)]
pub struct Spot {
    pub block: BlockRef,
    pub access: u8,
}

/// Why a datum has no form.
#[derive(Clone, Debug, Drop, PartialEq, Eq)]
pub enum LineUnfit {
    /// The first sample that isn't on the line: its instance, the line there and what was seen.
    Line { at: At, line: i128, seen: i128 },
    /// The first coefficient above 2^40 in size, or the constant, which is no i64.
    Large(i128),
}

/// A line of a report: what happened to some turns of the outermost loop, and why.
#[derive(Clone, Debug, Drop, PartialEq, Eq)]
pub enum Line {
    /// These turns were profiled.
    Profile {
        first: i64,
        turns: i64,
    },
    /// A datum of the profile has no form.
    Unfit {
        block: BlockRef,
        what: What,
        why: LineUnfit,
    },
    /// A candidate, numbered from 1, was refused: the two accesses, the case of their system, the row of the schedule
    /// that is violated, whether above or below, and the verdict, which is `Maybe` or `Wide`.
    Illegal {
        candidate: u32,
        first: Spot,
        second: Spot,
        case: u8,
        row: u8,
        above: bool,
        verdict: Ruling,
    },
    /// These turns were not launched: the first instance at which a check fails.
    Held {
        first: i64,
        turns: i64,
        at: At,
        why: HeldWhy,
    },
    /// These turns were run by a candidate's schedule: its non-empty phases, and the non-empty pairs of a phase and a
    /// tile.
    Commit {
        first: i64,
        turns: i64,
        candidate: u32,
        instances: u64,
        phases: u64,
        tiles: u64,
        steps: u64,
    },
    /// These turns were rolled back: the first instance, in original order, that differs from what is expected of it.
    Rollback {
        first: i64,
        turns: i64,
        at: At,
        how: How,
    },
    /// These turns were run in original order.
    Plain {
        first: i64,
        turns: i64,
    },
    /// The lines of the nest of that number, from 1, follow.
    Nest(u32),
}

/// A line of a dependence listing.
#[derive(Clone, Debug, Drop, PartialEq, Eq)]
pub enum ListingLine {
    /// A line that reports have too.
    Report(Line),
    /// There is no profile to fit.
    NothingToFit,
    /// The form of a datum: a coefficient for each loop, the outermost first, and the constant. An address is from
    /// `low` to `high` above it; both are 0 for another datum.
    Form {
        block: BlockRef,
        what: What,
        coefficients: ArrayVec<i64, 6>,
        constant: i64,
        low: i64,
        high: i64,
    },
    /// A system of two accesses that may be met, by its case; the verdict is `Maybe` or `Wide`.
    Depends {
        first: Spot,
        second: Spot,
        case: u8,
        verdict: Ruling,
    },
    /// A candidate, numbered from 1, is legal.
    Legal(u32),
}
