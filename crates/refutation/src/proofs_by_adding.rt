//! Proofs by adding, and what a check finds of one.

use std::marker::Model;

/// A sum of two rows, each by its number: p times the left row plus q times the right row, made normal. In a refutation p
/// is 1 to 2^62 and q is 0 to 2^62.
#[derive(Clone, Copy, Debug, PartialEq, Eq)]
pub struct Add {
    pub p: u64,
    pub left: u32,
    pub q: u64,
    pub right: u32,
}

/// A proof by adding: what some sums make of the tidied rows, which are numbered from 0 by their coefficients, each sum by
/// the next number; and the number of the row that ends it.
#[derive(Debug, Drop)]
pub struct Refutation {
    pub adds: Vec<Add>,
    pub last: u32,
}

impl Model for Refutation {
    ghost use Rattle.refutation.specs.Refutations as refutations;

    ghost Value = { refutations.Refutation };

    ghost view = { λ proof. record { adds = proof.adds.items; last = proof.last } };
}

/// What is wrong with a proof.
#[derive(Clone, Copy, Debug, PartialEq, Eq)]
pub enum Why {
    /// It isn't the one that is due. A check of rows never says so.
    Order,
    /// The add of this number, from 0, names a number that is no row yet.
    Index(u32),
    /// The add of this number names a row with a number above 2^62 in size.
    Wide(u32),
    /// The last row isn't false.
    Open,
}

/// What a check finds.
#[derive(Clone, Copy, Debug, PartialEq, Eq)]
pub enum Checked {
    /// The proof is a refutation.
    Yes,
    /// It is none, and why.
    No(Why),
}
