//! Instances of the blocks of a nest.

use std::marker::Model;

/// An instance: the rank of its block, and its D counters, with zeros after those that the block has.
#[derive(Clone, Copy, Debug, PartialEq, Eq)]
pub struct Instance<const D: usize> {
    pub block: u8,
    pub at: [i64; D],
}

impl<const D: usize> Model for Instance<D> {
    ghost use Rattle.domain.specs.Instances.{Instance as Point};

    ghost Value = { Point };

    ghost view = { λ x. record { block = x.block; at = x.at } };

    ghost inverse = { λ x. record { block = x.block; at = x.at } };
}
