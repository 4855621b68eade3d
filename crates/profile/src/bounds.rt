//! The bounds of the loops of a nest.

use affine::Form;
use std::marker::Model;

/// The forms of the lower bound and of the trip of a loop, where its head was seen.
#[derive(Drop)]
pub struct Bounds<const D: usize> {
    pub lower: Option<Form<D>>,
    pub trip: Option<Form<D>>,
}

impl<const D: usize> Model for Bounds<D> {
    ghost use Rattle.profile.specs.Parts.{LoopBounds};

    ghost Value = { LoopBounds };

    ghost view = { λ b. record { lower = b.lower; trip = b.trip } };
}
