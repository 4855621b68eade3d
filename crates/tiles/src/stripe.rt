//! Addresses at even steps.
ghost use Rattle.std.specs.Prelude.{◌≡◌, pos};

/// The addresses `first + step * k` for each k below `count`. The step is 0 where the count is 1.
#[derive(Clone, Copy, Debug, PartialEq, Eq)]
pub struct Stripe {
    pub first: u64,
    pub step: i64,
    pub count: u64,
    ghost single: { count ≡ 1 → step ≡ pos 0 },
}
