//! Laws: functions that do nothing, each with a law of the definitions as its contract.

ghost use Rattle.affine.specs.Laws.{DivisorIsGreatest, FloorIsGreatest, NormalKeepsPoints, NormalIsIdempotent, CombinationIsLinear, IdentityKeepsPoints, ProductIsLinear, IdentityIsOneToOne, SwapKeepsOneToOne, SkewKeepsOneToOne, IdentityIsInverse, SwapKeepsInverse, SkewKeepsInverse, InvertedIsOneToOneAndOnto, FormOverPlaces, RowOverPlaces, QuotientIsInterval};

/// What Euclid's rule gives is the greatest common divisor.
pub fn divisor_is_greatest()
    ensures { DivisorIsGreatest }
{}

/// Division rounds down.
pub fn floor_is_greatest()
    ensures { FloorIsGreatest }
{}

/// A whole-number point meets a row exactly where it meets the row's normal form.
pub fn normal_keeps_points()
    ensures { NormalKeepsPoints }
{}

/// The normal form is its own normal form.
pub fn normal_is_idempotent()
    ensures { NormalIsIdempotent }
{}

/// The sum of a combination of two rows is the combination of their sums.
pub fn combination_is_linear()
    ensures { CombinationIsLinear }
{}

/// The unit matrix maps each point to itself.
pub fn identity_keeps_points()
    ensures { IdentityKeepsPoints }
{}

/// The product with a combination of two points is the combination of their products.
pub fn product_is_linear()
    ensures { ProductIsLinear }
{}

/// The unit matrix maps whole-number points one to one.
pub fn identity_is_one_to_one()
    ensures { IdentityIsOneToOne }
{}

/// An exchange of two rows keeps a matrix one to one on whole-number points.
pub fn swap_keeps_one_to_one()
    ensures { SwapKeepsOneToOne }
{}

/// A row that gains a multiple of another keeps a matrix one to one on whole-number points.
pub fn skew_keeps_one_to_one()
    ensures { SkewKeepsOneToOne }
{}

/// The unit matrix is its own inverse.
pub fn identity_is_inverse()
    ensures { IdentityIsInverse }
{}

/// An exchange of two rows exchanges the same two columns of the inverse.
pub fn swap_keeps_inverse()
    ensures { SwapKeepsInverse }
{}

/// Where a row gains a multiple of another, that other's column of the inverse loses the multiple of the row's.
pub fn skew_keeps_inverse()
    ensures { SkewKeepsInverse }
{}

/// A matrix that has an inverse maps whole-number points one to one and onto.
pub fn inverted_is_one_to_one_and_onto()
    ensures { InvertedIsOneToOneAndOnto }
{}

/// A sum of products over points is one over the products of the points.
pub fn form_over_places()
    ensures { FormOverPlaces }
{}

/// A row over points is a row over their products.
pub fn row_over_places()
    ensures { RowOverPlaces }
{}

/// The numbers with one floored quotient are an interval.
pub fn quotient_is_interval()
    ensures { QuotientIsInterval }
{}
