//! Laws of listings, each the contract of a function that does nothing.

ghost use Rattle.listing.specs.Examples.{ListingExamples};
ghost use Rattle.listing.specs.Laws.{OneListing};

/// A file and options have exactly one dependence listing.
pub fn one_listing()
    ensures { OneListing }
{}

/// Lines that were written by hand.
pub fn listing_examples()
    ensures { ListingExamples }
{}
