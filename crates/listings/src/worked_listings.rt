//! Listings of known programs.

ghost use Rattle.listings.specs.KnownListings.{KnownListings};

/// Proves that the definitions give these listings of known programs.
pub fn known_listings()
    ensures { KnownListings }
{}
