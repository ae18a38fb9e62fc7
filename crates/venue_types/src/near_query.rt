//! A question for the nearest amenities of a category.

ghost use Rattle.std.specs.Prelude.{◌≡◌, ◌≤◌};

use crate::{FeatureId, Text};
use std::marker::Model;

/// From where the nearest are asked for, their category, byte for byte, the name of the profile, how many at most, one to ten, and whether
/// with the certificate.
#[derive(Drop)]
pub struct NearQuery {
    from: FeatureId,
    category: Text,
    profile: Text,
    limit: u8,
    certificate: bool,
}

impl Model for NearQuery {
    ghost use Rattle.std.specs.Prelude.{◌≤◌};
    ghost use Rattle.venue_types.specs.Nearest.{Nearest};

    ghost Value = { Nearest };

    ghost view = { λ q. record { from = q.from; category = q.category; profile = q.profile; limit = q.limit; certificate = q.certificate } };

    ghost invariant = { λ q. (1 ≤ q.limit) × (q.limit ≤ 10) };
}

impl NearQuery {
    /// The question for so many of the nearest.
    pub fn new(
        from: FeatureId,
        category: Text,
        profile: Text,
        limit: u8,
        certificate: bool,
    ) -> NearQuery
        requires some { 1 ≤ limit }
        requires few { limit ≤ 10 }
        ensures { result ≡ record { from = from; category = category; profile = profile; limit = limit; certificate = certificate } }
    {
        NearQuery {
            from,
            category,
            profile,
            limit,
            certificate,
        }
    }

    pub fn from(&self) -> FeatureId
        ensures { result ≡ self.now.from }
    {
        self.from
    }

    pub fn category(&self) -> &Text
        ensures { result.now ≡ self.now.category }
    {
        &self.category
    }

    pub fn profile(&self) -> &Text
        ensures { result.now ≡ self.now.profile }
    {
        &self.profile
    }

    /// How many are asked for at most, 1 to 10.
    pub fn limit(&self) -> u8
        ensures limit { result ≡ self.now.limit }
        ensures some { 1 ≤ result }
        ensures few { result ≤ 10 }
    {
        self.limit
    }

    /// Whether what shows that none nearer is left out is asked for.
    pub fn certificate(&self) -> bool
        ensures { result ≡ self.now.certificate }
    {
        self.certificate
    }
}
