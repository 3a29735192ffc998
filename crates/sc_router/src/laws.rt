//! The limit of buckets.

ghost use Rattle.std.specs.Prelude.{◌≡◌};
ghost use Rattle.sc_router.specs.Route.{most_buckets};
ghost use Rattle.sc_router.specs.declared.route.TheConstants.{MOST_BUCKETS};

/// The limit that a user meets is the number of the definitions.
pub fn limits_are_as_defined()
    ensures buckets { MOST_BUCKETS ≡ most_buckets }
{}
