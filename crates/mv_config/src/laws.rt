//! The law of configurations, by specs/Check.antt. A law has no body: call it for its clause.

ghost use Rattle.std.specs.Prelude.{◌≡◌, is_some, not};
ghost use Rattle.mv_config.specs.Check.{is_valid, refusal_of};
ghost use Rattle.mv_config.specs.Setup.{Setup};

/// Shows that a configuration is refused exactly if it does not pass the test `is_valid`.
pub fn refused_configurations_are_not_valid()
    ensures { (c : Setup) → is_some (refusal_of c) ≡ not (is_valid c) }
{}
