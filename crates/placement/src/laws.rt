//! That a config has one placement, as a law: the function does nothing and carries it.
ghost use Rattle.std.specs.Prelude.{◌≡◌, ℕ, List};
ghost use Rattle.placement.specs.Config.{IsPlacement, placed};
ghost use Rattle.placement.specs.declared.config.Config.{Config};

/// A config has one placement: the replicas of its keys on the ring of its workers are a placement
/// of the config, and each placement of the config equals it.
pub fn placements_are_single()
    ensures single { (config : Config) (table : List (List ℕ)) → IsPlacement config table
        → table ≡ placed config }
    ensures placed { (config : Config) → IsPlacement config (placed config) }
{}
