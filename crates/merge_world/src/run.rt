//! Events that happen one after another.
ghost use Rattle.std.specs.Prelude.{◌≡◌, ◌<◌, ◌^◌, length, IfOk};
ghost use Rattle.merge_world.specs.World.{AreEqual, AreSound, IsSettled, opening, puts_taken, ran};

use crate::{Event, World};
use composed_value::Kind;
use lattice_laws::{Items, NoMemory};
use placement::Placement;
use std::alloc::Global;

/// Makes the events happen one after another, each where it can be. Each key has a kind, and there are
/// fewer than 2^32 events.
///
/// After every list of events each cell of each worker holds exactly the puts that its clock counts, and
/// once the world is settled all replicas of each key are equal: the protocol converges, in whatever
/// order gossip comes (strong eventual consistency; Shapiro, Preguica, Baquero, Zawirski 2011).
pub fn run_world(
    alloc: Global,
    placement: Placement,
    kinds: Items<Kind>,
    events: &[Event],
) -> Result<World, NoMemory>
    requires kinds { length kinds ≡ length placement }
    requires few { length events.now < 2 ^ 32 }
    ensures world { IfOk result (λ world. world ≡ ran (opening placement kinds) events.now) }
    ensures sound { IfOk result (AreSound (puts_taken (opening placement kinds) events.now)) }
    ensures equal { IfOk result (λ world. IsSettled world → AreEqual world) }
{
    let mut world = World::new(alloc, placement, kinds)?;
    for event in events {
        event.attest();
        world.step(event)?;
    }
    Ok(world)
}
