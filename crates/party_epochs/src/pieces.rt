//! Pieces that run beside each other.
ghost use Rattle.std.specs.Prelude.{OnOk};
ghost use Rattle.std.specs.Thread.{IsSend, IsSync};
ghost use Rattle.party_epochs.specs.Pieces.{Pairwise};

use crate::{Activity, Gate};
use lattice_laws::NoMemory;
use std::thread::{Threads, join_mut};

/// A party that takes its part in an epoch.
pub trait Piece {
    // What its part may make of it.
    ghost becomes: { Self → Self → Type 0 };

    /// Takes its turns of one epoch.
    fn part<E: Gate>(&mut self, gate: &E, activity: &Activity) -> Result<(), NoMemory>
        ensures { OnOk result (becomes self.old self.new) };
}

/// Runs pieces beside each other, by halves of halves in threads of their own. A half whose thread cannot be made
/// runs on the caller's. After `NoMemory` the pieces are of no use.
pub fn run_pieces<T: Piece + Send, E: Gate + Sync, H: Threads + Sync>(
    rt: &H,
    gate: &E,
    activity: &Activity,
    pieces: &mut [T],
) -> Result<(), NoMemory>
    ensures { OnOk result (Pairwise T.becomes pieces.old pieces.new) }
{
    match pieces {
        [] => Ok(()),
        [piece] => piece.part(gate, activity),
        _ => {
            let half = pieces.len() / 2;
            let (front, back) = pieces.split_at_mut(half);
            let (one, other) = join_mut(
                rt,
                &mut || -> Result<(), NoMemory>
                    requires { IsSync H.row × IsSync E.row × IsSend T.row }
                    ensures { OnOk result (Pairwise T.becomes front.entry.now front.exit.now) }
                { run_pieces(rt, gate, activity, front) },
                &mut || -> Result<(), NoMemory>
                    requires { IsSync H.row × IsSync E.row × IsSend T.row }
                    ensures { OnOk result (Pairwise T.becomes back.entry.now back.exit.now) }
                { run_pieces(rt, gate, activity, back) },
            );
            one?;
            other
        }
    }
}

/// Runs pieces of two kinds beside each other. After `NoMemory` they are of no use.
pub fn run_both<A: Piece + Send, B: Piece + Send, E: Gate + Sync, H: Threads + Sync>(
    rt: &H,
    gate: &E,
    activity: &Activity,
    ones: &mut [A],
    others: &mut [B],
) -> Result<(), NoMemory>
    ensures ones { OnOk result (Pairwise A.becomes ones.old ones.new) }
    ensures others { OnOk result (Pairwise B.becomes others.old others.new) }
{
    let (one, other) = join_mut(
        rt,
        &mut || -> Result<(), NoMemory>
            requires { IsSync H.row × IsSync E.row × IsSend A.row }
            ensures { OnOk result (Pairwise A.becomes ones.entry.now ones.exit.now) }
        { run_pieces(rt, gate, activity, ones) },
        &mut || -> Result<(), NoMemory>
            requires { IsSync H.row × IsSync E.row × IsSend B.row }
            ensures { OnOk result (Pairwise B.becomes others.entry.now others.exit.now) }
        { run_pieces(rt, gate, activity, others) },
    );
    one?;
    other
}
