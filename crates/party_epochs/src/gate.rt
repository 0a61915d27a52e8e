//! What is told of each turn in an epoch.
use crate::Activity;
use parties::Pace;

/// Is called before each turn of each party in an epoch. It changes nothing that a contract sees.
pub trait Gate {
    /// The party of this number takes its turn of this number. Workers are the parties from 0 on, and sessions
    /// follow; the turns of a party are counted from 1 over the run.
    fn at(&self, party: u16, turn: u64);
}

/// A gate that lets everyone pass.
#[derive(Drop)]
pub struct FreeGate;

impl Gate for FreeGate {
    fn at(&self, _party: u16, _turn: u64) {}
}

/// The pace of a party in an epoch. Before each turn the gate is called. Where a turn found nothing to do the party
/// waits until others have done something, and leaves the epoch where nobody is at work.
#[derive(Drop)]
pub(crate) struct EpochPace<'a, E: Gate> {
    gate: &'a E,
    activity: &'a Activity,
    party: u16,
    /// How many turns it has taken.
    pub(crate) turns: u64,
    /// How many turns of all parties had done something before its last one.
    seen: u64,
    /// Whether its last turn found nothing to do, or it has taken none yet.
    waited: bool,
    /// Whether it has left the epoch.
    left: bool,
}

impl<'a, E: Gate> EpochPace<'a, E> {
    ghost use Rattle.std.specs.Prelude.{◌≡◌};

    /// The pace of the party of this number, which has taken so many turns.
    pub(crate) fn new(
        gate: &'a E,
        activity: &'a Activity,
        party: u16,
        turns: u64,
    ) -> EpochPace<'a, E>
        ensures { result.turns ≡ turns }
    {
        EpochPace {
            gate,
            activity,
            party,
            turns,
            seen: 0,
            waited: true,
            left: false,
        }
    }

    /// The party takes no more turns in this epoch: tells how many it has taken.
    pub(crate) fn leave(self) -> u64
        ensures { result ≡ self.entry.turns }
    {
        if !self.left {
            if !self.waited {
                self.activity.tell_done();
            }
            self.activity.leave();
        }
        self.turns
    }
}

impl<'a, E: Gate> Pace for EpochPace<'a, E> {
    ghost steps = { λ pace. pace.turns };

    fn begin(&mut self) {
        if !self.waited {
            self.activity.tell_done();
        }
        self.waited = false;
        self.seen = self.activity.done();
        self.turns = self.turns.saturating_add(1);
        self.gate.at(self.party, self.turns);
    }

    fn tries_again(&mut self) -> bool {
        self.waited = true;
        let again = self.activity.wait(self.seen);
        self.left = !again;
        again
    }
}
