//! The laws of ledgers: functions that do nothing and carry them.
ghost use Rattle.legal_runs.specs.Laws.{DrainedPartiesMakeLedgers, LedgersMakeLegalReports};

/// A report of a valid script that came from a ledger whose gossip has settled is legal, and its puts
/// are causal.
///
/// The order of the proof is that of Wu, Faleiro, Lin and Hellerstein's store (2018) turned into lists:
/// own cells from the sessions' puts, gossip from own cells, replies from both, so that no put supports
/// itself. Causal order is told by Lamport numbers (Lamport 1978), without moments in time.
pub fn ledgers_make_legal_reports()
    ensures { LedgersMakeLegalReports }
{}

/// The report of parties that are drained came from the ledger of what they have in hand, and their
/// gossip has settled.
///
/// It rests on the share that each party kept, and on what settling a box tells of two: a worker
/// received all that a session sent it, a session the first of a worker's replies, and a worker all the
/// gossip of another. That a session heard all replies to it follows by counting its asks.
pub fn drained_parties_make_ledgers()
    ensures { DrainedPartiesMakeLedgers }
{}
