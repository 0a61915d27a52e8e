//! Lists of a worker, and how far its gossip lags in them.
ghost use Rattle.worker_core.specs.Lag.{Lags};
ghost use Rattle.worked_laws.specs.Lists as lists;
ghost use Rattle.worked_laws.specs.Lists.{LagsMore};

/// In the worked lists of `specs/Lists.antt` gossip lags by a round's requests at most: each put of which
/// more requests came after was told to each mate that holds its key, or a batch to the mate came back
/// since, or the put changes nothing.
pub fn worked_lists_lag_by_a_round()
    ensures { Lags lists.worked_lists }
{}

/// In the changed lists of `specs/Lists.antt` it lags by more; each clause is named for what was changed.
pub fn changed_lists_lag_by_more()
    ensures batch_not_sent { LagsMore lists.batch_not_sent }
    ensures batch_to_another_mate { LagsMore lists.batch_to_another_mate }
    ensures batch_of_fewer_puts { LagsMore lists.batch_of_fewer_puts }
    ensures batch_of_another_session { LagsMore lists.batch_of_another_session }
    ensures batch_of_another_key { LagsMore lists.batch_of_another_key }
    ensures turned_before { LagsMore lists.turned_before }
    ensures turned_by_another_mate { LagsMore lists.turned_by_another_mate }
    ensures one_request_more { LagsMore lists.one_request_more }
{}
