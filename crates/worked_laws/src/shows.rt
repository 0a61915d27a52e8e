//! What a worker shows and tells, at one time and later.
ghost use Rattle.worker_core.specs.Showing.{ShowsMore};
ghost use Rattle.worked_laws.specs.Shows as shows;
ghost use Rattle.worked_laws.specs.Shows.{ShowsLess};

/// What the worker of the worked lists of `specs/Shows.antt` shows and tells later goes on from what it was.
pub fn worked_lists_show_more()
    ensures { ShowsMore shows.shown_before shows.shown_later }
{}

/// In the changed lists it does not; each clause is named for what was changed.
pub fn changed_lists_show_less()
    ensures shows_fewer_puts { ShowsLess shows.shows_fewer_puts }
    ensures reply_of_an_earlier_cell { ShowsLess shows.reply_of_an_earlier_cell }
    ensures reply_exchanged { ShowsLess shows.reply_exchanged }
    ensures batch_exchanged { ShowsLess shows.batch_exchanged }
{}
