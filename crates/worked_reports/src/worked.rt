//! Worked reports that are legal.
ghost use Rattle.worked_reports.specs.Worked.{IsLegalWhereverPlaced, first_script, first_report, home_script, home_report, commit_script, commit_report, causal_script, causal_report, keys_script, keys_report, versions_script, versions_report, apart_script, apart_report, handed_script, handed_report};

/// The worked scripts of `specs/Worked.antt` are valid, and their reports legal, where the keys live as
/// any built placement says: two puts and a get, gets at the home of a set with two replicas, an aborted
/// and a committed transaction, two causal sessions that await each other's puts, gets of two keys of one
/// worker and a commit of nothing, a version that overtakes the one that its session was shown, a get
/// and an await that end without a reply, and a session that comes after another.
pub fn worked_reports_are_legal()
    ensures first { IsLegalWhereverPlaced first_script first_report }
    ensures home { IsLegalWhereverPlaced home_script home_report }
    ensures commit { IsLegalWhereverPlaced commit_script commit_report }
    ensures causal { IsLegalWhereverPlaced causal_script causal_report }
    ensures keys { IsLegalWhereverPlaced keys_script keys_report }
    ensures versions { IsLegalWhereverPlaced versions_script versions_report }
    ensures apart { IsLegalWhereverPlaced apart_script apart_report }
    ensures handed { IsLegalWhereverPlaced handed_script handed_report }
{}
