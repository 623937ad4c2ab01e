// Laws of the book: theorems about the definitions in specs/, each on the contract of a function that does nothing else.
ghost use Rattle.history.specs.Chain.{ChainLog};
ghost use Rattle.history.specs.Laws.{IdsTell, LatestRight, LogOrder, GrowsBehind, BackRight, UnderRight};

// Ids tell commits apart, as long as sums do.
pub fn ids_tell()
    ensures { IdsTell }
{}

// The latest that two commits come from: the same from either side; of one that comes from the other, that other; and all that is common comes to one of them.
pub fn latest_common_is_right()
    ensures { LatestRight }
{}

// A log has a commit and all it comes from, each once, each before those it comes from.
pub fn log_is_in_order()
    ensures { LogOrder }
{}

// What stands in the book stays as it is when more comes behind it.
pub fn grows_behind()
    ensures { GrowsBehind }
{}

// What comes before some commits: these, with each its parents, and nothing but that; each once.
pub fn back_is_right()
    ensures { BackRight }
{}

// A commit comes from itself; what it comes from is lower; and coming from goes on.
pub fn under_is_an_order()
    ensures { UnderRight }
{}

// Where no commit has more than one parent, a log is the chain from commit to parent.
pub fn logs_of_single_parents()
    ensures { ChainLog }
{}
