// Theorems about the definitions in specs/, each on the contract of a function that does nothing else.
ghost use Rattle.std.specs.Prelude.{ℕ, List};
ghost use Rattle.pages.specs.Crash.{Rows, RunsWell};
ghost use Rattle.pages.specs.Device.{Device};
ghost use Rattle.pages.specs.Laws.{ByteStays, FlushedStays, RowsOrdered};
ghost use Rattle.pages.specs.Run.{World};
ghost use Rattle.pages.specs.Tape.{HandedDown, OnTheDevice};
ghost use Rattle.pages.specs.Words.{PagesAndWords};

// What was flushed stays, whatever a stop leaves of later writes to other pages.
pub fn flushed_stays()
    ensures { FlushedStays }
{}

// A byte that all waiting writes to its page leave as it is stays, whatever a stop leaves of them.
pub fn byte_stays()
    ensures { ByteStays }
{}

// Words out of a page and back undo each other.
pub fn pages_are_words()
    ensures { PagesAndWords }
{}

// What is promised of a run: of each stop, and of the end.
pub trait Promises {
    ghost stop: { Self → Device → World → Rows → Type 0 };

    ghost end: { Self → World → World → Rows → ℕ → Type 0 };
}

// A run that goes well by the crash logic, whatever is promised of its stops and its end, ends well, and may be stopped after any of its acts.
pub fn runs_well<P: Promises>(p: &P)
    ensures { RunsWell (P.stop p.now) (P.end p.now) }
{}

// Rows are the same if they are equal, and of two different rows one is earlier.
pub fn rows_are_ordered()
    ensures { RowsOrdered }
{}

// What is promised of a client on the tape, whose registers are a K: of each stop, and of the end.
pub trait Course<K> {
    ghost stop: { Self → List ℕ → List ℕ → Rows → Type 0 };

    ghost end: { Self → K → List ℕ → List ℕ → List ℕ → ℕ → Rows → ℕ → Type 0 };
}

// A client that goes well on the tape goes well on the device, whatever the stops.
pub fn goes_on_the_device<K, P: Course<K>>(p: &P)
    ensures { OnTheDevice (P.stop p.now) (P.end p.now) }
{}

// What was shown of a client on the tape holds of one that hands these phases down to it.
pub fn hands_down<K, P: Course<K>>(p: &P)
    ensures { HandedDown (P.stop p.now) (P.end p.now) }
{}
