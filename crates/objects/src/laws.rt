// The laws of ranks, of the memory that holds it, of marking, and of sweeping. Each function stands for one: it is proved only where its law is.
ghost use Rattle.objects.specs.Plan.{PartsStay};
ghost use Rattle.objects.specs.Ranks.{CountsRight, Ranks, RanksTallied, SetsCounted, TallyHolds};
ghost use Rattle.objects.specs.Marking.{Marks};
ghost use Rattle.objects.specs.Sweeping.{Sweeps};

use pages::laws::Course;

// Counts of the places where a test holds.
pub fn counts_rightly()
    ensures { CountsRight }
{}

// Setting a bit adds one to the count if it was clear; setting a run that was clear adds its length.
pub fn counts_what_is_set()
    ensures { SetsCounted }
{}

// A tally leaves the map and its counts; with them a rank is the number of bits set below a unit.
pub fn ranks_rightly()
    ensures tallies { TallyHolds }
    ensures ranks { Ranks }
    ensures after { RanksTallied }
{}

// Words written over a part of a row stand there, and leave what is beside them.
pub fn parts_stay()
    ensures { PartsStay }
{}

// A client that marks meets all that is live, and goes on well if it does so with what is marked in place.
pub fn marks_what_is_live<K, P: Course<K>>(p: &P)
    ensures { Marks (P.stop p.now) (P.end p.now) }
{}

// A client that sweeps keeps all that is live, under new names, and goes on well if it does so with that in place.
pub fn sweeps_keep_what_is_live<K, P: Course<K>>(p: &P)
    ensures { Sweeps (P.stop p.now) (P.end p.now) }
{}
