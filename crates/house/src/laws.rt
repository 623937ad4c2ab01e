// Laws of the plain houses: theorems about the definitions in specs/, each on the contract of a function that does nothing else.
ghost use Rattle.house.specs.Laws.{Apart, ReachOnce, WeightByReach, WeightStays, CarriedJoined};
ghost use Rattle.house.specs.Facts.{StaysFine};
ghost use Rattle.house.specs.Morning.{Morning};

// What is done at one house changes no other, and the book only grows.
pub fn houses_are_apart()
    ensures { Apart }
{}

// What a house can reach has each commit once.
pub fn reached_once()
    ensures { ReachOnce }
{}

// What a house has to keep depends on what it can reach and has in work, and on no order.
pub fn weighs_what_it_reaches()
    ensures { WeightByReach }
{}

// What a house can reach and has to keep stays as it is when the book grows.
pub fn weight_stays()
    ensures { WeightStays }
{}

// Houses are fine at the start, and every turn of a command that fits keeps them so.
pub fn houses_stay_fine()
    ensures { StaysFine }
{}

// Commits of a chain, carried onto a commit that changed other paths, come to what joining gives.
pub fn carried_is_joined()
    ensures { CarriedJoined }
{}

// A morning at two houses: each command shows what it is told to, or is refused by its number; and what the houses then have to keep.
pub fn morning_goes_as_told()
    ensures { Morning }
{}
