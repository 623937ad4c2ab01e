// The laws of the sum. Each function stands for one: it is proved only where its law is.
ghost use Rattle.store.specs.Bitmap.{AllClear, BitsSet, Finds, RunSet};
ghost use Rattle.store.specs.Laws.{GivesBytes, CutsUnseen, PadsLeast, PadsWhole, ConstantsAreRoots};

pub fn gives_bytes()
    ensures { GivesBytes }
{}

pub fn cuts_unseen()
    ensures { CutsUnseen }
{}

pub fn pads_rightly()
    ensures least { PadsLeast }
    ensures whole { PadsWhole }
{}

pub fn constants_are_roots()
    ensures { ConstantsAreRoots }
{}

// Setting a bit sets it, if the map reaches so far, and no other.
pub fn sets_a_bit()
    ensures { BitsSet }
{}

// Setting a run of bits sets those that the map reaches, and no other.
pub fn sets_a_run()
    ensures { RunSet }
{}

// The searches find the nearest place where a test holds.
pub fn finds_bits()
    ensures { Finds }
{}

// A row of zeros has no bits.
pub fn clears_all()
    ensures { AllClear }
{}
