// The promise, and the lemma by which it is kept: theorems about the definitions in specs/, each on the contract of a function that does nothing else.
ghost use Rattle.std.specs.Prelude.{ℕ, Bool};
ghost use Rattle.house.specs.Control.{noting};
ghost use Rattle.house.specs.Entry.{own};
ghost use Rattle.house.specs.House.{Plain};
ghost use Rattle.house.specs.Promise.{Whole};
ghost use Rattle.house.specs.Simulation.{Simulated};
ghost use Rattle.pages.specs.Run.{World};

// For every sum, up to sixteen houses, all devices and all that can happen: commands in any order, with power lost and found at any act, end as the plain
// houses end. Known are write, drop, read, status, leave, commit, history and show. `tell` and `step` take exactly the steps of this engine.
pub fn keeps_the_promise()
    ensures { Whole noting own }
{}

// What is said of one house at a time: facts about the plain houses, and what a house holds, by the number of things that may still happen, its number and
// whether it has power.
pub trait Relates {
    ghost fine: { Self → ℕ → Plain → Type 0 };

    ghost holds: { Self → ℕ → ℕ → Bool → Plain → World → Type 0 };
}

// Obligations about one house at a time give the promise for all houses and all that can happen, for any engine.
pub fn simulates<R: Relates>(r: &R)
    ensures { Simulated (R.fine r.now) (R.holds r.now) }
{}
