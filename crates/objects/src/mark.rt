// Marking: a walk down the tape that meets each live object once. Bits of the map stand for units of the window.
ghost use Rattle.std.specs.Prelude.{◌≡◌, ◌<◌, ◌≤◌, ◌&&◌, min, length, ◌==◌, slice_index};
ghost use Rattle.pages.specs.Object.{kind_in, references_in, size_in};
ghost use Rattle.pages.specs.Lists.{same};
ghost use Rattle.objects.specs.Heap.{units};
ghost use Rattle.objects.specs.Marking.{begun, key_met, key_words, met_memory, met_walk, references_met as met_of, rooted, sought, stride, unmarked, went_on, with_reference, with_references};
ghost use Rattle.objects.specs.Plan.{map_of, plan_end, with_map};

use crate::plan;
use pages::machine::Request;
use pages::object::{kind_in, references_in, size_in};
use store::bitmap;

// The words of an object that marking looks at: two, up to 4,096 references, and a key.
pub const GLANCE: u64 = 4_104;

// The key of a file or a commit, four words.
// As it stands: in a clause an array is a list of any length; that a key comes back as it was laid holds of four words.
#[derive(Clone, Copy, Debug, Default, PartialEq, Eq)]
pub struct Key {
    pub a: u64,
    pub b: u64,
    pub c: u64,
    pub d: u64,
}

impl Key {
    pub fn words(&self) -> [u64; 4]
        ensures { result ≡ key_words self.now }
    {
        [self.a, self.b, self.c, self.d]
    }
}

// A walk's registers.
// As it stands: what marking does is defined over `found` as a number, 0 for none, and the kinds that are looked for are the caller's numbers.
#[derive(Clone, Copy, Debug, Default, PartialEq, Eq)]
pub struct Walk {
    // The first unit of the window.
    pub first: u64,
    // The unit, from there, below which objects are still to be met; while one is looked at, where it starts.
    pub below: u64,
    // What was met weighs so much.
    pub weight: u64,
    // The kind and the key that are looked for, and the reference of what was found; 0 is none.
    pub kind: u64,
    pub key: Key,
    pub found: u64,
}

// How many references of an object are looked at, by its first word.
pub(crate) fn references_met(word: u64) -> usize
    ensures { result ≡ min (references_in word) 4096 }
{
    references_in(word).min(4_096) as usize
}

// How many units an object takes, by its first word.
pub(crate) fn units_in(word: u64) -> u64
    ensures { result ≡ units (size_in word) }
{
    size_in(word).div_ceil(8)
}

// Marks a reference into the window that starts at a unit.
fn mark_reference(map: &mut [u64], first: u64, reference: u64)
    ensures { map.new ≡ with_reference first reference map.old }
{
    if reference > first {
        bitmap::set(map, reference - 1 - first);
    }
}

// Marks the references of the object in the buffer.
fn mark_references(memory: &mut [u64], first: u64)
    requires { plan_end ≤ length memory.old }
    ensures { memory.new ≡ with_map (with_references first (met_of memory.old) (map_of memory.old)) memory.old }
{
    let many = references_met(memory[0]);
    let (front, behind) = memory.split_at_mut(plan::MAP);
    for reference in &front[2..2 + many] {
        mark_reference(&mut behind[..plan::COUNTS - plan::MAP], first, *reference);
    }
}

impl Walk {
    // Whether the object in the buffer is the one that is looked for.
    fn is_sought(&self, memory: &[u64]) -> bool
        requires { plan_end ≤ length memory.now }
        ensures { result ≡ (kind_in (slice_index memory.now 0) == self.now.kind) && same (key_met memory.now) (key_words self.now.key) }
    {
        let at = 2 + references_met(memory[0]);
        let key = self.key.words();
        kind_in(memory[0]) == self.kind && &memory[at..at + 4] == key.as_slice()
    }

    // Meets the object in the buffer: its units and references are marked, and its weight is added.
    fn meet(&mut self, memory: &mut [u64])
        requires { plan_end ≤ length memory.old }
        ensures walk { self.new ≡ met_walk self.old memory.old }
        ensures memory { memory.new ≡ met_memory self.old memory.old }
    {
        if self.is_sought(memory) {
            self.found = self.first.saturating_add(self.below).saturating_add(1);
        }
        self.weight = self.weight.saturating_add(memory[1]);
        let units = units_in(memory[0]);
        bitmap::set_run(&mut memory[plan::MAP..plan::COUNTS], self.below, units);
        mark_references(memory, self.first);
    }

    // Asks for the highest live object below the cursor; none is asked for when all are met.
    pub fn seek(&mut self, memory: &[u64]) -> Option<Request>
        ensures { stride self.new memory.now result ≡ sought self.old memory.now }
    {
        if memory.len() < plan::END {
            return None;
        }
        let Some(unit) = bitmap::highest_below(&memory[plan::MAP..plan::COUNTS], self.below) else {
            self.below = 0;
            return None;
        };
        self.below = unit;
        Some(Request::Object {
            at: self.first.saturating_add(unit).saturating_mul(8),
            limit: GLANCE,
        })
    }

    // The object that was asked for came: it is met, and the next one is asked for.
    pub fn go_on(&mut self, memory: &mut [u64]) -> Option<Request>
        ensures { stride self.new memory.new result ≡ went_on self.old memory.old }
    {
        if memory.len() < plan::END {
            return None;
        }
        self.meet(memory);
        self.seek(memory)
    }
}

// Marks nothing any more.
pub fn unmark(memory: &mut [u64])
    ensures { memory.new ≡ unmarked memory.old }
{
    if memory.len() >= plan::END {
        bitmap::clear(&mut memory[plan::MAP..plan::COUNTS]);
    }
}

// Marks a root.
pub fn mark_root(memory: &mut [u64], first: u64, reference: u64)
    ensures { memory.new ≡ rooted first reference memory.old }
{
    if memory.len() >= plan::END {
        mark_reference(&mut memory[plan::MAP..plan::COUNTS], first, reference);
    }
}

// Marks the roots and nothing else; a memory that is too short stays as it is.
pub fn mark_roots(memory: &mut [u64], first: u64, roots: &[u64])
    ensures marked { plan_end ≤ length memory.old → memory.new ≡ begun first roots.now memory.old }
    ensures short { length memory.old < plan_end → memory.new ≡ memory.old }
{
    unmark(memory);
    for reference in roots {
        mark_root(memory, first, *reference);
    }
}
