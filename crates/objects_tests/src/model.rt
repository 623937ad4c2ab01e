// An ordinary copy of what is stored: objects with numbers, counted from 1, that refer to one another by these. Each refers to earlier ones only; number 0
// is none.
use crate::rig::word;
use device::Device;
use pages::object::{heading, kind_in, references_in, size_in};
use std::alloc::{AllocError, Global};

#[derive(Drop)]
struct Object {
    // Its words, with numbers for references.
    words: Vec<u64>,
    // The reference by which it is stored, and by which it was met last.
    name: Option<u64>,
    met: Option<u64>,
    live: bool,
}

impl Object {
    fn header(&self) -> u64 {
        self.words.first().copied().unwrap_or(0)
    }

    fn weight(&self) -> u64 {
        self.words.get(1).copied().unwrap_or(0)
    }

    fn units(&self) -> u64 {
        size_in(self.header()).div_ceil(8)
    }

    // The numbers of what it refers to.
    fn references(&self) -> &[u64] {
        let behind = self.words.get(2..).unwrap_or(&[]);
        behind
            .get(..references_in(self.header()) as usize)
            .unwrap_or(behind)
    }
}

#[derive(Drop)]
pub struct Model {
    heap: Global,
    objects: Vec<Object>,
}

// The units of objects, in pages.
fn pages_of(units: u64) -> u64 {
    units.saturating_add(7) / 8
}

// The place of a number among objects.
fn place(number: u64) -> Option<usize> {
    Some(number.checked_sub(1)? as usize)
}

impl Model {
    pub fn new(heap: Global) -> Model {
        Model {
            heap,
            objects: Vec::new(heap),
        }
    }

    // One more than the last number.
    pub fn end(&self) -> u64 {
        (self.objects.len() as u64).saturating_add(1)
    }

    // An object begins: its number. Its references and all else are pushed behind it.
    // As it stands: a number for the kind, as on the tape; trials also look for kinds that nothing has.
    pub fn start(
        &mut self,
        kind: u64,
        references: u64,
        size: u64,
        weight: u64,
    ) -> Result<u64, AllocError> {
        let number = self.end();
        let first = heading(
            kind.min(9) as u16,
            references.min(4_096) as u16,
            size.min(41_024) as u32,
        );
        self.objects.push(Object {
            words: vec![in self.heap; first, weight]?,
            name: None,
            met: None,
            live: false,
        })?;
        Ok(number)
    }

    pub fn push(&mut self, word: u64) -> Result<(), AllocError> {
        if let Some(last) = self.objects.last_mut() {
            last.words.push(word)?;
        }
        Ok(())
    }

    fn get(&self, number: u64) -> Option<&Object> {
        self.objects.get(place(number)?)
    }

    fn get_mut(&mut self, number: u64) -> Option<&mut Object> {
        self.objects.get_mut(place(number)?)
    }

    fn header(&self, number: u64) -> u64 {
        self.get(number).map_or(0, |object| object.header())
    }

    pub fn word(&self, number: u64, i: u64) -> u64 {
        match self.get(number) {
            Some(object) => object.words.get(i as usize).copied().unwrap_or(0),
            None => 0,
        }
    }

    pub fn units(&self, number: u64) -> u64 {
        size_in(self.header(number)).div_ceil(8)
    }

    pub fn kind(&self, number: u64) -> u64 {
        kind_in(self.header(number))
    }

    pub fn references(&self, number: u64) -> u64 {
        references_in(self.header(number))
    }

    // The reference by which an object is stored; 0 if it isn't.
    pub fn name(&self, number: u64) -> u64 {
        self.get(number)
            .map_or(0, |object| object.name.unwrap_or(0))
    }

    pub fn call(&mut self, number: u64, name: u64) {
        if let Some(object) = self.get_mut(number) {
            object.name = Some(name);
        }
    }

    // An object's words as they are stored: references are names.
    pub fn stored(&self, number: u64) -> Result<Vec<u64>, AllocError> {
        let Some(object) = self.get(number) else {
            return Ok(Vec::new(self.heap));
        };
        let mut words = object.words.clone()?;
        for cell in words.iter_mut().skip(2).take(object.references().len()) {
            *cell = self.name(*cell);
        }
        Ok(words)
    }

    pub fn is_live(&self, number: u64) -> bool {
        self.get(number).is_some_and(|object| object.live)
    }

    pub fn revive(&mut self, number: u64) {
        if let Some(object) = self.get_mut(number) {
            object.live = true;
        }
    }

    // Finds what is live under these roots. Since references go down, one way down meets all.
    pub fn reach(&mut self, roots: [u64; 8]) {
        for object in self.objects.iter_mut() {
            object.live = false;
        }
        for root in roots {
            self.revive(root);
        }
        for i in (0..self.objects.len()).rev() {
            let Some((below, above)) = self.objects.split_at_mut_checked(i) else {
                return;
            };
            let Some(object) = above.first() else {
                return;
            };
            if object.live {
                revive_all(below, object.references());
            }
        }
    }

    // What is live takes so many pages.
    pub fn live_pages(&self) -> u64 {
        let live = self.objects.iter().filter(|o| o.live);
        pages_of(live.fold(0, |units, o| o.units().saturating_add(units)))
    }

    pub fn live_weight(&self) -> u64 {
        let live = self.objects.iter().filter(|o| o.live);
        live.fold(0, |weight, o| o.weight().saturating_add(weight))
    }

    // What lies from a number on takes so many pages.
    pub fn pages_from(&self, number: u64) -> u64 {
        let behind = self.objects.iter().skip(place(number).unwrap_or(0));
        pages_of(behind.fold(0, |units, o| o.units().saturating_add(units)))
    }

    // Whether a head's roots name on a device what these roots name here: each object once, in order, in the head's window.
    pub fn matches(&mut self, device: &Device, head: &[u64; 32], roots: [u64; 8]) -> bool {
        for object in self.objects.iter_mut() {
            object.met = None;
        }
        for (i, root) in roots.into_iter().enumerate() {
            if !pair(&mut self.objects, root, head[i + 2]) {
                return false;
            }
        }
        let mut end = head[1].saturating_mul(8);
        for i in (0..self.objects.len()).rev() {
            let Some((below, above)) = self.objects.split_at_mut_checked(i) else {
                return false;
            };
            let Some(object) = above.first() else {
                return false;
            };
            if let Some(name) = object.met {
                if !fits(object, name, head[0], end) || !stands(device, below, object, name) {
                    return false;
                }
                end = name.saturating_sub(1);
            }
        }
        true
    }

    // What was met last is stored under the names by which it was met.
    pub fn adopt(&mut self) {
        for object in self.objects.iter_mut() {
            object.name = object.met;
        }
    }
}

// Objects that are referred to are live.
fn revive_all(objects: &mut [Object], numbers: &[u64]) {
    for number in numbers {
        if let Some(at) = place(*number) {
            if let Some(object) = objects.get_mut(at) {
                object.live = true;
            }
        }
    }
}

// A number here and a name there belong together from now on, or do so already.
fn pair(objects: &mut [Object], number: u64, name: u64) -> bool {
    let Some(at) = place(number) else {
        return name == 0;
    };
    let Some(object) = objects.get_mut(at) else {
        return false;
    };
    if name == 0 {
        return false;
    }
    let met = object.met.unwrap_or(name);
    object.met = Some(met);
    met == name
}

// Whether an object has its place behind a page and before a unit.
fn fits(object: &Object, name: u64, page: u64, end: u64) -> bool {
    name > page.saturating_mul(8) && (name - 1).saturating_add(object.units()) <= end
}

// Whether an object stands on a device under a name; its references are paired with those there.
fn stands(device: &Device, below: &mut [Object], object: &Object, name: u64) -> bool {
    let first = name.saturating_sub(1).saturating_mul(8);
    let references = object.references().len();
    for (i, here) in object.words.iter().enumerate() {
        let there = word(device, first.saturating_add(i as u64));
        let right = if i >= 2 && i - 2 < references {
            pair(below, *here, there)
        } else {
            *here == there
        };
        if !right {
            return false;
        }
    }
    true
}
