// A client for tests: it makes the one request that is said, or sweeps, or surveys what is live.
ghost use Rattle.std.specs.Prelude.{◌≡◌, ℕ, ◌*◌, ◌≤◌, List, length, take, drop, slice_index};
ghost use Rattle.pages.specs.Machine.{asked, capped};
ghost use Rattle.pages.specs.Words.{over};
ghost use Rattle.objects.specs.Cells.{stage_code, stage_in, sweep_in, walk_cells, walk_in};
ghost use Rattle.objects.specs.Marking.{asked_on as went_on_by, begun, sought, walked, went_on};
ghost use Rattle.objects.specs.Plan.{head_at, plan_end};
ghost use Rattle.objects.specs.Sweeping.{sweep_begun, sweep_went_on, swung};
ghost use Rattle.objects_tests.specs.Keeper.{keeper_client, KeeperSweeps, KeeperWalks, LoadsSaved, phase_code, phase_in, phase_said, request_said, said as said_at, surveyed, surveying, sweeping, swept, walk_said, window_in};

use objects::cells::{sweep_cells, sweep_in, walk_cells, walk_in};
use objects::mark::{Key, Walk};
use objects::sweep::Sweep;
use objects::{mark, plan};
use pages::bytes::number;
use pages::machine::{Client, Request};

#[derive(Clone, Copy, Debug, PartialEq, Eq)]
pub enum Phase {
    // What was said is served; then the command ends.
    Once = 0,
    // The head was asked for, to sweep or to survey.
    ToSweep = 1,
    ToSurvey = 2,
    Sweeping = 3,
    Surveying = 4,
}

// A phase as a cell has it.
impl From<u64> for Phase {
    ghost from_gives = { λ cell phase. phase ≡ phase_in cell };

    fn from(cell: u64) -> Phase {
        match cell {
            1 => Phase::ToSweep,
            2 => Phase::ToSurvey,
            3 => Phase::Sweeping,
            4 => Phase::Surveying,
            _ => Phase::Once,
        }
    }
}

impl Phase {
    fn code(self) -> u64
        ensures { result ≡ phase_code self }
    {
        self as u64
    }
}

#[derive(Clone, Copy)]
pub struct Keeper {
    pub phase: Phase,
    pub sweep: Sweep,
    pub walk: Walk,
}

// The number that stands at a place of a text.
fn said(text: &[u8], at: usize) -> u64
    requires { at ≤ length text.now }
    ensures { result ≡ said_at at text.now }
{
    number(&text[at..])
}

// The request that a code and two numbers stand for.
// As it stands: numbers, since they are what a text says; `Command::numbers` of the rig writes them, and this reads them.
fn request_said(code: u64, a: u64, b: u64) -> Request
    ensures { result ≡ request_said code a b }
{
    match code {
        0 => Request::Look { at: a, words: b },
        1 => Request::Object { at: a, limit: b },
        2 => Request::Lay { page: a, pages: b },
        3 => Request::Publish,
        4 => Request::Show { bytes: a },
        5 => Request::Recall,
        6 => Request::Recall,
        _ => Request::Refuse { number: 1 },
    }
}

fn phase_said(code: u64) -> Phase
    ensures { result ≡ phase_said code }
{
    match code {
        5 => Phase::ToSweep,
        6 => Phase::ToSurvey,
        _ => Phase::Once,
    }
}

// What a survey looks for: a kind and a key.
fn walk_said(text: &[u8]) -> Walk
    requires { 48 ≤ length text.now }
    ensures { result ≡ walk_said text.now }
{
    Walk {
        first: 0,
        below: 0,
        weight: 0,
        kind: said(text, 8),
        key: Key {
            a: said(text, 16),
            b: said(text, 24),
            c: said(text, 32),
            d: said(text, 40),
        },
        found: 0,
    }
}

impl Keeper {
    // The sweep asks for something; if not, it has ended, and the command with it.
    fn swept(&mut self, request: Option<Request>) -> Request
        ensures { (m : List ℕ) → asked self.new m result ≡ went_on_by (sweeping self.old.walk) (swept self.old.walk) self.old.sweep m request }
    {
        let Some(request) = request else {
            self.phase = Phase::Once;
            return Request::Done;
        };
        self.phase = Phase::Sweeping;
        request
    }

    // The head is in the buffer: a sweep of its window begins.
    fn start_sweep(&mut self, memory: &mut [u64]) -> Request
        requires { plan_end ≤ length memory.old }
        ensures { asked self.new memory.new result ≡ swung (sweeping self.old.walk) (swept self.old.walk) (sweep_begun self.old.sweep (over head_at (take 32 memory.old) memory.old)) }
    {
        let mut head = [0; 32];
        head.copy_from_slice(&memory[0..32]);
        memory[plan::HEAD..plan::MAP].copy_from_slice(&head);
        let request = self.sweep.begin(memory);
        self.swept(request)
    }

    fn sweep_on(&mut self, memory: &mut [u64]) -> Request
        ensures { asked self.new memory.new result ≡ swung (sweeping self.old.walk) (swept self.old.walk) (sweep_went_on self.old.sweep memory.old) }
    {
        let request = self.sweep.go_on(memory);
        self.swept(request)
    }

    // The walk asks for something; if not, all is met, and what it weighs and the name of what was found are shown.
    fn surveyed(&mut self, memory: &mut [u64], request: Option<Request>) -> Request
        requires { plan_end ≤ length memory.old }
        ensures { asked self.new memory.new result ≡ went_on_by (surveying self.old.sweep) (surveyed self.old.sweep) self.old.walk memory.old request }
    {
        let Some(request) = request else {
            self.phase = Phase::Once;
            memory[0] = self.walk.weight;
            memory[1] = self.walk.found;
            return Request::Show { bytes: 16 };
        };
        self.phase = Phase::Surveying;
        request
    }

    // The head is in the buffer: a walk over its window begins.
    #[tactic(auto, using(objects::proofs::MarkLaws::roots_long))]
    fn start_survey(&mut self, memory: &mut [u64]) -> Request
        requires { plan_end ≤ length memory.old }
        ensures { asked self.new memory.new result ≡ walked (surveying self.old.sweep) (surveyed self.old.sweep) (sought (window_in self.old.walk memory.old) (begun (capped (8 * slice_index memory.old 0)) (take 8 (drop 2 memory.old)) memory.old)) }
    {
        self.walk.first = memory[0].saturating_mul(8);
        self.walk.below = memory[1].saturating_sub(memory[0]).saturating_mul(8);
        self.walk.weight = 0;
        self.walk.found = 0;
        let mut roots = [0; 8];
        roots.copy_from_slice(&memory[2..10]);
        mark::mark_roots(memory, self.walk.first, &roots);
        let request = self.walk.seek(memory);
        self.surveyed(memory, request)
    }

    fn survey_on(&mut self, memory: &mut [u64]) -> Request
        requires { plan_end ≤ length memory.old }
        ensures { asked self.new memory.new result ≡ walked (surveying self.old.sweep) (surveyed self.old.sweep) (went_on self.old.walk memory.old) }
    {
        let request = self.walk.go_on(memory);
        self.surveyed(memory, request)
    }
}

impl Client for Keeper {
    ghost housed = { keeper_client };

    fn load(cells: &[u64; 120]) -> Keeper {
        let mut walk = [0; 9];
        walk.copy_from_slice(&cells[1..10]);
        let mut sweep = [0; 14];
        sweep.copy_from_slice(&cells[10..24]);
        Keeper {
            phase: Phase::from(cells[0]),
            sweep: sweep_in(&sweep),
            walk: walk_in(&walk),
        }
    }

    fn save(&self) -> [u64; 120] {
        let mut cells = [0; 120];
        cells[0] = self.phase.code();
        cells[1..10].copy_from_slice(&walk_cells(&self.walk));
        cells[10..24].copy_from_slice(&sweep_cells(&self.sweep));
        cells
    }

    fn wake(&mut self, house: u64, houses: u64, pages: u64) {}

    fn hear(&mut self, memory: &mut [u64], text: &[u8]) -> Request {
        if text.len() < 48 {
            return Request::Refuse { number: 1 };
        }
        let code = said(text, 0);
        self.phase = phase_said(code);
        self.walk = walk_said(text);
        request_said(code, said(text, 8), said(text, 16))
    }

    fn resume(&mut self, memory: &mut [u64]) -> Request {
        if memory.len() < plan::END {
            return Request::Refuse { number: 2 };
        }
        match self.phase {
            Phase::Once => Request::Done,
            Phase::ToSweep => self.start_sweep(memory),
            Phase::ToSurvey => self.start_survey(memory),
            Phase::Sweeping => self.sweep_on(memory),
            Phase::Surveying => self.survey_on(memory),
        }
    }
}

// What was saved is loaded again.
pub fn loads_saved()
    ensures { LoadsSaved }
{}

// What is shown of any client that sweeps or marks holds of this one.
pub fn sweeps_and_marks()
    ensures sweeps { KeeperSweeps }
    ensures walks { KeeperWalks }
{}
