// A machine and its client in the first cells of a memory, and one step of the whole.
ghost use Rattle.std.specs.Prelude.{◌≡◌, ◌<◌, ◌≤◌, ◌++◌, length, slice_index};
ghost use Rattle.pages.specs.Engine.{engine_fits, image, machine_cells, machine_in, memory_cells, serving_cells, serving_in, StepTold, stepped_in};
ghost use Rattle.pages.specs.Machine.{row_bytes};
ghost use Rattle.pages.specs.Told.{ActTold, event_meant};

use crate::machine::{Client, Machine, ROW, Server, Serving};
use crate::told::{Event, Told};

// The cells of a memory: 8 for the machine, 120 for its client, the rest behind them.
pub const CELLS: usize = 262_144;

// What four cells say is being served; what they can't say is idle.
impl From<[u64; 4]> for Serving {
    ghost from_gives = { λ cells serving. serving ≡ serving_in (slice_index cells 0) (slice_index cells 1) (slice_index cells 2) (slice_index cells 3) };

    fn from(cells: [u64; 4]) -> Serving {
        let [code, a, b, c] = cells;
        match code {
            1 => Serving::Recalling,
            2 => Serving::Looking {
                at: a,
                left: b,
                got: c,
            },
            3 => Serving::Opening { at: a, limit: b },
            4 => Serving::Laying {
                page: a,
                left: b,
                from: c,
            },
            5 => Serving::Flushing,
            6 => Serving::Heading,
            7 => Serving::Settling,
            8 => Serving::Showing,
            _ => Serving::Idle,
        }
    }
}

// The cells of what is being served.
impl From<Serving> for [u64; 4] {
    ghost from_gives = { λ serving cells. cells ≡ serving_cells serving };

    fn from(serving: Serving) -> [u64; 4] {
        match serving {
            Serving::Idle => [0, 0, 0, 0],
            Serving::Recalling => [1, 0, 0, 0],
            Serving::Looking { at, left, got } => [2, at, left, got],
            Serving::Opening { at, limit } => [3, at, limit, 0],
            Serving::Laying { page, left, from } => [4, page, left, from],
            Serving::Flushing => [5, 0, 0, 0],
            Serving::Heading => [6, 0, 0, 0],
            Serving::Settling => [7, 0, 0, 0],
            Serving::Showing => [8, 0, 0, 0],
        }
    }
}

fn load_machine(memory: &[u64]) -> Machine
    requires { 8 ≤ length memory.now }
    ensures { result ≡ machine_in memory.now }
{
    Machine {
        ring: memory[0],
        serving: Serving::from([memory[1], memory[2], memory[3], memory[4]]),
    }
}

fn machine_cells(machine: Machine) -> [u64; 8]
    ensures { result ≡ machine_cells machine }
{
    let [code, a, b, c] = <[u64; 4]>::from(machine.serving);
    [machine.ring, code, a, b, c, 0, 0, 0]
}

// One step of the machine and the client that a memory holds; a memory of another length, or a lent row without room for a row of bytes, is left
// alone.
pub fn step<C: Client + Drop>(memory: &mut [u64], event: Event, out: &mut [u8]) -> Told
    ensures { StepTold (engine_fits memory.old out.old) C.housed memory.old (event_meant event.entry) out.old result memory.new out.new }
{
    if memory.len() != CELLS || out.len() < ROW {
        return Told::No(0);
    }
    step_whole::<C>(memory, event, out)
}

fn step_whole<C: Client + Drop>(memory: &mut [u64], event: Event, out: &mut [u8]) -> Told
    requires { (length memory.old ≡ memory_cells) × (row_bytes ≤ length out.old) }
    ensures memory { memory.new ≡ (stepped_in C.housed memory.old (event_meant event.entry)).memory }
    ensures told { ActTold (stepped_in C.housed memory.old (event_meant event.entry)).act result out.old out.new }
{
    let mut cells = [0; 120];
    cells.copy_from_slice(&memory[8..128]);
    let mut server = Server {
        machine: load_machine(memory),
        client: C::load(&cells),
    };
    let told = server.serve(&mut memory[128..262_144], event, out);
    memory[0..8].copy_from_slice(&machine_cells(server.machine));
    memory[8..128].copy_from_slice(&server.client.save());
    told
}
