// A walk and a sweep as cells of memory, and back.
ghost use Rattle.std.specs.Prelude.{◌≡◌, ◌≤◌, length};
ghost use Rattle.objects.specs.Cells.{stage_code, stage_in, sweep_cells, sweep_in, walk_cells, walk_in};

use crate::mark::{Key, Walk};
use crate::sweep::{Stage, Sweep};

fn stage_code(stage: Stage) -> u64
    ensures { result ≡ stage_code stage }
{
    stage as u64
}

fn stage_in(code: u64) -> Stage
    ensures { result ≡ stage_in code }
{
    match code {
        1 => Stage::Copying,
        2 => Stage::Laying,
        3 => Stage::Closing,
        4 => Stage::Publishing,
        _ => Stage::Marking,
    }
}

// The walk that cells hold.
pub fn walk_in(cells: &[u64; 9]) -> Walk
    ensures { result ≡ walk_in cells.now }
{
    let [first, below, weight, kind, a, b, c, d, found] = *cells;
    let key = Key { a, b, c, d };
    Walk {
        first,
        below,
        weight,
        kind,
        key,
        found,
    }
}

// The cells that hold a walk.
pub fn walk_cells(walk: &Walk) -> [u64; 9]
    ensures { result ≡ walk_cells walk.now }
{
    let Key { a, b, c, d } = walk.key;
    [
        walk.first,
        walk.below,
        walk.weight,
        walk.kind,
        a,
        b,
        c,
        d,
        walk.found,
    ]
}

// The sweep that cells hold.
pub fn sweep_in(cells: &[u64; 14]) -> Sweep
    ensures { result ≡ sweep_in cells.now }
{
    let [
        stage,
        at,
        from,
        page,
        waiting,
        first,
        below,
        weight,
        kind,
        a,
        b,
        c,
        d,
        found,
    ] = *cells;
    Sweep {
        stage: stage_in(stage),
        walk: walk_in(&[first, below, weight, kind, a, b, c, d, found]),
        at,
        from,
        page,
        waiting,
    }
}

// The cells that hold a sweep.
pub fn sweep_cells(sweep: &Sweep) -> [u64; 14]
    ensures { result ≡ sweep_cells sweep.now }
{
    let [first, below, weight, kind, a, b, c, d, found] = walk_cells(&sweep.walk);
    [
        stage_code(sweep.stage),
        sweep.at,
        sweep.from,
        sweep.page,
        sweep.waiting,
        first,
        below,
        weight,
        kind,
        a,
        b,
        c,
        d,
        found,
    ]
}
