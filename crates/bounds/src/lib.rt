// Bounds of the sums over all intervals of a length that end in a range of ends: of each module the largest demand of that length, or of a shorter
// one, that ends anywhere in the range.
#![tactic(auto)]

ghost use Rattle.std.specs.Prelude.{◌≡◌, ℕ, ◌+◌, ◌*◌, ◌/◌, ◌<◌, ◌≤◌, length};
ghost use Rattle.model.specs.Limits.{work_numbers};
ghost use Rattle.place.specs.Held.{sheet_of};
ghost use Rattle.layers.specs.Step.{look};
ghost use Rattle.layers.specs.Layer.{Tells, Each, IsLayer};
ghost use Rattle.sums.specs.Sums.{Fits};
ghost use Rattle.figures.specs.Offers.{Below, ShapeOffer};
ghost use Rattle.bounds.specs.Tops.{range_ends, Topped};
ghost use Rattle.bounds.specs.Bounds.{Progress, Progressed, NextAdded, BoundsAdded, ModuleAdded, SumsBounded};

use figures::{ModuleLayer, Offers, Takes, any_mark};
use layers::Shape;
use memory::{CELLS_FROM, LAYER_FROM, MARKS_FROM};
use table::Table;

// The ends of a range, with one number for all of them, the largest.
#[derive(Clone, Copy)]
struct EndRange {
    lo: usize,
    width: usize,
    ghost begins: { 1 ≤ lo },
    ghost few: { lo + width ≤ 2001 },
}

impl Takes for EndRange {
    ghost ends = { λ r. range_ends r.lo r.width };

    ghost few = { λ r. r.few };

    // A mode is passed by where none of the marks begins a stay with an end of the range l ticks after one of its mode times.
    fn concerns(&self, offers: &Offers) -> bool {
        let first = self.lo.saturating_sub(offers.part.len() + offers.l);
        let end = (self.lo + self.width).saturating_sub(offers.l);
        any_mark(offers.bits, offers.k, first, end)
    }

    // The marks are looked at only where v is larger.
    fn offer(&self, row: &mut [u32], offers: &Offers, far: usize, v: u32) {
        if row[0] < v {
            let first = self.lo.saturating_sub(far);
            let end = (self.lo + self.width).saturating_sub(far);
            if any_mark(offers.bits, offers.k, first, end) {
                row[0] = v;
            }
        }
    }
}

// The bound for l - 1 ticks becomes one for l, by what the module has for l ticks.
fn top_module(best: u32, range: &EndRange, module: &ModuleLayer) -> u32
    requires { IsLayer module.now.shape.now module.now.numbers.now module.now.l module.now.layer.now }
    ensures { Topped (Below (ShapeOffer module.now.shape.now module.now.numbers.now module.now.layer.now module.now.bits.now range.now.lo module.now.l) module.now.shape.now.modes) range.now.width best result }
{
    let mut row = [best];
    module.offer(range, &mut row);
    row[0]
}

// The layer and the bound for l ticks become those for l + 1; the bound is handed back.
fn next_top(
    work: &mut [u32],
    best: u32,
    range: &EndRange,
    l: usize,
    shape: Shape,
    numbers: &[u16],
) -> u32
    requires { (l < 2000) × (work_numbers ≤ length work.old) × (Tells shape numbers.now) × (Each shape numbers.now (λ m. Progress m range.now.lo range.now.width l work.old best)) }
    ensures { Progressed shape numbers.now range.now.lo range.now.width (l + 1) result work.old work.new }
{
    layers::advance(&mut work[LAYER_FROM..MARKS_FROM], l, shape, numbers);
    let module = ModuleLayer {
        layer: &work[LAYER_FROM..MARKS_FROM],
        bits: &work[MARKS_FROM..CELLS_FROM],
        shape: &shape,
        numbers,
        l: l + 1,
    };
    top_module(best, range, &module)
}

// The bound for l + 1 ticks is added to the number at that length.
fn add_next(
    work: &mut [u32],
    best: u32,
    range: &EndRange,
    l: usize,
    shape: Shape,
    numbers: &[u16],
) -> u32
    requires { (l < 2000) × (work_numbers ≤ length work.old) × (look work.old (l + 1) ≤ 7 * 32000) × (Tells shape numbers.now) × (Each shape numbers.now (λ m. Progress m range.now.lo range.now.width l work.old best)) }
    ensures { NextAdded shape numbers.now range.now.lo range.now.width l result work.old work.new }
{
    let top = next_top(work, best, range, l, shape, numbers);
    work[l + 1] += top;
    top
}

// All lengths up to stop, from what the module has come to with no tick.
fn add_lengths(work: &mut [u32], range: &EndRange, stop: usize, shape: Shape, numbers: &[u16])
    requires { (stop ≤ 2000) × (work_numbers ≤ length work.old) × (Fits stop work.old) × (Tells shape numbers.now) × (Each shape numbers.now (λ m. Progress m range.now.lo range.now.width 0 work.old 0)) }
    ensures { BoundsAdded shape numbers.now range.now.lo range.now.width stop work.old work.new }
{
    let mut best = 0;
    for l in 0..stop {
        best = add_next(work, best, range, l, shape, numbers);
    }
}

// One module's bounds are added to the numbers at the lengths from 1 to stop.
fn add_bounds(work: &mut [u32], range: &EndRange, stop: usize, shape: Shape, numbers: &[u16])
    requires { (stop ≤ 2000) × (work_numbers ≤ length work.old) × (Fits stop work.old) × (Tells shape numbers.now) }
    ensures { BoundsAdded shape numbers.now range.now.lo range.now.width stop work.old work.new }
{
    tiles::begin(work, range.lo + range.width - 1, shape);
    add_lengths(work, range, stop, shape, numbers);
}

// The bounds of the module k are added.
fn add_module(table: &Table, work: &mut [u32], k: usize, range: &EndRange, stop: usize)
    requires k_in_bounds { k < length (sheet_of table.now.sheet).modules }
    requires work_numbers_in_bounds { (work_numbers ≤ length work.old) × (stop ≤ 2000) × (Fits stop work.old) }
    ensures { ModuleAdded (sheet_of table.now.sheet) k range.now.lo range.now.width stop work.old work.new }
{
    let engine = modules::engine_of(&table.sheet, k, table.row(k));
    add_bounds(work, range, stop, engine.shape, &engine.numbers);
}

/// For each length from 1 to stop a bound of the sums of all intervals of that length with an end from lo on and before lo + width.
pub fn bound_sums(table: &Table, work: &mut [u32], lo: usize, width: usize, stop: usize)
    requires { (work_numbers ≤ length work.old) × (1 ≤ lo) × (1 ≤ width) × (lo + width ≤ 2001) × (stop ≤ 2000) }
    ensures { SumsBounded (sheet_of table.now.sheet) lo width stop work.old work.new }
{
    let range = EndRange { lo, width };
    sums::clear_sums(work, stop);
    for k in 0..table.modules {
        add_module(table, work, k, &range, stop);
    }
}
