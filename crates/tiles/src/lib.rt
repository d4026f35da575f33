// One module's part in a tile of ends: its figures, length by length, are added to the cells of the lengths in question.
#![tactic(auto)]

ghost use Rattle.std.specs.Prelude.{◌≡◌, true, List, ℕ, pred, ◌+◌, ◌≤◌, ◌<◌, length};
ghost use Rattle.model.specs.Limits.{work_numbers};
ghost use Rattle.layers.specs.Layer.{Tells, Each};
ghost use Rattle.cells.specs.Cells.{in_question, Longest, Tile};
ghost use Rattle.tiles.specs.Tiles.{Progress, Begun, Progressed, RowFits, RowAdded, CellsFit, ModuleAdded};

use layers::Shape;
use memory::{CELLS_FROM, LAYER_FROM, MARKS_FROM};

// The module's marks up to the last end, and its layer for no tick.
pub fn begin(work: &mut [u32], last: usize, shape: Shape)
    requires { ((numbers : List ℕ) × Tells shape numbers) × (last ≤ 2000) × (work_numbers ≤ length work.old) }
    ensures { Begun shape last work.old work.new }
{
    marks::mark_entries(&mut work[MARKS_FROM..CELLS_FROM], last, shape);
    let states = layers::states(shape.periods, shape.modes);
    layers::clear(&mut work[LAYER_FROM..MARKS_FROM], states);
}

// The layer and the figures for l ticks become those for l + 1.
fn next_figures(
    work: &mut [u32],
    fig: &mut [u32],
    lo: usize,
    l: usize,
    shape: Shape,
    numbers: &[u16],
)
    requires { (l < 2000) × (work_numbers ≤ length work.old) × (lo + length fig.old ≤ 2001) × (Tells shape numbers.now) × (Each shape numbers.now (λ m. Progress m lo l work.old fig.old)) }
    ensures { Progressed shape numbers.now lo (l + 1) work.old work.new fig.old fig.new }
{
    layers::advance(&mut work[LAYER_FROM..MARKS_FROM], l, shape, numbers);
    figures::raise_figures(
        fig,
        lo,
        l + 1,
        &work[LAYER_FROM..MARKS_FROM],
        &work[MARKS_FROM..CELLS_FROM],
        shape,
        numbers,
    );
}

// The figures are added to the row of this number, if the length l is in question; the number of the next row is handed back.
fn add_row(work: &mut [u32], fig: &[u32], l: usize, row: usize) -> usize
    requires { (l ≤ 2000) × (row ≤ l) × (work_numbers ≤ length work.old) × (in_question work.old l ≡ true → RowFits fig.now row work.old) }
    ensures { RowAdded fig.now l row result work.old work.new }
{
    if work[l] <= l as u32 {
        return row;
    }
    let from = CELLS_FROM + row * fig.len();
    let to = from + fig.len();
    figures::add_figures(&mut work[from..to], fig);
    row + 1
}

// All lengths up to stop, the longest in question, from what the module has come to with no tick.
fn add_lengths(
    work: &mut [u32],
    fig: &mut [u32],
    lo: usize,
    stop: usize,
    shape: Shape,
    numbers: &[u16],
)
    requires { (Tile work.old lo (length fig.old)) × (CellsFit work.old lo (length fig.old)) × (Tells shape numbers.now) × (Each shape numbers.now (λ m. Progress m lo 0 work.old fig.old)) × (Longest work.old (pred (lo + length fig.old)) stop) }
    ensures { ModuleAdded shape numbers.now lo (length fig.old) (pred (lo + length fig.old)) work.old work.new }
{
    let mut row = 0;
    for l in 0..stop {
        next_figures(work, fig, lo, l, shape, numbers);
        row = add_row(work, fig, l + 1, row);
    }
}

// One module's figures are added to the cells of the tile of the ends from lo on, where no length above stop is in question.
pub fn add_module(
    work: &mut [u32],
    lo: usize,
    width: usize,
    stop: usize,
    shape: Shape,
    numbers: &[u16],
)
    requires { (Tile work.old lo width) × (CellsFit work.old lo width) × (Tells shape numbers.now) × (Longest work.old (pred (lo + width)) stop) }
    ensures { ModuleAdded shape numbers.now lo width (pred (lo + width)) work.old work.new }
{
    begin(work, lo + width - 1, shape);
    let mut fig = [0u32; 512];
    add_lengths(work, &mut fig[0..width], lo, stop, shape, numbers);
}
