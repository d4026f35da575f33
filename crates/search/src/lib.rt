// The first interval up to the horizon that is over: the ends in ranges, a range in tiles, and in each tile the sums over all modules.
#![tactic(auto)]

ghost use Rattle.std.specs.Prelude.{◌≡◌, pred, ◌+◌, ◌≤◌, ◌<◌, length};
ghost use Rattle.model.specs.Limits.{work_numbers};
ghost use Rattle.model.specs.Verdict.{exact_from, exact_sum, exact};
ghost use Rattle.place.specs.Held.{sheet_of};
ghost use Rattle.memory.specs.Map.{layer_from};
ghost use Rattle.cells.specs.Cells.{Longest, Tile};
ghost use Rattle.search.specs.Search.{Passed, Beyond, Bounded, Narrowed, CellsOf, Filled, Searched};

use cells::Interval;
use table::Table;

// How many tiles are enough for a range.
const TILES: usize = 8;

// So many ends from lo on: a range, or a tile of it.
#[derive(Clone, Copy)]
struct Ends {
    lo: usize,
    width: usize,
    ghost begins: { 1 ≤ lo },
    ghost some: { 1 ≤ width },
    ghost few: { lo + width ≤ 2001 },
}

impl Ends {
    fn last(&self) -> usize
        ensures { result + 1 ≡ self.now.lo + self.now.width }
    {
        self.lo + self.width - 1
    }

    // For how many ends eight tiles are enough, each as wide as the first.
    fn tiled(&self, work: &[u32]) -> usize
        requires { work_numbers ≤ length work.now }
        ensures { 1 ≤ result }
    {
        TILES * cells::width_at(work, self.lo, self.last())
    }
}

// The figures of the module k are added to the cells of the tile, where no length above stop is in question.
fn add_module(table: &Table, work: &mut [u32], tile: &Ends, stop: usize, k: usize)
    requires k_in_bounds { k < length (sheet_of table.now.sheet).modules }
    requires cells_of { (CellsOf (sheet_of table.now.sheet) k tile.now.lo tile.now.width work.old) × (Tile work.old tile.now.lo tile.now.width) × (Longest work.old (pred (tile.now.lo + tile.now.width)) stop) }
    ensures { Filled (sheet_of table.now.sheet) (k + 1) tile.now.lo tile.now.width work.old work.new }
{
    let engine = modules::engine_of(&table.sheet, k, table.row(k));
    tiles::add_module(
        work,
        tile.lo,
        tile.width,
        stop,
        engine.shape,
        &engine.numbers,
    );
}

// The cells of the tile become the sums over all modules.
fn fill_tile(table: &Table, work: &mut [u32], tile: &Ends)
    requires { Tile work.old tile.now.lo tile.now.width }
    ensures { Filled (sheet_of table.now.sheet) table.now.modules tile.now.lo tile.now.width work.old work.new }
{
    let stop = cells::longest(work, tile.last());
    cells::clear_cells(work);
    for k in 0..table.modules {
        add_module(table, work, tile, stop, k);
    }
}

// The first interval with an end in the tile that is over.
fn search_tile(table: &Table, work: &mut [u32], tile: &Ends) -> Option<Interval>
    requires { (Tile work.old tile.now.lo tile.now.width) × (Passed (sheet_of table.now.sheet) tile.now.lo tile.now.width work.old) }
    ensures { Searched layer_from (exact_from (exact_sum (sheet_of table.now.sheet)) tile.now.width tile.now.lo) result work.old work.new }
{
    fill_tile(table, work, tile);
    cells::first_in_tile(work, tile.lo, tile.width)
}

// The first interval with an end in the range that is over.
fn search_range(table: &Table, work: &mut [u32], range: &Ends) -> Option<Interval>
    requires { (work_numbers ≤ length work.old) × (Passed (sheet_of table.now.sheet) range.now.lo range.now.width work.old) }
    ensures { Searched layer_from (exact_from (exact_sum (sheet_of table.now.sheet)) range.now.width range.now.lo) result work.old work.new }
{
    let last = range.last();
    if cells::longest(work, last) == 0 {
        return None;
    }
    // no range counts these ends: how many a tile takes is what the bounds leave room for
    let mut from = range.lo;
    while from <= last {
        let width = cells::width_at(work, from, last);
        if let Some(interval) = search_tile(table, work, &Ends { lo: from, width }) {
            return Some(interval);
        }
        from += width;
    }
    None
}

// The bounds of a range, where no interval longer than stop is over.
fn bound_range(table: &Table, work: &mut [u32], range: &Ends, stop: usize)
    requires { (work_numbers ≤ length work.old) × (range.now.lo + range.now.width ≤ (sheet_of table.now.sheet).horizon + 1) × (Beyond (sheet_of table.now.sheet) stop) }
    ensures { Bounded (sheet_of table.now.sheet) range.now.lo range.now.width work.old work.new }
{
    let longest = stop.min(range.last());
    bounds::bound_sums(table, work, range.lo, range.width, longest);
}

// The bounds of a range, halved until eight tiles are enough for it; what is then left of it is handed back.
fn narrow(table: &Table, work: &mut [u32], range: &Ends, stop: usize) -> Ends
    requires { (work_numbers ≤ length work.old) × (range.now.lo + range.now.width ≤ (sheet_of table.now.sheet).horizon + 1) × (Beyond (sheet_of table.now.sheet) stop) }
    ensures lo { result.lo ≡ range.now.lo }
    ensures narrowed { Narrowed (sheet_of table.now.sheet) range.now.lo range.now.width result.width work.old work.new }
{
    let mut width = range.width;
    loop {
        let part = Ends {
            lo: range.lo,
            width,
        };
        bound_range(table, work, &part, stop);
        if width <= part.tiled(work) {
            return part;
        }
        width /= 2;
    }
}

// The first interval up to the horizon that is over, where no interval longer than stop is: a range is at most twice as wide as the one before it.
fn search_ranges(table: &Table, work: &mut [u32], stop: usize) -> Option<Interval>
    requires { (work_numbers ≤ length work.old) × (2 ≤ (sheet_of table.now.sheet).horizon) × (Beyond (sheet_of table.now.sheet) stop) }
    ensures { Searched 0 (exact (sheet_of table.now.sheet)) result work.old work.new }
{
    let horizon = table.sheet.horizon();
    // nor these: how wide a range is follows from its bounds
    let mut lo = 1;
    let mut most = horizon / 2;
    while lo <= horizon {
        let width = most.min(horizon + 1 - lo);
        let range = narrow(table, work, &Ends { lo, width }, stop);
        if let Some(interval) = search_range(table, work, &range) {
            return Some(interval);
        }
        lo += range.width;
        most = 2 * range.width;
    }
    None
}

/// The first interval up to the horizon that is over. The numbers past the 16,384th stay.
pub fn search(table: &Table, work: &mut [u32]) -> Option<Interval>
    requires { work_numbers ≤ length work.old }
    ensures { Searched 0 (exact (sheet_of table.now.sheet)) result work.old work.new }
{
    let horizon = table.sheet.horizon();
    let whole = Ends {
        lo: 1,
        width: horizon,
    };
    bound_range(table, work, &whole, horizon);
    if horizon <= whole.tiled(work) {
        return search_range(table, work, &whole);
    }
    let stop = cells::longest(work, horizon);
    search_ranges(table, work, stop)
}
