// The cells of a tile of ends, and the first of them that exceeds its length.
#![tactic(auto)]

ghost use Rattle.std.specs.Prelude.{◌≡◌, ℕ, ◌+◌, ◌≤◌, ◌<◌, length};
ghost use Rattle.model.specs.Lists.{when};
ghost use Rattle.model.specs.Limits.{work_numbers};
ghost use Rattle.model.specs.Verdict.{exact_at, exact_from};
ghost use Rattle.cells.specs.Cells.{in_question, rows, Longest, Tile, Holding, CellsCleared, found_of};

use memory::{CELL_NUMBERS, CELLS_FROM, WORK_NUMBERS};

/// An interval that its sum exceeds, and that sum.
#[derive(Clone, Copy, Debug, PartialEq, Eq)]
pub struct Interval {
    pub start: u16,
    pub end: u16,
    pub demand: u32,
}

// Whether the length l is in question: its bound exceeds it.
fn in_question(work: &[u32], l: usize) -> bool
    requires { (l ≤ 2000) × (l < length work.now) }
    ensures { result ≡ in_question work.now l }
{
    (l as u32) < work[l]
}

// The longest length in question from 1 to n, 0 where there is none.
pub fn longest(work: &[u32], n: usize) -> usize
    requires { (n ≤ 2000) × (n < length work.now) }
    ensures { Longest work.now n result }
{
    (1..=n).rev().find(|l| in_question(work, *l)).unwrap_or(0)
}

// How many rows the lengths from 1 to n have: one each that is in question.
fn rows_to(work: &[u32], n: usize) -> usize
    requires { (n ≤ 2000) × (n < length work.now) }
    ensures { result ≡ rows work.now n }
{
    (1..=n).filter(|l| in_question(work, *l)).count()
}

// How many ends the next tile takes: as many as the cells have room for, at most 512, and at least one.
pub fn width_at(work: &[u32], lo: usize, horizon: usize) -> usize
    requires { (1 ≤ lo) × (lo ≤ horizon) × (horizon ≤ 2000) × (work_numbers ≤ length work.now) }
    ensures { (Tile work.now lo result) × (1 ≤ result) × (lo + result ≤ horizon + 1) }
{
    let most = (horizon + 1 - lo).min(512);
    let mut count = rows_to(work, lo);
    for width in 1..most {
        if in_question(work, lo + width) {
            count += 1;
        }
        if CELL_NUMBERS < count * (width + 1) {
            return width;
        }
    }
    most
}

// All cells become 0.
pub fn clear_cells(work: &mut [u32])
    requires { work_numbers ≤ length work.old }
    ensures { CellsCleared work.old work.new }
{
    layers::clear(&mut work[CELLS_FROM..WORK_NUMBERS], CELL_NUMBERS);
}

// The shortest interval that ends at the end of the number i and is over.
fn first_at_end(work: &[u32], lo: usize, width: usize, i: usize) -> Option<Interval>
    requires { (Tile work.now lo width) × (i < width) }
    ensures { (f : ℕ → ℕ → ℕ) → Holding f work.now lo width → found_of result ≡ exact_at f (lo + i) (lo + i) }
{
    let end = lo + i;
    let mut at = CELLS_FROM + i;
    let mut l = 1;
    // a range here makes the exact test of small modules take 1.6 times as long
    while l <= end {
        if in_question(work, l) {
            let sum = work[at];
            if (l as u32) < sum {
                return Some(Interval {
                    start: (end - l) as u16,
                    end: end as u16,
                    demand: sum,
                });
            }
            at += width;
        }
        l += 1;
    }
    None
}

// The first interval of the tile that is over: ends ascending, for an end lengths ascending.
pub fn first_in_tile(work: &[u32], lo: usize, width: usize) -> Option<Interval>
    requires { Tile work.now lo width }
    ensures { (f : ℕ → ℕ → ℕ) → Holding f work.now lo width → found_of result ≡ exact_from f width lo }
{
    for i in 0..width {
        if let Some(interval) = first_at_end(work, lo, width, i) {
            return Some(interval);
        }
    }
    None
}
