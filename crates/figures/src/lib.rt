// The figures of a module: for each end of a tile the largest demand in so many ticks before it over runs from tick 0, one length after the other.
// The walk over what a module offers to ends is for all that takes it: `bounds` makes it too.
#![tactic(auto)]

ghost use Rattle.std.specs.Prelude.{◌≡◌, false, ℕ, ◌+◌, ◌-◌, ◌*◌, ◌/◌, ◌^◌, ◌<◌, ◌≤◌, length};
ghost use Rattle.layers.specs.Step.{look, total, period, TasksReady, ModeReady};
ghost use Rattle.layers.specs.Layer.{IsLayer};
ghost use Rattle.memory.specs.Map.{mark_row_ticks, mark_numbers};
ghost use Rattle.figures.specs.Figures.{Growable, Grown, Added};
ghost use Rattle.figures.specs.Offers.{Ends, tile_ends, Took, Below, TicksOffer, TimesOffer, TaskOffer, ModeOffer, ShapeOffer, Quiet, AnyMark};

use layers::Shape;
use memory::{MARK_ROW_NUMBERS, MARK_ROW_TICKS};

// How many ticks from t on are known to bear no mark of mode k: 0 exactly where t bears one.
fn quiet(bits: &[u32], k: usize, t: usize) -> usize
    requires { (k < 8) × (t < mark_row_ticks) × (mark_numbers ≤ length bits.now) }
    ensures { Quiet bits.now k t result }
{
    let rest = bits[MARK_ROW_NUMBERS * k + t / 32] >> (t % 32);
    (rest.trailing_zeros() as usize).min(32 - t % 32)
}

// Whether a tick from a on and before b bears a mark of mode k.
pub fn any_mark(bits: &[u32], k: usize, a: usize, b: usize) -> bool
    requires { (k < 8) × (b ≤ mark_row_ticks) × (mark_numbers ≤ length bits.now) }
    ensures { AnyMark bits.now k a b result }
{
    // no range counts these ticks: how far the next step goes is what the marks tell
    let mut t = a;
    while t < b {
        let skip = quiet(bits, k, t);
        if skip == 0 {
            return true;
        }
        t += skip;
    }
    false
}

// Where in the tile from lo on the end stands that is so many ticks after tick e.
fn spot(lo: usize, e: usize, far: usize) -> usize
    requires { (lo ≤ e + far) × (e + far < 2001) }
    ensures { lo + result ≡ e + far }
{
    e + far - lo
}

// What one mode offers for one length l: its part of the layer for l ticks, its tasks, and the marks of the module.
#[derive(Clone, Copy)]
pub struct Offers<'a> {
    pub part: &'a [u32],
    pub tasks: &'a [u16],
    pub bits: &'a [u32],
    pub k: usize,
    pub l: usize,
    pub ghost some: { 0 < length part.now },
    pub ghost few: { length part.now < 65536 },
    pub ghost ready: { TasksReady tasks.now },
    pub ghost rows: { mark_numbers ≤ length bits.now },
    pub ghost mode: { k < 8 },
    pub ghost short: { l ≤ 2000 },
}

// Ends that numbers are offered to; in a row of numbers each end has one, of its own or not.
pub trait Takes {
    // which they are; what the row takes is `Took` of them, and the laws of that are of all ends (`proofs/Raises`)
    ghost ends: { Self → Ends };

    // Whether the mode may offer a number to any of them; where none can be offered no walk is made.
    fn concerns(&self, offers: &Offers) -> bool
        ensures { result ≡ false → (i v : ℕ) → i < (ends self.now).width → ModeOffer offers.now.part.now offers.now.tasks.now offers.now.bits.now offers.now.k (ends self.now).lo offers.now.l i v → ⊥ };

    // Each end that is so many ticks after a mark of the mode is offered v.
    fn offer(&self, row: &mut [u32], offers: &Offers, far: usize, v: u32)
        requires { (ends self.now).row ≤ length row.old }
        ensures { Took (ends self.now) (TicksOffer offers.now.bits.now offers.now.k (ends self.now).lo far v) row.old row.new };

    // no end is above 2,000
    ghost few: { (x : Self) → (ends x).lo + (ends x).width ≤ 2001 };
}

impl Offers<'_> {
    // At each mode time d that leaves the offset, what the part holds of it is offered to the end l ticks later; that number stands l further on.
    fn walk_times<T: Takes>(&self, to: &T, row: &mut [u32], offset: u16, every: u16)
        requires { (offset < every) × ((T.ends to.now).row ≤ length row.old) }
        ensures { Took (T.ends to.now) (TimesOffer self.now.part.now self.now.bits.now self.now.k (T.ends to.now).lo self.now.l offset every) row.old row.new }
    {
        let step = every as usize;
        let first = offset as usize;
        let mut x = layers::rest(first + self.l, self.part.len());
        for d in (first..self.part.len()).step_by(step) {
            to.offer(row, self, d + self.l, self.part[x]);
            x = layers::rest(x + step, self.part.len());
        }
    }

    // Task j, where its LET is at most l.
    fn walk_task<T: Takes>(&self, to: &T, row: &mut [u32], j: usize)
        requires { (j < length self.now.tasks.now / 4) × ((T.ends to.now).row ≤ length row.old) }
        ensures { Took (T.ends to.now) (TaskOffer self.now.part.now self.now.tasks.now self.now.bits.now self.now.k (T.ends to.now).lo self.now.l j) row.old row.new }
    {
        let window = self.tasks[4 * j + 2] as usize;
        if window <= self.l {
            self.walk_times(to, row, self.tasks[4 * j], self.tasks[4 * j + 3]);
        }
    }

    // All tasks of the mode, where it concerns any of the ends.
    fn walk<T: Takes>(&self, to: &T, row: &mut [u32])
        requires { (T.ends to.now).row ≤ length row.old }
        ensures { Took (T.ends to.now) (ModeOffer self.now.part.now self.now.tasks.now self.now.bits.now self.now.k (T.ends to.now).lo self.now.l) row.old row.new }
    {
        if to.concerns(self) {
            for j in 0..self.tasks.len() / 4 {
                self.walk_task(to, row, j);
            }
        }
    }
}

// What a module has for one length l: its layer for l ticks, its marks, and what tells it. That these are a module's is no ghost field but asked
// for beside it: the same numbers can tell two modules, and a ghost field takes only a fact that has one proof.
#[derive(Clone, Copy)]
pub struct ModuleLayer<'a> {
    pub layer: &'a [u32],
    pub bits: &'a [u32],
    pub shape: &'a Shape,
    pub numbers: &'a [u16],
    pub l: usize,
    pub ghost rows: { mark_numbers ≤ length bits.now },
    pub ghost short: { l ≤ 2000 },
}

impl ModuleLayer<'_> {
    // Mode k, whose part of the layer begins at from. Where that ends is handed back.
    fn offer_mode<T: Takes>(&self, to: &T, row: &mut [u32], k: usize, from: usize) -> usize
        requires { (k < 8) × (from ≡ total self.now.shape.now.periods k) × (from + period self.now.shape.now k ≤ length self.now.layer.now) × (ModeReady self.now.shape.now self.now.numbers.now k) × ((T.ends to.now).row ≤ length row.old) }
        ensures { (result ≡ total self.now.shape.now.periods (k + 1)) × (Took (T.ends to.now) (ShapeOffer self.now.shape.now self.now.numbers.now self.now.layer.now self.now.bits.now (T.ends to.now).lo self.now.l k) row.old row.new) }
    {
        let end = from + self.shape.periods[k] as usize;
        let tasks = self.shape.starts[k] as usize..self.shape.starts[k + 1] as usize;
        let offers = Offers {
            part: &self.layer[from..end],
            tasks: &self.numbers[tasks],
            bits: self.bits,
            k,
            l: self.l,
        };
        offers.walk(to, row);
        end
    }

    // All modes of the module.
    pub fn offer<T: Takes>(&self, to: &T, row: &mut [u32])
        requires { (IsLayer self.now.shape.now self.now.numbers.now self.now.l self.now.layer.now) × ((T.ends to.now).row ≤ length row.old) }
        ensures { Took (T.ends to.now) (Below (ShapeOffer self.now.shape.now self.now.numbers.now self.now.layer.now self.now.bits.now (T.ends to.now).lo self.now.l) self.now.shape.now.modes) row.old row.new }
    {
        let mut from = 0;
        for k in 0..self.shape.modes {
            from = self.offer_mode(to, row, k, from);
        }
    }
}

// The ends of a tile, each with a figure of its own.
#[derive(Clone, Copy)]
struct Tile {
    lo: usize,
    width: usize,
    ghost few: { lo + width ≤ 2001 },
}

impl Takes for Tile {
    ghost ends = { λ t. tile_ends t.lo t.width };

    ghost few = { λ t. t.few };

    // A mode that is never begun costs no walk.
    fn concerns(&self, offers: &Offers) -> bool {
        any_mark(offers.bits, offers.k, 0, MARK_ROW_TICKS)
    }

    fn offer(&self, row: &mut [u32], offers: &Offers, far: usize, v: u32) {
        let end = (self.lo + self.width).saturating_sub(far);
        // no range counts these ticks: how far the next step goes is what the marks tell
        let mut e = self.lo.saturating_sub(far);
        while e < end {
            let skip = quiet(offers.bits, offers.k, e);
            if skip == 0 {
                let i = spot(self.lo, e, far);
                row[i] = row[i].max(v);
                e += 1;
            } else {
                e += skip;
            }
        }
    }
}

// The figures for l - 1 ticks become those for l, by the layer for l ticks and the marks of the module.
pub fn raise_figures(
    fig: &mut [u32],
    lo: usize,
    l: usize,
    layer: &[u32],
    bits: &[u32],
    shape: Shape,
    numbers: &[u16],
)
    requires { (1 ≤ l) × (l ≤ 2000) × (lo + length fig.old ≤ 2001) × (mark_numbers ≤ length bits.now) × (Growable shape numbers.now layer.now bits.now lo l fig.old) }
    ensures { Grown shape numbers.now layer.now bits.now lo l fig.old fig.new }
{
    let tile = Tile {
        lo,
        width: fig.len(),
    };
    let module = ModuleLayer {
        layer,
        bits,
        shape: &shape,
        numbers,
        l,
    };
    module.offer(&tile, fig);
}

// Each figure is added to the cell at its place.
pub fn add_figures(cells: &mut [u32], fig: &[u32])
    requires fig_in_bounds { length fig.now ≤ length cells.old }
    requires by_index { (i : ℕ) → i < length fig.now → look cells.old i + look fig.now i < 2 ^ 32 }
    ensures { Added (length fig.now) fig.now cells.old cells.new }
{
    // not by `iter_mut().zip(fig)`, after which no proof knows what the cells hold
    for (i, figure) in fig.iter().enumerate() {
        cells[i] += *figure;
    }
}
