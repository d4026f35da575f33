// At which ticks the modes of a module can be begun.
#![tactic(auto)]

ghost use Rattle.std.specs.Prelude.{◌≡◌, true, false, List, ℕ, ◌+◌, ◌-◌, ◌≤◌, ◌<◌, max, length};
ghost use Rattle.memory.specs.Map.{mark_row_ticks, mark_numbers};
ghost use Rattle.layers.specs.Step.{period, lists, every};
ghost use Rattle.layers.specs.Layer.{Tells};
ghost use Rattle.marks.specs.Marks.{marked};
ghost use Rattle.marks.specs.Marking.{Marking, Room, Stride, Opens, Follows, Tick, Walkable, Walked, Followed, Kept, Entered};

use layers::Shape;
use memory::{MARK_NUMBERS, MARK_ROW_NUMBERS};

// Whether tick t of mode k is marked.
pub fn is_marked(bits: &[u32], k: usize, t: usize) -> bool
    requires { (k < 8) × (t < mark_row_ticks) × (mark_numbers ≤ length bits.now) }
    ensures { result ≡ marked bits.now k t }
{
    (bits[MARK_ROW_NUMBERS * k + t / 32] >> (t % 32)) % 2 == 1
}

// Mode k can be begun at tick t.
fn mark(bits: &mut [u32], k: usize, t: usize)
    requires { (k < 8) × (t < mark_row_ticks) × (mark_numbers ≤ length bits.old) }
    ensures { Marking (λ j x. (j ≡ k) × (x ≡ t)) bits.old bits.new }
{
    let x = MARK_ROW_NUMBERS * k + t / 32;
    bits[x] |= 1 << (t % 32);
}

// The first to be marked of n strides of q from t on: where mode k can be begun a stride earlier too, all but the last are marked.
fn first_stride(bits: &[u32], t: usize, q: usize, k: usize, n: usize) -> usize
    requires { (k < 8) × (t < mark_row_ticks) × (mark_numbers ≤ length bits.now) }
    ensures { (1 ≤ result) × (result ≤ max 1 n) × (1 < result → (q ≤ t) × (marked bits.now k (t - q) ≡ true)) }
{
    if 1 < n && q <= t && is_marked(bits, k, t - q) {
        n
    } else {
        1
    }
}

// A walk over the ticks up to the horizon, by the numbers of a module.
#[derive(Clone, Copy)]
struct Walk {
    shape: Shape,
    horizon: usize,
    ghost walkable: { Walkable shape horizon },
}

// A mode and its tick stay arguments: a stay as a struct that borrows its walk would say `self.now.walk.now.shape` where a clause says `self.now.shape`.
// `Walked` stays in the clauses: it is true of the lent marks at a tick, and both change from step to step.
impl Walk {
    // Mode k, begun at tick t, begins again.
    fn mark_again(&self, bits: &mut [u32], t: usize, k: usize)
        requires { (k < self.now.shape.modes) × (Room self.now.horizon t bits.old) }
        ensures { Marking (λ j x. (j ≡ k) × (x ≡ t + period self.now.shape k) × (x ≤ self.now.horizon)) bits.old bits.new }
    {
        let x = t + self.shape.periods[k] as usize;
        if x <= self.horizon {
            mark(bits, k, x);
        }
    }

    // Mode j is begun by the switch to it, in the stay in mode k from tick t on.
    fn mark_switch(&self, bits: &mut [u32], t: usize, k: usize, j: usize)
        requires { (k < self.now.shape.modes) × (j < self.now.shape.modes) × (lists self.now.shape k j ≡ true) × (Walked self.now.shape self.now.horizon t bits.old) }
        ensures { Marking (λ i x. (i ≡ j) × (x ≤ self.now.horizon) × (Stride (period self.now.shape k) (every self.now.shape k j) t x)) bits.old bits.new }
    {
        let step = self.shape.every[8 * k + j] as usize;
        let n = (self.horizon - t).min(self.shape.periods[k] as usize) / step;
        for i in first_stride(bits, t, step, k, n)..=n {
            mark(bits, j, t + i * step);
        }
    }

    // Mode j, where mode k lists it.
    fn mark_target(&self, bits: &mut [u32], t: usize, k: usize, j: usize)
        requires { (k < self.now.shape.modes) × (j < self.now.shape.modes) × (Walked self.now.shape self.now.horizon t bits.old) }
        ensures { Marking (λ i x. (i ≡ j) × (lists self.now.shape k j ≡ true) × (x ≤ self.now.horizon) × (Stride (period self.now.shape k) (every self.now.shape k j) t x)) bits.old bits.new }
    {
        if self.shape.listed[8 * k + j] {
            self.mark_switch(bits, t, k, j);
        }
    }

    fn mark_targets(&self, bits: &mut [u32], t: usize, k: usize)
        requires { (k < self.now.shape.modes) × (Walked self.now.shape self.now.horizon t bits.old) }
        ensures { Marking (Opens self.now.shape self.now.horizon k t self.now.shape.modes) bits.old bits.new }
    {
        for j in 0..self.shape.modes {
            self.mark_target(bits, t, k, j);
        }
    }

    // What mode k leads to, begun at tick t.
    fn mark_mode(&self, bits: &mut [u32], t: usize, k: usize)
        requires { (k < self.now.shape.modes) × (Walked self.now.shape self.now.horizon t bits.old) }
        ensures { Marking (Follows self.now.shape self.now.horizon k t) bits.old bits.new }
    {
        self.mark_again(bits, t, k);
        self.mark_targets(bits, t, k);
    }

    // What the modes lead to that can be begun at tick t.
    fn mark_tick(&self, bits: &mut [u32], t: usize)
        requires { Walked self.now.shape self.now.horizon t bits.old }
        ensures { Marking (Tick self.now.shape self.now.horizon t self.now.shape.modes bits.old) bits.old bits.new }
    {
        for k in 0..self.shape.modes {
            if is_marked(bits, k, t) {
                self.mark_mode(bits, t, k);
            }
        }
    }

    // Whether a mode is marked at tick t.
    fn is_any_marked(&self, bits: &[u32], t: usize) -> bool
        requires { Room self.now.horizon t bits.now }
        ensures { result ≡ false → (k : ℕ) → k < self.now.shape.modes → marked bits.now k t ≡ false }
    {
        (0..self.shape.modes).any(|k| is_marked(bits, k, t))
    }

    // From the first mark to all marks: those at a tick are made before it is looked at. What begins at the horizon leads beyond it.
    fn follow(&self, bits: &mut [u32])
        requires { Followed self.now.shape self.now.horizon 0 bits.old }
        ensures { (Kept bits.old bits.new) × (Followed self.now.shape self.now.horizon self.now.horizon bits.new) }
    {
        for t in 0..self.horizon {
            if self.is_any_marked(bits, t) {
                self.mark_tick(bits, t);
            }
        }
    }
}

// The ticks up to the horizon at which the modes can be begun.
pub fn mark_entries(bits: &mut [u32], horizon: usize, shape: Shape)
    requires { ((numbers : List ℕ) × Tells shape numbers) × (horizon ≤ 2000) × (mark_numbers ≤ length bits.old) }
    ensures { Entered shape horizon bits.old bits.new }
{
    layers::clear(bits, MARK_NUMBERS);
    mark(bits, 0, 0);
    let walk = Walk { shape, horizon };
    walk.follow(bits);
}
