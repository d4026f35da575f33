// The layers of a module: for each of its states the largest demand in so many ticks, one length after the other.
#![tactic(auto)]

ghost use Rattle.std.specs.Prelude.{◌≡◌, true, ℕ, ◌+◌, ◌*◌, ◌/◌, ◌%◌, ◌^◌, ◌<◌, ◌≤◌, min, max, length};
ghost use Rattle.model.specs.Lists.{max_below};
ghost use Rattle.layers.specs.Step.{look, total, period, lists, Moved, Changed, offer_of, due_at, offered, gained, stepped, step_at, Stepped, Cleared, TasksReady, Ready};
ghost use Rattle.layers.specs.Layer.{IsLayer, Advanced, Steppable, SteppedBy};

// What a module is to the engine, beside its tasks.
#[derive(Clone, Copy)]
pub struct Shape {
    pub modes: usize,
    // of mode k at k
    pub periods: [u16; 8],
    // of mode k's switch to t at 8 * k + t: its period, and whether there is one; two rows and no row of options, since document 01 names by-value rows
    // of switch periods and `every` and `lists` read one each
    pub every: [u16; 64],
    pub listed: [bool; 64],
    // mode k's tasks are the numbers from starts[k] to starts[k + 1]
    pub starts: [u16; 9],
}

/// A module's shape, and its tasks as numbers. What works on a module takes both apart: it is proved for any slice of numbers, which this array would narrow.
#[derive(Clone, Copy)]
pub struct Engine {
    pub shape: Shape,
    pub numbers: [u16; 512],
}

// What x leaves, divided by p; no division where x is below p.
pub fn rest(x: usize, p: usize) -> usize
    requires { 0 < p }
    ensures { result ≡ x % p }
{
    if x < p { x } else { x % p }
}

// Each position that leaves the start, divided by the step, becomes what f makes of it.
fn change<F: Fn(u32) -> u32>(part: &mut [u32], start: usize, every: u16, f: F)
    requires start_lt_every { start < every }
    requires by_index { (x : ℕ) → x < length part.old → x % every ≡ start → F.pre f (look part.old x) }
    ensures { Changed every start (F.post f) part.old part.new }
{
    let step = every as usize;
    let mut x = start;
    // not for and step_by, which test twice at each step and take 1.4 times as long
    while x < part.len() {
        part[x] = f(part[x]);
        x += step;
    }
}

// A target of the mode, where it is listed.
fn switch(part: &mut [u32], n: usize, listed: bool, every: u16, head: u32)
    requires { listed ≡ true → 1 ≤ every }
    ensures { Moved (λ x v. max v (offer_of listed every head n x)) part.old part.new }
{
    if listed {
        change(part, n % every as usize, every, |value| value.max(head));
    }
}

// All targets of mode k.
fn switches(part: &mut [u32], n: usize, shape: &Shape, k: usize, heads: &[u32; 8])
    requires { (k < 8) × (shape.now.modes ≤ 8) × ((t : ℕ) → t < shape.now.modes → lists shape.now k t ≡ true → 1 ≤ look shape.now.every (8 * k + t)) }
    ensures { Moved (offered shape.now.listed shape.now.every k heads.now n shape.now.modes) part.old part.new }
{
    for t in 0..shape.modes {
        let at = 8 * k + t;
        switch(part, n, shape.listed[at], shape.every[at], heads[t]);
    }
}

// Task i, with l ticks left.
fn release(part: &mut [u32], l: usize, n: usize, tasks: &[u16], i: usize)
    requires n_bound { (n ≤ 2000) × (i < length tasks.now / 4) × (look tasks.now (4 * i) < look tasks.now (4 * i + 3)) }
    requires by_index { (x : ℕ) → x < length part.old → look part.old x + due_at tasks.now l n x i < 2 ^ 32 }
    ensures { Moved (λ x v. v + due_at tasks.now l n x i) part.old part.new }
{
    let window = tasks[4 * i + 2] as usize;
    if window <= l {
        let gain = tasks[4 * i + 1] as u32;
        let every = tasks[4 * i + 3];
        let start = (tasks[4 * i] as usize + (n + 1)) % every as usize;
        change(part, start, every, |value| value + gain);
    }
}

fn releases(part: &mut [u32], l: usize, n: usize, tasks: &[u16])
    requires n_bound { (n ≤ 2000) × (TasksReady tasks.now) }
    requires by_index { (x : ℕ) → x < length part.old → gained tasks.now l n (length tasks.now / 4) x (look part.old x) < 2 ^ 32 }
    ensures { Moved (gained tasks.now l n (length tasks.now / 4)) part.old part.new }
{
    for i in 0..tasks.len() / 4 {
        release(part, l, n, tasks, i);
    }
}

// The part of mode k after n steps becomes that after one more: the numbers of one tick earlier, where instances gain that are due within l ticks.
fn renew(
    part: &mut [u32],
    l: usize,
    n: usize,
    tasks: &[u16],
    shape: &Shape,
    k: usize,
    heads: &[u32; 8],
)
    requires n_bound { (n ≤ 2000) × (TasksReady tasks.now) × (k < 8) × (shape.now.modes ≤ 8) × ((t : ℕ) → t < shape.now.modes → lists shape.now k t ≡ true → 1 ≤ look shape.now.every (8 * k + t)) }
    requires by_index { (x : ℕ) → x < length part.old → stepped shape.now.modes shape.now.listed shape.now.every k tasks.now heads.now l n x (look part.old x) < 2 ^ 32 }
    ensures { Moved (stepped shape.now.modes shape.now.listed shape.now.every k tasks.now heads.now l n) part.old part.new }
{
    switches(part, n, shape, k, heads);
    releases(part, l, n, tasks);
}

// All modes' parts, one behind the other in the layer.
fn step(layer: &mut [u32], l: usize, n: usize, shape: Shape, numbers: &[u16], heads: &[u32; 8])
    requires n_bound { (n ≤ 2000) × (Ready shape numbers.now) × (total shape.periods shape.modes ≤ length layer.old) }
    requires by_index { (k x : ℕ) → k < shape.modes → x < period shape k → step_at shape numbers.now heads.now l n layer.old k x < 2 ^ 32 }
    ensures { Stepped shape numbers.now heads.now l n shape.modes layer.old layer.new }
{
    let mut from = 0;
    for k in 0..shape.modes {
        let to = from + shape.periods[k] as usize;
        let a = shape.starts[k] as usize;
        let e = shape.starts[k + 1] as usize;
        renew(&mut layer[from..to], l, n, &numbers[a..e], &shape, k, heads);
        from = to;
    }
}

// The numbers of mode time 0 of each mode, after n steps.
pub fn heads(layer: &[u32], n: usize, shape: Shape) -> [u32; 8]
    requires { (shape.modes ≤ 8) × (total shape.periods shape.modes ≤ length layer.now) × ((k : ℕ) → k < shape.modes → 1 ≤ period shape k) }
    ensures { (k : ℕ) → k < shape.modes → look result k ≡ look layer.now (total shape.periods k + n % period shape k) }
{
    let mut found = [0u32; 8];
    let mut from = 0;
    for k in 0..shape.modes {
        let p = shape.periods[k] as usize;
        found[k] = layer[from + n % p];
        from += p;
    }
    found
}

// Whatever numbers the layer holds of the states after n steps become those of one tick earlier, where instances gain that are due within l
// ticks. What lies past the module's states stays.
pub fn advance_by(layer: &mut [u32], l: usize, n: usize, shape: Shape, numbers: &[u16])
    requires { (n ≤ 2000) × (Steppable shape numbers.now layer.old) }
    ensures { SteppedBy shape numbers.now l n layer.old layer.new }
{
    let tops = heads(layer, n, shape);
    step(layer, l, n, shape, numbers, &tops);
}

// The layer for l ticks becomes that for l + 1. What lies past the module's states stays.
pub fn advance(layer: &mut [u32], l: usize, shape: Shape, numbers: &[u16])
    requires { (l < 2000) × (IsLayer shape numbers.now l layer.old) }
    ensures { Advanced shape numbers.now l layer.old layer.new }
{
    advance_by(layer, l + 1, l, shape, numbers);
}

// The layer for 0 ticks: the first count numbers become 0, and the others stay.
pub fn clear(layer: &mut [u32], count: usize)
    requires { count ≤ length layer.old }
    ensures { Cleared count layer.old layer.new }
{
    layer[..count].fill(0);
}

// The largest of the first count numbers.
pub fn largest(layer: &[u32], count: usize) -> u32
    requires { count ≤ length layer.now }
    ensures { result ≡ max_below (look layer.now) count }
{
    layer[..count].iter().copied().max().unwrap_or(0)
}

// The sum of the first n periods: where the part of mode n begins, and of all modes how many states there are.
pub fn states(periods: [u16; 8], n: usize) -> usize
    requires { n ≤ 8 }
    ensures { (result ≡ total periods n) × (result ≤ 65535 * n) }
{
    periods[..n].iter().map(|p| *p as usize).sum()
}

// Where the number of mode time d of mode k stands in the layer after n steps.
pub fn place(periods: [u16; 8], k: usize, d: usize, n: usize) -> usize
    requires { (k < 8) × (d < look periods k) × (d < 65536) × (n ≤ 2000) }
    ensures { result ≡ total periods k + (d + n) % look periods k }
{
    let p = periods[k] as usize;
    states(periods, k) + (d + n) % p
}
