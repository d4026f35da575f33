// What the writer of one module's tape looks up: what a state gains, and the heads of the modes at each tick, from the end of the interval back.
#![tactic(auto)]

ghost use Rattle.std.specs.Prelude.{◌≡◌, List, ℕ, ◌+◌, ◌*◌, ◌/◌, ◌%◌, ◌<◌, ◌≤◌, length, set};
ghost use Rattle.model.specs.Limits.{work_numbers};
ghost use Rattle.model.specs.Run.{at, gain};
ghost use Rattle.layers.specs.Step.{look, sum_below, due, TasksReady};
ghost use Rattle.layers.specs.Layer.{Tells, Each};
ghost use Rattle.following.specs.Follow.{counted};
ghost use Rattle.heads.specs.Heads.{head_of, Filled, Packed, Noted, BackTo, Kept};

use layers::Shape;
use memory::HEADS_FROM;

// Within how many ticks an instance released at tick t must be due to count in the interval.
pub fn counted_at(a: usize, b: usize, t: usize) -> usize
    requires { t ≤ b }
    ensures { result ≡ counted a b t }
{
    if a <= t { b - t } else { 0 }
}

// What task i gains at mode time d of an instance due within l ticks.
#[tactic(auto, unfolding(layers::specs::Step::due))]
fn gain_of(tasks: &[u16], l: usize, d: usize, i: usize) -> u32
    requires { (i < length tasks.now / 4) × (look tasks.now (4 * i) < look tasks.now (4 * i + 3)) }
    ensures { (result ≡ due tasks.now l d i) × (result < 65536) }
{
    let offset = usize::from(tasks[4 * i]);
    let window = usize::from(tasks[4 * i + 2]);
    let step = usize::from(tasks[4 * i + 3]);
    if window <= l && d % step == offset {
        u32::from(tasks[4 * i + 1])
    } else {
        0
    }
}

fn gains_of(tasks: &[u16], l: usize, d: usize) -> u32
    requires { (TasksReady tasks.now) × (length tasks.now < 65536) }
    ensures { result ≡ sum_below (due tasks.now l d) (length tasks.now / 4) }
{
    (0..tasks.len() / 4).map(|i| gain_of(tasks, l, d, i)).sum()
}

// What the state of mode k at mode time d gains of instances due within l ticks.
pub fn gain_at(k: usize, d: usize, l: usize, shape: Shape, numbers: &[u16]) -> u32
    requires { (Tells shape numbers.now) × (k < shape.modes) }
    ensures { (result ≤ 16384) × (Each shape numbers.now (λ m. result ≡ gain m (at k d) 0 l)) }
{
    let from = usize::from(shape.starts[k]);
    let to = usize::from(shape.starts[k + 1]);
    gains_of(&numbers[from..to], l, d)
}

// Two heads in one number: the lent memory is fixed, and has no room for eight of them at each of 2,000 ticks.
fn put_pair(work: &mut [u32], at: usize, low: u32, high: u32)
    requires { at < length work.old }
    ensures { work.new ≡ set work.old at (low % 65536 + 65536 * (high % 65536)) }
{
    work[at] = low % 65536 + 65536 * (high % 65536);
}

// The heads of tick t.
fn pack(work: &mut [u32], t: usize, tops: &[u32; 8])
    requires { (t ≤ 2000) × (work_numbers ≤ length work.old) }
    ensures { Packed t 4 tops.now work.old work.new }
{
    for i in 0..4 {
        put_pair(work, HEADS_FROM + (4 * t + i), tops[2 * i], tops[2 * i + 1]);
    }
}

// The heads of tick t are those of the layer after n steps.
fn note_heads(work: &mut [u32], t: usize, n: usize, shape: Shape)
    requires { ((numbers : List ℕ) × Tells shape numbers) × (t ≤ 2000) × (work_numbers ≤ length work.old) }
    ensures { Noted shape t n work.old work.new }
{
    let tops = layers::heads(work, n, shape);
    pack(work, t, &tops);
}

// At the end nothing is due.
fn begin_at(work: &mut [u32], a: usize, b: usize, shape: Shape, numbers: &[u16])
    requires { (Tells shape numbers.now) × (b ≤ 2000) × (work_numbers ≤ length work.old) }
    ensures { (BackTo shape numbers.now a b b work.new) × (Kept work.old work.new) }
{
    layers::clear(work, layers::states(shape.periods, shape.modes));
    note_heads(work, b, 0, shape);
}

// One tick back, to tick t.
fn back_to(work: &mut [u32], a: usize, b: usize, t: usize, shape: Shape, numbers: &[u16])
    requires { (Tells shape numbers.now) × (t < b) × (b ≤ 2000) × (work_numbers ≤ length work.old) × (BackTo shape numbers.now a b (t + 1) work.old) }
    ensures { (BackTo shape numbers.now a b t work.new) × (Kept work.old work.new) }
{
    layers::advance_by(work, counted_at(a, b, t), b - t - 1, shape, numbers);
    note_heads(work, t, b - t, shape);
}

// The heads of all ticks. The numbers of the working memory from the 16,384th on stay.
pub fn fill_heads(work: &mut [u32], a: usize, b: usize, shape: Shape, numbers: &[u16])
    requires { (Tells shape numbers.now) × (b ≤ 2000) × (work_numbers ≤ length work.old) }
    ensures { (Filled shape numbers.now a b work.new) × (Kept work.old work.new) }
{
    begin_at(work, a, b, shape, numbers);
    for t in (0..b).rev() {
        back_to(work, a, b, t, shape, numbers);
    }
}

// The head of mode j at tick t.
#[tactic(auto, unfolding(crate::specs::Heads::head_of))]
pub fn head(work: &[u32], t: usize, j: usize) -> u32
    requires { (t ≤ 2000) × (j < 8) × (work_numbers ≤ length work.now) }
    ensures { (result ≡ head_of work.now t j) × (result < 65536) }
{
    let pair = work[HEADS_FROM + (4 * t + j / 2)];
    if j % 2 == 0 {
        pair % 65536
    } else {
        pair / 65536
    }
}
