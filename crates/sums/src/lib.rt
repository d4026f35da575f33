// The largest demands of one module that numbers tell, from one state and from any, and a row of sums of these, one for each length.
#![tactic(auto)]

ghost use Rattle.std.specs.Prelude.{◌≡◌, ◌+◌, ◌*◌, ◌<◌, ◌≤◌, length};
ghost use Rattle.model.specs.Limits.{work_numbers};
ghost use Rattle.model.specs.Sheet.{Module};
ghost use Rattle.model.specs.WellFormed.{ModuleRule};
ghost use Rattle.model.specs.Run.{at};
ghost use Rattle.model.specs.Demand.{value};
ghost use Rattle.model.specs.Verdict.{quick_from};
ghost use Rattle.layers.specs.Step.{look, total, period, Cleared};
ghost use Rattle.layers.specs.Layer.{Told, Tells};
ghost use Rattle.memory.specs.Map.{layer_numbers, layer_part};
ghost use Rattle.sums.specs.Sums.{Layered, RunTo, Demands, Fits, Added, Summed, quick_of};

use layers::Shape;
use memory::{LAYER_FROM, MARKS_FROM};

/// A length that its sum exceeds, and that sum.
#[derive(Clone, Copy, Debug, PartialEq, Eq)]
pub struct Excess {
    pub length: u16,
    pub demand: u32,
}

// How many states the module has.
fn states_of(shape: Shape) -> usize
    requires { shape.modes ≤ 8 }
    ensures { result ≡ total shape.periods shape.modes }
{
    layers::states(shape.periods, shape.modes)
}

// The layer for l ticks. What lies past the module's states stays.
pub fn run_to(layer: &mut [u32], l: usize, shape: Shape, numbers: &[u16])
    requires { (l ≤ 2000) × (layer_numbers ≤ length layer.old) × (Tells shape numbers.now) }
    ensures { RunTo shape numbers.now l layer.old layer.new }
{
    layers::clear(layer, states_of(shape));
    for i in 0..l {
        layers::advance(layer, i, shape, numbers);
    }
}

// The largest demand in l ticks from mode time d of mode k.
pub fn demand_at(
    layer: &mut [u32],
    l: usize,
    shape: Shape,
    numbers: &[u16],
    k: usize,
    d: usize,
) -> u32
    requires { (l ≤ 2000) × (layer_numbers ≤ length layer.old) × (k < shape.modes) × (d < period shape k) × (Tells shape numbers.now) }
    ensures { (m : Module) → ModuleRule m → Told m shape numbers.now → result ≡ value m 0 l (at k d) }
{
    run_to(layer, l, shape, numbers);
    layer[layers::place(shape.periods, k, d, l)]
}

// The largest demand in l ticks from any state.
pub fn largest_demand(layer: &mut [u32], l: usize, shape: Shape, numbers: &[u16]) -> u32
    requires { (l ≤ 2000) × (layer_numbers ≤ length layer.old) × (Tells shape numbers.now) }
    ensures { Demands shape numbers.now l result }
{
    run_to(layer, l, shape, numbers);
    layers::largest(layer, states_of(shape))
}

// The layer for l ticks becomes that for l + 1; the largest demand in l + 1 ticks from any state is handed back.
fn next_demand(layer: &mut [u32], l: usize, shape: Shape, numbers: &[u16]) -> u32
    requires { (l < 2000) × (layer_numbers ≤ length layer.old) × (Tells shape numbers.now) × (Layered shape numbers.now l layer.old) }
    ensures { (length layer.new ≡ length layer.old) × (Layered shape numbers.now (l + 1) layer.new) × (Demands shape numbers.now (l + 1) result) }
{
    layers::advance(layer, l, shape, numbers);
    layers::largest(layer, states_of(shape))
}

// The largest demand in l + 1 ticks from any state is added to its sum.
fn add_next(work: &mut [u32], l: usize, shape: Shape, numbers: &[u16])
    requires { (l < 2000) × (work_numbers ≤ length work.old) × (look work.old (l + 1) ≤ 7 * 32000) × (Tells shape numbers.now) × (Layered shape numbers.now l (layer_part work.old)) }
    ensures { Added shape numbers.now l work.old work.new }
{
    let more = next_demand(&mut work[LAYER_FROM..MARKS_FROM], l, shape, numbers);
    work[l + 1] += more;
}

// To the sum of each length from 1 to the horizon the largest demand in so many ticks from any state is added. The layer stands behind the sums.
pub fn add_demands(work: &mut [u32], horizon: usize, shape: Shape, numbers: &[u16])
    requires { (horizon ≤ 2000) × (work_numbers ≤ length work.old) × (Fits horizon work.old) × (Tells shape numbers.now) }
    ensures { Summed shape numbers.now horizon work.old work.new }
{
    layers::clear(&mut work[LAYER_FROM..MARKS_FROM], states_of(shape));
    for l in 0..horizon {
        add_next(work, l, shape, numbers);
    }
}

// All sums up to the horizon's become 0.
pub fn clear_sums(work: &mut [u32], horizon: usize)
    requires { horizon < length work.old }
    ensures { Cleared (horizon + 1) work.old work.new }
{
    layers::clear(work, horizon + 1);
}

// The first length from 1 to the horizon whose sum exceeds it.
pub fn first_over(work: &[u32], horizon: usize) -> Option<Excess>
    requires { (horizon ≤ 2000) × (horizon < length work.now) }
    ensures { quick_of result ≡ quick_from (look work.now) horizon 1 }
{
    let l = (1..horizon + 1).find(|l| (*l as u32) < work[*l])?;
    Some(Excess {
        length: l as u16,
        demand: work[l],
    })
}
