// A module that numbers tell, with some modes made idle: period 1, no tasks, no switches.
#![tactic(auto)]

ghost use Rattle.std.specs.Prelude.{◌≡◌, false, cond, ◌&&◌, ℕ, ◌+◌, ◌/◌, ◌≤◌, ◌<◌, length, get_or};
ghost use Rattle.std.proofs.Math.Seq.{paste};
ghost use Rattle.model.specs.Emptied.{emptied};
ghost use Rattle.layers.specs.Step.{look};
ghost use Rattle.layers.specs.Layer.{Told, Tells, Each};
ghost use Rattle.emptying.specs.Kept.{kept_tasks, Between};

use layers::{Engine, Shape};
use std::array;

// The periods: 1 where a mode is not kept.
fn kept_periods(periods: &[u16; 8], kept: &[bool; 8]) -> [u16; 8]
    ensures { (k : ℕ) → k < 8 → look result k ≡ cond (get_or kept.now k false) (look periods.now k) 1 }
{
    array::from_fn(|k| if kept[k] { periods[k] } else { 1 })
}

// The switches: none where a mode is not kept.
fn kept_switches(listed: &[bool; 64], kept: &[bool; 8]) -> [bool; 64]
    ensures { (i : ℕ) → i < 64 → get_or result i false ≡ (get_or kept.now (i / 8) false && get_or listed.now i false) }
{
    array::from_fn(|i| kept[i / 8] && listed[i])
}

// The numbers go from the place at on; the result is where they end.
fn put_numbers(out: &mut [u16; 512], at: usize, numbers: &[u16]) -> usize
    requires { (at + length numbers.now ≤ 512) × (length out.old ≡ 512) }
    ensures { (result ≡ at + length numbers.now) × (out.new ≡ paste out.old at numbers.now (length numbers.now)) }
{
    let end = at + numbers.len();
    out[at..end].copy_from_slice(numbers);
    end
}

// The tasks: none where a mode is not kept; the result is where those of each mode start.
fn kept_tasks(shape: Shape, numbers: &[u16], kept: &[bool; 8], out: &mut [u16; 512]) -> [u16; 9]
    requires tells { Tells shape numbers.now }
    requires out_len { length out.old ≡ 512 }
    ensures { (k : ℕ) → k < shape.modes → Between result out.new k (kept_tasks shape numbers.now kept.now k) }
{
    let mut starts = [0u16; 9];
    let mut at = 0;
    for k in 0..shape.modes {
        let from = shape.starts[k] as usize;
        let end = shape.starts[k + 1] as usize;
        let to = if kept[k] { end } else { from };
        at = put_numbers(out, at, &numbers[from..to]);
        starts[k + 1] = at as u16;
    }
    starts
}

/// The module in which each mode that is not kept is idle.
pub fn empty_modes(shape: Shape, numbers: &[u16], kept: [bool; 8]) -> Engine
    requires { Tells shape numbers.now }
    ensures { Each shape numbers.now (λ m. Told (emptied (λ k. get_or kept k false) m) result.shape result.numbers) }
{
    let mut out = [0u16; 512];
    let shape = Shape {
        periods: kept_periods(&shape.periods, &kept),
        listed: kept_switches(&shape.listed, &kept),
        starts: kept_tasks(shape, numbers, &kept, &mut out),
        ..shape
    };
    Engine {
        shape,
        numbers: out,
    }
}
