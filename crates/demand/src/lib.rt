// What a mode of a sheet demands between two of its mode times, counted from the four numbers of each task.
#![tactic(auto)]

ghost use Rattle.std.specs.Prelude.{◌≡◌, ℕ, length};
ghost use Rattle.model.specs.Sheet.{module_at};
ghost use Rattle.model.specs.Run.{mode_at};
ghost use Rattle.model.specs.Demand.{instances, mode_demand};
ghost use Rattle.place.specs.Held.{sheet_of};
ghost use Rattle.query.specs.Query.{ModeAnswer};
ghost use Rattle.place.specs.Numbers.{task_of};
ghost use Rattle.place.specs.There.{ModeThere, SomeMode};
ghost use Rattle.demand.specs.Demanded.{answer_of};
ghost use Rattle.demand.specs.Counted.{Times, Countable, Counted};

use judge::{Fault, Refusal};
use place::{AcceptedSheet, Task};

// How many instances of the task are released at or after a and due at or before b: of those due by b, those that are not released before a.
fn instances(task: Task, a: u32, b: u32) -> u32
    requires countable { Countable (task_of task) }
    requires times { Times a b }
    ensures { result ≡ instances (task_of task) a b }
{
    let offset = task.offset as u32;
    let period = task.period as u32;
    let due_by_b = (b + (period - (offset + task.due as u32))) / period;
    let before_a = (a + (period - (offset + 1))) / period;
    due_by_b.saturating_sub(before_a)
}

// What the task demands from a to b.
fn task_demand(task: Task, a: u32, b: u32) -> u32
    requires countable { Countable (task_of task) }
    requires times { Times a b }
    ensures { Counted (task_of task) a b result }
{
    instances(task, a, b) * (task.cost as u32)
}

// What the mode at p demands from a to b.
fn tasks_demand(sheet: &AcceptedSheet, p: usize, a: u32, b: u32) -> u32
    requires some_mode { SomeMode (sheet_of sheet.now) p }
    requires times { Times a b }
    ensures { (k j : ℕ) → ModeThere (sheet_of sheet.now) k j p → result ≡ mode_demand (mode_at (module_at (sheet_of sheet.now) k) j) a b }
{
    let n = sheet.tasks_at(p);
    let mut demand = 0;
    for i in 0..n {
        let task = place::task_at(sheet.bytes, p + 4 + 10 * i);
        demand += task_demand(task, a, b);
    }
    demand
}

// The answer for the mode at p.
fn mode_answer(sheet: &AcceptedSheet, p: usize, a: usize, b: usize) -> Result<u32, Refusal>
    requires { SomeMode (sheet_of sheet.now) p }
    ensures { (k j : ℕ) → ModeThere (sheet_of sheet.now) k j p → ModeAnswer sheet.now.bytes.now k j a b (answer_of result) }
{
    if b < a {
        return Err(Fault::OutOfRange.at(0));
    }
    let period = place::field(sheet.bytes, p + 2) as usize;
    if period < b {
        return Err(Fault::OutOfRange.at(0));
    }
    Ok(tasks_demand(sheet, p, a as u32, b as u32))
}

// The answer for an accepted sheet of so many modules.
fn sheet_answer(
    sheet: &AcceptedSheet,
    modules: usize,
    module: usize,
    mode: usize,
    a: usize,
    b: usize,
) -> Result<u32, Refusal>
    requires { modules ≡ length (sheet_of sheet.now).modules }
    ensures { ModeAnswer sheet.now.bytes.now «module» mode a b (answer_of result) }
{
    if modules <= module {
        return Err(Fault::OutOfRange.at(0));
    }
    let p = sheet.module_place(module);
    if sheet.modes_at(p) <= mode {
        return Err(Fault::OutOfRange.at(0));
    }
    mode_answer(sheet, sheet.mode_from(p, mode), a, b)
}

/// What the mode demands from the mode time a to the mode time b. A sheet's fault goes before an argument out of range.
pub fn mode_demand(
    sheet: &[u8],
    module: usize,
    mode: usize,
    a: usize,
    b: usize,
) -> Result<u32, Refusal>
    ensures { ModeAnswer sheet.now «module» mode a b (answer_of result) }
{
    let judged = judge::judge(sheet)?;
    let accepted = AcceptedSheet { bytes: sheet };
    sheet_answer(&accepted, judged.modules as usize, module, mode, a, b)
}
