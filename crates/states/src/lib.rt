// The largest demand of a module in so many ticks: from one of its states, and from any of a reached mode.
#![tactic(auto)]

ghost use Rattle.std.specs.Prelude.{◌≡◌, ◌<◌, leb, length as count};
ghost use Rattle.model.specs.Sheet.{module_at};
ghost use Rattle.model.specs.Limits.{work_numbers};
ghost use Rattle.model.specs.Run.{mode_at};
ghost use Rattle.place.specs.Held.{sheet_of};
ghost use Rattle.query.specs.Query.{state_terms, module_terms};
ghost use Rattle.states.specs.States.{StateDemanded, ModuleDemanded};
ghost use Rattle.states.specs.Asking.{Asks, asked, is_state};

use judge::{Fault, Refusal, Sheet};
use memory::LAYER_NUMBERS;
use place::AcceptedSheet;

// The arguments of a call go before its memory.
fn tested(in_range: bool, work: usize) -> Result<(), Refusal>
    ensures { result ≡ asked in_range (leb work_numbers work) }
{
    if !in_range {
        return Err(Fault::OutOfRange.at(0));
    }
    if work < Sheet::WORK_NUMBERS {
        return Err(Fault::MemoryTooSmall.at(0));
    }
    Ok(())
}

// The period of the mode j of the module k.
fn period_of(sheet: &AcceptedSheet, k: usize, j: usize) -> u16
    requires k_bound { k < count (sheet_of sheet.now).modules }
    requires j_bound { j < count (module_at (sheet_of sheet.now) k).modes }
    ensures { result ≡ (mode_at (module_at (sheet_of sheet.now) k) j).period }
{
    let p = sheet.mode_place(k, j);
    place::field(sheet.bytes, p + 2)
}

// Whether the accepted sheet has the module, the module the mode, and the mode the mode time.
fn is_state(sheet: &AcceptedSheet, modules: usize, module: usize, mode: usize, time: usize) -> bool
    requires { modules ≡ count (sheet_of sheet.now).modules }
    ensures { result ≡ is_state (sheet_of sheet.now) «module» mode time }
{
    module < modules
        && mode < sheet.modes_at(sheet.module_place(module))
        && time < period_of(sheet, module, mode) as usize
}

// Whether the state demand is refused, where so many numbers are lent.
fn state_asked(
    sheet: &[u8],
    module: usize,
    mode: usize,
    time: usize,
    length: usize,
    work: usize,
) -> Result<(), Refusal>
    ensures { Asks (state_terms «module» mode time length work) sheet.now result }
{
    let judged = judge::judge(sheet)?;
    let in_range = is_state(
        &AcceptedSheet { bytes: sheet },
        judged.modules as usize,
        module,
        mode,
        time,
    ) && length <= judged.horizon as usize;
    tested(in_range, work)
}

/// The largest demand in so many ticks over all runs from the mode time of the mode.
/// A sheet's fault goes before an argument out of range (9), and that before too little memory (10).
pub fn state_demand(
    sheet: &[u8],
    module: usize,
    mode: usize,
    time: usize,
    length: usize,
    work: &mut [u32],
) -> Result<u32, Refusal>
    ensures { StateDemanded sheet.now «module» mode time length work.old work.new result }
{
    state_asked(sheet, module, mode, time, length, work.len())?;
    let sheet = AcceptedSheet { bytes: sheet };
    let row = table::module_row(&sheet, module);
    let engine = modules::engine_of(&sheet, module, row);
    let layer = &mut work[..LAYER_NUMBERS];
    Ok(sums::demand_at(layer, length, engine.shape, &engine.numbers, mode, time))
}

// Whether the module demand is refused, where so many numbers are lent.
fn module_asked(sheet: &[u8], module: usize, length: usize, work: usize) -> Result<(), Refusal>
    ensures { Asks (module_terms «module» length work) sheet.now result }
{
    let judged = judge::judge(sheet)?;
    let in_range = module < judged.modules as usize && length <= judged.horizon as usize;
    tested(in_range, work)
}

/// The largest demand in so many ticks over all runs of the module, from any state of a mode that is reached from mode 0.
/// A sheet's fault goes before an argument out of range (9), and that before too little memory (10).
pub fn module_demand(
    sheet: &[u8],
    module: usize,
    length: usize,
    work: &mut [u32],
) -> Result<u32, Refusal>
    ensures { ModuleDemanded sheet.now «module» length work.old work.new result }
{
    module_asked(sheet, module, length, work.len())?;
    let sheet = AcceptedSheet { bytes: sheet };
    let row = table::module_row(&sheet, module);
    let engine = modules::reached_engine_of(&sheet, module, row);
    let layer = &mut work[..LAYER_NUMBERS];
    Ok(sums::largest_demand(layer, length, engine.shape, &engine.numbers))
}
