// What the C boundary answers: each call's answer as one number of 64 bits. The lowest byte is the kind: 0 answered, 255 over, else the refusal number.
// Above it stands a refusal's place, or the figures.
#![tactic(auto)]

ghost use Rattle.std.specs.Prelude.{◌≡◌, List, ℕ, ◌<◌, ◌≤◌};
ghost use Rattle.model.specs.Limits.{max_bytes};
ghost use Rattle.format.specs.Judgement.{judgement};
ghost use Rattle.query.specs.Query.{ModeAnswer, StateAnswer, ModuleAnswer, QuickAnswer};
ghost use Rattle.judge.specs.Told.{number_of};
ghost use Rattle.demand.specs.Demanded.{answer_of as demanded};
ghost use Rattle.quick.specs.Quick.{answer_of as tested};
ghost use Rattle.exact.specs.Exact.{answer_of as witnessed, ExactTested};
ghost use Rattle.report.specs.Report.{answer_of as reported, Reported};
ghost use Rattle.checker.specs.Numbers.{refused_number, counts_of, accepted_number, judged_number, figure_number, quick_number, exact_number, exact_of};
ghost use Rattle.checker.specs.Calls.{Numbered, Worked, Placed, Fits};

use exact::Interval;
use judge::{Judged, Refusal};
use quick::Excess;

// The number of a refusal.
fn refused(refusal: Refusal) -> u64
    requires { refusal.place ≤ max_bytes }
    ensures { result ≡ refused_number (number_of refusal.fault) refusal.place }
{
    u8::from(refusal.fault) as u64 + 256 * refusal.place as u64
}

// The number of an accepted sheet.
fn accepted(judged: Judged) -> u64
    requires { (judged.modules < 256) × (judged.modes < 256) × (judged.switches < 256) }
    ensures { result ≡ accepted_number (counts_of judged) judged.horizon }
{
    let upper = judged.switches as u64 + 256 * judged.horizon as u64;
    let middle = judged.modes as u64 + 256 * (judged.tasks as u64 + 65536 * upper);
    256 * (judged.modules as u64 + 256 * middle)
}

// The number of a demand, or of how many bytes are written.
fn figure_number(answer: Result<u32, Refusal>) -> u64
    requires { Placed (demanded answer) }
    ensures { result ≡ figure_number (demanded answer) }
{
    answer.map_or_else(refused, |figure| 256 * figure as u64)
}

// The number of what the quick test says.
fn quick_number(answer: Result<Option<Excess>, Refusal>) -> u64
    requires { Placed (tested answer) }
    ensures { result ≡ quick_number (tested answer) }
{
    answer.map_or_else(refused, |over| {
        over.map_or(0, |excess| {
            let figures = excess.length as u64 + 65536 * excess.demand as u64;
            255 + 256 * figures
        })
    })
}

// The number of what the exact test says, whatever memory its tapes lie in.
fn exact_number(answer: Result<Option<Interval>, Refusal>) -> u64
    requires { Fits answer }
    ensures { (n : ℕ) (memory : List ℕ) → result ≡ exact_number (witnessed n memory answer) }
{
    answer.map_or_else(refused, |over| {
        over.map_or(0, |x| {
            let upper = x.end as u64 + 65536 * x.demand as u64;
            255 + 256 * (x.start as u64 + 65536 * upper)
        })
    })
}

/// The judgement of a sheet: where it is accepted, its modules, modes, tasks, switches and horizon, in 8, 8, 16, 8 and 16 bits.
pub fn tyvasuri_judge(sheet: &[u8]) -> u64
    ensures { result ≡ judged_number (judgement sheet.now) }
{
    judge::judge(sheet).map_or_else(refused, accepted)
}

/// The demand of a mode between two mode times.
pub fn tyvasuri_mode_demand(sheet: &[u8], module: usize, mode: usize, from: usize, to: usize) -> u64
    ensures { Numbered figure_number (ModeAnswer sheet.now «module» mode from to) result }
{
    figure_number(demand::mode_demand(sheet, module, mode, from, to))
}

/// The largest demand in so many ticks over all runs from the mode time of the mode.
pub fn tyvasuri_state_demand(
    sheet: &[u8],
    module: usize,
    mode: usize,
    time: usize,
    length: usize,
    work: &mut [u32],
) -> u64
    ensures { Numbered figure_number (Worked (StateAnswer sheet.now «module» mode time length) work.old work.new) result }
{
    figure_number(states::state_demand(sheet, module, mode, time, length, work))
}

/// The largest demand in so many ticks over all runs of the module, from any state of a mode that is reached from mode 0.
pub fn tyvasuri_module_demand(sheet: &[u8], module: usize, length: usize, work: &mut [u32]) -> u64
    ensures { Numbered figure_number (Worked (ModuleAnswer sheet.now «module» length) work.old work.new) result }
{
    figure_number(states::module_demand(sheet, module, length, work))
}

/// The quick test: where it is over, the smallest such length in 16 bits, and its demand.
pub fn tyvasuri_quick_test(sheet: &[u8], work: &mut [u32]) -> u64
    ensures { Numbered quick_number (Worked (QuickAnswer sheet.now) work.old work.new) result }
{
    quick_number(quick::quick_test(sheet, work))
}

/// The exact test: where it is over, the start and the end of the first such interval in 16 bits each, and its demand; its tapes lie in the tape memory.
pub fn tyvasuri_exact_test(sheet: &[u8], work: &mut [u32], tape: &mut [u8]) -> u64
    ensures { Numbered (exact_of sheet.now tape.new) (ExactTested sheet.now work.old work.new tape.old tape.new) result }
{
    exact_number(exact::exact_test(sheet, work, tape))
}

/// The report: how many bytes of the output memory it takes, from its beginning.
pub fn tyvasuri_report(sheet: &[u8], work: &mut [u32], tape: &mut [u8], out: &mut [u8]) -> u64
    ensures { Numbered (λ x. figure_number (reported x)) (Reported sheet.now work.old work.new tape.old tape.new out.old out.new) result }
{
    // no report is longer than the output memory that it asks for
    figure_number(report::write_report(sheet, work, tape, out).map(|count| count as u32))
}
