// The C boundary: what C calls, over `checker`, each with the same clauses.
#![tactic(auto)]

ghost use Rattle.std.specs.Prelude.{◌≡◌};
ghost use Rattle.format.specs.Judgement.{judgement};
ghost use Rattle.query.specs.Query.{ModeAnswer, StateAnswer, ModuleAnswer, QuickAnswer};
ghost use Rattle.exact.specs.Exact.{ExactTested};
ghost use Rattle.report.specs.Report.{answer_of as reported, Reported};
ghost use Rattle.checker.specs.Numbers.{judged_number, figure_number, quick_number, exact_of};
ghost use Rattle.checker.specs.Calls.{Numbered, Worked};

/// The judgement of a sheet: where it is accepted, its modules, modes, tasks, switches and horizon, in 8, 8, 16, 8 and 16 bits.
#[unsafe(no_mangle)]
pub extern "C" fn tyvasuri_judge(sheet: &[u8]) -> u64
    ensures { result ≡ judged_number (judgement sheet.now) }
{
    checker::tyvasuri_judge(sheet)
}

/// The demand of a mode between two mode times.
#[unsafe(no_mangle)]
pub extern "C" fn tyvasuri_mode_demand(
    sheet: &[u8],
    module: usize,
    mode: usize,
    from: usize,
    to: usize,
) -> u64
    ensures { Numbered figure_number (ModeAnswer sheet.now «module» mode from to) result }
{
    checker::tyvasuri_mode_demand(sheet, module, mode, from, to)
}

/// The largest demand in so many ticks over all runs from the mode time of the mode.
#[unsafe(no_mangle)]
pub extern "C" fn tyvasuri_state_demand(
    sheet: &[u8],
    module: usize,
    mode: usize,
    time: usize,
    length: usize,
    work: &mut [u32],
) -> u64
    ensures { Numbered figure_number (Worked (StateAnswer sheet.now «module» mode time length) work.old work.new) result }
{
    checker::tyvasuri_state_demand(sheet, module, mode, time, length, work)
}

/// The largest demand in so many ticks over all runs of the module, from any state of a mode that is reached from mode 0.
#[unsafe(no_mangle)]
pub extern "C" fn tyvasuri_module_demand(
    sheet: &[u8],
    module: usize,
    length: usize,
    work: &mut [u32],
) -> u64
    ensures { Numbered figure_number (Worked (ModuleAnswer sheet.now «module» length) work.old work.new) result }
{
    checker::tyvasuri_module_demand(sheet, module, length, work)
}

/// The quick test: where it is over, the smallest such length in 16 bits, and its demand.
#[unsafe(no_mangle)]
pub extern "C" fn tyvasuri_quick_test(sheet: &[u8], work: &mut [u32]) -> u64
    ensures { Numbered quick_number (Worked (QuickAnswer sheet.now) work.old work.new) result }
{
    checker::tyvasuri_quick_test(sheet, work)
}

/// The exact test: where it is over, the start and the end of the first such interval in 16 bits each, and its demand; its tapes lie in the tape memory.
#[unsafe(no_mangle)]
pub extern "C" fn tyvasuri_exact_test(sheet: &[u8], work: &mut [u32], tape: &mut [u8]) -> u64
    ensures { Numbered (exact_of sheet.now tape.new) (ExactTested sheet.now work.old work.new tape.old tape.new) result }
{
    checker::tyvasuri_exact_test(sheet, work, tape)
}

/// The report: how many bytes of the output memory it takes, from its beginning.
#[unsafe(no_mangle)]
pub extern "C" fn tyvasuri_report(
    sheet: &[u8],
    work: &mut [u32],
    tape: &mut [u8],
    out: &mut [u8],
) -> u64
    ensures { Numbered (λ x. figure_number (reported x)) (Reported sheet.now work.old work.new tape.old tape.new out.old out.new) result }
{
    checker::tyvasuri_report(sheet, work, tape, out)
}
