// The report on a sheet: the lines that the program prints, in the caller's memory.
#![tactic(auto)]

ghost use Rattle.std.specs.Prelude.{Ok, ◌≡◌, ◌&&◌, ◌*◌, ◌≤◌, leb, length as count};
ghost use Rattle.model.specs.Limits.{work_numbers};
ghost use Rattle.model.specs.Verdict.{quick as quick_verdict};
ghost use Rattle.format.specs.Judgement.{sheet_in};
ghost use Rattle.query.specs.Answer.{Meets};
ghost use Rattle.query.specs.Query.{quick_terms, exact_terms};
ghost use Rattle.query.specs.Memory.{Stays, tapes_in};
ghost use Rattle.lines.specs.Lines.{quick_line, run_lines};
ghost use Rattle.writing.specs.Writing.{Put};
ghost use Rattle.sums.specs.Sums.{quick_of};
ghost use Rattle.quick.specs.Asking.{Sound};
ghost use Rattle.exact.specs.Exact.{answer_of as exact_answer};
ghost use Rattle.report.specs.Report.{out_bytes, report_terms, Reported};
ghost use Rattle.report.specs.Parts.{head_of, said, witnessed_lines, TapesThere, Printable, ExactWritten};

use exact::Interval;
use judge::{Judged, Refusal};
use quick::Excess;

// The bytes that hold any report.
pub const OUT_BYTES: usize = 16384;

// Whether the memory of each kind is enough.
fn enough(judged: Judged, work: usize, tape: usize, out: usize) -> bool
    requires { (judged.modules ≤ 8) × (judged.horizon ≤ 2000) }
    ensures { result ≡ leb work_numbers work && leb (judged.modules * judged.horizon) tape && leb out_bytes out }
{
    let modules = judged.modules as usize;
    let horizon = judged.horizon as usize;
    exact::is_enough(modules, horizon, work, tape) && OUT_BYTES <= out
}

// The line of the sheet. Here and below memory and place are two parameters, as `writing` promises its lines.
fn head_line(out: &mut [u8], judged: Judged) -> usize
    requires { out_bytes ≤ count out.old }
    ensures { (Put 0 result (head_of judged) out.old out.new) × (result ≤ 73) }
{
    writing::sheet_line(
        out,
        0,
        judged.modules as u32,
        judged.modes as u32,
        judged.tasks as u32,
        judged.switches as u32,
        judged.horizon as u32,
    )
}

// The line of the quick verdict.
fn quick_line(out: &mut [u8], at: usize, over: Option<Excess>) -> usize
    requires { (at ≤ 73) × (out_bytes ≤ count out.old) }
    ensures { (Put at result (quick_line (quick_of over)) out.old out.new) × (result ≤ 108) }
{
    match over {
        None => writing::quick_clear_line(out, at),
        Some(x) => writing::quick_over_line(out, at, x.length as u32, x.demand),
    }
}

// The lines of the modules' runs, whose tapes lie one behind another.
fn run_lines(out: &mut [u8], at: usize, tape: &[u8], modules: usize, end: usize) -> usize
    requires modules_bound { (modules ≤ 8) × (TapesThere modules end tape.now) }
    requires at_bound { (at ≤ 149) × (out_bytes ≤ count out.old) }
    ensures { Put at result (run_lines 0 (tapes_in modules end tape.now)) out.old out.new }
{
    let mut next = at;
    for k in 0..modules {
        let from = k * end;
        let to = from + end;
        next = writing::run_line(out, next, k as u32, &tape[from..to]);
    }
    next
}

// The line of the exact verdict, and the runs where it is over.
fn exact_lines(
    out: &mut [u8],
    at: usize,
    over: Option<Interval>,
    tape: &[u8],
    modules: usize,
) -> usize
    requires at_bound { (at ≤ 108) × (out_bytes ≤ count out.old) }
    requires modules_bound { (modules ≤ 8) × (Printable modules tape.now over) }
    ensures { Put at result (said witnessed_lines (exact_answer modules tape.now (Ok over))) out.old out.new }
{
    match over {
        None => writing::exact_clear_line(out, at),
        Some(x) => {
            let next = writing::exact_over_line(out, at, x.start as u32, x.end as u32, x.demand);
            run_lines(out, next, tape, modules, x.end as usize)
        }
    }
}

// The quick test and its line.
fn quick_part(sheet: &[u8], work: &mut [u32], out: &mut [u8], at: usize) -> usize
    requires { (Meets (quick_terms (count work.old)) sheet.now) × (at ≤ 73) × (out_bytes ≤ count out.old) }
    ensures { (Put at result (quick_line (quick_verdict (sheet_in sheet.now))) out.old out.new) × (result ≤ 108) × (Stays work_numbers work.old work.new) }
{
    let over = quick::quick_test(sheet, work).unwrap();
    quick_line(out, at, over)
}

// The exact test and its lines.
fn exact_part(
    sheet: &[u8],
    work: &mut [u32],
    tape: &mut [u8],
    out: &mut [u8],
    at: usize,
    modules: usize,
) -> usize
    requires meets { Meets (exact_terms (count work.old) (count tape.old)) sheet.now }
    requires modules_value { modules ≡ count (sheet_in sheet.now).modules }
    requires at_bound { (at ≤ 108) × (out_bytes ≤ count out.old) }
    ensures { ExactWritten sheet.now at result work.old work.new tape.old tape.new out.old out.new }
{
    let over = exact::exact_test(sheet, work, tape).unwrap();
    exact_lines(out, at, over, tape, modules)
}

// The report, where nothing refuses it: how many bytes are written.
fn report_given(
    sheet: &[u8],
    work: &mut [u32],
    tape: &mut [u8],
    out: &mut [u8],
    judged: Judged,
) -> usize
    requires { Sound (report_terms (count work.old) (count tape.old) (count out.old)) sheet.now judged }
    ensures { Reported sheet.now work.old work.new tape.old tape.new out.old out.new (Ok result) }
{
    let head = head_line(out, judged);
    let next = quick_part(sheet, work, out, head);
    exact_part(sheet, work, tape, out, next, judged.modules as usize)
}

/// The report on a sheet: its lines in the output memory, and their count. A sheet's fault goes before too little memory (10), of work, tape or output.
pub fn write_report(
    sheet: &[u8],
    work: &mut [u32],
    tape: &mut [u8],
    out: &mut [u8],
) -> Result<usize, Refusal>
    ensures { Reported sheet.now work.old work.new tape.old tape.new out.old out.new result }
{
    let judged = quick::asked(sheet, |judged| {
        enough(judged, work.len(), tape.len(), out.len())
    })?;
    Ok(report_given(sheet, work, tape, out, judged))
}
