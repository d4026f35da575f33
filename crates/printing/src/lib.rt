// What the program prints for the bytes of a sheet: its report, or the line that says why it is refused.
#![tactic(auto)]

ghost use Rattle.judge.specs.Told.{number_of};
ghost use Rattle.printing.specs.Printed.{Printed, Counted};
ghost use Rattle.printing.specs.Refusing.{Refusing};

use judge::{Fault, Refusal, Sheet};
use report::OUT_BYTES;

/// The tape memory that is enough for every sheet.
pub const TAPE_BYTES: usize = Sheet::MAX_MODULES as usize * Sheet::MAX_HORIZON as usize;

// The line of a refused report: too little memory has none, and a sheet's fault has one where there is room for any lines.
fn put_refusal(out: &mut [u8], refusal: Refusal) -> Result<usize, Refusal>
    ensures { Refusing (number_of refusal.fault) refusal.place out.old out.new result }
{
    if refusal.fault == Fault::MemoryTooSmall || out.len() < OUT_BYTES {
        return Err(refusal);
    }
    let number = u8::from(refusal.fault);
    Ok(writing::refused_line(out, 0, number, refusal.place))
}

/// The lines for these bytes, from the beginning of the output memory on, and how many bytes they are: the report, or the line of a sheet's fault.
/// Too little memory is refused with 10; where there is no room for the line of a sheet's fault, that fault is the refusal.
pub fn put_lines(
    sheet: &[u8],
    work: &mut [u32],
    tape: &mut [u8],
    out: &mut [u8],
) -> Result<usize, Refusal>
    ensures printed { Printed sheet.now work.old work.new tape.old tape.new out.old out.new result }
    ensures counted { Counted out.new result }
{
    match report::write_report(sheet, work, tape, out) {
        Ok(count) => Ok(count),
        Err(refusal) => put_refusal(out, refusal),
    }
}
