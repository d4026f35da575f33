// The exact test: the first interval whose sum exceeds its length over runs from tick 0, and the tapes that show it.
#![tactic(auto)]

ghost use Rattle.std.specs.Prelude.{Ok, ◌≡◌, ◌&&◌, ◌*◌, ◌≤◌, leb, length as count};
ghost use Rattle.model.specs.Limits.{work_numbers};
ghost use Rattle.query.specs.Query.{exact_terms};
ghost use Rattle.quick.specs.Asking.{Sound};
ghost use Rattle.exact.specs.Exact.{ExactTested};

use judge::{Judged, Refusal, Sheet};
use place::AcceptedSheet;
use table::Table;

/// An interval that its sum exceeds, and that sum.
pub use cells::Interval;

/// Whether the memory of each kind is enough.
pub fn is_enough(modules: usize, horizon: usize, work: usize, tape: usize) -> bool
    requires { (modules ≤ 8) × (horizon ≤ 2000) }
    ensures { result ≡ leb work_numbers work && leb (modules * horizon) tape }
{
    Sheet::WORK_NUMBERS <= work && modules * horizon <= tape
}

// The exact test, where nothing refuses it.
fn exact_given(sheet: &[u8], work: &mut [u32], tape: &mut [u8], judged: Judged) -> Option<Interval>
    requires { Sound (exact_terms (count work.old) (count tape.old)) sheet.now judged }
    ensures { ExactTested sheet.now work.old work.new tape.old tape.new (Ok result) }
{
    let accepted = AcceptedSheet { bytes: sheet };
    let table = Table::new(accepted, usize::from(judged.modules));
    let over = search::search(&table, work)?;
    witness::write_tapes(
        &table,
        usize::from(over.start),
        usize::from(over.end),
        work,
        tape,
    );
    Some(over)
}

/// The exact test: the first interval whose sum exceeds its length over runs from tick 0, with the tapes that show it, or none.
/// A sheet's fault goes before too little memory (10).
pub fn exact_test(
    sheet: &[u8],
    work: &mut [u32],
    tape: &mut [u8],
) -> Result<Option<Interval>, Refusal>
    ensures { ExactTested sheet.now work.old work.new tape.old tape.new result }
{
    let judged = quick::asked(sheet, |judged| {
        is_enough(
            usize::from(judged.modules),
            usize::from(judged.horizon),
            work.len(),
            tape.len(),
        )
    })?;
    Ok(exact_given(sheet, work, tape, judged))
}
