// The quick test: whether the sum of the modules' demands exceeds a length, and which length first.
#![tactic(auto)]

ghost use Rattle.std.specs.Prelude.{Ok, ◌≡◌, ◌<◌, ◌≤◌, length as count};
ghost use Rattle.model.specs.Limits.{work_numbers};
ghost use Rattle.place.specs.Held.{sheet_of};
ghost use Rattle.query.specs.Query.{quick_terms};
ghost use Rattle.sums.specs.Sums.{Fits};
ghost use Rattle.quick.specs.Quick.{QuickTested};
ghost use Rattle.quick.specs.Sums.{ModuleAdded, SumsOf, Found};
ghost use Rattle.judge.specs.declared.Judged.{Judged};
ghost use Rattle.quick.specs.Asking.{AskedBy, Sound};

use judge::{Fault, Judged, Refusal, Sheet};
use place::AcceptedSheet;
use table::Table;

/// A length that its sum exceeds, and that sum.
pub use sums::Excess;

// How many lengths are looked at first.
const FEW: usize = 32;

// The demands of the module k are added to the sums of the lengths from 1 to n.
fn add_module(table: &Table, work: &mut [u32], k: usize, n: usize)
    requires k_bound { k < count (sheet_of table.now.sheet).modules }
    requires n_bound { n ≤ (sheet_of table.now.sheet).horizon }
    requires work_numbers_bound { (work_numbers ≤ count work.old) × (Fits n work.old) }
    ensures { ModuleAdded (sheet_of table.now.sheet) n k work.old work.new }
{
    let engine = modules::reached_engine_of(&table.sheet, k, table.row(k));
    sums::add_demands(work, n, engine.shape, &engine.numbers);
}

// At each length from 1 to n the sum of the modules' demands.
fn quick_sums(table: &Table, work: &mut [u32], n: usize)
    requires n_bound { n ≤ (sheet_of table.now.sheet).horizon }
    requires work_numbers_bound { work_numbers ≤ count work.old }
    ensures { SumsOf (sheet_of table.now.sheet) n work.old work.new }
{
    sums::clear_sums(work, n);
    for k in 0..table.modules {
        add_module(table, work, k, n);
    }
}

// The first length from 1 to n whose sum exceeds it.
fn first_over(table: &Table, work: &mut [u32], n: usize) -> Option<Excess>
    requires n_bound { n ≤ (sheet_of table.now.sheet).horizon }
    requires work_numbers_bound { work_numbers ≤ count work.old }
    ensures { Found (sheet_of table.now.sheet) n result work.old work.new }
{
    quick_sums(table, work, n);
    sums::first_over(work, n)
}

// The first length up to the horizon whose sum exceeds it: few lengths first, so that an early over is found early.
fn first_of_all(table: &Table, work: &mut [u32]) -> Option<Excess>
    requires { work_numbers ≤ count work.old }
    ensures { Found (sheet_of table.now.sheet) (sheet_of table.now.sheet).horizon result work.old work.new }
{
    let horizon = table.sheet.horizon();
    // no range counts these lengths: each is eight times the one before
    let mut n = FEW;
    while n < horizon {
        if let Some(excess) = first_over(table, work, n) {
            return Some(excess);
        }
        n *= 8;
    }
    first_over(table, work, horizon)
}

/// The sheet's counts and its horizon, where nothing refuses a call; `enough` says of them whether the lent memory is enough.
/// A sheet's fault goes before too little memory (10).
pub fn asked<F: Fn(Judged) -> bool>(sheet: &[u8], enough: F) -> Result<Judged, Refusal>
    requires { (told : Judged) → (told.modules ≤ 8) × (told.horizon ≤ 2000) → F.pre enough told }
    ensures { AskedBy (F.post enough) sheet.now result }
{
    let judged = judge::judge(sheet)?;
    if !enough(judged) {
        return Err(Fault::MemoryTooSmall.at(0));
    }
    Ok(judged)
}

// The quick test, where nothing refuses it.
fn quick_given(sheet: &[u8], work: &mut [u32], judged: Judged) -> Option<Excess>
    requires { Sound (quick_terms (count work.old)) sheet.now judged }
    ensures { QuickTested sheet.now work.old work.new (Ok result) }
{
    let accepted = AcceptedSheet { bytes: sheet };
    let table = Table::new(accepted, usize::from(judged.modules));
    first_of_all(&table, work)
}

/// The quick test: the smallest length whose sum of the modules' demands exceeds it, or none.
/// A sheet's fault goes before too little memory (10).
pub fn quick_test(sheet: &[u8], work: &mut [u32]) -> Result<Option<Excess>, Refusal>
    ensures { QuickTested sheet.now work.old work.new result }
{
    let judged = asked(sheet, |_| Sheet::WORK_NUMBERS <= work.len())?;
    Ok(quick_given(sheet, work, judged))
}
