// The witness of the exact test: the tapes of all modules, one after another in the tape memory.
#![tactic(auto)]

ghost use Rattle.std.specs.Prelude.{◌≡◌, ◌+◌, ◌*◌, ◌<◌, ◌≤◌, length};
ghost use Rattle.model.specs.Limits.{max_horizon, work_numbers};
ghost use Rattle.model.specs.Sheet.{module_at};
ghost use Rattle.place.specs.Held.{sheet_of};
ghost use Rattle.query.specs.Memory.{Stays};
ghost use Rattle.witness.specs.Witness.{WitnessWritten, WrittenAt};

use table::Table;

// The tape of the module k: the tape memory from byte k × b onward is lent to its writer.
fn write_module_tape(table: &Table, k: usize, a: usize, b: usize, work: &mut [u32], tape: &mut [u8])
    requires k_in_bounds { k < length (sheet_of table.now.sheet).modules }
    requires work_numbers_in_bounds { (work_numbers ≤ length work.old) × (b ≤ max_horizon) × (k * b + b ≤ length tape.old) }
    ensures { (WrittenAt (k * b) (module_at (sheet_of table.now.sheet) k) a b tape.old tape.new) × (Stays work_numbers work.old work.new) }
{
    let engine = modules::engine_of(&table.sheet, k, table.row(k));
    let from = k * b;
    tapes::write_tape(&mut tape[from..], a, b, work, engine.shape, &engine.numbers);
}

/// The tapes of all modules in the interval from a to b, that of the module k at byte k × b. The other bytes of the tape memory stay, and so do
/// the numbers of the working memory from the 16,384th on.
pub fn write_tapes(table: &Table, a: usize, b: usize, work: &mut [u32], tape: &mut [u8])
    requires { (work_numbers ≤ length work.old) × (b ≤ max_horizon) × (table.now.modules * b ≤ length tape.old) }
    ensures { (WitnessWritten (sheet_of table.now.sheet) a b tape.old tape.new) × (Stays work_numbers work.old work.new) }
{
    for k in 0..table.modules {
        write_module_tape(table, k, a, b, work, tape);
    }
}
