// One module of an accepted sheet, as the engine reads it.
#![tactic(auto)]

ghost use Rattle.std.specs.Prelude.{◌<◌, length};
ghost use Rattle.model.specs.Sheet.{module_at};
ghost use Rattle.model.specs.Emptied.{reached_part};
ghost use Rattle.place.specs.Held.{sheet_of};
ghost use Rattle.layers.specs.Layer.{Told};
ghost use Rattle.table.specs.Rows.{RowOf};

use layers::{Engine, Shape};
use place::AcceptedSheet;
use table::{ModuleRow, Tasks};

/// The module k, from its row and the sheet's tasks.
pub fn engine_of(sheet: &AcceptedSheet, k: usize, row: ModuleRow) -> Engine
    requires k_in_bounds { k < length (sheet_of sheet.now).modules }
    requires row_of { RowOf (module_at (sheet_of sheet.now) k) row }
    ensures { Told (module_at (sheet_of sheet.now) k) result.shape result.numbers }
{
    let modes = sheet.modes_at(sheet.module_place(k));
    let ModuleRow {
        periods,
        every,
        listed,
    } = row;
    let Tasks { starts, numbers } = table::module_tasks(sheet, k);
    let shape = Shape {
        modes,
        periods,
        every,
        listed,
        starts,
    };
    Engine { shape, numbers }
}

/// The module k with each mode that is not reached made idle.
pub fn reached_engine_of(sheet: &AcceptedSheet, k: usize, row: ModuleRow) -> Engine
    requires k_in_bounds { k < length (sheet_of sheet.now).modules }
    requires row_of { RowOf (module_at (sheet_of sheet.now) k) row }
    ensures { Told (reached_part (module_at (sheet_of sheet.now) k)) result.shape result.numbers }
{
    let engine = engine_of(sheet, k, row);
    let kept = reach::reached_modes(engine.shape);
    emptying::empty_modes(engine.shape, &engine.numbers, kept)
}
