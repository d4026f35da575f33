// What the modules of an accepted sheet say, by value: periods, switches and tasks.
#![tactic(auto)]

ghost use Rattle.std.specs.Prelude.{◌≡◌, ℕ, ◌+◌, ◌<◌, ◌≤◌, length};
ghost use Rattle.model.specs.Sheet.{module_at, named};
ghost use Rattle.model.specs.Run.{mode_at};
ghost use Rattle.place.specs.Held.{sheet_of};
ghost use Rattle.place.specs.There.{ModuleThere, ModesThere, ModeThere, SomeModule, SomeModes, SomeMode};
ghost use Rattle.table.specs.Rows.{Row, RowOf, RowsOf, period_at, period_to, switch_period_at, switch_listed_at};
ghost use Rattle.table.specs.Found.{FirstTo, ModeIf};
ghost use Rattle.model.specs.Flat.{task_numbers};
ghost use Rattle.table.specs.Numbers.{start_of, number_at, TasksOf, Written};

use place::AcceptedSheet;
use std::array;

/// A module's tasks: those of the mode j are the numbers from starts[j] to starts[j + 1],
/// four for each task (offset, cost, LET, period) and no struct, since the engine's definitions read these numbers; past the last task stands 0.
#[derive(Clone, Copy)]
pub struct Tasks {
    pub starts: [u16; 9],
    pub numbers: [u16; 512],
}

/// The row of a module: the periods of its modes, 0 past them; and at 8 * j + t of the switch of the mode j to the mode t its period and whether there is one,
/// 0 and false where there is none. Two rows and no row of options: `RowOf` and the engine's definitions read one each.
#[derive(Clone, Copy)]
pub struct ModuleRow {
    pub periods: [u16; 8],
    pub every: [u16; 64],
    pub listed: [bool; 64],
}

/// An accepted sheet with what the tests look up in it: how many modules it has, and the row of each.
#[derive(Clone, Copy)]
pub struct Table<'a> {
    pub sheet: AcceptedSheet<'a>,
    pub modules: usize,
    pub rows: [ModuleRow; 8],
    pub ghost modules_are: { modules ≡ length (sheet_of sheet).modules },
    pub ghost rows_are: { RowsOf (sheet_of sheet) rows },
}

// How many numbers the tasks of the first j modes of the module at p make.
fn numbers_before(sheet: &AcceptedSheet, p: usize, j: usize) -> usize
    requires { SomeModes (sheet_of sheet.now) p j }
    ensures { (k : ℕ) → ModesThere (sheet_of sheet.now) k p j → result ≡ start_of (module_at (sheet_of sheet.now) k) j }
{
    let mut q = sheet.mode_from(p, 0);
    let mut n = 0;
    for _ in 0..j {
        n += 4 * sheet.tasks_at(q);
        q = sheet.after_mode(q);
    }
    n
}

// Where the numbers of the mode j of the module at p begin; past the modes, where all end.
fn start_at(sheet: &AcceptedSheet, p: usize, j: usize) -> u16
    requires { SomeModule (sheet_of sheet.now) p }
    ensures { (k : ℕ) → ModuleThere (sheet_of sheet.now) k p → result ≡ start_of (module_at (sheet_of sheet.now) k) j }
{
    numbers_before(sheet, p, j.min(sheet.modes_at(p))) as u16
}

// The numbers of the tasks of the mode at p go from the place at on.
fn put_tasks(numbers: &mut [u16; 512], at: usize, sheet: &AcceptedSheet, p: usize)
    requires some_mode { SomeMode (sheet_of sheet.now) p }
    requires at_bound { at + 64 ≤ 512 }
    ensures { (k j : ℕ) → ModeThere (sheet_of sheet.now) k j p → Written at (task_numbers (mode_at (module_at (sheet_of sheet.now) k) j).tasks) numbers.old numbers.new }
{
    for i in 0..4 * sheet.tasks_at(p) {
        numbers[at + i] = place::field(sheet.bytes, p + 6 + 10 * (i / 4) + 2 * (i % 4));
    }
}

// The numbers of the module at p, those of each mode from its start on.
fn task_numbers(sheet: &AcceptedSheet, p: usize, starts: &[u16; 9]) -> [u16; 512]
    requires some_module { SomeModule (sheet_of sheet.now) p }
    requires starts { (k : ℕ) → ModuleThere (sheet_of sheet.now) k p → Row 0 9 (start_of (module_at (sheet_of sheet.now) k)) starts.now }
    ensures { (k : ℕ) → ModuleThere (sheet_of sheet.now) k p → Row 0 512 (number_at (module_at (sheet_of sheet.now) k)) result }
{
    let mut numbers = [0; 512];
    let mut q = sheet.mode_from(p, 0);
    for start in &starts[..sheet.modes_at(p)] {
        put_tasks(&mut numbers, *start as usize, sheet, q);
        q = sheet.after_mode(q);
    }
    numbers
}

/// The tasks of the module k.
pub fn module_tasks(sheet: &AcceptedSheet, k: usize) -> Tasks
    requires { k < length (sheet_of sheet.now).modules }
    ensures { TasksOf (module_at (sheet_of sheet.now) k) result }
{
    let p = sheet.module_place(k);
    let starts = array::from_fn(|j| start_at(sheet, p, j));
    let numbers = task_numbers(sheet, p, &starts);
    Tasks { starts, numbers }
}

// The number of the first switch of the mode at p that names the mode t.
fn switch_to(sheet: &AcceptedSheet, p: usize, t: usize) -> Option<usize>
    requires { SomeMode (sheet_of sheet.now) p }
    ensures { (k j : ℕ) → ModeThere (sheet_of sheet.now) k j p → FirstTo t (mode_at (module_at (sheet_of sheet.now) k) j).switches result }
{
    let q = sheet.switches_from(p);
    (0..sheet.switches_at(p)).find(|i| place::field(sheet.bytes, q + 6 * *i + 2) as usize == t)
}

// The period of the switch of the mode at p to the mode t, or 0.
fn period_to(sheet: &AcceptedSheet, p: usize, t: usize) -> u16
    requires { SomeMode (sheet_of sheet.now) p }
    ensures { (k j : ℕ) → ModeThere (sheet_of sheet.now) k j p → result ≡ period_to t (mode_at (module_at (sheet_of sheet.now) k) j).switches }
{
    match switch_to(sheet, p, t) {
        Some(i) => place::field(sheet.bytes, sheet.switches_from(p) + 6 * i + 4),
        None => 0,
    }
}

// Whether the mode at p lists the mode t.
fn listed_to(sheet: &AcceptedSheet, p: usize, t: usize) -> bool
    requires { SomeMode (sheet_of sheet.now) p }
    ensures { (k j : ℕ) → ModeThere (sheet_of sheet.now) k j p → result ≡ named t (mode_at (module_at (sheet_of sheet.now) k) j).switches }
{
    switch_to(sheet, p, t).is_some()
}

// The place of the mode j of the module at p, if it has so many.
fn mode_if(sheet: &AcceptedSheet, p: usize, j: usize) -> Option<usize>
    requires { SomeModule (sheet_of sheet.now) p }
    ensures { (k : ℕ) → ModuleThere (sheet_of sheet.now) k p → ModeIf (sheet_of sheet.now) k j result }
{
    if j < sheet.modes_at(p) {
        Some(sheet.mode_from(p, j))
    } else {
        None
    }
}

// The period of the mode j of the module at p, or 0.
fn period_at(sheet: &AcceptedSheet, p: usize, j: usize) -> u16
    requires { SomeModule (sheet_of sheet.now) p }
    ensures { (k : ℕ) → ModuleThere (sheet_of sheet.now) k p → result ≡ period_at (module_at (sheet_of sheet.now) k) j }
{
    match mode_if(sheet, p, j) {
        Some(q) => place::field(sheet.bytes, q + 2),
        None => 0,
    }
}

// The period of the switch of the mode j of the module at p to its mode t, or 0.
fn switch_period_at(sheet: &AcceptedSheet, p: usize, j: usize, t: usize) -> u16
    requires { SomeModule (sheet_of sheet.now) p }
    ensures { (k : ℕ) → ModuleThere (sheet_of sheet.now) k p → result ≡ period_to t (mode_at (module_at (sheet_of sheet.now) k) j).switches }
{
    match mode_if(sheet, p, j) {
        Some(q) => period_to(sheet, q, t),
        None => 0,
    }
}

// Whether the mode j of the module at p lists its mode t.
fn switch_listed_at(sheet: &AcceptedSheet, p: usize, j: usize, t: usize) -> bool
    requires { SomeModule (sheet_of sheet.now) p }
    ensures { (k : ℕ) → ModuleThere (sheet_of sheet.now) k p → result ≡ named t (mode_at (module_at (sheet_of sheet.now) k) j).switches }
{
    match mode_if(sheet, p, j) {
        Some(q) => listed_to(sheet, q, t),
        None => false,
    }
}

// The whole row of the module at p.
fn row_at(sheet: &AcceptedSheet, p: usize) -> ModuleRow
    requires { SomeModule (sheet_of sheet.now) p }
    ensures { (k : ℕ) → ModuleThere (sheet_of sheet.now) k p → RowOf (module_at (sheet_of sheet.now) k) result }
{
    ModuleRow {
        periods: array::from_fn(|j| period_at(sheet, p, j)),
        every: array::from_fn(|i| switch_period_at(sheet, p, i / 8, i % 8)),
        listed: array::from_fn(|i| switch_listed_at(sheet, p, i / 8, i % 8)),
    }
}

/// The row of the module k.
pub fn module_row(sheet: &AcceptedSheet, k: usize) -> ModuleRow
    requires { k < length (sheet_of sheet.now).modules }
    ensures { RowOf (module_at (sheet_of sheet.now) k) result }
{
    row_at(sheet, sheet.module_place(k))
}

/// The rows of all modules, one for each; past the modules they are blank.
pub fn module_rows(sheet: &AcceptedSheet) -> [ModuleRow; 8]
    ensures { RowsOf (sheet_of sheet.now) result }
{
    let blank = ModuleRow {
        periods: [0; 8],
        every: [0; 64],
        listed: [false; 64],
    };
    let mut rows = [blank; 8];
    let mut p = 4;
    for row in rows.iter_mut() {
        if place::byte(sheet.bytes, p) != b'M' {
            break;
        }
        *row = row_at(sheet, p);
        p = sheet.after_module(p);
    }
    rows
}

impl<'a> Table<'a> {
    /// The table of an accepted sheet of so many modules.
    pub fn new(sheet: AcceptedSheet<'a>, modules: usize) -> Self
        requires { modules ≡ length (sheet_of sheet).modules }
        ensures sheet { result.sheet.bytes.now ≡ sheet.entry.bytes.now }
        ensures modules { result.modules ≡ modules }
    {
        let rows = module_rows(&sheet);
        Table {
            sheet,
            modules,
            rows,
        }
    }

    /// The row of the module k.
    pub fn row(&self, k: usize) -> ModuleRow
        requires { k < length (sheet_of self.now.sheet).modules }
        ensures { RowOf (module_at (sheet_of self.now.sheet) k) result }
    {
        self.rows[k]
    }
}
