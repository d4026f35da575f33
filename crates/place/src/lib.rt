// Reads the bytes of a sheet: fields and tasks at a place, and where the modules and modes of an accepted sheet stand.
#![tactic(auto)]

ghost use Rattle.std.specs.Prelude.{◌≡◌, ◌≢◌, ℕ, ◌+◌, ◌*◌, ◌<◌, ◌≤◌, length, get_or};
ghost use Rattle.model.specs.Sheet.{module_at};
ghost use Rattle.model.specs.Run.{mode_at};
ghost use Rattle.format.specs.Record.{TK, tk, size, field_at, record_at};
ghost use Rattle.format.specs.Judgement.{Accepted};
ghost use Rattle.format.specs.Refusal.{AreBytes};
ghost use Rattle.format.specs.Place.{module_place, mode_place};
ghost use Rattle.place.specs.Numbers.{task_of};
ghost use Rattle.place.specs.There.{ModuleThere, ModesThere, ModeThere, SomeModule, SomeModes, SomeMode};

/// The byte at the place i.
pub fn byte(sheet: &[u8], i: usize) -> u8
    requires { i < length sheet.now }
    ensures { result ≡ get_or sheet.now i 0 }
{
    sheet[i]
}

/// The field at the place i: 16 bits, low byte first.
pub fn field(sheet: &[u8], i: usize) -> u16
    requires { i + 2 ≤ length sheet.now }
    ensures { result ≡ field_at sheet.now i }
{
    u16::from_le_bytes([sheet[i], sheet[i + 1]])
}

/// The numbers of a task; LET is called due.
#[derive(Clone, Copy)]
pub struct Task {
    pub offset: u16,
    pub cost: u16,
    pub due: u16,
    pub period: u16,
}

/// The fields of the TK at i.
pub fn task_at(sheet: &[u8], i: usize) -> Task
    requires { i + size TK ≤ length sheet.now }
    ensures { tk (task_of result) ≡ record_at TK sheet.now i }
{
    Task {
        offset: field(sheet, i + 2),
        cost: field(sheet, i + 4),
        due: field(sheet, i + 6),
        period: field(sheet, i + 8),
    }
}

// How many records of this size begin with the letter, before the first that does not.
fn leading(records: &[u8], size: usize, letter: u8) -> usize
    requires { 0 < size }
    ensures here { (i : ℕ) → i < result → (i * size < length records.now) × (get_or records.now (i * size) 0 ≡ letter) }
    ensures ends { result * size < length records.now → get_or records.now (result * size) 0 ≢ letter }
{
    records
        .chunks(size)
        .take_while(|record| record[0] == letter)
        .count()
}

/// The bytes of an accepted sheet, lent.
#[derive(Clone, Copy)]
pub struct AcceptedSheet<'a> {
    pub bytes: &'a [u8],
    pub ghost accepted: { Accepted bytes.now },
    pub ghost are_bytes: { AreBytes bytes.now },
}

impl AcceptedSheet<'_> {
    ghost use Rattle.place.specs.Held.{sheet_of};

    /// The sheet's horizon, the field of HZ.
    pub fn horizon(&self) -> usize
        ensures { result ≡ (sheet_of self.now).horizon }
    {
        field(self.bytes, 2) as usize
    }

    /// How many tasks the mode at p has: no other record's mark begins with T.
    pub fn tasks_at(&self, p: usize) -> usize
        requires { SomeMode (sheet_of self.now) p }
        ensures { (k j : ℕ) → ModeThere (sheet_of self.now) k j p → result ≡ length (mode_at (module_at (sheet_of self.now) k) j).tasks }
    {
        leading(&self.bytes[p + 4..], 10, b'T')
    }

    /// The place of the first switch of the mode at p, behind its tasks.
    pub fn switches_from(&self, p: usize) -> usize
        requires { SomeMode (sheet_of self.now) p }
        ensures { (k j : ℕ) → ModeThere (sheet_of self.now) k j p → result ≡ p + 4 + 10 * length (mode_at (module_at (sheet_of self.now) k) j).tasks }
    {
        p + 4 + 10 * self.tasks_at(p)
    }

    /// How many switches of both kinds the mode at p has: no other record's mark begins with S.
    pub fn switches_at(&self, p: usize) -> usize
        requires { SomeMode (sheet_of self.now) p }
        ensures { (k j : ℕ) → ModeThere (sheet_of self.now) k j p → result ≡ length (mode_at (module_at (sheet_of self.now) k) j).switches }
    {
        leading(&self.bytes[self.switches_from(p)..], 6, b'S')
    }

    /// The place behind the mode at p: of the next mode, or where the module ends.
    pub fn after_mode(&self, p: usize) -> usize
        requires { SomeMode (sheet_of self.now) p }
        ensures { (k j : ℕ) → ModeThere (sheet_of self.now) k j p → result ≡ mode_place (sheet_of self.now) k (j + 1) }
    {
        self.switches_from(p) + 6 * self.switches_at(p)
    }

    /// How many modes the module at p has.
    pub fn modes_at(&self, p: usize) -> usize
        requires { SomeModule (sheet_of self.now) p }
        ensures { (k : ℕ) → ModuleThere (sheet_of self.now) k p → result ≡ length (module_at (sheet_of self.now) k).modes }
    {
        field(self.bytes, p + 2) as usize
    }

    /// The place of the mode j of the module at p, or where the module ends.
    pub fn mode_from(&self, p: usize, j: usize) -> usize
        requires { SomeModes (sheet_of self.now) p j }
        ensures { (k : ℕ) → ModesThere (sheet_of self.now) k p j → result ≡ mode_place (sheet_of self.now) k j }
    {
        let mut q = p + 4;
        for _ in 0..j {
            q = self.after_mode(q);
        }
        q
    }

    /// The place behind the module at p: of the next module, or of EN.
    pub fn after_module(&self, p: usize) -> usize
        requires { SomeModule (sheet_of self.now) p }
        ensures { (k : ℕ) → ModuleThere (sheet_of self.now) k p → result ≡ module_place (sheet_of self.now) (k + 1) }
    {
        self.mode_from(p, self.modes_at(p))
    }

    /// The place of the module k; where k is the number of modules, the place of EN.
    pub fn module_place(&self, k: usize) -> usize
        requires { k ≤ length (sheet_of self.now).modules }
        ensures { result ≡ module_place (sheet_of self.now) k }
    {
        let mut p = 4;
        for _ in 0..k {
            p = self.after_module(p);
        }
        p
    }

    /// The place of the mode j of the module k; where j is the number of its modes, the place behind the module.
    pub fn mode_place(&self, k: usize, j: usize) -> usize
        requires k_in_bounds { k < length (sheet_of self.now).modules }
        requires j_in_bounds { j ≤ length (module_at (sheet_of self.now) k).modes }
        ensures { result ≡ mode_place (sheet_of self.now) k j }
    {
        self.mode_from(self.module_place(k), j)
    }
}
