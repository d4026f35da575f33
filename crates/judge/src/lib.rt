// Judges the bytes of a timing sheet, record by record from the front.
#![tactic(auto)]

ghost use Rattle.std.specs.Fmt.{decimal};
ghost use Rattle.std.specs.Prelude.{Some, codes, ◌++◌, ◌≡◌, List, [], ℕ, ◌+◌, ◌*◌, ◌≤◌, length};
ghost use Rattle.model.specs.Limits.{max_modes, max_bytes};
ghost use Rattle.format.specs.Record.{HZ, ML, MD, TK, switch, EN, sw, size, mark_at, record_at};
ghost use Rattle.format.specs.Rules.{between, divides, task_ruled, splits, keeps_whole, each, kind_ruled};
ghost use Rattle.format.specs.Judgement.{judgement};
ghost use Rattle.place.specs.Numbers.{task_of};
ghost use Rattle.judge.specs.Told.{number_of, refusal, told, tells_of};
ghost use Rattle.judge.specs.Reading.{kind_of, marked, found, switch_of, order_kept, tasks_at, switch_kept, onward, Reads, Within, Room, Judges, Steps};

use place::Task;
use std::error::Error;
use std::fmt;

/// Why a sheet is refused, or a call on a sound one.
#[derive(Clone, Copy, Debug, PartialEq, Eq)]
pub enum Fault {
    CutShort,
    UnknownMark,
    OutOfOrder,
    PastCount,
    BadField,
    BadSwitch,
    BadEnd,
    BytesAfter,
    OutOfRange,
    MemoryTooSmall,
}

impl Fault {
    /// The refusal for this fault at this place.
    pub fn at(self, place: usize) -> Refusal
        ensures { result ≡ refusal self place }
    {
        Refusal { fault: self, place }
    }
}

/// The number that a fault is told by.
impl From<Fault> for u8 {
    ghost from_gives = { λ fault n. n ≡ number_of fault };

    fn from(fault: Fault) -> u8 {
        match fault {
            Fault::CutShort => 1,
            Fault::UnknownMark => 2,
            Fault::OutOfOrder => 3,
            Fault::PastCount => 4,
            Fault::BadField => 5,
            Fault::BadSwitch => 6,
            Fault::BadEnd => 7,
            Fault::BytesAfter => 8,
            Fault::OutOfRange => 9,
            Fault::MemoryTooSmall => 10,
        }
    }
}

/// A refusal: the fault, and its place.
#[derive(Clone, Copy, Debug, PartialEq, Eq)]
pub struct Refusal {
    pub fault: Fault,
    pub place: usize,
}

impl fmt::Display for Refusal {
    ghost output = { λ r. Some (codes "refused " ++ decimal (number_of r.fault) ++ codes " at " ++ decimal r.place) };

    fn fmt<W: fmt::Write>(&self, f: &mut fmt::Formatter<W>) -> fmt::Result {
        write!(f, "refused {} at {}", u8::from(self.fault), self.place)
    }
}

impl Error for Refusal {}

/// What an accepted sheet has of each kind, and its horizon.
#[derive(Clone, Copy, Debug, PartialEq, Eq)]
pub struct Judged {
    pub modules: u16,
    pub modes: u16,
    pub tasks: u16,
    pub switches: u16,
    pub horizon: u16,
}

// The kind of a switch.
#[derive(Clone, Copy)]
enum Kind {
    Sw,
    Sx,
}

#[derive(Clone, Copy)]
enum Mark {
    Hz,
    Ml,
    Md,
    Tk,
    // SW or SX.
    Switch(Kind),
    En,
}

// A switch, with the fields of SW and SX.
#[derive(Clone, Copy)]
struct Switch {
    kind: Kind,
    target: u16,
    period: u16,
}

// The mark at i, its two letters as one number: matched as a pair they cost the judge a tenth to a fifth more.
#[tactic(auto, unfolding(format::specs::Record::mark_coded))]
fn mark_at(s: &[u8], i: usize) -> Option<Mark>
    requires { i + 2 ≤ length s.now }
    ensures { found result ≡ mark_at s.now i }
{
    match u16::from_be_bytes([place::byte(s, i), place::byte(s, i + 1)]) {
        0x485A => Some(Mark::Hz),
        0x4D4C => Some(Mark::Ml),
        0x4D44 => Some(Mark::Md),
        0x544B => Some(Mark::Tk),
        0x5357 => Some(Mark::Switch(Kind::Sw)),
        0x5358 => Some(Mark::Switch(Kind::Sx)),
        0x454E => Some(Mark::En),
        _ => None,
    }
}

// The switch of this kind at i.
fn switch_at(kind: Kind, s: &[u8], i: usize) -> Switch
    requires { i + size (switch (kind_of kind)) ≤ length s.now }
    ensures { sw (switch_of result) ≡ record_at (switch (kind_of kind)) s.now i }
{
    Switch {
        kind,
        target: place::field(s, i + 2),
        period: place::field(s, i + 4),
    }
}

// How many bytes a record of this mark has.
fn bytes_of(m: Mark) -> usize
    ensures { (result ≡ size (marked m)) × (result ≤ 10) }
{
    match m {
        Mark::Hz | Mark::Ml | Mark::Md | Mark::En => 4,
        Mark::Tk => 10,
        Mark::Switch(_) => 6,
    }
}

// p is at least 1 and divides n.
fn is_divisor(p: u16, n: u16) -> bool
    ensures { result ≡ divides p n }
{
    1 <= p && n % p == 0
}

// The task rules, in a mode of the period mode.
#[tactic(auto, unfolding(format::specs::Rules::task_ruled))]
fn task_keeps(mode: u16, k: Task) -> bool
    ensures { result ≡ task_ruled mode (task_of k) }
{
    1 <= k.cost
        && k.cost <= k.due
        && u32::from(k.offset) + u32::from(k.due) <= u32::from(k.period)
        && is_divisor(k.period, mode)
}

// x splits an instance of the task: it falls strictly between its release and its due tick.
fn is_split(k: Task, x: u16) -> bool
    requires { 1 ≤ k.period }
    ensures { result ≡ splits (task_of k) x }
{
    let rest = x % k.period;
    k.offset < rest && u32::from(rest) < u32::from(k.offset) + u32::from(k.due)
}

// No positive multiple of p up to the mode period splits an instance of the task.
fn keeps_whole(mode: u16, p: u16, k: Task) -> bool
    requires { (1 ≤ p) × (1 ≤ k.period) }
    ensures { result ≡ keeps_whole mode p (task_of k) }
{
    !(0..mode / p).any(|j| is_split(k, (j + 1) * p))
}

// The rule of the switch's kind for a task, in a mode of the period mode.
#[tactic(auto, unfolding(format::specs::Rules::kind_ruled))]
fn kind_keeps(mode: u16, w: Switch, k: Task) -> bool
    requires { 1 ≤ w.period }
    ensures { result ≡ kind_ruled (kind_of w.kind) mode w.period (task_of k) }
{
    match w.kind {
        Kind::Sw => is_divisor(k.period, w.period),
        // A task that was read has a period from 1 on; the rest divides by it.
        Kind::Sx => 1 <= k.period && keeps_whole(mode, w.period, k),
    }
}

// What has been read so far.
#[derive(Clone, Copy)]
pub struct Sheet {
    // Where the next record begins.
    at: usize,
    records: u16,
    horizon: u16,
    modules: u16,
    modes: u16,
    tasks: u16,
    switches: u16,
    // How many modes the open module states, and how many of them are read.
    stated: u16,
    seen: u16,
    // The open mode: its period, where its tasks begin, how many they are, whether it has a switch.
    period: u16,
    from: usize,
    held: u16,
    switching: bool,
    // EN is read.
    ended: bool,
    // The modes that the switches of the open mode name.
    named: [bool; Sheet::MAX_MODES as usize],
}

impl Sheet {
    pub const MAX_HORIZON: u16 = 2000;

    pub const MAX_MODULES: u16 = 8;

    // In a module.
    pub const MAX_MODES: u16 = 8;

    pub const MAX_MODE_PERIOD: u16 = 1024;

    pub const MAX_MODE_TASKS: u16 = 16;

    // In a sheet.
    pub const MAX_TASKS: u16 = 256;

    pub const MAX_SWITCHES: u16 = 128;

    pub const MAX_BYTES: usize = 3624;

    // The lent working memory.
    pub const WORK_NUMBERS: usize = memory::WORK_NUMBERS;

    // Before the first record.
    pub fn new() -> Self
        ensures { (bs : List ℕ) → Reads bs result [] }
    {
        Self {
            at: 0,
            records: 0,
            horizon: 0,
            modules: 0,
            modes: 0,
            tasks: 0,
            switches: 0,
            stated: 0,
            seen: 0,
            period: 0,
            from: 0,
            held: 0,
            switching: false,
            ended: false,
            named: [false; Self::MAX_MODES as usize],
        }
    }

    // 3: the record's mark may follow those read.
    fn in_order(self, m: Mark) -> bool
        ensures { result ≡ order_kept (marked m) self }
    {
        match m {
            Mark::Hz => self.records == 0,
            Mark::Ml => 0 < self.records && self.seen == self.stated,
            Mark::Md => self.seen < self.stated,
            Mark::Tk => 0 < self.seen && !self.switching,
            Mark::Switch(_) => 0 < self.seen,
            Mark::En => 0 < self.modules && self.seen == self.stated,
        }
    }

    // A sound record of this mark is read.
    fn pass(&mut self, m: Mark)
        requires { (self.old.at ≤ max_bytes) × (self.old.records ≤ max_bytes) }
        ensures { self.new ≡ onward (size (marked m)) self.old }
    {
        self.at += bytes_of(m);
        self.records += 1;
    }

    fn horizon_record(&mut self, s: &[u8]) -> Result<(), Refusal>
        requires { Room HZ s.now self.old }
        ensures { Judges HZ s.now self.old self.new result }
    {
        let horizon = place::field(s, self.at + 2);
        if !(1..=Self::MAX_HORIZON).contains(&horizon) {
            return Err(Fault::BadField.at(self.at));
        }
        self.horizon = horizon;
        self.pass(Mark::Hz);
        Ok(())
    }

    fn module_record(&mut self, s: &[u8]) -> Result<(), Refusal>
        requires { Room ML s.now self.old }
        ensures { Judges ML s.now self.old self.new result }
    {
        if Self::MAX_MODULES <= self.modules {
            return Err(Fault::PastCount.at(self.at));
        }
        let stated = place::field(s, self.at + 2);
        if !(1..=Self::MAX_MODES).contains(&stated) {
            return Err(Fault::BadField.at(self.at));
        }
        self.modules += 1;
        self.stated = stated;
        self.seen = 0;
        self.pass(Mark::Ml);
        Ok(())
    }

    fn mode_record(&mut self, s: &[u8]) -> Result<(), Refusal>
        requires { Room MD s.now self.old }
        ensures { Judges MD s.now self.old self.new result }
    {
        let period = place::field(s, self.at + 2);
        if !(1..=Self::MAX_MODE_PERIOD).contains(&period) {
            return Err(Fault::BadField.at(self.at));
        }
        self.modes += 1;
        self.seen += 1;
        self.period = period;
        self.from = self.at + bytes_of(Mark::Md);
        self.held = 0;
        self.switching = false;
        self.named = [false; Self::MAX_MODES as usize];
        self.pass(Mark::Md);
        Ok(())
    }

    fn task_record(&mut self, s: &[u8]) -> Result<(), Refusal>
        requires { Room TK s.now self.old }
        ensures { Judges TK s.now self.old self.new result }
    {
        if Self::MAX_MODE_TASKS <= self.held || Self::MAX_TASKS <= self.tasks {
            return Err(Fault::PastCount.at(self.at));
        }
        let k = place::task_at(s, self.at);
        if !task_keeps(self.period, k) {
            return Err(Fault::BadField.at(self.at));
        }
        self.held += 1;
        self.tasks += 1;
        self.pass(Mark::Tk);
        Ok(())
    }

    // The rule of the switch's kind holds for every task of the mode.
    fn tasks_allow(self, w: Switch, s: &[u8]) -> bool
        requires { (1 ≤ w.period) × (self.from + 10 * self.held ≤ length s.now) }
        ensures { result ≡ each (kind_ruled (kind_of w.kind) self.period w.period) (tasks_at s.now self.from self.held) }
    {
        (0..usize::from(self.held)).all(|i| kind_keeps(
            self.period,
            w,
            place::task_at(s, self.from + 10 * i),
        ))
    }

    // The switch rules, in the mode that is open.
    #[tactic(auto, unfolding(crate::specs::Reading::switch_kept))]
    fn switch_keeps(self, w: Switch, s: &[u8]) -> bool
        requires { (self.from + 10 * self.held ≤ length s.now) × (self.stated ≤ max_modes) }
        ensures { result ≡ switch_kept s.now self (switch_of w) }
    {
        w.target < self.stated
            && w.target + 1 != self.seen
            && !self.named[usize::from(w.target)]
            && is_divisor(w.period, self.period)
            && self.tasks_allow(w, s)
    }

    fn switch_record(&mut self, kind: Kind, s: &[u8]) -> Result<(), Refusal>
        requires { Room (switch (kind_of kind)) s.now self.old }
        ensures { Judges (switch (kind_of kind)) s.now self.old self.new result }
    {
        if Self::MAX_SWITCHES <= self.switches {
            return Err(Fault::PastCount.at(self.at));
        }
        let w = switch_at(kind, s, self.at);
        if !self.switch_keeps(w, s) {
            return Err(Fault::BadSwitch.at(self.at));
        }
        self.named[usize::from(w.target)] = true;
        self.switches += 1;
        self.switching = true;
        self.pass(Mark::Switch(kind));
        Ok(())
    }

    fn end_record(&mut self, s: &[u8]) -> Result<(), Refusal>
        requires { Room EN s.now self.old }
        ensures { Judges EN s.now self.old self.new result }
    {
        let before = place::field(s, self.at + 2);
        if before != self.records {
            return Err(Fault::BadEnd.at(self.at));
        }
        self.ended = true;
        self.pass(Mark::En);
        Ok(())
    }

    // 4, 5, 6, 7: the counts and the values of a record that is whole and in order.
    fn judge_fields(&mut self, m: Mark, s: &[u8]) -> Result<(), Refusal>
        requires { Room (marked m) s.now self.old }
        ensures { Judges (marked m) s.now self.old self.new result }
    {
        match m {
            Mark::Hz => self.horizon_record(s),
            Mark::Ml => self.module_record(s),
            Mark::Md => self.mode_record(s),
            Mark::Tk => self.task_record(s),
            Mark::Switch(kind) => self.switch_record(kind, s),
            Mark::En => self.end_record(s),
        }
    }

    // One record: cut short (1), mark (2), fields cut short (1), order (3), and then the rest.
    fn step(&mut self, s: &[u8]) -> Result<(), Refusal>
        requires { Within s.now self.old }
        ensures { Steps s.now self.old self.new result }
    {
        if s.len() < self.at + 2 {
            return Err(Fault::CutShort.at(self.at));
        }
        let Some(m) = mark_at(s, self.at) else {
            return Err(Fault::UnknownMark.at(self.at));
        };
        let end = self.at + bytes_of(m);
        if s.len() < end {
            return Err(Fault::CutShort.at(self.at));
        }
        if !self.in_order(m) {
            return Err(Fault::OutOfOrder.at(self.at));
        }
        self.judge_fields(m, s)
    }
}

// The judgement of any bytes.
pub fn judge(sheet: &[u8]) -> Result<Judged, Refusal>
    ensures { told result ≡ tells_of (judgement sheet.now) }
{
    let mut read = Sheet::new();
    while !read.ended {
        read.step(sheet)?;
    }
    if read.at < sheet.len() {
        return Err(Fault::BytesAfter.at(read.at));
    }
    Ok(Judged {
        modules: read.modules,
        modes: read.modes,
        tasks: read.tasks,
        switches: read.switches,
        horizon: read.horizon,
    })
}
