// The writers of the lines that the program prints. Each writes into the caller's memory from a place on, and hands back the place behind its last byte.
#![tactic(auto)]

ghost use Rattle.std.specs.Prelude.{◌++◌, map, ◌+◌, ◌≤◌, length as count};
ghost use Rattle.model.specs.Verdict.{Quick, Exact};
ghost use Rattle.lines.specs.Decimal.{digit, decimal};
ghost use Rattle.lines.specs.Lines.{refused_line, quick_line, exact_line, run_line, sheet_line_of};
ghost use Rattle.writing.specs.Writing.{Put, OneDigitEach};
ghost use Rattle.writing.specs.Line.{Wrote};

// A line under way: the caller's memory, and the place behind its last byte. It cannot fail, where `write!` never says that it succeeds.
#[derive(Drop)]
struct Line<'a> {
    out: &'a mut [u8],
    at: usize,
}

impl Line<'_> {
    // Bytes as they stand. Taken in where it is called and the bytes are known: else the archive wants a memmove from outside.
    #[inline(always)]
    #[tactic(auto, using(crate::proofs::Writing::put_part))]
    fn put(&mut self, bytes: &[u8])
        requires { self.old.at + count bytes.now ≤ count self.old.out.now }
        ensures { Wrote self.old self.new bytes.now }
    {
        let next = self.at + bytes.len();
        self.out[self.at..next].copy_from_slice(bytes);
        self.at = next;
    }

    // The digits of a number.
    fn put_decimal(&mut self, n: usize)
        requires { self.old.at + count (decimal n) ≤ count self.old.out.now }
        ensures { Wrote self.old self.new (decimal n) }
    {
        self.put(itoa::Buffer::new().format(n).as_bytes());
    }

    // A word, and the number that it names; taken in for the same reason.
    #[inline(always)]
    fn put_number(&mut self, word: &[u8], n: usize)
        requires { self.old.at + count (word.now ++ decimal n) ≤ count self.old.out.now }
        ensures { Wrote self.old self.new (word.now ++ decimal n) }
    {
        self.put(word);
        self.put_decimal(n);
    }

    // The digit of each byte of a tape.
    fn put_tape(&mut self, tape: &[u8])
        requires { (self.old.at + count tape.now ≤ count self.old.out.now) × (OneDigitEach tape.now) }
        ensures { Wrote self.old self.new (map digit tape.now) }
    {
        for mode in tape {
            self.put(&[b'0' + *mode]);
        }
    }
}

// A line that is always the same.
fn fixed_line(out: &mut [u8], at: usize, bytes: &[u8]) -> usize
    requires { at + count bytes.now ≤ count out.old }
    ensures { Put at result bytes.now out.old out.new }
{
    let mut line = Line { out, at };
    line.put(bytes);
    line.at
}

// A refusal, with its number and place. The number stays a u8: the line of any number is promised, not of the faults alone.
#[tactic(auto, using(crate::proofs::Lengths::refused_count))]
pub fn refused_line(out: &mut [u8], at: usize, number: u8, place: usize) -> usize
    requires { at + count (refused_line number place) ≤ count out.old }
    ensures { Put at result (refused_line number place) out.old out.new }
{
    let mut line = Line { out, at };
    line.put_number(b"refused ", number as usize);
    line.put_number(b" at ", place);
    line.put(b"\n");
    line.at
}

// What a sheet has of each kind, and its horizon.
#[tactic(auto, using(crate::proofs::Lengths::sheet_count))]
pub fn sheet_line(
    out: &mut [u8],
    at: usize,
    modules: u32,
    modes: u32,
    tasks: u32,
    switches: u32,
    horizon: u32,
) -> usize
    requires { at + count (sheet_line_of modules modes tasks switches horizon) ≤ count out.old }
    ensures { Put at result (sheet_line_of modules modes tasks switches horizon) out.old out.new }
{
    let mut line = Line { out, at };
    line.put_number(b"sheet modules ", modules as usize);
    line.put_number(b" modes ", modes as usize);
    line.put_number(b" tasks ", tasks as usize);
    line.put_number(b" switches ", switches as usize);
    line.put_number(b" horizon ", horizon as usize);
    line.put(b"\n");
    line.at
}

// The quick test says clear.
#[tactic(auto, unfolding(lines::specs::Lines::quick_line))]
pub fn quick_clear_line(out: &mut [u8], at: usize) -> usize
    requires { at + count (quick_line Quick.clear) ≤ count out.old }
    ensures { Put at result (quick_line Quick.clear) out.old out.new }
{
    fixed_line(out, at, b"quick clear\n")
}

// The quick test says over: the smallest such length, and its demand.
#[tactic(auto, using(crate::proofs::Lengths::quick_count))]
pub fn quick_over_line(out: &mut [u8], at: usize, length: u32, demand: u32) -> usize
    requires { at + count (quick_line (Quick.over length demand)) ≤ count out.old }
    ensures { Put at result (quick_line (Quick.over length demand)) out.old out.new }
{
    let mut line = Line { out, at };
    line.put_number(b"quick over ", length as usize);
    line.put_number(b" demand ", demand as usize);
    line.put(b"\n");
    line.at
}

// The exact test says clear.
#[tactic(auto, unfolding(lines::specs::Lines::exact_line))]
pub fn exact_clear_line(out: &mut [u8], at: usize) -> usize
    requires { at + count (exact_line Exact.clear) ≤ count out.old }
    ensures { Put at result (exact_line Exact.clear) out.old out.new }
{
    fixed_line(out, at, b"exact clear\n")
}

// The exact test says over: the interval, and its demand.
#[tactic(auto, using(crate::proofs::Lengths::exact_count))]
pub fn exact_over_line(out: &mut [u8], at: usize, start: u32, end: u32, demand: u32) -> usize
    requires { at + count (exact_line (Exact.over start end demand)) ≤ count out.old }
    ensures { Put at result (exact_line (Exact.over start end demand)) out.old out.new }
{
    let mut line = Line { out, at };
    line.put_number(b"exact over ", start as usize);
    line.put_number(b" ", end as usize);
    line.put_number(b" demand ", demand as usize);
    line.put(b"\n");
    line.at
}

// The number and the tape of a module.
#[tactic(auto, using(crate::proofs::Lengths::run_count))]
pub fn run_line(out: &mut [u8], at: usize, k: u32, tape: &[u8]) -> usize
    requires { (at + count (run_line k tape.now) ≤ count out.old) × (OneDigitEach tape.now) }
    ensures { Put at result (run_line k tape.now) out.old out.new }
{
    let mut line = Line { out, at };
    line.put_number(b"run ", k as usize);
    line.put(b" ");
    line.put_tape(tape);
    line.put(b"\n");
    line.at
}
