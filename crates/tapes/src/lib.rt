// The writer of one module's tape: from its first tick on, by the heads of the modes at each tick.
#![tactic(auto)]

ghost use Rattle.std.specs.Prelude.{◌≡◌, true, ◌&&◌, List, ℕ, ◌+◌, ◌-◌, ◌%◌, ◌<◌, ◌≤◌, max, eqb, length, unwrap_or, IfSome};
ghost use Rattle.model.specs.Lists.{max_of, max_below};
ghost use Rattle.model.specs.Limits.{work_numbers};
ghost use Rattle.model.specs.Sheet.{Module};
ghost use Rattle.model.specs.WellFormed.{ModuleRule};
ghost use Rattle.model.specs.Run.{gain};
ghost use Rattle.model.specs.Demand.{value, nexts};
ghost use Rattle.model.specs.Tape.{chosen};
ghost use Rattle.layers.specs.Layer.{Told, Tells};
ghost use Rattle.following.specs.Follow as Follow;
ghost use Rattle.following.specs.Follow.{opens};
ghost use Rattle.heads.specs.Heads.{Filled, Kept};
ghost use Rattle.tapes.specs.States.{the, Within, Answers};
ghost use Rattle.tapes.specs.Taped.{Taped};

use layers::Shape;

// A state of a module: the mode and the mode time.
#[derive(Clone, Copy)]
pub struct State {
    pub mode: usize,
    pub time: usize,
}

// A switch, where there is one, is open at the times that its period divides.
fn is_open(listed: bool, every: u16, time: usize) -> bool
    requires { listed ≡ true → 1 ≤ every }
    ensures { result ≡ (listed && eqb (time % every) 0) }
{
    listed && time % every as usize == 0
}

impl State {
    // One tick on, to the mode asked for: on in the stay or, at its end, from its start again; another mode where a switch to it is open, else None.
    pub fn step(self, shape: Shape, to: usize) -> Option<State>
        requires { ((numbers : List ℕ) × Tells shape numbers) × (Within shape self) × (to < shape.modes) }
        ensures { (m : Module) (numbers : List ℕ) → ModuleRule m → Told m shape numbers → Answers m self to result }
    {
        let d = self.time + 1;
        if to != self.mode {
            let at = 8 * self.mode + to;
            return is_open(shape.listed[at], shape.every[at], d).then_some(State {
                mode: to,
                time: 0,
            });
        }
        let time = if d < shape.periods[to] as usize { d } else { 0 };
        Some(State { mode: to, time })
    }
}

// A module, and the heads of its modes at each tick of the interval from a to b. That the numbers tell a module is no ghost field but asked
// for beside it: the same numbers can tell two modules, and a ghost field takes only a fact that has one proof.
#[derive(Clone, Copy)]
struct Heads<'a> {
    work: &'a [u32],
    a: usize,
    b: usize,
    shape: &'a Shape,
    numbers: &'a [u16],
    ghost room: { work_numbers ≤ length work.now },
    ghost short: { b ≤ 2000 },
    ghost filled: { Filled shape.now numbers.now a b work.now },
}

// The ways on from the state s at tick t - 1 to tick t: by the stay, or to a mode that can be begun.
#[derive(Clone, Copy)]
struct Fork<'a> {
    heads: Heads<'a>,
    t: usize,
    s: State,
    ghost inside: { t ≤ heads.b },
    ghost within: { Within heads.shape.now s },
}

impl Fork<'_> {
    ghost use Rattle.tapes.specs.Forks.{IsTold, AtFork, modes_of, ahead, head_of, offer_of, Attains};

    // The head of mode j, where that mode can be begun.
    fn head(&self, j: usize) -> Option<u32>
        requires { (IsTold self.now) × (j < modes_of self.now) }
        ensures { (IfSome result (λ h. h < 65536)) × (AtFork self.now (λ m. result ≡ head_of self.now m j)) }
    {
        let next = self.s.step(*self.heads.shape, j);
        if next.is_some_and(|n| n.time == 0) {
            Some(heads::head(self.heads.work, self.t, j))
        } else {
            None
        }
    }

    // The largest of these heads.
    fn offers(&self) -> u32
        requires { IsTold self.now }
        ensures { (result < 65536) × (AtFork self.now (λ m. result ≡ max_below (offer_of self.now m) (length m.modes))) }
    {
        let mut top = 0;
        for j in 0..self.heads.shape.modes {
            top = self.head(j).unwrap_or(0).max(top);
        }
        top
    }

    // Whether mode j can be begun and its head is top.
    fn attains_at(&self, top: u32, j: usize) -> bool
        requires { (IsTold self.now) × (j < modes_of self.now) }
        ensures { Attains self.now top result j }
    {
        self.head(j) == Some(top)
    }

    // The lowest such mode.
    fn lowest_head(&self, top: u32) -> Option<usize>
        requires { IsTold self.now }
        ensures { (IfSome result (λ j. j < modes_of self.now)) × (AtFork self.now (λ m. unwrap_or result (modes_of self.now) ≡ Follow.head m (ahead self.now m) (the self.now.s) top)) }
    {
        (0..self.heads.shape.modes).find(|j| self.attains_at(top, *j))
    }

    // One tick of a walk along a stay: s gains, and goes on for v or to the best head.
    fn turn(&self, v: u32, l: usize) -> u32
        requires { (IsTold self.now) × (v < 65536) }
        ensures { AtFork self.now (λ m. result ≡ gain m (the self.now.s) 0 l + max v (max_below (offer_of self.now m) (length m.modes))) }
    {
        let best = v.max(self.offers());
        heads::gain_at(
            self.s.mode,
            self.s.time,
            l,
            *self.heads.shape,
            self.heads.numbers,
        ) + best
    }

    // The mode of the next state on the tape, for top the largest value of a next state of s: the lowest mode that can be begun and has it,
    // unless the stay has it too and is lower.
    fn next_mode(&self, top: u32) -> usize
        requires told { IsTold self.now }
        requires each { AtFork self.now (λ m. top ≡ max_of (ahead self.now m) (nexts m (the self.now.s))) }
        ensures { AtFork self.now (λ m. result ≡ (chosen (ahead self.now m) (the self.now.s) (nexts m (the self.now.s))).mode) }
    {
        let k = self.s.mode;
        let period = self.heads.shape.periods[k] as usize;
        let d = self.s.time + 1;
        let Some(h) = self.lowest_head(top) else {
            return k;
        };
        if h <= k {
            return h;
        }
        if period <= d {
            return h;
        }
        if self.heads.value_at(self.t, State { mode: k, time: d }) == top {
            return k;
        }
        h
    }
}

impl Heads<'_> {
    ghost use Rattle.tapes.specs.Forks.{HeadsTold, EachOf};

    // The value of s at tick t, by a walk along its stay from the end back.
    fn value_at(&self, t: usize, s: State) -> u32
        requires { (HeadsTold self.now) × (Within self.now.shape.now s) × (t ≤ self.now.b) }
        ensures { EachOf self.now (λ m. result ≡ value m (self.now.a - t) (self.now.b - t) (the s)) }
    {
        let rest = self.shape.periods[s.mode] as usize - s.time;
        let mut v = 0;
        for i in (0..rest.min(self.b - t)).rev() {
            let l = heads::counted_at(self.a, self.b, t + i);
            let fork = Fork {
                heads: *self,
                t: t + i + 1,
                s: State {
                    mode: s.mode,
                    time: s.time + i,
                },
            };
            v = fork.turn(v, l);
        }
        v
    }

    // The tape, tick by tick: the mode of the state, and on to the next state on the tape, which has what the gain leaves of the value.
    fn follow(&self, tape: &mut [u8])
        requires { (HeadsTold self.now) × (self.now.b ≤ length tape.old) }
        ensures { Taped self.now.shape.now self.now.numbers.now self.now.a self.now.b tape.old tape.new }
    {
        let mut s = State { mode: 0, time: 0 };
        let mut v = heads::head(self.work, 0, 0);
        for t in 0..self.b {
            tape[t] = s.mode as u8;
            let l = heads::counted_at(self.a, self.b, t);
            v -= heads::gain_at(s.mode, s.time, l, *self.shape, self.numbers);
            let fork = Fork {
                heads: *self,
                t: t + 1,
                s,
            };
            let to = fork.next_mode(v);
            s = s.step(*self.shape, to).unwrap_or(s);
        }
    }
}

// The module's tape in the interval from a to b: the first b bytes. The rest of the tape memory stays, and so do the numbers of the working
// memory from the 16,384th on.
pub fn write_tape(
    tape: &mut [u8],
    a: usize,
    b: usize,
    work: &mut [u32],
    shape: Shape,
    numbers: &[u16],
)
    requires { (Tells shape numbers.now) × (b ≤ 2000) × (b ≤ length tape.old) × (work_numbers ≤ length work.old) }
    ensures { (Taped shape numbers.now a b tape.old tape.new) × (Kept work.old work.new) }
{
    heads::fill_heads(work, a, b, shape, numbers);
    let filled = Heads {
        work,
        a,
        b,
        shape: &shape,
        numbers,
    };
    filled.follow(tape);
}
