// A step by one gate, level by level: the states of the walk, and what each bit turns them into.
#![tactic(auto)]

ghost use Rattle.std.specs.Prelude.{◌≡◌, ◌<◌};
ghost use Rattle.diagrams.specs.Diagram.{ref_of};
ghost use Rattle.transitions.specs.Plan.{plan_of};
ghost use Rattle.transitions.specs.State.{level_of, top};
ghost use Rattle.transitions.specs.Source.{cols_of, Readable, Reading, ReadingBoth};
ghost use Rattle.transitions.specs.Next.{mode_code, on_one, cofactor, paired, chosen, at_target, at_second, next_by, next_state};
ghost use Rattle.transitions.specs.Valid.{Usable};

use gates::{Act, Phases};
use stores::Nodes;

// What is made of a state's references x and y: x times a power of w8; x + y; x − y; the gate still to act on x, from a stage on; past
// a swap's first target, whose bit was `seen`: if every control from the stage on is 1 and the second target's bit is not `seen`, what y
// gives with `seen` in its place, else x; y times a power of w8 if every control from the stage on is 1, else x.
#[derive(Clone, Copy, PartialEq, Eq, Debug)]
pub enum Mode {
    Turning(u32),
    Adding,
    Subtracting,
    Waiting(u32),
    Swapping { stage: u32, seen: bool },
    Choosing { stage: u32, power: u32 },
}

// A mode in one number, for the computed table; of 64 bits, so that any stage and power may be asked.
impl From<Mode> for u64 {
    ghost from_gives = { λ mode number. number ≡ mode_code mode };

    #[inline]
    fn from(mode: Mode) -> u64 {
        match mode {
            Mode::Turning(power) => u64::from(power),
            Mode::Adding => 8,
            Mode::Subtracting => 9,
            Mode::Waiting(stage) => 16 + u64::from(stage),
            Mode::Swapping { stage, seen } => 32 + 2 * u64::from(stage) + u64::from(seen),
            Mode::Choosing { stage, power } => 64 + 8 * u64::from(stage) + u64::from(power),
        }
    }
}

// Where the walk stands in the source: two references, or one twice, and what is made of them.
#[derive(Clone, Copy, PartialEq, Eq, Debug)]
pub struct State {
    pub x: u32,
    pub y: u32,
    pub mode: Mode,
}

impl State {
    // The state of a mode that makes use of one reference.
    #[inline]
    fn on_one(mode: Mode, x: u32) -> State
        ensures { result ≡ on_one mode x }
    {
        State { x, y: x, mode }
    }
}

// A step's plan: the levels at which the gate asks, lowest first (its controls and its targets, sixteen at most), how many there are, and
// which of them are its targets'; what the gate does there; the source's zero, if it has one; the sizes of the tables, the width and the
// number of levels; and how many nodes and values the source has, of which contracts alone speak: they are no ghost fields, since those of a
// plain struct state facts and hold no numbers. The array has room for the most stages, since memory is fixed.
#[derive(Clone, Copy)]
pub struct Plan {
    pub stages: [u32; 16],
    pub stage_count: u32,
    pub target: u32,
    pub second: u32,
    pub act: Act,
    pub phases: Phases,
    pub zero: Option<u32>,
    pub node_heads: u32,
    pub value_heads: u32,
    pub slots: u32,
    pub width: u32,
    pub levels: u32,
    pub span: u32,
    pub nodes: u32,
    pub values: u32,
}

// ---- the source, which is read only

// A step down in the source: the level that is asked about, and its bit.
#[derive(Clone, Copy)]
struct Down<'a> {
    source: &'a Nodes<'a>,
    level: u32,
    bit: bool,
}

impl Down<'_> {
    // The reference below, by a bit that is given, if it asks at this level; else the reference. It says of every store that the columns hold
    // what cofactors::child says of the columns, as all that follows speaks of that store.
    #[inline]
    fn child(self, bit: bool, x: u32) -> u32
        requires { Readable (cols_of self.source.now) x }
        ensures { Reading (cols_of self.entry.source.now) x (λ s. result ≡ cofactor s self.entry.level bit x) }
    {
        cofactors::child(self.source, self.level, bit, x)
    }

    // The reference below, by the bit that is asked for.
    #[inline]
    fn own(self, x: u32) -> u32
        requires { Readable (cols_of self.source.now) x }
        ensures { Reading (cols_of self.entry.source.now) x (λ s. result ≡ cofactor s self.entry.level self.entry.bit x) }
    {
        self.child(self.bit, x)
    }
}

// ---- where a state asks next

impl Plan {
    // The level of a reference; a value's is past the last.
    #[inline]
    fn level_at(&self, source: &Nodes<'_>, x: u32) -> u32
        requires { Readable (cols_of source.now) x }
        ensures { Reading (cols_of source.now) x (λ s. result ≡ level_of (plan_of self.now) s (ref_of x)) }
    {
        if x % 2 == 1 {
            source.level[(x / 2) as usize]
        } else {
            self.levels
        }
    }

    // The level that the state asks about: the first of its references' and of the gate's.
    #[inline]
    #[tactic(auto, unfolding(crate::specs::State::top))]
    pub fn asked(&self, source: &Nodes<'_>, state: State) -> u32
        requires { Usable (cols_of source.now) state }
        ensures { ReadingBoth (cols_of source.now) state.x state.y
            (λ s. result ≡ top (plan_of self.now) s state) }
    {
        let first = self.level_at(source, state.x);
        match state.mode {
            Mode::Turning(_) => first,
            Mode::Adding | Mode::Subtracting => first.min(self.level_at(source, state.y)),
            Mode::Waiting(stage) => first.min(self.stages[stage as usize]),
            Mode::Swapping { stage, .. } | Mode::Choosing { stage, .. } => {
                let both = first.min(self.level_at(source, state.y));
                both.min(self.stages[stage as usize])
            }
        }
    }
}

// ---- what a bit turns a state into

impl Plan {
    // x + y or x − y; where one of them is the source's zero, the other, times 1 or −1. Which of the two is a bit, since at the target of H it
    // is the bit that is asked for, a row's or a column's: where it is 1, the difference.
    #[inline]
    #[tactic(auto, unfolding(crate::specs::Next::paired))]
    fn paired(&self, minus: bool, x: u32, y: u32) -> State
        ensures { result ≡ paired (plan_of self.now) minus x y }
    {
        if self.zero == Some(y) {
            return State::on_one(Mode::Turning(0), x);
        }
        if self.zero == Some(x) {
            return State::on_one(Mode::Turning(if minus { 4 } else { 0 }), y);
        }
        let mode = if minus {
            Mode::Subtracting
        } else {
            Mode::Adding
        };
        State { x, y, mode }
    }

    // y times w8 to the power if every control from the stage on is 1, else x.
    #[inline]
    #[tactic(auto, unfolding(crate::specs::Next::chosen))]
    fn chosen(&self, stage: u32, power: u32, x: u32, y: u32) -> State
        ensures { result ≡ chosen (plan_of self.now) stage power x y }
    {
        if stage == self.stage_count {
            return State::on_one(Mode::Turning(power), y);
        }
        if power == 0 && x == y {
            return State::on_one(Mode::Turning(0), x);
        }
        State {
            x,
            y,
            mode: Mode::Choosing { stage, power },
        }
    }

    // The target's question, with the controls from the stage on still to come.
    #[inline]
    #[tactic(auto, unfolding(crate::specs::Next::at_target))]
    fn at_target(&self, down: Down<'_>, stage: u32, x: u32) -> State
        requires { Readable (cols_of down.source.now) x }
        ensures { Reading (cols_of down.entry.source.now) x
            (λ s. result ≡ at_target (plan_of self.now) s down.entry.level down.entry.bit stage x) }
    {
        let own = down.own(x);
        match self.act {
            Act::Keeps => self.chosen(stage, self.phases.at(down.bit), own, own),
            Act::Flips => self.chosen(
                stage,
                self.phases.at(down.bit),
                own,
                down.child(!down.bit, x),
            ),
            Act::Mixes => self.paired(down.bit, down.child(false, x), down.child(true, x)),
            Act::Swaps => State {
                x: own,
                y: down.child(!down.bit, x),
                mode: Mode::Swapping {
                    stage,
                    seen: down.bit,
                },
            },
        }
    }

    // A gate that is still to act, from the stage on: its question, or one that it passes by. That the stage is one of the plan's slots is
    // asked here and in the two below, each of which takes the stage out of its mode: a caller knows it of the mode, as Staged.
    #[inline]
    fn next_waiting(&self, down: Down<'_>, stage: u32, x: u32) -> State
        requires { (stage < 16) × Readable (cols_of down.source.now) x }
        ensures { Reading (cols_of down.entry.source.now) x
            (λ s. result ≡ next_by (plan_of self.now) s down.entry.level down.entry.bit (Mode.Waiting stage) x x) }
    {
        let own = down.own(x);
        if self.stages[stage as usize] != down.level {
            return State::on_one(Mode::Waiting(stage), own);
        }
        if self.target == stage {
            return self.at_target(down, stage + 1, x);
        }
        State::on_one(
            if down.bit {
                Mode::Waiting(stage + 1)
            } else {
                Mode::Turning(0)
            },
            own,
        )
    }

    // The second target's question, after a first whose bit was `seen`: where the bits are alike there is nothing to exchange.
    #[inline]
    fn at_second(&self, down: Down<'_>, stage: u32, seen: bool, x: u32, y: u32) -> State
        requires { Readable (cols_of down.source.now) x × Readable (cols_of down.source.now) y }
        ensures { ReadingBoth (cols_of down.entry.source.now) x y
            (λ s. result ≡ at_second (plan_of self.now) s down.entry.level down.entry.bit stage seen x y) }
    {
        let own = down.own(x);
        if down.bit == seen {
            return State::on_one(Mode::Turning(0), own);
        }
        let other = down.child(seen, y);
        self.chosen(stage, 0, own, other)
    }

    // Between a swap's targets: the second target's question, a control's, or one that it passes by.
    #[inline]
    fn next_swapping(&self, down: Down<'_>, stage: u32, seen: bool, x: u32, y: u32) -> State
        requires { (stage < 16) × Readable (cols_of down.source.now) x × Readable (cols_of down.source.now) y }
        ensures { ReadingBoth (cols_of down.entry.source.now) x y
            (λ s. result ≡ next_by (plan_of self.now) s down.entry.level down.entry.bit (Mode.Swapping stage seen) x y) }
    {
        let here = self.stages[stage as usize] == down.level;
        if here && self.second == stage {
            return self.at_second(down, stage + 1, seen, x, y);
        }
        let own = down.own(x);
        if here && !down.bit {
            return State::on_one(Mode::Turning(0), own);
        }
        let stage = if here { stage + 1 } else { stage };
        State {
            x: own,
            y: down.own(y),
            mode: Mode::Swapping { stage, seen },
        }
    }

    // A gate that has acted on y, with the controls from the stage on still to come.
    #[inline]
    fn next_choosing(&self, down: Down<'_>, stage: u32, power: u32, x: u32, y: u32) -> State
        requires { (stage < 16) × Readable (cols_of down.source.now) x × Readable (cols_of down.source.now) y }
        ensures { ReadingBoth (cols_of down.entry.source.now) x y
            (λ s. result ≡ next_by (plan_of self.now) s down.entry.level down.entry.bit (Mode.Choosing stage power) x y) }
    {
        let own = down.own(x);
        let other = down.own(y);
        if self.stages[stage as usize] != down.level {
            return self.chosen(stage, power, own, other);
        }
        if down.bit {
            return self.chosen(stage + 1, power, own, other);
        }
        State::on_one(Mode::Turning(0), own)
    }

    // The state after the bit of a level.
    #[inline]
    #[tactic(auto, unfolding(crate::specs::Next::next_state))]
    pub fn next(&self, source: &Nodes<'_>, level: u32, bit: bool, state: State) -> State
        requires { Usable (cols_of source.now) state }
        ensures { ReadingBoth (cols_of source.now) state.x state.y
            (λ s. result ≡ next_state (plan_of self.now) s level bit state) }
    {
        let down = Down { source, level, bit };
        let State { x, y, mode } = state;
        match mode {
            Mode::Turning(_) => State::on_one(mode, down.own(x)),
            Mode::Adding => self.paired(false, down.own(x), down.own(y)),
            Mode::Subtracting => self.paired(true, down.own(x), down.own(y)),
            Mode::Waiting(stage) => self.next_waiting(down, stage, x),
            Mode::Swapping { stage, seen } => self.next_swapping(down, stage, seen, x, y),
            Mode::Choosing { stage, power } => self.next_choosing(down, stage, power, x, y),
        }
    }
}
