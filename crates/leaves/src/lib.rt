// States of a step's walk with no question left: which they are, and their entries.
#![tactic(auto)]

ghost use Rattle.std.specs.Prelude.{◌≡◌, ◌/◌};
ghost use Rattle.algebra.specs.Width.{bounded};
ghost use Rattle.transitions.specs.Source.{vals_of, HoldsSlot, ReadingLeaf};
ghost use Rattle.transitions.specs.Next.{is_leaf, leaf_entry};

use algebra::Entry;
use stores::Values;
use transitions::{Mode, State};

#[inline]
#[tactic(auto, unfolding(transitions::specs::Next::is_leaf))]
pub fn is_leaf(state: State) -> bool
    ensures { result ≡ is_leaf state }
{
    match state.mode {
        Mode::Turning(_) => state.x % 2 == 0,
        Mode::Adding | Mode::Subtracting => state.x % 2 == 0 && state.y % 2 == 0,
        Mode::Waiting(_) | Mode::Swapping { .. } | Mode::Choosing { .. } => false,
    }
}

// The entry of a state with no question left, if it lies within the width.
#[tactic(auto, unfolding(transitions::specs::Next::is_leaf, transitions::specs::Next::leaf_entry))]
pub fn leaf(source: &Values<'_>, state: State, width: u32) -> Option<Entry>
    requires { HoldsSlot (vals_of source.now) (state.x / 2) × HoldsSlot (vals_of source.now) (state.y / 2) }
    ensures { ReadingLeaf (vals_of source.now) state
        (λ s. result ≡ bounded width (leaf_entry s state)) }
{
    let e = source.value_at((state.x / 2) as usize);
    match state.mode {
        Mode::Turning(power) => algebra::turned(e, power, width),
        Mode::Adding => algebra::sum(e, source.value_at((state.y / 2) as usize), width),
        Mode::Subtracting => algebra::difference(e, source.value_at((state.y / 2) as usize), width),
        // These have a question left, and no caller comes here with one. The function asks nothing of the mode, so it needs some answer: None, as
        // for an entry outside the width.
        Mode::Waiting(_) | Mode::Swapping { .. } | Mode::Choosing { .. } => None,
    }
}
