// The cofactors of a reference in a store's node columns: its child by a bit of a level.
#![tactic(auto)]

ghost use Rattle.std.specs.Prelude.{◌≡◌};
ghost use Rattle.cofactors.specs.Slots.{InNodes, cofactor};

use stores::Nodes;

// The child of a reference by the bit of a level: the reference itself where it does not ask for it.
#[inline]
pub fn child(nodes: &Nodes<'_>, level: u32, bit: bool, reference: u32) -> u32
    requires { InNodes nodes.now.level.now nodes.now.low.now nodes.now.high.now reference }
    ensures { result ≡ cofactor nodes.now.level.now nodes.now.low.now nodes.now.high.now level bit reference }
{
    if reference % 2 == 0 {
        return reference;
    }
    let i = (reference / 2) as usize;
    if nodes.level[i] != level {
        return reference;
    }
    if bit { nodes.high[i] } else { nodes.low[i] }
}
