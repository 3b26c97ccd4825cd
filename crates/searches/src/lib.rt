// The verdict on a miter, and any of its entries, read off the store that holds its reduced diagram.
#![tactic(auto)]

ghost use Rattle.std.specs.Prelude.{◌≡◌, ◌+◌, ◌-◌, ◌/◌, ◌≤◌};
ghost use Rattle.diagrams.specs.Diagram.{node};
ghost use Rattle.stores.specs.Columns.{viewed, value_columns, entry_of, ValueColumns};
ghost use Rattle.miters.specs.Report.{verdict};
ghost use Rattle.cofactors.specs.Slots.{store_in, bits, given};
ghost use Rattle.places.specs.Ready.{UsedNodes};
ghost use Rattle.searches.specs.Ready.{reference_at, Searchable};

use algebra::Entry;
use miters::{Difference, Verdict};
use places::{Block, Task};
use stores::{Nodes, Used, Values, View};

// The reference to the value at a row and a column: down from the last node by a row bit and a column bit of each qubit, qubit 0 first.
fn reference_at(nodes: &Nodes<'_>, used: Used, n: u32, row: u32, column: u32) -> u32
    requires counts { (1 ≤ used.nodes) × (used.nodes ≤ 65536) × (n ≤ 16) }
    requires held { UsedNodes nodes.now used.nodes }
    ensures { result ≡ reference_at nodes.now used.nodes n row column }
{
    let mut r = used.root();
    for q in 0..n {
        let shift = n - q - 1;
        r = cofactors::child(nodes, 2 * q, (row >> shift) % 2 == 1, r);
        r = cofactors::child(nodes, 2 * q + 1, (column >> shift) % 2 == 1, r);
    }
    r
}

// The entry of a reference to a value.
fn entry_of(values: &Values<'_>, reference: u32) -> Entry
    requires { ValueColumns (value_columns values.now) (reference / 2 + 1) }
    ensures { result ≡ entry_of (value_columns values.now) (reference / 2) }
{
    values.value_at((reference / 2) as usize)
}

// The verdict that the diagram in the first slots of the columns gives. Its root is the last node.
pub fn read_verdict(store: &View<'_>, used: Used, n: u32) -> Verdict
    requires { Searchable n used.nodes used.values (viewed store.now) }
    ensures { result ≡ verdict n (given (store_in used.nodes used.values (viewed store.now)) (node (used.nodes - 1))) }
{
    let levels = 2 * n;
    let corner = reference_at(&store.nodes, used, n, 0, 0);
    let zero = store.values.zero(used.values);
    let task = Task {
        nodes: used.nodes,
        levels,
        corner,
        zero,
    };
    let factor = entry_of(&store.values, corner);
    let block = Block {
        left: levels,
        root: used.root(),
        next: 0,
        after: 0,
    };
    match places::ask_row(&store.nodes, task, block) {
        None => Verdict::Equal(factor),
        Some(place) => Verdict::Different(Difference {
            row: place.row,
            column: place.column,
            entry: entry_of(&store.values, place.value),
            corner: factor,
        }),
    }
}

// The entry at a row and a column. No program asks for one yet: that each entry can be read off a store is one of the things promised.
pub fn entry_at(store: &View<'_>, used: Used, n: u32, row: u32, column: u32) -> Entry
    requires { Searchable n used.nodes used.values (viewed store.now) }
    ensures { result ≡ given (store_in used.nodes used.values (viewed store.now)) (node (used.nodes - 1)) (bits n row) (bits n column) }
{
    let reference = reference_at(&store.nodes, used, n, row, column);
    entry_of(&store.values, reference)
}
