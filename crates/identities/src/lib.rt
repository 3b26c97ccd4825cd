// The identity's reduced diagram, written into lent columns.
#![tactic(auto)]

ghost use Rattle.std.specs.Prelude.{◌≡◌, ◌+◌, ◌*◌, ◌<◌, ◌≤◌};
ghost use Rattle.stores.specs.Columns.{columns_of, written, SameColumns, NodeColumns, NodesWritten, ValueColumns};
ghost use Rattle.identities.specs.Identity.{QubitSet, identity_nodes, identity_store};

use stores::Store;

// The references of the values, which are numbers as in every store: value 0 is one, value 1 is zero.
const ONE: u32 = 0;

const ZERO: u32 = 2;

// The three nodes of a qubit of the identity, after k qubits with `below` for their root, into the slots 3k, 3k + 1 and 3k + 2: they have the
// references 6k + 1, 6k + 3 and 6k + 5. The third is the qubit's root. It asks at the level, the other two at the next one: on the diagonal
// they go on to `below`, and beside it to zero.
fn write_qubit(store: &mut Store<'_>, k: u32, level: u32, below: u32)
    requires { (k < 16) × (level < 32) × NodeColumns (columns_of store.old) (3 * k + 3) }
    ensures set { QubitSet k level below (columns_of store.old) (columns_of store.new) }
    ensures same_columns { SameColumns store.old store.new }
{
    let slot = 3 * k as usize;
    store.level[slot..slot + 3].copy_from_slice(&[level + 1, level + 1, level]);
    store.low[slot..slot + 3].copy_from_slice(&[below, ZERO, 6 * k + 1]);
    store.high[slot..slot + 3].copy_from_slice(&[ZERO, below, 6 * k + 3]);
}

// The nodes of the identity on n qubits, the last qubit first.
fn write_qubits(n: u32, store: &mut Store<'_>)
    requires { (n ≤ 16) × NodeColumns (columns_of store.old) (3 * n) }
    ensures nodes { NodesWritten (identity_nodes 0 n) (columns_of store.old) (columns_of store.new) }
    ensures same_columns { SameColumns store.old store.new }
{
    let mut root = ONE;
    for k in 0..n {
        write_qubit(store, k, 2 * (n - 1 - k), root);
        root = 6 * k + 5;
    }
}

// The reduced diagram of the identity on n qubits goes into the columns; the slots past it stay.
pub fn identity(n: u32, store: &mut Store<'_>)
    requires { (n ≤ 16) × NodeColumns (columns_of store.old) (3 * n) × ValueColumns (columns_of store.old) 2 }
    ensures written { columns_of store.new ≡ written (identity_store n) (columns_of store.old) }
    ensures same_columns { SameColumns store.old store.new }
{
    // written `..2`, the range hides from the proof what is copied
    store.a[0..2].copy_from_slice(&[0, 0]);
    store.b[0..2].copy_from_slice(&[0, 0]);
    store.c[0..2].copy_from_slice(&[0, 0]);
    store.d[0..2].copy_from_slice(&[1, 0]);
    write_qubits(n, store);
}
