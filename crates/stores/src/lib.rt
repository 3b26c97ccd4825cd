// Stores in lent columns, and their view, which is read only: what publishes terminals, reads a value, finds zero, and wipes.
#![tactic(auto)]

ghost use Rattle.std.specs.Prelude.{◌≡◌, ◌+◌, ◌*◌, ◌-◌, ◌≤◌, length};
ghost use Rattle.stores.specs.Columns.{columns_of, viewed, value_columns, wiped, SameColumns, NodeColumns};
ghost use Rattle.stores.specs.Columns.{entry_of, entries_of, ValueColumns, Published, zero_ref};

use algebra::Entry;

// A store's lent columns: node i stands in slot i of `level`, `low` and `high`, value j in slot j of `a`, `b`, `c` and `d`. They lie side by
// side, since the C interface lends them so.
#[derive(Drop)]
pub struct Store<'a> {
    pub level: &'a mut [u32],
    pub low: &'a mut [u32],
    pub high: &'a mut [u32],
    pub a: &'a mut [i32],
    pub b: &'a mut [i32],
    pub c: &'a mut [i32],
    pub d: &'a mut [i32],
}

// The node columns, read only. In every crate a reference stays a number, 2·j for value j and 2·i + 1 for node i: the C interface lends the
// columns that hold them as numbers, and the computed table keeps them as numbers, so a type of its own would be made at each read and taken
// apart at each write. Nor would an enum be plainer where they are used: a handful of places take one apart, by a test of its lowest bit and
// by half of it, and as few make one, by twice a slot and the bit.
#[derive(Clone, Copy)]
pub struct Nodes<'a> {
    pub level: &'a [u32],
    pub low: &'a [u32],
    pub high: &'a [u32],
}

// The value columns, read only.
#[derive(Clone, Copy)]
pub struct Values<'a> {
    pub a: &'a [i32],
    pub b: &'a [i32],
    pub c: &'a [i32],
    pub d: &'a [i32],
}

// A store's columns, read only.
#[derive(Clone, Copy)]
pub struct View<'a> {
    pub nodes: Nodes<'a>,
    pub values: Values<'a>,
}

// The nodes and values that a store holds, in its columns' first slots.
#[derive(Clone, Copy, PartialEq, Eq, Debug, Default)]
pub struct Used {
    pub nodes: u32,
    pub values: u32,
}

impl Used {
    // The reference to the last of the nodes, which is the root of a store's diagram.
    pub fn root(self) -> u32
        requires { (1 ≤ self.nodes) × (self.nodes ≤ 65536) }
        ensures { result ≡ 2 * (self.nodes - 1) + 1 }
    {
        2 * (self.nodes - 1) + 1
    }
}

impl Store<'_> {
    // The columns as they stand, to be read.
    pub fn view(&self) -> View<'_>
        ensures { viewed result ≡ columns_of self.now }
    {
        View {
            nodes: Nodes {
                level: self.level,
                low: self.low,
                high: self.high,
            },
            values: Values {
                a: self.a,
                b: self.b,
                c: self.c,
                d: self.d,
            },
        }
    }

    // The terminals go into the first slots of the value columns; the slots past them stay, and so do the node columns.
    pub fn publish(&mut self, terminals: &[Entry])
        requires { ValueColumns (columns_of self.old) (length terminals.now) }
        ensures published { Published terminals.now (columns_of self.old) (columns_of self.new) }
        ensures same_columns { SameColumns self.old self.new }
    {
        for (j, x) in terminals.iter().enumerate() {
            self.a[j] = x.a;
            self.b[j] = x.b;
            self.c[j] = x.c;
            self.d[j] = x.d;
        }
    }

    // The columns' slots from the counts of used ones on become 0.
    pub fn wipe(&mut self, nodes: usize, values: usize)
        requires { NodeColumns (columns_of self.old) nodes × ValueColumns (columns_of self.old) values }
        ensures wiped { columns_of self.new ≡ wiped nodes values (columns_of self.old) }
        ensures same_columns { SameColumns self.old self.new }
    {
        self.level[nodes..].fill(0);
        self.low[nodes..].fill(0);
        self.high[nodes..].fill(0);
        self.a[values..].fill(0);
        self.b[values..].fill(0);
        self.c[values..].fill(0);
        self.d[values..].fill(0);
    }
}

impl Values<'_> {
    // The entry in slot j of the value columns.
    pub fn value_at(&self, j: usize) -> Entry
        requires { ValueColumns (value_columns self.now) (j + 1) }
        ensures { result ≡ entry_of (value_columns self.now) j }
    {
        Entry {
            a: self.a[j],
            b: self.b[j],
            c: self.c[j],
            d: self.d[j],
        }
    }

    // The reference of zero among the first `used` entries, if it is there.
    pub fn zero(&self, used: u32) -> Option<u32>
        requires { (used ≤ 65536) × ValueColumns (value_columns self.now) used }
        ensures { result ≡ zero_ref (entries_of (value_columns self.now) used) }
    {
        (0..used)
            .find(|j| self.value_at(*j as usize) == Entry::default())
            .map(|j| 2 * j)
    }
}
