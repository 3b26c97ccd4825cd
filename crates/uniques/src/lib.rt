// Unique tables, which find or append nodes and terminals.
//
// Node i stands in slot i of three columns, terminal j in slot j of one. An index beside them has hash chains: for a table of
// N slots, slot i has the next of element i, slot N + h the head of the chain of hash h.
// A slot has 1 + the number of an element, or 0 where the chain ends: memory is fixed, so a chain is numbers in a slice.
//
// The two tables are no instances of one generic type: nodes stand in three lent columns and terminals in one slice, and only nodes can be
// alike. A trait for them would have a member for each line in which they differ. What they share are their chains: `search` and `link`.
#![tactic(auto)]

ghost use Rattle.std.specs.Prelude.{◌≡◌, ◌+◌, ◌^◌, ◌<◌, length, set};
ghost use Rattle.diagrams.specs.Diagram.{branch, ref_of, same_node, same_entry};
ghost use Rattle.uniques.specs.UniqueTable.{part_of, spread, Falls, Met, found};
ghost use Rattle.uniques.specs.UniqueTable.{table_node, node_chain, table_nodes, NodeTableHeld, SameNodeTable, NodeMade};
ghost use Rattle.uniques.specs.UniqueTable.{lifted, value_in, value_hash, value_chain, table_values, ValueTableHeld, SameValueTable, ValueMade};

use algebra::Entry;

// By its lowest 16 bits, a number is given its part of `size`: a number below it.
#[inline]
fn part_of(mixed: u64, size: u32) -> usize
    ensures { result ≡ part_of mixed size }
{
    (mixed % 65536 * u64::from(size) / 65536) as usize
}

// Three numbers spread over `size`: a number below it.
#[inline]
pub fn spread(x: u32, y: u32, z: u64, size: u32) -> usize
    ensures { result ≡ spread x y z size }
{
    let mixed = u64::from(x % 131072) * 679488061819
        + u64::from(y % 131072) * 836218895663
        + z % 1024 * 923031386221;
    part_of(mixed / 1048576, size)
}

// The number of the first element that the test takes, along the chain that begins with `first`. A loop by `while`, since each slot says what
// comes next, and nothing counts the turns.
#[inline]
fn search<F: Fn(u32) -> bool>(index: &[u32], first: u32, is: F) -> Option<u32>
    requires falls { Falls index.now first }
    requires tested { (i : _) → i < first → F.pre is i }
    ensures { Met (F.post is) index.now first result }
{
    let mut next = first;
    while let Some(i) = next.checked_sub(1) {
        if is(i) {
            return Some(i);
        }
        next = index[i as usize];
    }
    None
}

// Element i becomes the first of the chain that has its head in slot `head`, and began with `first`.
#[inline]
fn link(index: &mut [u32], head: usize, first: u32, i: u32)
    requires { (i < length index.old) × (head < length index.old) × (i + 1 < 2 ^ 32) }
    ensures { index.new ≡ set (set index.old i first) head (i + 1) }
{
    index[i as usize] = first;
    index[head] = i + 1;
}

// A node's three numbers.
#[derive(Clone, Copy, PartialEq, Eq, Debug)]
pub struct Node {
    pub level: u32,
    pub low: u32,
    pub high: u32,
}

// The nodes: the first `used` slots of the columns have one each. The index has `heads` chains. The index, `heads` and `used` are no struct of
// their own that both tables have: of slices lent through a struct within a struct, the function that lends them is not told what they become.
#[derive(Drop)]
pub struct NodeTable<'a> {
    pub level: &'a mut [u32],
    pub low: &'a mut [u32],
    pub high: &'a mut [u32],
    pub index: &'a mut [u32],
    pub heads: u32,
    pub used: u32,
}

impl NodeTable<'_> {
    // Node i.
    #[inline]
    fn node_at(&self, i: usize) -> Node
        requires { (i < length self.now.level.now) × (i < length self.now.low.now) × (i < length self.now.high.now) }
        ensures { branch result.level (ref_of result.low) (ref_of result.high) ≡ table_node self.now i }
    {
        Node {
            level: self.level[i],
            low: self.low[i],
            high: self.high[i],
        }
    }

    // The slot of a node: a search along its chain, which begins with `first`.
    fn find(&self, first: u32, node: Node) -> Option<u32>
        requires held { NodeTableHeld self.now }
        requires chain { first ≡ node_chain self.now (branch node.level (ref_of node.low) (ref_of node.high)) }
        ensures { result ≡ found same_node (branch node.level (ref_of node.low) (ref_of node.high)) (table_nodes self.now) }
    {
        let is = |i: u32|
            requires { (i < length self.now.level.now) × (i < length self.now.low.now) × (i < length self.now.high.now) }
            ensures { result ≡ same_node (table_node self.entry.now i) (branch node.level (ref_of node.low) (ref_of node.high)) }
        { self.node_at(i as usize) == node };
        search(self.index, first, is)
    }

    // The reference of a node, found or put into the next slot; `low` itself if `low` is `high`; None if it is not there and no slot is left.
    pub fn make(&mut self, node: Node) -> Option<u32>
        requires { NodeTableHeld self.old }
        ensures same { SameNodeTable self.old self.new }
        ensures made { NodeMade self.old self.new (branch node.level (ref_of node.low) (ref_of node.high)) result }
    {
        if node.low == node.high {
            return Some(node.low);
        }
        let head = self.level.len()
            + spread(node.low, node.high, u64::from(node.level), self.heads);
        let first = self.index[head];
        if let Some(i) = self.find(first, node) {
            return Some(2 * i + 1);
        }
        let i = self.used;
        let slot = i as usize;
        if slot == self.level.len() {
            return None;
        }
        self.level[slot] = node.level;
        self.low[slot] = node.low;
        self.high[slot] = node.high;
        link(self.index, head, first, i);
        self.used = i + 1;
        Some(2 * i + 1)
    }
}

// x + 2^31.
fn lifted(x: i32) -> u64
    ensures { (result ≡ lifted x) × (result < 2 ^ 32) }
{
    (i64::from(x) + 2147483648) as u64
}

// A number below `heads`, by which terminals are spread over the chains.
fn hash_value(heads: u32, terminal: Entry) -> usize
    ensures { result ≡ value_hash heads terminal }
{
    let mixed = lifted(terminal.a) * 506952121
        + lifted(terminal.b) * 313699893
        + lifted(terminal.c) * 384368313
        + lifted(terminal.d) * 461845907;
    part_of(mixed / 16777216, heads)
}

// The terminals: each of the first `used` slots has one. The index has `heads` chains.
#[derive(Drop)]
pub struct ValueTable<'a> {
    pub terminals: &'a mut [Entry],
    pub index: &'a mut [u32],
    pub heads: u32,
    pub used: u32,
}

impl ValueTable<'_> {
    // The slot of a terminal: a search along its chain, which begins with `first`.
    fn find(&self, first: u32, terminal: Entry) -> Option<u32>
        requires held { ValueTableHeld self.now }
        requires chain { first ≡ value_chain self.now terminal }
        ensures { result ≡ found same_entry terminal (table_values self.now) }
    {
        let is = |j: u32|
            requires { j < length self.now.terminals.now }
            ensures { result ≡ same_entry (value_in self.entry.now.terminals.now j) terminal }
        { self.terminals[j as usize] == terminal };
        search(self.index, first, is)
    }

    // The reference of a terminal, found or put into the next slot; None if it is not there and no slot is left.
    pub fn make(&mut self, terminal: Entry) -> Option<u32>
        requires { ValueTableHeld self.old }
        ensures same { SameValueTable self.old self.new }
        ensures made { ValueMade self.old self.new terminal result }
    {
        let room = self.terminals.len();
        let head = room + hash_value(self.heads, terminal);
        let first = self.index[head];
        if let Some(j) = self.find(first, terminal) {
            return Some(2 * j);
        }
        let j = self.used;
        let slot = j as usize;
        if slot == room {
            return None;
        }
        self.terminals[slot] = terminal;
        link(self.index, head, first, j);
        self.used = j + 1;
        Some(2 * j)
    }
}
