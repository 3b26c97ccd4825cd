// The lowest place of a diagram that forbids equality: a row walker and a column walker that call each other, the levels left falling.
// They are two functions, since the paper names that form for this place.
#![tactic(auto)]

ghost use Rattle.std.specs.Prelude.{◌≡◌, ◌<◌};
ghost use Rattle.places.specs.Search.{is_settled, half, row_sought, column_sought};
ghost use Rattle.places.specs.Ready.{Ready, RowReady, ColumnReady};

use stores::Nodes;

// What is searched: the used nodes, the levels, and the references to the corner's value and, if there is one, to zero. The nodes are for the
// contracts alone, which say that each reference met is to one of them; they are no ghost field, since those of a plain struct state facts
// and hold no numbers.
#[derive(Clone, Copy)]
pub struct Task {
    pub nodes: u32,
    pub levels: u32,
    pub corner: u32,
    pub zero: Option<u32>,
}

// A place that forbids equality, with the reference to its value.
#[derive(Clone, Copy)]
pub struct Place {
    pub row: u32,
    pub column: u32,
    pub value: u32,
}

// A block of the diagram: what is behind the reference `root`, with so many levels left. One of `next` and `after` has the bits of the row
// before it, the other those of the column; its first bit is one of `next`, and then the two take turns. It is on the diagonal if they are
// one number.
#[derive(Clone, Copy)]
pub struct Block {
    pub left: u32,
    pub root: u32,
    pub next: u32,
    pub after: u32,
}

impl Block {
    // Nothing is to be sought in it: off the diagonal it is the zero terminal, or at a place on it the corner's value.
    fn settled(self, task: Task) -> bool
        ensures { result ≡ is_settled task self }
    {
        if self.next != self.after {
            return task.zero == Some(self.root);
        }
        self.left == 0 && self.root == task.corner
    }

    // Its half by its first bit.
    fn half(self, nodes: &Nodes<'_>, task: Task, bit: bool) -> Block
        requires { Ready nodes.now task self × (0 < self.left) }
        ensures { result ≡ half nodes.now task self bit }
    {
        Block {
            left: self.left - 1,
            root: cofactors::child(nodes, task.levels - self.left, bit, self.root),
            next: self.after,
            after: 2 * self.next + u32::from(bit),
        }
    }
}

// The lowest place in a block whose first bit is one of the row.
//
// A block off the diagonal is searched only where it is not zero, so it is one way down. On the diagonal the high block is not
// searched where it is the low one, in which nothing was found; where it is another, it has a place that forbids, since a
// reduced diagram has one reference for a block. So a level costs one clean way down at the most, beside the search that goes on.
//
// What is found in the low half is returned by hand: in an or_else the closure would be one of the functions that call each other, with a
// contract and a measure of its own, which are longer than what they replace.
#[cycle(ask_column_ask_row)]
pub fn ask_row(nodes: &Nodes<'_>, task: Task, block: Block) -> Option<Place>
    requires { RowReady nodes.now task block }
    ensures { result ≡ row_sought nodes.now task block }
{
    if block.settled(task) {
        return None;
    }
    if block.left == 0 {
        return Some(Place {
            row: block.next,
            column: block.after,
            value: block.root,
        });
    }
    let low = block.half(nodes, task, false);
    if let Some(place) = ask_column(nodes, task, low, None) {
        return Some(place);
    }
    let clean = low.half(nodes, task, false).root;
    ask_column(nodes, task, block.half(nodes, task, true), Some(clean))
}

// The same where the first bit is one of the column. Nothing is found in the high half if its root is `clean`.
#[cycle(ask_column_ask_row)]
fn ask_column(nodes: &Nodes<'_>, task: Task, block: Block, clean: Option<u32>) -> Option<Place>
    requires { ColumnReady nodes.now task block clean }
    ensures { result ≡ column_sought nodes.now task block }
{
    let low = block.half(nodes, task, false);
    if let Some(place) = ask_row(nodes, task, low) {
        return Some(place);
    }
    let high = block.half(nodes, task, true);
    if clean == Some(high.root) {
        return None;
    }
    ask_row(nodes, task, high)
}
