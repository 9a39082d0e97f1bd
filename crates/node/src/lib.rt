// A node's two children, and whether they are in range. The definitions are in specs/.
#![tactic(auto)]

ghost use Rattle.std.specs.Prelude.{◌≡◌, ◌+◌, ◌*◌, ◌≤◌, ◌<◌, length};
ghost use Rattle.endian.specs.Unsigned.{u16_at};
ghost use Rattle.record.specs.Nodes.{node_size};
ghost use Rattle.node.specs.Nodes.{child_of, child_ok, node_ok};

use record::Node;

// A word from here on is a subsector's, a word below it a node's. A child stays the format's own number and is no enum: the theorems
// on routes and descents speak of it.
pub const SUBSECTOR_BIT: usize = 32768;

// A choice at a node: which child is taken.
#[derive(Clone, Copy, PartialEq, Eq)]
pub enum Choice {
    Right,
    Left,
}

// The word of a node's child.
pub fn child_of(nodes: &[u8], node: usize, choice: Choice) -> usize
    requires { node_size * node + node_size ≤ length nodes.now }
    ensures { (result ≡ child_of nodes.now node choice) × (result < 65536) }
{
    let at = Node::SIZE * node;
    match choice {
        Choice::Right => word_at(nodes, at + 24),
        Choice::Left => word_at(nodes, at + 26),
    }
}

fn word_at(nodes: &[u8], at: usize) -> usize
    requires { at + 1 < length nodes.now }
    ensures { (result ≡ u16_at nodes.now at) × (result < 65536) }
{
    endian::u16_at(nodes, at) as usize
}

// A child's word is in range: a node of the lump, or one of the subsectors.
pub fn child_ok(count: usize, subsectors: usize, word: usize) -> bool
    ensures { result ≡ child_ok count subsectors word }
{
    if word < SUBSECTOR_BIT {
        word < count
    } else {
        word - SUBSECTOR_BIT < subsectors
    }
}

// Both children of a node are in range.
pub fn node_ok(nodes: &[u8], subsectors: usize, node: usize) -> bool
    requires { node_size * node + node_size ≤ length nodes.now }
    ensures { result ≡ node_ok nodes.now subsectors node }
{
    let count = nodes.len() / Node::SIZE;
    let right = child_ok(count, subsectors, child_of(nodes, node, Choice::Right));
    let left = child_ok(count, subsectors, child_of(nodes, node, Choice::Left));
    right & left
}
