// The renumbered nodes, written. Everything is judged, and there is room.
ghost use Rattle.std.specs.Prelude.{◌≡◌, ◌++◌, ◌+◌, ◌*◌, ◌≤◌, ◌<◌, length};
ghost use Rattle.std.proofs.lemmas.List.Edits.{sets};
ghost use Rattle.record.specs.Nodes.{node_size};
ghost use Rattle.node.specs.Nodes.{subsector_bit};
ghost use Rattle.renumber.specs.Renumbering.{renumbered};
ghost use Rattle.renumber.specs.Inner.{renamed_by, node_by, Writable};
ghost use Rattle.renumber_order.specs.Judging.{ChildrenPlaced};

use node::Choice;
use node_graph::NodeGraph;
use record::Node;

// The bytes of a node before its children.
const LINE_SIZE: usize = 24;

// One node after the other, in the list's order.
pub fn write_nodes(graph: &NodeGraph, words: &[u16], order: &[u16], out: &mut [u8])
    requires { Writable graph.now.nodes.now graph.now.count words.now order.now (length out.old) }
    ensures { out.new ≡ sets out.old 0 (renumbered graph.now.nodes.now order.now) }
{
    for (i, &node) in order.iter().enumerate() {
        write_node(graph, words, node as usize, out, Node::SIZE * i);
    }
}

// A node's line and boxes as they are, and its children by their new numbers.
fn write_node(graph: &NodeGraph, words: &[u16], node: usize, out: &mut [u8], at: usize)
    requires node_size_in_bounds { (node_size * node + node_size ≤ length graph.now.nodes.now) × (at + node_size ≤ length out.old) }
    requires children_placed { ChildrenPlaced graph.now.nodes.now graph.now.count words.now node }
    ensures { out.new ≡ sets out.old at
        (node_by graph.now.nodes.now words.now graph.now.count node) }
{
    let from = Node::SIZE * node;
    out[at..at + LINE_SIZE].copy_from_slice(&graph.nodes[from..from + LINE_SIZE]);
    let right = renamed(
        words,
        graph.count,
        node::child_of(graph.nodes, node, Choice::Right),
    );
    let left = renamed(
        words,
        graph.count,
        node::child_of(graph.nodes, node, Choice::Left),
    );
    endian::put_u16(out, at + LINE_SIZE, right);
    endian::put_u16(out, at + LINE_SIZE + 2, left);
}

// A node's new number; a subsector as it is.
fn renamed(words: &[u16], count: usize, child: usize) -> u16
    requires { (child < 65536) × (child < subsector_bit → count + child < length words.now) }
    ensures { result ≡ renamed_by words.now count child }
{
    if node::SUBSECTOR_BIT <= child {
        return child as u16;
    }
    words[count + child]
}
