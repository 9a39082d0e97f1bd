// The node graph and the list to renumber by (W-212), judged: 31 and 32, then 73, 70, 72, 71 and 74. The search of `node_graph`
// leaves its marks in the first run of words. `places` then keeps the place of each node in the second run. Each test looks at
// each number of the list once.
#![tactic(auto)]

mod places;

ghost use Rattle.std.specs.Prelude.{◌≡◌, ◌+◌, ◌*◌, ◌≤◌, ◌<◌, length};
ghost use Rattle.record.specs.Nodes.{node_size};
ghost use Rattle.node.specs.Nodes.{subsector_bit, root};
ghost use Rattle.node_graph.specs.Looks.{mark_of};
ghost use Rattle.node_graph.specs.Searching.{Searchable, Explored};
ghost use Rattle.renumber_order.specs.Orders.{last_ok, children_ok, late_check};
ghost use Rattle.renumber_order.specs.Judging.{Marks, Ordered, OrderJudged, RenumberJudged, ChildrenPlaced, before_ok, both_before};

use node::Choice;
use node_graph::NodeGraph;
use record::Node;
use refusal::Refusal;

// 31 and 32, then the list. The lump and its count come apart, as `node_graph::judge` takes them; below they are one `NodeGraph`.
pub fn judge_graph(
    nodes: &[u8],
    count: usize,
    words: &mut [u16],
    order: &[u16],
    room: usize,
) -> Result<(), Refusal>
    requires { Searchable nodes.now count words.old }
    ensures { RenumberJudged nodes.now count order.now room words.new result }
{
    let graph = NodeGraph { nodes, count };
    let depth = graph.explore(words)?;
    judge_explored(&graph, words, depth, order, room)
}

// Without a loop: the marked nodes are the reached ones.
fn judge_explored(
    graph: &NodeGraph,
    words: &mut [u16],
    depth: usize,
    order: &[u16],
    room: usize,
) -> Result<(), Refusal>
    requires { (2 * graph.now.count ≤ length words.old) × Explored graph.now.nodes.now (mark_of words.old) depth }
    ensures { RenumberJudged graph.now.nodes.now graph.now.count order.now room words.new result }
{
    if node_sharing::shares(graph.nodes, graph.count, words) {
        return Err(Refusal::NodeShared);
    }
    judge_order(graph, words, order, room)
}

// 73 and 70, then the rest.
fn judge_order(
    graph: &NodeGraph,
    words: &mut [u16],
    order: &[u16],
    room: usize,
) -> Result<(), Refusal>
    requires { (2 * graph.now.count ≤ length words.old) × Marks graph.now.nodes.now graph.now.count words.old }
    ensures { OrderJudged graph.now.nodes.now graph.now.count order.now room words.new result }
{
    if order.len() != places::marked_count(words, graph.count) {
        return Err(Refusal::RenumberLength);
    }
    places::empty_places(words, graph.count);
    if !places::fill_places(words, graph.count, order) {
        return Err(Refusal::RenumberNodes);
    }
    judge_places(graph, words, order, room)
}

// 72, 71 and 74.
fn judge_places(graph: &NodeGraph, words: &[u16], order: &[u16], room: usize) -> Result<(), Refusal>
    requires { Ordered graph.now.nodes.now graph.now.count words.now order.now }
    ensures { result ≡ late_check graph.now.nodes.now order.now room }
{
    if !root_last(order, graph.count) {
        return Err(Refusal::RenumberRoot);
    }
    if !children_first(graph, words, order) {
        return Err(Refusal::RenumberChild);
    }
    refusal::pass_if(Node::SIZE * order.len() <= room, Refusal::RenumberRoom)
}

fn root_last(order: &[u16], count: usize) -> bool
    requires { 1 ≤ count }
    ensures { result ≡ last_ok (root count) order.now }
{
    match order.last() {
        Some(&last) => last as usize == count - 1,
        None => true,
    }
}

fn children_first(graph: &NodeGraph, words: &[u16], order: &[u16]) -> bool
    requires { Ordered graph.now.nodes.now graph.now.count words.now order.now }
    ensures { result ≡ children_ok graph.now.nodes.now order.now (length order.now) }
{
    for (i, &node) in order.iter().enumerate() {
        if !both_before(graph.nodes, graph.count, words, i, node as usize) {
            return false;
        }
    }
    true
}

// Both children of a node stand before place i, or are subsectors.
fn both_before(nodes: &[u8], count: usize, words: &[u16], i: usize, node: usize) -> bool
    requires { (node_size * node + node_size ≤ length nodes.now) × ChildrenPlaced nodes.now count words.now node }
    ensures { result ≡ both_before nodes.now words.now count i node }
{
    let right = before_ok(words, count, i, node::child_of(nodes, node, Choice::Right));
    let left = before_ok(words, count, i, node::child_of(nodes, node, Choice::Left));
    right & left
}

fn before_ok(words: &[u16], count: usize, i: usize, child: usize) -> bool
    requires { child < subsector_bit → count + child < length words.now }
    ensures { result ≡ before_ok words.now count i child }
{
    if node::SUBSECTOR_BIT <= child {
        return true;
    }
    (words[count + child] as usize) < i
}
