// The draw order: for a camera point the subsectors of a node graph, front first (W-208). The walk of a child and the walk of a
// node call each other, and the nodes that may still be passed fall with each node.
#![tactic(auto)]

ghost use Rattle.std.specs.Prelude.{◌≡◌, ◌+◌, ◌*◌, ◌<◌, ◌≤◌, length};
ghost use Rattle.record.specs.Nodes.{node_size};
ghost use Rattle.node_descent.specs.Side.{side_at};
ghost use Rattle.draw_order.specs.Lists.{other, node_order, child_order, root_order, order_check};
ghost use Rattle.draw_order.specs.Promises.{order_answer, words_after_listing, Drawn};
ghost use Rattle.draw_order.specs.Inner.{Walked};

use node::Choice;
use record::Node;
use refusal::Refusal;

// The most nodes that choices from the root may pass.
const MOST_PASSED: usize = 256;

// The subsectors for the point (x, y), front first, over any NODES lump and for any count of subsectors. 40, 41 and 45 leave the
// words as found; 42, 44 and 46 leave the first nodes + 1 zero.
pub fn draw_order(
    nodes: &[u8],
    subsectors: usize,
    x: i16,
    y: i16,
    words: &mut [u16],
) -> Result<usize, Refusal>
    ensures { Drawn nodes.now subsectors x y words.old result words.new }
{
    check_lent(nodes, subsectors, words.len())?;
    let camera = Camera {
        nodes,
        count: nodes.len() / Node::SIZE,
        subsectors,
        x,
        y,
    };
    camera.list_all(words)
}

// 40, 41 and 45.
fn check_lent(nodes: &[u8], subsectors: usize, lent: usize) -> Result<(), Refusal>
    ensures { result ≡ order_check nodes.now subsectors lent }
{
    let count = nodes.len() / Node::SIZE;
    refusal::pass_if(node_descent::nodes_ok(nodes), Refusal::DescentNodes)?;
    refusal::pass_if(
        node_descent::subsectors_ok(count, subsectors),
        Refusal::DescentSubsectors,
    )?;
    refusal::pass_if(count + 1 <= lent, Refusal::OrderWords)
}

// A camera point over whole nodes, of which there are at most 32,767.
#[derive(Clone, Copy)]
struct Camera<'a> {
    nodes: &'a [u8],
    count: usize,
    subsectors: usize,
    x: i16,
    y: i16,
    ghost whole: { node_size * count ≡ length nodes.now },
    ghost most: { count ≤ 32767 },
}

// The words are lent apart, since the walk changes them, and a node is the walk's at each call: so the methods ask for both.
impl Camera<'_> {
    // The list in the first words, and these zero where it is refused.
    fn list_all(&self, words: &mut [u16]) -> Result<usize, Refusal>
        requires { self.now.count + 1 ≤ length words.old }
        ensures value { result ≡ order_answer (root_order self.now.nodes.now self.now.subsectors self.now.x self.now.y) }
        ensures words_after { words.new ≡ words_after_listing self.now.nodes.now
            (root_order self.now.nodes.now self.now.subsectors self.now.x self.now.y) words.old }
    {
        let used = self.count + 1;
        let listed = self.walk_root(&mut words[..used]);
        if listed.is_err() {
            node_graph::clear(words, used);
        }
        listed
    }

    // The walk of the root. Without nodes subsector 0 is alone.
    fn walk_root(&self, words: &mut [u16]) -> Result<usize, Refusal>
        requires { length words.old ≡ self.now.count + 1 }
        ensures { Walked (root_order self.now.nodes.now self.now.subsectors self.now.x self.now.y) 0 words.old result words.new }
    {
        if self.count == 0 {
            words[0] = 0;
            return Ok(1);
        }
        self.walk_node(words, 0, MOST_PASSED, self.count - 1)
    }

    // The walk of a node, where it and the nodes below it may be `more`: the child on the point's side, then the other one.
    #[cycle(walk_child_walk_node)]
    fn walk_node(
        &self,
        words: &mut [u16],
        at: usize,
        more: usize,
        node: usize,
    ) -> Result<usize, Refusal>
        requires { (length words.old ≡ self.now.count + 1) × (node < self.now.count) }
        ensures { Walked (node_order self.now.nodes.now self.now.subsectors self.now.x self.now.y more at node) at words.old
            result words.new }
    {
        if more == 0 {
            return Err(Refusal::OrderDepth);
        }
        let less = more - 1;
        let near = self.side_at(node);
        let next = self.walk_child(words, at, less, node, near)?;
        self.walk_child(words, next, less, node, other(near))
    }

    fn side_at(&self, node: usize) -> Choice
        requires { node < self.now.count }
        ensures { result ≡ side_at self.now.nodes.now self.now.x self.now.y node }
    {
        node_descent::side_at(self.nodes, self.x, self.y, node)
    }

    // The walk of the child that a choice at a node leads to. It is judged when the walk comes to it.
    #[cycle(walk_child_walk_node)]
    fn walk_child(
        &self,
        words: &mut [u16],
        at: usize,
        more: usize,
        node: usize,
        choice: Choice,
    ) -> Result<usize, Refusal>
        requires { (length words.old ≡ self.now.count + 1) × (node < self.now.count) }
        ensures { Walked (child_order self.now.nodes.now self.now.subsectors self.now.x self.now.y more at node choice) at
            words.old result words.new }
    {
        let child = node::child_of(self.nodes, node, choice);
        if !node::child_ok(self.count, self.subsectors, child) {
            return Err(Refusal::DescentChild(node));
        }
        if child < node::SUBSECTOR_BIT {
            return self.walk_node(words, at, more, child);
        }
        if words.len() <= at {
            return Err(Refusal::OrderLength);
        }
        words[at] = (child - node::SUBSECTOR_BIT) as u16;
        Ok(at + 1)
    }
}

fn other(choice: Choice) -> Choice
    ensures { result ≡ other choice }
{
    match choice {
        Choice::Right => Choice::Left,
        Choice::Left => Choice::Right,
    }
}
