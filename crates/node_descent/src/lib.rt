// The descent of a point to its subsector; `side` says on which side of a line the point is. The definitions are in specs/.
#![tactic(auto)]

mod side;

ghost use Rattle.std.specs.Prelude.{◌≡◌, ◌+◌, ◌*◌, ◌≤◌, ◌<◌, length};
ghost use Rattle.record.specs.Nodes.{node_size};
ghost use Rattle.node.specs.Nodes.{subsector_bit, root};
ghost use Rattle.node_descent.specs.Side.{chosen};
ghost use Rattle.node_descent.specs.Walks.{nodes_ok, subsectors_ok, end_at, descent_from, descent};

use node::{Choice, SUBSECTOR_BIT};
use record::Node;
use refusal::Refusal;
pub use side::side_at;

// The most nodes, and the most subsectors.
const MOST: usize = 32767;

// Where the descent of a point ends: the subsector, and how many nodes were passed.
#[derive(Clone, Copy)]
pub struct Descent {
    pub subsector: usize,
    pub count: usize,
}

// The descent of the point (x, y) over any NODES lump, for any count of subsectors.
pub fn descend(nodes: &[u8], subsectors: usize, x: i16, y: i16) -> Result<Descent, Refusal>
    ensures { result ≡ descent nodes.now subsectors x y }
{
    refusal::pass_if(nodes_ok(nodes), Refusal::DescentNodes)?;
    let count = nodes.len() / Node::SIZE;
    refusal::pass_if(subsectors_ok(count, subsectors), Refusal::DescentSubsectors)?;
    descend_from_root(nodes, count, subsectors, x, y)
}

pub fn nodes_ok(nodes: &[u8]) -> bool
    ensures { result ≡ nodes_ok nodes.now }
{
    (nodes.len() % Node::SIZE == 0) & (nodes.len() / Node::SIZE <= MOST)
}

pub fn subsectors_ok(count: usize, subsectors: usize) -> bool
    ensures { result ≡ subsectors_ok count subsectors }
{
    (1 <= subsectors) & (subsectors <= MOST) & ((0 < count) | (subsectors == 1))
}

// Lump and count come apart: only the size of NODES is judged here, so it is no `NodeGraph`. The walk from the root: a choice at each node, and no more choices than nodes.
fn descend_from_root(
    nodes: &[u8],
    count: usize,
    subsectors: usize,
    x: i16,
    y: i16,
) -> Result<Descent, Refusal>
    requires { node_size * count ≡ length nodes.now }
    ensures { result ≡ descent_from nodes.now subsectors x y count 0 (root count) }
{
    let mut word = root_word(count);
    for passed in 0..count {
        if SUBSECTOR_BIT <= word {
            return Ok(end_at(word, passed));
        }
        let next = chosen_child(nodes, x, y, word);
        refusal::pass_if(
            node::child_ok(count, subsectors, next),
            Refusal::DescentChild(word),
        )?;
        word = next;
    }
    if word < SUBSECTOR_BIT {
        return Err(Refusal::DescentLoop);
    }
    Ok(end_at(word, count))
}

// The subsector that a word names.
fn end_at(word: usize, count: usize) -> Descent
    requires { subsector_bit ≤ word }
    ensures { result ≡ end_at word count }
{
    Descent {
        subsector: word - SUBSECTOR_BIT,
        count,
    }
}

fn root_word(count: usize) -> usize
    ensures { result ≡ root count }
{
    if count == 0 { SUBSECTOR_BIT } else { count - 1 }
}

// Both children are read before the choice is known: they come with the line, and the choice waits for none of them.
fn chosen_child(nodes: &[u8], x: i16, y: i16, node: usize) -> usize
    requires { node_size * node + node_size ≤ length nodes.now }
    ensures { result ≡ chosen nodes.now x y node }
{
    let right = node::child_of(nodes, node, Choice::Right);
    let left = node::child_of(nodes, node, Choice::Left);
    match side::side_at(nodes, x, y, node) {
        Choice::Right => right,
        Choice::Left => left,
    }
}
