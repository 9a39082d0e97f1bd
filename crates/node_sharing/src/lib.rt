// Whether two of a graph's marked nodes, or the two choices at one, lead to the same child (W-202). One look at each child.
#![tactic(auto)]

ghost use Rattle.std.specs.Prelude.{◌≡◌, ◌+◌, ◌*◌, ◌<◌, ◌≤◌, length};
ghost use Rattle.node_route.specs.Heights.{repeats};
ghost use Rattle.record.specs.Nodes.{node_size};
ghost use Rattle.node_sharing.specs.Children.{child_words};
ghost use Rattle.node_sharing.specs.Inner.{Seen, Met};

use node::Choice;

// An eighth of the words that 16 bits can say.
const SEEN: usize = 8192;

// Lump and count come apart, as this lies below `NodeGraph`. Whether some child of the marked nodes is met twice. A node is marked where its word of `marks` is not 0.
pub fn shares(nodes: &[u8], count: usize, marks: &[u16]) -> bool
    requires { (node_size * count ≤ length nodes.now) × (count ≤ length marks.now) }
    ensures { result ≡ repeats (child_words nodes.now marks.now count) }
{
    let mut seen = [0; SEEN];
    for node in 0..count {
        if meets_again(nodes, marks, &mut seen, node) {
            return true;
        }
    }
    false
}

// Whether a child of the node, if that is marked, was seen before. Both are from now on.
fn meets_again(nodes: &[u8], marks: &[u16], seen: &mut [u8; SEEN], node: usize) -> bool
    requires node_size_in_bounds { (node_size * node + node_size ≤ length nodes.now) × (node < length marks.now) }
    requires seen { Seen nodes.now marks.now node seen.old }
    ensures { Met nodes.now marks.now (node + 1) seen.new result }
{
    if marks[node] == 0 {
        return false;
    }
    if bits::note(seen, node::child_of(nodes, node, Choice::Right)) {
        return true;
    }
    bits::note(seen, node::child_of(nodes, node, Choice::Left))
}
