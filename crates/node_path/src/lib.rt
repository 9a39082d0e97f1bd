// Why a node graph is judged as it is (W-211): the choices that lead into a loop, or a route as long as the depth. The search that
// judges the graph leaves both in its marks; they are printed before the words are cleared.
#![tactic(auto)]

ghost use Rattle.std.specs.Prelude.{ℕ, List, ◌≡◌, cond, ◌++◌, ◌+◌, ◌*◌, ◌<◌, ◌≤◌, length, drop};
ghost use Rattle.node.specs.declared.Choice.{Choice};
ghost use Rattle.node.specs.declared.Choice.TheVariants.{Right, Left};
ghost use Rattle.node.specs.Nodes.{subsector_bit};
ghost use Rattle.node_graph.specs.Judging.{Judgeable, cleared};
ghost use Rattle.node_graph.specs.Looks.{mark_of, on_path_ok, height_by, path_choice, height_choice, LooksInside};
ghost use Rattle.node_graph.specs.Searching.{LoopMet, Explored};
ghost use Rattle.node_path.specs.Ways.{choice_byte, printed};
ghost use Rattle.node_path.specs.Promises.{WayPrinted};
ghost use Rattle.node_path.specs.Inner.{told_bytes, Printable};

use node::Choice;
use node_graph::NodeGraph;
use node_route::GraphError;

// The graph's verdict, and how many bytes there are to print with it.
#[derive(Clone, Copy)]
pub struct Told {
    pub verdict: Result<usize, GraphError>,
    pub length: usize,
}

// Judges like node_graph::judge, and prints the way into the loop or the route where the output has room for it. Otherwise the output
// is as it was.
pub fn judge(nodes: &[u8], count: usize, words: &mut [u16], out: &mut [u8]) -> Told
    requires { Judgeable nodes.now count words.old }
    ensures way_printed { WayPrinted nodes.now out.old out.new result }
    ensures words_after { words.new ≡ cleared words.old (4 * count) }
{
    if count == 0 {
        return Told {
            verdict: Ok(0),
            length: 0,
        };
    }
    let used = 4 * count;
    let graph = NodeGraph { nodes, count };
    let told = tell(&graph, &mut words[..used], out);
    node_graph::clear(words, used);
    told
}

fn tell(graph: &NodeGraph, words: &mut [u16], out: &mut [u8]) -> Told
    requires { 2 * graph.now.count ≤ length words.old }
    ensures { WayPrinted graph.now.nodes.now out.old out.new result }
{
    match graph.explore(words) {
        Err(met) => tell_loop(graph, words, met.choices, out),
        Ok(depth) => tell_depth(graph, words, depth, out),
    }
}

// The marks are read in the lent words, of which n are the length of what is told: no buffer's length.
fn tell_loop(graph: &NodeGraph, words: &[u16], n: usize, out: &mut [u8]) -> Told
    requires { (2 * graph.now.count ≤ length words.now) × LoopMet graph.now.nodes.now (mark_of words.now) n }
    ensures { WayPrinted graph.now.nodes.now out.old out.new result }
{
    print_if::<PathRule>(graph, words, n, out);
    Told {
        verdict: Err(GraphError::HasLoop),
        length: n,
    }
}

fn tell_depth(graph: &NodeGraph, words: &[u16], depth: usize, out: &mut [u8]) -> Told
    requires { (2 * graph.now.count ≤ length words.now) × Explored graph.now.nodes.now (mark_of words.now) depth }
    ensures { WayPrinted graph.now.nodes.now out.old out.new result }
{
    if node_sharing::shares(graph.nodes, graph.count, words) {
        return Told {
            verdict: Err(GraphError::HasShared),
            length: 0,
        };
    }
    print_if::<HeightRule>(graph, words, depth, out);
    Told {
        verdict: Ok(depth),
        length: depth,
    }
}

// The first n choices that the marks tell by a rule, where there is room.
fn print_if<R: MarkRule>(graph: &NodeGraph, words: &[u16], n: usize, out: &mut [u8])
    requires { Printable graph.now.nodes.now graph.now.count words.now (R.choice graph.now.nodes.now (mark_of words.now)) n }
    ensures { out.new ≡ printed out.old
        (told_bytes graph.now.nodes.now (R.choice graph.now.nodes.now (mark_of words.now)) n) }
{
    if n <= out.len() {
        print::<R>(graph, words, n, out);
    }
}

fn print<R: MarkRule>(graph: &NodeGraph, words: &[u16], n: usize, out: &mut [u8])
    requires printable { Printable graph.now.nodes.now graph.now.count words.now (R.choice graph.now.nodes.now (mark_of words.now)) n }
    requires n_in_bounds { n ≤ length out.old }
    ensures { out.new ≡ told_bytes graph.now.nodes.now (R.choice graph.now.nodes.now (mark_of words.now)) n
        ++ drop n out.old }
{
    let mut node = graph.count - 1;
    for j in 0..n {
        let choice = R::choose(graph.nodes, words, node);
        out[j] = byte_of(choice);
        node = node::child_of(graph.nodes, node, choice);
    }
}

fn byte_of(choice: Choice) -> u8
    ensures { result ≡ choice_byte choice }
{
    match choice {
        Choice::Right => b'R',
        Choice::Left => b'L',
    }
}

// How the marks tell the choice at a node.
trait MarkRule {
    ghost choice: { List ℕ → (ℕ → ℕ) → ℕ → Choice };

    fn choose(nodes: &[u8], words: &[u16], node: usize) -> Choice
        requires { LooksInside nodes.now words.now node }
        ensures { result ≡ choice nodes.now (mark_of words.now) node };
}

// On the way into a loop: right where the right child is on the path.
struct PathRule;

impl MarkRule for PathRule {
    ghost choice = { path_choice };

    fn choose(nodes: &[u8], words: &[u16], node: usize) -> Choice {
        right_if(on_path(words, node::child_of(nodes, node, Choice::Right)))
    }
}

// By the heights: right where the right child is as high.
struct HeightRule;

impl MarkRule for HeightRule {
    ghost choice = { height_choice };

    fn choose(nodes: &[u8], words: &[u16], node: usize) -> Choice {
        let right = height_at(words, node::child_of(nodes, node, Choice::Right));
        let left = height_at(words, node::child_of(nodes, node, Choice::Left));
        right_if(left <= right)
    }
}

fn right_if(test: bool) -> Choice
    ensures { result ≡ cond test Right Left }
{
    if test { Choice::Right } else { Choice::Left }
}

fn on_path(words: &[u16], child: usize) -> bool
    requires { child < subsector_bit → child < length words.now }
    ensures { result ≡ on_path_ok (mark_of words.now) child }
{
    if node::SUBSECTOR_BIT <= child {
        return false;
    }
    words[child] == node_graph::ON_PATH
}

fn height_at(words: &[u16], child: usize) -> u16
    requires { child < subsector_bit → child < length words.now }
    ensures { result ≡ height_by (mark_of words.now) child }
{
    if node::SUBSECTOR_BIT <= child {
        return 0;
    }
    words[child]
}
