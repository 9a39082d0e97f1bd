// Loop, shared child or depth of a node graph, by a search from the root: always to a child not met yet, back where there is
// none. Each node is put on the path once and taken off it once; then the children of the nodes met are looked at once more.
// specs/Looks.antt says what the work words hold.
#![tactic(auto)]

ghost use Rattle.std.specs.Prelude.{◌≡◌, ◌+◌, ◌*◌, ◌≤◌, ◌<◌, length};
ghost use Rattle.refusal.specs.declared.Refusal.TheVariants.{NodeLoop};
ghost use Rattle.node_route.specs.declared.GraphError.TheVariants.{HasLoop};
ghost use Rattle.node_route.specs.Heights.{graph_verdict};
ghost use Rattle.node_graph.specs.Judging.{Judgeable, GraphJudged, cleared};
ghost use Rattle.record.specs.Nodes.{node_size};
ghost use Rattle.node.specs.Nodes.{subsector_bit};
ghost use Rattle.node.specs.Ranges.{NodesInRange};
ghost use Rattle.node_graph.specs.Looks.{mark_of, look_at, joined, look_below, LooksInside, pushed, begun};
ghost use Rattle.node_graph.specs.Searching.{State, Stepped, Explored, Searched};

use node::Choice;
use node_route::GraphError;
use refusal::Refusal;

// The mark of a node on the path. A height is at most the count of nodes.
pub const ON_PATH: u16 = 65535;

// What the marks say of a child: three outcomes, each handled in its own way, so no Result.
#[derive(Clone, Copy)]
pub enum Look {
    // a node not met yet
    New(usize),
    // a node on the path: a loop
    OnPath,
    // a subsector, or a node that is done, with its height
    Height(u16),
}

// The search met a loop.
#[derive(Clone, Copy, PartialEq, Eq)]
pub struct LoopError {
    // how many choices lead into it
    pub choices: usize,
}

impl From<LoopError> for GraphError {
    ghost from_gives = { λ _ e. e ≡ HasLoop };

    fn from(_: LoopError) -> GraphError {
        GraphError::HasLoop
    }
}

impl From<LoopError> for Refusal {
    ghost from_gives = { λ _ r. r ≡ NodeLoop };

    fn from(_: LoopError) -> Refusal {
        Refusal::NodeLoop
    }
}

// Loop, shared child or depth of a NODES lump whose children are in range. Whatever the words hold changes nothing; afterwards
// the first four for each node are zero, and the others as found. The lump and its count come apart, as docs/PROMISES.md names this
// call; below they are one `NodeGraph`.
pub fn judge(nodes: &[u8], count: usize, words: &mut [u16]) -> Result<usize, GraphError>
    requires { Judgeable nodes.now count words.old }
    ensures { GraphJudged nodes.now count words.old words.new result }
{
    if count == 0 {
        return Ok(0);
    }
    let used = 4 * count;
    let graph = NodeGraph { nodes, count };
    let answer = graph.verdict(&mut words[..used]);
    clear(words, used);
    answer
}

// The first n words as zeros.
pub fn clear(words: &mut [u16], n: usize)
    requires { n ≤ length words.old }
    ensures { words.new ≡ cleared words.old n }
{
    words[..n].fill(0);
}

// A NODES lump with a root: whole nodes, 1 to 32,767 of them, whose children are in range.
#[derive(Clone, Copy)]
pub struct NodeGraph<'a> {
    pub nodes: &'a [u8],
    pub count: usize,
    pub ghost whole: { node_size * count ≡ length nodes.now },
    pub ghost least: { 1 ≤ count },
    pub ghost most: { count ≤ 32767 },
    pub ghost in_range: { NodesInRange nodes.now },
}

impl NodeGraph<'_> {
    // The words are lent apart from the graph, since the search changes them: so each method asks for their length. The verdict:
    // whatever the words hold, only what the search wrote is read.
    fn verdict(&self, words: &mut [u16]) -> Result<usize, GraphError>
        requires { 2 * self.now.count ≤ length words.old }
        ensures { result ≡ graph_verdict self.now.nodes.now }
    {
        let depth = self.explore(words)?;
        self.shared_or_deep(words, depth)
    }

    // Without a loop: a child that two ways lead to, or the depth. The marked nodes are the reached ones.
    fn shared_or_deep(&self, words: &[u16], depth: usize) -> Result<usize, GraphError>
        requires { (2 * self.now.count ≤ length words.now) × Explored self.now.nodes.now (mark_of words.now) depth }
        ensures { result ≡ graph_verdict self.now.nodes.now }
    {
        if node_sharing::shares(self.nodes, self.count, words) {
            return Err(GraphError::HasShared);
        }
        Ok(depth)
    }

    // The whole search: the depth, or the loop that it meets. The marks tell the heights, or the way into the loop.
    pub fn explore(&self, words: &mut [u16]) -> Result<usize, LoopError>
        requires { 2 * self.now.count ≤ length words.old }
        ensures { Searched self.now.nodes.now words.new result }
    {
        start(words, self.count);
        let mut sp = 1;
        // No `for`: a step lengthens the path or shortens it, as the marks tell.
        while 0 < sp {
            sp = self.take_step(words, sp)?;
        }
        Ok(words[self.count - 1] as usize)
    }

    // One step at the path's end: to a child not met yet, or back with its height. The path's new length.
    fn take_step(&self, words: &mut [u16], sp: usize) -> Result<usize, LoopError>
        requires { (2 * self.now.count ≤ length words.old) × State self.now.nodes.now self.now.count words.old sp × (0 < sp) }
        ensures { Stepped self.now.nodes.now self.now.count words.old sp words.new result }
    {
        let last = self.count + (sp - 1);
        let top = words[last] as usize;
        match look_below(self.nodes, words, top) {
            Look::New(child) => {
                push(words, self.count, sp, child);
                Ok(sp + 1)
            }
            Look::OnPath => Err(LoopError { choices: sp }),
            Look::Height(height) => {
                words[top] = height + 1;
                Ok(sp - 1)
            }
        }
    }
}

// No node is met but the root, which is the path.
fn start(words: &mut [u16], count: usize)
    requires { (1 ≤ count) × (count ≤ 32767) × (count < length words.old) }
    ensures { words.new ≡ begun words.old count }
{
    clear(words, count);
    push(words, count, 0, count - 1);
}

fn push(words: &mut [u16], count: usize, sp: usize, node: usize)
    requires { (node < count) × (count + sp < length words.old) × (count ≤ 32767) }
    ensures { words.new ≡ pushed words.old count sp node }
{
    words[node] = ON_PATH;
    words[count + sp] = node as u16;
}

// Both children of a node.
fn look_below(nodes: &[u8], words: &[u16], node: usize) -> Look
    requires { LooksInside nodes.now words.now node }
    ensures { result ≡ look_below nodes.now words.now node }
{
    let right = look_at(words, node::child_of(nodes, node, Choice::Right));
    let left = look_at(words, node::child_of(nodes, node, Choice::Left));
    join(right, left)
}

fn look_at(words: &[u16], child: usize) -> Look
    requires { child < subsector_bit → child < length words.now }
    ensures { result ≡ look_at words.now child }
{
    if node::SUBSECTOR_BIT <= child {
        return Look::Height(0);
    }
    let mark = words[child];
    if mark == 0 {
        return Look::New(child);
    }
    if mark == ON_PATH {
        return Look::OnPath;
    }
    Look::Height(mark)
}

// What is to be done first of two children; where both are done, the larger height.
fn join(right: Look, left: Look) -> Look
    ensures { result ≡ joined right left }
{
    match (right, left) {
        (Look::Height(a), Look::Height(b)) => Look::Height(a.max(b)),
        (Look::Height(_), first) => first,
        (first, _) => first,
    }
}
