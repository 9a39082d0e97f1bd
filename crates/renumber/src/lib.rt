// NODES renumbered so that children come before their parents (W-212), by an untrusted list. The definitions are in
// specs/.
#![tactic(auto)]

mod writing;

ghost use Rattle.std.specs.Prelude.{◌≡◌, ◌*◌, ◌≤◌, ◌<◌, length, Ok};
ghost use Rattle.wad.specs.Header.{head_of, entry_count};
ghost use Rattle.wad.specs.Entries.{file_check};
ghost use Rattle.node.specs.Nodes.{nodes_of};
ghost use Rattle.node_graph.specs.Judging.{Judgeable, cleared};
ghost use Rattle.renumber.specs.Renumbering.{Renumbers};
ghost use Rattle.renumber.specs.Inner.{RenumbersAt, NodesRenumbered};

use map_lumps::{MapLumps, Marker};
use node_graph::NodeGraph;
use record::Node;
use refusal::Refusal;

// The map of the asked name, judged as map_check::judge_map does, over the same words; then the list, and where it is
// good the renumbered NODES in the front of the output. A refusal writes nothing.
pub fn renumber(
    wad: &[u8],
    name: &[u8],
    words: &mut [u16],
    order: &[u16],
    out: &mut [u8],
) -> Result<usize, Refusal>
    ensures { Renumbers wad.now name.now words.old order.now
        out.old result words.new out.new }
{
    let marker = wad::find_map(wad, name)?;
    renumber_at(wad, marker, words, order, out)
}

// From a marker on that was found.
fn renumber_at(
    wad: &[u8],
    marker: usize,
    words: &mut [u16],
    order: &[u16],
    out: &mut [u8],
) -> Result<usize, Refusal>
    requires { (file_check wad.now ≡ Ok tt) × (marker < entry_count (head_of wad.now)) }
    ensures { RenumbersAt wad.now marker words.old order.now
        out.old result words.new out.new }
{
    let dir = wad::directory_of(wad);
    let entry = Marker {
        dir,
        count: wad::entry_count(wad),
        entry: marker,
    };
    map_check::judge_below(wad, &entry, words.len())?;
    let lumps = MapLumps { wad, dir, marker };
    renumber_nodes(lumps.lump(Node::PLACE), words, order, out)
}

// From 31 on. The words are cleared in every case.
fn renumber_nodes(
    nodes: &[u8],
    words: &mut [u16],
    order: &[u16],
    out: &mut [u8],
) -> Result<usize, Refusal>
    requires { Judgeable nodes.now (nodes_of nodes.now) words.old }
    ensures nodes_renumbered { NodesRenumbered nodes.now order.now out.old result out.new }
    ensures words_after { words.new ≡ cleared words.old (4 * nodes_of nodes.now) }
{
    let count = nodes.len() / Node::SIZE;
    if count == 0 {
        // only the empty list is good, and nothing is to write
        refusal::pass_if(order.is_empty(), Refusal::RenumberLength)?;
        return Ok(0);
    }
    let used = 4 * count;
    let graph = NodeGraph { nodes, count };
    let answer = renumber_some(&graph, &mut words[..used], order, out);
    node_graph::clear(words, used);
    answer
}

// At least one node.
fn renumber_some(
    graph: &NodeGraph,
    words: &mut [u16],
    order: &[u16],
    out: &mut [u8],
) -> Result<usize, Refusal>
    requires { 2 * graph.now.count ≤ length words.old }
    ensures { NodesRenumbered graph.now.nodes.now order.now out.old result out.new }
{
    renumber_order::judge_graph(graph.nodes, graph.count, words, order, out.len())?;
    writing::write_nodes(graph, words, order, out);
    Ok(Node::SIZE * order.len())
}
