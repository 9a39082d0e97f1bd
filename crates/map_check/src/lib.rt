// The map check: one map of a file, by its name, judged whole. The definitions are in specs/.
#![tactic(auto)]

mod lumps;

ghost use Rattle.std.specs.Prelude.{◌≡◌, ◌*◌, ◌/◌, ◌<◌, ◌≤◌, length, Ok};
ghost use Rattle.wad.specs.Header.{head_of, entry_count};
ghost use Rattle.wad.specs.Entries.{file_check};
ghost use Rattle.node.specs.Nodes.{nodes_of};
ghost use Rattle.node_graph.specs.Judging.{Judgeable};
ghost use Rattle.map_lumps.specs.Lumps.{map_lumps};
ghost use Rattle.map_check.specs.Inner.{AnsweredBy};
ghost use Rattle.map_check.specs.Verdict.{map_check, graph_answer, Answered, AnsweredAt};

use map_lumps::{MapLumps, Marker};
use node_route::GraphError;
use record::Node;
use refusal::Refusal;

// What is answered of a map that passes.
#[derive(Clone, Copy, Debug, PartialEq, Eq)]
pub struct Accepted {
    // the largest number of nodes on a route
    pub depth: usize,
    // the marker's entry number
    pub marker: usize,
}

// The map of the asked name, judged. The words are lent for the node graph: four for each node. A refusal below 31 leaves
// them as found; 31, 32 and acceptance leave the first four for each node zero and the others as found.
pub fn judge_map(wad: &[u8], name: &[u8], words: &mut [u16]) -> Result<Accepted, Refusal>
    ensures { Answered wad.now name.now words.old result words.new }
{
    let marker = wad::find_map(wad, name)?;
    judge_at(wad, marker, words)
}

// The map at a marker that was found. Whoever searches in another way, as in a pair of files, goes on here.
pub fn judge_at(wad: &[u8], marker: usize, words: &mut [u16]) -> Result<Accepted, Refusal>
    requires { (file_check wad.now ≡ Ok tt) × (marker < entry_count (head_of wad.now)) }
    ensures { AnsweredAt wad.now marker words.old result words.new }
{
    let dir = wad::directory_of(wad);
    let entry = Marker {
        dir,
        count: wad::entry_count(wad),
        entry: marker,
    };
    judge_below(wad, &entry, words.len())?;
    let lumps = MapLumps { wad, dir, marker };
    judge_graph(lumps.lump(Node::PLACE), marker, words)
}

// 12 to 30. Who prints the reason of a refusal goes on from here (W-211).
pub fn judge_below(wad: &[u8], marker: &Marker, words: usize) -> Result<(), Refusal>
    ensures { result ≡ map_check marker.now.dir.now marker.now.count marker.now.entry
        (map_lumps wad.now marker.now.dir.now marker.now.entry) words }
{
    marker.judge_run()?;
    let lumps = MapLumps {
        wad,
        dir: marker.dir,
        marker: marker.entry,
    };
    lumps::check_lumps(marker.is_hexen(), &lumps, words)
}

// 31, 32, or accepted.
fn judge_graph(nodes: &[u8], marker: usize, words: &mut [u16]) -> Result<Accepted, Refusal>
    requires { Judgeable nodes.now (nodes_of nodes.now) words.old }
    ensures { AnsweredBy nodes.now marker words.old result words.new }
{
    verdict_of(
        node_graph::judge(nodes, nodes.len() / Node::SIZE, words),
        marker,
    )
}

// A graph's verdict as the map's.
pub fn verdict_of(graph: Result<usize, GraphError>, marker: usize) -> Result<Accepted, Refusal>
    ensures { result ≡ graph_answer graph marker }
{
    let depth = graph?;
    Ok(Accepted { depth, marker })
}
