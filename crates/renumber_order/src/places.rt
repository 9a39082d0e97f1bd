// The places of a list of old numbers (W-212), held in the second run of words: each number is a marked node, and stands in the list
// once. The search of `node_graph` left its marks in the first run. The words and the count of nodes, where the second run begins, come
// apart: what that search promises of its marks (`Explored`) speaks of the words as one list, so that two slices would be no plainer.
ghost use Rattle.std.specs.Prelude.{◌≡◌, ◌+◌, ◌*◌, ◌≤◌, length};
ghost use Rattle.renumber_order.specs.Places.{marked_below, PlacesHeld, free_ok, Emptied, Filled};

// The word of a node that has no place. A place is below the count of nodes.
const NO_PLACE: u16 = 65535;

// How many nodes are marked.
pub fn marked_count(words: &[u16], count: usize) -> usize
    requires { count ≤ length words.now }
    ensures { result ≡ length (marked_below words.now count) }
{
    let mut marked = 0;
    for &mark in &words[..count] {
        marked += usize::from(mark != 0);
    }
    marked
}

// No node has a place. The search's path stood there.
pub fn empty_places(words: &mut [u16], count: usize)
    requires { 2 * count ≤ length words.old }
    ensures { Emptied count words.old words.new }
{
    words[count..2 * count].fill(NO_PLACE);
}

// Whether every number of the list is a marked node that has no place before; each is given its own.
pub fn fill_places(words: &mut [u16], count: usize, order: &[u16]) -> bool
    requires count_in_bounds { (2 * count ≤ length words.old) × (length order.now ≤ 32767) }
    requires places_held { PlacesHeld order.now 0 words.old count }
    ensures { Filled count words.old order.now words.new result }
{
    for (i, &old) in order.iter().enumerate() {
        let node = old as usize;
        if !free_ok(words, count, node) {
            return false;
        }
        words[count + node] = i as u16;
    }
    true
}

fn free_ok(words: &[u16], count: usize, node: usize) -> bool
    requires { 2 * count ≤ length words.now }
    ensures { result ≡ free_ok words.now count node }
{
    if count <= node {
        return false;
    }
    (words[node] != 0) & (words[count + node] == NO_PLACE)
}
