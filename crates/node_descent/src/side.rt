// On which side of a node's line a point lies. By an upright or a level line it is a test of one coordinate and one of the
// direction (W-214). By a slanting one it is over whole numbers: coordinates are widened before they are subtracted, and the
// two products are compared, not subtracted.
ghost use Rattle.std.specs.Prelude.{◌≡◌, ◌+◌, ◌*◌, ◌≤◌, ◌-ℤ◌, ◌*ℤ◌, length};
ghost use Rattle.record.specs.Nodes.{node_size};
ghost use Rattle.node_descent.specs.Side.{left_if, upright_side, level_side, slanting_side, side, side_at};

use node::Choice;
use record::Node;

// At most 65,536 × 32,768 in size.
fn product(a: i16, b: i16, d: i16) -> i64
    ensures { result ≡ (a -ℤ b) *ℤ d }
{
    (i64::from(a) - i64::from(b)) * i64::from(d)
}

// Where neither dx nor dy is 0.
fn slanting_side(x: i16, y: i16, px: i16, py: i16, dx: i16, dy: i16) -> Choice
    ensures { result ≡ slanting_side x y px py dx dy }
{
    if product(y, py, dx) < product(x, px, dy) {
        Choice::Right
    } else {
        Choice::Left
    }
}

fn left_if(test: bool) -> Choice
    ensures { result ≡ left_if test }
{
    if test { Choice::Left } else { Choice::Right }
}

// Where dx is 0, and where dy is 0 too: then neither answer is left.
fn upright_side(x: i16, px: i16, dy: i16) -> Choice
    ensures { result ≡ upright_side x px dy }
{
    left_if(if x <= px { 0 < dy } else { dy < 0 })
}

// Where dy is 0 and dx is not.
fn level_side(y: i16, py: i16, dx: i16) -> Choice
    ensures { result ≡ level_side y py dx }
{
    left_if(if y <= py { dx < 0 } else { 0 < dx })
}

fn side_of(x: i16, y: i16, px: i16, py: i16, dx: i16, dy: i16) -> Choice
    ensures { result ≡ side x y px py dx dy }
{
    if dx == 0 {
        return upright_side(x, px, dy);
    }
    if dy == 0 {
        return level_side(y, py, dx);
    }
    slanting_side(x, y, px, py, dx, dy)
}

// The choice of the point (x, y) at a node.
pub fn side_at(nodes: &[u8], x: i16, y: i16, node: usize) -> Choice
    requires { node_size * node + node_size ≤ length nodes.now }
    ensures { result ≡ side_at nodes.now x y node }
{
    let at = Node::SIZE * node;
    side_of(
        x,
        y,
        endian::i16_at(nodes, at),
        endian::i16_at(nodes, at + 2),
        endian::i16_at(nodes, at + 4),
        endian::i16_at(nodes, at + 6),
    )
}
