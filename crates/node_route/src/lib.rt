// The node graph of a map: what it may be. The definitions are in specs/, and no function is here but a conversion.
// A NODES lump's graph is judged by `Result<usize, GraphError>`: its depth, or what is wrong with it.
#![tactic(auto)]

use refusal::Refusal;

// What is wrong with a graph: it has a loop, or where it has none a node or subsector that two ways lead to.
#[derive(Clone, Copy, PartialEq, Eq)]
pub enum GraphError {
    HasLoop,
    HasShared,
}

// 31 and 32.
impl From<GraphError> for Refusal {
    ghost use Rattle.node_route.specs.Refusals.{refusal_of};
    ghost use Rattle.std.specs.Prelude.{◌≡◌};

    ghost from_gives = { λ e r. r ≡ refusal_of e };

    fn from(e: GraphError) -> Refusal {
        match e {
            GraphError::HasLoop => Refusal::NodeLoop,
            GraphError::HasShared => Refusal::NodeShared,
        }
    }
}
