// Sidedefs, vertices and sectors, and the three kinds that a node builder makes of a map: segs, subsectors and nodes, read and
// written by number. specs/ has the definitions; things and linedefs, which differ by the game, are crates of their own.
#![tactic(auto)]

pub mod node;
pub mod sector;
pub mod seg;
pub mod sidedef;
pub mod subsector;
pub mod vertex;

pub use node::Node;
pub use sector::Sector;
pub use seg::Seg;
pub use sidedef::Sidedef;
pub use subsector::Subsector;
pub use vertex::Vertex;
