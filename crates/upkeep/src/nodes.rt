//! The other nodes.

ghost use Rattle.std.specs.Prelude.{◌≡◌, ◌≤◌, length};
ghost use Rattle.upkeep.specs.Nodes.{is_among, nodes_of};

use ot_base::{Endpoint, InPlace};
use ot_io::NODES;

/// At most 16 nodes, in order.
pub type NodeList = InPlace<Endpoint, NODES>;

/// The nodes of the settings, in order.
pub fn nodes_in(settings: &[Option<Endpoint>; NODES]) -> NodeList
    ensures nodes { result ≡ nodes_of settings.now }
    ensures few { length result ≤ NODES }
{
    let mut nodes = NodeList::new();
    for place in settings {
        if let Some(node) = place {
            nodes.push(*node);
        }
    }
    nodes
}

/// Whether an endpoint is a node's.
pub(crate) fn is_among(nodes: &[Endpoint], who: &Endpoint) -> bool
    ensures { result ≡ is_among nodes.now who.now }
{
    for node in nodes {
        if node == who {
            return true;
        }
    }
    false
}
