ghost use Rattle.std.specs.Prelude.{◌≡◌, ◌<◌};

use crate::{MOST_NODES, NO_PLACE, Node, NodeTable, Steps};
use std::alloc::{AllocError, Global};
use std::marker::Brand;
use std::process::Abort;
use std::sync::ledger::{Blank, Ledger};
use std::test::Fail;

fn node(item: u64) -> Node<u64> {
    Node {
        item,
        stamp: 7,
        prev: NO_PLACE,
        next: NO_PLACE,
    }
}

fn edit_nodes<L: Ledger>(rt: &impl Abort, alloc: Global, blank: Blank) -> Result<(), AllocError>
    requires name { blank.name ≡ L.name }
    requires parts { blank.parts ≡ L.parts }
    requires counts { 0 < blank.parts }
{
    let mut steps = Steps::<L>::new(blank);
    let mut table = NodeTable::new(alloc);
    assert!(rt; table.is_empty());
    table.reserve()?;
    assert_eq!(rt; table.spare(), 4, "room of an empty table");
    table.push(node(10), &mut steps);
    assert!(rt; table.spare() > 0);
    table.push(node(11), &mut steps);
    assert!(rt; table.spare() > 0);
    assert_eq!(rt; table.push(node(12), &mut steps), 2, "place of the third");
    table.write(1, node(21), &mut steps);
    assert_eq!(rt; table.read(1, &mut steps).item, 21);
    assert_eq!(rt; table.swap_remove(0, &mut steps).item, 10);
    assert_eq!(rt; table.len(), 2);
    assert_eq!(rt;
        table.read(0, &mut steps).item,
        12,
        "the last fills the gap"
    );
    table.swap_remove(0, &mut steps);
    assert_eq!(rt; table.len(), 1);
    table.swap_remove(0, &mut steps);
    table.shrink();
    assert_eq!(rt; table.spare(), 0, "room of an emptied table");
    Ok(())
}

#[test]
fn last_node_fills_the_gap(rt: HostRuntime) -> Result<(), Fail> {
    edit_nodes::<Brand>(&rt, rt.alloc(), Blank::new(1))?;
    Ok(())
}

fn fill<L: Ledger>(rt: &impl Abort, alloc: Global, blank: Blank) -> Result<(), AllocError>
    requires name { blank.name ≡ L.name }
    requires parts { blank.parts ≡ L.parts }
    requires counts { 0 < blank.parts }
{
    let mut steps = Steps::<L>::new(blank);
    let mut table = NodeTable::new(alloc);
    for item in 0..MOST_NODES {
        if table.len() == MOST_NODES {
            break;
        }
        table.reserve()?;
        table.push(node(item as u64), &mut steps);
    }
    assert_eq!(rt; table.len(), MOST_NODES);
    assert_eq!(rt; table.spare(), 0);
    Ok(())
}

#[test]
fn fills_up_by_quarters(rt: HostRuntime) -> Result<(), Fail> {
    fill::<Brand>(&rt, rt.alloc(), Blank::new(1))?;
    Ok(())
}
