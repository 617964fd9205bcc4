use crate::build::has_graph;
use crate::plain::Tables;
use plcx_model::{Body, BodyElement, Key, Kind, Source, Wires};
use plcx_order::{feedback_uncounted, networks_uncounted, orders_uncounted};
use sqlite_items::Items;
use std::alloc::Global;
use std::test::Fail;

/// An element with one input pin: a rail, or a connector.
fn element(alloc: Global, key: Key, takes_part: bool) -> BodyElement {
    let kind = if takes_part {
        Kind::Connector {
            name: Items::new(alloc),
            input: Items::new(alloc),
        }
    } else {
        Kind::RightRail {
            input: Items::new(alloc),
        }
    };
    BodyElement {
        local_id: key.local_id,
        order: key.order,
        x: key.x,
        y: key.y,
        kind,
    }
}

/// The graph of these tables, whose connections stand by consumer.
fn wires(alloc: Global, tables: &Tables) -> Result<Option<Wires>, Fail> {
    let mut elements = Vec::new(alloc);
    let mut pins = Vec::new(alloc);
    for v in 0..tables.keys.len() {
        let key = tables.keys.get(v).copied().ok_or("no key")?;
        let takes_part = tables.parts.get(v).copied().unwrap_or(false);
        elements.push(element(alloc, key, takes_part))?;
        let mut sources = Vec::new(alloc);
        for (from, to) in &tables.ends {
            if *to == v {
                sources.push(Source {
                    element: u32::try_from(*from)?,
                    pin: 0,
                })?;
            }
        }
        pins.push(Items::from_vec(sources))?;
    }
    if !has_graph(&elements, &pins) {
        return Ok(None);
    }
    let body = Body {
        ladder: false,
        elements: Items::from_vec(elements),
    };
    Ok(Some(Wires::of(alloc, &body, &pins)?))
}

/// Whether networks, marks and orders are those of the plain programs.
fn agrees(alloc: Global, tables: &Tables) -> Result<bool, Fail> {
    let Some(wires) = wires(alloc, tables)? else {
        return Ok(false);
    };
    let marks = feedback_uncounted(alloc, &wires)?;
    if marks.as_slice() != tables.marks(alloc)?.as_slice() {
        return Ok(false);
    }
    let networks = networks_uncounted(alloc, &wires)?;
    let plain = tables.networks(alloc)?;
    if networks.len() != plain.len() {
        return Ok(false);
    }
    let orders = orders_uncounted(alloc, &wires, &networks, &marks)?;
    for k in 0..plain.len() {
        let network = plain.get(k).ok_or("no network")?;
        let order = tables.order(alloc, network, &marks)?;
        if networks.get(k).map(|n| n.as_slice()) != Some(network.as_slice()) {
            return Ok(false);
        }
        if orders.get(k).map(|n| n.as_slice()) != Some(order.as_slice()) {
            return Ok(false);
        }
    }
    Ok(true)
}

fn key(order: Option<u64>, y: i64, x: i64, local_id: u64) -> Key {
    Key {
        order,
        y,
        x,
        local_id,
    }
}

/// Elements with localIds from 1 on, at one place, without orders.
fn plain_keys(alloc: Global, count: u64) -> Result<Vec<Key>, Fail> {
    let mut keys = Vec::new(alloc);
    for v in 0..count {
        keys.push(key(None, 0, 0, v.wrapping_add(1)))?;
    }
    Ok(keys)
}

fn tables(
    alloc: Global,
    keys: Vec<Key>,
    rails: &[usize],
    ends: &[(usize, usize)],
) -> Result<Tables, Fail> {
    let mut parts = Vec::new(alloc);
    for v in 0..keys.len() {
        parts.push(!rails.contains(&v))?;
    }
    Ok(Tables {
        keys,
        parts,
        ends: Vec::from_slice(alloc, ends)?,
    })
}

#[test]
fn a_latch_and_a_counter(rt: HostRuntime) -> Result<(), Fail> {
    let alloc = rt.alloc();
    // inVariable, OR, AND, inVariable, outVariable: the connection from the third to the second alone is feedback
    let ends = [(0, 1), (2, 1), (1, 2), (3, 2), (2, 4)];
    let latch = tables(alloc, plain_keys(alloc, 5)?, &[], &ends)?;
    let latch_wires = wires(alloc, &latch)?.ok_or("no graph")?;
    let marks = feedback_uncounted(alloc, &latch_wires)?;
    assert_eq!(rt;
        marks.as_slice(),
        [false, true, false, false, false].as_slice()
    );
    let networks = networks_uncounted(alloc, &latch_wires)?;
    let orders = orders_uncounted(alloc, &latch_wires, &networks, &marks)?;
    assert_eq!(rt; orders.len(), 1);
    assert_eq!(rt;
        orders.first().map(|order| order.as_slice()),
        Some([0, 1, 3, 2, 4].as_slice())
    );
    // inVariable, ADD with a connection to itself, outVariable
    let ends = [(0, 1), (1, 1), (1, 2)];
    let counter = tables(alloc, plain_keys(alloc, 3)?, &[], &ends)?;
    let marks = feedback_uncounted(alloc, &wires(alloc, &counter)?.ok_or("no graph")?)?;
    assert_eq!(rt; marks.as_slice(), [false, true, false].as_slice());
    Ok(())
}

/// A ring of so many blocks, each with a literal at its other input: half of the elements are literals.
fn ring(alloc: Global, blocks: usize, elements: u64) -> Result<Tables, Fail> {
    let mut ends = Vec::new(alloc);
    for i in 0..blocks {
        let before = if i == 0 { blocks } else { i }.wrapping_sub(1);
        ends.push((before, i))?;
        ends.push((i.wrapping_add(blocks), i))?;
    }
    tables(alloc, plain_keys(alloc, elements)?, &[], &ends)
}

#[test]
fn rings(rt: HostRuntime) -> Result<(), Fail> {
    let alloc = rt.alloc();
    assert!(rt; agrees(alloc, &ring(alloc, 40, 80)?)?);
    // the connection from the last block to the first alone is feedback
    let large = ring(alloc, 2000, 4000)?;
    let marks = feedback_uncounted(alloc, &wires(alloc, &large)?.ok_or("no graph")?)?;
    assert_eq!(rt; marks.iter().filter(|mark| **mark).count(), 1);
    assert_eq!(rt; marks.first().copied(), Some(true));
    Ok(())
}

fn next(seed: u64) -> u64 {
    seed.wrapping_mul(6364136223846793005)
        .wrapping_add(1442695040888963407)
}

fn below(seed: u64, count: u64) -> u64 {
    if count == 0 { 0 } else { (seed >> 33) % count }
}

/// A graph out of a seed.
fn drawn(alloc: Global, seed: u64, count: u64, wires: u64) -> Result<Tables, Fail> {
    let mut seed = seed;
    let mut keys = Vec::new(alloc);
    let mut parts = Vec::new(alloc);
    for v in 0..count {
        seed = next(seed);
        let order = if below(seed, 3) == 0 {
            Some(below(seed, 7).wrapping_add(1))
        } else {
            None
        };
        seed = next(seed);
        let y = i64::try_from(below(seed, 3))?;
        seed = next(seed);
        let x = i64::try_from(below(seed, 3))?;
        keys.push(key(order, y, x, 100u64.wrapping_sub(v)))?;
        seed = next(seed);
        parts.push(below(seed, 6) != 0)?;
    }
    let mut ends = Vec::new(alloc);
    for to in 0..count {
        seed = next(seed);
        for _ in 0..below(seed, wires) {
            seed = next(seed);
            ends.push((usize::try_from(below(seed, count))?, usize::try_from(to)?))?;
        }
    }
    Ok(Tables { keys, parts, ends })
}

#[test]
fn many_graphs(rt: HostRuntime) -> Result<(), Fail> {
    let alloc = rt.alloc();
    for round in 0..300u64 {
        let tables = drawn(alloc, next(round), round % 9, 2 + round % 4)?;
        assert!(rt; agrees(alloc, &tables)?);
    }
    Ok(())
}
