//! Each definition as a plain slow program, over keys, parts and ends of connections.
use plcx_model::Key;
use std::alloc::Global;
use std::test::Fail;

/// A graph as tables.
#[derive(Drop)]
pub struct Tables {
    pub keys: Vec<Key>,
    pub parts: Vec<bool>,
    pub ends: Vec<(usize, usize)>,
}

/// The flag at a place; beyond the list none is set.
pub fn is_set(flags: &[bool], i: usize) -> bool {
    flags.get(i).copied().unwrap_or(false)
}

fn set(flags: &mut Vec<bool>, i: usize) {
    if let Some(it) = flags.get_mut(i) {
        *it = true;
    }
}

/// The places of a key, one after the other: whether no order is given, the order, y, x, localId.
fn ranks(key: Key) -> (bool, u64, i64, i64, u64) {
    (
        key.order.is_none(),
        key.order.unwrap_or(0),
        key.y,
        key.x,
        key.local_id,
    )
}

impl Tables {
    fn count(&self) -> usize {
        self.keys.len()
    }

    fn key(&self, v: usize) -> (bool, u64, i64, i64, u64) {
        self.keys.get(v).copied().map_or((true, 0, 0, 0, 0), ranks)
    }

    fn place(&self, v: usize) -> (i64, i64, u64) {
        let (_, _, y, x, id) = self.key(v);
        (y, x, id)
    }

    fn takes_part(&self, v: usize) -> bool {
        is_set(&self.parts, v)
    }

    /// Which elements an element reaches: over and over, what a connection leads to from one of them.
    fn reached(&self, alloc: Global, start: usize) -> Result<Vec<bool>, Fail> {
        let mut seen = vec![in alloc; false; self.count()]?;
        set(&mut seen, start);
        for _ in 0..self.count() {
            for (from, to) in &self.ends {
                if is_set(&seen, *from) {
                    set(&mut seen, *to);
                }
            }
        }
        Ok(seen)
    }

    /// Which elements an element is linked with: the same in both directions, between elements that take part.
    fn linked(&self, alloc: Global, start: usize) -> Result<Vec<bool>, Fail> {
        let mut seen = vec![in alloc; false; self.count()]?;
        set(&mut seen, start);
        for _ in 0..self.count() {
            for (from, to) in &self.ends {
                if self.takes_part(*from) && self.takes_part(*to) {
                    if is_set(&seen, *from) {
                        set(&mut seen, *to);
                    }
                    if is_set(&seen, *to) {
                        set(&mut seen, *from);
                    }
                }
            }
        }
        Ok(seen)
    }

    /// Which connections are feedback.
    pub fn marks(&self, alloc: Global) -> Result<Vec<bool>, Fail> {
        let mut marks = Vec::new(alloc);
        for (u, v) in &self.ends {
            let seen = self.reached(alloc, *v)?;
            marks.push(is_set(&seen, *u) && self.key(*v) <= self.key(*u))?;
        }
        Ok(marks)
    }

    /// The networks: each time the class of the element with the least place of those that are in none.
    pub fn networks(&self, alloc: Global) -> Result<Vec<Vec<u32>>, Fail> {
        let mut networks = Vec::new(alloc);
        let mut done = vec![in alloc; false; self.count()]?;
        for _ in 0..self.count() {
            let mut best = None;
            for v in 0..self.count() {
                if self.takes_part(v) && !is_set(&done, v) {
                    match best {
                        Some(b) if self.place(b) < self.place(v) => {}
                        _ => best = Some(v),
                    }
                }
            }
            if let Some(b) = best {
                let class = self.linked(alloc, b)?;
                let mut network = Vec::new(alloc);
                for v in 0..self.count() {
                    if is_set(&class, v) {
                        set(&mut done, v);
                        network.push(u32::try_from(v)?)?;
                    }
                }
                networks.push(network)?;
            }
        }
        Ok(networks)
    }

    fn is_ready(&self, inside: &[bool], marks: &[bool], listed: &[bool], v: usize) -> bool {
        let mut ready = is_set(inside, v) && !is_set(listed, v);
        for (i, (from, to)) in self.ends.iter().enumerate() {
            if *to == v && is_set(inside, *from) && !is_set(marks, i) && !is_set(listed, *from) {
                ready = false;
            }
        }
        ready
    }

    /// The order of a network: each time the least of all that are ready.
    pub fn order(&self, alloc: Global, network: &[u32], marks: &[bool]) -> Result<Vec<u32>, Fail> {
        let mut inside = vec![in alloc; false; self.count()]?;
        for v in network {
            set(&mut inside, *v as usize);
        }
        let mut listed = vec![in alloc; false; self.count()]?;
        let mut order = Vec::new(alloc);
        for _ in 0..network.len() {
            let mut best = None;
            for v in 0..self.count() {
                if self.is_ready(&inside, marks, &listed, v) {
                    match best {
                        Some(b) if self.key(b) < self.key(v) => {}
                        _ => best = Some(v),
                    }
                }
            }
            if let Some(b) = best {
                set(&mut listed, b);
                order.push(u32::try_from(b)?)?;
            }
        }
        Ok(order)
    }
}
