//! Which places of a list lead to which, as message types hold one another.
use crate::error::GenerateError;
use std::alloc::Global;

// No search takes so many turns; a loop of so many is seen to end.
const MOST_TURNS: usize = usize::MAX;

/// For each place those that it leads to.
#[derive(Drop)]
pub(crate) struct Graph {
    alloc: Global,
    edges: Vec<Vec<usize>>,
}

impl Graph {
    /// Of so many places, of which none leads anywhere.
    pub(crate) fn new(alloc: Global, places: usize) -> Result<Graph, GenerateError> {
        let mut edges = Vec::new(alloc);
        for _ in 0..places {
            edges.push(Vec::new(alloc))?;
        }
        Ok(Graph { alloc, edges })
    }

    /// Leads from one place to another, too.
    pub(crate) fn lead(&mut self, from: usize, to: usize) -> Result<(), GenerateError> {
        if let Some(edges) = self.edges.get_mut(from) {
            edges.push(to)?;
        }
        Ok(())
    }

    /// Where a place leads by itself.
    pub(crate) fn from(&self, place: usize) -> &[usize] {
        match self.edges.get(place) {
            Some(edges) => edges,
            None => &[],
        }
    }

    // The same with each way turned round.
    fn turned(&self) -> Result<Graph, GenerateError> {
        let mut turned = Graph::new(self.alloc, self.edges.len())?;
        for (from, edges) in self.edges.iter().enumerate() {
            for to in edges {
                turned.lead(*to, from)?;
            }
        }
        Ok(turned)
    }

    /// For each place one that stands for all that it leads to and that lead back to it, the same
    /// for all of these. By the algorithm of Kosaraju and Sharir: a search from the place that ended
    /// last, against the ways, finds just these.
    pub(crate) fn components(&self) -> Result<Vec<usize>, GenerateError> {
        let turned = self.turned()?;
        let mut components = filled(self.alloc, self.edges.len(), usize::MAX)?;
        for start in self.ends()?.iter().rev() {
            turned.gather(*start, &mut components)?;
        }
        Ok(components)
    }

    /// All places, each behind those that a search from it found first, in which places begin as
    /// they stand.
    pub(crate) fn ends(&self) -> Result<Vec<usize>, GenerateError> {
        let mut is_seen = filled(self.alloc, self.edges.len(), false)?;
        let mut ends = Vec::new(self.alloc);
        for start in 0..self.edges.len() {
            if is_first(&mut is_seen, start) {
                self.search(start, &mut is_seen, &mut ends)?;
            }
        }
        Ok(ends)
    }

    // Goes from a place to all that were not seen, each time along the next way of the last place
    // that has one left. A turn goes along a way, or ends a place.
    fn search(
        &self,
        start: usize,
        is_seen: &mut Vec<bool>,
        ends: &mut Vec<usize>,
    ) -> Result<(), GenerateError> {
        let mut open: Vec<(usize, usize)> = Vec::new(self.alloc);
        open.push((start, 0))?;
        for _ in 0..MOST_TURNS {
            let Some((place, way)) = open.pop() else {
                break;
            };
            match self.from(place).get(way) {
                Some(next) => {
                    open.push((place, way.saturating_add(1)))?;
                    if is_first(is_seen, *next) {
                        open.push((*next, 0))?;
                    }
                }
                None => ends.push(place)?,
            }
        }
        Ok(())
    }

    // Makes a place that of all that it leads to and that have none.
    fn gather(&self, start: usize, components: &mut Vec<usize>) -> Result<(), GenerateError> {
        let mut open = Vec::new(self.alloc);
        open.push(start)?;
        for _ in 0..MOST_TURNS {
            let Some(place) = open.pop() else {
                break;
            };
            let Some(component) = components.get_mut(place) else {
                continue;
            };
            if *component == usize::MAX {
                *component = start;
                open.extend_from_slice(self.from(place))?;
            }
        }
        Ok(())
    }

    /// Takes the flag from each place that leads to one without it.
    pub(crate) fn spread(&self, flags: &mut Vec<bool>) -> Result<(), GenerateError> {
        let turned = self.turned()?;
        let mut open = Vec::new(self.alloc);
        for (place, flag) in flags.iter().enumerate() {
            if !*flag {
                open.push(place)?;
            }
        }
        for _ in 0..MOST_TURNS {
            let Some(place) = open.pop() else {
                break;
            };
            for holder in turned.from(place) {
                if flags.get(*holder) == Some(&true) {
                    put_at(flags, *holder, false);
                    open.push(*holder)?;
                }
            }
        }
        Ok(())
    }
}

/// So many of a value.
pub(crate) fn filled<T: Copy + Drop>(
    alloc: Global,
    count: usize,
    value: T,
) -> Result<Vec<T>, GenerateError> {
    let mut list = Vec::new(alloc);
    for _ in 0..count {
        list.push(value)?;
    }
    Ok(list)
}

/// Makes this the value at a place, where the list has one.
pub(crate) fn put_at<T: Copy + Drop>(list: &mut Vec<T>, place: usize, value: T) {
    if let Some(slot) = list.get_mut(place) {
        *slot = value;
    }
}

// Whether a place was not seen, which it is from now on.
fn is_first(is_seen: &mut Vec<bool>, place: usize) -> bool {
    let is_first = is_seen.get(place) == Some(&false);
    put_at(is_seen, place, true);
    is_first
}
