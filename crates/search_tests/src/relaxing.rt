// A search of another make: every street is relaxed, over and over, until nothing changes.
ghost use Rattle.std.specs.Prelude.{◌<◌, IfSome};

use lengths::{Zeroed, zero_of};
use maps::Map;
use std::process::Abort;
use std::test::Fail;
use trees::{BoundedTree, is_closed};

// The best length that each junction has, by its number.
pub(crate) type Lengths = [Option<u64>; 130];

// The tests' own, so that the search shares nothing with the runs that it is compared with.
// What a search looks for: past no transit node but the root, over no closed street.
#[derive(Clone, Copy)]
pub(crate) struct Question<'a> {
    pub(crate) transit: &'a [u16],
    pub(crate) closed: &'a [bool; 512],
    pub(crate) root: u16,
}

impl Question<'_> {
    fn may_take(&self, e: u16, tail: u16) -> bool {
        !is_closed(self.closed, e) && (tail == self.root || !self.transit.contains(&tail))
    }

    // The head of the street in slot e, and the length that the street gives it, if that is better than what it has.
    fn better<M: Map, K: Zeroed>(&self, map: &M, lengths: &Lengths, e: u16) -> Option<(usize, u64)>
        ensures { IfSome result (λ found. found.0 < 130) }
    {
        let (tail, head, own) = map.slot(e)?;
        let before = (*lengths.get(usize::from(tail))?)?;
        let old = *lengths.get(usize::from(head))?;
        let new = K::join(before, u64::from(own));
        if self.may_take(e, tail) && old.is_none_or(|old| !K::no_worse(old, new)) {
            Some((usize::from(head), new))
        } else {
            None
        }
    }

    // One round over all slots; whether something changed.
    fn round<M: Map, K: Zeroed>(&self, map: &M, lengths: &mut Lengths) -> bool {
        let mut changed = false;
        for e in 1..=512 {
            if let Some((head, new)) = self.better::<M, K>(map, lengths, e) {
                lengths[head] = Some(new);
                changed = true;
            }
        }
        changed
    }

    // The best length of each junction.
    pub(crate) fn relaxed<M: Map, K: Zeroed>(&self, map: &M) -> Lengths {
        let mut lengths = [None; 130];
        if (1..=map.junctions().min(129)).contains(&self.root) {
            lengths[usize::from(self.root)] = Some(zero_of::<K>());
            for _ in 0..129 {
                if !self.round::<M, K>(map, &mut lengths) {
                    break;
                }
            }
        }
        lengths
    }

    // Each length of the tree is the other search's, and each slot is a street that gives it.
    pub(crate) fn same<M: Map, K: Zeroed>(
        &self,
        rt: &impl Abort,
        map: &M,
        tree: &BoundedTree,
    ) -> Result<(), Fail> {
        for (v, best) in (0..130).zip(self.relaxed::<M, K>(map)) {
            let found = tree.get(v);
            assert_eq!(rt; found.map(|entry| entry.1), best);
            if let Some((slot, length)) = found {
                if v == self.root {
                    assert_eq!(rt; slot, 0);
                } else {
                    self.gives::<M, K>(rt, map, tree, v, slot, length)?;
                }
            }
        }
        Ok(())
    }

    // The street of the slot leads to v and gives it the length.
    fn gives<M: Map, K: Zeroed>(
        &self,
        rt: &impl Abort,
        map: &M,
        tree: &BoundedTree,
        v: u16,
        slot: u16,
        length: u64,
    ) -> Result<(), Fail> {
        let (tail, head, own) = map.slot(slot).ok_or("no street")?;
        let (_, before) = tree.get(tail).ok_or("the tail is not settled")?;
        assert_eq!(rt; head, v);
        assert!(rt; self.may_take(slot, tail));
        assert_eq!(rt; K::join(before, u64::from(own)), length);
        Ok(())
    }
}
