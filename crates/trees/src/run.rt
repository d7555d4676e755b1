// The bounded run in its steps: candidates are put for the streets of each settled junction, and the best candidate
// settles its head.
ghost use Rattle.std.specs.Prelude.{◌≡◌, ℕ, ◌≤◌, not, ◌||◌, ◌∷◌, length, ◌==◌};
ghost use Rattle.std.specs.List.{AllByRecursion};
ghost use Rattle.std.specs.List.Sorted.{IsPermutation};
ghost use Rattle.walks.specs.Streets.{member};
ghost use Rattle.walks.specs.Runs.{bounded_run};
ghost use Rattle.walks.specs.Trees.{OnMap};
ghost use Rattle.queue.specs.Queues.{held, room, Ordered};
ghost use Rattle.entries.specs.Records.{CandidateAhead};
ghost use Rattle.trees.specs.Marks.{closed_in};
ghost use Rattle.trees.specs.Trees.{table_of};
ghost use Rattle.trees.specs.Candidates.{unsettled_heads};

use super::{BoundedTree, is_closed, is_listed};
use entries::{ByLength, Candidate};
use lengths::{Length, Zeroed, zero_of};
use maps::Map;
use queue::PriorityQueue;
use std::marker::PhantomData;

// What bounds a run: it leaves no junction of the transit list but its root, and takes no closed street.
#[derive(Clone, Copy)]
pub(crate) struct Limits<'t, 'c> {
    pub(crate) transit: &'t [u16],
    pub(crate) closed: &'c [bool; 512],
    pub(crate) root: u16,
}

// A run underway: the map and the limits that it keeps to, the junctions settled, and the candidates held.
#[derive(Drop)]
struct Run<'m, 't, 'c, 'q, M, K> {
    map: &'m M,
    limits: Limits<'t, 'c>,
    tree: BoundedTree,
    queue: PriorityQueue<'q, Candidate>,
    kind: PhantomData<K>,
}

// Heap order is carried by contracts, as in the queue itself, and is no invariant of the run: each step that puts asks for it.
impl<M: Map, K: Length> Run<'_, '_, '_, '_, M, K> {
    ghost use Rattle.trees.specs.Kept.{RunKept, RunUnderway, with_slot, with_open, with_leaving, work_left};

    // Whether the run goes on from v.
    fn may_leave(&self, v: u16) -> bool
        ensures { result ≡ (v == self.now.limits.root || not (member self.now.limits.transit.now v)) }
    {
        v == self.limits.root || !is_listed(self.limits.transit, v)
    }

    // The street in slot e, if its head is unsettled.
    fn street_ahead(&self, e: u16) -> Option<(u16, u16, u32)>
        ensures { result ≡ unsettled_heads (table_of self.now.tree) (M.Map.graph self.now.map.now).street e }
    {
        let street = self.map.slot(e)?;
        self.tree.get(street.1).is_none().then_some(street)
    }

    // Puts the candidate of slot e, from a tail with length l, if the street is open and its head unsettled.
    fn put_street(&mut self, e: u16, l: u64)
        requires ordered { Ordered (CandidateAhead K.Length.kind) self.old.queue }
        requires fits { length (with_slot K.Length.kind (M.Map.graph self.old.map.now) self.old e l) ≤ room self.old.queue }
        ensures kept { RunKept K.Length.kind self.old self.new }
        ensures tree { self.new.tree ≡ self.old.tree }
        ensures held { IsPermutation (with_slot K.Length.kind (M.Map.graph self.old.map.now) self.old e l) (held self.new.queue) }
    {
        if !is_closed(self.limits.closed, e)
            && let Some((_, _, own)) = self.street_ahead(e)
        {
            let length = K::join(l, u64::from(own));
            let _ = self.queue.put::<ByLength<K>>(Candidate { length, slot: e });
        }
    }

    // Puts the candidates of the open streets that leave v, which has length l, for an unsettled head.
    fn put_open(&mut self, v: u16, l: u64)
        requires ordered { Ordered (CandidateAhead K.Length.kind) self.old.queue }
        requires fits { length (with_open K.Length.kind (M.Map.graph self.old.map.now) self.old v l) ≤ room self.old.queue }
        ensures kept { RunKept K.Length.kind self.old self.new }
        ensures tree { self.new.tree ≡ self.old.tree }
        ensures held { IsPermutation (with_open K.Length.kind (M.Map.graph self.old.map.now) self.old v l) (held self.new.queue) }
    {
        let mut next = self.map.first_leaving(v);
        while let Some(e) = next {
            self.put_street(e, l);
            next = self.map.next_leaving(e);
        }
    }

    // Puts the candidates of v, which has length l, if the run goes on from v.
    fn put_leaving(&mut self, v: u16, l: u64)
        requires ordered { Ordered (CandidateAhead K.Length.kind) self.old.queue }
        requires fits { length (with_leaving K.Length.kind (M.Map.graph self.old.map.now) self.old v l) ≤ room self.old.queue }
        ensures kept { RunKept K.Length.kind self.old self.new }
        ensures tree { self.new.tree ≡ self.old.tree }
        ensures held { IsPermutation (with_leaving K.Length.kind (M.Map.graph self.old.map.now) self.old v l) (held self.new.queue) }
    {
        if self.may_leave(v) {
            self.put_open(v, l);
        }
    }

    // One turn of the run: the best candidate settles its head, unless that is settled.
    fn turn(&mut self, best: Candidate)
        requires ordered { Ordered (CandidateAhead K.Length.kind) self.old.queue }
        requires fits { 512 ≤ room self.old.queue }
        requires underway { RunUnderway K.Length.kind (M.Map.graph self.old.map.now) self.old (best ∷ held self.old.queue) }
        requires best { AllByRecursion (CandidateAhead K.Length.kind best) (held self.old.queue) }
        ensures kept { RunKept K.Length.kind self.old self.new }
        ensures underway { RunUnderway K.Length.kind (M.Map.graph self.old.map.now) self.new (held self.new.queue) }
        ensures less { work_left (M.Map.graph self.old.map.now) self.new ≤ work_left (M.Map.graph self.old.map.now) self.old }
    {
        if let Some((_, head, _)) = self.street_ahead(best.slot) {
            self.tree.settle(head, best.slot, best.length);
            self.put_leaving(head, best.length);
        }
    }
}

// The run from a root on the map.
pub(crate) fn run_within<M: Map, K: Zeroed>(map: &M, limits: Limits<'_, '_>) -> BoundedTree
    requires { OnMap (M.Map.graph map.now) limits.root }
    ensures { table_of result ≡ bounded_run K.Length.kind (M.Map.graph map.now) limits.entry.transit.now (closed_in limits.entry.closed.now) limits.entry.root }
{
    let root = limits.root;
    let zero = zero_of::<K>();
    let mut places = [Candidate { length: 0, slot: 0 }; 512];
    let mut run = Run::<M, K> {
        map,
        limits,
        tree: BoundedTree::empty(),
        queue: PriorityQueue::new::<ByLength<K>>(&mut places),
        kind: PhantomData,
    };
    run.tree.settle(root, 0, zero);
    run.put_leaving(root, zero);
    while let Some(best) = run.queue.take::<ByLength<K>>() {
        run.turn(best);
    }
    run.tree
}
