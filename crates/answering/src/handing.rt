// The legs that an ask hands on: the ends filled in, and the rows of affected trees worked out anew once they are reached.
ghost use Rattle.std.specs.Prelude.{◌≡◌, ℕ, ◌+◌, ◌<◌, ◌≤◌, true, not, ◌&&◌, length, is_some, ◌==◌, slice_index, take};
ghost use Rattle.walks.specs.Streets.{empty_set};
ghost use Rattle.walks.specs.Walks.{Leads, BestOpen};
ghost use Rattle.walks.specs.Trees.{Tells};
ghost use Rattle.walks.specs.Legs.{grid};
ghost use Rattle.asks.specs.Reached.{passing};
ghost use Rattle.legs.specs.Tables.{positions_of, leg_of, length_at};
ghost use Rattle.trees.specs.Trees.{table_of};
ghost use Rattle.tables.specs.Rows.{with_row};
ghost use Rattle.tables.specs.Tables.{transit_of};
ghost use Rattle.answering.specs.Handing.{RowsBlank, EndsHanded, RowsFilled, Round, is_counted, run_anew};

use legs::{LegTable, Reached, search};
use lengths::Zeroed;
use maps::Map;
use std::marker::PhantomData;
use tables::{Tables, TreeRecord, fill_row, length_in};
use trees::{BoundedTree, bounded_run};

// An ask: the map and the tables that it reads, and the legs that it hands on.
#[derive(Drop)]
pub(crate) struct Ask<'a, M, K> {
    map: &'a M,
    tables: &'a Tables,
    legs: LegTable,
    kind: PhantomData<K>,
    ghost positions: { positions_of legs ≡ length (transit_of tables.now) },
}

// Whether a stored tree holds a closed street.
fn is_affected(kept: &TreeRecord) -> bool
    ensures { result ≡ not (kept.now.closed == 0) }
{
    kept.closed != 0
}

// Whether a position, with its length over the legs, is reached and its tree holds a closed street.
fn is_redone(length: Option<u64>, kept: &TreeRecord) -> bool
    ensures { result ≡ (is_some length && not (kept.now.closed == 0)) }
{
    length.is_some() && is_affected(kept)
}

// That map and tables stay is said by two short clauses of each method: a relation over them would say no more.
impl<'a, M: Map, K: Zeroed> Ask<'a, M, K> {
    // An ask with the stored legs.
    pub(crate) fn new(map: &'a M, tables: &'a Tables) -> Self
        requires { positions_of tables.now.legs ≡ length (transit_of tables.now) }
        ensures map { result.map ≡ map.entry }
        ensures tables { result.tables ≡ tables.entry }
        ensures legs { result.legs ≡ tables.now.legs }
    {
        Ask {
            map,
            tables,
            legs: tables.legs,
            kind: PhantomData,
        }
    }

    // The stored trees of the positions.
    fn stored(&self) -> &'a [TreeRecord]
        ensures trees { result.now ≡ take (length (transit_of self.now.tables.now)) self.now.tables.now.trees }
        ensures all { length result.now ≡ length (transit_of self.now.tables.now) }
    {
        &self.tables.trees[..self.tables.transit.len()]
    }

    // Leaves out the legs from each position whose tree holds a closed street.
    pub(crate) fn blank_rows(&mut self)
        ensures map { self.new.map ≡ self.old.map }
        ensures tables { self.new.tables ≡ self.old.tables }
        ensures rows { RowsBlank (length (transit_of self.old.tables.now)) (transit_of self.old.tables.now) self.old.tables.now.trees (leg_of self.old.legs) (leg_of self.new.legs) }
    {
        let transit = self.tables.transit.as_slice();
        let stored = self.stored();
        let legs = &mut self.legs;
        for (i, kept) in stored.iter().enumerate() {
            if is_affected(kept) {
                fill_row(legs, i as u16 + 1, &BoundedTree::empty(), transit);
            }
        }
    }

    // The lengths from the start to every position and to the goal t, and from every position to the goal.
    pub(crate) fn hand_ends(&mut self, from: &BoundedTree, back: &BoundedTree, t: u16)
        ensures map { self.new.map ≡ self.old.map }
        ensures tables { self.new.tables ≡ self.old.tables }
        ensures ends { EndsHanded (transit_of self.old.tables.now) (table_of from.now) (table_of back.now) t (leg_of self.old.legs) (leg_of self.new.legs) }
    {
        let legs = &mut self.legs;
        for (i, &v) in self.tables.transit.as_slice().iter().enumerate() {
            legs.set_access(i as u16 + 1, length_in(from, v));
            legs.set_egress(i as u16 + 1, length_in(back, v));
        }
        legs.set_direct(length_in(from, t));
    }

    // Works out anew the legs from the position after i others.
    fn redo_row(&mut self, i: usize)
        requires { i < length (transit_of self.old.tables.now) }
        ensures map { self.new.map ≡ self.old.map }
        ensures tables { self.new.tables ≡ self.old.tables }
        ensures legs { leg_of self.new.legs ≡ with_row (transit_of self.old.tables.now) (i + 1) (run_anew K.Length.kind (M.Map.graph self.old.map.now) self.old.tables.now (slice_index (transit_of self.old.tables.now) i)) (leg_of self.old.legs) }
    {
        let transit = self.tables.transit.as_slice();
        let tree = bounded_run::<M, K>(self.map, transit, &self.tables.closed, transit[i]);
        fill_row(&mut self.legs, i as u16 + 1, &tree, transit);
    }

    // Fills in the rows of affected trees that are newly reached, and tells whether there was one.
    fn fill_reached(&mut self, reached: &Reached, filled: &mut [bool; 16]) -> bool
        ensures map { self.new.map ≡ self.old.map }
        ensures tables { self.new.tables ≡ self.old.tables }
        ensures round { Round (length (transit_of self.old.tables.now)) (transit_of self.old.tables.now) self.old.tables.now.trees (run_anew K.Length.kind (M.Map.graph self.old.map.now) self.old.tables.now) reached.now self.old.legs self.new.legs filled.old filled.new result }
    {
        let stored = self.stored();
        let mut more = false;
        for (i, kept) in stored.iter().enumerate() {
            if is_redone(reached.position(i as u16 + 1), kept) && !filled[i] {
                self.redo_row(i);
                filled[i] = true;
                more = true;
            }
        }
        more
    }

    // Finds the best ways over the legs, and as long as rows of affected trees are newly reached, fills them in and finds them again.
    pub(crate) fn search_reached(&mut self) -> Reached
        ensures map { self.new.map ≡ self.old.map }
        ensures tables { self.new.tables ≡ self.old.tables }
        ensures rows { RowsFilled (transit_of self.old.tables.now) self.old.tables.now.trees (run_anew K.Length.kind (M.Map.graph self.old.map.now) self.old.tables.now) (is_counted result self.old.tables.now.trees) (leg_of self.old.legs) (leg_of self.new.legs) }
        ensures best { (v : ℕ) → BestOpen K.Length.kind (grid (leg_of self.new.legs)) empty_set 0 v (length_at result v) }
        ensures reached { (v : ℕ) → Tells (is_some (length_at result v)) (Leads (grid (leg_of self.new.legs)) empty_set 0 v) }
    {
        // A mark for each position, since rows are filled in any order.
        let mut filled = [false; 16];
        loop {
            let reached = search::<K>(&self.legs);
            if !self.fill_reached(&reached, &mut filled) {
                return reached;
            }
        }
    }

    // How many positions are reached whose tree holds a closed street.
    pub(crate) fn count_redone(&self, reached: &Reached) -> u8
        ensures { result ≡ passing (is_counted reached.now self.now.tables.now.trees) (length (transit_of self.now.tables.now)) }
    {
        // By a loop: over a zip that is filtered and counted the goal `returns` stays open.
        let mut redone = 0;
        for (i, kept) in self.stored().iter().enumerate() {
            if is_redone(reached.position(i as u16 + 1), kept) {
                redone += 1;
            }
        }
        redone
    }
}
