// The built oracle.
ghost use Rattle.std.specs.Prelude.{◌≡◌, true, false, is_ok};
ghost use Rattle.asks.specs.Handed.{stored_legs};
ghost use Rattle.calls.specs.Gives.{outcome};
ghost use Rattle.calls.specs.Moments.{close_fault, reopen_fault, after};
ghost use Rattle.calls.specs.declared.Call.TheVariants.{Close, Reopen, Replan};
ghost use Rattle.tables.specs.Tables.{closed_of, moment_of};
ghost use Rattle.tables.specs.Fits.{PlanFits, IndexFits};
ghost use Rattle.marking.specs.Marking.{Remarked};
ghost use Rattle.oracle.specs.States.{unnamed};
ghost use Rattle.oracle.specs.Looks.{tree_look, index_look};

use crate::plan::Plan;
use arrayvec::ArrayVec;
use calls::Fault;
use lengths::Zeroed;
use maps::TwoWay;
use marking::{close_street, reopen_street};
use std::marker::PhantomData;
use tables::Tables;

/// An oracle that answers questions: a map with its plain tables, the trees, legs and inverted index among them.
#[derive(Drop)]
pub struct Index<M, K> {
    pub(crate) map: M,
    pub(crate) tables: Tables,
    pub(crate) kind: PhantomData<K>,
}

impl<M: TwoWay, K: Zeroed> Index<M, K> {
    /// Closes street e.
    pub fn close(&mut self, e: u16) -> Result<(), Fault>
        requires { IndexFits K.Length.kind (M.Map.graph self.old.map) self.old.tables }
        ensures answer { result ≡ outcome (close_fault (M.Map.graph self.old.map) (closed_of self.old.tables) e) }
        ensures kept { is_ok result ≡ false → self.new ≡ self.old }
        ensures marked { is_ok result ≡ true → Remarked e true self.old.tables self.new.tables }
        ensures fits { IndexFits K.Length.kind (M.Map.graph self.new.map) self.new.tables }
        ensures same { self.new.map ≡ self.old.map }
        ensures moment { moment_of true self.new.tables ≡ after (M.Map.graph self.old.map) (moment_of true self.old.tables) (Close e) }
    {
        close_street::<M, K>(&self.map, &mut self.tables, e)
    }

    /// Reopens street e.
    pub fn reopen(&mut self, e: u16) -> Result<(), Fault>
        requires { IndexFits K.Length.kind (M.Map.graph self.old.map) self.old.tables }
        ensures answer { result ≡ outcome (reopen_fault (M.Map.graph self.old.map) (closed_of self.old.tables) e) }
        ensures kept { is_ok result ≡ false → self.new ≡ self.old }
        ensures marked { is_ok result ≡ true → Remarked e false self.old.tables self.new.tables }
        ensures fits { IndexFits K.Length.kind (M.Map.graph self.new.map) self.new.tables }
        ensures same { self.new.map ≡ self.old.map }
        ensures moment { moment_of true self.new.tables ≡ after (M.Map.graph self.old.map) (moment_of true self.old.tables) (Reopen e) }
    {
        reopen_street::<M, K>(&self.map, &mut self.tables, e)
    }

    /// How many asks were answered since creation, or 65,535 once that is reached.
    pub fn tally(&self) -> u16
        ensures { result ≡ (moment_of true self.now.tables).tally }
    {
        self.tables.tally
    }

    /// Slot and length of junction v in the tree at a list position, counted from 1; absent outside the list and for an unsettled junction.
    pub fn look_tree(&self, position: u16, v: u16) -> Option<(u16, u64)>
        requires { IndexFits K.Length.kind (M.Map.graph self.now.map) self.now.tables }
        ensures { result ≡ tree_look K.Length.kind (M.Map.graph self.now.map) (moment_of true self.now.tables).listed position v }
    {
        self.tables.tree_entry(position, v)
    }

    /// The leg from one list position to another, counted from 1; absent from a node to itself and outside the list.
    pub fn look_leg(&self, from: u16, to: u16) -> Option<u64>
        requires { IndexFits K.Length.kind (M.Map.graph self.now.map) self.now.tables }
        ensures { result ≡ stored_legs K.Length.kind (M.Map.graph self.now.map) (moment_of true self.now.tables).listed from to }
    {
        self.tables.legs.leg(from, to)
    }

    /// The k-th list position, k from 1, of the trees that hold slot e; absent outside its range.
    pub fn look_index(&self, e: u16, k: u16) -> Option<u16>
        requires { IndexFits K.Length.kind (M.Map.graph self.now.map) self.now.tables }
        ensures { result ≡ index_look K.Length.kind (M.Map.graph self.now.map) (moment_of true self.now.tables).listed e k }
    {
        let at = e.checked_sub(1)?;
        let row = self.tables.holders.get(usize::from(at))?;
        row.nth_position(k)
    }

    /// A plan again: closures and tally stay, the transit list is emptied.
    pub fn replan(self) -> Plan<M, K>
        requires { IndexFits K.Length.kind (M.Map.graph self.map) self.tables }
        ensures whole { result ≡ record { map = self.map; tables = unnamed self.tables; kind = self.kind } }
        ensures fits { PlanFits (M.Map.graph result.map) result.tables }
        ensures same { result.map ≡ self.map }
        ensures moment { moment_of false result.tables ≡ after (M.Map.graph self.map) (moment_of true self.tables) Replan }
    {
        // A new list among the tables and no change of them: they are then moved less often.
        Plan {
            map: self.map,
            tables: Tables {
                transit: ArrayVec::new(),
                ..self.tables
            },
            kind: PhantomData,
        }
    }

    /// The map, given back.
    pub fn into_map(self) -> M
        ensures { result ≡ self.map }
    {
        self.map
    }
}
