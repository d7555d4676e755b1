// The oracle before it is built.
ghost use Rattle.std.specs.Prelude.{◌≡◌, true, false, is_ok};
ghost use Rattle.calls.specs.Gives.{outcome};
ghost use Rattle.calls.specs.Moments.{created, name_fault, after};
ghost use Rattle.calls.specs.declared.Call.TheVariants.{Name, Build};
ghost use Rattle.tables.specs.Tables.{transit_of, moment_of};
ghost use Rattle.tables.specs.Fits.{PlanFits, IndexFits};
ghost use Rattle.oracle.specs.States.{with_name as tables_with_name};

use crate::index::Index;
use calls::Fault;
use lengths::Zeroed;
use maps::TwoWay;
use std::marker::PhantomData;
use storing::store;
use tables::Tables;
use trees::is_listed;

/// An oracle whose transit nodes are still being named: a map with its plain tables.
#[derive(Drop)]
pub struct Plan<M, K> {
    pub(crate) map: M,
    pub(crate) tables: Tables,
    pub(crate) kind: PhantomData<K>,
}

impl<M: TwoWay, K: Zeroed> Plan<M, K> {
    /// A plan over the map: nothing named, nothing closed, tally 0.
    pub fn new(map: M) -> Self
        ensures same { result.map ≡ map }
        ensures moment { moment_of false result.tables ≡ created }
        ensures fits { PlanFits (M.Map.graph map) result.tables }
    {
        Plan {
            map,
            tables: Tables::new(),
            kind: PhantomData,
        }
    }

    /// Adds junction v to the end of the transit list.
    pub fn name(&mut self, v: u16) -> Result<(), Fault>
        requires { PlanFits (M.Map.graph self.old.map) self.old.tables }
        ensures answer { result ≡ outcome (name_fault (M.Map.graph self.old.map) (transit_of self.old.tables) v) }
        ensures kept { is_ok result ≡ false → self.new ≡ self.old }
        ensures named { is_ok result ≡ true → self.new ≡ record self.old { tables = tables_with_name self.old.tables v } }
        ensures fits { PlanFits (M.Map.graph self.new.map) self.new.tables }
        ensures same { self.new.map ≡ self.old.map }
        ensures moment { moment_of false self.new.tables ≡ after (M.Map.graph self.old.map) (moment_of false self.old.tables) (Name v) }
    {
        if !(1..=self.map.junctions()).contains(&v) {
            return Err(Fault::OffMap);
        }
        if is_listed(self.tables.transit.as_slice(), v) {
            return Err(Fault::AlreadyNamed);
        }
        self.tables.transit.try_push(v).map_err(|_| Fault::ListFull)
    }

    /// An index: the trees without any closure, the legs, the inverted index, and of each tree how many closed streets it holds.
    pub fn build(self) -> Index<M, K>
        requires { PlanFits (M.Map.graph self.map) self.tables }
        ensures same { result.map ≡ self.map }
        ensures kept { result.tables ≡ record self.tables { trees = result.tables.trees; legs = result.tables.legs; holders = result.tables.holders } }
        ensures fits { IndexFits K.Length.kind (M.Map.graph result.map) result.tables }
        ensures moment { moment_of true result.tables ≡ after (M.Map.graph self.map) (moment_of false self.tables) Build }
    {
        // The index is made first and its trees are stored in it: the tables are then moved less often than when they are stored before.
        let mut index = Index {
            map: self.map,
            tables: self.tables,
            kind: PhantomData,
        };
        store::<M, K>(&index.map, &mut index.tables);
        index
    }

    /// The map, given back.
    pub fn into_map(self) -> M
        ensures { result ≡ self.map }
    {
        self.map
    }
}
