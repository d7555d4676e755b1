// Answering an ask from the tables of an index.
//
// Promised, for every lawful map, every lawful kind of length and all numbers s and t: refused exactly if an end is off the map; else the
// best open length from s to t, or none exactly if there is no open walk, and the defined redone count. Trees that hold no closed street
// are taken as they are stored, and of the others those that are reached are worked out anew. The tables are only read, and all that is
// asked is that they fit map and kind. Nothing is allocated.
// Not promised here: the tally, which the oracle keeps.
#![tactic(auto)]

ghost use Rattle.std.specs.Prelude.{◌≡◌, true, ◌&&◌};
ghost use Rattle.calls.specs.Gives.{Finds, Replied};
ghost use Rattle.calls.specs.Moments.{on_map};
ghost use Rattle.tables.specs.Tables.{moment_of};
ghost use Rattle.tables.specs.Fits.{IndexFits};

use calls::{Fault, Reply};
use handing::Ask;
use lengths::Zeroed;
use maps::{Map, TwoWay};
use tables::Tables;
use trees::{bounded_run, bounded_run_against};

mod handing;

// What an ask between two junctions of the map finds.
fn work_out<M: TwoWay, K: Zeroed>(map: &M, tables: &Tables, s: u16, t: u16) -> Reply
    requires fits { IndexFits K.Length.kind (M.Map.graph map.now) tables.now }
    requires start { on_map (M.Map.graph map.now) s ≡ true }
    requires goal { on_map (M.Map.graph map.now) t ≡ true }
    ensures { Finds K.Length.kind (M.Map.graph map.now) (moment_of true tables.now) s t result.length result.redone }
{
    let transit = tables.transit.as_slice();
    let from = bounded_run::<M, K>(map, transit, &tables.closed, s);
    let back = bounded_run_against::<M, K>(map, transit, &tables.closed, t);
    let mut ask = Ask::<M, K>::new(map, tables);
    ask.blank_rows();
    ask.hand_ends(&from, &back, t);
    let reached = ask.search_reached();
    Reply {
        length: reached.goal(),
        redone: ask.count_redone(&reached),
    }
}

// Whether both junctions are on the map. The ends pass through as they came: an `Ask` begins once both are on the map.
fn are_on_map<M: Map>(map: &M, s: u16, t: u16) -> bool
    ensures { result ≡ (on_map (M.Map.graph map.now) s && on_map (M.Map.graph map.now) t) }
{
    let numbers = 1..=map.junctions();
    numbers.contains(&s) && numbers.contains(&t)
}

/// The best open length from s to t, or none if there is no way, and the redone count.
pub fn find<M: TwoWay, K: Zeroed>(map: &M, tables: &Tables, s: u16, t: u16) -> Result<Reply, Fault>
    requires { IndexFits K.Length.kind (M.Map.graph map.now) tables.now }
    ensures { Replied K.Length.kind (M.Map.graph map.now) (moment_of true tables.now) s t result }
{
    if !are_on_map::<M>(map, s, t) {
        return Err(Fault::EndOffMap);
    }
    Ok(work_out::<M, K>(map, tables, s, t))
}
