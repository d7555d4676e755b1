// Closing and reopening a street in the tables of an index.
//
// Promised, for every lawful map, every lawful kind of length and every number e: a street that may be closed or reopened has its mark
// changed, and the counts of exactly the trees that hold it, and all else in the tables is as before; any other is refused with the first
// fault that holds, and the tables are then as before. All that is asked, that the tables fit map and kind, holds again after each call.
// Nothing is allocated. That the tables fit is carried by contracts and by no invariant.
// Not promised here: what closures mean for an ask. The crate `answering` says it.
#![tactic(auto)]

ghost use Rattle.std.specs.Prelude.{◌≡◌, true, false, is_ok};
ghost use Rattle.calls.specs.Gives.{outcome};
ghost use Rattle.calls.specs.Moments.{close_fault, reopen_fault, after};
ghost use Rattle.calls.specs.declared.Call.TheVariants.{Close, Reopen};
ghost use Rattle.tables.specs.Tables.{closed_of, moment_of};
ghost use Rattle.tables.specs.Fits.{IndexFits};
ghost use Rattle.marking.specs.Marking.{Remarked, mark_fault, mark_call};

use calls::Fault;
use counts::recount;
use lengths::Length;
use maps::Map;
use tables::Tables;

mod counts;

// Street e is closed or open from now on. It is handed what the two public calls are, which have no more in common.
fn remark<M: Map, K: Length>(
    map: &M,
    tables: &mut Tables,
    e: u16,
    closed: bool,
) -> Result<(), Fault>
    requires { IndexFits K.Length.kind (M.Map.graph map.now) tables.old }
    ensures answer { result ≡ outcome (mark_fault closed (M.Map.graph map.now) (closed_of tables.old) e) }
    ensures kept { is_ok result ≡ false → tables.new ≡ tables.old }
    ensures marked { is_ok result ≡ true → Remarked e closed tables.old tables.new }
    ensures fits { IndexFits K.Length.kind (M.Map.graph map.now) tables.new }
    ensures moment { moment_of true tables.new ≡ after (M.Map.graph map.now) (moment_of true tables.old) (mark_call closed e) }
{
    if map.slot(e).is_none() {
        return Err(Fault::SlotAbsent);
    }
    let at = usize::from(e) - 1;
    if tables.closed[at] == closed {
        return Err(if closed {
            Fault::AlreadyClosed
        } else {
            Fault::NotClosed
        });
    }
    tables.closed[at] = closed;
    let Tables { trees, holders, .. } = tables;
    let holders = &*holders;
    let row = &holders[at];
    recount(trees, &row.positions[..row.count], closed);
    Ok(())
}

/// Closes street e.
pub fn close_street<M: Map, K: Length>(map: &M, tables: &mut Tables, e: u16) -> Result<(), Fault>
    requires { IndexFits K.Length.kind (M.Map.graph map.now) tables.old }
    ensures answer { result ≡ outcome (close_fault (M.Map.graph map.now) (closed_of tables.old) e) }
    ensures kept { is_ok result ≡ false → tables.new ≡ tables.old }
    ensures marked { is_ok result ≡ true → Remarked e true tables.old tables.new }
    ensures fits { IndexFits K.Length.kind (M.Map.graph map.now) tables.new }
    ensures moment { moment_of true tables.new ≡ after (M.Map.graph map.now) (moment_of true tables.old) (Close e) }
{
    remark::<M, K>(map, tables, e, true)
}

/// Reopens street e.
pub fn reopen_street<M: Map, K: Length>(map: &M, tables: &mut Tables, e: u16) -> Result<(), Fault>
    requires { IndexFits K.Length.kind (M.Map.graph map.now) tables.old }
    ensures answer { result ≡ outcome (reopen_fault (M.Map.graph map.now) (closed_of tables.old) e) }
    ensures kept { is_ok result ≡ false → tables.new ≡ tables.old }
    ensures marked { is_ok result ≡ true → Remarked e false tables.old tables.new }
    ensures fits { IndexFits K.Length.kind (M.Map.graph map.now) tables.new }
    ensures moment { moment_of true tables.new ≡ after (M.Map.graph map.now) (moment_of true tables.old) (Reopen e) }
{
    remark::<M, K>(map, tables, e, false)
}
