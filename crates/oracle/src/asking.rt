// An ask, which the tally counts.
ghost use Rattle.std.specs.Prelude.{◌≡◌, true, false, is_ok};
ghost use Rattle.calls.specs.Gives.{Replied};
ghost use Rattle.calls.specs.Moments.{after};
ghost use Rattle.calls.specs.declared.Call.TheVariants.{Ask};
ghost use Rattle.tables.specs.Tables.{moment_of};
ghost use Rattle.tables.specs.Fits.{IndexFits};
ghost use Rattle.oracle.specs.States.{with_ask};

use crate::index::Index;
use answering::find;
use calls::{Fault, Reply};
use lengths::Zeroed;
use maps::TwoWay;

impl<M: TwoWay, K: Zeroed> Index<M, K> {
    /// The best open length from s to t, or none if there is no way, and the redone count.
    pub fn ask(&mut self, s: u16, t: u16) -> Result<Reply, Fault>
        requires { IndexFits K.Length.kind (M.Map.graph self.old.map) self.old.tables }
        ensures answer { Replied K.Length.kind (M.Map.graph self.old.map) (moment_of true self.old.tables) s t result }
        ensures kept { is_ok result ≡ false → self.new ≡ self.old }
        ensures counted { is_ok result ≡ true → self.new ≡ record self.old { tables = with_ask self.old.tables } }
        ensures fits { IndexFits K.Length.kind (M.Map.graph self.new.map) self.new.tables }
        ensures same { self.new.map ≡ self.old.map }
        ensures moment { moment_of true self.new.tables ≡ after (M.Map.graph self.old.map) (moment_of true self.old.tables) (Ask s t) }
    {
        let reply = find::<M, K>(&self.map, &self.tables, s, t)?;
        self.tables.tally = self.tables.tally.saturating_add(1);
        Ok(reply)
    }
}
