// A table of legs: a row for the start and one for each list position, 17 cells to a row, the goal's cell first.
ghost use Rattle.std.specs.Prelude.{◌≡◌, ℕ, ◌^◌, ◌<◌, ◌≤◌, min, true, false, Some};
ghost use Rattle.std.specs.List.{All};
ghost use Rattle.walks.specs.Legs.{leg_between};

use super::GOAL;

/// Legs between the start, at most 16 list positions and the goal, each present or absent.
#[derive(Clone, Copy)]
pub struct LegTable {
    pub(crate) count: u16,
    cells: [Option<u64>; 289],
    ghost few: { count ≤ 16 },
    ghost coded: { All (λ o. (w : ℕ) → o ≡ Some w → w < 2 ^ 64) cells },
}

impl LegTable {
    ghost use Rattle.legs.specs.Tables.{positions_of, is_position, are_positions, cell_of, leg_of, no_legs, with_leg};

    /// A table for `count` list positions, at most 16, with no leg.
    pub fn new(count: u16) -> LegTable
        ensures positions { positions_of result ≡ min count 16 }
        ensures legs { leg_of result ≡ no_legs }
    {
        LegTable {
            count: count.min(16),
            cells: [None; 289],
        }
    }

    /// The leg from one node to another: 0 is the start, 1 to 16 are list positions, 31 is the goal.
    #[tactic(auto, unfolding(crate::specs::Tables::leg_of))]
    pub fn leg(&self, from: u16, to: u16) -> Option<u64>
        ensures { result ≡ leg_of self.now from to }
    {
        if self.joins(from, to) {
            self.cells[Self::cell(from, to)]
        } else {
            None
        }
    }

    // Four setters over one `set`: each name says which leg it means, and each asks for itself which numbers mean one.

    /// Sets the length from the start to a list position; any other number changes nothing.
    pub fn set_access(&mut self, position: u16, length: Option<u64>)
        ensures positions { positions_of self.new ≡ positions_of self.old }
        ensures legs { leg_of self.new ≡ with_leg (is_position (positions_of self.old) position) 0 position length (leg_of self.old) }
        ensures same { is_position (positions_of self.old) position ≡ false → self.new ≡ self.old }
    {
        if self.holds(position) {
            self.set(0, position, length);
        }
    }

    /// Sets the length from one list position to another; equal positions and any other number change nothing.
    pub fn set_between(&mut self, from: u16, to: u16, length: Option<u64>)
        ensures positions { positions_of self.new ≡ positions_of self.old }
        ensures legs { leg_of self.new ≡ with_leg (are_positions (positions_of self.old) from to) from to length (leg_of self.old) }
        ensures same { are_positions (positions_of self.old) from to ≡ false → self.new ≡ self.old }
    {
        if self.holds(from) && self.holds(to) && from != to {
            self.set(from, to, length);
        }
    }

    /// Sets the length from a list position to the goal; any other number changes nothing.
    pub fn set_egress(&mut self, position: u16, length: Option<u64>)
        ensures positions { positions_of self.new ≡ positions_of self.old }
        ensures legs { leg_of self.new ≡ with_leg (is_position (positions_of self.old) position) position 31 length (leg_of self.old) }
        ensures same { is_position (positions_of self.old) position ≡ false → self.new ≡ self.old }
    {
        if self.holds(position) {
            self.set(position, GOAL, length);
        }
    }

    /// Sets the length from the start straight to the goal.
    pub fn set_direct(&mut self, length: Option<u64>)
        ensures positions { positions_of self.new ≡ positions_of self.old }
        ensures legs { leg_of self.new ≡ with_leg true 0 31 length (leg_of self.old) }
    {
        self.set(0, GOAL, length);
    }

    // Whether there is such a list position.
    fn holds(&self, position: u16) -> bool
        ensures { result ≡ is_position (positions_of self.now) position }
    {
        // Two comparisons and no `contains`, by which a search takes longer.
        position != 0 && position <= self.count
    }

    // Whether there may be a leg from one node to another.
    fn joins(&self, from: u16, to: u16) -> bool
        ensures { result ≡ leg_between (positions_of self.now) from to }
    {
        from <= self.count && (self.holds(to) || to == GOAL) && from != to
    }

    // Sets a leg that may be there.
    fn set(&mut self, from: u16, to: u16, length: Option<u64>)
        requires { leg_between (positions_of self.old) from to ≡ true }
        ensures positions { positions_of self.new ≡ positions_of self.old }
        ensures legs { leg_of self.new ≡ with_leg true from to length (leg_of self.old) }
    {
        self.cells[Self::cell(from, to)] = length;
    }

    // The cell of the leg from one node to another. One array and not 17 rows: the proof of `set` (`returns-clause-legs`) has no fact
    // that the row of an array of rows that is written to has 17 cells.
    fn cell(from: u16, to: u16) -> usize
        requires { (from ≤ 16) × (to ≤ 31) }
        ensures { result ≡ cell_of from to }
    {
        let column = if to == GOAL { 0 } else { to };
        usize::from(from * 17 + column)
    }
}
