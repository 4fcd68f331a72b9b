// The river in a month: flow and available flow at each row, and walks along a path. A walk calls itself on the row below. All that a walk
// is given fits in registers: the river, the table and short rows are 64 places by reference, and the change of a row is a closure that holds
// the number that it takes or adds; so that its call costs no more than a turn of a loop.
#![tactic(auto)]

ghost use Rattle.std.specs.Prelude.{◌≡◌, cond, ltb, ◌<◌, get_or};
ghost use Rattle.rules.specs.Path.{until_row};
ghost use Rattle.rules.specs.River.{diverted, released, returned};
ghost use Rattle.records.specs.Table.{path_by};
ghost use Rattle.river.specs.Arrays.{seen_on, CanDivert, CanReturn, CanRelease, CanWalk, Changed, Walked, Raised};

use records::network::RowsBelow;

pub mod setting;

// What a look down a path sees: the row of a right that is short already, or the row with the lowest available flow. Neither is a failure, so
// that it is an enum of its own and no `Result`.
#[derive(Clone, Copy)]
pub enum Seen {
    Called(usize),
    Low(usize),
}

// Flow and available flow at each row. Two lists and not one of pairs: the rules' levels are told by a list of each, a release changes flow
// alone, and a look reads available flow alone, which in pairs would lie at twice the stride. Short rows are a list of their own, since no
// walk changes them.
#[derive(Drop)]
pub struct River {
    pub flow: [u64; 64],
    pub available: [u64; 64],
}

impl River {
    // The same change of flow and available flow all along the path.
    fn walk<F: Fn(u64) -> u64 + Copy>(&mut self, below: &RowsBelow, row: usize, change: F)
        requires { CanWalk (F.pre change) below.now.rows row self.old.flow self.old.available }
        ensures { Changed (F.post change) (path_by below.now.rows row) self.old.flow self.old.available self.new.flow self.new.available }
    {
        self.flow[row] = change(self.flow[row]);
        self.available[row] = change(self.available[row]);
        if let Some(next) = below.next(row) {
            self.walk(below, next, change);
        }
    }

    // d leaves flow and available flow all along the path.
    pub fn divert(&mut self, below: &RowsBelow, row: usize, d: u64)
        requires { CanDivert below.now.rows row d self.old.flow self.old.available }
        ensures { Walked (diverted d) (path_by below.now.rows row) self.old.flow self.old.available self.new.flow self.new.available }
    {
        self.walk(below, row, move |x| x - d);
    }

    // d more in flow and available flow all along the path.
    pub fn put_back(&mut self, below: &RowsBelow, row: usize, d: u64)
        requires { CanReturn below.now.rows row d self.old.flow self.old.available }
        ensures { Walked (returned d) (path_by below.now.rows row) self.old.flow self.old.available self.new.flow self.new.available }
    {
        self.walk(below, row, move |x| x + d);
    }

    // d more in flow along the path as far as just above the row `stop`. It is not a `walk`, since it changes one list of the two and ends
    // before the path does.
    #[tactic(auto, using(crate::proofs::Walks::releases))]
    pub fn release(&mut self, below: &RowsBelow, row: usize, stop: usize, d: u64)
        requires { CanRelease below.now.rows row d self.old.flow }
        ensures { Raised (released d) (until_row stop (path_by below.now.rows row)) self.old.flow self.new.flow × (self.new.available ≡ self.old.available) }
    {
        if row == stop {
            return;
        }
        self.flow[row] += d;
        if let Some(next) = below.next(row) {
            self.release(below, next, stop, d);
        }
    }

    // The lower of two rows; the one already found where they are level.
    fn lower(&self, row: usize, low: usize) -> usize
        requires { (row < 64) × (low < 64) }
        ensures { result ≡ cond (ltb (get_or self.now.available row 0) (get_or self.now.available low 0)) row low }
    {
        if self.available[row] < self.available[low] {
            row
        } else {
            low
        }
    }

    // The first row down the path at which a right is short; where there is none, the first row with the lowest available flow, `low` being the lowest so far.
    #[tactic(auto, using(crate::proofs::Walks::looks))]
    pub fn look(&self, below: &RowsBelow, short: &[bool; 64], row: usize, low: usize) -> Seen
        requires { (row < 64) × (low < 64) }
        ensures { result ≡ seen_on short.now self.now.available low (path_by below.now.rows row) }
    {
        if short[row] {
            return Seen::Called(row);
        }
        let lowest = self.lower(row, low);
        let Some(next) = below.next(row) else {
            return Seen::Low(lowest);
        };
        self.look(below, short, next, lowest)
    }
}
