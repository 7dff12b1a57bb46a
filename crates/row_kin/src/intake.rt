//! A row takes in the roots before it that lie in its subtree.
ghost use Rattle.std.specs.Prelude.{◌≡◌, ℕ, ◌+◌, ◌-◌, ◌<◌, ◌≤◌, ◌⊎◌, true, false, length};
ghost use Rattle.list_cuts.specs.Cuts.{number_at};
ghost use Rattle.row_kin.specs.Taken.{taker, first_of, taken_by, parent_by, placed_by, Looks};

/// Where a row's subtree begins, and how many rows it takes in.
#[derive(Clone, Copy)]
pub(crate) struct Intake {
    pub(crate) first: usize,
    pub(crate) count: u32,
}

/// A row that takes in rows before it. `lows` says where the subtrees of all rows begin.
#[derive(Clone, Copy)]
pub(crate) struct Taker<'a> {
    pub lows: &'a [u32],
    pub row: usize,
}

impl Taker<'_> {
    // Whether the row takes in the one before top.
    fn takes(&self, top: usize) -> bool
        requires within { self.now.row < length self.now.lows.now }
        requires room { top ≤ self.now.row }
        ensures yes { result ≡ true → (0 < top) × (number_at self.now.lows.now self.now.row ≤ number_at self.now.lows.now (top - 1)) }
        ensures no { result ≡ false → (top ≡ 0) ⊎ (number_at self.now.lows.now (top - 1) < number_at self.now.lows.now self.now.row) }
    {
        top > 0 && self.lows[self.row] <= self.lows[top - 1]
    }

    /// Takes in the roots before `start` that lie in the row's subtree, from the first row of one to the row before it, and notes that
    /// the row is their parent.
    pub(crate) fn take_in(&self, start: usize, parents: &mut [u32], firsts: &[u32]) -> Intake
        requires few { length self.now.lows.now ≤ 4294967295 }
        requires within { self.now.row < length self.now.lows.now }
        requires parents { length parents.old ≡ length self.now.lows.now }
        requires firsts { length firsts.now ≡ length self.now.lows.now }
        requires order { start ≤ self.now.row }
        requires looks { Looks self.now.lows.now self.now.row start }
        requires roots { (k : ℕ) → k < start → number_at parents.old k ≡ parent_by self.now.lows.now self.now.row k }
        requires begun { (k : ℕ) → k < start → number_at firsts.now k ≡ first_of self.now.lows.now k }
        ensures first { result.first ≡ first_of self.now.lows.now self.now.row }
        ensures low { result.first ≤ start }
        ensures count { result.count ≡ taken_by self.now.lows.now self.now.row start }
        ensures taken { (k : ℕ) → k < start → number_at parents.new k ≡ parent_by self.now.lows.now (self.now.row + 1) k }
        ensures kept { (k : ℕ) → start ≤ k → number_at parents.new k ≡ number_at parents.old k }
    {
        let mut top = start;
        let mut count: u32 = 0;
        while self.takes(top) {
            parents[top - 1] = self.row as u32;
            top = firsts[top - 1] as usize;
            count += 1;
        }
        Intake { first: top, count }
    }

    /// Numbers the rows before `start` that the row has taken in, from the last one down.
    pub(crate) fn number_taken(
        &self,
        start: usize,
        intake: Intake,
        firsts: &[u32],
        places: &mut [u32],
    )
        requires few { length self.now.lows.now ≤ 4294967295 }
        requires within { self.now.row < length self.now.lows.now }
        requires places { length places.old ≡ length self.now.lows.now }
        requires firsts { length firsts.now ≡ length self.now.lows.now }
        requires order { start ≤ self.now.row }
        requires looks { Looks self.now.lows.now self.now.row start }
        requires first { intake.first ≡ first_of self.now.lows.now self.now.row }
        requires count { intake.count ≡ taken_by self.now.lows.now self.now.row start }
        requires begun { (k : ℕ) → k < start → number_at firsts.now k ≡ first_of self.now.lows.now k }
        ensures placed { (k : ℕ) → k < start → number_at places.new k ≡ placed_by self.now.lows.now self.now.row k (number_at places.old k) }
        ensures kept { (k : ℕ) → start ≤ k → number_at places.new k ≡ number_at places.old k }
    {
        let mut top = start;
        let mut rank = intake.count;
        while top > intake.first {
            rank -= 1;
            places[top - 1] = rank;
            top = firsts[top - 1] as usize;
        }
    }

    /// Moves the places of the row's children from `start` on behind those of `count` others.
    pub(crate) fn move_behind(&self, start: usize, count: u32, firsts: &[u32], places: &mut [u32])
        requires few { length self.now.lows.now ≤ 4294967295 }
        requires within { self.now.row < length self.now.lows.now }
        requires places { length places.old ≡ length self.now.lows.now }
        requires firsts { length firsts.now ≡ length self.now.lows.now }
        requires order { start ≤ self.now.row }
        requires looks { Looks self.now.lows.now self.now.row start }
        requires begun { (k : ℕ) → k < self.now.row → number_at firsts.now k ≡ first_of self.now.lows.now k }
        requires own { (k : ℕ) → start ≤ k → k < self.now.row → taker self.now.lows.now k ≡ self.now.row → number_at places.old k + count ≡ taken_by self.now.lows.now self.now.row k }
        ensures placed { (k : ℕ) → start ≤ k → k < self.now.row → number_at places.new k ≡ placed_by self.now.lows.now self.now.row k (number_at places.old k) }
        ensures before { (k : ℕ) → k < start → number_at places.new k ≡ number_at places.old k }
        ensures kept { (k : ℕ) → self.now.row ≤ k → number_at places.new k ≡ number_at places.old k }
    {
        let mut top = self.row;
        while top > start {
            places[top - 1] += count;
            top = firsts[top - 1] as usize;
        }
    }

    /// Numbers the children of the row again, if it has taken in some of the rows before `start`, since those in its stretch, which have
    /// places among themselves, come behind them.
    pub(crate) fn number_again(
        &self,
        start: usize,
        intake: Intake,
        firsts: &[u32],
        places: &mut [u32],
    )
        requires few { length self.now.lows.now ≤ 4294967295 }
        requires within { self.now.row < length self.now.lows.now }
        requires places { length places.old ≡ length self.now.lows.now }
        requires firsts { length firsts.now ≡ length self.now.lows.now }
        requires order { start ≤ self.now.row }
        requires looks { Looks self.now.lows.now self.now.row start }
        requires first { intake.first ≡ first_of self.now.lows.now self.now.row }
        requires count { intake.count ≡ taken_by self.now.lows.now self.now.row start }
        requires begun { (k : ℕ) → k < self.now.row → number_at firsts.now k ≡ first_of self.now.lows.now k }
        requires own { (k : ℕ) → start ≤ k → k < self.now.row → taker self.now.lows.now k ≡ self.now.row → number_at places.old k + intake.count ≡ taken_by self.now.lows.now self.now.row k }
        ensures placed { (k : ℕ) → k < self.now.row → number_at places.new k ≡ placed_by self.now.lows.now self.now.row k (number_at places.old k) }
        ensures kept { (k : ℕ) → self.now.row ≤ k → number_at places.new k ≡ number_at places.old k }
    {
        if intake.count > 0 {
            self.move_behind(start, intake.count, firsts, places);
            self.number_taken(start, intake, firsts, places);
        }
    }
}
