//! The balance of two runs: how much more often each variable is in the first than in the second (Löchner, Things to Know
//! when Implementing KBO, 2006). What it says of them takes no time, however many variables they have.

ghost use Rattle.std.specs.Prelude.{◌≡◌, ◌≢◌, ℕ, ◌+◌, ◌<◌, ◌≤◌, ◌^◌, length, slice_index, cond, count_by, [], MatchOption, false};
ghost use Rattle.uc_kbo.specs.Kbo.{is_it};
ghost use Rattle.uc_kbo.specs.Runs.{is_counted};
ghost use Rattle.uc_kbo.specs.Balances.{has_fewer, has_more, has_counter, IsTallied, IsBalance};

use uc_term::Node;

// Where a counter stands whose variable is as often in both runs.
const EVEN: u32 = 2_147_483_648;

/// Counters for 8,192 variables from a base on, which rise with the first run and fall with the second; and how many
/// counters stand below `EVEN`, and how many above. Other variables aren't counted.
#[derive(Drop)]
pub struct Balance {
    pub base: u32,
    pub counts: [u32; 8192],
    pub fewer: usize,
    pub more: usize,
}

fn fewer(count: u32) -> usize
    ensures { result ≡ cond (has_fewer count) 1 0 }
{
    if count < EVEN { 1 } else { 0 }
}

fn more(count: u32) -> usize
    ensures { result ≡ cond (has_more count) 1 0 }
{
    if EVEN < count { 1 } else { 0 }
}

// The place of a variable's counter, if it has one.
fn place(base: u32, x: u32) -> Option<usize>
    ensures { MatchOption result (has_counter base x ≡ false) (λ i. (i < 8192) × (base + i ≡ x)) }
{
    if x < base {
        return None;
    }
    let at = (x - base) as usize;
    if at < 8192 { Some(at) } else { None }
}

impl Balance {
    // The balance of two empty runs.
    pub fn new(base: u32) -> Balance
        ensures balance { IsBalance [] [] result }
        ensures base { result.base ≡ base }
    {
        Balance {
            base,
            counts: [EVEN; 8192],
            fewer: 0,
            more: 0,
        }
    }

    // Sets one counter.
    fn set(&mut self, at: usize, count: u32)
        requires tallied { IsTallied self.old }
        requires within { at < 8192 }
        ensures tallied { IsTallied self.new }
        ensures here { slice_index self.new.counts at ≡ count }
        ensures others { (i : ℕ) → i ≢ at → slice_index self.new.counts i ≡ slice_index self.old.counts i }
        ensures base { self.new.base ≡ self.old.base }
    {
        let old: u32 = self.counts[at];
        self.fewer = self.fewer + fewer(count) - fewer(old);
        self.more = self.more + more(count) - more(old);
        self.counts[at] = count;
    }

    // Counts one node more of the first run.
    fn gain(&mut self, node: Node)
        requires tallied { IsTallied self.old }
        requires room { (i : ℕ) → i < 8192 → slice_index self.old.counts i + 1 < 2 ^ 32 }
        ensures tallied { IsTallied self.new }
        ensures counts { (i : ℕ) → i < 8192 → slice_index self.new.counts i ≡ slice_index self.old.counts i + cond (is_counted (is_it (self.old.base + i)) node) 1 0 }
        ensures base { self.new.base ≡ self.old.base }
    {
        match node {
            Node::Var(x) => {
                if let Some(at) = place(self.base, x) {
                    self.set(at, self.counts[at] + 1);
                }
            }
            Node::App(_, _) => {}
        }
    }

    // Counts one node more of the second run.
    fn lose(&mut self, node: Node)
        requires tallied { IsTallied self.old }
        requires room { (i : ℕ) → i < 8192 → 0 < slice_index self.old.counts i }
        ensures tallied { IsTallied self.new }
        ensures counts { (i : ℕ) → i < 8192 → slice_index self.old.counts i ≡ slice_index self.new.counts i + cond (is_counted (is_it (self.old.base + i)) node) 1 0 }
        ensures base { self.new.base ≡ self.old.base }
    {
        match node {
            Node::Var(x) => {
                if let Some(at) = place(self.base, x) {
                    self.set(at, self.counts[at] - 1);
                }
            }
            Node::App(_, _) => {}
        }
    }

    // Counts the next nodes of the first run.
    pub fn gain_all(&mut self, nodes: &[Node])
        requires tallied { IsTallied self.old }
        requires room { (i : ℕ) → i < 8192 → slice_index self.old.counts i + length nodes.now < 2 ^ 32 }
        ensures tallied { IsTallied self.new }
        ensures counts { (i : ℕ) → i < 8192 → slice_index self.new.counts i ≡ slice_index self.old.counts i + count_by (is_counted (is_it (self.old.base + i))) nodes.now }
        ensures base { self.new.base ≡ self.old.base }
    {
        for n in nodes {
            self.gain(*n);
        }
    }

    // Counts the next nodes of the second run.
    pub fn lose_all(&mut self, nodes: &[Node])
        requires tallied { IsTallied self.old }
        requires room { (i : ℕ) → i < 8192 → length nodes.now ≤ slice_index self.old.counts i }
        ensures tallied { IsTallied self.new }
        ensures counts { (i : ℕ) → i < 8192 → slice_index self.old.counts i ≡ slice_index self.new.counts i + count_by (is_counted (is_it (self.old.base + i))) nodes.now }
        ensures base { self.new.base ≡ self.old.base }
    {
        for n in nodes {
            self.lose(*n);
        }
    }
}
