// The steps on a partition's groups.
ghost use Rattle.std.specs.Prelude.{◌≡◌, ◌≤◌, true, false, length, is_ok, Ok, MatchOption, ◌≢◌};
ghost use Rattle.measure.specs.Limits.{count_fits};
ghost use Rattle.partition.specs.Joined.{join_after, join_answer};
ghost use Rattle.partition.specs.Names.{Named, groups, singles};
ghost use Rattle.partition.specs.Single.{name_answer, single_after, single_answer};

use crate::fault::GroupFault;
use crate::partition::Partition;
use measure::limits::count_fits;

impl Partition {
    // Each of n parts a group; none for a number of parts that no figure has.
    pub fn singles(n: usize) -> Option<Partition>
        ensures cases { MatchOption result (count_fits n ≡ false) (λ p. (count_fits n ≡ true) × (p ≡ singles n) × (length p ≡ n)) }
    {
        if !count_fits(n) {
            return None;
        }
        Some(Partition::fresh(n))
    }

    pub fn parts(&self) -> usize
        ensures answer { result ≡ length self.now }
        ensures few { (2 ≤ length self.now) × (length self.now ≤ 80) }
        ensures named { Named self.now }
    {
        self.table.len()
    }

    // How many groups stand.
    pub fn groups(&self) -> usize
        ensures answer { result ≡ groups self.now }
        ensures two { 2 ≤ result }
    {
        self.table.groups()
    }

    // The name of a part's group.
    pub fn name(&self, a: usize) -> Result<u8, GroupFault>
        ensures answer { result ≡ name_answer self.now a }
    {
        if a >= self.parts() {
            return Err(GroupFault::Part);
        }
        Ok(self.record(a).name)
    }

    // What joining the groups of parts a and b answers.
    fn judge(&self, a: usize, b: usize) -> Result<bool, GroupFault>
        ensures answer { result ≡ join_answer self.now a b }
    {
        let t = self.name(a)?;
        let u = self.name(b)?;
        if t == u {
            return Ok(false);
        }
        if self.groups() <= 2 {
            return Err(GroupFault::LastTwo);
        }
        Ok(true)
    }

    // Joins the groups of parts a and b, under the lower name; false where they are one group already.
    pub fn join(&mut self, a: usize, b: usize) -> Result<bool, GroupFault>
        ensures answer { result ≡ join_answer self.old a b }
        ensures after { self.new ≡ join_after self.old a b }
        ensures parts { length self.new ≡ length self.old }
        ensures same { (result ≢ Ok true) → self.new ≡ self.old }
    {
        let answer = self.judge(a, b);
        if let Ok(true) = answer {
            let x = self.record(a);
            let y = self.record(b);
            self.merge(x, y);
        }
        answer
    }

    // Makes every part of a's group single, and answers how many groups then stand.
    pub fn single(&mut self, a: usize) -> Result<usize, GroupFault>
        ensures answer { result ≡ single_answer self.old a }
        ensures after { self.new ≡ single_after self.old a }
        ensures parts { length self.new ≡ length self.old }
        ensures same { is_ok result ≡ false → self.new ≡ self.old }
    {
        let g = self.name(a)?;
        self.part(g);
        Ok(self.groups())
    }
}
