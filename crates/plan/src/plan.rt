// What a plan holds.
ghost use Rattle.std.specs.Prelude.{◌≡◌, length};

use measure::measure::Measure;
use partition::partition::Partition;

// A measure, and the groups of its parts.
#[derive(Drop)]
pub struct Plan<M: Measure> {
    pub(crate) measure: M,
    pub(crate) groups: Partition,
    ghost fit: { length groups ≡ M.Measure.count measure },
}
