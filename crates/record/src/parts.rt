ghost use Rattle.std.specs.Prelude.{◌≡◌, ◌<◌, length, slice_get, Some};
ghost use Rattle.graphs.specs.Certificates.{Part};
ghost use Rattle.linearize.specs.Graphs.{sum_from};

use crate::kept::Kept;
use crate::record::Record;
use cluster::PartRef;
use fee_rate::FeeRate;

impl<const W: usize> Record<W> {
    /// How many parts its order has, and none where it has no order.
    #[inline]
    pub fn part_count(&self) -> usize
        ensures { result ≡ length self.now.parts }
    {
        match &self.kept {
            Kept::Within(component) => component.part_count(),
            Kept::Over(_) => 0,
        }
    }

    /// The part at a position of its order.
    pub fn part(&self, at: usize) -> PartRef<'_>
        requires { at < length self.now.parts }
        ensures { slice_get self.now.parts at ≡ Some (record {
          rate = sum_from result.rate;
          ids = result.ids.now;
          flows = result.flows.now;
        }) }
    {
        match &self.kept {
            Kept::Within(component) => component.part(at),
            Kept::Over(_) => unreachable!(),
        }
    }

    /// The fee in satoshis and the size in virtual bytes of the part at a position of its order.
    #[inline]
    pub fn part_rate(&self, at: usize) -> FeeRate
        requires { at < length self.now.parts }
        ensures { (part : Part) → slice_get self.now.parts at ≡ Some part → sum_from result ≡ part.rate }
    {
        match &self.kept {
            Kept::Within(component) => component.part_rate(at),
            Kept::Over(_) => unreachable!(),
        }
    }
}
