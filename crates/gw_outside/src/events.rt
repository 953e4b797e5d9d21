//! What may be made to happen to links.

ghost use Rattle.std.specs.Prelude.{◌≡◌, OnOk, OnErr};
ghost use Rattle.gw_outside.specs.Happened.{IsMade, AreCut, AreSame};

use crate::Watched;
use z_types::Memory;

/// What may be made to happen to the links of a wire, also through the sessions over it. A target is
/// named by the number n of its address `test:n`, so targets of one address share what happens. Want
/// of memory changes nothing.
pub trait Events: Watched {
    /// From now on the next `presents` Presents of a target find all result sets deleted. The number
    /// takes the place of what was left of an earlier one.
    fn gone(&mut self, target: u32, presents: u32) -> Result<(), Memory>
        ensures made { OnOk result (IsMade target
            (λ happening. record happening { presents = presents })
            (Self.happened self.old) (Self.happened self.new)) }
        ensures err { OnErr result
            (AreSame (Self.happened self.old) (Self.happened self.new)) }
        ensures counts { Self.counts self.new ≡ Self.counts self.old };

    /// Cuts all links of a target that are open.
    fn cut(&mut self, target: u32) -> Result<(), Memory>
        ensures made { OnOk result (AreCut Self.exact target (Self.counts self.old).dials
            (Self.happened self.old) (Self.happened self.new)) }
        ensures err { OnErr result
            (AreSame (Self.happened self.old) (Self.happened self.new)) }
        ensures counts { Self.counts self.new ≡ Self.counts self.old };

    /// The replies that a target makes from now on arrive after `looks` looks that find nothing.
    fn slow(&mut self, target: u32, looks: u32) -> Result<(), Memory>
        ensures made { OnOk result (IsMade target
            (λ happening. record happening { delay = looks })
            (Self.happened self.old) (Self.happened self.new)) }
        ensures err { OnErr result
            (AreSame (Self.happened self.old) (Self.happened self.new)) }
        ensures counts { Self.counts self.new ≡ Self.counts self.old };
}
