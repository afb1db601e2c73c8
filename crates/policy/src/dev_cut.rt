// A layer over any policy that leaves dev dependencies out.
ghost use Rattle.policy.specs.Answers.{dev_cut};
ghost use Rattle.std.proofs.Common.{rules};

use crate::answers::Policy;
use lanes::{EdgeKind, Lane, Side};

/// Dev dependencies are cut; all else is as the policy below answers.
#[derive(Clone, Copy, PartialEq, Eq, Debug)]
pub struct DevCut<P> {
    /// the policy that is asked for all other dependencies
    pub below: P,
}

impl<P: Policy> Policy for DevCut<P> {
    ghost answers = { λ s. dev_cut (P.Policy.answers s.below) };

    ghost lawful = { Prim.search rules };

    fn leads(&self, lane: Lane, side: Side) -> Option<Side> {
        match lane.edge {
            EdgeKind::Dev => None,
            EdgeKind::Normal | EdgeKind::Build => self.below.leads(lane, side),
        }
    }
}
