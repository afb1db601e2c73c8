// The policy that does not separate.
ghost use Rattle.policy.specs.Answers.{unified};
ghost use Rattle.std.proofs.Common.{rules};

use crate::answers::Policy;
use lanes::{Lane, Side};

/// Each side leads to itself: nothing is separated, and nothing is cut.
#[derive(Clone, Copy, PartialEq, Eq, Debug)]
pub struct Unified;

impl Policy for Unified {
    ghost answers = { λ _. unified };

    ghost lawful = { Prim.search rules };

    fn leads(&self, _lane: Lane, side: Side) -> Option<Side> {
        Some(side)
    }
}
