// The policy that builds for the host what runs in the build.
ghost use Rattle.policy.specs.Answers.{host_split};
ghost use Rattle.std.proofs.Common.{rules};

use crate::answers::Policy;
use lanes::{EdgeKind, Lane, Side};

/// From the target, build dependencies and procedural macros lead to the host; all else stays on its side.
#[derive(Clone, Copy, PartialEq, Eq, Debug)]
pub struct HostSplit;

impl Policy for HostSplit {
    ghost answers = { λ _. host_split };

    ghost lawful = { Prim.search rules };

    fn leads(&self, lane: Lane, side: Side) -> Option<Side> {
        match (lane.edge, lane.procedural) {
            (EdgeKind::Build, _) | (_, true) => Some(Side::Host),
            _ => Some(side),
        }
    }
}
