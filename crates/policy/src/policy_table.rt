// The answers of a policy, asked once.
ghost use Rattle.std.specs.Prelude.{◌≡◌, None, slice_index_or};
ghost use Rattle.lanes.specs.declared.lane_numbers.Lane.{Lane};
ghost use Rattle.lanes.specs.Lanes.{lane_number};
ghost use Rattle.lanes.specs.declared.sides.Side.{Side};
ghost use Rattle.policy.specs.Answers.{answers_of};

use crate::answers::Policy;
use lanes::{LANES, Lane, SIDES, Side};
use std::array;

/// The answers of a policy, each asked once.
#[derive(Clone, Drop, PartialEq, Eq, Debug)]
pub struct PolicyTable {
    // for each side, where each lane leads from it
    leads: [[Option<Side>; LANES as usize]; SIDES as usize],
}

// Where each lane leads from a side.
fn leads_from<P: Policy>(policy: &P, side: Side) -> [Option<Side>; LANES as usize]
    ensures { (lane : Lane) → slice_index_or result (lane_number lane) None
        ≡ P.Policy.answers policy.now lane side }
{
    let lanes = Lane::all();
    array::from_fn(|number| policy.leads(lanes[number], side))
}

impl PolicyTable {
    /// Asks a policy for each of its answers.
    pub fn of<P: Policy>(policy: &P) -> PolicyTable
        ensures { (lane : Lane) (side : Side) →
            answers_of result lane side ≡ P.Policy.answers policy.now lane side }
    {
        PolicyTable {
            leads: [
                leads_from(policy, Side::Target),
                leads_from(policy, Side::Host),
            ],
        }
    }

    /// Where a lane leads from a side; a cut lane leads nowhere.
    pub fn leads(&self, lane: Lane, side: Side) -> Option<Side>
        ensures { result ≡ answers_of self.now lane side }
    {
        self.leads[u32::from(side) as usize][u32::from(lane) as usize]
    }
}
