// What a separation policy is, and its questions by number.
ghost use Rattle.std.specs.Prelude.{◌≡◌, Option};
ghost use Rattle.lanes.specs.declared.lane_numbers.Lane.{Lane};
ghost use Rattle.lanes.specs.declared.sides.Side.{Side};
ghost use Rattle.policy.specs.Answers.{LawfulAnswers, answer_by_number};

use lanes::{Lane, Side};

/// A separation policy: for each lane and side, on which side the end of a dependency is built.
///
/// Its law: from the host, no lane leads to the target.
pub trait Policy {
    ghost answers: { Self → Lane → Side → Option Side };

    /// Where a lane leads from a side; a cut lane leads nowhere.
    fn leads(&self, lane: Lane, side: Side) -> Option<Side>
        ensures { result ≡ answers self.now lane side };

    ghost lawful: { (p : Self) → LawfulAnswers (answers p) };
}

/// Where the lane of a number leads from the side of a number; nowhere, if there is no such lane or side.
pub fn answer<P: Policy>(policy: &P, lane: u32, side: u32) -> Option<Side>
    ensures { result ≡ answer_by_number (P.Policy.answers policy.now) lane side }
{
    let lane = Lane::try_from(lane).ok()?;
    let side = Side::try_from(side).ok()?;
    policy.leads(lane, side)
}
