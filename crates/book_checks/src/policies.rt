// Policies, asked by number and compared with the sheets.
use crate::sheets::{Goal, HOST_SPLIT, HOST_SPLIT_NO_DEV, Sheet, UNIFIED, UNIFIED_NO_DEV};
use lanes::Side;
use policy::{DevCut, HostSplit, Policy, Unified, answer};
use tally::Tally;

// all lanes and sides, and numbers of none: past the last, and large
const NUMBERS: [u32; 15] = [
    0,
    1,
    2,
    3,
    4,
    5,
    6,
    7,
    8,
    255,
    256,
    65_536,
    2_147_483_648,
    4_294_967_294,
    4_294_967_295,
];

fn goal_of(answer: Option<Side>) -> Goal {
    match answer {
        Some(Side::Target) => Goal::Target,
        Some(Side::Host) => Goal::Host,
        None => Goal::Cut,
    }
}

fn compare_lane<P: Policy>(tally: &mut Tally, policy: &P, sheet: &Sheet, lane: u32) {
    for side in NUMBERS {
        tally.note(goal_of(answer(policy, lane, side)) == sheet.goal(lane, side));
    }
}

fn compare_policy<P: Policy>(tally: &mut Tally, policy: &P, sheet: &Sheet) {
    for lane in NUMBERS {
        compare_lane(tally, policy, sheet, lane);
    }
}

// Each policy, at each of the numbers for lane and side.
pub fn compare_policies() -> Tally {
    let mut tally = Tally::default();
    let unified_no_dev = DevCut { below: Unified };
    let split_no_dev = DevCut { below: HostSplit };
    compare_policy(&mut tally, &Unified, &UNIFIED);
    compare_policy(&mut tally, &HostSplit, &HOST_SPLIT);
    compare_policy(&mut tally, &unified_no_dev, &UNIFIED_NO_DEV);
    compare_policy(&mut tally, &split_no_dev, &HOST_SPLIT_NO_DEV);
    let twice = DevCut {
        below: unified_no_dev,
    };
    compare_policy(&mut tally, &twice, &UNIFIED_NO_DEV);
    let twice = DevCut {
        below: split_no_dev,
    };
    compare_policy(&mut tally, &twice, &HOST_SPLIT_NO_DEV);
    tally
}
