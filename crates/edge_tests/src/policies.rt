// Policies at their edges: answers by lane and side, and numbers out of range.
use lanes::Side;
use policy::{DevCut, HostSplit, Unified, answer};

// A number of no lane and no side.
const NONE: u32 = 4_294_967_295;

#[test]
fn unified(rt: HostRuntime) {
    let target = Some(Side::Target);
    let host = Some(Side::Host);
    // normal, build, and dev with a procedural macro as end
    for (lane, side, outcome) in [
        (0, 0, target),
        (0, 1, host),
        (1, 0, target),
        (5, 0, target),
        (5, 1, host),
        (6, 0, None),
        (0, 2, None),
    ] {
        assert_eq!(rt;
            answer(&Unified, lane, side),
            outcome,
            "lane {lane} side {side}"
        );
    }
}

#[test]
fn host_split(rt: HostRuntime) {
    let target = Some(Side::Target);
    let host = Some(Side::Host);
    for (lane, side, outcome) in [
        (0, 0, target),
        (1, 0, host),
        (2, 0, target),
        (3, 0, host),
        (4, 0, host),
        (5, 0, host),
        (0, 1, host),
        (2, 1, host),
        (3, 1, host),
        (6, 1, None),
        (0, 2, None),
        (NONE, NONE, None),
    ] {
        assert_eq!(rt;
            answer(&HostSplit, lane, side),
            outcome,
            "lane {lane} side {side}"
        );
    }
}

#[test]
fn dev_cut(rt: HostRuntime) {
    let target = Some(Side::Target);
    let host = Some(Side::Host);
    // lane and side, and the answers over unified and over host-split
    for (lane, side, unified, split) in [
        (0, 0, target, target),
        (1, 0, target, host),
        (2, 0, None, None),
        (2, 1, None, None),
        (3, 0, target, host),
        (5, 0, None, None),
        (5, 1, None, None),
        (4, 1, host, host),
        (6, 0, None, None),
        (1, 2, None, None),
    ] {
        let over_unified = DevCut { below: Unified };
        let over_split = DevCut { below: HostSplit };
        assert_eq!(rt;
            answer(&over_unified, lane, side),
            unified,
            "lane {lane} side {side}"
        );
        assert_eq!(rt;
            answer(&over_split, lane, side),
            split,
            "lane {lane} side {side}"
        );
    }
}
