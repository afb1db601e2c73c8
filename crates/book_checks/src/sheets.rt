// What each policy answers, written out by hand.

// Where a lane leads.
#[derive(Clone, Copy, PartialEq, Eq)]
pub enum Goal {
    Target,
    Host,
    Cut,
}

// The answers from both sides, for lanes 0 to 5: normal, build and dev, and the same with a procedural macro as end.
#[derive(Clone, Copy)]
pub struct Sheet {
    pub from_target: [Goal; 6],
    pub from_host: [Goal; 6],
}

const T: Goal = Goal::Target;

const H: Goal = Goal::Host;

const C: Goal = Goal::Cut;

pub const UNIFIED: Sheet = Sheet {
    from_target: [T, T, T, T, T, T],
    from_host: [H, H, H, H, H, H],
};

pub const HOST_SPLIT: Sheet = Sheet {
    from_target: [T, H, T, H, H, H],
    from_host: [H, H, H, H, H, H],
};

// dev cut over unified
pub const UNIFIED_NO_DEV: Sheet = Sheet {
    from_target: [T, T, C, T, T, C],
    from_host: [H, H, C, H, H, C],
};

// dev cut over host-split
pub const HOST_SPLIT_NO_DEV: Sheet = Sheet {
    from_target: [T, H, C, H, H, C],
    from_host: [H, H, C, H, H, C],
};

// no policy: host-split, but from the host what is normal leads back to the target
pub const HOST_LEAKS: Sheet = Sheet {
    from_target: [T, H, T, H, H, H],
    from_host: [T, H, H, H, H, H],
};

impl Sheet {
    // Where the lane of a number leads from the side of a number; a number of no lane or side is cut.
    pub fn goal(&self, lane: u32, side: u32) -> Goal {
        let goals = match side {
            0 => &self.from_target,
            1 => &self.from_host,
            _ => return Goal::Cut,
        };
        goals.get(lane as usize).copied().unwrap_or(Goal::Cut)
    }
}
