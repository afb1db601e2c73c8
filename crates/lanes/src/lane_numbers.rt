// Lanes, and their numbers.
ghost use Rattle.std.specs.Prelude.{◌≡◌, Some, ok_or, slice_get};
ghost use Rattle.lanes.specs.Lanes.{lane_of, lane_at, lane_number, unknown_lane};

use crate::edge_kinds::{EDGE_KINDS, EdgeKind};
use std::array;

// How many values a mark has.
const MARKS: u32 = 2;

/// How many lanes there are.
pub const LANES: u32 = EDGE_KINDS * MARKS;

/// What a policy looks at in a dependency: its edge kind, and whether its end is a procedural macro.
#[derive(Clone, Copy, PartialEq, Eq, Debug)]
pub struct Lane {
    /// the edge kind of the dependency
    pub edge: EdgeKind,
    /// whether its end is a procedural macro
    pub procedural: bool,
}

impl Lane {
    /// Every lane, each at the place of its number.
    pub fn all() -> [Lane; LANES as usize]
        ensures { (lane : Lane) → slice_get result (lane_number lane) ≡ Some lane }
    {
        array::from_fn(|number| lane_of(number as u32))
    }
}

/// A number that no lane has.
#[derive(Clone, Copy, PartialEq, Eq, Debug)]
pub struct UnknownLane(pub u32);

/// The number of a lane, from 0 to `LANES - 1`: its digits are the edge kind and the mark, the lowest first.
impl From<Lane> for u32 {
    ghost from_gives = { λ lane n. n ≡ lane_number lane };

    fn from(lane: Lane) -> u32 {
        u32::from(lane.edge) + EDGE_KINDS * u32::from(lane.procedural)
    }
}

// The lane whose digits are the lowest ones of a number.
fn lane_of(number: u32) -> Lane
    ensures { result ≡ lane_of number }
{
    Lane {
        edge: EdgeKind::BY_NUMBER[(number % EDGE_KINDS) as usize],
        procedural: number / EDGE_KINDS % MARKS == 1,
    }
}

/// The lane of a number below `LANES`; no other number has one.
impl TryFrom<u32> for Lane {
    type Error = UnknownLane;

    ghost try_from_gives = { λ n r. r ≡ ok_or (lane_at n) (unknown_lane n) };

    fn try_from(number: u32) -> Result<Lane, UnknownLane> {
        if number >= LANES {
            return Err(UnknownLane(number));
        }
        Ok(lane_of(number))
    }
}
