// Sides, and their numbers.
ghost use Rattle.std.specs.Prelude.{◌≡◌, ok_or};
ghost use Rattle.lanes.specs.Sides.{side_at, side_number, unknown_side};

/// How many sides there are.
pub const SIDES: u32 = 2;

/// The side for which something is built: what is delivered runs on the target, the build itself on the host. The sides
/// are numbered from 0 in this order.
#[derive(Clone, Copy, PartialEq, Eq, Debug)]
pub enum Side {
    /// What the build is for.
    Target,
    /// What the build runs on.
    Host,
}

/// A number that no side has.
#[derive(Clone, Copy, PartialEq, Eq, Debug)]
pub struct UnknownSide(pub u32);

impl Side {
    // Every side, each at the place of its number.
    const BY_NUMBER: [Side; SIDES as usize] = [Side::Target, Side::Host];
}

/// The number of a side: 0 target, 1 host.
impl From<Side> for u32 {
    ghost from_gives = { λ side n. n ≡ side_number side };

    fn from(side: Side) -> u32 {
        side as u32
    }
}

/// The side of a number, by the same table; no other number has one.
impl TryFrom<u32> for Side {
    type Error = UnknownSide;

    ghost try_from_gives = { λ n r. r ≡ ok_or (side_at n) (unknown_side n) };

    fn try_from(number: u32) -> Result<Side, UnknownSide> {
        Side::BY_NUMBER
            .get(number as usize)
            .copied()
            .ok_or(UnknownSide(number))
    }
}
