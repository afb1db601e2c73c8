//! Numbers that look random and are the same in each run.

#![tactic(auto)]

ghost use Rattle.std.specs.Prelude.{◌≡◌, ◌<◌, ◌==◌, IfSome, Contains};
ghost use Rattle.dice.specs.Numbers.{next, number_below, pick, next_after_pick};

/// A source of such numbers.
#[derive(Drop)]
pub struct Dice {
    state: u64,
}

impl Dice {
    /// The numbers of a seed, any number of 64 bits.
    pub fn new(seed: u64) -> Dice
        ensures { result.state ≡ seed }
    {
        Dice { state: seed }
    }

    /// A number below n, or 0 if n is.
    pub fn below(&mut self, n: usize) -> usize
        ensures state { self.new.state ≡ next self.old.state }
        ensures value { result ≡ number_below self.new.state n }
        ensures below { 0 < n → result < n }
    {
        self.state = self
            .state
            .wrapping_mul(6_364_136_223_846_793_005)
            .wrapping_add(1_442_695_040_888_963_407);
        if n == 0 {
            return 0;
        }
        (self.state >> 33) as usize % n
    }

    /// Whether a coin falls on one of its sides.
    pub fn coin(&mut self) -> bool
        ensures state { self.new.state ≡ next self.old.state }
        ensures value { result ≡ (number_below self.new.state 2 == 0) }
    {
        self.below(2) == 0
    }

    /// One of the list, if it has any.
    pub fn pick(&mut self, list: &[usize]) -> Option<usize>
        ensures state { self.new.state ≡ next_after_pick self.old.state list.now }
        ensures value { result ≡ pick self.new.state list.now }
        ensures among { IfSome result (Contains list.now) }
    {
        if list.is_empty() {
            return None;
        }
        let at = self.below(list.len());
        list.get(at).copied()
    }
}
