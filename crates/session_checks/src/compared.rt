// Sessions by the library, compared with what the second resolver expects of them.
use crate::cases::{Case, Prospect};
use crate::follows::World;
use crate::ours::{Run, make_calls};
use crate::scripts::{Pace, Script, same};
use crate::separation::{Manner, Mistake, SPLIT, SPLIT_NO_DEV, UNIFIED, UNIFIED_NO_DEV};
use crate::trails::{Trail, TrailTally};
use policy::{DevCut, HostSplit, Policy, Unified};
use rulebook::{GraphBook, Rulebook};
use session::{Answer, Call};
use std::alloc::{AllocError, Global};
use tally::Tally;

// What was compared.
#[derive(Default, Drop)]
pub struct Tallies {
    pub graphs: Tally,
    pub answers: Tally,
    pub trails: TrailTally,
}

// Compares two lists of answers, in order; if one is longer, the rest of it differs.
fn note_answers(tally: &mut Tally, answers: &[Answer], others: &[Answer]) {
    for (answer, other) in answers.iter().zip(others.iter()) {
        tally.note(same(*answer, *other));
    }
    for _ in 0..answers.len().abs_diff(others.len()) {
        tally.note(false);
    }
}

impl Case {
    fn count(&self) -> u32 {
        u32::try_from(self.items.len()).unwrap_or(u32::MAX)
    }

    // The calls of a script, and of every item why it is active.
    fn calls<'r>(&'r self, heap: Global, script: &Script<'r>) -> Result<Vec<Call<'r>>, AllocError> {
        let mut calls = script.calls.clone()?;
        for number in 0..=self.count() {
            calls.push(Call::Reason(number))?;
        }
        Ok(calls)
    }

    // The answers of a script, and the reasons that a trail has.
    fn answers(&self, script: &Script<'_>, trail: Trail<'_>) -> Result<Vec<Answer>, AllocError> {
        let mut answers = script.answers.clone()?;
        for number in 0..=self.count() {
            answers.push(trail.reason(number))?;
        }
        Ok(answers)
    }

    // Compares a session that is settled at one pace.
    fn compare_pace<B: Rulebook>(
        &self,
        heap: Global,
        tallies: &mut Tallies,
        book: &B,
        world: World<'_>,
        prospect: &Prospect,
        pace: Pace,
    ) -> Result<(), AllocError> {
        let Prospect { first, both } = prospect;
        let mut script = Script::new(heap);
        script.play(pace, self.requests(), self.items.as_slice(), first, both)?;
        let calls = self.calls(heap, &script)?;
        let Run { answers, trail } = make_calls(heap, book, calls.as_slice())?;
        let trail = Trail {
            world,
            items: self.items.as_slice(),
            requests: self.requests(),
            records: trail.as_slice(),
        };
        let expected = self.answers(&script, trail)?;
        note_answers(
            &mut tallies.answers,
            answers.as_slice(),
            expected.as_slice(),
        );
        trail.check(heap, &mut tallies.trails, both)
    }

    // Compares sessions at each pace.
    fn compare_policy<P: Policy>(
        &self,
        heap: Global,
        tallies: &mut Tallies,
        policy: &P,
        manner: Manner,
    ) -> Result<(), AllocError> {
        let world = World {
            graph: &self.graph,
            separation: manner.separation,
        };
        let book = GraphBook::new(self.ours.words.as_slice(), policy);
        let prospect = self.expect(heap, manner)?;
        for pace in self.paces {
            self.compare_pace(heap, tallies, &book, world, &prospect, pace)?;
        }
        Ok(())
    }

    // Compares sessions under each policy.
    fn compare(&self, heap: Global, tallies: &mut Tallies) -> Result<(), AllocError> {
        let unified_no_dev = DevCut { below: Unified };
        let split_no_dev = DevCut { below: HostSplit };
        self.compare_policy(heap, tallies, &Unified, Manner::right(UNIFIED))?;
        self.compare_policy(heap, tallies, &HostSplit, Manner::right(SPLIT))?;
        self.compare_policy(
            heap,
            tallies,
            &unified_no_dev,
            Manner::right(UNIFIED_NO_DEV),
        )?;
        self.compare_policy(heap, tallies, &split_no_dev, Manner::right(SPLIT_NO_DEV))
    }

    // Compares sessions with a second resolver that makes a mistake, under host-split without dev dependencies.
    pub fn compare_mistaken(
        &self,
        heap: Global,
        tallies: &mut Tallies,
        mistake: Mistake,
    ) -> Result<(), AllocError> {
        let policy = DevCut { below: HostSplit };
        let manner = Manner {
            separation: SPLIT_NO_DEV,
            mistake,
        };
        self.compare_policy(heap, tallies, &policy, manner)
    }
}

impl Tallies {
    fn differences(&self) -> u64 {
        self.answers
            .differ
            .saturating_add(self.trails.wrong)
            .saturating_add(self.trails.missing)
    }

    // Compares the case of a seed.
    pub fn compare_case(&mut self, heap: Global, seed: u64) -> anyhow::Result<()> {
        let Some(case) = Case::draw(heap, seed)? else {
            self.graphs.note(false);
            return Ok(());
        };
        let before = self.differences();
        case.compare(heap, self)?;
        let same = self.differences() == before;
        self.graphs.note(same);
        Ok(())
    }
}
