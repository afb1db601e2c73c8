// Lists of calls, with what the second resolver expects them to answer.
use crate::follows::World;
use crate::graphs::Graph;
use crate::items::Item;
use crate::resolved::Resolved;
use crate::separation::Manner;
use session::{Answer, Call, Outcome, SessionFault};
use std::alloc::{AllocError, Global};
use std::collections::BTreeSet;

// How a session is settled.
#[derive(Clone, Copy)]
pub enum Pace {
    // at once, after each of two requests
    AtOnce,
    // with many small budgets
    Slowly { budget: u32 },
    // with a small budget, then another request, then at once
    Broken { budget: u32 },
}

// What is requested first, and later, and what is refused in between.
#[derive(Clone, Copy)]
pub struct Requests<'r> {
    pub first: &'r [u32],
    pub second: &'r [u32],
    pub refused: &'r [u32],
}

// What some items turn on, and how many steps that takes.
#[derive(Drop)]
pub struct Expected {
    pub on: BTreeSet<Item>,
    pub steps: u64,
}

impl Expected {
    pub fn of(
        heap: Global,
        graph: &Graph,
        manner: Manner,
        requested: &[Item],
    ) -> Result<Expected, AllocError> {
        let Resolved { on, .. } = Resolved::resolve(heap, graph, manner, requested)?;
        let world = World {
            graph,
            separation: manner.separation,
        };
        let mut steps: u64 = 0;
        for item in on.iter() {
            steps = steps.saturating_add(world.steps(*item));
        }
        Ok(Expected { on, steps })
    }
}

// The calls, and what each is to answer.
#[derive(Drop)]
pub struct Script<'r> {
    pub calls: Vec<Call<'r>>,
    pub answers: Vec<Answer>,
    // the steps of the calls so far
    steps: u64,
}

impl<'r> Script<'r> {
    pub fn new(heap: Global) -> Script<'r> {
        Script {
            calls: Vec::new(heap),
            answers: Vec::new(heap),
            steps: 0,
        }
    }

    fn add(&mut self, call: Call<'r>, answer: Answer) -> Result<(), AllocError> {
        self.calls.push(call)?;
        Ok(self.answers.push(answer)?)
    }

    fn request(&mut self, items: &'r [u32]) -> Result<(), AllocError> {
        self.add(Call::Request(items), Answer::Request(Ok(())))
    }

    // Settles where so many steps are to be taken since opening; true if nothing is pending then.
    fn settle(&mut self, budget: u32, all: u64) -> Result<bool, AllocError> {
        let left = all.saturating_sub(self.steps);
        if left > u64::from(budget) {
            self.steps = self.steps.saturating_add(u64::from(budget));
            self.add(Call::Settle(budget), Answer::Settle(Ok(Outcome::Pending)))?;
            return Ok(false);
        }
        self.steps = all;
        let outcome = Outcome::Settled(u32::try_from(left).unwrap_or(u32::MAX));
        self.add(Call::Settle(budget), Answer::Settle(Ok(outcome)))?;
        Ok(true)
    }

    // Settles again and again, until nothing is pending, and once more.
    fn settle_slowly(&mut self, budget: u32, all: u64) -> Result<(), AllocError> {
        for _ in 0..all {
            if self.settle(budget, all)? {
                break;
            }
        }
        self.settle(budget, all)?;
        Ok(())
    }

    fn settle_at(&mut self, pace: Pace, all: u64) -> Result<(), AllocError> {
        match pace {
            Pace::AtOnce | Pace::Broken { .. } => {
                self.settle(u32::MAX, all)?;
            }
            Pace::Slowly { budget } => self.settle_slowly(budget, all)?,
        }
        Ok(())
    }

    // Asks of every item whether it is active, and of the number after the last.
    fn ask(&mut self, items: &[Item], on: &BTreeSet<Item>) -> Result<(), AllocError> {
        let mut number: u32 = 0;
        for item in items {
            self.add(Call::Active(number), Answer::Active(Ok(on.contains(item))))?;
            number = number.saturating_add(1);
        }
        self.add(
            Call::Active(number),
            Answer::Active(Err(SessionFault::Item)),
        )
    }

    // Two requests and a refused one, with what they turn on: the first one alone, and both.
    pub fn play(
        &mut self,
        pace: Pace,
        requests: Requests<'r>,
        items: &[Item],
        first: &Expected,
        both: &Expected,
    ) -> Result<(), AllocError> {
        self.request(requests.first)?;
        match pace {
            Pace::Broken { budget } => {
                self.settle(budget, first.steps)?;
            }
            Pace::AtOnce | Pace::Slowly { .. } => {
                self.settle_at(pace, first.steps)?;
                self.ask(items, &first.on)?;
            }
        }
        let refused = Answer::Request(Err(SessionFault::Item));
        self.add(Call::Request(requests.refused), refused)?;
        self.request(requests.second)?;
        self.settle_at(pace, both.steps)?;
        self.ask(items, &both.on)
    }
}

// Whether two answers are the same.
pub fn same(answer: Answer, other: Answer) -> bool {
    match (answer, other) {
        (Answer::Request(a), Answer::Request(b)) => a == b,
        (Answer::Settle(a), Answer::Settle(b)) => a == b,
        (Answer::Active(a), Answer::Active(b)) => a == b,
        (Answer::Reason(a), Answer::Reason(b)) => a == b,
        _ => false,
    }
}
