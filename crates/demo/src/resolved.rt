// A session over a graph: what the items that are asked for turn on under host-split.
ghost use Rattle.std.specs.Prelude.{◌≡◌};
ghost use Rattle.session.specs.Held.{state};
ghost use Rattle.session.specs.States.{request_answer, request_leaves, settle_answer, settle_leaves, active_answer, reason_answer};

use crate::lines::CheckLine;
use crate::listing::{print_refusal, print_trail};
use crate::opened::OpenedGraph;
use policy::HostSplit;
use refusals::Refusal;
use resolver::run_calls;
use rulebook::{GraphBook, Rulebook};
use session::{Answer, Call, Outcome, Reason, Session, SessionFault, UNUSED};
use std::alloc::Global;
use std::io::Write;

// The budget of a settle call: small, so that the example takes several of them.
const BUDGET: u32 = 4;

// Requests some items.
fn request<B: Rulebook>(
    session: &mut Session<'_>,
    book: &B,
    items: &[u32],
) -> Result<(), SessionFault>
    ensures answer { result ≡ request_answer (state session.old) items.now }
    ensures state { state session.new ≡ request_leaves (state session.old) items.now }
{
    let mut answers = [Answer::Request(Ok(()))];
    run_calls(session, book, &[Call::Request(items)], &mut answers)?;
    match answers {
        [Answer::Request(answer)] => answer,
        _ => Ok(()),
    }
}

// Settles within the budget.
fn settle<B: Rulebook>(session: &mut Session<'_>, book: &B) -> Result<Outcome, SessionFault>
    ensures answer { result ≡ settle_answer (state session.old) (B.Rulebook.table book.now) 4 }
    ensures state { state session.new ≡ settle_leaves (state session.old) (B.Rulebook.table book.now) 4 }
{
    let mut answers = [Answer::Settle(Ok(Outcome::Pending))];
    run_calls(session, book, &[Call::Settle(BUDGET)], &mut answers)?;
    match answers {
        [Answer::Settle(answer)] => answer,
        _ => Ok(Outcome::Pending),
    }
}

// Whether an item is active.
fn is_active<B: Rulebook>(
    session: &mut Session<'_>,
    book: &B,
    item: u32,
) -> Result<bool, SessionFault>
    ensures answer { result ≡ active_answer (state session.old) item }
    ensures state { state session.new ≡ state session.old }
{
    let mut answers = [Answer::Active(Ok(false))];
    run_calls(session, book, &[Call::Active(item)], &mut answers)?;
    match answers {
        [Answer::Active(answer)] => answer,
        _ => Ok(false),
    }
}

// What made an item active.
fn reason<B: Rulebook>(
    session: &mut Session<'_>,
    book: &B,
    item: u32,
) -> Result<Reason, SessionFault>
    ensures answer { result ≡ reason_answer (state session.old) item }
    ensures state { state session.new ≡ state session.old }
{
    let mut answers = [Answer::Reason(Err(SessionFault::Inactive))];
    run_calls(session, book, &[Call::Reason(item)], &mut answers)?;
    match answers {
        [Answer::Reason(answer)] => answer,
        _ => Err(SessionFault::Inactive),
    }
}

// Settles until nothing is pending, and answers how many steps that took. The steps are no more than the watch entries
// of all items, so that the turns suffice.
fn settle_all<B: Rulebook>(session: &mut Session<'_>, book: &B) -> Result<u64, SessionFault> {
    let mut steps: u64 = 0;
    for _ in 0..u32::MAX {
        match settle(session, book)? {
            Outcome::Settled(more) => return Ok(steps.saturating_add(u64::from(more))),
            Outcome::Pending => steps = steps.saturating_add(u64::from(BUDGET)),
        }
    }
    Ok(steps)
}

// Asks about the last item of the trail, as its user would.
fn ask_last<B: Rulebook>(
    session: &mut Session<'_>,
    book: &B,
) -> Result<Option<CheckLine>, SessionFault> {
    let Some(last) = session.trail().last().copied() else {
        return Ok(None);
    };
    let item = last.item;
    let active = is_active(session, book, item)?;
    let reason = reason(session, book, item)?;
    Ok(Some(CheckLine {
        item,
        active,
        reason,
    }))
}

// Requests the items, settles, and prints the trail.
fn print_session<B: Rulebook>(
    out: &mut impl Write,
    session: &mut Session<'_>,
    book: &B,
    items: &[u32],
) -> anyhow::Result<()> {
    let steps = match request(session, book, items) {
        Ok(()) => settle_all(session, book),
        Err(fault) => Err(fault),
    };
    match steps {
        Ok(steps) => print_trail(out, session.trail(), steps)?,
        Err(fault) => return print_refusal(out, Refusal::from(fault)),
    }
    match ask_last(session, book) {
        Ok(Some(line)) => writeln!(out, "{line}")?,
        Ok(None) => {}
        Err(fault) => print_refusal(out, Refusal::from(fault))?,
    }
    Ok(())
}

// Prints what some items turn on in a graph under host-split.
pub fn print_resolved(
    out: &mut impl Write,
    heap: Global,
    graph: &OpenedGraph,
    items: &[u32],
) -> anyhow::Result<()> {
    let book = GraphBook::new(graph.words.as_slice(), &HostSplit);
    let count = book.items();
    let mut places = vec![in heap; UNUSED; count as usize]?;
    let mut marks = vec![in heap; None; count as usize]?;
    let mut session = Session::new(count, places.as_mut_slice(), marks.as_mut_slice());
    print_session(out, &mut session, &book, items)
}
