// Settling a graph under host-split.
ghost use Rattle.std.specs.Prelude.{◌≡◌, ◌≢◌, ◌≤◌, ◌<◌, ◌++◌, length, drop, IfOk, IfErr};
ghost use Rattle.boundary.specs.Calls.{items_of, request_and_settle_answer, request_and_settle_leaves, report_answer, report_leaves, naiadiron_settle_answer, naiadiron_settle_leaves};
ghost use Rattle.boundary.specs.SettleLaw.{SettleLaw};
ghost use Rattle.session.specs.Held.{state, trail_of};

use policy::HostSplit;
use rulebook::{GraphBook, Rulebook};
use session::{Outcome, Session, SessionFault, TrailRecord, UNUSED};
use std::alloc::{AllocError, Global};

// The answer of settling where there is no memory for a session.
const NO_MEMORY: u64 = u64::MAX;

// Requests the items, and settles within the budget unless that is refused.
fn request_and_settle<B: Rulebook>(
    session: &mut Session<'_>,
    book: &B,
    requests: &[u32],
    budget: u32,
) -> Result<Outcome, SessionFault>
    ensures answer { result
        ≡ request_and_settle_answer (state session.old) (B.Rulebook.table book.now)
        requests.now budget }
    ensures state { state session.new
        ≡ request_and_settle_leaves (state session.old) (B.Rulebook.table book.now)
        requests.now budget }
{
    session.request(requests)?;
    session.settle(book, budget)
}

// Writes the items of a trail to the front of the words.
fn write_items(trail: &[TrailRecord], active: &mut [u32])
    requires { length trail.now ≤ length active.old }
    ensures { active.new ≡ items_of trail.now ++ drop (length trail.now) active.old }
{
    for (place, record) in trail.iter().enumerate() {
        active[place] = record.item;
    }
}

// Writes the active items, if all is settled and there is room for them. The answer is one more than their number, or 0.
fn report(session: &Session<'_>, outcome: Result<Outcome, SessionFault>, active: &mut [u32]) -> u64
    ensures answer { result ≡ report_answer (trail_of session.now) outcome active.old }
    ensures active { active.new ≡ report_leaves (trail_of session.now) outcome active.old }
    ensures below { result < 18446744073709551615 }
{
    let trail = session.trail();
    match outcome {
        Ok(Outcome::Settled(_)) if trail.len() <= active.len() => {
            write_items(trail, active);
            trail.len() as u64 + 1
        }
        _ => 0,
    }
}

// Settles in memory for as many items as the graph has on both sides.
fn settle_graph(
    heap: Global,
    words: &[u32],
    requests: &[u32],
    budget: u32,
    active: &mut [u32],
) -> Result<u64, AllocError>
    ensures answer { IfOk result (λ n.
        n ≡ naiadiron_settle_answer words.now requests.now budget active.old) }
    ensures active { IfOk result (λ n.
        active.new ≡ naiadiron_settle_leaves words.now requests.now budget active.old) }
    ensures below { IfOk result (λ n. n < 18446744073709551615) }
    ensures no_memory { IfErr result (λ e. active.new ≡ active.old) }
    ensures law { IfOk result (λ n. SettleLaw words.now requests.now n active.new) }
{
    let book = GraphBook::new(words, &HostSplit);
    let items = book.items();
    let mut places = vec![in heap; UNUSED; items as usize]?;
    let mut marks = vec![in heap; None; items as usize]?;
    let mut session = Session::new(items, places.as_mut_slice(), marks.as_mut_slice());
    let outcome = request_and_settle(&mut session, &book, requests, budget);
    Ok(report(&session, outcome, active))
}

/// Requests items of graph words under host-split, settles, and writes the active items in the order in which they became
/// active. The answer is one more than their number.
///
/// It is 0 if a request is refused, the budget was too small or there is too little room, and the largest `u64` if there is
/// no memory; nothing is written then. It allocates 28 bytes for each item of either side.
#[unsafe(no_mangle)]
pub extern "C" fn naiadiron_settle(
    heap: Global,
    words: &[u32],
    requests: &[u32],
    budget: u32,
    active: &mut [u32],
) -> u64
    ensures answer { result ≢ 18446744073709551615 →
        result ≡ naiadiron_settle_answer words.now requests.now budget active.old }
    ensures active { result ≢ 18446744073709551615 →
        active.new ≡ naiadiron_settle_leaves words.now requests.now budget active.old }
    ensures no_memory { result ≡ 18446744073709551615 → active.new ≡ active.old }
    ensures law { result ≢ 18446744073709551615 →
        SettleLaw words.now requests.now result active.new }
{
    settle_graph(heap, words, requests, budget, active).unwrap_or(NO_MEMORY)
}
