// The worked examples, run by the code.
ghost use Rattle.std.specs.Prelude.{◌≡◌, true, length, Ok};
ghost use Rattle.graph.specs.Examples.{example_words};
ghost use Rattle.session.specs.declared.calls.Outcome.TheVariants.{Settled, Pending};
ghost use Rattle.session.specs.Held.{trail_of, state};
ghost use Rattle.session.specs.States.{settle_run};
ghost use Rattle.resolver.specs.WorkedExamples.{active_count, example_table, new_session, example_asked, WorkedExamples};

use graph::{EXAMPLE, Opened, open_graph};
use policy::HostSplit;
use refusals::Refusal;
use rulebook::{GraphBook, Rulebook};
use session::{Outcome, Reason, Session, SessionFault, UNUSED};

// What opening the example file answers.
const OPENED: Opened = Opened {
    read: 173,
    packages: 3,
    dependencies: 3,
    features: 4,
    rows: 10,
};

// How many items there are, on both sides.
const ITEMS: u32 = 20;

// What the calls of the example answer: a request, settling within 3, 7 and 1 steps, and how many items are active after
// the first 3.
#[derive(Clone, Copy, PartialEq, Eq)]
struct CallAnswers {
    request: Result<(), SessionFault>,
    settle_3: Result<Outcome, SessionFault>,
    active_count: u32,
    settle_7: Result<Outcome, SessionFault>,
    settle_1: Result<Outcome, SessionFault>,
}

// What they are to answer.
const CALL_ANSWERS: CallAnswers = CallAnswers {
    request: Ok(()),
    settle_3: Ok(Outcome::Pending),
    active_count: 5,
    settle_7: Ok(Outcome::Pending),
    settle_1: Ok(Outcome::Settled(1)),
};

/// Runs the worked examples of all layers, each on what the layer below it left. True if all are answered as they should
/// be.
pub fn worked_examples() -> bool
    ensures answer { result ≡ true }
    ensures table { WorkedExamples }
{
    let mut words = [0; 54];
    let opened = opens(&mut words);
    let book = GraphBook::new(&words[..], &HostSplit);
    text::worked_examples()
        && opened
        && book.items() == ITEMS
        && book.rows() == OPENED.rows
        && answers_calls(&book)
        && refuses_only_items_beyond()
}

// Whether opening the example file into these words is answered so.
fn opens(words: &mut [u32]) -> bool
    requires { length words.old ≡ 54 }
    ensures answer { result ≡ true }
    ensures words { words.new ≡ example_words }
{
    let file = EXAMPLE;
    open_graph(&file, words) == Ok(OPENED)
}

// Whether the calls on a new session are answered so, and afterwards the questions.
fn answers_calls<B: Rulebook>(book: &B) -> bool
    requires { B.Rulebook.table book.now ≡ example_table }
    ensures { result ≡ true }
{
    let mut places = [UNUSED; ITEMS as usize];
    let mut marks = [None; ITEMS as usize];
    let mut session = Session::new(ITEMS, &mut places, &mut marks);
    make_calls(book, &mut session) == CALL_ANSWERS
        && answers_active(&session)
        && answers_reason(&session)
}

// Makes the calls of the example on a new session.
fn make_calls<B: Rulebook>(book: &B, session: &mut Session<'_>) -> CallAnswers
    requires book { B.Rulebook.table book.now ≡ example_table }
    requires session { state session.old ≡ new_session }
    ensures answers { result ≡ record {
      request = Ok tt;
      settle_3 = Ok Pending;
      active_count = 5;
      settle_7 = Ok Pending;
      settle_1 = Ok (Settled 1);
    } }
    ensures state { state session.new ≡ (settle_run example_asked example_table 11).state }
{
    let request = session.request(&[0, 6]);
    let settle_3 = session.settle(book, 3);
    let active_count = active_count(session);
    let settle_7 = session.settle(book, 7);
    let settle_1 = session.settle(book, 1);
    CallAnswers {
        request,
        settle_3,
        active_count,
        settle_7,
        settle_1,
    }
}

// How many items are active.
fn active_count(session: &Session<'_>) -> u32
    requires { session.now.items ≡ 20 }
    ensures { result ≡ active_count (trail_of session.now) 20 }
{
    let mut count = 0;
    for item in 0..ITEMS {
        if session.active(item) == Ok(true) {
            count += 1;
        }
    }
    count
}

// Whether the settled session answers what is active.
fn answers_active(session: &Session<'_>) -> bool
    requires { state session.now ≡ (settle_run example_asked example_table 11).state }
    ensures { result ≡ true }
{
    session.active(12) == Ok(true)
        && session.active(2) == Ok(false)
        && session.active(ITEMS) == Err(SessionFault::Item)
}

// Whether it answers what made items active: nothing, one item, or two.
fn answers_reason(session: &Session<'_>) -> bool
    requires { state session.now ≡ (settle_run example_asked example_table 11).state }
    ensures { result ≡ true }
{
    session.reason(6) == Ok(reason(None, None))
        && session.reason(18) == Ok(reason(Some(10), None))
        && session.reason(8) == Ok(reason(Some(3), Some(5)))
        && session.reason(2) == Err(SessionFault::Inactive)
}

// The reason with these trail numbers.
fn reason(first: Option<u32>, second: Option<u32>) -> Reason
    ensures { result ≡ record { first = first; second = second } }
{
    Reason { first, second }
}

// Whether a new session refuses an item beyond its own, by number 10, and takes the last one.
fn refuses_only_items_beyond() -> bool
    ensures { result ≡ true }
{
    let mut places = [UNUSED; ITEMS as usize];
    let mut marks = [None; ITEMS as usize];
    let mut session = Session::new(ITEMS, &mut places, &mut marks);
    session.request(&[ITEMS]) == Err(SessionFault::Item)
        && Refusal::from(SessionFault::Item).number == 10
        && session.request(&[19]) == Ok(())
}
