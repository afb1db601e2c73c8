// Lists of calls on a session, with the law of sessions.
ghost use Rattle.std.specs.Prelude.{◌≡◌, ℕ, List, map, Ok};
ghost use Rattle.session.specs.Held.{state, Keeps};
ghost use Rattle.session.specs.Histories.{Call as Made, call_view, history};
ghost use Rattle.resolver.specs.Law.{run_calls_answer, run_calls_leaves, run_calls_answers, GoesOn};
ghost use Rattle.resolver.specs.PartLaw.{OpenedPartLaw};

use rulebook::Rulebook;
use session::{Answer, Call, Session, SessionFault};

/// Makes some calls on a session by a rulebook, one after the other, and writes what each answers into the places.
///
/// It is refused if there are fewer places than calls. The law of sessions stands here: it holds if the session is new, or
/// if only calls by this rulebook were made on it since it was.
pub fn run_calls<B: Rulebook>(
    session: &mut Session<'_>,
    book: &B,
    calls: &[Call<'_>],
    answers: &mut [Answer],
) -> Result<(), SessionFault>
    ensures answer { result ≡ run_calls_answer (map call_view calls.now) answers.old }
    ensures state { state session.new
        ≡ run_calls_leaves (state session.old) (B.Rulebook.table book.now)
        (map call_view calls.now) answers.old }
    ensures answers { answers.new
        ≡ run_calls_answers (state session.old) (B.Rulebook.table book.now)
        (map call_view calls.now) answers.old }
    ensures keeps { Keeps session.old session.new }
    ensures parts { OpenedPartLaw }
    ensures law { (n : ℕ) (before : List Made) →
        state session.old ≡ (history (B.Rulebook.table book.now) n before).state → result ≡ Ok tt →
        GoesOn (B.Rulebook.table book.now) n before (map call_view calls.now) (state session.new)
        answers.new }
{
    if answers.len() < calls.len() {
        return Err(SessionFault::Memory);
    }
    for (k, call) in calls.iter().enumerate() {
        answers[k] = session.call(book, *call);
    }
    Ok(())
}
