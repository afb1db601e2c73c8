// A session over lent memory, and the calls on it.
ghost use Rattle.std.specs.Prelude.{◌≤◌, length, take};
ghost use Rattle.rulebook.specs.Tables.{max_items};
ghost use Rattle.session.specs.Trails.{Below, Apart, Marked, FirstOlder, SecondOlder};

use crate::calls::{Answer, Call, Outcome, Reason, SessionFault};
use crate::trail::{Trail, TrailRecord};
use rulebook::{MAX_ITEMS, RowEntry, Rulebook, WatchEntry};

/// The items of a rulebook by number, which of them are active, and what made each of them so.
///
/// It works in lent memory: a trail place and a mark for each item.
// The worked place is a trail number and a row: the watch entries before it are taken. Every session keeps: the memory
// suffices; the items of the trail are below the count and differ; marks tell their trail numbers; causes are older.
#[derive(Drop)]
pub struct Session<'a> {
    pub(crate) items: u32,
    pub(crate) trail: Trail<'a>,
    pub(crate) position: u32,
    pub(crate) row: u32,
    ghost few: { items ≤ max_items },
    ghost places: { items ≤ length trail.places.now },
    ghost marks: { items ≤ length trail.marks.now },
    ghost held: { trail.len ≤ length trail.places.now },
    ghost inside: { position ≤ trail.len },
    ghost below: { Below items (take trail.len trail.places.now) },
    ghost apart: { Apart (take trail.len trail.places.now) },
    ghost marked: { Marked items (take trail.len trail.places.now) trail.marks.now },
    ghost first_older: { FirstOlder (take trail.len trail.places.now) },
    ghost second_older: { SecondOlder (take trail.len trail.places.now) },
}

// Opening, and the questions.
impl<'a> Session<'a> {
    ghost use Rattle.std.specs.Prelude.{◌≡◌, ◌<◌, drop, IfSome};
    ghost use Rattle.session.specs.Held.{trail_of, state};
    ghost use Rattle.session.specs.States.{check_answer, open_session, active_answer, reason_answer};
    ghost use Rattle.session.specs.Trails.{active, find, grants, cause_of};

    /// Whether a session of so many items can be opened in such memory.
    ///
    /// It is refused with fewer trail places or marks than items, and with more items than a rulebook may have.
    pub fn check(
        items: u32,
        places: &[TrailRecord],
        marks: &[Option<u32>],
    ) -> Result<(), SessionFault>
        ensures { result ≡ check_answer items (length places.now) (length marks.now) }
    {
        if places.len() < items as usize || marks.len() < items as usize {
            return Err(SessionFault::Memory);
        }
        if items > MAX_ITEMS {
            return Err(SessionFault::Item);
        }
        Ok(())
    }

    /// A new session in which nothing is active. Where the check refuses, it has no items.
    pub fn new(
        items: u32,
        places: &'a mut [TrailRecord],
        marks: &'a mut [Option<u32>],
    ) -> Session<'a>
        ensures state { state result ≡ open_session items (length places.old) (length marks.old) }
        ensures places { (result.trail.places.ghost_name ≡ places.entry.ghost_name)
            × (result.trail.places.now ≡ places.old) }
        ensures marks { (result.trail.marks.ghost_name ≡ marks.entry.ghost_name)
            × (drop result.items result.trail.marks.now ≡ drop result.items marks.old) }
    {
        let items = match Session::check(items, places, marks) {
            Ok(()) => items,
            Err(_) => 0,
        };
        marks[..items as usize].fill(None);
        let trail = Trail {
            places,
            marks,
            len: 0,
        };
        Session {
            items,
            trail,
            position: 0,
            row: 0,
        }
    }

    /// The records of the active items, in the order in which they became active.
    pub fn trail(&self) -> &[TrailRecord]
        ensures { result.now ≡ trail_of self.now }
    {
        &self.trail.places[..self.trail.len as usize]
    }

    // The trail number of an item.
    fn find(&self, item: u32) -> Option<u32>
        requires { item < self.now.items }
        ensures { result ≡ find (trail_of self.now) item }
    {
        self.trail.marks[item as usize]
    }

    // Whether an item of the session is active.
    fn is_active(&self, item: u32) -> bool
        requires { item < self.now.items }
        ensures { result ≡ active (trail_of self.now) item }
    {
        self.find(item).is_some()
    }

    // Whether the partner, if there is one, is active.
    fn grants(&self, partner: Option<u32>) -> bool
        requires { IfSome partner (λ b. b < self.now.items) }
        ensures { result ≡ grants (trail_of self.now) partner }
    {
        match partner {
            None => true,
            Some(item) => self.is_active(item),
        }
    }

    // The trail number of the partner, if there is one.
    fn cause_of(&self, partner: Option<u32>) -> Option<u32>
        requires { IfSome partner (λ b. b < self.now.items) }
        ensures { result ≡ cause_of (trail_of self.now) partner }
    {
        self.find(partner?)
    }

    /// Whether an item is active. It is refused for an item beyond the session's.
    pub fn active(&self, item: u32) -> Result<bool, SessionFault>
        ensures { result ≡ active_answer (state self.now) item }
    {
        if item >= self.items {
            return Err(SessionFault::Item);
        }
        Ok(self.is_active(item))
    }

    /// What made an item active. It is refused for an item beyond the session's, and for one that is not active.
    pub fn reason(&self, item: u32) -> Result<Reason, SessionFault>
        ensures { result ≡ reason_answer (state self.now) item }
    {
        if item >= self.items {
            return Err(SessionFault::Item);
        }
        match self.find(item) {
            None => Err(SessionFault::Inactive),
            Some(at) => {
                let TrailRecord { first, second, .. } = self.trail.places[at as usize];
                Ok(Reason { first, second })
            }
        }
    }
}

// What changes a session: requests and settling.
impl Session<'_> {
    ghost use Rattle.std.specs.Prelude.{◌≡◌, ◌∷◌, ◌++◌, ◌+◌, ◌<◌, [], false, IfSome};
    ghost use Rattle.rulebook.specs.Tables.{max_rows};
    ghost use Rattle.session.specs.Held.{trail_of, state, Keeps};
    ghost use Rattle.session.specs.Histories.{call_view, call_answer, call_leaves};
    ghost use Rattle.session.specs.States.{with_trail, move_on, request_one, request_answer, request_leaves, worked_item, conclude, take_entry, settle_answer, settle_leaves};
    ghost use Rattle.session.specs.Trails.{active};

    // A record of an item that is not active joins the trail.
    fn join(&mut self, added: TrailRecord)
        requires below { added.item < self.old.items }
        requires inactive { active (trail_of self.old) added.item ≡ false }
        requires older { IfSome added.first (λ c. c < self.old.trail.len)
            × IfSome added.second (λ c. c < self.old.trail.len) }
        ensures state { state self.new
            ≡ with_trail (state self.old) (trail_of self.old ++ added ∷ []) }
        ensures keeps { Keeps self.old self.new }
    {
        self.trail.push(added);
    }

    // Whether all of these items are below the count.
    fn check_items(&self, list: &[u32]) -> Result<(), SessionFault>
        ensures { result ≡ request_answer (state self.now) list.now }
    {
        for item in list {
            if *item >= self.items {
                return Err(SessionFault::Item);
            }
        }
        Ok(())
    }

    // An item joins the trail, without causes, unless it is active.
    fn request_one(&mut self, item: u32)
        requires { item < self.old.items }
        ensures state { state self.new ≡ request_one (state self.old) item }
        ensures keeps { Keeps self.old self.new }
    {
        if !self.is_active(item) {
            self.join(TrailRecord {
                item,
                first: None,
                second: None,
            });
        }
    }

    /// Makes these items active, those that are not yet, in list order.
    ///
    /// It is refused as a whole if one of them is beyond the session's items.
    pub fn request(&mut self, list: &[u32]) -> Result<(), SessionFault>
        ensures answer { result ≡ request_answer (state self.old) list.now }
        ensures state { state self.new ≡ request_leaves (state self.old) list.now }
        ensures keeps { Keeps self.old self.new }
    {
        self.check_items(list)?;
        for item in list {
            self.request_one(*item);
        }
        Ok(())
    }

    // The item at the worked place, if a trail item is left.
    fn worked_item(&self) -> Option<u32>
        ensures { result ≡ worked_item (state self.now) }
    {
        if self.position == self.trail.len {
            return None;
        }
        Some(self.trail.places[self.position as usize].item)
    }

    // On to the next trail item, at row 0.
    fn move_on(&mut self)
        requires { self.old.position < self.old.trail.len }
        ensures state { state self.new ≡ move_on (state self.old) }
        ensures keeps { Keeps self.old self.new }
    {
        self.position += 1;
        self.row = 0;
    }

    // The conclusion of an entry joins the trail if its premises are active and it is not.
    fn conclude(&mut self, entry: WatchEntry)
        requires position { self.old.position < self.old.trail.len }
        requires below { (entry.conclusion < self.old.items)
            × IfSome entry.partner (λ b. b < self.old.items) }
        ensures state { state self.new ≡ conclude (state self.old) entry }
        ensures keeps { Keeps self.old self.new }
    {
        if self.grants(entry.partner) && !self.is_active(entry.conclusion) {
            let first = Some(self.position);
            let second = self.cause_of(entry.partner);
            self.join(TrailRecord {
                item: entry.conclusion,
                first,
                second,
            });
        }
    }

    // An entry of the worked item is taken.
    fn take_entry(&mut self, found: RowEntry)
        requires position { self.old.position < self.old.trail.len }
        requires below { (found.entry.conclusion < self.old.items)
            × IfSome found.entry.partner (λ b. b < self.old.items) }
        requires row { found.row < max_rows }
        ensures state { state self.new ≡ take_entry (state self.old) found }
        ensures keeps { Keeps self.old self.new }
    {
        self.conclude(found.entry);
        self.row = found.row + 1;
    }

    /// Takes watch entries, in trail order, until nothing is pending or as many as the budget allows.
    ///
    /// It is refused by a rulebook of another item count.
    pub fn settle<B: Rulebook>(&mut self, book: &B, budget: u32) -> Result<Outcome, SessionFault>
        ensures answer { result
            ≡ settle_answer (state self.old) (B.Rulebook.table book.now) budget }
        ensures state { state self.new
            ≡ settle_leaves (state self.old) (B.Rulebook.table book.now) budget }
        ensures keeps { Keeps self.old self.new }
    {
        if book.items() != self.items {
            return Err(SessionFault::Item);
        }
        let mut steps = 0;
        while let Some(item) = self.worked_item() {
            match book.seek(item, self.row) {
                None => self.move_on(),
                Some(_) if steps == budget => return Ok(Outcome::Pending),
                Some(found) => {
                    self.take_entry(found);
                    steps += 1;
                }
            }
        }
        Ok(Outcome::Settled(steps))
    }

    /// Makes one call by a rulebook.
    pub fn call<B: Rulebook>(&mut self, book: &B, call: Call<'_>) -> Answer
        ensures answer { result
            ≡ call_answer (state self.old) (B.Rulebook.table book.now) (call_view call.entry) }
        ensures state { state self.new
            ≡ call_leaves (state self.old) (B.Rulebook.table book.now) (call_view call.entry) }
        ensures keeps { Keeps self.old self.new }
    {
        match call {
            Call::Request(items) => Answer::Request(self.request(items)),
            Call::Settle(budget) => Answer::Settle(self.settle(book, budget)),
            Call::Active(item) => Answer::Active(self.active(item)),
            Call::Reason(item) => Answer::Reason(self.reason(item)),
        }
    }
}
