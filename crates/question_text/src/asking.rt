//! Commands with questions.
ghost use Rattle.std.specs.Prelude.{◌≡◌, min, IfErr, IfOk, None, Some};
ghost use Rattle.heap_class.specs.declared.Refusal.TheVariants.{NoMemory};
ghost use Rattle.heap_trail.specs.declared.Action.TheVariants.{OpenPin};
ghost use Rattle.heap_trail.specs.declared.Reply.{Reply};
ghost use Rattle.session_text.specs.Replies.{line_answer_text, reply_text};
ghost use Rattle.question_text.specs.Notes.{NotesLine};
ghost use Rattle.question_text.specs.Sessions.{Does, AnswersLine, AskingActs, OpensOrAnswers};
ghost use Rattle.question_grammar.specs.Bookmarks.{no_bookmarks};
ghost use Rattle.question_grammar.specs.NoteLines.{place_opened};
ghost use Rattle.question_grammar.specs.Orders.{order_in};
ghost use Rattle.heap_orders.specs.Redos.{no_redo, redo_limit};
ghost use Rattle.heap_orders.specs.Deeds.{Collects};

use crate::notes::note_line;
use crate::watch::Watch;
use heap_class::Refusal;
use heap_orders::{
    Redo, Steps, collect_answer, forward, forward_to, rewind_to, run_cycle, take_step,
};
use heap_step::{Answer, Event, IntoEvent};
use heap_trail::{Action, Machine, Reply};
use question_grammar::{Bookmarks, Order, order_in, place_opened};
use session_text::{Commands, LineAnswer, Local};
use std::alloc::Global;

// The largest number of steps that are kept to be taken again.
const REDO_LIMIT: u64 = 65_536;

/// A private machine that acts on the lines of a session, and answers questions about itself, `help`, the lines that `Order` has,
/// and those that set what the session notes.
#[derive(Drop)]
pub struct Asking<'a> {
    /// The machine.
    pub local: Local,
    /// What readers beside the session see of it.
    pub watch: &'a Watch,
    /// The steps that can be taken again.
    pub redo: Redo,
    /// What the session notes of places.
    pub bookmarks: Bookmarks,
}

impl<'a> Asking<'a> {
    /// Creates the commands of a machine that retains up to `keep` steps. As many can be taken again, at most 65,536. No place has
    /// a name. Fails with NoMemory.
    pub fn new(
        alloc: Global,
        local: Local,
        watch: &'a Watch,
        keep: u64,
    ) -> Result<Asking<'a>, Refusal>
        ensures local { IfOk result (λ c. c.local ≡ local) }
        ensures none { IfOk result (λ c. c.redo ≡ no_redo (min keep redo_limit)) }
        ensures unnamed { IfOk result (λ c. c.bookmarks ≡ no_bookmarks) }
        ensures refused { IfErr result (λ e. e ≡ NoMemory) }
    {
        let redo = Redo::with_limit(alloc, keep.min(REDO_LIMIT) as usize)?;
        let bookmarks = Bookmarks::new(alloc);
        Ok(Asking {
            local,
            watch,
            redo,
            bookmarks,
        })
    }

    // Does what a line asks to be done, and returns the answer.
    fn obey(&mut self, alloc: Global, order: Order) -> LineAnswer
        ensures does { Does order self.old.local.machine self.old.redo (line_answer_text result)
            self.new.local.machine self.new.redo }
        ensures first { self.new.local.first_pin ≡ self.old.local.first_pin }
        ensures watch { self.new.watch ≡ self.old.watch }
        ensures bookmarks { self.new.bookmarks ≡ self.old.bookmarks }
    {
        match order {
            Order::Collect => collect(alloc, self),
            Order::RewindTo(place) => rewind_to(&mut self.local.machine, &mut self.redo, place),
            Order::Forward(count) => {
                forward(alloc, &mut self.local.machine, &mut self.redo, count)
            }
            Order::ForwardTo(place) => forward_to(&mut self.local.machine, &mut self.redo, place),
            Order::Act(event) => take_step(&mut self.local.machine, &mut self.redo, event),
        }
    }

    // Answers a line that the grammar of sessions doesn't know.
    fn answer_line(&mut self, alloc: Global, line: &[u8]) -> LineAnswer
        ensures answers { OpensOrAnswers (place_opened self.old.bookmarks line.now) line.now
            self.old (line_answer_text result) self.new }
        ensures watch { self.new.watch ≡ self.old.watch }
    {
        match place_opened(&self.bookmarks, line) {
            Some(place) => self.open(place),
            None => self.answer_order(alloc, line),
        }
    }

    // Opens a pin on the state at a place, or on the current one.
    fn open(&mut self, place: Option<u64>) -> LineAnswer
        ensures opens { (r : Reply) × AskingActs self.old (OpenPin place) r self.new
            × (line_answer_text result ≡ reply_text r) }
        ensures watch { self.new.watch ≡ self.old.watch }
    {
        let reply = self.local.machine.act(&Action::OpenPin(place));
        LineAnswer::Known(reply)
    }

    // Answers a line that opens no pin.
    fn answer_order(&mut self, alloc: Global, line: &[u8]) -> LineAnswer
        ensures answers { AnswersLine
            (order_in self.old.bookmarks self.old.local.machine.trail.current line.now) line.now
            self.old (line_answer_text result) self.new }
        ensures watch { self.new.watch ≡ self.old.watch }
    {
        match order_in(alloc, &self.bookmarks, self.local.machine.world(), line) {
            Ok(Some(order)) => self.obey(alloc, order),
            Ok(None) => self.note_line(alloc, line),
            Err(_) => LineAnswer::Known(Reply::Refused(Refusal::NoMemory)),
        }
    }

    // Answers a line that asks for nothing to be done, and notes what it sets.
    fn note_line(&mut self, alloc: Global, line: &[u8]) -> LineAnswer
        ensures notes { NotesLine line.now self.old.local.machine None self.old.bookmarks
            (line_answer_text result) self.new.bookmarks }
        ensures others { self.new ≡ record self.old { bookmarks = self.new.bookmarks } }
    {
        note_line(alloc, &self.local.machine, None, &mut self.bookmarks, line)
    }
}

impl Commands for Asking<'_> {
    ghost use Rattle.question_text.specs.Sessions.{AskingActs, AskingAnswers};

    ghost acts = { AskingActs };

    ghost unknown = { AskingAnswers };

    #[inline(always)]
    fn act(&mut self, action: Action) -> Reply {
        let reply = self.local.machine.act(&action);
        self.redo.note(action, &reply);
        self.watch.note_reply(&self.local.machine, &reply);
        reply
    }

    #[inline(always)]
    fn step<E: IntoEvent>(&mut self, event: E) -> Reply {
        let reply = self.local.machine.reply_to(&event);
        if matches!(reply, Reply::Answered(_)) {
            self.redo.note_step(event.into_event());
        }
        self.watch.note_reply(&self.local.machine, &reply);
        reply
    }

    fn answer_unknown(&mut self, alloc: Global, line: &[u8]) -> LineAnswer {
        let answer = self.answer_line(alloc, line);
        self.watch.note_answer(&self.local.machine, &answer);
        answer
    }
}

// Takes the steps of `collect`, and returns its answer.
fn collect(alloc: Global, asking: &mut Asking<'_>) -> LineAnswer
    ensures collects { Collects asking.old.local.machine asking.old.redo (line_answer_text result)
        asking.new.local.machine asking.new.redo }
    ensures first { asking.new.local.first_pin ≡ asking.old.local.first_pin }
    ensures watch { asking.new.watch ≡ asking.old.watch }
    ensures bookmarks { asking.new.bookmarks ≡ asking.old.bookmarks }
{
    let cycle = run_cycle(asking, &mut ());
    collect_answer(alloc, cycle)
}

impl Steps for Asking<'_> {
    ghost use Rattle.heap_orders.specs.Collections.{NoneDenies};
    ghost use Rattle.question_text.specs.Sessions.{HasNoted};

    type By = ();

    ghost seen = { λ c. c.local.machine };

    ghost may = { λ by. Unit {0} };

    ghost since = { λ c by first first_by steps. HasNoted first steps c };

    ghost denies = { NoneDenies };

    fn machine(&self) -> &Machine {
        &self.local.machine
    }

    fn take(&mut self, _by: &mut (), event: Event) -> Result<Answer, Refusal> {
        match self.local.machine.step(&event) {
            Ok(answer) => {
                self.redo.note_step(event);
                Ok(answer)
            }
            Err(refusal) => Err(refusal),
        }
    }
}
