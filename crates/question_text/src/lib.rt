//! Questions as lines, and their answers.
#![tactic(auto)]

ghost use Rattle.std.specs.Prelude.{◌≡◌, ◌⊎◌, ◌≤◌, ◌+◌, ℕ, List, [], Option, Some, None, codes, length, true};
ghost use Rattle.heap_class.specs.declared.Refusal.{Refusal};
ghost use Rattle.heap_class.specs.declared.Refusal.TheVariants.{NoMemory};
ghost use Rattle.heap_trail.specs.declared.Action.{Action};
ghost use Rattle.heap_trail.specs.declared.Action.TheVariants.{Rewind};
ghost use Rattle.heap_trail.specs.declared.Reply.{Reply};
ghost use Rattle.heap_trail.specs.declared.Reply.TheVariants.{Place};
ghost use Rattle.heap_trail.specs.Laws.{IsTrail};
ghost use Rattle.heap_trail.specs.Limits.{last_place};
ghost use Rattle.heap_trail.specs.Machine.{Machine};
ghost use Rattle.heap_world.specs.State.{HeapState};
ghost use Rattle.session_grammar.specs.declared.command.Command.TheVariants.{Bad};
ghost use Rattle.std.specs.List.{AllByRecursion};
ghost use Rattle.session_grammar.specs.Grammar.{Rule, all_rules, command_of_text};
ghost use Rattle.question_grammar.specs.declared.chain.Chain.{Chain};
ghost use Rattle.question_grammar.specs.declared.question.Question.{Question};
ghost use Rattle.question_text.specs.declared.asking.Asking.{Asking};
ghost use Rattle.heap_orders.specs.Collections.{IsWholeCycle, TakenStep};
ghost use Rattle.question_text.specs.Comments.{is_comment};
ghost use Rattle.question_text.specs.Help.{HasForm, help_of};
ghost use Rattle.question_grammar.specs.Bookmarks.{Bookmarks};
ghost use Rattle.question_grammar.specs.Chains.{chain_of};
ghost use Rattle.question_grammar.specs.FileLines.{file_of};
ghost use Rattle.question_grammar.specs.declared.file_line.FileContent.{FileContent};
ghost use Rattle.question_grammar.specs.NamedLines.{question_in};
ghost use Rattle.question_grammar.specs.NoteLines.{name_set, place_opened, place_set};
ghost use Rattle.question_grammar.specs.declared.order.Order.{Order};
ghost use Rattle.question_grammar.specs.declared.order.Order.TheVariants.{Forward};
ghost use Rattle.question_words.specs.Moments.{refused_text};
ghost use Rattle.question_grammar.specs.Orders.{order_in};
ghost use Rattle.heap_orders.specs.Redos.{IsBackAt, IsRedoOf, Redo, StopsBefore, no_redo};
ghost use Rattle.question_grammar.specs.Questions.{QuestionRule, question_of, question_rules};
ghost use Rattle.question_text.specs.Sessions.{AnswersAlone, AskingActs, AskingAnswers, IsAlone, IsDriven, IsUnnoted, NoneOrders};
ghost use Rattle.session_text.specs.Answers.{AnswersCommand};
ghost use Rattle.session_text.specs.declared.limits.SessionLimits.{SessionLimits};
ghost use Rattle.session_text.specs.Talks.{AnswersAll};

mod answers;
mod asking;
mod comment;
mod dominator_rows;
mod file_forms;
mod help;
mod notes;
mod session;
mod shown_chain;
mod state_dump;
mod watch;

pub use answers::{answer, answer_line};
pub use asking::Asking;
pub use file_forms::{file_help, file_keyword_help, file_rows};
pub use help::{all_help, keyword_help, question_help};
pub use notes::note_line;
pub use session::serve_asking;
pub use state_dump::{DumpCut, dump_at, first_piece, put_pieces};
pub use watch::{BAD_COMMAND, Watch};

/// States that no line that asks a question, by numbers alone, by names of classes and fields, or along fields, is one of the
/// grammar of sessions, so that each of these keeps its meaning.
pub fn questions_are_new()
    ensures numbers { (b : Bookmarks) (l : List ℕ) (q : Question)
        → question_of b l ≡ Some q → command_of_text l ≡ Bad }
    ensures names { (b : Bookmarks) (w : HeapState) (l : List ℕ) (q : Question)
        → question_in b w l ≡ Some q → command_of_text l ≡ Bad }
    ensures chains { (b : Bookmarks) (l : List ℕ) (c : Chain)
        → chain_of b l ≡ Some c → command_of_text l ≡ Bad }
{}

/// States that a line that asks a question by numbers alone asks the same one whatever names a heap has.
pub fn numbers_keep_their_meaning()
    ensures { (b : Bookmarks) (w : HeapState) (l : List ℕ) (q : Question)
        → question_of b l ≡ Some q → question_in b w l ≡ Some q }
{}

/// States the same of a line that asks for help.
pub fn help_is_new()
    ensures { (l text : List ℕ) → help_of l ≡ Some text → command_of_text l ≡ Bad }
{}

/// States the same of the lines that change the heap: `collect`, `rewind @P`, `forward`, and events that name a class or a field.
pub fn orders_are_new()
    ensures { (b : Bookmarks) (state : HeapState) (l : List ℕ) (o : Order)
        → order_in b state l ≡ Some o → command_of_text l ≡ Bad }
{}

/// States the same of `open` and `open @WORD`, and of the lines that a session notes: `at @P`, `at -` and `name WORD`. None of them
/// asks a question or for help, or is one of those that change the heap.
pub fn notes_are_new()
    ensures opens { (b : Bookmarks) (state : HeapState) (l : List ℕ) (place : Option ℕ)
        → place_opened b l ≡ Some place → IsAlone b state l }
    ensures places { (b : Bookmarks) (state : HeapState) (l : List ℕ) (to : Option ℕ)
        → place_set b l ≡ Some to → IsAlone b state l }
    ensures names { (b : Bookmarks) (state : HeapState) (l w : List ℕ)
        → name_set l ≡ Some w → IsAlone b state l }
{}

/// States the same of the lines that write files, `write [AT] PATH` and `draw [AT] PATH`: no session notes them or opens a pin by
/// them either.
pub fn file_lines_are_new()
    ensures alone { (b : Bookmarks) (state : HeapState) (l path : List ℕ) (content : FileContent)
        → file_of b l ≡ Some (content, path) → IsAlone b state l }
    ensures unnoted { (b : Bookmarks) (l path : List ℕ) (content : FileContent)
        → file_of b l ≡ Some (content, path) → IsUnnoted b l }
{}

/// States the same of a comment: a line whose first word begins with `#`.
pub fn comments_are_new()
    ensures { (l : List ℕ) → is_comment l ≡ true → command_of_text l ≡ Bad }
{}

/// States that a comment has no answer and changes nothing.
pub fn comments_are_silent()
    ensures { (l text : List ℕ) (c d : Asking) → is_comment l ≡ true → AskingAnswers l c text d
        → (text ≡ []) × (d ≡ c) }
{}

/// States that a question and a line that asks for help change nothing, and that no other line which the grammar of sessions
/// doesn't know changes anything but bookmarks, except for `collect`, `rewind @P`, `forward`, events by names, `open` and `open
/// @WORD`.
pub fn questions_change_nothing()
    ensures questions { (l text : List ℕ) (q : Question) (c d : Asking)
        → question_of c.bookmarks l ≡ Some q → AskingAnswers l c text d → d ≡ c }
    ensures help { (l text answer : List ℕ) (c d : Asking)
        → help_of l ≡ Some answer → AskingAnswers l c text d → d ≡ c }
    ensures others { (l text : List ℕ) (c d : Asking)
        → place_opened c.bookmarks l ≡ None
        → order_in c.bookmarks c.local.machine.trail.current l ≡ None
        → AskingAnswers l c text d → d ≡ record c { bookmarks = d.bookmarks } }
{}

/// States that the state determines the steps of `collect`: from one state two whole cycles take the same steps with the same
/// answers, condemn and remove as many objects, and end in one state.
pub fn collect_is_determined()
    ensures { (m k n l : Machine) (steps others : List TakenStep)
        (condemned swept doomed removed : ℕ) → m.trail.current ≡ k.trail.current
        → IsWholeCycle m steps condemned swept n → IsWholeCycle k others doomed removed l
        → (steps ≡ others) × (condemned ≡ doomed) × (swept ≡ removed)
        × (n.trail.current ≡ l.trail.current) }
{}

/// States that the lines of a session with questions that the grammar of sessions knows are answered, and leave the machine, as
/// a session of these lines alone does, if none is `collect`, `rewind @P`, `forward`, an event by a name or `open @WORD`.
pub fn questions_can_be_left_out()
    ensures { (limits : SessionLimits) (time : ℕ) (lines : List (List ℕ)) (text : List ℕ)
        (c d : Asking) → NoneOrders lines
        → AnswersAll limits (AnswersCommand AskingActs AskingAnswers time) lines c text d
        → AnswersAlone limits time c.local.machine lines text d.local.machine }
{}

/// States that some list of actions leads to the machine that a session with questions leaves, `collect`, `rewind @P`, `forward`,
/// events by names and `open @WORD` included.
pub fn asking_session_is_list()
    ensures { (limits : SessionLimits) (time : ℕ) (lines : List (List ℕ)) (text : List ℕ)
        (c d : Asking) → AnswersAll limits
        (AnswersCommand AskingActs AskingAnswers time) lines c text d
        → IsDriven c.local.machine d.local.machine }
{}

/// States that the steps that are kept as undone lead on from the current state to the newest one, whatever a session does, from
/// its beginning on, at which none are.
pub fn undone_steps_lead_on()
    ensures begins { (m : Machine) (limit : ℕ) → IsTrail m.keep m.trail
        → m.trail.place ≤ last_place → limit ≤ m.keep → IsRedoOf m (no_redo limit) }
    ensures actions { (a : Action) (r : Reply) (c d : Asking) → AskingActs c a r d
        → IsRedoOf c.local.machine c.redo → IsRedoOf d.local.machine d.redo }
    ensures lines { (l text : List ℕ) (c d : Asking) → AskingAnswers l c text d
        → IsRedoOf c.local.machine c.redo → IsRedoOf d.local.machine d.redo }
    ensures sessions { (limits : SessionLimits) (time : ℕ) (lines : List (List ℕ))
        (text : List ℕ) (c d : Asking)
        → AnswersAll limits (AnswersCommand AskingActs AskingAnswers time) lines c text d
        → IsRedoOf c.local.machine c.redo → IsRedoOf d.local.machine d.redo }
{}

/// States that a rewind of steps that are all kept, and then a `forward` of as many, give back the trail, with its place, states
/// and records, and the undone steps, unless memory is refused to a step. Nothing else stops a `forward`.
pub fn forward_takes_back()
    ensures back { (n place : ℕ) (l text : List ℕ) (c d e : Asking)
        → IsRedoOf c.local.machine c.redo → c.redo.ahead + n ≤ length c.redo.events
        → AskingActs c (Rewind n) (Place place) d
        → order_in d.bookmarks d.local.machine.trail.current l ≡ Some (Forward n)
        → AskingAnswers l d text e
        → IsBackAt c.local.machine c.redo text e.local.machine e.redo
        ⊎ (text ≡ refused_text NoMemory) }
    ensures stops { (n : ℕ) (m k : Machine) (r s : Redo) (e : Refusal) → IsRedoOf m r
        → StopsBefore n m r e k s → e ≡ NoMemory }
{}

/// States that `help` knows the keyword of each line of the grammar of sessions, of each question, of `collect`, `forward`, `at`
/// and `name`.
pub fn help_is_whole()
    ensures sessions { AllByRecursion (λ (r : Rule). HasForm r.0) all_rules }
    ensures questions { (b : Bookmarks)
        → AllByRecursion (λ (r : QuestionRule). HasForm r.0) (question_rules b) }
    ensures collect { HasForm (codes "collect") }
    ensures forward { HasForm (codes "forward") }
    ensures at { HasForm (codes "at") }
    ensures name { HasForm (codes "name") }
{}
