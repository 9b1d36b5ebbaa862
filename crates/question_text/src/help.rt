//! The answers of `help`.
ghost use Rattle.std.specs.Prelude.{◌≡◌};
ghost use Rattle.std.specs.Option.{option_map};
ghost use Rattle.session_grammar.specs.Grammar.{words_of_line};
ghost use Rattle.session_text.specs.Replies.{line_answer_text};
ghost use Rattle.question_text.specs.Help.{act_forms, all_forms, form_with, formats_text, help_about, help_of, help_on, help_or_bad, help_rows, help_text, object_forms, past_forms, question_forms, session_forms};

use session_grammar::by_word;
use session_grammar::words::{Words, is_word};
use session_text::LineAnswer;

/// Returns what `help` answers about a keyword of a question, `collect`, `forward`, `at`, `name` or `help`, or None if it is none.
/// Takes no memory.
#[tactic(auto, unfolding(crate::specs::Help::form_text, crate::specs::Help::form_with, crate::specs::Help::question_forms))]
pub fn question_help(word: &[u8]) -> Option<&'static [u8]>
    ensures { option_map (λ t. t.now) result ≡ form_with question_forms word.now }
{
    by_word!(word;
        b"histogram" => Some(b"row histogram [AT]\nrow histogram -\nrow # the objects and bytes of each class\nok\n"),
        b"garbage" => Some(b"row garbage [AT]\nrow garbage 1\nrow # the same for the objects that no register reaches\nok\n"),
        b"growth" => Some(b"row growth [AT [AT]]\nrow growth @120 -\nrow # the classes whose objects or bytes differ between two states\nok\n"),
        b"kept" => Some(b"row kept [AT [AT]]\nrow kept @120 -\nrow # what was made between two states and is reached in the second, by class\nok\n"),
        b"diff" => Some(b"row diff [AT [AT]]\nrow diff @120 -\nrow # the objects and slots that differ between two states\nok\n"),
        b"registers" => Some(b"row registers [AT]\nrow registers -\nrow # what each register names\nok\n"),
        b"classes" => Some(b"row classes [AT]\nrow classes -\nrow # the classes with their supers and own fields\nok\n"),
        b"objects" => Some(b"row objects [AT] [CLASS [SLOT VALUE]]\nrow objects server/Entry state 42\nrow # each object, or each of a class, or of these each that has a value in a slot\nok\n"),
        b"values" => Some(b"row values [AT] CLASS SLOT\nrow values server/Entry state\nrow # the values of a slot in the objects of a class, and how many have each\nok\n"),
        _ => object_help(word)
    )
}

// Returns the same about a keyword of a question about an object, or of those below.
#[tactic(auto, unfolding(crate::specs::Help::form_text, crate::specs::Help::form_with, crate::specs::Help::object_forms))]
fn object_help(word: &[u8]) -> Option<&'static [u8]>
    ensures { option_map (λ t. t.now) result ≡ form_with object_forms word.now }
{
    by_word!(word;
        b"referrers" => Some(b"row referrers [AT] ID\nrow referrers - 0x10000020\nrow # the registers and slots that name an object\nok\n"),
        b"path" => Some(b"row path [AT] ID\nrow path @120 0x10000020\nrow # a shortest path from a register to an object\nok\n"),
        b"paths" => Some(b"row paths [AT] ID N\nrow paths 0x10000020 10\nrow # up to N paths to an object of which no two start alike\nok\n"),
        b"retained" => Some(b"row retained [AT] ID\nrow retained 0x10000020\nrow # what is reached only through an object, by class\nok\n"),
        b"dominators" => Some(b"row dominators [AT] [ID] [N]\nrow dominators 0x10000020 10\nrow # what is retained by each object that no other dominates, or none but one with this ID\nok\n"),
        b"dominator" => Some(b"row dominator [AT] ID\nrow dominator 0x10000020\nrow # the objects that dominate an object, the nearest first\nok\n"),
        b"show" => Some(b"row show [AT] ID[.FIELD ..] [DEPTH | FROM N]\nrow show 0x10000020.next 2\nrow # the slots of an object; with DEPTH also those of the objects below it\nok\n"),
        _ => past_help(word)
    )
}

// Returns the same about a keyword of a question about what retained steps did, or of those below.
#[tactic(auto, unfolding(crate::specs::Help::form_text, crate::specs::Help::form_with, crate::specs::Help::past_forms))]
fn past_help(word: &[u8]) -> Option<&'static [u8]>
    ensures { option_map (λ t. t.now) result ≡ form_with past_forms word.now }
{
    by_word!(word;
        b"born" => Some(b"row born [@PLACE] ID\nrow born 0x10000020\nrow # the step that made an object\nok\n"),
        b"wrote" => Some(b"row wrote [@PLACE] ID SLOT\nrow wrote 0x10000020 next\nrow # the newest step that changed a slot\nok\n"),
        b"watch" => Some(b"row watch ID SLOT [@PLACE]\nrow watch 0x10000020 next\nrow # each retained step that changed a slot\nok\n"),
        b"writes" => Some(b"row writes CLASS SLOT [@PLACE [@PLACE]]\nrow writes server/Entry state\nrow # each retained step that changed a slot of some object of a class\nok\n"),
        b"when" => Some(b"row when [@PLACE [@PLACE]] (CLASS SLOT VALUE | count CLASS N)\nrow when server/Entry state 42\nrow # the first place at which an object of a class has a value, or the class has N objects\nok\n"),
        b"dropped" => Some(b"row dropped [@PLACE] ID\nrow dropped 0x10000020\nrow # the step since which no register reaches an object\nok\n"),
        b"life" => Some(b"row life ID\nrow life 0x10000020\nrow # what became of each object that had this ID\nok\n"),
        b"history" => Some(b"row history [@PLACE] N\nrow history 10\nrow # what the newest N steps did and overwrote\nok\n"),
        b"cycles" => Some(b"row cycles\nrow cycles\nrow # each cycle that ended, and how many objects it condemned and sweeps removed\nok\n"),
        _ => session_help(word)
    )
}

// Returns the same about a keyword of a question about the current state alone, `collect`, `forward`, `at`, `name` or `help`.
#[tactic(auto, unfolding(crate::specs::Help::form_text, crate::specs::Help::form_with, crate::specs::Help::session_forms))]
fn session_help(word: &[u8]) -> Option<&'static [u8]>
    ensures { option_map (λ t. t.now) result ≡ form_with session_forms word.now }
{
    by_word!(word;
        b"pins" => Some(b"row pins\nrow pins\nrow # the open pins\nok\n"),
        b"cells" => Some(b"row cells\nrow cells\nrow # what each cell of the regions in use holds\nok\n"),
        b"regions" => Some(b"row regions [AT]\nrow regions @120\nrow # how many objects each region in use has\nok\n"),
        b"status" => Some(b"row status\nrow status\nrow # the place, the phase, and what is left to collect\nok\n"),
        b"collect" => Some(b"row collect\nrow collect\nrow # takes the steps of a whole cycle, and sweeps\nok\n"),
        b"forward" => Some(b"row forward N|@P\nrow forward 1\nrow # takes N undone steps again, or those up to place P\nok\n"),
        b"at" => Some(b"row at -|@P\nrow at @120\nrow # sets the state of questions that name none\nok\n"),
        b"name" => Some(b"row name WORD\nrow name start\nrow # names the current place, for which @WORD stands then\nok\n"),
        b"help" => Some(b"row help WORD\nrow help path\nrow # all forms; or one form, an example and what it does; help formats: what words mean\nok\n"),
        _ => None
    )
}

/// Returns what `help` answers about a keyword, or None if no line begins with it. Takes no memory.
#[tactic(auto, unfolding(crate::specs::Help::form_text, crate::specs::Help::form_with, crate::specs::Help::write_forms))]
pub fn keyword_help(word: &[u8]) -> Option<&'static [u8]>
    ensures { option_map (λ t. t.now) result ≡ form_with all_forms word.now }
{
    by_word!(word;
        b"class" => Some(b"row class NAME SUPER FIELD ..\nrow class Node - next:object value:int\nrow # defines a class; SUPER is a class, or - for none, and FIELD is NAME:KIND\nok\n"),
        b"array" => Some(b"row array NAME\nrow array Nodes\nrow # defines a class of arrays of references\nok\n"),
        b"new" => Some(b"row new M R CLASS\nrow new 0 1 0\nrow # makes an object of a class, and has register R of mutator M name it\nok\n"),
        b"newarray" => Some(b"row newarray M R CLASS LEN\nrow newarray 0 2 1 100\nrow # makes an array of LEN references\nok\n"),
        b"newprim" => Some(b"row newprim M R KIND LEN\nrow newprim 0 3 byte 64\nrow # makes an array of LEN values of a kind\nok\n"),
        b"load" => Some(b"row load M TO FROM SLOT\nrow load 0 4 1 0\nrow # reads a slot of the object that FROM names; a reference goes to register TO\nok\n"),
        b"store" => Some(b"row store M TARGET SLOT SOURCE\nrow store 0 1 0 2\nrow # writes what SOURCE names to a slot of the object that TARGET names\nok\n"),
        b"put" => Some(b"row put M TARGET SLOT VALUE\nrow put 0 1 1 42\nrow # writes a value to a slot of the object that TARGET names\nok\n"),
        b"move" => Some(b"row move M TO FROM_M FROM\nrow move 0 5 1 0\nrow # copies register FROM of mutator FROM_M to register TO of mutator M\nok\n"),
        b"clear" => Some(b"row clear M R\nrow clear 0 1\nrow # makes a register null\nok\n"),
        _ => act_help(word)
    )
}

// Returns what `help` answers about a keyword of a line of the collector, the trail, a pin or the session, or of those above.
#[tactic(auto, unfolding(crate::specs::Help::form_text, crate::specs::Help::form_with, crate::specs::Help::act_forms))]
fn act_help(word: &[u8]) -> Option<&'static [u8]>
    ensures { option_map (λ t. t.now) result ≡ form_with act_forms word.now }
{
    by_word!(word;
        b"snap" => Some(b"row snap\nrow snap\nrow # begins a marking cycle\nok\n"),
        b"mark" => Some(b"row mark\nrow mark\nrow # looks at the slots of a marked object\nok\n"),
        b"drain" => Some(b"row drain\nrow drain\nrow # looks at an entry of the log of overwritten references\nok\n"),
        b"finish" => Some(b"row finish\nrow finish\nrow # ends the cycle, and finds which objects are dead\nok\n"),
        b"sweep" => Some(b"row sweep REGION\nrow sweep 0\nrow # removes the dead objects of a region\nok\n"),
        b"rewind" => Some(b"row rewind N|@P\nrow rewind 1\nrow # undoes the last N steps, or all since place P\nok\n"),
        b"open" => Some(b"row open [AT]\nrow open -\nrow # opens a pin, which keeps a state for dumps and questions\nok\n"),
        b"piece" => Some(b"row piece PIN\nrow piece 1\nrow # prints the next piece of a pin's dump\nok\n"),
        b"dump" => Some(b"row dump PIN\nrow dump 1\nrow # prints the rest of a pin's dump; dump - prints one of the current state\nok\n"),
        b"close" => Some(b"row close PIN\nrow close 1\nrow # closes a pin\nok\n"),
        b"end" => Some(b"row end\nrow end\nrow # ends the session\nok\n"),
        _ => question_help(word)
    )
}

/// Returns what `help` answers: a row with the form of each line. Takes no memory.
#[tactic(auto, unfolding(crate::specs::Help::help_text, crate::specs::Help::write_forms, crate::specs::Help::act_forms, crate::specs::Help::question_forms, crate::specs::Help::object_forms, crate::specs::Help::past_forms, crate::specs::Help::session_forms))]
pub fn all_help() -> &'static [u8]
    ensures { result.now ≡ help_text }
{
    b"row class NAME SUPER FIELD ..\nrow array NAME\nrow new M R CLASS\nrow newarray M R CLASS LEN\nrow newprim M R KIND LEN\n\
        row load M TO FROM SLOT\nrow store M TARGET SLOT SOURCE\nrow put M TARGET SLOT VALUE\nrow move M TO FROM_M FROM\nrow clear M R\n\
        row snap\nrow mark\nrow drain\nrow finish\nrow sweep REGION\n\
        row rewind N|@P\nrow open [AT]\nrow piece PIN\nrow dump PIN\nrow close PIN\nrow end\n\
        row histogram [AT]\nrow garbage [AT]\nrow growth [AT [AT]]\nrow kept [AT [AT]]\nrow diff [AT [AT]]\nrow registers [AT]\nrow classes [AT]\n\
        row objects [AT] [CLASS [SLOT VALUE]]\nrow values [AT] CLASS SLOT\nrow referrers [AT] ID\nrow path [AT] ID\nrow paths [AT] ID N\nrow retained [AT] ID\nrow dominators [AT] [ID] [N]\nrow dominator [AT] ID\nrow show [AT] ID[.FIELD ..] [DEPTH | FROM N]\n\
        row born [@PLACE] ID\nrow wrote [@PLACE] ID SLOT\nrow watch ID SLOT [@PLACE]\nrow writes CLASS SLOT [@PLACE [@PLACE]]\nrow when [@PLACE [@PLACE]] (CLASS SLOT VALUE | count CLASS N)\nrow dropped [@PLACE] ID\nrow life ID\nrow history [@PLACE] N\nrow cycles\nrow pins\nrow cells\nrow regions [AT]\nrow status\nrow collect\nrow forward N|@P\nrow at -|@P\nrow name WORD\n\
        row help WORD\nok\n"
}

// Returns the rows of what `help` answers, without its last line. Takes no memory.
#[tactic(auto, unfolding(crate::specs::Help::help_text), using(crate::proofs::HelpRows::rows_before_ok, crate::proofs::HelpRows::ok_is_there))]
pub(crate) fn help_rows() -> &'static [u8]
    ensures { result.now ≡ help_rows all_forms }
{
    let text = all_help();
    &text[..text.len() - 3]
}

// Returns the answer of a line that asks no question: that of `help`, if it asks for it. Takes no memory.
pub(crate) fn help_answer(line: &[u8]) -> LineAnswer
    ensures { line_answer_text result ≡ help_or_bad line.now }
{
    match help_of(line) {
        Some(text) => LineAnswer::Line(text),
        None => LineAnswer::BadCommand,
    }
}

// Returns what a line that asks for help is answered, or None if it doesn't.
fn help_of(line: &[u8]) -> Option<&'static [u8]>
    ensures { option_map (λ t. t.now) result ≡ help_of line.now }
{
    let mut words = Words::new(line);
    let word = words.next_word()?;
    if !is_word(word, b"help") {
        return None;
    }
    help_about(words)
}

// Returns what the words after `help` are answered, or None if they name no line.
fn help_about(mut words: Words) -> Option<&'static [u8]>
    ensures { option_map (λ t. t.now) result ≡ help_about (words_of_line words.entry) }
{
    let Some(word) = words.next_word() else {
        return Some(all_help());
    };
    if words.front().is_some() {
        return None;
    }
    help_on(word)
}

// Returns what `help` and a word are answered, or None if it names no line.
#[tactic(auto, unfolding(crate::specs::Help::help_on))]
fn help_on(word: &[u8]) -> Option<&'static [u8]>
    ensures { option_map (λ t. t.now) result ≡ help_on word.now }
{
    if is_word(word, b"formats") {
        return Some(formats_help());
    }
    keyword_help(word)
}

// Returns what `help formats` is answered. Takes no memory.
#[tactic(auto, unfolding(crate::specs::Help::formats_text, crate::specs::Help::formats))]
fn formats_help() -> &'static [u8]
    ensures { result.now ≡ formats_text }
{
    b"row # [..] may be left out; AT is then the current state, or what at says\n\
        row # AT is a state: - the current one, PIN that of a pin, @P or @WORD that at a place\n\
        row # @PLACE is a place: @P, or @WORD by its name, or - for the current one\n\
        row # ID is an object: 0x and 8 hexadecimal digits\n\
        row # CLASS is a class by its number or name; in rows a name, or KIND[] for arrays of values\n\
        row # SLOT and FIELD are a slot by its number or its name\n\
        row # VALUE is an ID or null in slots of the kind object, else a decimal number\n\
        row # KIND is object, boolean, char, float, double, byte, short, int or long\n\
        row # M is a mutator, R a register of it; both are numbers from 0\n\
        row # OBJECTS and BYTES count objects, and the bytes of their values\n\
        row # an answer is lines that begin with row, and then one that begins with ok\n\
        row # no NUMBER NAME .. is a refusal, and bad command is no line at all\n\
        ok\n"
}
