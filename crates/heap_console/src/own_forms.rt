//! The forms of lines that run the lines of a file, or begin a log.
ghost use Rattle.std.specs.Prelude.{◌≡◌};
ghost use Rattle.std.specs.Option.{option_map};
ghost use Rattle.question_text.specs.Help.{form_with, help_rows};
ghost use Rattle.heap_console.specs.OwnForms.{own_forms};

use session_grammar::by_word;

/// Returns the rows of the lines that run the lines of a file, or begin a log, as `help` has them. Takes no memory.
#[tactic(auto, unfolding(crate::specs::OwnForms::own_forms))]
pub fn own_rows() -> &'static [u8]
    ensures { result.now ≡ help_rows own_forms }
{
    b"row source PATH\nrow log -|PATH\n"
}

/// Returns what `help` answers about a keyword of such a line, or None if it is none. Takes no memory.
#[tactic(auto, unfolding(question_text::specs::Help::form_text, question_text::specs::Help::form_with, crate::specs::OwnForms::own_forms))]
pub fn own_keyword_help(word: &[u8]) -> Option<&'static [u8]>
    ensures { option_map (λ t. t.now) result ≡ form_with own_forms word.now }
{
    by_word!(word;
        b"source" => Some(b"row source PATH\nrow source questions.session\nrow # runs the lines of a file\nok\n"),
        b"log" => Some(b"row log -|PATH\nrow log hunt.session\nrow # puts the session into a new file, or ends that with -\nok\n"),
        _ => None
    )
}
