//! What the prompt and the columns of one session share.
use crate::heading::Heading;
use crate::hints::Hints;
use question_text::Watch;

/// What the parts of a session at a terminal tell each other.
#[derive(Drop)]
pub struct Console {
    /// What the session tells its prompt.
    pub watch: Watch,
    /// What the prompt tells an outlet that shows rows.
    pub heading: Heading,
    /// What the commands tell the prompt and that outlet.
    pub hints: Hints,
}

impl Console {
    /// Creates the console of a session that has read no line.
    pub fn new() -> Console {
        Console {
            watch: Watch::new(),
            heading: Heading::new(),
            hints: Hints::new(),
        }
    }
}
