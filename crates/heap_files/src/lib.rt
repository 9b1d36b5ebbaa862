//! Sessions with questions whose lines also write files, dumps of states and pictures, run the lines of files, and log.
#![tactic(auto)]

mod files;
mod filing;
mod folder;
mod own_help;
pub mod own_line;
mod session;
mod source;
mod text_outlet;

ghost use Rattle.std.specs.Prelude.{◌≡◌, ℕ, List, Some};
ghost use Rattle.question_grammar.specs.FileLines.{file_of};
ghost use Rattle.question_grammar.specs.declared.file_line.FileContent.{FileContent};
ghost use Rattle.heap_files.specs.Filings.{FilingAnswers};
ghost use Rattle.heap_files.specs.declared.filing.Filing.{Filing};

pub use filing::Filing;
pub use folder::Folder;
pub use session::serve_filing;

/// States that a line that writes a file changes nothing but the folder.
pub fn file_lines_change_nothing<F: Folder>()
    ensures { (l path text : List ℕ) (content : FileContent) (c d : Filing F)
        → file_of c.asking.bookmarks l ≡ Some (content, path) → FilingAnswers F.acts l c text d
        → d ≡ record c { folder = d.folder } }
{}
