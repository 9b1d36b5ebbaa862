//! Commands with questions, and lines that write and read files.
ghost use Rattle.std.specs.Prelude.{◌≡◌};
ghost use Rattle.session_text.specs.Replies.{line_answer_text};
ghost use Rattle.question_text.specs.FileHelp.{file_help_of};
ghost use Rattle.heap_files.specs.Filings.{DoesOrAnswers, DoesWith, FilingAnswers, HelpsOrAnswers, OwnHelpsOrAnswers, WritesFile};
ghost use Rattle.heap_files.specs.Files.{written_text};
ghost use Rattle.heap_files.specs.OwnHelp.{own_help_of};
ghost use Rattle.heap_files.specs.OwnLines.{own_of};
ghost use Rattle.heap_files.specs.Sources.{Logs, Sources, log_text};

use crate::files::{Unwritten, write_dump, write_picture, written_line};
use crate::folder::Folder;
use crate::own_help::own_help;
use crate::own_line::{Deed, OwnLine, own_in};
use crate::source::run_lines;
use heap_console::Hinting;
use heap_step::IntoEvent;
use heap_trail::{Action, Reply};
use question_grammar::{FileContent, FileLine, file_in};
use question_text::{Asking, file_help};
use session_grammar::words::is_word;
use session_text::{Commands, LineAnswer, SessionLimits};
use std::alloc::Global;

/// A private machine that acts on the lines of a session and answers questions, as `Asking` does, and writes files: the dump of a
/// state by `write [AT] PATH`, and a picture of one by `draw [AT] PATH`. By `source PATH` it runs the lines of a file, of which
/// none writes or reads a file, and by `log PATH` it has the session put into a file.
#[derive(Drop)]
pub struct Filing<'a, F> {
    /// The machine and what its session notes.
    pub asking: Asking<'a>,
    /// The folder in which files are made and read.
    pub folder: F,
    /// The time in the header of each dump, in milliseconds since 1970.
    pub time: u64,
    /// What a session of lines of a file may have at most.
    pub limits: SessionLimits,
    /// What tells a person beside the session what answers leave out.
    pub hinting: Hinting<'a>,
}

impl<'a, F: Folder> Filing<'a, F> {
    /// Creates commands that make files in a folder, and tells readers beside the session that its lines write files.
    pub fn new(
        asking: Asking<'a>,
        folder: F,
        time: u64,
        limits: SessionLimits,
        hinting: Hinting<'a>,
    ) -> Filing<'a, F>
        ensures { result ≡ record {
          asking = asking.entry;
          folder = folder;
          time = time;
          limits = limits;
          hinting = hinting.entry;
        } }
    {
        asking.watch.note_files();
        Filing {
            asking,
            folder,
            time,
            limits,
            hinting,
        }
    }

    // Tells of a reply.
    fn tell_reply(&self, reply: &Reply) {
        self.hinting.note_reply(&self.asking.local.machine, reply);
    }

    // Tells of the answer to a line.
    fn tell_answer(&self, alloc: Global, line: &[u8], answer: &LineAnswer) {
        let Asking {
            local,
            bookmarks,
            ..
        } = &self.asking;
        self.hinting
            .note_answer(alloc, &local.machine, bookmarks, line, answer);
    }

    // Answers a line that the grammar of sessions doesn't know.
    fn answer_line(&mut self, alloc: Global, line: &[u8]) -> LineAnswer
        ensures { FilingAnswers F.acts line.now self.old (line_answer_text result) self.new }
    {
        match file_in(&self.asking.bookmarks, line) {
            Some(file) => self.answer_file(alloc, file),
            None => self.answer_own(alloc, line),
        }
    }

    // Answers a line that writes a file.
    fn answer_file(&mut self, alloc: Global, file: FileLine<'_>) -> LineAnswer
        ensures file { WritesFile F.acts file.entry.content file.entry.path.now self.old
            (line_answer_text result) self.new.folder }
        ensures others { self.new ≡ record self.old { folder = self.new.folder } }
    {
        let written = self.write_file(alloc, file);
        let answer = written_line(written);
        self.asking
            .watch
            .note_answer(&self.asking.local.machine, &answer);
        answer
    }

    // Writes what a line asks for to a file. Returns its size.
    fn write_file(&mut self, alloc: Global, file: FileLine<'_>) -> Result<u64, Unwritten>
        ensures file { WritesFile F.acts file.entry.content file.entry.path.now self.old
            (written_text result) self.new.folder }
        ensures others { self.new ≡ record self.old { folder = self.new.folder } }
    {
        let time = self.time;
        let path = file.path;
        match file.content {
            FileContent::DumpOf(at) => write_dump(
                alloc,
                &self.asking.local.machine,
                at,
                time,
                &mut self.folder,
                path,
            ),
            FileContent::PictureOf(at) => write_picture(
                alloc,
                &self.asking.local.machine,
                at,
                &mut self.folder,
                path,
            ),
        }
    }

    // Answers a line that writes no dump and no picture.
    fn answer_own(&mut self, alloc: Global, line: &[u8]) -> LineAnswer
        ensures { DoesOrAnswers F.acts (own_of line.now) line.now self.old
            (line_answer_text result) self.new }
    {
        match own_in(line) {
            Some(own) => self.answer_deed(alloc, own),
            None => self.answer_help(alloc, line),
        }
    }

    // Answers a line that runs the lines of a file, or logs.
    fn answer_deed(&mut self, alloc: Global, own: OwnLine<'_>) -> LineAnswer
        ensures { DoesWith F.acts own.entry.deed own.entry.path.now self.old
            (line_answer_text result) self.new }
    {
        let answer = self.do_with(alloc, own);
        self.asking
            .watch
            .note_answer(&self.asking.local.machine, &answer);
        answer
    }

    // Runs the lines of a file, or begins or ends a log.
    fn do_with(&mut self, alloc: Global, own: OwnLine<'_>) -> LineAnswer
        ensures { DoesWith F.acts own.entry.deed own.entry.path.now self.old
            (line_answer_text result) self.new }
    {
        match own.deed {
            Deed::Source => self.answer_source(alloc, own.path),
            Deed::Log => self.answer_log(own.path),
        }
    }

    // Runs the lines of the file of a path, if it can be opened, and returns their replies and the place to which they led.
    fn answer_source(&mut self, alloc: Global, path: &[u8]) -> LineAnswer
        ensures sources { Sources F.acts path.now self.old (line_answer_text result) self.new }
        ensures others { self.new
            ≡ record self.old { asking = self.new.asking; folder = self.new.folder } }
    {
        let Some(mut lines) = self.folder.open(path) else {
            return LineAnswer::Line(b"no 31 NoFile\n");
        };
        run_lines(alloc, &mut lines, &mut self.asking, self.time, self.limits)
    }

    // Begins a log in the file of a path, or ends one.
    fn answer_log(&mut self, path: &[u8]) -> LineAnswer
        ensures logs { Logs F.acts path.now self.old.folder (line_answer_text result)
            self.new.folder }
        ensures others { self.new ≡ record self.old { folder = self.new.folder } }
    {
        if is_word(path, b"-") {
            self.folder.end_log();
            return LineAnswer::Line(b"ok\n");
        }
        let begun = self.folder.begin_log(path);
        log_line(begun)
    }

    // Answers a line that writes and reads no file.
    fn answer_help(&mut self, alloc: Global, line: &[u8]) -> LineAnswer
        ensures { OwnHelpsOrAnswers (own_help_of line.now) line.now self.old
            (line_answer_text result) self.new }
    {
        match own_help(alloc, line) {
            Some(answer) => answer,
            None => self.answer_other(alloc, line),
        }
    }

    // Answers a line that asks for no help about lines that read files and log.
    fn answer_other(&mut self, alloc: Global, line: &[u8]) -> LineAnswer
        ensures { HelpsOrAnswers (file_help_of line.now) line.now self.old
            (line_answer_text result) self.new }
    {
        match file_help(alloc, line) {
            Some(answer) => answer,
            None => self.asking.answer_unknown(alloc, line),
        }
    }
}

impl<F: Folder> Commands for Filing<'_, F> {
    ghost use Rattle.heap_files.specs.Filings.{FilingActs, FilingAnswers};

    ghost acts = { FilingActs };

    ghost unknown = { FilingAnswers F.acts };

    #[inline(always)]
    fn act(&mut self, action: Action) -> Reply {
        let reply = self.asking.act(action);
        self.tell_reply(&reply);
        reply
    }

    #[inline(always)]
    fn step<E: IntoEvent>(&mut self, event: E) -> Reply {
        let reply = self.asking.step(event);
        self.tell_reply(&reply);
        reply
    }

    fn answer_unknown(&mut self, alloc: Global, line: &[u8]) -> LineAnswer {
        let answer = self.answer_line(alloc, line);
        self.tell_answer(alloc, line, &answer);
        answer
    }
}

// Returns what is printed of a log that was begun, or wasn't.
fn log_line(begun: bool) -> LineAnswer
    ensures { line_answer_text result ≡ log_text begun }
{
    if begun {
        LineAnswer::Line(b"ok\n")
    } else {
        LineAnswer::Line(b"no 31 NoFile\n")
    }
}
