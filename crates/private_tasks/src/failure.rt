//! The endings of the program.
ghost use Rattle.std.specs.Prelude.{◌≡◌, OnOk};
ghost use Rattle.std.specs.Io.KnownBytes.{Appends};
ghost use Rattle.std.specs.Process.{exit_status};
ghost use Rattle.private_tasks.specs.Endings.{IsErrorKept, IsOutKept, exit_status_of, is_asked, message_of, outcome_of, word_of_fault};

use heapdbg_options::settings::LineFault;
use session_text::Ended;
use std::io::Write;
use std::process::ExitCode;
use std::{error, fmt, io};

/// The reason why the work isn't done.
#[derive(Clone, Copy, Debug, PartialEq, Eq)]
pub enum Fault {
    /// The input ended in the middle of a line.
    Cut,
    /// A line has more bytes than it may have.
    Long,
    /// A read failed.
    Read,
    /// The session made too many reads.
    Reads,
    /// A write failed.
    Write,
    /// Memory ran out.
    Memory,
    /// The port can't be listened on.
    Listen,
    /// A client could not be accepted.
    Accept,
    /// No connection to the port can be made.
    Connect,
    /// The file can't be made, or a write of the dump failed.
    Out,
    /// The file of lines that are run first can't be opened.
    From,
    /// The file of the heap dump whose heap is made first can't be read, or is none; or its lines end a session.
    Hprof,
    /// The dump is lost.
    Lost,
    /// The file of the secret can't be read, is for others than its owner too, or has no secret.
    Secret,
}

/// The reason why the program did no work, or failed. Its `Display` is the text for the user.
#[derive(Debug, Drop)]
pub enum Failure {
    /// The command line is bad. It holds a text for standard error.
    Line(String),
    /// An option asks for help or for the version. It holds a text for standard output.
    OptionText(String),
    /// A command asks for help or for the version. It holds a text for standard output.
    CommandText(String),
    /// The work is not done.
    Work(Fault),
}

impl Fault {
    /// Returns the word that names the fault on standard error.
    pub fn word(self) -> &'static str
        ensures { result.now ≡ word_of_fault self }
    {
        match self {
            Fault::Cut => "cut",
            Fault::Long => "long",
            Fault::Read => "read",
            Fault::Reads => "reads",
            Fault::Write => "write",
            Fault::Memory => "memory",
            Fault::Listen => "listen",
            Fault::Accept => "accept",
            Fault::Connect => "connect",
            Fault::Out => "out",
            Fault::From => "from",
            Fault::Hprof => "hprof",
            Fault::Lost => "lost",
            Fault::Secret => "secret",
        }
    }
}

impl fmt::Display for Fault {
    ghost use Rattle.std.specs.Prelude.{Some};
    ghost use Rattle.private_tasks.specs.Endings.{word_of_fault};

    ghost output = { λ fault. Some (word_of_fault fault) };

    fn fmt<W: fmt::Write>(&self, f: &mut fmt::Formatter<W>) -> fmt::Result {
        f.write_str(self.word())
    }
}

impl fmt::Display for Failure {
    ghost use Rattle.std.specs.Prelude.{Some};
    ghost use Rattle.private_tasks.specs.Endings.{message_of};

    ghost output = { λ failure. Some (message_of failure) };

    fn fmt<W: fmt::Write>(&self, f: &mut fmt::Formatter<W>) -> fmt::Result {
        match self {
            Failure::Line(text) | Failure::OptionText(text) | Failure::CommandText(text) => {
                f.write_str(text.as_str())
            }
            Failure::Work(fault) => writeln!(f, "heapdbg: {fault}"),
        }
    }
}

impl error::Error for Failure {}

impl From<LineFault> for Failure {
    ghost use Rattle.std.specs.Prelude.{◌≡◌};
    ghost use Rattle.private_tasks.specs.Endings.{failure_of};

    ghost from_gives = { λ line failure. failure ≡ failure_of line };

    fn from(line: LineFault) -> Failure {
        match line {
            LineFault::Bad(text) => Failure::Line(text),
            LineFault::OptionText(text) => Failure::OptionText(text),
            LineFault::CommandText(text) => Failure::CommandText(text),
            LineFault::Memory => Failure::Work(Fault::Memory),
        }
    }
}

impl From<Fault> for Failure {
    ghost use Rattle.std.specs.Prelude.{◌≡◌};
    ghost use Rattle.private_tasks.specs.declared.failure.Failure.TheVariants.{Work};

    ghost from_gives = { λ fault failure. failure ≡ Work fault };

    fn from(fault: Fault) -> Failure {
        Failure::Work(fault)
    }
}

/// Returns the outcome of a session that has ended: done after `end` or the end of input, else a fault.
pub fn outcome(ended: Ended) -> Result<(), Fault>
    ensures { result ≡ outcome_of ended }
{
    match ended {
        Ended::Quit | Ended::Eof => Ok(()),
        Ended::CutLine => Err(Fault::Cut),
        Ended::TooLong => Err(Fault::Long),
        Ended::ReadFault => Err(Fault::Read),
        Ended::TooManyReads => Err(Fault::Reads),
        Ended::WriteFault => Err(Fault::Write),
        Ended::NoMemory => Err(Fault::Memory),
    }
}

/// Writes the text of a failure, if there is one, to standard output if the command line asks for it, else to standard error, and
/// returns the exit code. A write that fails changes nothing.
pub fn report<W: Write, V: Write>(
    stdout: &mut W,
    stderr: &mut V,
    done: &Result<(), Failure>,
) -> ExitCode
    ensures status { exit_status result ≡ exit_status_of done.now }
    ensures out { IsOutKept done.now stdout.old stdout.new }
    ensures error { IsErrorKept done.now stderr.old stderr.new }
{
    tell_failure(stdout, stderr, done);
    ExitCode::from(status(done))
}

// Writes the text of a failure, if there is one, to standard output if the command line asks for it, else to standard error. A
// write that fails changes nothing.
fn tell_failure<W: Write, V: Write>(stdout: &mut W, stderr: &mut V, done: &Result<(), Failure>)
    ensures out { IsOutKept done.now stdout.old stdout.new }
    ensures error { IsErrorKept done.now stderr.old stderr.new }
{
    let Err(failure) = done else {
        return;
    };
    if is_asked(failure) {
        let _ = tell(stdout, failure);
    } else {
        let _ = tell(stderr, failure);
    }
}

// Tells whether the text of a failure is one that the command line asks for.
fn is_asked(failure: &Failure) -> bool
    ensures { result ≡ is_asked failure.now }
{
    match failure {
        Failure::OptionText(_) | Failure::CommandText(_) => true,
        Failure::Line(_) | Failure::Work(_) => false,
    }
}

// Writes the text of a failure.
fn tell<W: Write>(writer: &mut W, failure: &Failure) -> io::Result<()>
    ensures { OnOk result
        (Appends (W.contents writer.old) (W.contents writer.new) (message_of failure.now)) }
{
    write!(writer, "{failure}")
}

// Returns the exit status: 0 if the work is done or a command asks for a text, 1 after a fault, 2 after a bad command line or
// an option that asks for a text.
fn status(done: &Result<(), Failure>) -> u8
    ensures { result ≡ exit_status_of done.now }
{
    match done {
        Ok(()) | Err(Failure::CommandText(_)) => 0,
        Err(Failure::Work(_)) => 1,
        Err(Failure::Line(_) | Failure::OptionText(_)) => 2,
    }
}
