//! A client of the page, whose socket waits for nothing.
ghost use Rattle.std.specs.Prelude.{◌≡◌};
ghost use Rattle.http_server.specs.Connection.{config_of, history};
ghost use Rattle.http_server.specs.Exchange.{Calls};
ghost use Rattle.http_server.specs.History.{IsDone, Rests};
ghost use Rattle.heap_page.specs.Moves.{Moves, Receives, Sends};
ghost use Rattle.heap_page.specs.declared.client.Turn.TheVariants.{Over};

use http_server::{Config, Connection, Service};
use std::alloc::Global;
use std::hash::RandomState;
use std::io;
use std::io::{ErrorKind, Read, Write};
use std::net::TcpStream;
use std::time::{Duration, Instant};

// The longest body of a request: a line, its CR and its LF.
const BODY_LIMIT: usize = 4098;

// How long a client that sends and takes nothing is kept, in seconds.
const QUIET_SECONDS: u64 = 20;

/// What a turn of a client did.
#[derive(Clone, Copy, PartialEq, Eq)]
pub enum Turn {
    /// Bytes went one way or the other.
    Moved,
    /// None did.
    Quiet,
    /// The client has left, or HTTP has nothing more to do.
    Over,
}

/// Writes some of what waits to be sent, or reads once if nothing does, and has the service answer the requests that have come
/// whole, in order. Returns Over if HTTP has nothing more to do.
#[tactic(auto, using(crate::proofs::MovedBytes::answered_moves))]
pub fn exchange<S: Service, R: Read, W: Write>(
    connection: &mut Connection,
    service: &mut S,
    reader: &mut R,
    writer: &mut W,
) -> Turn
    ensures moved { Moves (R.remaining reader.old) (R.remaining reader.new)
        (W.contents writer.old) (W.contents writer.new) (history connection.old)
        (history connection.new) }
    ensures calls { Calls S.answers service.old service.new
        (history connection.old).calls (history connection.new).calls }
    ensures rests { Rests (config_of connection.new) (history connection.new) }
    ensures over { IsDone (history connection.new) → result ≡ Over }
    ensures config { config_of connection.new ≡ config_of connection.old }
{
    let moved = move_bytes(connection, reader, writer);
    connection.advance(service);
    if connection.is_done() {
        return Turn::Over;
    }
    moved
}

// Writes some of what waits to be sent, or reads once if nothing does.
#[tactic(auto, using(crate::proofs::MovedBytes::received_moves, crate::proofs::MovedBytes::sent_moves))]
fn move_bytes<R: Read, W: Write>(
    connection: &mut Connection,
    reader: &mut R,
    writer: &mut W,
) -> Turn
    ensures moved { Moves (R.remaining reader.old) (R.remaining reader.new)
        (W.contents writer.old) (W.contents writer.new) (history connection.old)
        (history connection.new) }
    ensures calls { (history connection.new).calls ≡ (history connection.old).calls }
    ensures config { config_of connection.new ≡ config_of connection.old }
{
    if connection.wants_write() {
        return send(connection, writer);
    }
    receive(connection, reader)
}

// Writes once. A client that takes nothing has left.
#[tactic(auto, using(crate::proofs::MovedBytes::nothing_sent, crate::proofs::MovedBytes::some_sent))]
fn send<W: Write>(connection: &mut Connection, writer: &mut W) -> Turn
    ensures sent { Sends (W.contents writer.old) (W.contents writer.new) (history connection.old)
        (history connection.new) }
    ensures config { config_of connection.new ≡ config_of connection.old }
{
    match connection.write_to(writer) {
        Ok(0) => Turn::Over,
        Ok(_) => Turn::Moved,
        Err(error) => turn_of_fault(&error),
    }
}

// Tells what a read or a write that failed means for its client.
fn turn_of_fault(error: &io::Error) -> Turn {
    match error.kind() {
        ErrorKind::WouldBlock | ErrorKind::Interrupted => Turn::Quiet,
        _ => Turn::Over,
    }
}

// Reads once. The end of the input moves the connection on, too.
#[tactic(auto, using(crate::proofs::MovedBytes::nothing_received, crate::proofs::MovedBytes::some_received))]
fn receive<R: Read>(connection: &mut Connection, reader: &mut R) -> Turn
    ensures received { Receives (R.remaining reader.old) (R.remaining reader.new)
        (history connection.old) (history connection.new) }
    ensures config { config_of connection.new ≡ config_of connection.old }
{
    match connection.read_from(reader) {
        Ok(_) => Turn::Moved,
        Err(error) => turn_of_fault(&error),
    }
}

// A client: its socket, what HTTP knows of it, and when bytes last moved.
#[derive(Drop)]
pub(crate) struct Client {
    stream: TcpStream,
    connection: Connection,
    moved: Instant,
}

impl Client {
    // Creates a client of a socket. Fails if the system lets it not wait for nothing.
    pub(crate) fn new(
        alloc: Global,
        keys: RandomState,
        stream: TcpStream,
        now: Instant,
    ) -> io::Result<Client> {
        stream.set_nonblocking(true)?;
        let _ = stream.set_nodelay(true);
        let mut config = Config::default();
        config.max_body_len = BODY_LIMIT;
        Ok(Client {
            stream,
            connection: Connection::new(alloc, keys, config),
            moved: now,
        })
    }

    // Returns how long nothing has moved.
    pub(crate) fn quiet(&self, now: Instant) -> Duration {
        now.saturating_duration_since(self.moved)
    }

    // Takes a turn. It is the last one of a client that has been quiet for too long.
    pub(crate) fn turn<S: Service>(&mut self, service: &mut S, now: Instant) -> Turn {
        let mut reader = &self.stream;
        let mut writer = &self.stream;
        let turn = exchange(&mut self.connection, service, &mut reader, &mut writer);
        match turn {
            Turn::Moved => self.moved = now,
            Turn::Quiet if self.quiet(now).as_secs() >= QUIET_SECONDS => return Turn::Over,
            Turn::Quiet | Turn::Over => {}
        }
        turn
    }
}
