//! Listeners for the clients of dumps.
use std::io;
use std::net::{TcpListener, TcpStream};

/// A listener that waits for nobody: an accept fails at once if no client has come.
#[derive(Drop)]
pub struct DumpListener(TcpListener);

impl DumpListener {
    /// Has a listener wait for nobody. Fails if the system doesn't let it.
    pub fn new(listener: TcpListener) -> io::Result<DumpListener> {
        listener.set_nonblocking(true)?;
        Ok(DumpListener(listener))
    }

    /// Accepts the client that has waited longest. Fails if none waits.
    pub fn accept(&self) -> io::Result<TcpStream> {
        let (stream, _) = self.0.accept()?;
        Ok(stream)
    }
}
