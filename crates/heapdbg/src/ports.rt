//! Ports of this computer.
ghost use Rattle.std.specs.Prelude.{◌≡◌, ◌⊎◌, IfErr};
ghost use Rattle.private_tasks.specs.declared.failure.Fault.TheVariants.{Connect, Listen, Memory};

use heap_server::{DumpListener, PagePort, PageTerms};
use private_tasks::{Fault, tell_port};
use std::alloc::Global;
use std::hash::RandomState;
use std::net::{Ipv4Addr, Net, TcpListener, TcpStream};
use std::random::RandomSource;

/// Connects to a port. Fails with Connect, and says why on standard error, if that is a terminal.
pub(crate) fn connect<R: AllocGlobal + Eprint + Net>(
    rt: &R,
    port: u16,
    is_terminal: bool,
) -> Result<R::Stream, Fault>
    ensures { IfErr result (λ f. f ≡ Connect) }
{
    match TcpStream::connect(rt, (Ipv4Addr::LOCALHOST, port)) {
        Ok(stream) => Ok(stream),
        Err(error) => {
            tell_port(rt, is_terminal, port, &error);
            Err(Fault::Connect)
        }
    }
}

/// Listens on a port. Fails with Listen, and says why on standard error, if that is a terminal.
pub(crate) fn listener<R>(rt: &R, port: u16, is_terminal: bool) -> Result<TcpListener, Fault>
where
    R: Net<Listener = TcpListener, Stream = TcpStream> + AllocGlobal + Eprint,
    ensures { IfErr result (λ f. f ≡ Listen) }
{
    match TcpListener::bind(rt, (Ipv4Addr::LOCALHOST, port)) {
        Ok(listener) => Ok(listener),
        Err(error) => {
            tell_port(rt, is_terminal, port, &error);
            Err(Fault::Listen)
        }
    }
}

/// Listens on a port for clients that nobody waits for. Fails as `listener` does.
pub(crate) fn dump_listener<R>(rt: &R, port: u16, is_terminal: bool) -> Result<DumpListener, Fault>
where
    R: Net<Listener = TcpListener, Stream = TcpStream> + AllocGlobal + Eprint,
    ensures { IfErr result (λ f. f ≡ Listen) }
{
    match DumpListener::new(listener(rt, port, is_terminal)?) {
        Ok(listener) => Ok(listener),
        Err(_) => Err(Fault::Listen),
    }
}

/// Listens on the port of a page under a new key, and says its address, with that key, on standard error. Fails with Listen,
/// and with Memory if an allocation fails or the system gives no random bytes.
pub(crate) fn page_port<R>(
    rt: &R,
    alloc: Global,
    port: u16,
    time: u64,
    is_terminal: bool,
) -> Result<PagePort, Fault>
where
    R: Net<Listener = TcpListener, Stream = TcpStream> + AllocGlobal + Eprint + RandomSource,
    ensures { IfErr result (λ f. (f ≡ Memory) ⊎ (f ≡ Listen)) }
{
    let listener = dump_listener(rt, port, is_terminal)?;
    let key = random_key(rt, alloc)?;
    let Ok(keys) = RandomState::new(rt) else {
        return Err(Fault::Memory);
    };
    let Ok(terms) = PageTerms::new(alloc, port, key.as_str(), time) else {
        return Err(Fault::Memory);
    };
    let _ = eprintln!(rt; "heapdbg: page http://127.0.0.1:{port}/#{key}");
    Ok(PagePort {
        listener,
        keys,
        terms,
    })
}

// Returns a key of 32 hexadecimal digits, 128 bits of the system's randomness. Fails with Memory.
fn random_key<R: RandomSource>(rt: &R, alloc: Global) -> Result<String, Fault>
    ensures { IfErr result (λ f. f ≡ Memory) }
{
    let mut bytes = [0u8; 16];
    if rt.fill_bytes(&mut bytes).is_err() {
        return Err(Fault::Memory);
    }
    let number = u128::from_le_bytes(bytes);
    match format!(in alloc; "{number:032x}") {
        Ok(key) => Ok(key),
        Err(_) => Err(Fault::Memory),
    }
}
