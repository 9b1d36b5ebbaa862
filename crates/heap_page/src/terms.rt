//! What a page is asked under.
ghost use Rattle.std.specs.Prelude.{◌≡◌, IfOk, string_bytes};
ghost use Rattle.std.specs.Str.{bytes_eq};
ghost use Rattle.heap_page.specs.Admission.{is_bare_host, is_bare_origin, is_own_host, is_own_origin};

use std::alloc::{AllocError, Global};
use std::marker::Model;

// The port that HTTP means if none is given.
const HTTP_PORT: u16 = 80;

// Tells whether a text names this computer alone, and this port is the one that HTTP then means.
fn is_bare_host(port: u16, text: &[u8]) -> bool
    ensures { result ≡ is_bare_host port text.now }
{
    port == HTTP_PORT && (text == "127.0.0.1".as_bytes() || text == "localhost".as_bytes())
}

// Tells whether a text is the origin of a page of this computer without a port, and this port is the one that HTTP then means.
fn is_bare_origin(port: u16, text: &[u8]) -> bool
    ensures { result ≡ is_bare_origin port text.now }
{
    port == HTTP_PORT
        && (text == "http://127.0.0.1".as_bytes() || text == "http://localhost".as_bytes())
}

/// What the page of a heap needs to know. Contracts see its port, the key that its questions must have, and the time in the headers
/// of dumps.
#[derive(Drop)]
pub struct PageTerms {
    port: u16,
    key: String,
    time: u64,
    host: String,
    named_host: String,
    origin: String,
    named_origin: String,
}

impl Model for PageTerms {
    ghost use Rattle.std.specs.Prelude.{◌≡◌, string_bytes};
    ghost use Rattle.heap_page.specs.Admission.{PageTerms, host_by_number, host_by_name, origin_of};

    ghost Value = { PageTerms };

    ghost view = { λ t. record { port = t.port; key = string_bytes t.key; time = t.time } };

    ghost invariant = { λ t. (string_bytes t.host ≡ host_by_number t.port)
        × (string_bytes t.named_host ≡ host_by_name t.port)
        × (string_bytes t.origin ≡ origin_of (host_by_number t.port))
        × (string_bytes t.named_origin ≡ origin_of (host_by_name t.port)) };
}

impl PageTerms {
    /// Creates the terms of the page at a port of this computer, for this key and this time in the headers of dumps, in
    /// milliseconds since 1970. Fails if an allocation fails.
    pub fn new(alloc: Global, port: u16, key: &str, time: u64) -> Result<PageTerms, AllocError>
        ensures { IfOk result (λ t. t ≡ record { port = port; key = key.now; time = time }) }
    {
        Ok(PageTerms {
            port,
            key: String::from_str(alloc, key)?,
            time,
            host: format!(in alloc; "127.0.0.1:{port}")?,
            named_host: format!(in alloc; "localhost:{port}")?,
            origin: format!(in alloc; "http://127.0.0.1:{port}")?,
            named_origin: format!(in alloc; "http://localhost:{port}")?,
        })
    }

    /// Returns the time in the headers of dumps.
    pub fn time(&self) -> u64
        ensures { result ≡ self.now.time }
    {
        self.time
    }

    /// Tells whether a text is the key.
    pub(crate) fn is_key(&self, text: &[u8]) -> bool
        ensures { result ≡ bytes_eq text.now self.now.key }
    {
        text == self.key.as_bytes()
    }

    /// Tells whether a text names this server: its computer and its port, which may be missing if it is that of HTTP.
    pub(crate) fn is_own_host(&self, text: &[u8]) -> bool
        ensures { result ≡ is_own_host self.now.port text.now }
    {
        text == self.host.as_bytes()
            || (text == self.named_host.as_bytes() || is_bare_host(self.port, text))
    }

    /// Tells whether a text is the origin of a page of this server.
    pub(crate) fn is_own_origin(&self, text: &[u8]) -> bool
        ensures { result ≡ is_own_origin self.now.port text.now }
    {
        text == self.origin.as_bytes()
            || (text == self.named_origin.as_bytes() || is_bare_origin(self.port, text))
    }
}
