//! `SocketLink`.

ghost use Rattle.std.specs.Prelude.{◌≡◌, None};
ghost use Rattle.casd_base.specs.Streams.{told, told_both};

use casd_base::{Failed, Link, SinkEnd, StreamLink};
use casd_daemon::HangUp;
use std::io;
use std::io::{ErrorKind, Read, Write};
use std::os::unix::net::UnixStream;

/// A connected socket until it is closed. Then a read meets the end, and nothing more can be written.
#[derive(Debug, Drop)]
struct Socket {
    stream: Option<UnixStream>,
}

impl Read for Socket {
    fn read(&mut self, buf: &mut [u8]) -> io::Result<usize> {
        match &mut self.stream {
            Some(stream) => stream.read(buf),
            None => Ok(0),
        }
    }
}

impl Write for Socket {
    fn write(&mut self, buf: &[u8]) -> io::Result<usize> {
        match &mut self.stream {
            Some(stream) => stream.write(buf),
            None => Err(io::Error::from(ErrorKind::BrokenPipe)),
        }
    }

    fn flush(&mut self) -> io::Result<()> {
        match &mut self.stream {
            Some(stream) => stream.flush(),
            None => Ok(()),
        }
    }
}

/// A link over a connected socket, which is closed when the link is given up.
#[derive(Drop)]
pub struct SocketLink {
    link: StreamLink<Socket>,
}

impl SocketLink {
    /// Nothing was read or written yet. It takes no memory.
    pub fn new(stream: UnixStream) -> SocketLink {
        SocketLink {
            link: StreamLink::new(Socket {
                stream: Some(stream),
            }),
        }
    }
}

impl Link for SocketLink {
    ghost left = { λ _. None };

    ghost written = { λ _. None };

    ghost read_faults = { λ l. l.link.read_faults };

    ghost write_faults = { λ l. l.link.write_faults };

    ghost sent = { λ l. told l.link.sent l.link.sent };

    ghost at_end = { λ l. told l.link.sent l.link.ended };

    ghost sent_is_told = { λ l. told_both l.link.sent l.link.sent l.link.ended };

    fn read(&mut self, buf: &mut [u8]) -> Result<usize, Failed> {
        self.link.read(buf)
    }

    fn write(&mut self, bytes: &[u8]) -> Result<usize, SinkEnd> {
        self.link.write(bytes)
    }
}

impl HangUp for SocketLink {
    fn hang_up(&mut self) {
        drop(self.link.replace(Socket { stream: None }));
    }
}
