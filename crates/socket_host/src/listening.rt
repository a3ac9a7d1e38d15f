//! The socket that a daemon listens on.

use mio::unix::SourceFd;
use mio::{Events, Interest, Poll, Token};
use std::alloc::Global;
use std::fmt::{Display, Formatter};
use std::fs::{Files, Permissions};
use std::io::ErrorKind;
use std::net::Net;
use std::os::fd::{AsFd, AsRawFd};
use std::os::unix::fs::{FileTypeExt, MetadataExt, PermissionsExt};
use std::os::unix::net::{SocketAddr, UnixListener, UnixStream};
use std::time::Duration;
use std::{fmt, fs, io, thread};

/// The most bytes that the path of a socket has.
const MAX_PATH: usize = 107;

/// The error of a process that has as many files open as it may, and that of the system.
const EMFILE: i32 = 24;

const ENFILE: i32 = 23;

/// How many seconds a wait for a connection takes at most.
const WAIT: u64 = 1;

/// Why a path can't serve for a socket.
#[derive(Debug, Drop)]
pub(crate) enum ListenError {
    /// It has too many bytes.
    TooLong,
    /// A daemon listens there.
    InUse,
    /// Something else than a socket stands there.
    NotASocket,
    /// The socket couldn't be made.
    Make(io::Error),
}

impl Display for ListenError {
    fn fmt<W: fmt::Write>(&self, f: &mut Formatter<W>) -> fmt::Result {
        match self {
            ListenError::TooLong => {
                write!(f, "the path of a socket has at most {MAX_PATH} bytes")
            }
            ListenError::InUse => f.write_str("another daemon listens on this socket"),
            ListenError::NotASocket => f.write_str("something stands here that is no socket"),
            ListenError::Make(e) => write!(f, "the socket can't be made: {e}"),
        }
    }
}

impl ListenError {
    /// Whether memory ran out.
    pub(crate) fn is_out_of_memory(&self) -> bool {
        matches!(self, ListenError::Make(e) if e.kind() == ErrorKind::OutOfMemory)
    }
}

impl From<io::Error> for ListenError {
    fn from(e: io::Error) -> ListenError {
        ListenError::Make(e)
    }
}

/// A socket that listens, and its file, which is removed with it.
pub(crate) struct Listening {
    rt: HostRuntime,
    path: String,
    file: (u64, u64),
    listener: UnixListener,
    poll: Poll,
    events: Events,
}

impl Drop for Listening {
    fn drop(self) {
        let Listening {
            rt,
            path,
            file,
            listener: _,
            poll: _,
            events: _,
        } = self;
        if let Ok(Some(there)) = socket_at(rt, path.as_str()) {
            if there == file {
                let _ = fs::remove_file(&rt, path.as_str());
            }
        }
    }
}

impl Listening {
    /// Listens on a path. The file is for the user alone. One that is left of a daemon that has ended is taken over.
    pub(crate) fn new(
        rt: HostRuntime,
        alloc: Global,
        path: &str,
    ) -> Result<Listening, ListenError> {
        if path.len() > MAX_PATH {
            return Err(ListenError::TooLong);
        }
        clear(rt, path)?;
        let listener = bind(rt, path)?;
        let Some(file) = socket_at(rt, path)? else {
            return Err(ListenError::NotASocket);
        };
        let poll = Poll::new(&rt)?;
        poll.registry().register(
            &mut SourceFd(&listener.as_raw_fd()),
            Token(0),
            Interest::READABLE,
        )?;
        Ok(Listening {
            rt,
            path: String::from_str(alloc, path).map_err(io::Error::from)?,
            file,
            listener,
            poll,
            events: Events::with_capacity(alloc, 1).map_err(io::Error::from)?,
        })
    }

    /// The next connection, or `None` once the socket's file is gone and all that came before are accepted. It waits until
    /// one comes.
    pub(crate) fn next(&mut self) -> io::Result<Option<UnixStream>> {
        for _ in 0..u64::MAX {
            let end = match self.listener.accept() {
                Ok((stream, _)) => return Ok(Some(stream)),
                Err(e) => e,
            };
            if is_passing(&end) {
                continue;
            }
            if self.is_gone()? {
                return Ok(None);
            }
            self.wait(end)?;
        }
        Ok(None)
    }

    // Waits after `accept` gave none, for a connection or for files that connections give back when they end.
    fn wait(&mut self, end: io::Error) -> io::Result<()> {
        let most = Duration::from_secs(WAIT);
        if end.kind() == ErrorKind::WouldBlock {
            self.poll.poll(&mut self.events, Some(most))
        } else if is_short_of_files(&end) {
            thread::sleep(&self.rt, most);
            Ok(())
        } else {
            Err(end)
        }
    }

    // Whether the socket's file was removed, or another one stands in its place.
    fn is_gone(&self) -> io::Result<bool> {
        Ok(socket_at(self.rt, self.path.as_str())? != Some(self.file))
    }
}

// Whether the peer gave up before its connection was accepted, or a signal came.
fn is_passing(e: &io::Error) -> bool {
    matches!(
        e.kind(),
        ErrorKind::Interrupted | ErrorKind::ConnectionAborted
    )
}

// Whether the process, or the system, has as many files open as it may.
fn is_short_of_files(e: &io::Error) -> bool {
    matches!(e.raw_os_error(), Some(EMFILE | ENFILE))
}

// Which file stands at a path, by its device and its number there, if it is a socket's.
fn socket_at(rt: HostRuntime, path: &str) -> io::Result<Option<(u64, u64)>> {
    match fs::symlink_metadata(&rt, path) {
        Ok(about) if about.file_type().is_socket() => Ok(Some((about.dev(), about.ino()))),
        Ok(_) => Ok(None),
        Err(e) if e.kind() == ErrorKind::NotFound => Ok(None),
        Err(e) => Err(e),
    }
}

// Removes the file of a socket on which nobody listens.
fn clear(rt: HostRuntime, path: &str) -> Result<(), ListenError> {
    match fs::symlink_metadata(&rt, path) {
        Ok(about) if about.file_type().is_socket() => {}
        Ok(_) => return Err(ListenError::NotASocket),
        Err(e) if e.kind() == ErrorKind::NotFound => return Ok(()),
        Err(e) => return Err(e.into()),
    }
    match UnixStream::connect(&rt, path) {
        Ok(_) => Err(ListenError::InUse),
        Err(e) if e.kind() == ErrorKind::ConnectionRefused => Ok(fs::remove_file(&rt, path)?),
        Err(e) => Err(e.into()),
    }
}

// Binds a socket to a path at which no file stands. Nobody can connect before the file is the user's alone.
fn bind(rt: HostRuntime, path: &str) -> io::Result<UnixListener> {
    let addr = SocketAddr::from_pathname(path)?;
    let socket = rt.unix_socket()?;
    rt.bind_unix(socket.as_fd(), &addr)?;
    fs::set_permissions(&rt, path, Permissions::from_mode(0o600))?;
    if libc::net::listen(socket.as_raw_fd(), -1) < 0 {
        return Err(io::Error::from_raw_os_error(os::errno()));
    }
    let listener = UnixListener::from(socket);
    listener.set_nonblocking(true)?;
    Ok(listener)
}
