use super::*;
use crate::words::{Grouped, Sized};
use blob_store::Shelf;
use cache_folder::{HostShelf, read_use};
use casd_base::Link;
use casd_connection::{ConnEnd, ConnReport};
use casd_daemon::{AcceptEnd, Conn, HangUp, Host, Place};
use proto_wire::Text;
use std::io::{Read, Write};
use std::os::unix::fs::PermissionsExt;
use std::os::unix::net::{UnixListener, UnixStream};
use std::test::*;
use std::{env, fs, process};

/// A text of a list of use.
const LIST: &str =
    "casd 2\nba7816bf8f01cfea414140de5dae2223b00361a396177a9cb410ff61f20015ad/3\nend 1\n";

fn ensure(holds: bool, otherwise: &'static str) -> Result<(), Fail> {
    if !holds {
        return Err(otherwise.into());
    }
    Ok(())
}

#[test]
fn counts_are_grouped(rt: HostRuntime) -> Result<(), Fail> {
    for (number, text) in [
        (0, "0"),
        (999, "999"),
        (1_000, "1,000"),
        (1_234_567, "1,234,567"),
        (u64::MAX, "18,446,744,073,709,551,615"),
    ] {
        let printed = format!(in rt.alloc(); "{}", Grouped(number))?;
        ensure(printed.as_str() == text, text)?;
    }
    Ok(())
}

#[test]
fn sizes_have_a_unit(rt: HostRuntime) -> Result<(), Fail> {
    for (bytes, text) in [
        (0, "0 bytes"),
        (1, "1 byte"),
        (1_023, "1,023 bytes"),
        (1_024, "1.0 KiB"),
        (1_024 * 1_024 - 1, "1,023 KiB"),
        (5_500_000, "5.2 MiB"),
        (56 << 20, "56 MiB"),
        (3 << 30, "3.0 GiB"),
        (u64::MAX, "15 EiB"),
    ] {
        let printed = format!(in rt.alloc(); "{}", Sized(bytes))?;
        ensure(printed.as_str() == text, text)?;
    }
    Ok(())
}

// A folder of this process, which isn't there yet.
fn fresh_folder(rt: HostRuntime) -> Result<String, Fail> {
    let id = process::id(rt.process());
    let folder = env::temp_dir(&rt)?;
    let folder = folder.as_path().to_string_lossy();
    Ok(format!(in rt.alloc(); "{folder}/casd-host-{id}")?)
}

fn text_of(rt: HostRuntime, folder: &str, name: &str) -> Result<Text, Fail> {
    let path = format!(in rt.alloc(); "{folder}/{name}")?;
    Ok(Text::from_string(path))
}

fn place_in(rt: HostRuntime, folder: &str, socket: &str, cache: &str) -> Result<Place, Fail> {
    Ok(Place {
        socket: text_of(rt, folder, socket)?,
        folder: text_of(rt, folder, cache)?,
    })
}

// Whether a second host can be prepared at a place.
fn is_refused(rt: HostRuntime, place: &Place) -> bool {
    let mut host = SocketHost::new(rt, rt.alloc());
    host.prepare(place) == Err(AcceptEnd::Failed)
}

// Sends a byte each way over a connection, and hangs up.
fn exchange(conn: &mut Conn<HostShelf, SocketLink>, peer: &mut UnixStream) -> Result<(), Fail> {
    let mut buf = [0u8; 8];
    peer.write_all(b"q")?;
    ensure(
        conn.link.read(&mut buf).is_ok_and(|count| count == 1),
        "read",
    )?;
    ensure(conn.link.write(b"a").is_ok_and(|count| count == 1), "write")?;
    let count = peer.read(&mut buf)?;
    ensure(count == 1 && buf[0] == b'a', "another answer came")?;
    let draft = conn.shelf.draft().ok().ok_or("draft")?;
    conn.shelf.drop_draft(draft);
    conn.link.hang_up();
    ensure(peer.read(&mut buf)? == 0, "the peer isn't told")?;
    ensure(conn.link.write(b"a").is_err(), "a write behind the end")
}

// One connection after the other, until the socket's file is removed. The first is that of the host that was refused.
fn serve_two(rt: HostRuntime, host: &mut SocketHost, socket: &str) -> Result<(), Fail> {
    ensure(matches!(host.accept(), Ok(Some(_))), "none came")?;
    for _ in 0..2 {
        let mut peer = UnixStream::connect(&rt, socket)?;
        let mut conn = host.accept().ok().ok_or("accept")?.ok_or("none")?;
        exchange(&mut conn, &mut peer)?;
        let report = ConnReport {
            end: ConnEnd::Done,
            turns: 0,
            read: 1,
            written: 1,
        };
        host.ended(conn, report);
    }
    fs::remove_file(&rt, socket)?;
    ensure(matches!(host.accept(), Ok(None)), "one more came")
}

// What a host refuses while another serves a place.
fn check_refusals(rt: HostRuntime, folder: &str) -> Result<(), Fail> {
    let long =
        "a socket whose path has more bytes than the system takes, which are one hundred and seven, and so is refused";
    for (socket, cache) in [
        ("socket", "other cache"),
        ("other", "cache"),
        ("cache", "other cache"),
        (long, "other cache"),
        ("other", "socket"),
        ("nowhere/socket", "other cache"),
    ] {
        let place = place_in(rt, folder, socket, cache)?;
        ensure(is_refused(rt, &place), socket)?;
    }
    Ok(())
}

// Whether the user alone may connect to a socket.
fn is_private(rt: HostRuntime, socket: &str) -> Result<bool, Fail> {
    let about = fs::symlink_metadata(&rt, socket)?;
    Ok(about.permissions().mode() & 0o777 == 0o600)
}

// Keeps a list of one digest.
fn keep_one(rt: HostRuntime, host: &mut SocketHost) -> Result<(), Fail> {
    match read_use(rt.alloc(), LIST.as_bytes()) {
        Ok(Some(order)) => ensure(host.keep(&order).is_ok(), "keep"),
        _ => Err("no list was read".into()),
    }
}

// A run that takes over a stale socket, serves two connections, and leaves a body and a list of use.
fn first_run(rt: HostRuntime, folder: &str, place: &Place) -> Result<(), Fail> {
    let mut host = SocketHost::new(rt, rt.alloc());
    ensure(host.shelf().is_err(), "a shelf came before the folder")?;
    ensure(host.prepare(place).is_ok(), "prepare")?;
    ensure(is_private(rt, place.socket.as_str())?, "others may connect")?;
    check_refusals(rt, folder)?;
    let mut shelf = host.shelf().ok().ok_or("shelf")?;
    let mut draft = shelf.draft().ok().ok_or("draft")?;
    ensure(shelf.append(&mut draft, b"abc").is_ok(), "append")?;
    ensure(shelf.seal(draft).is_ok(), "seal")?;
    serve_two(rt, &mut host, place.socket.as_str())?;
    ensure(host.print(b"").is_ok(), "print")?;
    keep_one(rt, &mut host)
}

// A run that finds what the first has left. Its socket goes with it.
fn second_run(rt: HostRuntime, place: &Place) -> Result<(), Fail> {
    let mut host = SocketHost::new(rt, rt.alloc());
    ensure(host.prepare(place).is_ok(), "prepare")?;
    let mut shelf = host.shelf().ok().ok_or("shelf")?;
    ensure(
        matches!(shelf.next_found(), Ok(Some(_))),
        "no body was found",
    )?;
    ensure(matches!(shelf.next_found(), Ok(None)), "another was found")?;
    let saved = shelf.saved().ok().ok_or("saved")?;
    ensure(saved.len() == 1, "another list was kept")?;
    drop(host);
    ensure(
        fs::symlink_metadata(&rt, place.socket.as_str()).is_err(),
        "the socket's file stays",
    )
}

#[test]
fn a_host_serves_until_its_socket_is_removed(rt: HostRuntime) -> Result<(), Fail> {
    let folder = fresh_folder(rt)?;
    let folder = folder.as_str();
    fs::create_dir(&rt, folder)?;
    let place = place_in(rt, folder, "socket", "cache")?;
    drop(UnixListener::bind(&rt, place.socket.as_str())?);
    first_run(rt, folder, &place)?;
    second_run(rt, &place)?;
    fs::remove_dir_all(&rt, folder)?;
    Ok(())
}
