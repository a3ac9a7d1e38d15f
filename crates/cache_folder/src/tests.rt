use super::*;
use blob_store::{Shelf, ShelfEnd};
use digest_types::{Digest, Digests};
use std::alloc::Global;
use std::os::unix::fs::symlink;
use std::test::*;
use std::{env, fs, process};

const ABC: &str = "ba7816bf8f01cfea414140de5dae2223b00361a396177a9cb410ff61f20015ad/3";

const EMPTY: &str = "e3b0c44298fc1c149afbf4c8996fb92427ae41e4649b934ca495991b7852b855/0";

fn digests_of(alloc: Global, texts: &[&str]) -> Result<Digests, Fail> {
    let mut digests = Digests::new(alloc);
    for text in texts {
        let digest = Digest::parse(text).ok().ok_or("no digest")?;
        digests.push(digest).ok().ok_or("memory")?;
    }
    Ok(digests)
}

#[test]
fn a_list_of_use_is_read_or_refused(rt: HostRuntime) -> Result<(), Fail> {
    let none: &[&str] = &[];
    let both: &[&str] = &[ABC, EMPTY];
    // the first line, two lines of digests or none, the last line, and the digests of the list
    let cases: [(&str, &str, &str, &str, Option<&[&str]>); 14] = [
        ("casd 2\n", "", "", "end 0\n", Some(none)),
        ("casd 2\n", ABC, EMPTY, "end 2\n", Some(both)),
        ("casd 2\n", "", "", "end 0", None),
        ("casd 2\n", "", "", "end 1\n", None),
        ("casd 2\n", "", "", "", None),
        ("casd 2\n", "", "", "end 00\n", None),
        ("casd 2\n", "", "", "end 0\n\n", None),
        ("casd 1\n", "", "", "end 0\n", None),
        ("", "", "", "end 0\n", None),
        ("casd 2\n", ABC, ABC, "end 2\n", None),
        ("casd 2\n", ABC, ABC, "end 1\n", None),
        ("casd 2\n", ABC, EMPTY, "end 1\n", None),
        ("casd 2\n", ABC, EMPTY, "end 3\n", None),
        ("casd 2\n", ABC, "e3b0/0", "end 2\n", None),
    ];
    for (first, one, two, last, digests) in cases {
        let mut text = String::from_str(rt.alloc(), first)?;
        for line in [one, two] {
            if !line.is_empty() {
                text.push_str(line)?;
                text.push('\n')?;
            }
        }
        text.push_str(last)?;
        check_text(rt, text.as_str(), digests)?;
    }
    Ok(())
}

fn ensure(holds: bool, otherwise: &'static str) -> Result<(), Fail> {
    if !holds {
        return Err(otherwise.into());
    }
    Ok(())
}

// Reads a text, and where it has digests, writes it again.
fn check_text(rt: HostRuntime, text: &str, digests: Option<&[&str]>) -> Result<(), Fail> {
    let read = read_use(rt.alloc(), text.as_bytes()).ok().ok_or("memory")?;
    let Some(digests) = digests else {
        ensure(read.is_none(), "a text that is no list's was read")?;
        return Ok(());
    };
    let digests = digests_of(rt.alloc(), digests)?;
    let order = read.ok_or("refused")?;
    ensure(
        order.as_slice() == digests.as_slice(),
        "another list was read",
    )?;
    let written = use_text(rt.alloc(), &order).ok().ok_or("memory")?;
    ensure(
        written.as_slice() == text.as_bytes(),
        "another text was written",
    )?;
    Ok(())
}

// A body of these bytes.
fn put(shelf: &mut HostShelf, bytes: &[u8]) -> Result<HostBody, ShelfEnd> {
    let mut draft = shelf.draft()?;
    shelf.append(&mut draft, bytes)?;
    shelf.append(&mut draft, b"")?;
    shelf.seal(draft)
}

// Whether a body begins with these bytes and has no others, where they are fewer than eight.
fn is_body(shelf: &mut HostShelf, body: &HostBody, bytes: &[u8]) -> Result<bool, ShelfEnd> {
    let mut reader = shelf.reader(body)?;
    let mut buf = [0u8; 8];
    let count = shelf.read_at(&mut reader, 0, &mut buf)?;
    Ok(buf.get(..count) == Some(bytes))
}

// A folder of this process, which isn't there yet.
fn fresh_folder(rt: HostRuntime, name: &str) -> Result<String, Fail> {
    let id = process::id(rt.process());
    let folder = env::temp_dir(&rt)?;
    let folder = folder.as_path().to_string_lossy();
    Ok(format!(in rt.alloc(); "{folder}/casd-{name}-{id}/cache")?)
}

fn open(rt: HostRuntime, folder: &str, bodies: u64, bytes: u64) -> Result<CacheFolder, Fail> {
    let opened = CacheFolder::open(rt, rt.alloc(), folder)
        .ok()
        .ok_or("open")?;
    ensure(
        (opened.bodies, opened.bytes) == (bodies, bytes),
        "other bodies were counted",
    )?;
    let again = CacheFolder::open(rt, rt.alloc(), folder);
    ensure(matches!(again, Err(FolderError::InUse)), "opened twice")?;
    Ok(opened)
}

fn shelf_of(rt: HostRuntime, folder: &str, run: u64, seat: u64) -> Result<HostShelf, Fail> {
    Ok(
        HostShelf::new(rt, rt.alloc(), folder, run, seat)
            .ok()
            .ok_or("memory")?,
    )
}

// A run that leaves three bodies. One was discarded, and two drafts were given up.
fn first_run(rt: HostRuntime, folder: &str) -> Result<(), Fail> {
    let opened = open(rt, folder, 0, 0)?;
    ensure(opened.run == 1, "it isn't the first run")?;
    let mut shelf = shelf_of(rt, folder, 1, 10)?;
    ensure(put(&mut shelf, b"ten").is_ok(), "put")?;
    ensure(put(&mut shelf, b"ten too").is_ok(), "put")?;
    let mut shelf = shelf_of(rt, folder, 1, 2)?;
    ensure(put(&mut shelf, b"two").is_ok(), "put")?;
    let gone = put(&mut shelf, b"gone").ok().ok_or("put")?;
    ensure(
        is_body(&mut shelf, &gone, b"gone") == Ok(true),
        "a body has other bytes",
    )?;
    shelf.discard(gone);
    let draft = shelf.draft().ok().ok_or("draft")?;
    shelf.drop_draft(draft);
    drop(shelf.draft());
    ensure(
        matches!(shelf.next_found(), Ok(None)),
        "a body of this run was found",
    )?;
    ensure(shelf.faults() == 0, "a fault was counted")?;
    Ok(())
}

// What a person leaves in a folder.
fn leave_other_files(rt: HostRuntime, folder: &str) -> Result<(), Fail> {
    for name in [
        "notes",
        "1-2",
        "01-2-0",
        "1-2-+0",
        "1-2-0-0",
        "1-2-18446744073709551616",
    ] {
        let path = format!(in rt.alloc(); "{folder}/{name}")?;
        fs::write(&rt, path.as_str(), "other")?;
    }
    let path = format!(in rt.alloc(); "{folder}/7-0-0")?;
    fs::create_dir(&rt, path.as_str())?;
    let path = format!(in rt.alloc(); "{folder}/8-0-0")?;
    symlink(&rt, "notes", path.as_str())?;
    Ok(())
}

// Keeps a list of use, and looks at its file.
fn keep_two(rt: HostRuntime, folder: &str) -> Result<(), Fail> {
    let text = format!(in rt.alloc(); "casd 2\n{EMPTY}\n{ABC}\nend 2\n")?;
    match read_use(rt.alloc(), text.as_str().as_bytes()) {
        Ok(Some(order)) => keep_use(rt, rt.alloc(), folder, &order)?,
        _ => return Err("no list was read".into()),
    }
    let path = format!(in rt.alloc(); "{folder}/use-2")?;
    let kept = fs::read_to_string(&rt, path.as_str())?;
    ensure(kept.as_str() == text.as_str(), "another list was kept")
}

// A run that finds the bodies of the first and keeps a list of use.
fn second_run(rt: HostRuntime, folder: &str) -> Result<(), Fail> {
    let opened = open(rt, folder, 3, 13)?;
    ensure(opened.run == 2, "it isn't the second run")?;
    let mut shelf = shelf_of(rt, folder, 2, 0)?;
    ensure(put(&mut shelf, b"not found").is_ok(), "put")?;
    for bytes in [b"two".as_slice(), b"ten", b"ten too"] {
        let body = shelf.next_found().ok().ok_or("next_found")?.ok_or("none")?;
        ensure(
            is_body(&mut shelf, &body, bytes) == Ok(true),
            "a body has other bytes",
        )?;
    }
    ensure(
        matches!(shelf.next_found(), Ok(None)),
        "a body was found twice",
    )?;
    ensure(
        shelf.saved().is_ok_and(|order| order.is_empty()),
        "a list was there before it was kept",
    )?;
    keep_two(rt, folder)?;
    ensure(
        shelf.saved().is_ok_and(|order| order.len() == 2),
        "the list that was kept isn't found",
    )?;
    ensure(shelf.faults() == 0, "a fault was counted")?;
    Ok(())
}

// A run on a folder that was changed by hand: a body was cut, one was removed, and the list of use is cut too.
fn third_run(rt: HostRuntime, folder: &str) -> Result<(), Fail> {
    let cut = format!(in rt.alloc(); "{folder}/1-2-0")?;
    fs::write(&rt, cut.as_str(), "t")?;
    let use_list = format!(in rt.alloc(); "{folder}/use-2")?;
    fs::write(&rt, use_list.as_str(), "casd 2\nend 1\n")?;
    let opened = open(rt, folder, 4, 20)?;
    let mut shelf = shelf_of(rt, folder, opened.run, 0)?;
    let first = shelf.next_found().ok().ok_or("next_found")?.ok_or("none")?;
    let second = shelf.next_found().ok().ok_or("next_found")?.ok_or("none")?;
    let gone = format!(in rt.alloc(); "{folder}/1-10-0")?;
    fs::remove_file(&rt, gone.as_str())?;
    ensure(
        is_body(&mut shelf, &first, b"t") == Ok(true),
        "a cut body has other bytes",
    )?;
    ensure(
        is_body(&mut shelf, &second, b"ten") == Err(ShelfEnd::Failed),
        "a removed body was read",
    )?;
    shelf.discard(second);
    ensure(
        shelf.saved().is_ok_and(|order| order.is_empty()),
        "a cut list was read",
    )?;
    ensure(shelf.faults() == 1, "one fault wasn't counted once")?;
    Ok(())
}

#[test]
fn a_folder_serves_one_run_after_the_other(rt: HostRuntime) -> Result<(), Fail> {
    let folder = fresh_folder(rt, "runs")?;
    let folder = folder.as_str();
    first_run(rt, folder)?;
    leave_other_files(rt, folder)?;
    second_run(rt, folder)?;
    third_run(rt, folder)?;
    let notes = format!(in rt.alloc(); "{folder}/notes")?;
    assert!(rt;
        matches!(
            CacheFolder::open(rt, rt.alloc(), notes.as_str()),
            Err(FolderError::NotAFolder)
        )
    );
    fs::remove_dir_all(&rt, folder)?;
    Ok(())
}
