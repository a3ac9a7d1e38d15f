use super::*;
use digest_types::Digest;
use proto_wire::{Bytes, Name, OutOfMemory, Text};
use std::alloc::Global;
use std::test::*;

/// The tree of a Directory with one file "a" that holds "abc".
const ONE_FILE: &[u8] =
    b"\x0a\x4b\x0a\x49\x0a\x01a\x12\x44\x0a\x40ba7816bf8f01cfea414140de5dae2223b00361a396177a9cb410ff61f20015ad\x10\x03";

fn file(alloc: Global, name: &str) -> Result<Node, OutOfMemory> {
    Ok(Node::File {
        name: Name::new(alloc, name)?,
        digest: Digest::of(b"abc"),
        exec: false,
    })
}

fn folder(alloc: Global, name: &str) -> Result<Node, OutOfMemory> {
    Ok(Node::Dir {
        name: Name::new(alloc, name)?,
        digest: Digest::empty(),
    })
}

fn link(alloc: Global, name: &str, target: &str) -> Result<Node, OutOfMemory> {
    Ok(Node::Link {
        name: Name::new(alloc, name)?,
        target: Text::new(alloc, target)?,
    })
}

/// A node of the list with this number.
fn node(alloc: Global, list: u8, name: &str) -> Result<Node, OutOfMemory> {
    match list {
        1 => file(alloc, name),
        2 => folder(alloc, name),
        _ => link(alloc, name, "x"),
    }
}

/// The Directory of nodes with these lists and names.
fn made(alloc: Global, given: &[(u8, &str)]) -> Result<Directory, DirError> {
    let mut nodes = Vec::new(alloc);
    for (list, name) in given {
        nodes.push(node(alloc, *list, name)?)?;
    }
    Directory::new(alloc, nodes)
}

/// The Directory of files with these names.
fn files(alloc: Global, names: &[&str]) -> Result<Directory, DirError> {
    let mut nodes = Vec::new(alloc);
    for name in names {
        nodes.push(file(alloc, name)?)?;
    }
    Directory::new(alloc, nodes)
}

/// The tree of a root and Directories below it, each of files with these names.
fn tree(alloc: Global, root: &[&str], below: &[&[&str]]) -> Result<TreeMsg, DirError> {
    let root = files(alloc, root)?;
    let mut dirs = Vec::new(alloc);
    for names in below {
        dirs.push(files(alloc, names)?)?;
    }
    Ok(tree_of(alloc, root, dirs)?)
}

fn name_of(node: &Node) -> &str {
    match node {
        Node::File { name, .. } => name.as_str(),
        Node::Dir { name, .. } => name.as_str(),
        Node::Link { name, .. } => name.as_str(),
    }
}

/// Adds the names of the nodes, each with a semicolon behind it.
fn push_names(names: &mut Bytes, dir: &Directory) -> Result<(), OutOfMemory> {
    for node in dir.nodes() {
        names.push_slice(name_of(node).as_bytes())?;
        names.push_slice(b";")?;
    }
    Ok(())
}

#[test]
fn nodes_come_in_any_order(rt: HostRuntime) -> Result<(), Fail> {
    // Lists come before names, and bytes count, not letters.
    let given = [
        (3, "d"),
        (1, "b"),
        (2, "c"),
        (1, "a"),
        (2, "B"),
        (3, "A"),
        (1, "a."),
    ];
    let dir = made(rt.alloc(), &given).ok().ok_or("refused")?;
    let mut names = Bytes::new(rt.alloc());
    push_names(&mut names, &dir).ok().ok_or("memory")?;
    assert_eq!(rt; names.as_slice(), b"a;a.;b;B;c;A;d;".as_slice());
    Ok(())
}

#[test]
fn names_are_refused_by_their_position(rt: HostRuntime) -> Result<(), Fail> {
    let cases: [(&[&str], Option<DirError>); 15] = [
        (&[], None),
        (&["a"], None),
        (&[""], Some(DirError::BadName { at: 0 })),
        (&["a", "."], Some(DirError::BadName { at: 1 })),
        (&["a", "b", ".."], Some(DirError::BadName { at: 2 })),
        (&["...", ".a", "a."], None),
        (&["a/b"], Some(DirError::BadName { at: 0 })),
        (&["a\0"], Some(DirError::BadName { at: 0 })),
        (&["a\\b", "ü", " "], None),
        (&["a", "a"], Some(DirError::Twice { at: 1 })),
        (&["b", "a", "c", "a"], Some(DirError::Twice { at: 3 })),
        (&["b", "b", "b"], Some(DirError::Twice { at: 1 })),
        (&["a", "A"], None),
        // The first of them counts.
        (&["b", "b", "/"], Some(DirError::Twice { at: 1 })),
        (&["b", "/", "b"], Some(DirError::BadName { at: 1 })),
    ];
    for (names, wanted) in cases {
        let made = files(rt.alloc(), names);
        assert_eq!(rt; made.err(), wanted, "{names:?}");
    }
    Ok(())
}

/// The Directory of a directory "a" and a symlink.
fn with_link(alloc: Global, name: &str, target: &str) -> Result<Directory, DirError> {
    let mut nodes = Vec::new(alloc);
    nodes.push(folder(alloc, "a")?)?;
    nodes.push(link(alloc, name, target)?)?;
    Directory::new(alloc, nodes)
}

#[test]
fn targets_are_refused_by_their_position(rt: HostRuntime) -> Result<(), Fail> {
    let cases: [(&str, &str, Option<DirError>); 8] = [
        ("b", "x", None),
        ("b", "/../x", None),
        ("b", ".", None),
        ("b", "", Some(DirError::BadTarget { at: 1 })),
        ("b", "a\0b", Some(DirError::BadTarget { at: 1 })),
        // The name is checked first, and the target before a repeated name.
        ("", "", Some(DirError::BadName { at: 1 })),
        ("a", "", Some(DirError::BadTarget { at: 1 })),
        ("a", "x", Some(DirError::Twice { at: 1 })),
    ];
    for (name, target, wanted) in cases {
        let made = with_link(rt.alloc(), name, target);
        assert_eq!(rt; made.err(), wanted, "{name:?} {target:?}");
    }
    Ok(())
}

#[test]
fn a_tree_is_its_root_and_its_children(rt: HostRuntime) -> Result<(), Fail> {
    // An empty root is written too, and so is an empty child.
    let cases: [(&[&str], &[&[&str]], &[u8]); 2] = [
        (&["a"], &[], ONE_FILE),
        (&[], &[&[]], b"\x0a\x00\x12\x00"),
    ];
    for (root, below, wanted) in cases {
        let tree = tree(rt.alloc(), root, below).ok().ok_or("refused")?;
        let written = write_tree(rt.alloc(), &tree).ok().ok_or("memory")?;
        assert_eq!(rt; written.as_slice(), wanted);
    }
    Ok(())
}

#[test]
fn children_are_distinct_and_sorted_by_digest(rt: HostRuntime) -> Result<(), Fail> {
    // The hashes begin with e3 for none, with 4c, 07 and 64 for a, b and c alone, and with 8c for a and b.
    let below: [&[&str]; 8] = [
        &[],
        &["a"],
        &["b"],
        &["b", "a"],
        &[],
        &["a"],
        &["c"],
        &["a", "b"],
    ];
    let tree = tree(rt.alloc(), &["a"], &below).ok().ok_or("refused")?;
    let mut names = Bytes::new(rt.alloc());
    for dir in tree.children.as_slice() {
        push_names(&mut names, dir).ok().ok_or("memory")?;
        names.push_slice(b"|").ok().ok_or("memory")?;
    }
    assert_eq!(rt; names.as_slice(), b"b;|a;|c;|a;b;||".as_slice());
    Ok(())
}
