//! The message Tree.

ghost use Rattle.std.specs.Prelude.{◌≡◌, ◌↔◌, All, Contains, IfOk, List};
ghost use Rattle.std.specs.List.Sorted.{IsStrictlySortedBy};
ghost use Rattle.directory_canon.specs.declared.node.Node.{Node};
ghost use Rattle.directory_canon.specs.Canon.{IsDirectory};
ghost use Rattle.directory_canon.specs.Tree.{IsTree, tree_cmp, tree_spelled};

use crate::directory::{Directory, Dirs};
use crate::keyed::Keyed;
use crate::write::write_canon;
use proto_wire::{Bytes, OutOfMemory, Writer};
use std::alloc::Global;
use std::cmp::Ordering;

/// A Directory and the distinct ones below it, ascending by digest.
#[derive(Debug, Drop)]
pub struct TreeMsg {
    pub root: Directory,
    pub children: Dirs,
}

// Each Directory with its bytes and their digest.
fn keyed(alloc: Global, below: Vec<Directory>) -> Result<Vec<Keyed>, OutOfMemory>
    ensures same { IfOk result (λ rows. rows.items ≡ below.items) }
    ensures are { IfOk result (λ rows. All IsDirectory rows.items) }
{
    let mut rows = Vec::new(alloc);
    for dir in below {
        rows.push(Keyed::new(alloc, dir)?)?;
    }
    Ok(rows)
}

// Sorts Directories, and keeps one of each.
fn keep_distinct(rows: &mut Vec<Keyed>)
    ensures ascending { IsStrictlySortedBy tree_cmp rows.new.items }
    ensures same { All IsDirectory rows.old.items → (dir : List Node) → Contains rows.new.items dir ↔ Contains rows.old.items dir }
{
    rows.sort_unstable_by(|a, b| a.order(b));
    rows.dedup_by(|a, b| a.order(b) == Ordering::Equal);
}

fn dirs(alloc: Global, rows: Vec<Keyed>) -> Result<Dirs, OutOfMemory>
    ensures { IfOk result (λ dirs. dirs ≡ rows.items) }
{
    let mut dirs = Vec::new(alloc);
    for row in rows {
        dirs.push(row.into_dir())?;
    }
    Ok(Dirs::from_vec(dirs))
}

/// The tree of a root and the Directories below it. Repeats are dropped.
pub fn tree_of(
    alloc: Global,
    root: Directory,
    below: Vec<Directory>,
) -> Result<TreeMsg, OutOfMemory>
    ensures { IfOk result (IsTree root below.items) }
{
    let mut rows = keyed(alloc, below)?;
    keep_distinct(&mut rows);
    let children = dirs(alloc, rows)?;
    Ok(TreeMsg { root, children })
}

/// The bytes of a tree. The root is written even if it is empty.
pub fn write_tree(alloc: Global, tree: &TreeMsg) -> Result<Bytes, OutOfMemory>
    ensures { IfOk result (λ b. b ≡ tree_spelled tree.now) }
{
    let mut out = Writer::new(alloc);
    let root = write_canon(alloc, &tree.root)?;
    out.bytes(1, root.as_slice())?;
    for dir in tree.children.as_slice() {
        let child = write_canon(alloc, dir)?;
        out.bytes(2, child.as_slice())?;
    }
    Ok(out.finish())
}
