//! `Directory`.

ghost use Rattle.std.specs.Prelude.{◌≡◌, ◌⊎◌, IfOk, IfErr, Some};
ghost use Rattle.directory_canon.specs.Making.{Made, refusal};
ghost use Rattle.directory_canon.specs.declared.error.DirError.TheVariants.{OutOfMemory as NoMemory};

use crate::error::DirError;
use crate::first::refuse_first;
use crate::node::Node;
use crate::order::sort;
use crate::write::write_nodes;
use proto_wire::Listed;
use std::alloc::Global;
use std::marker::Model;

/// The most bytes that the canonical form of a Directory has.
pub(crate) const MAX_LEN: usize = 4_194_304;

/// The nodes of a Directory in canonical order: files, directories, symlinks, each ascending by the bytes of the names.
/// Each node is valid, no two have one name, and the canonical form has at most 4,194,304 bytes.
#[derive(Debug, Drop)]
pub struct Directory {
    nodes: Vec<Node>,
}

/// A list of Directories.
pub type Dirs = Listed<Directory>;

impl Model for Directory {
    ghost use Rattle.std.specs.Prelude.{List};
    ghost use Rattle.directory_canon.specs.declared.node.Node.{Node};
    ghost use Rattle.directory_canon.specs.Canon.{IsDirectory};

    ghost Value = { List Node };

    ghost view = { λ d. d.nodes.items };

    ghost invariant = { λ d. IsDirectory d.nodes.items };
}

impl Directory {
    ghost use Rattle.directory_canon.specs.Canon.{IsDirectory};

    /// The Directory of the nodes, which may come in any order. The first of them with a bad name, a bad target or
    /// the name of an earlier one is refused with its position, from 0: `BadName`, `BadTarget` or `Twice`. If there
    /// is none, a canonical form that is too long is refused: `TooLong`.
    pub fn new(alloc: Global, nodes: Vec<Node>) -> Result<Directory, DirError>
        ensures made { IfOk result (λ d. Made nodes.items d) }
        ensures refused { IfErr result (λ e. (e ≡ NoMemory) ⊎ (refusal nodes.items ≡ Some e)) }
    {
        let nodes = canonical(alloc, nodes)?;
        Ok(Directory::of_canonical(nodes))
    }

    /// The Directory of nodes that are in canonical order already. It takes no memory.
    pub(crate) fn of_canonical(nodes: Vec<Node>) -> Directory
        requires { IsDirectory nodes.items }
        ensures { result ≡ nodes.items }
    {
        Directory { nodes }
    }

    /// The nodes in canonical order.
    pub fn nodes(&self) -> &[Node]
        ensures same { result.now ≡ self.now }
        ensures is { IsDirectory self.now }
    {
        self.nodes.as_slice()
    }
}

// The nodes in canonical order, or why they make no Directory.
#[tactic(auto, using(crate::proofs::MakeMade::made, crate::proofs::MakeMade::too_long, crate::proofs::MakeMade::offends))]
fn canonical(alloc: Global, mut nodes: Vec<Node>) -> Result<Vec<Node>, DirError>
    ensures made { IfOk result (λ sorted. Made nodes.items sorted.items) }
    ensures refused { IfErr result (λ e. (e ≡ NoMemory) ⊎ (refusal nodes.items ≡ Some e)) }
{
    refuse_first(alloc, nodes.as_slice())?;
    let written = write_nodes(alloc, nodes.as_slice())?;
    if written.len() > MAX_LEN {
        return Err(DirError::TooLong);
    }
    sort(&mut nodes);
    Ok(nodes)
}
