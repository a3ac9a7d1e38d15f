//! The first faulty node.

ghost use Rattle.std.specs.Prelude.{◌≡◌, ◌⊎◌, [], All, OnOk, IfErr, Some, None};
ghost use Rattle.directory_canon.specs.Node.{IsNode};
ghost use Rattle.directory_canon.specs.Making.{offence};
ghost use Rattle.directory_canon.specs.declared.error.DirError.TheVariants.{OutOfMemory as NoMemory};

use crate::error::DirError;
use crate::fits::target_fits;
use crate::node::Node;
use crate::order::name;
use crate::valid::is_name;
use std::alloc::Global;
use std::collections::BTreeSet;

// Refuses the first node that isn't valid or has the name of an earlier one, with its position.
pub(crate) fn refuse_first(alloc: Global, nodes: &[Node]) -> Result<(), DirError>
    ensures none { OnOk result (offence [] 0 nodes.now ≡ None) }
    ensures valid { OnOk result (All IsNode nodes.now) }
    ensures refused { IfErr result (λ e. (e ≡ NoMemory) ⊎ (offence [] 0 nodes.now ≡ Some e)) }
{
    let mut names = BTreeSet::new(alloc);
    for (at, node) in nodes.iter().enumerate() {
        let name = name(node);
        if !is_name(name) {
            return Err(DirError::BadName { at });
        }
        if !target_fits(node) {
            return Err(DirError::BadTarget { at });
        }
        if !names.insert(name)? {
            return Err(DirError::Twice { at });
        }
    }
    Ok(())
}
