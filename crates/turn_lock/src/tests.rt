use super::*;
use std::test::*;
use store_core::{Event, Reply};

/// It stands for an empty store with these marks.
struct Empty;

impl Stands for Empty {
    ghost use Rattle.store_core.specs.State.{new_state};
    ghost use Rattle.store_core.specs.declared.state.Guard.TheVariants as guards;

    ghost state = { λ _. new_state 10 20 guards.Leases };
}

#[test]
#[tactic(auto, using(crate::proofs::Opening::opens))]
fn an_entry_leaves_room_for_one_less(rt: HostRuntime) -> Result<(), Fail> {
    let mut diary = Diary::new(rt.alloc(), &Empty).ok().ok_or("memory")?;
    let left = diary.left();
    diary.note(1, &Event::Open, &Reply::Opened { owner: 1 });
    assert_eq!(rt; diary.left(), left - 1);
    Ok(())
}
