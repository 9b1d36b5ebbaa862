//! A list of actions that a machine is driven through.
use super::trials::{Trial, goes_alone, has_point};
use crate::scripts::new;
use heap_class::Refusal;
use heap_lock::{Action, Machine};
use heap_trail::Reply;
use std::alloc::Global;
use std::test::Fail;

/// Makes a point, and drives a machine through a step, a refused rewind, and what a dump asks for. Returns whether the replies,
/// the place and the number of retained steps after them are as expected.
pub fn is_driven(alloc: Global, machine: &mut Machine) -> bool {
    if !has_point(alloc, machine) {
        return false;
    }
    let actions = [
        Action::OpenPin(None),
        Action::Step(new(0)),
        Action::Rewind(9),
        Action::NextPiece { pin: 1, time: 7 },
        Action::ClosePin(1),
    ];
    let replies = machine.drive(actions.as_slice());
    are_replies(&replies) && machine.place() == 3 && machine.retained_count() == 2
}

// Returns whether these are the replies to the actions of a dump.
fn are_replies(replies: &Result<Vec<Reply>, Refusal>) -> bool {
    let Ok(replies) = replies else {
        return false;
    };
    matches!(
        replies.as_slice(),
        [
            Reply::Pinned { pin: 1, at: 2 },
            Reply::Answered(_),
            Reply::Refused(Refusal::TooFar { .. }),
            Reply::Part(_),
            Reply::Closed,
        ]
    )
}

#[test]
fn lists_are_driven(rt: HostRuntime) -> Result<(), Fail> {
    assert!(rt; goes_alone(&rt, rt.alloc(), Trial::IsDriven));
    Ok(())
}
