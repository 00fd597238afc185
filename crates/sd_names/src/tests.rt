// What grows, and text that is pushed into reserved room.
use crate::{Answers, Bytes, Id, Ids, TaskState, Tasks, push_all, push_id, push_number};
use std::test::Fail;

#[test]
fn bytes_are_copied(rt: HostRuntime) -> Result<(), Fail> {
    assert!(rt; Bytes::new(rt.alloc()).as_slice().is_empty());
    let bytes = Bytes::copied(rt.alloc(), b"disk")?;
    assert!(rt; bytes.as_slice() == b"disk".as_slice());
    Ok(())
}

#[test]
fn lists_grow(rt: HostRuntime) -> Result<(), Fail> {
    let one = Id([1; 16]);
    let two = Id([2; 16]);
    let mut ids = Ids::new(rt.alloc());
    assert!(rt; ids.is_empty());
    ids.push(two)?;
    ids.insert(0, one)?;
    assert!(rt; ids.as_slice() == [one, two].as_slice());
    assert!(rt; ids.len() == 2);
    assert!(rt; ids.contains(&two));
    assert!(rt; !ids.contains(&Id::ZERO));
    let copy = Ids::copied(rt.alloc(), ids.as_slice())?;
    assert!(rt; copy.len() == 2);

    let mut tasks = Tasks::new(rt.alloc());
    tasks.push(one, TaskState::Done)?;
    tasks.push(two, TaskState::Undone)?;
    assert!(rt; tasks.len() == 2);
    assert!(rt; !tasks.is_empty());
    assert!(rt; tasks.get(1) == (two, TaskState::Undone));
    assert!(rt; tasks.as_slice().len() == 2);

    let mut answers = Answers::new();
    answers.push(7, true);
    answers.push(8, false);
    assert!(rt; answers.len() == 2);
    assert!(rt; !answers.is_empty());
    assert!(rt; answers.get(1) == (8, false));
    assert!(rt; answers.as_slice() == [(7, true), (8, false)].as_slice());
    Ok(())
}

#[test]
fn pushes_into_reserved_room(rt: HostRuntime) -> Result<(), Fail> {
    let mut text = Vec::with_capacity(rt.alloc(), 60)?;
    push_all(&mut text, b"70 ");
    push_number(&mut text, u64::MAX);
    push_all(&mut text, b" ");
    push_id(&mut text, &Id::ZERO);
    let wanted = b"70 18446744073709551615 00000000-0000-0000-0000-000000000000";
    assert!(rt; text.as_slice() == wanted.as_slice());
    Ok(())
}
