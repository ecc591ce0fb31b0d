//! Lists.

use ax_lists::Sequence;
use std::alloc::Global;
use std::process::Abort;

fn two_members(rt: &impl Abort, alloc: Global) -> Sequence<u32> {
    let mut list = Sequence::new(alloc);
    list.push(7).expect(rt, "memory");
    list.push(9).expect(rt, "memory");
    list
}

#[test]
fn members_come_back_in_order(rt: HostRuntime) {
    let list = two_members(&rt, rt.alloc());
    assert!(rt; list.as_slice() == [7, 9].as_slice() && list.count() == 2);
    assert!(rt; list.get(0) == Some(&7) && list.get(1) == Some(&9) && list.get(2).is_none());
}

#[test]
fn a_copy_has_the_same_members(rt: HostRuntime) {
    let list = two_members(&rt, rt.alloc());
    let copied = list.copy(rt.alloc()).expect(&rt, "memory");
    assert!(rt; copied.as_slice() == list.as_slice());
}
