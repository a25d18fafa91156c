//! A caller of `memory_events`.

use machine::id::GroupId;
use machine::record::Key;
use memory_events::Events;
use std::test::Fail;

#[test]
fn an_event_counts_at_its_group_and_in_the_totals_above(rt: HostRuntime) -> Result<(), Fail> {
    let (root, group) = (GroupId::ROOT, GroupId(1));
    let mut events = Events::new(rt.alloc())?;
    events.add(group, root)?;
    events.count(group, Key::Max);
    let totals = [events.totals(root).max, events.totals(group).max];
    let locals = [events.locals(root).max, events.locals(group).max];
    assert_eq!(rt; (totals, locals), ([1, 1], [0, 1]));
    Ok(())
}
