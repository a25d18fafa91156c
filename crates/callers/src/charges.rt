//! A caller of `page_counter`.

use machine::amount::Amount;
use machine::id::GroupId;
use page_counter::Counters;
use std::test::Fail;

#[test]
fn a_charge_counts_at_its_group_and_above(rt: HostRuntime) -> Result<(), Fail> {
    let (root, group) = (GroupId::ROOT, GroupId(1));
    let mut counters = Counters::new(rt.alloc())?;
    counters.add(group, root)?;
    counters.set_max(group, Amount::Pages(1));
    if let Ok(charge) = counters.try_charge(group) {
        let counts = (counters.usage(group), counters.usage(root));
        let full = (counters.over(group), counters.over(root));
        counters.uncharge(charge);
        assert_eq!(rt; counts, (1, 1));
        assert_eq!(rt; full, (Some(group), None));
    }
    assert_eq!(rt; (counters.usage(group), counters.usage(root)), (0, 0));
    Ok(())
}
