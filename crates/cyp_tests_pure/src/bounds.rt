use cyp_diff::{Adding, Bounds};
use std::test::Fail;

#[test]
fn refuses_a_negative_cycle(rt: HostRuntime) -> Result<(), Fail> {
    let mut bounds = Bounds::new(rt.alloc(), 2)?;
    assert_eq!(rt; bounds.add(0, 1, -1), Adding::Added);
    assert_eq!(rt; bounds.add(1, 0, 0), Adding::Contradiction);
    assert_eq!(rt; bounds.add(1, 0, 1), Adding::Added);
    Ok(())
}

/// A chain of bounds of the greatest size through all places.
#[test]
fn bounds_the_longest_chain(rt: HostRuntime) -> Result<(), Fail> {
    let most = 1 << 34;
    let mut bounds = Bounds::new(rt.alloc(), 33)?;
    for i in 0..32 {
        assert_eq!(rt; bounds.add(i, i + 1, -most), Adding::Added);
        assert_eq!(rt; bounds.add(i + 1, i, most - 1), Adding::Contradiction);
    }
    for i in 0..32 {
        assert_eq!(rt; bounds.add(i + 1, i, most), Adding::Added);
    }
    assert_eq!(rt; bounds.add(32, 32, -1), Adding::Contradiction);
    assert_eq!(rt; bounds.add(32, 32, 0), Adding::Added);
    Ok(())
}

/// Half of a circle through all places is as far below as the other half is above: it closes at 0 and not at -1.
#[test]
fn sums_up_a_circle_of_the_greatest_bounds(rt: HostRuntime) -> Result<(), Fail> {
    let most = 1 << 34;
    let mut bounds = Bounds::new(rt.alloc(), 33)?;
    for i in 0..16 {
        assert_eq!(rt; bounds.add(i, i + 1, -most), Adding::Added);
    }
    for i in 16..32 {
        assert_eq!(rt; bounds.add(i, i + 1, most), Adding::Added);
    }
    assert_eq!(rt; bounds.add(32, 0, -1), Adding::Contradiction);
    assert_eq!(rt; bounds.add(32, 0, 0), Adding::Added);
    Ok(())
}
