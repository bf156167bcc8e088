use cyp_lanes::relax_row;

/// One whole lane and three places after it.
#[test]
fn relaxes_every_place(rt: HostRuntime) {
    let mut row = [5, -5, 0, 7, 7, 7, 7, 1, 4, -9, 4];
    relax_row(&mut row, &[1, 1, 1, 9, 10, 11, -12, 4, 8, 1, 7], -4);
    assert_eq!(rt;
        row.as_slice(),
        [-3, -5, -3, 5, 6, 7, -16, 0, 4, -9, 3].as_slice()
    );
}

#[test]
fn relaxes_at_the_limits(rt: HostRuntime) {
    let most = 1 << 61;
    let mut row = [i64::MAX, i64::MIN, -3 * most, 0];
    relax_row(&mut row, &[most, most, -most, -most], most);
    assert_eq!(rt;
        row.as_slice(),
        [2 * most, i64::MIN, -3 * most, 0].as_slice()
    );
    let mut empty = [0; 0];
    relax_row(&mut empty, &[], most);
    assert_eq!(rt; empty.len(), 0);
}
