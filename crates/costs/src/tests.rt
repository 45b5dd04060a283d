// The kinds at their bounds.
use crate::{Cost, Delay, Depth, Pair};

fn delay(half_lines: i32) -> Delay {
    Delay { half_lines }
}

fn depth(bits: u8) -> Depth {
    Depth { bits }
}

fn pair(half_lines: i32, bits: u8) -> Pair<Delay, Depth> {
    Pair {
        first: delay(half_lines),
        second: depth(bits),
    }
}

#[test]
fn of_two_costs_the_first_parts_decide(rt: HostRuntime) {
    assert!(rt; pair(5, 1).undercuts(pair(6, 16)) && !pair(6, 16).undercuts(pair(5, 1)));
    assert!(rt; pair(6, 10).undercuts(pair(6, 8)) && !pair(6, 8).undercuts(pair(6, 10)));
    assert!(rt; !pair(6, 8).undercuts(pair(6, 8)));
    assert_eq!(rt; pair(2, 8).join(pair(3, 10)), pair(5, 8));
    assert_eq!(rt; Pair::unit(), pair(0, 255));
    assert!(rt;
        pair(0, 16).admitted() && !pair(0, 17).admitted() && !pair(2_000_001, 16).admitted()
    );
}

#[test]
fn a_delay_is_admitted_up_to_a_million_lines(rt: HostRuntime) {
    assert!(rt; delay(2_000_000).admitted());
    assert!(rt; delay(-2_000_000).admitted());
    assert!(rt; !delay(2_000_001).admitted());
    assert!(rt; !delay(-2_000_001).admitted());
}

#[test]
fn a_depth_is_admitted_from_one_to_sixteen_bits(rt: HostRuntime) {
    assert!(rt; !depth(0).admitted());
    assert!(rt; depth(1).admitted());
    assert!(rt; depth(16).admitted());
    assert!(rt; !depth(17).admitted());
    assert!(rt; !depth(255).admitted());
}

#[test]
fn sums_are_exact_over_256_cards(rt: HostRuntime) {
    assert_eq!(rt;
        delay(510_000_000).join(delay(2_000_000)),
        delay(512_000_000)
    );
    assert_eq!(rt;
        delay(-510_000_000).join(delay(-2_000_000)),
        delay(-512_000_000)
    );
    assert_eq!(rt; delay(512_000_000).join(delay(-512_000_000)), delay(0));
}

#[test]
fn held_costs_join_without_a_trap(rt: HostRuntime) {
    assert_eq!(rt; delay(i32::MAX).join(delay(1)), delay(i32::MIN));
    assert_eq!(rt; delay(i32::MIN).join(delay(-1)), delay(i32::MAX));
    assert_eq!(rt; depth(0).join(depth(255)), depth(0));
}

#[test]
fn units_change_nothing_and_undercutting_is_strict(rt: HostRuntime) {
    assert_eq!(rt; Delay::unit().join(delay(-7)), delay(-7));
    assert_eq!(rt; Depth::unit().join(depth(9)), depth(9));
    assert!(rt; delay(-1).undercuts(delay(0)) && !delay(0).undercuts(delay(0)));
    assert!(rt; depth(9).undercuts(depth(8)) && !depth(8).undercuts(depth(8)));
}
