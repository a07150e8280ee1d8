use super::*;

#[test]
fn keeps_number_sum_and_squares(rt: HostRuntime) {
    let mut sums = Sums::new();
    sums.add(16);
    sums.add(20);
    assert_eq!(rt;
        sums,
        Sums {
            n: 2,
            s1: 36,
            s2: 656
        }
    );
    assert_eq!(rt; cpi4(&sums, 16), 11_250);
    assert_eq!(rt; cpi4(&sums, 7), 25_714, "rounded down");
}

#[test]
fn passes_at_a_tie(rt: HostRuntime) {
    let mut sums = Sums::new();
    sums.add(9);
    sums.add(11);
    let cases = [(2, 1000, true), (2, 999, false), (3, 1000, false)];
    for (min, error, passes) in cases {
        assert_eq!(rt;
            confident(
                &sums,
                &Test {
                    min,
                    z: 1000,
                    error
                }
            ),
            passes
        );
    }
}

#[test]
fn finds_the_least_error(rt: HostRuntime) {
    let mut sums = Sums::new();
    assert_eq!(rt; least_error(&sums, 3000), None, "no unit");
    sums.add(16);
    assert_eq!(rt; least_error(&sums, 3000), None, "one unit");
    sums.add(20);
    assert_eq!(rt; least_error(&sums, 3000), Some(3334));
    sums.add(67_108_863);
    assert_eq!(rt; least_error(&sums, 4000), None, "beyond 9999");
}

#[test]
fn finds_no_error_of_equal_units(rt: HostRuntime) {
    let mut sums = Sums::new();
    sums.add(67_108_863);
    sums.add(67_108_863);
    assert_eq!(rt; least_error(&sums, 4000), Some(0));
}
