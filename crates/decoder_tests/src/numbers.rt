use adpcm_nums::Span;

#[test]
fn distances(rt: HostRuntime) {
    let span = Span { lo: -3, hi: 5 };
    for (scale, target, want) in [
        (2, 7, 1),
        (2, 20, 100),
        (2, -6, 0),
        (1, -32768, 1_073_545_225),
    ] {
        assert_eq!(rt;
            span.distance_sq(scale, target),
            want,
            "at {scale} and {target}"
        );
    }
}
