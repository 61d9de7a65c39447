use crate::row::Row;

/// What the proposal of factors keeps of a place. The least cost of paths that keep the middle of each row's interval
/// solves `(L U^-1 L' + tau I) mu = q`; this is one line of that matrix's factors, and nothing rests on it.
#[derive(Clone, Copy, Debug, PartialEq, Eq)]
pub(crate) struct Advice {
    /// How far the row is from what the rows before it lead to expect.
    pub push: i64,
    /// `push` by `stiff`, in 64ths.
    pub share: i64,
    /// The factor of the row before, in 65536ths.
    pub tie_one: i64,
    /// The factor of the row before that, in 65536ths.
    pub tie_two: i64,
    /// The pivot, in 16ths.
    pub stiff: i64,
    /// What the places so far cost by this reckoning.
    pub cost: i64,
}

/// No advice.
pub(crate) const NONE: Advice = Advice {
    push: 0,
    share: 0,
    tie_one: 0,
    tie_two: 0,
    stiff: 16,
    cost: 0,
};

/// Twice the weight's inverse, or 0 where the error is known.
fn give(row: Row) -> i64 {
    if row.known {
        0
    } else if row.weight == 1 {
        2
    } else {
        1
    }
}

/// The row before the next one, and the one before that: among `rows`, or else u and v.
fn two_before(rows: &[Row], v: Row, u: Row) -> (Row, Row) {
    let k = rows.len();
    if k >= 2 {
        (rows[k - 1], rows[k - 2])
    } else if k == 1 {
        (rows[0], u)
    } else {
        (u, v)
    }
}

/// The advice of the place before the next one, and of the one before that.
fn two_advices(trail: &[Advice]) -> (Advice, Advice) {
    let k = trail.len();
    if k >= 2 {
        (trail[k - 1], trail[k - 2])
    } else if k == 1 {
        (trail[0], NONE)
    } else {
        (NONE, NONE)
    }
}

/// `x * y`, wrapped.
pub(crate) fn times(x: i64, y: i64) -> i64 {
    x.wrapping_mul(y)
}

/// `x * y` in 65536ths, rounded.
fn times_part(x: i64, y: i64) -> i64 {
    times(x, y).wrapping_add(32768) >> 16
}

/// A quotient by a number that is at least 1.
pub(crate) fn quotient(x: i64, y: i64) -> i64 {
    x / y.max(1)
}

/// What a row shares with the row before it and with the one before that, in 16ths; nothing with rows that have no factor.
fn reached(row: Row, rows: &[Row], one: Row, two: Row) -> (i64, i64) {
    let mut last = 0;
    let mut before = 0;
    if !rows.is_empty() && !one.known {
        let shared = times(row.b, times(one.a, give(two)));
        last = times(
            8,
            shared.wrapping_sub(times(row.a, times(one.d, give(one)))),
        );
    }
    if rows.len() >= 2 && !two.known {
        before = times(-8, times(row.b, times(two.d, give(two))));
    }
    (last, before)
}

/// The advice of a row after `rows`: its ties to the two rows before it and its pivot, and how far the middle of its
/// interval is from what is expected.
pub(crate) fn tied(row: Row, rows: &[Row], trail: &[Advice], v: Row, u: Row, ease: i64) -> Advice {
    let (one, two) = two_before(rows, v, u);
    let (last, before) = two_advices(trail);
    let (reach_one, reach_two) = reached(row, rows, one, two);
    let tie_two = quotient(times(reach_two, 65536), before.stiff);
    let crossed = times(reach_one, 65536).wrapping_sub(times(reach_two, last.tie_one));
    let tie_one = quotient(crossed, last.stiff);
    let own = times(times(row.d, row.d), give(row)).wrapping_add(times(
        times(row.a, row.a),
        give(one),
    ));
    let all = own.wrapping_add(times(times(row.b, row.b), give(two)));
    let less = times_part(tie_one, times_part(tie_one, last.stiff)).wrapping_add(times_part(
        tie_two,
        times_part(tie_two, before.stiff),
    ));
    let mut sum = times_part(tie_one, last.push).wrapping_add(times_part(tie_two, before.push));
    if one.known {
        sum = sum.wrapping_sub(times(row.a, one.out));
    }
    if two.known {
        sum = sum.wrapping_sub(times(row.b, two.out));
    }
    Advice {
        push: (row.low.wrapping_add(row.high) >> 1).wrapping_sub(sum),
        share: 0,
        tie_one,
        tie_two,
        stiff: times(8, all).wrapping_add(ease).wrapping_sub(less).max(1),
        cost: last.cost,
    }
}

/// The same with another push.
fn pushed(tie: Advice, push: i64) -> Advice {
    let kept = push.min(268_435_456).max(-268_435_456);
    let share = quotient(times(kept, 1024), tie.stiff);
    Advice {
        push: kept,
        share,
        tie_one: tie.tie_one,
        tie_two: tie.tie_two,
        stiff: tie.stiff,
        cost: tie.cost.wrapping_add(times(kept, share) >> 6),
    }
}

/// How far the nearer end of an interval is from what is expected, where its middle is `push` away: 0 where it holds it.
fn outside(row: Row, push: i64) -> i64 {
    let half = row.high.wrapping_sub(row.low) >> 1;
    if push > half {
        push.wrapping_sub(half)
    } else if push < half.wrapping_neg() {
        push.wrapping_add(half)
    } else {
        0
    }
}

/// The advice of a row: `base` moved, with its advice `tie`, or a row apart from that.
pub(crate) fn advised(
    row: Row,
    base: Row,
    tie: Advice,
    rows: &[Row],
    trail: &[Advice],
    v: Row,
    u: Row,
    ease: i64,
) -> Advice {
    if row.known {
        let own = tied(row, rows, trail, v, u, ease);
        pushed(own, outside(row, own.push))
    } else {
        pushed(tie, tie.push.wrapping_add(row.low.wrapping_sub(base.low)))
    }
}

/// The advice of a place once it is past: where its error is known it takes no factor, and costs what it costs.
pub(crate) fn settled(row: Row, advice: Advice) -> Advice {
    if !row.known {
        return advice;
    }
    let square = times(row.out, row.out);
    let before = advice
        .cost
        .wrapping_sub(times(advice.push, advice.share) >> 6);
    Advice {
        push: 0,
        share: 0,
        tie_one: 0,
        tie_two: 0,
        stiff: 1 << 40,
        cost: before.wrapping_add(if row.weight == 1 {
            square
        } else {
            times(2, square)
        }),
    }
}

/// Factors for the rows that are advised so, by back substitution. Each answer is sound, so nothing is promised.
pub(crate) fn propose(trail: &[Advice]) -> [i64; 28] {
    let mut mus = [0; 28];
    let mut one = 0;
    let mut two = 0;
    let mut next = NONE;
    let mut after = NONE;
    for back in 0..trail.len() {
        let place = trail.len() - 1 - back;
        let here = trail[place];
        let pull = times_part(next.tie_one, one).wrapping_add(times_part(after.tie_two, two));
        two = one;
        one = here.share.wrapping_sub(pull);
        after = next;
        next = here;
        if place < 28 {
            mus[place] = one;
        }
    }
    mus
}
