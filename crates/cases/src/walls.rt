use crate::tools::{school_rule, told};
use layers::{Joint, Layered, Tail};
use rules::{Line, Rule, runs_before, three_parts};
use std::process::Abort;
use std::test::Fail;

// A text, the ends of its runs, and its walls.
type Shape = (&'static [u8], &'static [usize], &'static [usize]);

const SCHOOL: [Shape; 7] = [
    (b"re-cut it", &[6, 7, 9], &[0, 6, 7]),
    (b"cut- it", &[3, 4, 5, 7], &[0, 5]),
    (b"a. b", &[1, 2, 3, 4], &[0, 1, 2, 3]),
    (b"a -b", &[1, 2, 3, 4], &[0, 1, 2]),
    (b"a-", &[2], &[0]),
    (b"a", &[1], &[0]),
    (b"", &[], &[]),
];

// The same with two-byte text: hexadecimal 81 is a first byte, and all its characters have class 0.
const WIDE: [Shape; 5] = [
    (b"\x81\x81\x81A", &[2, 4], &[0, 2]),
    (b"A\x81\x81 ", &[1, 3, 4], &[0, 1, 3]),
    (b"\x81\x81\x81\x81\x81", &[2, 4, 5], &[0, 2, 4]),
    (b"\x81A", &[2], &[0]),
    (b"A\x81", &[1, 2], &[0, 1]),
];

// Under joint 45 and tail 32, in either order.
const LAYERED: [Shape; 4] = [
    (b"cut- it", &[3, 5, 7], &[0, 5]),
    (b"re-cut it", &[7, 9], &[0, 7]),
    (b"a -b", &[2, 4], &[0, 2]),
    (b"--  x", &[4, 5], &[0, 4]),
];

const LINES: [Shape; 3] = [
    (b"ab\rc\r\rd", &[3, 5, 6, 7], &[0, 3, 5, 6]),
    (b"a\r", &[2], &[0]),
    (b"\n\n", &[2], &[0]),
];

// Each place is the end of the run before it or not, and a wall or not, as the shapes say.
fn shaped<R: Rule>(rt: &impl Abort, rule: &R, shapes: &[Shape]) -> Result<(), Fail> {
    for (text, ends, walls) in shapes {
        let mut at = 0;
        for end in *ends {
            assert_eq!(rt; rule.end(text, at)?, *end);
            at = *end;
        }
        assert_eq!(rt; at, text.len());
        let mut left = walls.iter();
        // the places are the values here
        for place in 0..text.len() {
            if rule.wall(text, place)? {
                assert_eq!(rt; left.next().copied(), Some(place));
            }
        }
        assert_eq!(rt; left.next(), None);
    }
    Ok(())
}

#[test]
fn tables(rt: HostRuntime) -> Result<(), Fail> {
    shaped(&rt, &school_rule(rt.alloc(), &[])?, &SCHOOL)?;
    shaped(&rt, &school_rule(rt.alloc(), &[(1, 1), (145, 255)])?, &WIDE)
}

#[test]
fn layers(rt: HostRuntime) -> Result<(), Fail> {
    let below = Layered {
        below: school_rule(rt.alloc(), &[])?,
        seam: Tail(32),
    };
    let seam = Joint(45);
    shaped(&rt, &Layered { below, seam }, &LAYERED)?;
    let below = Layered {
        below: school_rule(rt.alloc(), &[])?,
        seam: Joint(45),
    };
    let seam = Tail(32);
    shaped(&rt, &Layered { below, seam }, &LAYERED)
}

#[test]
fn lines(rt: HostRuntime) -> Result<(), Fail> {
    let below = Line;
    shaped(&rt, &below, &LINES)?;
    let seam = Joint(13);
    shaped(
        &rt,
        &Layered { below, seam },
        &[(b"ab\rc\r\rd", &[7], &[0])],
    )?;
    let seam = Tail(99);
    shaped(
        &rt,
        &Layered { below, seam },
        &[(b"ab\rc\r\rd", &[5, 6, 7], &[0, 5, 6])],
    )
}

#[test]
fn long_texts(rt: HostRuntime) -> Result<(), Fail> {
    let rule = school_rule(rt.alloc(), &[])?;
    let text = [97; 16384];
    assert_eq!(rt; told(rule.wall(&text[0..16383], 0)), Ok(true));
    assert_eq!(rt; told(rule.wall(&text[0..16383], 16382)), Ok(false));
    assert_eq!(rt;
        told(rule.wall(&text[0..16383], 16383)),
        Err((10, 4, 16383))
    );
    assert_eq!(rt; told(rule.wall(&text, 0)), Err((9, 4, 16384)));
    assert_eq!(rt; told(rule.wall(&text, 20000)), Err((9, 4, 16384)));
    assert_eq!(rt; told(Line.wall(&text, 0)), Err((9, 4, 16384)));
    assert_eq!(rt; told(Line.wall(b"", 0)), Err((10, 4, 0)));
    let joint = Layered {
        below: Line,
        seam: Joint(1),
    };
    assert_eq!(rt; told(joint.wall(&text, 0)), Err((9, 4, 16384)));
    let tail = Layered {
        below: Line,
        seam: Tail(1),
    };
    assert_eq!(rt; told(tail.wall(b"ab", 2)), Err((10, 4, 2)));
    Ok(())
}

#[test]
fn parts(rt: HostRuntime) -> Result<(), Fail> {
    let rule = school_rule(rt.alloc(), &[])?;
    let text = b"re-cut it";
    assert_eq!(rt; runs_before(&rule, text, 7)?, Some(2));
    assert_eq!(rt; runs_before(&rule, text, 3)?, None);
    assert_eq!(rt; runs_before(&rule, text, 0)?, Some(0));
    assert!(rt; runs_before(&rule, text, 9).is_err());
    assert_eq!(rt; told(three_parts(&rule, text, 6, 7)), Ok(true));
    assert_eq!(rt; told(three_parts(&rule, text, 7, 6)), Ok(false));
    assert_eq!(rt; told(three_parts(&rule, text, 3, 7)), Ok(false));
    assert_eq!(rt; told(three_parts(&rule, text, 6, 9)), Err((10, 4, 9)));
    assert_eq!(rt; told(three_parts(&rule, text, 10, 9)), Err((10, 4, 10)));
    Ok(())
}
