use crate::tools::{Told, school_rule, told};
use breaks::TableRule;
use finds::find;
use std::test::Fail;

// Edits of the school table, and what the steady check tells of it.
type Check = (&'static [(usize, u8)], Told<()>);

const CHECKS: [Check; 6] = [
    (&[], Ok(())),
    // an exit at a hyphen before a letter
    (&[(286, 0)], Err((8, 2, 286))),
    // marks set by the exiting code: on another sign, and on a blank
    (&[(280, 128)], Err((8, 2, 280))),
    (&[(287, 128)], Err((8, 2, 287))),
    // an exit without a mark
    (&[(283, 0)], Ok(())),
    // an exit at any sign before any other
    (&[(284, 0)], Ok(())),
];

// Edits of the school table, a text, and the start and the end of the run found at each of its places.
type Search = (
    &'static [(usize, u8)],
    &'static [u8],
    &'static [(usize, usize)],
);

const SEARCHES: [Search; 10] = [
    (
        &[],
        b"re-cut it",
        &[
            (0, 6),
            (0, 6),
            (0, 6),
            (0, 6),
            (0, 6),
            (0, 6),
            (6, 7),
            (7, 9),
            (7, 9),
        ],
    ),
    (
        &[],
        b"cut- it",
        &[(0, 3), (0, 3), (0, 3), (3, 4), (4, 5), (5, 7), (5, 7)],
    ),
    (
        &[(286, 0)],
        b"re-cut",
        &[(0, 6), (0, 6), (0, 6), (3, 6), (3, 6), (3, 6)],
    ),
    // the same with doBackup above the page, at 4, at 3 and at -1
    (
        &[(286, 0), (13, 9)],
        b"re-cut",
        &[(0, 6), (0, 6), (0, 6), (0, 6), (0, 6), (0, 6)],
    ),
    (
        &[(286, 0), (13, 4)],
        b"re-cut",
        &[(0, 6), (0, 6), (0, 6), (0, 6), (3, 6), (3, 6)],
    ),
    (
        &[(286, 0), (13, 3)],
        b"re-cut",
        &[(0, 6), (0, 6), (0, 6), (3, 6), (3, 6), (3, 6)],
    ),
    (
        &[(286, 0), (12, 255), (13, 255)],
        b"re-cut",
        &[(0, 6), (0, 6), (0, 6), (3, 6), (3, 6), (3, 6)],
    ),
    // an exit without a mark
    (&[(283, 0)], b"a b", &[(0, 1), (1, 2), (2, 3)]),
    // hexadecimal 81 a first byte: the marked character starts at 2
    (
        &[(1, 1), (145, 255), (284, 0)],
        b"\x81\x81\x81A",
        &[(0, 2), (0, 2), (2, 4), (2, 4)],
    ),
    (&[], b"", &[]),
];

// The start and the end of the run over a place.
fn run_over(rule: &TableRule, text: &[u8], place: usize) -> Told<(usize, usize)> {
    told(find(rule, text, place)).map(|span| (span.start, span.end))
}

#[test]
fn steady(rt: HostRuntime) -> Result<(), Fail> {
    for (edits, expected) in &CHECKS {
        let rule = school_rule(rt.alloc(), edits)?;
        assert_eq!(rt; told(rule.table.check_steady()), *expected);
    }
    Ok(())
}

#[test]
fn found(rt: HostRuntime) -> Result<(), Fail> {
    for (edits, text, runs) in &SEARCHES {
        let rule = school_rule(rt.alloc(), edits)?;
        assert_eq!(rt; runs.len(), text.len());
        for (place, run) in runs.iter().enumerate() {
            assert_eq!(rt; run_over(&rule, text, place), Ok(*run));
        }
        assert_eq!(rt; run_over(&rule, text, text.len()), Err((10, 4, text.len())));
    }
    Ok(())
}

#[test]
fn far_places(rt: HostRuntime) -> Result<(), Fail> {
    let rule = school_rule(rt.alloc(), &[])?;
    let text = vec![in rt.alloc(); b'a'; 16384]?;
    assert_eq!(rt; run_over(&rule, &text[0..16383], 16382), Ok((0, 16383)));
    assert_eq!(rt;
        run_over(&rule, &text[0..16383], 16383),
        Err((10, 4, 16383))
    );
    assert_eq!(rt; run_over(&rule, &text, 16384), Err((9, 4, 16384)));
    Ok(())
}
