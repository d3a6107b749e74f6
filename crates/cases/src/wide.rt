use crate::tools::{Edited, Told, edit, read, rule_of, school_rule, told, verdicts};
use breaks::TableRule;
use rules::Rule;
use school::school_table;
use std::alloc::Global;
use std::process::Abort;
use std::test::Fail;

// From the school table to a two-byte one of 710 bytes: flags2 1, auxiliary offset 324, length 710.
// The word w stands at 324, the word k bytes on at 324 + k; 0x81 has its entry at 145, 0x82 at 146.
const WIDER: [(usize, u8); 4] = [(1, 1), (7, 68), (14, 2), (15, 198)];

// Edits of that table, and what is told of it then.
const EDITED: [Edited; 46] = [
    (&[], Ok((6, 4, 9))),
    (&[(1, 0), (145, 255)], Err((5, 1, 145))),
    // k odd and w a class: 3, 4, 256; k of 1 and 127
    (&[(145, 255), (325, 3)], Ok((6, 4, 9))),
    (&[(145, 255), (325, 4)], Err((5, 1, 145))),
    (&[(145, 255), (324, 1)], Err((5, 1, 145))),
    (&[(145, 129), (325, 3)], Ok((6, 4, 9))),
    (&[(145, 129), (325, 4)], Err((5, 1, 145))),
    (&[(145, 255), (325, 4), (17, 4)], Err((5, 1, 17))),
    (&[(325, 4)], Ok((6, 4, 9))),
    // k odd and w of −4: the word at 328 + k − 1 is 3, 4, 256, −256
    (
        &[(145, 255), (324, 255), (325, 252), (329, 3)],
        Ok((6, 4, 9)),
    ),
    (
        &[(145, 255), (324, 255), (325, 252), (329, 4)],
        Err((5, 1, 145)),
    ),
    (
        &[(145, 255), (324, 255), (325, 252), (328, 1)],
        Err((5, 1, 145)),
    ),
    (
        &[(145, 255), (324, 255), (325, 252), (328, 255)],
        Err((5, 1, 145)),
    ),
    (
        &[(146, 253), (324, 255), (325, 252), (331, 3)],
        Ok((6, 4, 9)),
    ),
    (
        &[(146, 253), (324, 255), (325, 252), (331, 4)],
        Err((5, 1, 146)),
    ),
    (
        &[(146, 253), (324, 255), (325, 252), (329, 4)],
        Ok((6, 4, 9)),
    ),
    (
        &[(145, 129), (324, 255), (325, 252), (455, 3)],
        Ok((6, 4, 9)),
    ),
    (
        &[(145, 129), (324, 255), (325, 252), (455, 4)],
        Err((5, 1, 145)),
    ),
    // w of −384: the word ends at length; of −385, and k of 3: it passes length; of −32768
    (
        &[(145, 255), (324, 254), (325, 128), (709, 3)],
        Ok((6, 4, 9)),
    ),
    (
        &[(145, 255), (324, 254), (325, 128), (709, 4)],
        Err((5, 1, 145)),
    ),
    (&[(145, 255), (324, 254), (325, 127)], Err((5, 1, 145))),
    (&[(145, 253), (324, 254), (325, 128)], Err((5, 1, 145))),
    (&[(145, 255), (324, 128)], Err((5, 1, 145))),
    // k of 2: a row at 454 that ends at length, and one that passes it
    (&[(145, 254), (327, 130)], Ok((6, 4, 9))),
    (&[(1, 255), (145, 254), (327, 130)], Ok((6, 4, 9))),
    (&[(145, 254), (327, 131)], Err((5, 1, 145))),
    (&[(145, 254), (326, 127)], Err((5, 1, 145))),
    // its first, last and another class
    (&[(145, 254), (327, 130), (454, 3), (709, 3)], Ok((6, 4, 9))),
    (&[(145, 254), (327, 130), (454, 4)], Err((5, 1, 145))),
    (&[(145, 254), (327, 130), (709, 4)], Err((5, 1, 145))),
    (&[(145, 254), (327, 130), (519, 255)], Err((5, 1, 145))),
    (&[(145, 254), (327, 130), (453, 4)], Ok((6, 4, 9))),
    // a row that begins at −1, or far below
    (&[(145, 254), (326, 254), (327, 187)], Err((5, 1, 145))),
    (&[(145, 254), (326, 128)], Err((5, 1, 145))),
    // auxiliary offset 708: the word passes length; 706: it ends there, and leads back to rows at 452 and 453
    (&[(6, 2), (7, 196), (145, 254)], Err((5, 1, 145))),
    (&[(6, 2), (7, 195), (145, 254)], Err((5, 1, 145))),
    (
        &[(6, 2), (7, 194), (145, 254), (708, 255), (709, 2)],
        Ok((6, 4, 9)),
    ),
    (
        &[(6, 2), (7, 194), (145, 254), (708, 255), (709, 3)],
        Err((5, 1, 145)),
    ),
    // k of 128: a row at 454, and one that passes length
    (&[(145, 128), (453, 130)], Ok((6, 4, 9))),
    (&[(145, 128), (453, 131)], Err((5, 1, 145))),
    (&[(145, 128), (453, 130), (709, 4)], Err((5, 1, 145))),
    (&[(145, 128), (452, 255), (453, 0)], Err((5, 1, 145))),
    // auxiliary offset 581: that word passes length; 580: it ends there, and leads back to a row at 452
    (&[(6, 2), (7, 69), (145, 128)], Err((5, 1, 145))),
    (
        &[(6, 2), (7, 68), (145, 128), (708, 255), (709, 128)],
        Ok((6, 4, 9)),
    ),
    (
        &[
            (6, 2),
            (7, 68),
            (145, 128),
            (708, 255),
            (709, 128),
            (707, 4),
        ],
        Err((5, 1, 145)),
    ),
    // both kinds, the one wrong
    (
        &[(145, 255), (146, 254), (325, 3), (327, 131)],
        Err((5, 1, 146)),
    ),
];

// 0x81 has k of 1 and class 3, 0x82 k of 3 and class 1, by w of −4; 0x83 has k of 2 and 0x84 k of 128, with one row at 454.
const MIXED: [(usize, u8); 13] = [
    (145, 255),
    (146, 253),
    (147, 254),
    (148, 128),
    (324, 255),
    (325, 252),
    (329, 3),
    (331, 1),
    (327, 130),
    (453, 130),
    (454, 1),
    (519, 3),
    (709, 2),
];

const MIXED_TEXT: [u8; 18] = [
    0x81, 0x00, 0x81, 0x81, 0x82, 0x41, 0x83, 0x41, 0x83, 0x00, 0x83, 0xff, 0x84, 0x41, 0x41, 0x2d,
    0x20, 0x83,
];

// Places of that text, and the characters there.
const MIXED_READ: [(usize, Told<(usize, usize)>); 20] = [
    (0, Ok((2, 3))),
    (2, Ok((2, 3))),
    (4, Ok((2, 1))),
    (6, Ok((2, 3))),
    (8, Ok((2, 1))),
    (10, Ok((2, 2))),
    (12, Ok((2, 3))),
    (14, Ok((1, 1))),
    (15, Ok((1, 2))),
    (16, Ok((1, 3))),
    // a first byte that ends the text
    (17, Ok((1, 0))),
    (18, Err((10, 4, 18))),
    // inside characters
    (1, Ok((1, 0))),
    (3, Ok((2, 3))),
    (5, Ok((1, 1))),
    (7, Ok((1, 1))),
    (9, Ok((1, 0))),
    (11, Ok((1, 0))),
    (13, Ok((1, 1))),
    (99, Err((10, 4, 99))),
];

// Characters are counted from where reading starts: places, the character there, and the end of the run from there.
const COUNTED: [(usize, Told<(usize, usize)>, usize); 4] = [
    (0, Ok((2, 0)), 2),
    (2, Ok((2, 0)), 4),
    (1, Ok((2, 0)), 3),
    (3, Ok((1, 1)), 4),
];

// The wider table after some edits.
fn wider(heap: Global, edits: &[(usize, u8)]) -> Result<Vec<u8>, Fail> {
    let mut bytes = school_table().to_vec(heap)?;
    bytes.resize(710, 0)?;
    edit(&mut bytes, &WIDER)?;
    edit(&mut bytes, edits)?;
    Ok(bytes)
}

// Reads the characters at some places.
fn reads(rt: &impl Abort, rule: &TableRule, text: &[u8], cases: &[(usize, Told<(usize, usize)>)]) {
    for (place, expected) in cases {
        assert_eq!(rt; read(&rule.table, text, *place), *expected);
    }
}

#[test]
fn edited(rt: HostRuntime) -> Result<(), Fail> {
    verdicts(&rt, rt.alloc(), &wider(rt.alloc(), &[])?, &EDITED)
}

#[test]
fn characters(rt: HostRuntime) -> Result<(), Fail> {
    let mixed = rule_of(rt.alloc(), &wider(rt.alloc(), &MIXED)?)?;
    reads(&rt, &mixed, &MIXED_TEXT, &MIXED_READ);
    // w is the class; a negative row offset leads to the row at 452
    let plain = rule_of(rt.alloc(), &wider(rt.alloc(), &[(145, 129), (325, 2)])?)?;
    reads(
        &rt,
        &plain,
        &[0x81, 0x41],
        &[(0, Ok((2, 2))), (1, Ok((1, 1)))],
    );
    reads(&rt, &plain, &[0x81], &[(0, Ok((1, 0)))]);
    let back = [(6, 2), (7, 194), (145, 254), (708, 255), (709, 2), (517, 3)];
    let back = rule_of(rt.alloc(), &wider(rt.alloc(), &back)?)?;
    reads(
        &rt,
        &back,
        &[0x81, 0x41],
        &[(0, Ok((2, 3))), (1, Ok((1, 1)))],
    );
    Ok(())
}

#[test]
fn counting(rt: HostRuntime) -> Result<(), Fail> {
    // w is word 0 of the backward list, 0
    let rule = school_rule(rt.alloc(), &[(1, 1), (145, 255)])?;
    let text = [0x81, 0x81, 0x81, 0x41];
    for (place, expected, end) in COUNTED {
        assert_eq!(rt; read(&rule.table, &text, place), expected);
        assert_eq!(rt; told(rule.end(&text, place)), Ok(end));
    }
    Ok(())
}
