use crate::tools::{Counts, Edited, Told, edit, verdict, verdicts};
use school::school_table;
use std::alloc::Global;
use std::test::Fail;

// Bytes of the school table: header, classes, backward table, forward table.
const SCHOOL_BYTES: [(usize, u8); 44] = [
    (0, 128),
    (1, 0),
    (4, 0),
    (5, 16),
    (6, 1),
    (7, 16),
    (8, 1),
    (9, 16),
    (10, 1),
    (11, 36),
    (14, 1),
    (15, 68),
    (16, 0),
    (48, 3),
    (61, 2),
    (80, 0),
    (81, 1),
    (106, 1),
    (107, 0),
    (112, 0),
    (113, 1),
    (138, 1),
    (139, 0),
    (271, 0),
    (273, 0),
    (275, 8),
    (277, 12),
    (279, 16),
    (280, 132),
    (283, 6),
    (287, 0),
    (291, 6),
    (295, 12),
    (297, 16),
    (303, 28),
    (304, 10),
    (305, 4),
    (307, 8),
    (308, 128),
    (310, 134),
    (312, 0),
    (313, 4),
    (319, 8),
    (323, 128),
];

// Edits of the school table, and what is told of it then.
const EDITED: [Edited; 86] = [
    // nothing looks at these: version, doBackup, the auxiliary offset of a one-byte table
    (&[(2, 255), (3, 255), (12, 255), (13, 255)], Ok((6, 4, 9))),
    (&[(6, 128)], Ok((6, 4, 9))),
    (&[(0, 255)], Ok((6, 4, 9))),
    // length 271, −188, 325; 272 and 323 fall short of the forward table
    (&[(15, 15)], Err((1, 0, 14))),
    (&[(14, 255)], Err((1, 0, 14))),
    (&[(15, 69)], Err((1, 0, 14))),
    (&[(15, 16)], Err((3, 0, 10))),
    (&[(15, 67)], Err((4, 3, 294))),
    (&[(0, 127), (15, 69)], Err((1, 0, 14))),
    // flags1
    (&[(0, 127)], Err((2, 0, 0))),
    (&[(0, 0), (4, 128)], Err((2, 0, 0))),
    // the class table offset: negative, 69, and 68, where the list of the backward table ends it
    (&[(4, 128)], Err((3, 0, 4))),
    (&[(5, 69)], Err((3, 0, 4))),
    (&[(5, 68)], Err((5, 1, 275))),
    (&[(4, 255), (8, 255), (10, 255)], Err((3, 0, 4))),
    // the forward offset: negative, 319, and 318
    (&[(10, 128)], Err((3, 0, 10))),
    (&[(11, 63)], Err((3, 0, 10))),
    (&[(11, 62)], Err((4, 3, 318))),
    (&[(8, 128), (10, 128)], Err((3, 0, 10))),
    // the backward offset: negative, 319, and 318
    (&[(8, 128)], Err((3, 0, 8))),
    (&[(9, 63)], Err((3, 0, 8))),
    (&[(9, 62)], Err((4, 2, 318))),
    (&[(1, 1), (6, 128), (8, 128)], Err((3, 0, 8))),
    // the auxiliary offset: negative, 323, and 322
    (&[(1, 1), (6, 128)], Err((3, 0, 6))),
    (&[(1, 255), (7, 67)], Err((3, 0, 6))),
    (&[(1, 1), (7, 66)], Ok((6, 4, 9))),
    (&[(1, 1), (6, 128), (293, 1)], Err((3, 0, 6))),
    // the forward list: word 0
    (&[(293, 1)], Err((4, 3, 292))),
    (&[(292, 128), (295, 13)], Err((4, 3, 292))),
    // word 1: 13, 4, 130, negative; 128 and 6 are let by
    (&[(295, 13)], Err((4, 3, 294))),
    (&[(295, 4)], Err((4, 3, 294))),
    (&[(295, 130)], Err((4, 3, 294))),
    (&[(294, 255)], Err((4, 3, 294))),
    (&[(295, 128)], Err((4, 3, 296))),
    (&[(295, 6)], Err((4, 2, 276))),
    // word 2: C of 0, of 129, negative
    (&[(297, 12)], Err((4, 3, 296))),
    (&[(297, 141)], Err((4, 3, 296))),
    (&[(296, 255)], Err((4, 3, 296))),
    // rows that pass length: C of 128, C of 5, S of 64
    (&[(297, 140)], Err((4, 3, 294))),
    (&[(297, 17)], Err((4, 3, 294))),
    (&[(295, 128), (297, 132)], Err((4, 3, 294))),
    (&[(297, 17), (299, 0)], Err((4, 3, 294))),
    // later words
    (&[(297, 15)], Err((4, 3, 298))),
    (&[(299, 21)], Err((4, 3, 298))),
    (&[(301, 23)], Err((4, 3, 300))),
    (&[(303, 29)], Err((4, 3, 302))),
    (&[(302, 1)], Err((4, 3, 302))),
    (&[(303, 29), (273, 1)], Err((4, 3, 302))),
    // the backward list: words 0, 1, 2, rows that pass length, word 3
    (&[(273, 1)], Err((4, 2, 272))),
    (&[(275, 9)], Err((4, 2, 274))),
    (&[(275, 4)], Err((4, 2, 274))),
    (&[(275, 130)], Err((4, 2, 274))),
    (&[(277, 13)], Err((4, 2, 276))),
    (&[(277, 11)], Err((4, 2, 276))),
    (&[(275, 20), (277, 24)], Err((4, 2, 274))),
    (&[(275, 18), (277, 22)], Err((4, 2, 278))),
    (&[(279, 17)], Err((4, 2, 278))),
    (&[(279, 17), (16, 4)], Err((4, 2, 278))),
    // classes: first, last, negative, the first of two
    (&[(113, 4)], Err((5, 1, 113))),
    (&[(113, 3)], Ok((6, 4, 9))),
    (&[(16, 4)], Err((5, 1, 16))),
    (&[(271, 4)], Err((5, 1, 271))),
    (&[(16, 255)], Err((5, 1, 16))),
    (&[(271, 128)], Err((5, 1, 271))),
    (&[(100, 4), (50, 127)], Err((5, 1, 50))),
    (&[(271, 4), (304, 1)], Err((5, 1, 271))),
    // forward codes: odd, of state 6
    (&[(310, 135)], Err((6, 3, 310))),
    (&[(310, 12)], Err((6, 3, 310))),
    (&[(304, 11)], Err((6, 3, 304))),
    (&[(323, 140)], Err((6, 3, 323))),
    (&[(323, 129), (280, 133)], Err((6, 3, 323))),
    // backward codes: odd, of state 4; state 3 is there
    (&[(280, 133)], Err((6, 2, 280))),
    (&[(287, 8)], Err((6, 2, 287))),
    (&[(291, 136)], Err((6, 2, 291))),
    (&[(291, 134)], Ok((6, 4, 9))),
    (&[(291, 1), (304, 0)], Err((6, 2, 291))),
    // non-advancing: after a letter and a hyphen; in the row of start, marked and unmarked; a mark on the first alone
    (&[(310, 6)], Err((7, 3, 312))),
    (&[(304, 0)], Err((7, 3, 304))),
    (&[(304, 128)], Err((7, 3, 304))),
    (&[(307, 0)], Err((7, 3, 307))),
    (&[(307, 128)], Err((7, 3, 307))),
    (&[(305, 6)], Err((7, 3, 312))),
    (&[(305, 134)], Err((7, 3, 312))),
    (&[(310, 6), (306, 128)], Err((7, 3, 306))),
    // still advancing
    (&[(310, 10)], Ok((6, 4, 13))),
    (&[(305, 132)], Ok((6, 4, 9))),
];

// How many bytes of the school table, followed by bytes 255, are handed in, and what is told.
const HANDED_IN: [(usize, Told<Counts>); 7] = [
    (0, Err((1, 0, 0))),
    (271, Err((1, 0, 0))),
    (272, Err((1, 0, 14))),
    (323, Err((1, 0, 14))),
    (324, Ok((6, 4, 9))),
    (325, Ok((6, 4, 9))),
    (424, Ok((6, 4, 9))),
];

// The header of the largest table: class table 16, backward 272, forward 8464, length 16656.
const LARGEST_HEADER: [(usize, u8); 8] = [
    (0, 128),
    (5, 16),
    (8, 1),
    (9, 16),
    (10, 33),
    (11, 16),
    (14, 65),
    (15, 16),
];

// Edits of the largest table, and what is told of it then.
const LARGEST_EDITED: [Edited; 5] = [
    (&[], Ok((64, 128, 16384))),
    // the last class of start leads to the last state, whose last code exits without a mark
    (&[(8719, 126)], Ok((64, 128, 16384))),
    (&[(8719, 126), (16655, 0)], Err((7, 3, 16655))),
    (&[(271, 128)], Err((5, 1, 271))),
    (&[(16655, 129)], Err((6, 3, 16655))),
];

// Appends a list of 64 words: 0, 128, 256 and so on.
fn append_list(bytes: &mut Vec<u8>) -> Result<(), Fail> {
    // the words are multiples of the numbers
    for k in 0..64u16 {
        bytes.extend_from_slice(&(128 * k).to_be_bytes())?;
    }
    Ok(())
}

// A table of 64 states and 128 classes, two byte values to a class: start goes on to state 2, which ends the run.
pub fn largest(heap: Global) -> Result<Vec<u8>, Fail> {
    let mut bytes = vec![in heap; 0; 16]?;
    edit(&mut bytes, &LARGEST_HEADER)?;
    // the classes are the values here
    for class in 0..128u8 {
        bytes.extend_from_slice(&[class, class])?;
    }
    // the backward table at 272, its codes all 0
    append_list(&mut bytes)?;
    bytes.resize(8464, 0)?;
    // the forward table at 8464: the row of start, and the other rows
    append_list(&mut bytes)?;
    bytes.resize(8720, 4)?;
    bytes.resize(16656, 128)?;
    Ok(bytes)
}

#[test]
fn school_bytes(rt: HostRuntime) -> Result<(), Fail> {
    let bytes = school_table();
    assert_eq!(rt; verdict(&rt, rt.alloc(), &bytes)?, Ok((6, 4, 9)));
    for (place, value) in SCHOOL_BYTES {
        assert_eq!(rt; bytes.get(place).copied(), Some(value));
    }
    Ok(())
}

#[test]
fn edited(rt: HostRuntime) -> Result<(), Fail> {
    verdicts(&rt, rt.alloc(), &school_table(), &EDITED)
}

#[test]
fn handed_in(rt: HostRuntime) -> Result<(), Fail> {
    for (count, expected) in HANDED_IN {
        let mut bytes = school_table().to_vec(rt.alloc())?;
        bytes.resize(424, 255)?;
        bytes.truncate(count);
        assert_eq!(rt; verdict(&rt, rt.alloc(), &bytes)?, expected);
    }
    assert_eq!(rt; verdict(&rt, rt.alloc(), &[0; 272])?, Err((1, 0, 14)));
    Ok(())
}

#[test]
fn largest_edited(rt: HostRuntime) -> Result<(), Fail> {
    verdicts(&rt, rt.alloc(), &largest(rt.alloc())?, &LARGEST_EDITED)
}
