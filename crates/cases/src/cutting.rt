use crate::tools::{Told, edit, read, rule_of, school_rule, told};
use crate::verdicts::largest;
use breaks::cut_page;
use refusals::{Direction, Refusal};
use rules::{Line, Rule, write_cut_file};
use school::school_table;
use std::alloc::Global;
use std::process::Abort;
use std::test::Fail;

// Texts, places, and where the run from there ends by the school table.
const SCHOOL_ENDS: [(&[u8], usize, Told<usize>); 15] = [
    (b"re-cut it", 0, Ok(6)),
    (b"re-cut it", 6, Ok(7)),
    (b"re-cut it", 7, Ok(9)),
    (b"re-cut it", 1, Ok(6)),
    (b"re-cut it", 2, Ok(3)),
    (b"re-cut it", 8, Ok(9)),
    (b"re-cut it", 9, Err((10, 4, 9))),
    (b"re-cut it", 10, Err((10, 4, 10))),
    (b"cut- it", 0, Ok(3)),
    (b"cut- it", 3, Ok(4)),
    (b"cut- it", 4, Ok(5)),
    (b"cut- it", 5, Ok(7)),
    (b"a-", 0, Ok(2)),
    (b"   .", 0, Ok(3)),
    (b"", 0, Err((10, 4, 0))),
];

// The same by the line rule.
const LINE_ENDS: [(&[u8], usize, Told<usize>); 11] = [
    (b"ab\rc\r\rd\ne", 0, Ok(3)),
    (b"ab\rc\r\rd\ne", 2, Ok(3)),
    (b"ab\rc\r\rd\ne", 3, Ok(5)),
    (b"ab\rc\r\rd\ne", 5, Ok(6)),
    (b"ab\rc\r\rd\ne", 6, Ok(9)),
    (b"ab\rc\r\rd\ne", 8, Ok(9)),
    (b"ab\rc\r\rd\ne", 9, Err((10, 4, 9))),
    (b"\r\r", 0, Ok(1)),
    (b"\r\r", 1, Ok(2)),
    (b"\n", 0, Ok(1)),
    (b"", 0, Err((10, 4, 0))),
];

// Texts and their cut files by the school table.
const SCHOOL_FILES: [(&[u8], &[u8]); 3] = [
    (b"re-cut it", &[0, 0, 0, 6, 0, 6, 0, 7, 0, 7, 0, 9]),
    (
        b"cut- it",
        &[0, 0, 0, 3, 0, 3, 0, 4, 0, 4, 0, 5, 0, 5, 0, 7],
    ),
    (b"-", &[0, 0, 0, 1]),
];

// The same by the line rule.
const LINE_FILES: [(&[u8], &[u8]); 3] = [
    (
        b"ab\rc\r\rd\ne",
        &[0, 0, 0, 3, 0, 3, 0, 5, 0, 5, 0, 6, 0, 6, 0, 9],
    ),
    (b"\r\r", &[0, 0, 0, 1, 0, 1, 0, 2]),
    (b"\n\n", &[0, 0, 0, 2]),
];

// Refusals, and the lines that are printed of them.
const LINES: [(Refusal, &str); 13] = [
    (Refusal::TableTooShort, "refused 1 part 0 place 0"),
    (Refusal::TableLength, "refused 1 part 0 place 14"),
    (Refusal::TableFlags, "refused 2 part 0 place 0"),
    (Refusal::OffsetOutside(10), "refused 3 part 0 place 10"),
    (
        Refusal::ListWrong(Direction::Forward, 294),
        "refused 4 part 3 place 294",
    ),
    (
        Refusal::ListWrong(Direction::Backward, 274),
        "refused 4 part 2 place 274",
    ),
    (Refusal::ClassWrong(113), "refused 5 part 1 place 113"),
    (
        Refusal::CodeWrong(Direction::Forward, 310),
        "refused 6 part 3 place 310",
    ),
    (
        Refusal::CodeWrong(Direction::Backward, 280),
        "refused 6 part 2 place 280",
    ),
    (Refusal::NonAdvancing(312), "refused 7 part 3 place 312"),
    (Refusal::TextTooLong(16384), "refused 9 part 4 place 16384"),
    (Refusal::PlaceOutside(9), "refused 10 part 4 place 9"),
    (Refusal::BufferTooShort(12), "refused 13 part 4 place 12"),
];

// Asks a rule where runs end.
fn ends<R: Rule>(rt: &impl Abort, rule: &R, cases: &[(&[u8], usize, Told<usize>)]) {
    for (text, place, expected) in cases {
        assert_eq!(rt; told(rule.end(text, *place)), *expected);
    }
}

// Whether a buffer that was full of bytes 170 now has these bytes in front of them.
fn holds(buffer: &[u8], file: &[u8]) -> bool {
    buffer
        .strip_prefix(file)
        .is_some_and(|rest| rest.iter().all(|byte| *byte == 170))
}

// Writes a cut file into a buffer of so many bytes, of which it then has these in front.
fn writes<R: Rule>(
    rt: &impl Abort,
    heap: Global,
    rule: &R,
    text: &[u8],
    room: usize,
    file: &[u8],
) -> Result<Told<usize>, Fail> {
    let mut buffer = vec![in heap; 170; room]?;
    let answer = told(write_cut_file(rule, text, &mut buffer));
    assert!(rt; holds(&buffer, file));
    Ok(answer)
}

// Writes the cut files into buffers with room to spare, with just enough and with too little.
fn files<R: Rule>(
    rt: &impl Abort,
    heap: Global,
    rule: &R,
    cases: &[(&[u8], &[u8])],
) -> Result<(), Fail> {
    for (text, file) in cases {
        let size = file.len();
        assert!(rt; 0 < size && size < 100);
        assert_eq!(rt; writes(rt, heap, rule, text, 100, file)?, Ok(size));
        assert_eq!(rt; writes(rt, heap, rule, text, size, file)?, Ok(size));
        assert_eq!(rt;
            writes(rt, heap, rule, text, size - 1, b"")?,
            Err((13, 4, size))
        );
        assert_eq!(rt; writes(rt, heap, rule, text, 0, b"")?, Err((13, 4, size)));
    }
    assert_eq!(rt; writes(rt, heap, rule, b"", 0, b"")?, Ok(0));
    assert_eq!(rt; writes(rt, heap, rule, b"", 9, b"")?, Ok(0));
    Ok(())
}

// The longest text of one letter, and one that is longer by a byte.
fn limits<R: Rule>(rt: &impl Abort, heap: Global, rule: &R) -> Result<(), Fail> {
    let text = vec![in heap; b'a'; 16383]?;
    assert_eq!(rt; told(rule.end(&text, 0)), Ok(16383));
    assert_eq!(rt; told(rule.end(&text, 16382)), Ok(16383));
    assert_eq!(rt; told(rule.end(&text, 16383)), Err((10, 4, 16383)));
    assert_eq!(rt; writes(rt, heap, rule, &text, 9, &[0, 0, 63, 255])?, Ok(4));
    assert_eq!(rt; writes(rt, heap, rule, &text, 3, b"")?, Err((13, 4, 4)));
    let long = vec![in heap; b'a'; 16384]?;
    assert_eq!(rt; told(rule.end(&long, 0)), Err((9, 4, 16384)));
    assert_eq!(rt; told(rule.end(&long, 16384)), Err((9, 4, 16384)));
    assert_eq!(rt; writes(rt, heap, rule, &long, 9, b"")?, Err((9, 4, 16384)));
    assert_eq!(rt; writes(rt, heap, rule, &long, 0, b"")?, Err((9, 4, 16384)));
    Ok(())
}

#[test]
fn by_school(rt: HostRuntime) -> Result<(), Fail> {
    let rule = school_rule(rt.alloc(), &[])?;
    ends(&rt, &rule, &SCHOOL_ENDS);
    files(&rt, rt.alloc(), &rule, &SCHOOL_FILES)?;
    limits(&rt, rt.alloc(), &rule)
}

#[test]
fn by_line(rt: HostRuntime) -> Result<(), Fail> {
    ends(&rt, &Line, &LINE_ENDS);
    files(&rt, rt.alloc(), &Line, &LINE_FILES)?;
    limits(&rt, rt.alloc(), &Line)
}

#[test]
fn characters(rt: HostRuntime) -> Result<(), Fail> {
    let table = school_rule(rt.alloc(), &[])?.table;
    assert_eq!(rt; read(&table, b"a-", 1), Ok((1, 2)));
    assert_eq!(rt; read(&table, b"a-", 2), Err((10, 4, 2)));
    assert_eq!(rt; read(&table, b"", 0), Err((10, 4, 0)));
    let text = vec![in rt.alloc(); b'a'; 16383]?;
    assert_eq!(rt; read(&table, &text, 16382), Ok((1, 1)));
    assert_eq!(rt; read(&table, &text, 16383), Err((10, 4, 16383)));
    let long = vec![in rt.alloc(); b'a'; 16384]?;
    assert_eq!(rt; read(&table, &long, 0), Err((9, 4, 16384)));
    assert_eq!(rt; read(&table, &long, 16384), Err((9, 4, 16384)));
    Ok(())
}

#[test]
fn one_by_one(rt: HostRuntime) -> Result<(), Fail> {
    // the most runs that a text can have
    let rule = rule_of(rt.alloc(), &largest(rt.alloc())?)?;
    let text = vec![in rt.alloc(); 255; 16383]?;
    let mut buffer = vec![in rt.alloc(); 170; 65533]?;
    assert_eq!(rt; told(write_cut_file(&rule, &text, &mut buffer)), Ok(65532));
    assert!(rt; buffer.ends_with(&[63, 253, 63, 254, 63, 254, 63, 255, 170]));
    assert_eq!(rt;
        writes(&rt, rt.alloc(), &rule, &text, 65531, b"")?,
        Err((13, 4, 65532))
    );
    Ok(())
}

#[test]
fn pages(rt: HostRuntime) -> Result<(), Fail> {
    let file = [0, 0, 0, 6, 0, 6, 0, 7, 0, 7, 0, 9];
    let mut buffer = [170; 20];
    let school = school_table();
    let long = vec![in rt.alloc(); b'a'; 16384]?;
    let mut faulty = school_table();
    edit(&mut faulty, &[(310, 6)])?;
    // a faulty table is told first
    let answer = cut_page(faulty.to_vec(rt.alloc())?, &long, &mut buffer);
    assert_eq!(rt; told(answer), Err((7, 3, 312)));
    let answer = cut_page(school.to_vec(rt.alloc())?, &long, &mut buffer);
    assert_eq!(rt; told(answer), Err((9, 4, 16384)));
    assert!(rt; holds(&buffer, b""));
    let answer = cut_page(school.to_vec(rt.alloc())?, b"re-cut it", &mut buffer);
    assert_eq!(rt; told(answer), Ok(12));
    assert!(rt; holds(&buffer, &file));
    Ok(())
}

#[test]
fn lines(rt: HostRuntime) -> Result<(), Fail> {
    for (refusal, line) in LINES {
        assert_eq!(rt; format!(in rt.alloc(); "{refusal}")?.as_str(), line);
    }
    Ok(())
}
