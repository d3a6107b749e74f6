use breaks::{TableRule, character};
use refusals::Refusal;
use school::school_table;
use std::alloc::Global;
use std::process::Abort;
use std::test::Fail;
use tables::{Summary, Table, examine};

// What a call tells: its answer, or the number, part and place of its refusal; by numbers, as the documents tell refusals, so
// that a changed number fails a test.
pub type Told<T> = Result<T, (u8, u8, usize)>;

// States, classes and sure pairs.
pub type Counts = (usize, usize, usize);

pub fn told<T>(answer: Result<T, Refusal>) -> Told<T> {
    answer.map_err(|refusal| {
        let report = refusal.report();
        (report.number, report.part, report.place)
    })
}

fn counts(summary: Summary) -> Counts {
    (summary.states, summary.classes, summary.sure)
}

// The size and the class of the character at a place.
pub fn read(table: &Table, text: &[u8], place: usize) -> Told<(usize, usize)> {
    told(character(table, text, place)).map(|character| (character.size, character.class))
}

// Puts each value of a list at its place.
pub fn edit(bytes: &mut [u8], edits: &[(usize, u8)]) -> Result<(), Fail> {
    for (place, value) in edits {
        *bytes.get_mut(*place).ok_or("no such place")? = *value;
    }
    Ok(())
}

// Edits of a table, and what is told of it then.
pub type Edited = (&'static [(usize, u8)], Told<Counts>);

// What is told of the bytes, alike by both calls; where they are not accepted, they are handed back. Here and in the other
// files the heap goes beside `rt`: the runtime has `Abort` only in the test that takes it.
pub fn verdict(rt: &impl Abort, heap: Global, bytes: &[u8]) -> Result<Told<Counts>, Fail> {
    let answer = told(examine(bytes)).map(counts);
    match Table::accept(bytes.to_vec(heap)?) {
        Ok(table) => assert_eq!(rt; Ok(counts(table.summary())), answer),
        Err(rejected) => {
            assert_eq!(rt; rejected.bytes.as_slice(), bytes);
            assert_eq!(rt; told(Err(rejected.refusal)), answer);
        }
    }
    Ok(answer)
}

// Checks what is told of a table after each of some edits, each made on the table anew.
pub fn verdicts(rt: &impl Abort, heap: Global, table: &[u8], cases: &[Edited]) -> Result<(), Fail> {
    for (edits, expected) in cases {
        let mut bytes = table.to_vec(heap)?;
        edit(&mut bytes, edits)?;
        assert_eq!(rt; verdict(rt, heap, &bytes)?, *expected);
    }
    Ok(())
}

// The rule of a table that has to be accepted.
pub fn rule_of(heap: Global, bytes: &[u8]) -> Result<TableRule, Fail> {
    let table = Table::accept(bytes.to_vec(heap)?).map_err(Refusal::from)?;
    Ok(TableRule { table })
}

// The rule of the school table after some edits.
pub fn school_rule(heap: Global, edits: &[(usize, u8)]) -> Result<TableRule, Fail> {
    let mut bytes = school_table();
    edit(&mut bytes, edits)?;
    rule_of(heap, &bytes)
}
