use books::Book;
use rules::Line;
use std::test::Fail;

// A book of the line rule, opened on a text.
pub fn opened(text: &[u8]) -> Result<Book<Line>, Fail> {
    let mut book = Book::new(Line);
    book.open(text)?;
    Ok(book)
}
