ghost use Rattle.std.specs.Prelude.{Some};
ghost use Rattle.walls.specs.Lines.{places_line};

use files::Failure;
use rules::{Page, Rule, check_length};
use std::fmt;

// A word and then some places, each after a blank.
#[derive(Drop)]
struct Places<'a> {
    word: &'a str,
    places: &'a [usize],
}

impl fmt::Display for Places<'_> {
    ghost output = { λ p. Some (places_line p.word.now p.places.now) };

    fn fmt<W: fmt::Write>(&self, f: &mut fmt::Formatter<W>) -> fmt::Result {
        f.write_str(self.word)?;
        for place in self.places {
            write!(f, " {place}")?;
        }
        Ok(())
    }
}

/// Writes the runs and the walls of a text, or a refusal.
pub fn show<R: Rule>(rt: &HostRuntime, rule: &R, text: &[u8]) -> Result<(), Failure> {
    check_length(text)?;
    let page = Page { rule, text };
    let ends: Vec<usize> = page.runs().map(|run| run.end).collect(rt.alloc())?;
    let walls: Vec<usize> = (0..text.len())
        .filter(|at| page.is_wall(*at))
        .collect(rt.alloc())?;
    rt.println(Places {
        word: "runs",
        places: &ends,
    })?;
    rt.println(Places {
        word: "walls",
        places: &walls,
    })?;
    Ok(())
}
