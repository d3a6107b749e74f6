ghost use Rattle.std.specs.Prelude.{◌≡◌, ℕ, ◌+◌, ◌<◌, ◌≤◌, length, drop, MatchOption};
ghost use Rattle.std.specs.Iterator.{YieldsFirst, item_count};
ghost use Rattle.rules.specs.Cutting.{cutting};
ghost use Rattle.rules.specs.Runs.{over_from, nth_from, runs_of};

use crate::page::Page;
use crate::rule::Rule;
use crate::runs::Run;
use std::marker::Model;

/// The runs of a page from a place on, one after the other; seen as the list of those that are still to come.
#[derive(Drop)]
pub struct Runs<'a, R: Rule> {
    page: Page<'a, R>,
    number: usize,
    start: usize,
}

impl<'a, R: Rule> Model for Runs<'a, R> {
    ghost use Rattle.std.specs.Prelude.{List, length, drop, ◌≤◌};
    ghost use Rattle.rules.specs.Cutting.{cutting};
    ghost use Rattle.rules.specs.Runs.{runs_of};
    ghost use Rattle.rules.specs.declared.runs.Run.{Run};

    ghost Value = { List Run };

    ghost view = { λ it. runs_of it.number it.start (cutting (R.Rule.run it.page.rule.now) (drop it.start it.page.text.now)) };

    ghost invariant = { λ it. (it.start ≤ length it.page.text.now) × (it.number ≤ it.start) };
}

impl<'a, R: Rule> Iterator for Runs<'a, R> {
    type Item = Run;

    ghost next_gives = { YieldsFirst (λ rest. rest) };

    ghost remaining = { item_count (λ rest. rest) };

    #[tactic(auto, using(crate::proofs::RunLists::none_left, crate::proofs::RunLists::first_left))]
    fn next(&mut self) -> Option<Run> {
        let start = self.start;
        if start == self.page.text.len() {
            return None;
        }
        let number = self.number;
        let end = self.page.run_end(start);
        self.number += 1;
        self.start = end;
        Some(Run { number, start, end })
    }
}

impl<'a, R: Rule> Page<'a, R> {
    /// The runs from a place on, numbered from there.
    pub fn runs_from(&self, place: usize) -> Runs<'a, R>
        requires { place ≤ length self.now.text.now }
        ensures { result ≡ runs_of 0 place (cutting (R.run self.now.rule.now) (drop place self.now.text.now)) }
    {
        Runs {
            page: *self,
            number: 0,
            start: place,
        }
    }

    /// The runs of the whole page.
    pub fn runs(&self) -> Runs<'a, R>
        ensures { result ≡ runs_of 0 0 (cutting (R.run self.now.rule.now) self.now.text.now) }
    {
        self.runs_from(0)
    }

    /// How many runs there are.
    #[tactic(auto, using(crate::specs::Cuts::runs_few, crate::proofs::RunLists::runs_size))]
    pub fn count_runs(&self) -> usize
        ensures { result ≡ length (cutting (R.run self.now.rule.now) self.now.text.now) }
    {
        self.runs().count()
    }

    /// The run over a place, with runs taken and numbered from `from` on until one ends past the place.
    pub fn walk_to(&self, from: usize, place: usize) -> Run
        requires { (from ≤ place) × (place < length self.now.text.now) }
        ensures value { result ≡ over_from (R.run self.now.rule.now) self.now.text.now from place }
        ensures start { (from ≤ result.start) × (result.start ≤ place) }
        ensures end { (place < result.end) × (result.end ≤ length self.now.text.now) }
        ensures few { result.number + from ≤ result.start }
    {
        self.runs_from(from).find(|run| place < run.end).unwrap()
    }

    /// The run that so many runs from `from` on come before, where there is one.
    pub fn walk_past(&self, from: usize, count: usize) -> Option<Run>
        requires { from ≤ length self.now.text.now }
        ensures { MatchOption result (length (cutting (R.run self.now.rule.now) (drop from self.now.text.now)) ≤ count) (λ v. (count < length (cutting (R.run self.now.rule.now) (drop from self.now.text.now))) × (v ≡ nth_from from (cutting (R.run self.now.rule.now) (drop from self.now.text.now)) count) × (v.start < v.end) × (v.end ≤ length self.now.text.now)) }
    {
        self.runs_from(from).nth(count)
    }
}
