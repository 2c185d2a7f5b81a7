//! Lines one after the other.

ghost use Rattle.std.specs.Prelude.{◌≡◌, ◌≢◌, ◌↔◌, [], ◌∷◌, ◌++◌, MatchOption, IfNone, IfSome, IsTrue};
ghost use Rattle.std.specs.Option.{option_copied};
ghost use Rattle.vt_nodes.specs.inside.First.{before_first, from_first};
ghost use Rattle.vt_nodes.specs.inside.Lines.{first_item, begins_with};

use crate::iter::IterLines;
use crate::line::Line;
use std::alloc::Global;
use std::marker::Model;
use vt_nodes::{Passed, Predicate, Trails, pass_trails};

/// Lines one after the other, none of them empty, in one word. Contracts see the list of the lines.
///
/// They have no memory of their own: the first node of each line knows where the next line begins. So
/// many lines, of which most are empty at most times, cost one word in all.
///
/// No call takes memory. Lines that are dropped drop each item once and free each node, in a loop and not by
/// recursion.
pub struct Lines<T> {
    alloc: Global,
    trails: Trails<T>,
}

impl<T> Model for Lines<T> {
    ghost use Rattle.std.specs.Prelude.{List};

    ghost Value = { List (List T) };

    ghost view = { λ l. l.trails };
}

impl<T: Drop> Drop for Lines<T> {
    fn drop(mut self) {
        while let Some(line) = self.pop_line() {
            drop(line);
        }
        let Lines { alloc: _, trails } = self;
        trails.end();
    }
}

impl<T: Drop> Lines<T> {
    /// No line.
    pub fn new(alloc: Global) -> Lines<T>
        ensures { result ≡ [] }
    {
        Lines {
            alloc,
            trails: Trails::new(),
        }
    }

    /// Puts the line, which may not be empty, in front of all others. It touches only the line's first node.
    pub fn push_line(&mut self, line: Line<T>)
        requires { line ≢ [] }
        ensures { self.new ≡ line ∷ self.old }
    {
        let trails = self.trails.take();
        self.trails.put(trails.with_first(line.into_trail()));
    }

    /// Takes out the first line, which isn't empty; None if there is no line. It touches only the line's first node.
    pub fn pop_line(&mut self) -> Option<Line<T>>
        ensures lines { MatchOption result ((self.old ≡ []) × (self.new ≡ [])) (λ line. self.old ≡ line ∷ self.new) }
        ensures filled { IfSome result (λ line. line ≢ []) }
    {
        let (first, others) = self.trails.take().split_first();
        self.trails.put(others);
        let trail = first?;
        Some(Line {
            alloc: self.alloc,
            trail,
        })
    }
}

impl<T> Lines<T> {
    /// Takes out the lines before the first one whose first item passes the test. [`Lines::join`] puts them back. It
    /// writes no node.
    pub fn pass<P: Predicate<T>>(&mut self, test: &P) -> Passed<T>
        ensures passed { result ≡ before_first (begins_with (P.passes test.now)) self.old }
        ensures others { self.new ≡ from_first (begins_with (P.passes test.now)) self.old }
        ensures whole { self.old ≡ result ++ self.new }
    {
        let (passed, ahead) = pass_trails(self.trails.take(), test);
        self.trails.put(ahead);
        passed
    }

    /// Puts the lines in front of all others. It writes only the first node of the last of them.
    pub fn join(&mut self, passed: Passed<T>)
        ensures { self.new ≡ passed ++ self.old }
    {
        let trails = self.trails.take();
        self.trails.put(passed.join(trails));
    }

    /// Whether there is no line.
    pub fn is_empty(&self) -> bool
        ensures { IsTrue result ↔ (self.now ≡ []) }
    {
        self.trails.is_empty()
    }

    /// The first item of the first line; None only if there is no line.
    pub fn front(&self) -> Option<&T>
        ensures item { option_copied result ≡ first_item self.now }
        ensures none { IfNone result (self.now ≡ []) }
    {
        self.trails.first()
    }

    /// An iterator over the lines, which gives each as an iterator over its items.
    pub fn iter(&self) -> IterLines<'_, T>
        ensures { result ≡ self.now }
    {
        IterLines::over(&self.trails)
    }
}
