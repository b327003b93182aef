// What calls answer and leave, as text.
use layout::Refused;
use runs::Ran;
use show::NumberAndPlace;
use std::fmt::{self, Display};
use treetracker::State;

// What a call answered: what it gave, or its refusal.
#[derive(Drop)]
pub struct Answer<T>(pub Result<T, Refused>);

impl<T: Display> Display for Answer<T> {
    fn fmt<W: fmt::Write>(&self, f: &mut fmt::Formatter<W>) -> fmt::Result {
        match &self.0 {
            Ok(given) => write!(f, "{given}"),
            Err(refused) => write!(f, "refused {}", NumberAndPlace(*refused)),
        }
    }
}

// A list's name, and its items.
#[derive(Clone, Copy)]
pub struct List<'a, T>(pub &'a str, pub &'a [T]);

impl<T: Display> Display for List<'_, T> {
    fn fmt<W: fmt::Write>(&self, f: &mut fmt::Formatter<W>) -> fmt::Result {
        write!(f, "{}", self.0)?;
        for item in self.1 {
            write!(f, " {item}")?;
        }
        Ok(())
    }
}

// The 14 numbers of a state.
#[derive(Clone, Copy)]
pub struct Numbers(pub State);

impl Display for Numbers {
    fn fmt<W: fmt::Write>(&self, f: &mut fmt::Formatter<W>) -> fmt::Result {
        write!(f, "{}", List("state", &flat::numbers_of(self.0)))
    }
}

// The reason for which a run stopped, and its state.
#[derive(Clone, Copy)]
pub struct Stopped(pub Ran);

impl Display for Stopped {
    fn fmt<W: fmt::Write>(&self, f: &mut fmt::Formatter<W>) -> fmt::Result {
        let Ran { why, state } = self.0;
        write!(f, "stopped {} {}", u32::from(why), Numbers(state))
    }
}
