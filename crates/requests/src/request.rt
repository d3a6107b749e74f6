ghost use Rattle.std.specs.Prelude.{◌≡◌};
ghost use Rattle.files.specs.declared.failure.Failure.TheVariants.{Said, Io};
ghost use Rattle.requests.specs.declared.request.Unread.TheVariants.{NoRule, NoMemory};

use crate::base::Base;
use crate::decimal::byte;
use crate::table::read_rule;
use files::Failure;
use layers::{Layer, Pile};
use rules::Line;
use std::alloc::{AllocError, AllocFailed, Global};
use std::str::Utf8Error;

/// The name of a rule that stands on no other.
#[derive(Clone, Copy, PartialEq, Eq, Debug)]
pub enum BaseName {
    /// The break table in the file `table`.
    Table,
    Line,
}

/// A rule by its name, with the layers over it, lowest first.
#[derive(Drop)]
pub struct Request {
    pub base: BaseName,
    pub layers: Vec<Layer>,
}

/// Why a line is no request.
#[derive(Clone, Copy, PartialEq, Eq, Debug)]
pub enum Unread {
    /// It names no rule.
    NoRule,
    /// There is no memory for what it names.
    NoMemory,
}

impl From<AllocError> for Unread {
    ghost from_gives = { λ _ unread. unread ≡ NoMemory };

    fn from(_error: AllocError) -> Unread {
        Unread::NoMemory
    }
}

impl<T: Drop> From<AllocFailed<T>> for Unread {
    ghost from_gives = { λ _ unread. unread ≡ NoMemory };

    fn from(_error: AllocFailed<T>) -> Unread {
        Unread::NoMemory
    }
}

/// A line that is no UTF-8 names no rule.
impl From<Utf8Error> for Unread {
    ghost from_gives = { λ _ unread. unread ≡ NoRule };

    fn from(_error: Utf8Error) -> Unread {
        Unread::NoRule
    }
}

impl Unread {
    /// The failure of a program that says this line where no rule is named.
    pub fn failure(self, line: &'static str) -> Failure
        ensures no_rule { self ≡ NoRule → result ≡ Said line.entry }
        ensures no_memory { self ≡ NoMemory → (error : _) × (result ≡ Io error) }
    {
        match self {
            Unread::NoRule => Failure::Said(line),
            Unread::NoMemory => AllocError.into(),
        }
    }
}

// The rule that two words name.
fn named_base(first: &str, second: &str) -> Option<BaseName> {
    match (first, second) {
        ("rule", "table") => Some(BaseName::Table),
        ("rule", "line") => Some(BaseName::Line),
        _ => None,
    }
}

// A layer by its name and its byte.
fn named_layer(name: &str, digits: &str) -> Option<Layer> {
    let byte = byte(digits)?;
    match name {
        "joint" => Some(Layer::Joint(byte)),
        "tail" => Some(Layer::Tail(byte)),
        _ => None,
    }
}

// The layers that words name, two words to each.
fn named_layers(heap: Global, words: &[&str]) -> Result<Vec<Layer>, Unread> {
    let mut layers = Vec::new(heap);
    for pair in words.chunks(2) {
        let [name, digits] = pair else {
            return Err(Unread::NoRule);
        };
        layers.push(named_layer(name, digits).ok_or(Unread::NoRule)?)?;
    }
    Ok(layers)
}

impl Request {
    /// Reads a line as `rule table joint 45`: the base, then any layers. Words are parted by one blank.
    pub fn parse(heap: Global, line: &str) -> Result<Request, Unread> {
        let words: Vec<&str> = line.split(' ').collect(heap)?;
        let [first, second, rest @ ..] = words.as_slice() else {
            return Err(Unread::NoRule);
        };
        let base = named_base(first, second).ok_or(Unread::NoRule)?;
        let layers = named_layers(heap, rest)?;
        Ok(Request { base, layers })
    }

    /// The rule itself; a table is read and judged only here.
    pub fn rule(self, rt: &HostRuntime) -> Result<Pile<Base>, Failure> {
        let Request { base, layers } = self;
        let below = match base {
            BaseName::Line => Base::Line(Line),
            BaseName::Table => Base::Table(read_rule(rt)?),
        };
        Ok(Pile { below, layers })
    }
}
