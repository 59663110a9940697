//! The rules by which a module is refused, and the refusal.

ghost use Rattle.std.specs.Prelude.{◌≡◌};
ghost use Rattle.tla_token.specs.Rules.{rule_number, rule_name};

use crate::place::Place;
use std::alloc::{AllocError, AllocFailed};
use std::fmt;
use thiserror::Error;

/// A rule that a text can offend.
#[derive(Clone, Copy, PartialEq, Eq, Debug)]
pub enum Rule {
    /// A byte past 127 outside comments.
    NotAscii,
    /// A control byte that is no blank, a bad escape, or a string of an algorithm that holds `(*` or `*)`.
    BadToken,
    /// A `(*` without its end.
    OpenComment,
    /// A string that doesn't end on its line.
    OpenString,
    /// No header line, or no end of the module after it.
    NoModule,
    /// No algorithm in the module.
    NoAlgorithm,
    /// A second algorithm begins in the module.
    TwoAlgorithms,
    /// The lines that begin and end the translation don't make one region.
    BadRegion,
    /// What is next to the region, or to the place of a new one, leaves no room for it.
    Placement,
    /// A line of PlusCal options.
    Options,
    /// A word or sign of TLA+ that this profile leaves out.
    LeftOutWord,
    /// A number past `2^127 - 1`.
    NumberTooBig,
    /// More tokens, variables, processes, procedures or labels than the limits allow.
    TooMany,
    /// Expressions or statements nested deeper than the limits allow.
    TooDeep,
    /// The first token that no algorithm can have there.
    Syntax,
    /// A name that is nothing where it is.
    Unknown,
    /// A second declaration of a name.
    Duplicate,
    /// A bound name that is in scope already.
    Rebind,
    /// A declared or bound name that the translation or a standard module has.
    Reserved,
    /// A wrong number of arguments.
    Arity,
    /// A left side that is no variable.
    NotVariable,
    /// An operator or statement whose standard module isn't extended.
    NeedsModule,
    /// A variable that is declared outside the algorithm.
    OutsideVariable,
    /// A use of what a unit defines that was not read.
    OpaqueUnit,
    /// A variable in the identifier or the set of a process.
    ProcessNotConstant,
    /// `self` or a local variable in the set of an initial value.
    InitSelf,
    /// An initial value that reads a variable which has no value yet.
    InitLater,
    /// An infinite set elsewhere than to the right of `\in` or `\notin`.
    Infinite,
    /// A definition that reads a variable which was assigned in the same step.
    DefinedStale,
    /// `self` outside a process or procedure.
    SelfOutside,
    /// A body that doesn't begin with a label.
    FirstLabel,
    /// A `while` without a label.
    WhileLabel,
    /// An unlabelled statement after `call`, `return` or `goto`.
    AfterJump,
    /// An unlabelled statement after a statement that holds a jump or a label.
    AfterBranch,
    /// A label or a jump where none may be.
    LabelInside,
    /// A variable that is assigned twice in a step.
    AssignTwice,
    /// A `goto` to no label of its body.
    UnknownLabel,
    /// A `return` outside a procedure.
    ReturnOutside,
    /// A second label of one statement, or of one name.
    DoubleLabel,
    /// The algorithm with its macros written out is past the limits.
    TooLarge,
    /// An item of a configuration, script or trace that spells nothing.
    BadLine,
}

/// The number by which a rule is known.
pub fn number(rule: Rule) -> u8
    ensures { result ≡ rule_number rule }
{
    match rule {
        Rule::NotAscii => 1,
        Rule::BadToken => 2,
        Rule::OpenComment => 3,
        Rule::OpenString => 4,
        Rule::NoModule => 5,
        Rule::NoAlgorithm => 6,
        Rule::TwoAlgorithms => 7,
        Rule::BadRegion => 8,
        Rule::Placement => 9,
        Rule::Options => 10,
        Rule::LeftOutWord => 11,
        Rule::NumberTooBig => 12,
        Rule::TooMany => 13,
        Rule::TooDeep => 14,
        Rule::Syntax => 15,
        Rule::Unknown => 20,
        Rule::Duplicate => 21,
        Rule::Rebind => 22,
        Rule::Reserved => 23,
        Rule::Arity => 24,
        Rule::NotVariable => 25,
        Rule::NeedsModule => 26,
        Rule::OutsideVariable => 27,
        Rule::OpaqueUnit => 28,
        Rule::ProcessNotConstant => 29,
        Rule::InitSelf => 30,
        Rule::InitLater => 31,
        Rule::Infinite => 32,
        Rule::DefinedStale => 33,
        Rule::SelfOutside => 34,
        Rule::FirstLabel => 40,
        Rule::WhileLabel => 41,
        Rule::AfterJump => 42,
        Rule::AfterBranch => 43,
        Rule::LabelInside => 44,
        Rule::AssignTwice => 45,
        Rule::UnknownLabel => 46,
        Rule::ReturnOutside => 47,
        Rule::DoubleLabel => 48,
        Rule::TooLarge => 49,
        Rule::BadLine => 50,
    }
}

/// The name of a rule, as it is printed.
pub fn name(rule: Rule) -> &'static str
    ensures { result.now ≡ rule_name rule }
{
    match rule {
        Rule::NotAscii => "NotAscii",
        Rule::BadToken => "BadToken",
        Rule::OpenComment => "OpenComment",
        Rule::OpenString => "OpenString",
        Rule::NoModule => "NoModule",
        Rule::NoAlgorithm => "NoAlgorithm",
        Rule::TwoAlgorithms => "TwoAlgorithms",
        Rule::BadRegion => "BadRegion",
        Rule::Placement => "Placement",
        Rule::Options => "Options",
        Rule::LeftOutWord => "LeftOutWord",
        Rule::NumberTooBig => "NumberTooBig",
        Rule::TooMany => "TooMany",
        Rule::TooDeep => "TooDeep",
        Rule::Syntax => "Syntax",
        Rule::Unknown => "Unknown",
        Rule::Duplicate => "Duplicate",
        Rule::Rebind => "Rebind",
        Rule::Reserved => "Reserved",
        Rule::Arity => "Arity",
        Rule::NotVariable => "NotVariable",
        Rule::NeedsModule => "NeedsModule",
        Rule::OutsideVariable => "OutsideVariable",
        Rule::OpaqueUnit => "OpaqueUnit",
        Rule::ProcessNotConstant => "ProcessNotConstant",
        Rule::InitSelf => "InitSelf",
        Rule::InitLater => "InitLater",
        Rule::Infinite => "Infinite",
        Rule::DefinedStale => "DefinedStale",
        Rule::SelfOutside => "SelfOutside",
        Rule::FirstLabel => "FirstLabel",
        Rule::WhileLabel => "WhileLabel",
        Rule::AfterJump => "AfterJump",
        Rule::AfterBranch => "AfterBranch",
        Rule::LabelInside => "LabelInside",
        Rule::AssignTwice => "AssignTwice",
        Rule::UnknownLabel => "UnknownLabel",
        Rule::ReturnOutside => "ReturnOutside",
        Rule::DoubleLabel => "DoubleLabel",
        Rule::TooLarge => "TooLarge",
        Rule::BadLine => "BadLine",
    }
}

/// As it is printed: `45 AssignTwice`.
impl fmt::Display for Rule {
    ghost use Rattle.std.specs.Prelude.{Some};
    ghost use Rattle.tla_token.specs.Rules.{rule_text};

    ghost output = { λ r. Some (rule_text r) };

    fn fmt<W: fmt::Write>(&self, f: &mut fmt::Formatter<W>) -> fmt::Result {
        let number = number(*self);
        let name = name(*self);
        write!(f, "{number} {name}")
    }
}

/// A rule that a text offends, and where.
#[derive(Clone, Copy, PartialEq, Eq, Debug)]
pub struct Refusal {
    /// The rule that is broken.
    pub rule: Rule,
    /// Where it is broken.
    pub place: Place,
}

/// As it is printed: `12:3: 45 AssignTwice`, with the line and the column in front.
impl fmt::Display for Refusal {
    ghost use Rattle.std.specs.Prelude.{Some};
    ghost use Rattle.tla_token.specs.Rules.{refusal_text};

    ghost output = { λ r. Some (refusal_text r) };

    fn fmt<W: fmt::Write>(&self, f: &mut fmt::Formatter<W>) -> fmt::Result {
        let line = self.place.line;
        let col = self.place.col;
        let rule = self.rule;
        write!(f, "{line}:{col}: {rule}")
    }
}

/// Why a text was not taken.
#[derive(Clone, Copy, PartialEq, Eq, Debug, Error)]
pub enum Stop {
    /// There was no memory.
    #[error("out of memory")]
    Memory,
    /// The text offends a rule.
    #[error("{0}")]
    Refused(Refusal),
}

impl From<AllocError> for Stop {
    ghost use Rattle.tla_token.specs.declared.rule.Stop.TheVariants as stop;
    ghost use Rattle.std.specs.Prelude.{◌≡◌};

    ghost from_gives = { λ _ e. e ≡ stop.Memory };

    fn from(_: AllocError) -> Self {
        Stop::Memory
    }
}

impl<T: Drop> From<AllocFailed<T>> for Stop {
    ghost use Rattle.tla_token.specs.declared.rule.Stop.TheVariants as stop;
    ghost use Rattle.std.specs.Prelude.{◌≡◌};

    ghost from_gives = { λ _ e. e ≡ stop.Memory };

    fn from(_: AllocFailed<T>) -> Self {
        Self::Memory
    }
}
