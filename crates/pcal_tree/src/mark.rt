//! Marks of fairness on labels and processes.

ghost use Rattle.std.specs.Prelude.{◌≡◌};
ghost use Rattle.pcal_tree.specs.Marks.{text_of_mark, text_of_fairness};

/// The mark after a label.
#[derive(Clone, Copy)]
pub enum Mark {
    /// `A:`
    Plain,
    /// `A:+`, strongly fair in a weakly fair process.
    Strong,
    /// `A:-`, left out of the process's fairness.
    LeftOut,
}

/// The fairness that is asked of a process.
#[derive(Clone, Copy)]
pub enum Fairness {
    /// `process`
    Unfair,
    /// `fair process`
    Weak,
    /// `fair+ process`
    Strong,
}

/// How a mark is written after the name of its label.
pub fn mark_text(mark: Mark) -> &'static str
    ensures { result.now ≡ text_of_mark mark }
{
    match mark {
        Mark::Plain => ":",
        Mark::Strong => ":+",
        Mark::LeftOut => ":-",
    }
}

/// What is before the word `process`.
pub fn fairness_text(fairness: Fairness) -> &'static str
    ensures { result.now ≡ text_of_fairness fairness }
{
    match fairness {
        Fairness::Unfair => "",
        Fairness::Weak => "fair ",
        Fairness::Strong => "fair+ ",
    }
}
