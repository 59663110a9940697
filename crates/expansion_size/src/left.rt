//! What is left of the limits of an expansion.

ghost use Rattle.std.specs.Prelude.{◌≡◌, true, false};
ghost use Rattle.expansion_size.specs.Spent.{all_left, spend};

/// How many nodes an algorithm may have with its macro calls written out.
pub const MOST_NODES: u64 = 1048576;

/// How many labels it may have.
pub const MOST_LABELS: u64 = 8192;

/// One more than what may still come: none where a limit is passed.
#[derive(Clone, Copy)]
pub struct Left {
    /// Nodes; none are left where something nests too deep.
    pub nodes: u64,
    /// Labels.
    pub labels: u64,
}

impl Left {
    /// Nothing has come yet.
    pub fn all() -> Left
        ensures { result ≡ all_left }
    {
        Left {
            nodes: MOST_NODES + 1,
            labels: MOST_LABELS + 1,
        }
    }

    /// With so many nodes.
    pub fn with_nodes(self, count: u64) -> Left
        ensures { result ≡ spend count 0 false self }
    {
        if self.nodes == 0 {
            self
        } else if count < self.nodes {
            Left {
                nodes: self.nodes - count,
                labels: self.labels,
            }
        } else {
            Left {
                nodes: 0,
                labels: 0,
            }
        }
    }

    /// With a label.
    pub fn with_label(self) -> Left
        ensures { result ≡ spend 0 1 false self }
    {
        if self.nodes == 0 {
            self
        } else {
            Left {
                nodes: self.nodes,
                labels: self.labels.saturating_sub(1),
            }
        }
    }

    /// With something that nests too deep.
    pub fn past(self) -> Left
        ensures { result ≡ spend 0 0 true self }
    {
        if self.nodes == 0 {
            self
        } else {
            Left {
                nodes: 0,
                labels: 0,
            }
        }
    }
}
