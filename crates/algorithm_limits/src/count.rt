//! Counting up to a limit.

ghost use Rattle.std.specs.Prelude.{◌≡◌};
ghost use Rattle.pcal_tree.specs.Offences.{first};
ghost use Rattle.algorithm_limits.specs.Counting.{none_of, counted_one, past_limit};

use tla_token::{Place, Refusal, Rule};

/// How many more of something may come, and where the first one past the limit is.
#[derive(Clone, Copy)]
pub struct Count {
    /// How many more may come.
    pub left: usize,
    /// Where the first one past the limit is, if it has come.
    pub past: Option<Place>,
}

impl Count {
    /// Nothing is counted yet, of so many that may come.
    pub fn none_of(most: usize) -> Count
        ensures { result ≡ none_of most }
    {
        Count {
            left: most,
            past: None,
        }
    }

    /// With one more, which is at this place.
    pub fn with(self, place: Place) -> Count
        ensures { result ≡ counted_one self place }
    {
        match self.past {
            Some(_) => self,
            None => {
                if self.left == 0 {
                    Count {
                        left: 0,
                        past: Some(place),
                    }
                } else {
                    Count {
                        left: self.left - 1,
                        past: None,
                    }
                }
            }
        }
    }

    /// The first one past the limit.
    pub fn refusal(self) -> Option<Refusal>
        ensures { result ≡ first (past_limit self) }
    {
        match self.past {
            None => None,
            Some(place) => Some(Refusal {
                rule: Rule::TooMany,
                place,
            }),
        }
    }
}
