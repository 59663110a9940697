//! Names of added labels: those with the next numbers that no typed label has.

ghost use Rattle.std.specs.Prelude.{◌≡◌, ◌+◌, ◌<◌, ◌^◌, IfOk, OnOk};
ghost use Rattle.pcal_tree.specs.Labelled.{Supply, added_name, number, rest_of};
ghost use Rattle.placed_labels.specs.InMemory.{AreLeft, IsNext};

use algorithm_limits::table::Table;
use std::alloc::{AllocError, Global};
use tla_tree::Name;

/// The names that are left.
#[derive(Drop)]
pub struct Names {
    /// What all of them begin with.
    pub root: Name,
    /// The names of typed labels have the number 1.
    pub typed: Table,
    /// The first number that is left.
    pub from: usize,
}

// The name of this root with this number.
fn added(alloc: Global, root: &Name, number: usize) -> Result<Name, AllocError>
    ensures { IfOk result (λ n. n ≡ added_name root.now number) }
{
    let mut bytes = Vec::new(alloc);
    bytes.extend_from_slice(root.bytes())?;
    let digits = format!(in alloc; "{number}")?;
    bytes.extend_from_slice(digits.as_bytes())?;
    Ok(Name::new(bytes))
}

impl Names {
    // The next name, and its number. More names than there are numbers aren't in memory.
    fn first_left(&self, alloc: Global) -> Result<(Name, usize), AllocError>
        ensures next { IfOk result (λ f. (s : Supply) → AreLeft self.now s → IsNext s f.0 f.1) }
        ensures small { IfOk result (λ f. f.1 + 1 < 2 ^ 64) }
    {
        for number in self.from..usize::MAX {
            let name = added(alloc, &self.root, number)?;
            if self.typed.get(&name) == 0 {
                return Ok((name, number));
            }
        }
        Err(AllocError)
    }

    /// The next name, which is then no more left.
    ///
    /// # Errors
    ///
    /// Only for want of memory.
    pub fn next(&mut self, alloc: Global) -> Result<Name, AllocError>
        ensures name { IfOk result (λ n. (s : Supply) → AreLeft self.old s → n ≡ added_name s.root (number s)) }
        ensures left { OnOk result ((s : Supply) → AreLeft self.old s → AreLeft self.new (rest_of s)) }
    {
        let (name, number) = self.first_left(alloc)?;
        self.from = number + 1;
        Ok(name)
    }
}
