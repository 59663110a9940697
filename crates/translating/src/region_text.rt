//! The text of an algorithm's translation, as it stands between its two lines.

ghost use Rattle.std.specs.Prelude.{◌≡◌, ◌≤◌, length, Some, IfOk, IfErr};
ghost use Rattle.tla_value.specs.Outside as around;
ghost use Rattle.pcal_tree.specs.InMemory.{algorithm_at, past_algorithm};
ghost use Rattle.pcal_tree.specs.Names as names;
ghost use Rattle.pcal_tree.specs.Offences.{first};
ghost use Rattle.pcal_tree.specs.Variables.{vars};
ghost use Rattle.macro_expand.specs.TooLarge.{too_large};
ghost use Rattle.action_builder.specs.WrittenNames.{with_names};
ghost use Rattle.translation.specs.laws.AcceptedAlgorithm.{IsAcceptedInFile};
ghost use Rattle.file_answer.specs.Refusals.{IsStop};
ghost use Rattle.name_bits.specs.NamesIn.{most};
ghost use Rattle.written_names.specs.Units.{naming_of};
ghost use Rattle.translating.specs.Translated.{IsRegionText};

use checking::check::Checked;
use module_builder::built_region;
use module_write::write_units::write_region;
use std::alloc::Global;
use tla_pool::Pool;
use tla_token::Stop;
use tla_tree::Text;

/// The text of a translation, with what is counted of it.
#[derive(Drop)]
pub struct RegionText {
    /// The text between the two lines of the translation.
    pub text: Text,
    /// How many variables it declares.
    pub variables: usize,
}

/// The translation of an algorithm with which nothing is wrong.
///
/// # Errors
///
/// Rule 49, where the algorithm is too large with its macro calls written out; else only for want of memory.
pub fn region_text(
    alloc: Global,
    pool: &mut Pool,
    checked: Checked,
    no_terminating: bool,
) -> Result<RegionText, Stop>
    requires { past_algorithm checked.algorithm ≤ length pool.old }
    ensures made { (o : around.Outside) → IsAcceptedInFile o (algorithm_at pool.old checked.algorithm) → naming_of checked.naming ≡ names.naming (algorithm_at pool.old checked.algorithm) o → length (vars (with_names o (algorithm_at pool.old checked.algorithm))) ≤ most → IfOk result (IsRegionText no_terminating (with_names o (algorithm_at pool.old checked.algorithm))) }
    ensures stopped { IfErr result (IsStop (λ r. first (too_large (algorithm_at pool.old checked.algorithm)) ≡ Some r)) }
{
    let Checked {
        algorithm,
        naming,
        ..
    } = checked;
    let region = match built_region(alloc, pool, algorithm, &naming, no_terminating) {
        Ok(region) => region,
        Err(stop) => return Err(stop),
    };
    let mut text = Text::new(Vec::new(alloc));
    write_region(alloc, pool, &region, &mut text)?;
    Ok(RegionText {
        text,
        variables: region.variables.len(),
    })
}
