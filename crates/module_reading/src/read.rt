//! A module, read back from its text.

ghost use Rattle.std.specs.Prelude.{◌≡◌, ◌<◌, ◌^◌, length, true, Err, IfOk, IfErr};
ghost use Rattle.tla_token.specs.declared.rule.Refusal as refusals;
ghost use Rattle.tla_token.specs.declared.rule.Stop.TheVariants as stop;
ghost use Rattle.tla_token.specs.Tokens.{stretch};
ghost use Rattle.tla_tree.specs.Pool.{Keeps};
ghost use Rattle.tla_value.specs.Defs.{DefinitionsIn};
ghost use Rattle.expr_nodes.specs.Ahead.{ahead};
ghost use Rattle.module_write.specs.InMemory.{module_at, RegionIn};
ghost use Rattle.region_reading.specs.ReadAnswer.{ReadsModule, RefusesModule};
ghost use Rattle.region_split.specs.Parted.{IsParted};
ghost use Rattle.module_tree.specs.FileUnits.{cut};
ghost use Rattle.region_reading.specs.ModuleReader.{is_nothing};
ghost use Rattle.module_reading.specs.Translated as pure;

use crate::outside::outside;
use crate::refusal::refused;
use crate::translation::translation;
use module_outside::body::are_small;
use module_outside::unit::next_begun;
use module_write::module::Module;
use region_split::parts::{RegionParts, parts_of_module};
use std::alloc::{AllocError, Global};
use tla_pool::Pool;
use tla_token::token::{head, tail};
use tla_token::{Rule, Span, Stop, Tokens};
use tla_tree::Name;

// The bytes of a span of a text, as a name.
fn name_of(alloc: Global, text: &[u8], span: Span) -> Result<Name, AllocError>
    ensures { IfOk result (λ x. x ≡ stretch text.now span.from span.to) }
{
    let bytes = head(tail(text, span.from), span.to.saturating_sub(span.from));
    Ok(Name::new(Vec::from_slice(alloc, bytes)?))
}

// Whether no token stands before the first unit.
fn begins_unit(tokens: &Tokens) -> bool
    ensures { result ≡ is_nothing (cut (ahead tokens.now 0)).front }
{
    next_begun(tokens, 0) == 0
}

// Whether nothing is wrong with the tokens of a translation and after it.
fn are_sound(inside: &Tokens, after: &Tokens) -> bool
    ensures { result ≡ pure.are_sound (ahead inside.now 0) (ahead after.now 0) }
{
    begins_unit(after) && are_small(inside) && begins_unit(inside)
}

// The module with these parts.
fn of_parts(
    alloc: Global,
    text: &[u8],
    parts: &RegionParts,
    pool: &mut Pool,
) -> Result<Module, Stop>
    requires { IsParted text.now parts.now }
    ensures reads { IfOk result (λ m. ReadsModule text.now (module_at pool.new m)) }
    ensures refuses { (r : refusals.Refusal) → result ≡ Err (stop.Refused r) → RefusesModule text.now r }
    ensures region { IfOk result (λ m. RegionIn (length pool.new) m.region) }
    ensures outside { IfOk result (λ m. DefinitionsIn (length pool.new) m.outside.definitions) }
    ensures kept { Keeps pool.old pool.new }
{
    if !are_sound(&parts.inside, &parts.after) {
        return Err(refused(Rule::Syntax));
    }
    let title = name_of(alloc, text, parts.title)?;
    let outside = outside(alloc, pool, &parts.before, &parts.after)?;
    let region = translation(alloc, &parts.inside, pool)?;
    Ok(Module {
        title,
        outside,
        region,
    })
}

/// The module that a text is: its title, what stands outside its algorithm and the translation, and the translation.
///
/// # Errors
///
/// At its beginning, by the rule of syntax, where it is no module with a translation, and by that of depth, where it is one
/// that nests deeper than any may; or want of memory.
pub fn read_module(alloc: Global, text: &[u8], pool: &mut Pool) -> Result<Module, Stop>
    requires small { length text.now < 2 ^ 29 }
    ensures reads { IfOk result (λ m. ReadsModule text.now (module_at pool.new m)) }
    ensures refuses { (r : refusals.Refusal) → result ≡ Err (stop.Refused r) → RefusesModule text.now r }
    ensures region { IfOk result (λ m. RegionIn (length pool.new) m.region) }
    ensures outside { IfOk result (λ m. DefinitionsIn (length pool.new) m.outside.definitions) }
    ensures kept { Keeps pool.old pool.new }
{
    match parts_of_module(alloc, text)? {
        Some(parts) => of_parts(alloc, text, &parts, pool),
        None => Err(refused(Rule::Syntax)),
    }
}
