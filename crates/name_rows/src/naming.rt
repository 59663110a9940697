//! The names that the algorithm of a file is written with.

ghost use Rattle.std.specs.Prelude.{◌<◌, ◌^◌, length};

use module_outside::outside::read_outside;
use module_split::split::split;
use name_rules::name_all;
use rewriting::read_parts;
use std::alloc::{AllocError, Global};
use tla_pool::Pool;
use tla_token::Stop;
use written_names::naming::Naming;

/// The names that the algorithm of a file is written with, or why it is refused.
pub fn naming_of(alloc: Global, text: &[u8]) -> Result<Naming, Stop>
    requires { length text.now < 2 ^ 29 }
{
    let parts = match split(alloc, text) {
        Ok(parts) => parts,
        Err(stop) => return Err(stop),
    };
    let mut pool = Pool::new(alloc);
    let algorithm = match read_parts(alloc, &parts, &mut pool) {
        Ok(algorithm) => algorithm,
        Err(stop) => return Err(stop),
    };
    match read_outside(alloc, &mut pool, &parts.before, &parts.after) {
        Ok(outside) => name_all(alloc, &pool, &algorithm, &outside),
        Err(AllocError) => Err(Stop::Memory),
    }
}
