//! Algorithms that are read of the tokens of a whole text, which in a file stand in a comment and end where they first can.

ghost use Rattle.std.specs.Prelude.{◌<◌, length};
ghost use Rattle.tla_token.specs.Limits.{past_text};

use crate::scanning::put_stop;
use c_syntax::read_c;
use p_syntax::read_p;
use std::alloc::{AllocError, Global};
use tla_expr::laws::given_numbers_fit;
use tla_pool::Pool;
use tla_token::{Stop, tokens};

// Whether a text is an algorithm, in C-syntax or in P-syntax.
fn read(alloc: Global, text: &[u8], is_c: bool) -> Result<(), Stop>
    requires { length text.now < past_text }
{
    let tokens = tokens(alloc, text, 0, text.len())?;
    given_numbers_fit();
    let mut pool = Pool::new(alloc);
    if is_c {
        read_c(alloc, &tokens, &mut pool)?;
    } else {
        read_p(alloc, &tokens, &mut pool)?;
    }
    Ok(())
}

/// Appends whether a text is an algorithm of a syntax, or the refusal.
pub fn put_algorithm(
    alloc: Global,
    told: &mut Vec<u8>,
    text: &[u8],
    is_c: bool,
) -> Result<(), AllocError>
    requires { length text.now < past_text }
{
    match read(alloc, text, is_c) {
        Ok(()) => told.extend_from_slice(b"read"),
        Err(stop) => put_stop(alloc, told, stop),
    }
}
