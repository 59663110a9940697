//! Modules, read back from their texts, and written into them again.

ghost use Rattle.std.specs.Prelude.{◌<◌, ◌^◌, length};

use crate::scanning::{put_stop, put_text};
use module_text::{Outside, read_module, split, write_module, write_region};
use std::alloc::{AllocError, Global};
use tla_pool::Pool;
use tla_token::Stop;
use tla_tree::{Name, Text};

fn put_name(told: &mut Vec<u8>, name: &Name) -> Result<(), AllocError> {
    told.push(b' ')?;
    told.extend_from_slice(name.bytes())
}

// Appends the names of what is outside, and how many units are passed on.
fn put_outside(alloc: Global, told: &mut Vec<u8>, outside: &Outside) -> Result<(), AllocError> {
    told.extend_from_slice(b" extends")?;
    for name in outside.extended.as_slice() {
        put_name(told, name)?;
    }
    told.extend_from_slice(b", constants")?;
    for constant in &outside.constants {
        put_name(told, &constant.name)?;
    }
    told.extend_from_slice(b", defines")?;
    for definition in outside.definitions.as_slice() {
        put_name(told, &definition.name)?;
    }
    let passed = outside.opaque.len();
    put_text(told, format!(in alloc; ", passes on {passed}\n")?)
}

/// Appends the module that a file is: its name, what is outside its translation, and this translation as it is written.
pub fn put_module_read(alloc: Global, told: &mut Vec<u8>, text: &[u8]) -> Result<(), AllocError>
    requires { length text.now < 2 ^ 29 }
{
    let mut pool = Pool::new(alloc);
    match read_module(alloc, text, &mut pool) {
        Ok(module) => {
            told.extend_from_slice(module.title.bytes())?;
            put_outside(alloc, told, &module.outside)?;
            let mut written = Text::new(Vec::new(alloc));
            write_region(alloc, &pool, &module.region, &mut written)?;
            told.extend_from_slice(written.bytes())
        }
        Err(stop) => put_stop(alloc, told, stop),
    }
}

/// Appends a file with the translation that it has, as it is written.
pub fn put_written(alloc: Global, told: &mut Vec<u8>, text: &[u8]) -> Result<(), AllocError>
    requires { length text.now < 2 ^ 29 }
{
    match file_written(alloc, text) {
        Ok(file) => told.extend_from_slice(&file),
        Err(stop) => put_stop(alloc, told, stop),
    }
}

// A file with the translation that it has: read, and written into it again.
fn file_written(alloc: Global, text: &[u8]) -> Result<Vec<u8>, Stop>
    requires { length text.now < 2 ^ 29 }
{
    let parts = split(alloc, text)?;
    let mut pool = Pool::new(alloc);
    let module = read_module(alloc, text, &mut pool)?;
    let file = write_module(alloc, &pool, &parts, &module)?;
    Ok(file)
}
