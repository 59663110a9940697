//! The written text of a value.

ghost use Rattle.std.specs.Prelude.{◌≡◌, ◌++◌, true, length, pos, is_some, OnOk, OnErr};
ghost use Rattle.std.specs.Fmt.{decimal, signed_decimal};
ghost use Rattle.std.specs.Ordering.{is_eq};
ghost use Rattle.tla_tree.specs.Lexical.{escaped, escapes};
ghost use Rattle.tla_value.specs.Value.{int, fun, values_in};
ghost use Rattle.tla_value.specs.Order.{order, orders, numbers_from};
ghost use Rattle.tla_value.specs.ValueText.{truth_name, quoted, spelling_text, items_text, all_shown, field_names, is_identifier, value_text};
ghost use Rattle.tla_value.specs.ValueText as pure;
ghost use Rattle.value_text.specs.Entries.{between, arrow, key_text, entries_text};

use std::alloc::{AllocError, Global};
use tla_token::bytes::{has_letter, is_word};
use tla_tree::{Name, Text};
use tla_value::value::{Kind, Value, Values};

// ---- atoms

fn truth_bytes(b: bool) -> &'static [u8]
    ensures { result.now ≡ truth_name b }
{
    if b { b"TRUE" } else { b"FALSE" }
}

fn write_character(b: u8, into: &mut Text) -> Result<(), AllocError>
    ensures { OnOk result (into.new ≡ into.old ++ escaped b) }
{
    match b {
        b'"' => into.extend(b"\\\""),
        b'\\' => into.extend(b"\\\\"),
        b'\t' => into.extend(b"\\t"),
        b'\n' => into.extend(b"\\n"),
        12 => into.extend(b"\\f"),
        b'\r' => into.extend(b"\\r"),
        _ => into.push(b),
    }
}

fn write_quote(text: &Name, into: &mut Text) -> Result<(), AllocError>
    ensures { OnOk result (into.new ≡ into.old ++ spelling_text (quoted text.now)) }
{
    into.push(b'"')?;
    for b in text.bytes() {
        write_character(*b, into)?;
    }
    into.push(b'"')
}

fn write_integer(alloc: Global, n: i128, into: &mut Text) -> Result<(), AllocError>
    ensures { OnOk result (into.new ≡ into.old ++ value_text (int n)) }
{
    let digits = format!(in alloc; "{n}")?;
    into.extend(digits.as_bytes())
}

// ---- which form a function has

// Whether the value is this number.
fn is_number(v: &Value, n: usize) -> bool
    ensures { result ≡ is_eq (order v.now (int (pos n))) }
{
    let number = Value::int(n as i128);
    v.cmp(&number).is_eq()
}

// Whether the domain is that of a tuple.
fn is_numbered(domain: &[Value]) -> bool
    ensures { result ≡ is_eq (orders (values_in domain.now) (numbers_from 1 domain.now)) }
{
    for i in 0..domain.len() {
        if !is_number(&domain[i], i + 1) {
            return false;
        }
    }
    true
}

fn is_identifier(word: &[u8]) -> bool
    ensures { result ≡ pure.is_identifier word.now }
{
    for b in word {
        if !is_word(*b) {
            return false;
        }
    }
    has_letter(word)
}

// Whether all are strings that are identifiers.
fn are_fields(domain: &[Value]) -> bool
    ensures { result ≡ is_some (field_names (values_in domain.now)) }
{
    for v in domain {
        match &v.kind {
            Kind::Text(w) => {
                if !is_identifier(w.bytes()) {
                    return false;
                }
            }
            _ => return false,
        }
    }
    true
}

// ---- forms

fn arrow_bytes(named: bool) -> &'static [u8]
    ensures { result.now ≡ arrow named }
{
    if named { b" |-> " } else { b" :> " }
}

fn between_bytes(named: bool) -> &'static [u8]
    ensures { result.now ≡ between named }
{
    if named { b", " } else { b" @@ " }
}

// Appends the text of a value.
#[cycle(write)]
fn write_one(alloc: Global, v: &Value, into: &mut Text) -> Result<(), AllocError>
    ensures { OnOk result (into.new ≡ into.old ++ value_text v.now) }
{
    match &v.kind {
        Kind::Bool(b) => into.extend(truth_bytes(*b)),
        Kind::Int(n) => write_integer(alloc, *n, into),
        Kind::Text(w) => write_quote(w, into),
        Kind::Model(w) => into.extend(w.bytes()),
        Kind::Set(vs) => {
            into.push(b'{')?;
            write_items(alloc, &vs.items, into)?;
            into.push(b'}')
        }
        Kind::Fun(ds, vs) => write_function(alloc, ds, vs, into),
    }
}

// Appends the texts of values, with commas between them.
#[cycle(write)]
fn write_items(alloc: Global, values: &[Value], into: &mut Text) -> Result<(), AllocError>
    ensures { OnOk result (into.new ≡ into.old ++ items_text (all_shown (values_in values.now))) }
{
    for i in 0..values.len() {
        if i > 0 {
            into.extend(b", ")?;
        }
        write_one(alloc, &values[i], into)?;
    }
    Ok(())
}

// Appends the text of a function.
#[cycle(write)]
fn write_function(
    alloc: Global,
    domain: &Values,
    values: &Values,
    into: &mut Text,
) -> Result<(), AllocError>
    requires { length domain.now ≡ length values.now }
    ensures { OnOk result (into.new ≡ into.old ++ value_text (fun (values_in domain.now) (values_in values.now))) }
{
    if is_numbered(&domain.items) {
        into.extend(b"<<")?;
        write_items(alloc, &values.items, into)?;
        into.extend(b">>")
    } else if are_fields(&domain.items) {
        into.push(b'[')?;
        write_entries(alloc, true, domain, values, into)?;
        into.push(b']')
    } else {
        into.push(b'(')?;
        write_entries(alloc, false, domain, values, into)?;
        into.push(b')')
    }
}

// Appends each argument with its value.
#[cycle(write)]
fn write_entries(
    alloc: Global,
    named: bool,
    domain: &Values,
    values: &Values,
    into: &mut Text,
) -> Result<(), AllocError>
    requires { length domain.now ≡ length values.now }
    ensures { OnOk result (into.new ≡ into.old ++ entries_text named domain.now values.now) }
{
    for i in 0..domain.items.len() {
        if i > 0 {
            into.extend(between_bytes(named))?;
        }
        write_key(alloc, named, &domain.items[i], into)?;
        into.extend(arrow_bytes(named))?;
        write_one(alloc, &values.items[i], into)?;
    }
    Ok(())
}

// Appends an argument: of a record the field alone.
#[cycle(write)]
fn write_key(alloc: Global, named: bool, key: &Value, into: &mut Text) -> Result<(), AllocError>
    ensures { OnOk result (into.new ≡ into.old ++ key_text named key.now) }
{
    if named {
        write_field(key, into)
    } else {
        write_one(alloc, key, into)
    }
}

fn write_field(key: &Value, into: &mut Text) -> Result<(), AllocError>
    ensures { OnOk result (into.new ≡ into.old ++ key_text true key.now) }
{
    match &key.kind {
        Kind::Text(w) => into.extend(w.bytes()),
        _ => Ok(()),
    }
}

/// Appends the text of a value.
///
/// # Errors
///
/// Only for want of memory; the text is then as before.
pub fn write_value(alloc: Global, v: &Value, into: &mut Text) -> Result<(), AllocError>
    ensures ok { OnOk result (into.new ≡ into.old ++ value_text v.now) }
    ensures err { OnErr result (into.new ≡ into.old) }
{
    let mut made = Text::new(Vec::new(alloc));
    write_one(alloc, v, &mut made)?;
    into.extend(made.bytes())
}
