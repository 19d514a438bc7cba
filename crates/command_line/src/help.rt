//! What people are told of the words that there are, and of the place of a fault.
ghost use Rattle.std.specs.Prelude.{◌≡◌, ◌++◌, flat_map, string_bytes, IfOk, OnOk};
ghost use Rattle.command_line.specs.Help.{value_form, key_form, required_form, optional_form, row_form, command_form, usage_help, line_form, fault_place};

use crate::{Command, Key, KeyKind, Row};
use std::alloc::{AllocError, Global};

impl KeyKind {
    // How a value of this kind is shown.
    fn form(self) -> &'static str
        ensures { result.now ≡ value_form self }
    {
        match self {
            KeyKind::Switch => "on|off",
            KeyKind::FileName => "FILE",
            KeyKind::FileNames => "FILE,..",
            KeyKind::ReportNames => "KIND,..",
            KeyKind::Text => "TEXT",
            KeyKind::Letters => "LETTERS",
            KeyKind::Limit | KeyKind::Number { .. } | KeyKind::EvenNumber { .. } => "NUMBER",
        }
    }
}

// KEY=VALUE
fn put_key(out: &mut String, key: Key) -> Result<(), AllocError>
    ensures { OnOk result (string_bytes out.new ≡ string_bytes out.old ++ key_form key) }
{
    out.push_str(key.name())?;
    out.push_str("=")?;
    out.push_str(key.kind().form())
}

fn put_required(out: &mut String, keys: &[Key]) -> Result<(), AllocError>
    ensures { OnOk result (string_bytes out.new ≡ string_bytes out.old ++ flat_map required_form keys.now) }
{
    'keys: for key in keys {
        out.push_str(" ")?;
        put_key(out, *key)?;
    }
    Ok(())
}

fn put_optional(out: &mut String, keys: &[Key]) -> Result<(), AllocError>
    ensures { OnOk result (string_bytes out.new ≡ string_bytes out.old ++ flat_map optional_form keys.now) }
{
    'keys: for key in keys {
        out.push_str(" [")?;
        put_key(out, *key)?;
        out.push_str("]")?;
    }
    Ok(())
}

fn put_row(out: &mut String, row: &Row) -> Result<(), AllocError>
    ensures { OnOk result (string_bytes out.new ≡ string_bytes out.old ++ row_form row.now) }
{
    out.push_str("  ")?;
    out.push_str(row.name)?;
    put_required(out, row.required)?;
    put_optional(out, row.optional)?;
    out.push_str("\n")
}

fn put_commands(out: &mut String, commands: &[Command]) -> Result<(), AllocError>
    ensures { OnOk result (string_bytes out.new ≡ string_bytes out.old ++ flat_map command_form commands.now) }
{
    'commands: for command in commands {
        put_row(out, &command.row())?;
    }
    Ok(())
}

/// A key with the form of its value, as KEY=FORM.
pub fn key_help(alloc: Global, key: Key) -> Result<String, AllocError>
    ensures { IfOk result (λ help. string_bytes help ≡ key_form key) }
{
    let mut help = String::new(alloc);
    put_key(&mut help, key)?;
    Ok(help)
}

/// The line of a row with its keys.
pub fn row_help(alloc: Global, row: &Row) -> Result<String, AllocError>
    ensures { IfOk result (λ help. string_bytes help ≡ row_form row.now) }
{
    let mut help = String::new(alloc);
    put_row(&mut help, row)?;
    Ok(help)
}

/// The line of a command with its keys, by the table that `read_words` goes by.
pub fn command_help(alloc: Global, command: Command) -> Result<String, AllocError>
    ensures { IfOk result (λ help. string_bytes help ≡ command_form command) }
{
    row_help(alloc, &command.row())
}

/// The commands with their keys, a line each.
pub fn usage_help(alloc: Global) -> Result<String, AllocError>
    ensures { IfOk result (λ help. string_bytes help ≡ usage_help) }
{
    let mut help = String::from_str(
        alloc,
        "the words are a command and its keys; keys in brackets may be left out:\n",
    )?;
    put_commands(&mut help, Command::all())?;
    Ok(help)
}

// :LINE
fn line_form(alloc: Global, line: u32) -> Result<String, AllocError>
    ensures { IfOk result (λ form. string_bytes form ≡ line_form line) }
{
    if line == 0 {
        Ok(String::new(alloc))
    } else {
        format!(in alloc; ":{line}")
    }
}

/// Where a fault of a text stands: `FILE:LINE: `, or `FILE: ` where the file as a whole is meant.
pub fn fault_place(alloc: Global, file: &str, line: u32) -> Result<String, AllocError>
    ensures { IfOk result (λ place. string_bytes place ≡ fault_place file.now line) }
{
    let line = line_form(alloc, line)?;
    format!(in alloc; "{file}{line}: ")
}
