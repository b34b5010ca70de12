//! The names under which files are opened.

ghost use Rattle.std.specs.Prelude.{◌≡◌, ◌++◌, IfOk, OnOk};
ghost use Rattle.std.specs.String.{string_bytes};
ghost use Rattle.config_load.specs.Joined.{joined, directory_of};

use dns_data::{NoMemory, Text};
use std::alloc::Global;

/// The name under which a file of the metadata, or an included file, is opened.
pub(crate) fn joined_name(alloc: Global, meta: &str, file: &str) -> Result<Text, NoMemory>
    ensures { IfOk result (λ name. name ≡ joined meta.now file.now) }
{
    if file.as_bytes().starts_with(b"/") {
        return Text::from_str(alloc, file);
    }
    let mut name = String::new(alloc);
    push_directory(&mut name, meta)?;
    name.push_str(file)?;
    Ok(Text::from_string(name))
}

/// Puts a file's name up to and including its last slash at the end of a text.
fn push_directory(text: &mut String, name: &str) -> Result<(), NoMemory>
    ensures { OnOk result (string_bytes text.new ≡ string_bytes text.old ++ directory_of name.now) }
{
    let mut rest = name;
    while let Some((folder, after)) = rest.split_once('/') {
        text.push_str(folder)?;
        text.push('/')?;
        rest = after;
    }
    Ok(())
}
