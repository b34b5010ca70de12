//! Files that are being read.

ghost use Rattle.std.specs.Prelude.{◌≡◌, ℕ, List, [], ◌∷◌, ◌++◌, true, false, not, Ok, Err, IfOk, IfErr, OnOk, IfSome, IfNone};
ghost use Rattle.master_lex.specs.declared.entry.Entry.{Entry as LexEntry};
ghost use Rattle.master_lex.specs.Contents.{text_entries, text_fault};
ghost use Rattle.master_lex.specs.Lexer.{IsLexerOf};
ghost use Rattle.master_lex.specs.Lines.{line_entries};
ghost use Rattle.master_read.specs.Directives.{is_include};
ghost use Rattle.master_read.specs.Fault.{TellsOfText};
ghost use Rattle.master_read.specs.Steps.{IsFaultOf, waits};
ghost use Rattle.master_read.specs.ZoneText.{Include, with_entries};

use crate::context::Context;
use crate::directive::{is_directive_in_text, is_include};
use crate::fault::TextFault;
use crate::records::Records;
use dns_data::NoMemory;
use master_lex::{Entry, LexFault, Lexer, PlainLine, TakeFault, Taken, TextEntry, TextToken};
use std::alloc::Global;
use std::collections::VecDeque;

/// A file that is being read.
#[derive(Debug, Drop)]
pub(crate) struct File {
    /// How many files were opened before it.
    pub number: u32,
    /// How many levels of included files may lie below it.
    pub levels: u32,
    /// The context before it.
    pub before: Context,
    /// The entries that were taken of it and wait to be read, from an `$INCLUDE` on.
    pub entries: VecDeque<Entry>,
    /// The fault of a spelling behind the entries, or `None`, where the file has ended.
    pub fault: Option<LexFault>,
}

/// Takes the entries that the lexer has to give, and answers the fault in the spelling of the next one, if the lexer
/// knows it.
pub(crate) fn take_all(
    alloc: Global,
    lexer: &mut Lexer,
    entries: &mut VecDeque<Entry>,
) -> Result<Option<LexFault>, NoMemory>
    ensures stands { (text : List ℕ) (taken : List LexEntry) → IsLexerOf lexer.old text taken
        → OnOk result ((more : List LexEntry) × (entries.new.items ≡ entries.old.items ++ more) × IsLexerOf lexer.new text (taken ++ more)) }
    ensures all { lexer.old.finished ≡ true → (text : List ℕ) (taken : List LexEntry) → IsLexerOf lexer.old text taken
        → IfOk result (λ fault. (more : List LexEntry) × (entries.new.items ≡ entries.old.items ++ more) × (text_entries text ≡ taken ++ more) × (fault ≡ text_fault text)) }
    ensures finished { lexer.new.finished ≡ lexer.old.finished }
    ensures fed { lexer.new.fed ≡ lexer.old.fed }
{
    loop {
        match lexer.take(alloc) {
            Ok(Taken::Entry(entry)) => entries.push_back(entry)?,
            Ok(Taken::More) => return Ok(None),
            Ok(Taken::End) => return Ok(None),
            Err(TakeFault::Lex { line, kind }) => return Ok(Some(LexFault { line, kind })),
            Err(TakeFault::NoMemory) => return Err(NoMemory),
        }
    }
}

/// Reads the entries in front, up to an `$INCLUDE`, of the file of this number.
pub(crate) fn read_ready(
    alloc: Global,
    records: &mut Records,
    room: u32,
    file: u32,
    entries: &mut VecDeque<Entry>,
) -> Result<(), TextFault>
    ensures read { (include : Include) (behind : List LexEntry) (texts : List (List ℕ))
        → OnOk result (with_entries include room file (entries.old.items ++ behind) (record { records = records.old; texts = texts })
        ≡ with_entries include room file (entries.new.items ++ behind) (record { records = records.new; texts = texts })) }
    ensures waits { OnOk result (waits entries.new.items ≡ true) }
    ensures fault { (include : Include) (behind : List LexEntry) (texts : List (List ℕ))
        → IfErr result (λ fault. IsFaultOf fault (with_entries include room file (entries.old.items ++ behind) (record { records = records.old; texts = texts }))) }
    ensures tells { IfErr result TellsOfText }
{
    while let Some(entry) = pop_plain(entries) {
        if let Err(fault) = records.read(alloc, room, file, &entry) {
            return Err(fault.at(file, entry.line));
        }
    }
    Ok(())
}

/// Reads the entry of a plain line of the file of this number, with these tokens, if it has one; or puts it among the
/// entries that wait, if there are such or it is an `$INCLUDE`.
pub(crate) fn read_line(
    alloc: Global,
    records: &mut Records,
    room: u32,
    file: u32,
    line: PlainLine,
    tokens: &[TextToken<'_>],
    entries: &mut VecDeque<Entry>,
) -> Result<(), TextFault>
    ensures read { (include : Include) (behind : List LexEntry) (texts : List (List ℕ))
        → OnOk result (with_entries include room file ((entries.old.items ++ line_entries line tokens.now) ++ behind) (record { records = records.old; texts = texts })
        ≡ with_entries include room file (entries.new.items ++ behind) (record { records = records.new; texts = texts })) }
    ensures fault { (include : Include) (behind : List LexEntry) (texts : List (List ℕ))
        → IfErr result (λ fault. IsFaultOf fault (with_entries include room file ((entries.old.items ++ line_entries line tokens.now) ++ behind) (record { records = records.old; texts = texts }))) }
    ensures tells { IfErr result TellsOfText }
{
    if tokens.is_empty() {
        return Ok(());
    }
    let entry = TextEntry::new(line.line, line.blank_start, tokens);
    if !entries.is_empty() {
        put_entry(alloc, &entry, entries)?;
        return Ok(());
    }
    if is_directive_in_text(&entry) {
        put_entry(alloc, &entry, entries)?;
        return read_ready(alloc, records, room, file, entries);
    }
    match records.read_record(alloc, room, file, &entry) {
        Ok(()) => Ok(()),
        Err(fault) => Err(fault.at(file, line.line)),
    }
}

/// Puts an entry, whose tokens stand in the text, behind the others.
fn put_entry(
    alloc: Global,
    entry: &TextEntry<'_, '_>,
    entries: &mut VecDeque<Entry>,
) -> Result<(), NoMemory>
    ensures { OnOk result (entries.new.items ≡ entries.old.items ++ entry.now ∷ []) }
{
    entries.push_back(entry.to_entry(alloc)?)?;
    Ok(())
}

/// Takes the entry in front, unless it is an `$INCLUDE`.
fn pop_plain(entries: &mut VecDeque<Entry>) -> Option<Entry>
    ensures some { IfSome result (λ entry. (entries.old.items ≡ entry ∷ entries.new.items) × (is_include entry ≡ false)) }
    ensures none { IfNone result ((entries.new.items ≡ entries.old.items) × (waits entries.old.items ≡ true)) }
{
    if has_plain(entries) {
        entries.pop_front()
    } else {
        None
    }
}

/// Whether an entry stands in front that is no `$INCLUDE`.
fn has_plain(entries: &VecDeque<Entry>) -> bool
    ensures { result ≡ not (waits entries.now.items) }
{
    match entries.front() {
        Some(entry) => !is_include(entry),
        None => false,
    }
}
