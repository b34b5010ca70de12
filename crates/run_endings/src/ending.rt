//! How a run ends, before anything is written.

ghost use Rattle.std.specs.Prelude.{◌≡◌, ◌⊎◌, ◌++◌, ℕ, List, codes, decimal, IfOk};
ghost use Rattle.std.specs.List.{flat_map};
ghost use Rattle.dns_data.specs.Spelling.{name_text};
ghost use Rattle.config_load.specs.Refusal.{fields_line};
ghost use Rattle.config_load.specs.FileName.{shown_file};
ghost use Rattle.run_endings.specs.Endings as endings;
ghost use Rattle.run_endings.specs.Ends.{IsNotLoaded};

use crate::line::EndingLine;
use crate::status::Status;
use crate::text::OutText;
use config_load::{LoadFault, shown_file};
use dns_data::{List, Name, NoMemory, Octets, Text};
use itoa::Buffer;
use std::alloc::Global;

/// How a run ends: its status, the text for out, and the line for err.
#[derive(Debug, Drop)]
pub struct Ending {
    pub status: Status,
    pub out: OutText,
    pub err: EndingLine,
}

impl Ending {
    /// A text for out and no line, unless memory ran out for the text.
    pub fn written(status: Status, text: Result<Octets, NoMemory>) -> Ending
        ensures { (said : List ℕ) → IfOk text (λ out. out ≡ said) → (result ≡ endings.with_output status said) ⊎ (result ≡ endings.no_memory) }
    {
        match text {
            Ok(out) => Ending::with_output(status, OutText::whole(out)),
            Err(NoMemory) => Ending::no_memory(),
        }
    }

    /// A text of pieces for out and no line, unless memory ran out for the text.
    pub fn in_pieces(status: Status, pieces: Result<List<Octets>, NoMemory>) -> Ending
        ensures { (said : List ℕ) → IfOk pieces (λ out. flat_map (λ piece. piece) out ≡ said) → (result ≡ endings.with_output status said) ⊎ (result ≡ endings.no_memory) }
    {
        match pieces {
            Ok(pieces) => Ending::with_output(status, OutText::of_pieces(pieces)),
            Err(NoMemory) => Ending::no_memory(),
        }
    }

    /// A text for out and no line.
    fn with_output(status: Status, out: OutText) -> Ending
        ensures { result ≡ endings.with_output status out }
    {
        Ending {
            status,
            out,
            err: EndingLine::fixed(""),
        }
    }

    /// A line for err and no text for out.
    pub fn without_output(status: Status, err: EndingLine) -> Ending
        ensures { result ≡ endings.without_output status err }
    {
        Ending {
            status,
            out: OutText::none(),
            err,
        }
    }

    /// The words ask for nothing that the program does. The line says what it does.
    pub fn usage(line: &'static str) -> Ending
        ensures { result ≡ endings.without_output Status.Usage line.now }
    {
        Ending::without_output(Status::Usage, EndingLine::fixed(line))
    }

    /// Memory ran out.
    pub fn no_memory() -> Ending
        ensures { result ≡ endings.no_memory }
    {
        Ending::without_output(Status::NoMemory, EndingLine::fixed("no memory\n"))
    }

    /// A run over the files of this metadata file that aren't loaded.
    pub fn not_loaded(alloc: Global, meta: &str, fault: LoadFault) -> Ending
        ensures { IsNotLoaded meta.now fault result ⊎ (result ≡ endings.no_memory) }
    {
        match fault {
            LoadFault::Read { file } => read_failed(alloc, file),
            LoadFault::NoMemory => Ending::no_memory(),
            fault => refused(alloc, meta, &fault),
        }
    }

    /// The class tree has more names than this limit.
    pub fn too_many_names(alloc: Global, limit: u32) -> Ending
        ensures { (result ≡ endings.too_many_names limit) ⊎ (result ≡ endings.no_memory) }
    {
        match more_than(alloc, b"classes: more than ", limit) {
            Ok(line) => Ending::without_output(Status::Classes, line),
            Err(NoMemory) => Ending::no_memory(),
        }
    }

    /// The query reaches more pairs of state and type than this limit.
    pub fn too_many_states(alloc: Global, limit: u32, query: &Name) -> Ending
        ensures { (result ≡ endings.too_many_states limit query.now) ⊎ (result ≡ endings.no_memory) }
    {
        match more_than_for(alloc, b"states: more than ", limit, query) {
            Ok(line) => Ending::without_output(Status::States, line),
            Err(NoMemory) => Ending::no_memory(),
        }
    }

    /// The server's name has more walks than this limit, up to which they are followed to learn its address.
    pub fn too_many_to_learn(alloc: Global, limit: u32, server: &Name) -> Ending
        ensures { (result ≡ endings.too_many_to_learn limit server.now) ⊎ (result ≡ endings.no_memory) }
    {
        match more_than_for(alloc, b"walks: more than ", limit, server) {
            Ok(line) => Ending::without_output(Status::Walks, line),
            Err(NoMemory) => Ending::no_memory(),
        }
    }
}

impl From<NoMemory> for Ending {
    ghost from_gives = { λ _ ending. ending ≡ endings.no_memory };

    fn from(_fault: NoMemory) -> Ending {
        Ending::no_memory()
    }
}

/// A file could not be read.
fn read_failed(alloc: Global, file: Text) -> Ending
    ensures { (result ≡ endings.read_failed file) ⊎ (result ≡ endings.no_memory) }
{
    match failed_line(alloc, file.as_str()) {
        Ok(line) => Ending::without_output(Status::ReadFault(file), line),
        Err(NoMemory) => Ending::no_memory(),
    }
}

/// The line that says that a file could not be read.
fn failed_line(alloc: Global, file: &str) -> Result<EndingLine, NoMemory>
    ensures { IfOk result (λ line. line ≡ shown_file file.now ++ codes ": read failed\n") }
{
    let file = shown_file(alloc, file)?;
    EndingLine::of_pieces(alloc, &[file.items(), b": read failed\n"])
}

/// The files of this metadata file are refused.
fn refused(alloc: Global, meta: &str, fault: &LoadFault) -> Ending
    ensures { (result ≡ endings.refused meta.now fault.now) ⊎ (result ≡ endings.no_memory) }
{
    match refusal_line(alloc, fault.file(meta), fault.line(), fault.code()) {
        Ok(line) => Ending::without_output(Status::Refused, line),
        Err(NoMemory) => Ending::no_memory(),
    }
}

/// The line that says what there is more of than a limit: what stands in front, the limit in digits, and a line feed. An
/// error means that memory ran out.
pub fn more_than<'a>(alloc: Global, front: &'a [u8], limit: u32) -> Result<EndingLine, NoMemory>
    ensures { IfOk result (λ line. line ≡ front.now ++ (decimal limit ++ codes "\n")) }
{
    let mut digits = Buffer::new();
    EndingLine::of_pieces(alloc, &[front, digits.format(limit).as_bytes(), b"\n"])
}

/// The line that says what there is more of than a limit for this name: what stands in front, the limit in digits, `for`,
/// the name's text, and a line feed. An error means that memory ran out.
fn more_than_for<'a>(
    alloc: Global,
    front: &'a [u8],
    limit: u32,
    name: &Name,
) -> Result<EndingLine, NoMemory>
    ensures { IfOk result (λ line. line ≡ front.now ++ (decimal limit ++ (codes " for " ++ (name_text name.now ++ codes "\n")))) }
{
    let mut digits = Buffer::new();
    let name = name.to_text(alloc)?;
    EndingLine::of_pieces(
        alloc,
        &[
            front,
            digits.format(limit).as_bytes(),
            b" for ",
            name.as_str().as_bytes(),
            b"\n",
        ],
    )
}

/// The line of a refusal: the file, a line in it, counted from 1 or 0 for the file as a whole, and the refusal's code. An
/// error means that memory ran out.
pub fn refusal_line<'a>(
    alloc: Global,
    file: &'a str,
    line: u32,
    code: &'a str,
) -> Result<EndingLine, NoMemory>
    ensures { IfOk result (λ told. told ≡ fields_line file.now (decimal line) code.now) }
{
    let mut digits = Buffer::new();
    fields_line_of(alloc, file, digits.format(line), code)
}

/// A file, a line in it and a code, as a refusal's line.
fn fields_line_of<'a>(
    alloc: Global,
    file: &'a str,
    line: &'a str,
    code: &'a str,
) -> Result<EndingLine, NoMemory>
    ensures { IfOk result (λ told. told ≡ fields_line file.now line.now code.now) }
{
    let file = shown_file(alloc, file)?;
    EndingLine::of_pieces(
        alloc,
        &[
            file.items(),
            b":",
            line.as_bytes(),
            b": ",
            code.as_bytes(),
            b"\n",
        ],
    )
}
