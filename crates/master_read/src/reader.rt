//! The reader.

ghost use Rattle.std.specs.Prelude.{◌≡◌, ◌≢◌, ◌+◌, ◌-◌, ◌^◌, ◌<◌, ◌≤◌, ℕ, List, [], ◌∷◌, ◌++◌, length, take, true, false, Some, Err, IfOk, IfErr, IsErr, OnOk, OnErr, MatchBool};
ghost use Rattle.dns_data.specs.Answers.{AnswersOr, with_fault};
ghost use Rattle.dns_data.specs.Name.{Labels};
ghost use Rattle.master_lex.specs.Lexer.{IsLexerOf};
ghost use Rattle.master_read.specs.Directives.{is_include};
ghost use Rattle.master_read.specs.Fault.{TellsOfText};
ghost use Rattle.master_read.specs.Reader.{IsReaderOf, GoesOn, HasEnded, HasFailed, HasReadAll, IsOpenBehind, IsReading, IsSettled, asked_by, is_over, texts_give};
ghost use Rattle.master_read.specs.Steps.{HasComeTo, IsFaultOf, OpensFile, IsPausing, MayOpen, entry_makes, fault_at};
ghost use Rattle.master_read.specs.ZoneText.{Asks, Faulty, zone_text};

use crate::asked::AfterFile;
use crate::context::Context;
use crate::directive::{Include, read_include};
use crate::fault::{EntryFault, TextCause, TextFault};
use crate::file::{File, read_line, read_ready, take_all};
use crate::records::{ReadLimits, Records};
use crate::zone_text::ZoneText;
use dns_data::{Name, NoMemory, Text};
use master_lex::{Entry, Lexer, TextToken};
use std::alloc::Global;
use std::collections::VecDeque;
use std::marker::Model;
use std::mem;

/// How many levels of included files may lie below a zone's file.
const MOST_LEVELS: u32 = 8;

/// The records of a zone's files, from octets that come in pieces. The result is the same however the octets are cut.
#[derive(Debug, Drop)]
pub struct ZoneReader {
    lexer: Lexer,
    file: File,
    around: Vec<File>,
    records: Records,
    limits: ReadLimits,
    fed: u32,
    fault: Option<TextFault>,
    ended: bool,
}

impl Model for ZoneReader {
    ghost use Rattle.master_read.specs.Reader.{Held, IsSoundReader};

    ghost Value = { Held };

    ghost view = { λ a. record { lexer = a.lexer; file = a.file; around = a.around.items; records = a.records; limits = a.limits; fed = a.fed; fault = a.fault; ended = a.ended } };

    ghost invariant = { λ a. IsSoundReader (record { lexer = a.lexer; file = a.file; around = a.around.items; records = a.records; limits = a.limits; fed = a.fed; fault = a.fault; ended = a.ended }) };
}

impl ZoneReader {
    /// The reader that was fed nothing of a zone's file. The file's names without a final dot stand below the origin,
    /// the files may have `room` record entries, and `includes` files may be included. It takes no memory.
    pub fn new(alloc: Global, origin: Name, room: u32, includes: u32) -> ZoneReader
        ensures stands { IsReaderOf result origin room includes [] [] }
        ensures fed { result.fed ≡ 0 }
        ensures open { result.ended ≡ false }
    {
        ZoneReader {
            lexer: Lexer::new(alloc),
            file: File {
                number: 0,
                levels: MOST_LEVELS,
                before: Context::new(Name::root()),
                entries: VecDeque::new(alloc),
                fault: None,
            },
            around: Vec::new(alloc),
            records: Records::new(alloc, origin),
            limits: ReadLimits { room, includes },
            fed: 0,
            fault: None,
            ended: false,
        }
    }

    /// Takes the next piece of the file that is open. After an error, which comes again at each call, the reader gives
    /// no records. After a fault of the text the rest is passed over.
    pub fn feed(&mut self, alloc: Global, piece: &[u8]) -> Result<(), NoMemory>
        requires open { self.old.ended ≡ false }
        requires short { self.old.fed + length piece.now < 2 ^ 32 - 1 }
        ensures stands { (origin : Labels) (room includes : ℕ) (ended : List (List ℕ)) (text : List ℕ) → IsReaderOf self.old origin room includes ended text
            → OnOk result (IsReaderOf self.new origin room includes ended (text ++ piece.now)) }
        ensures fed { self.new.fed ≡ self.old.fed + length piece.now }
        ensures open { self.new.ended ≡ false }
        ensures failed { OnErr result (HasFailed self.new) }
        ensures stays_failed { HasFailed self.old → IsErr result }
    {
        self.fed += piece.len() as u32;
        if let Some(fault) = self.fault {
            return unless_failed(fault);
        }
        if let Err(fault) = self.read_piece(alloc, piece) {
            self.fault = Some(fault);
            return unless_failed(fault);
        }
        Ok(())
    }

    /// Says that the file that is open has ended, and answers what comes behind it: a file that is included there, of
    /// which nothing was fed, or `Done`, where the records or their first fault are known. An error comes again at
    /// each call.
    pub fn end_file(&mut self, alloc: Global) -> Result<AfterFile, NoMemory>
        requires { self.old.ended ≡ false }
        ensures asked { (origin : Labels) (room includes : ℕ) (ended : List (List ℕ)) (text : List ℕ) → IsReaderOf self.old origin room includes ended text
            → IfOk result (λ asked. asked ≡ asked_by (zone_text origin room includes (ended ++ text ∷ []))) }
        ensures stands { (origin : Labels) (room includes : ℕ) (ended : List (List ℕ)) (text : List ℕ) → IsReaderOf self.old origin room includes ended text
            → IfOk result (λ asked. GoesOn asked self.new origin room includes (ended ++ text ∷ [])) }
        ensures open { IfOk result (λ asked. IsOpenBehind asked self.new) }
        ensures err { OnErr result (self.new.ended ≡ false) }
        ensures failed { OnErr result (HasFailed self.new) }
        ensures stays_failed { HasFailed self.old → IsErr result }
    {
        if let Some(fault) = self.fault {
            unless_failed(fault)?;
            return Ok(self.end());
        }
        match self.read_on(alloc) {
            Ok(Some(file)) => Ok(AfterFile::Include { file }),
            Ok(None) => Ok(self.end()),
            Err(fault) => {
                self.fault = Some(fault);
                unless_failed(fault)?;
                Ok(self.end())
            }
        }
    }

    /// The records of the files, or their first fault. It is `NoMemory` where a call has answered so.
    pub fn finish(self) -> Result<ZoneText, TextFault>
        requires { is_over self ≡ true }
        ensures answers { (origin : Labels) (room includes : ℕ) (texts : List (List ℕ)) → HasEnded self origin room includes texts
            → AnswersOr (Faulty TextFault.NoMemory) (with_fault Faulty result) (zone_text origin room includes texts) }
        ensures failed { HasFailed self → result ≡ Err TextFault.NoMemory }
        ensures tells { IfErr result TellsOfText }
    {
        let ZoneReader {
            lexer: _,
            file: _,
            around: _,
            records,
            limits: _,
            fed: _,
            fault,
            ended: _,
        } = self;
        match fault {
            Some(fault) => Err(fault),
            None => Ok(records.into_text()),
        }
    }
}

impl ZoneReader {
    /// Reads the next piece of the file that is open, up to an `$INCLUDE`.
    fn read_piece(&mut self, alloc: Global, piece: &[u8]) -> Result<(), TextFault>
        requires short { self.old.lexer.fed + length piece.now < 2 ^ 32 - 1 }
        requires within { self.old.lexer.fed + length piece.now ≤ self.old.fed }
        ensures read { (origin : Labels) (ended : List (List ℕ)) (text : List ℕ) → IsReading self.old origin ended text
            → OnOk result (IsReading self.new origin ended (text ++ piece.now)) }
        ensures fault { (origin : Labels) (ended : List (List ℕ)) (text : List ℕ) → IsReading self.old origin ended text
            → IfErr result (λ fault. fault ≢ TextFault.NoMemory → IsSettled fault self.old.limits origin ended (text ++ piece.now)) }
        ensures tells { IfErr result TellsOfText }
        ensures same { self.new ≡ record self.old { lexer = self.new.lexer; file = self.new.file; records = self.new.records } }
    {
        let mut tokens = Vec::new(alloc);
        let mut rest = piece;
        while !rest.is_empty() {
            let count = self.read_next(alloc, rest, &mut tokens)?;
            rest = &rest[count..];
        }
        Ok(())
    }

    /// Reads the next line of the file that is open, as far as its octets are there, and says how many these are. A plain
    /// line is read where it stands.
    fn read_next<'a>(
        &mut self,
        alloc: Global,
        octets: &'a [u8],
        tokens: &mut Vec<TextToken<'a>>,
    ) -> Result<usize, TextFault>
        requires some { 0 < length octets.now }
        requires short { self.old.lexer.fed + length octets.now < 2 ^ 32 - 1 }
        requires within { self.old.lexer.fed + length octets.now ≤ self.old.fed }
        ensures read { (origin : Labels) (ended : List (List ℕ)) (text : List ℕ) → IsReading self.old origin ended text
            → IfOk result (λ count. IsReading self.new origin ended (text ++ take count octets.now)) }
        ensures fault { (origin : Labels) (ended : List (List ℕ)) (text : List ℕ) → IsReading self.old origin ended text
            → IfErr result (λ fault. fault ≢ TextFault.NoMemory → IsSettled fault self.old.limits origin ended (text ++ octets.now)) }
        ensures tells { IfErr result TellsOfText }
        ensures some { IfOk result (λ count. 0 < count) }
        ensures within { IfOk result (λ count. count ≤ length octets.now) }
        ensures fed { IfOk result (λ count. self.new.lexer.fed ≡ self.old.lexer.fed + count) }
        ensures same { self.new ≡ record self.old { lexer = self.new.lexer; file = self.new.file; records = self.new.records } }
    {
        let Some(line) = self.lexer.pass_line(octets, tokens) else {
            let count = line_len(octets);
            self.read_part(alloc, &octets[..count])?;
            return Ok(count);
        };
        read_line(
            alloc,
            &mut self.records,
            self.limits.room,
            self.file.number,
            line,
            tokens,
            &mut self.file.entries,
        )?;
        Ok(line.octets)
    }

    /// Reads the next octets of the file that is open, up to an `$INCLUDE`.
    fn read_part(&mut self, alloc: Global, octets: &[u8]) -> Result<(), TextFault>
        requires short { self.old.lexer.fed + length octets.now < 2 ^ 32 - 1 }
        requires within { self.old.lexer.fed + length octets.now ≤ self.old.fed }
        ensures read { (origin : Labels) (ended : List (List ℕ)) (text : List ℕ) → IsReading self.old origin ended text
            → OnOk result (IsReading self.new origin ended (text ++ octets.now)) }
        ensures fault { (origin : Labels) (ended : List (List ℕ)) (text : List ℕ) → IsReading self.old origin ended text
            → IfErr result (λ fault. fault ≢ TextFault.NoMemory → IsSettled fault self.old.limits origin ended (text ++ octets.now)) }
        ensures tells { IfErr result TellsOfText }
        ensures fed { OnOk result (self.new.lexer.fed ≡ self.old.lexer.fed + length octets.now) }
        ensures same { self.new ≡ record self.old { lexer = self.new.lexer; file = self.new.file; records = self.new.records } }
    {
        self.lexer.feed(alloc, octets)?;
        take_all(alloc, &mut self.lexer, &mut self.file.entries)?;
        read_ready(
            alloc,
            &mut self.records,
            self.limits.room,
            self.file.number,
            &mut self.file.entries,
        )?;
        Ok(())
    }

    /// Reads on where the file that is open has ended, and answers the file that is included there, or `None` where
    /// all is read.
    fn read_on(&mut self, alloc: Global) -> Result<Option<Text>, TextFault>
        ensures asked { (origin : Labels) (ended : List (List ℕ)) (text : List ℕ) → IsReading self.old origin ended text
            → IfOk result (λ file. HasComeTo file self.new origin (ended ++ text ∷ [])) }
        ensures fault { (origin : Labels) (ended : List (List ℕ)) (text : List ℕ) → IsReading self.old origin ended text
            → IfErr result (λ fault. fault ≢ TextFault.NoMemory → texts_give self.old.limits origin (ended ++ text ∷ []) ≡ Err (Faulty fault)) }
        ensures tells { IfErr result TellsOfText }
        ensures fed { OnOk result (self.new.fed ≡ 0) }
        ensures limits { self.new.limits ≡ self.old.limits }
        ensures fault_stays { self.new.fault ≡ self.old.fault }
        ensures ended { self.new.ended ≡ self.old.ended }
    {
        self.end_lexer(alloc)?;
        self.read_files(alloc)
    }

    /// Takes all that the lexer of the file that is open has to give, and its fault.
    fn end_lexer(&mut self, alloc: Global) -> Result<(), NoMemory>
        ensures pauses { (origin : Labels) (ended : List (List ℕ)) (text : List ℕ) → IsReading self.old origin ended text
            → OnOk result (IsPausing self.new origin (ended ++ text ∷ []) self.new.file.entries.items) }
        ensures fed { self.new.fed ≡ 0 }
        ensures lexer { IsLexerOf self.new.lexer [] [] }
        ensures same { self.new ≡ record self.old { lexer = self.new.lexer; file = self.new.file; fed = 0 } }
    {
        let mut lexer = mem::replace(&mut self.lexer, Lexer::new(alloc));
        lexer.finish();
        self.fed = 0;
        self.file.fault = take_all(alloc, &mut lexer, &mut self.file.entries)?;
        Ok(())
    }

    /// Reads what is left of the files, from the inmost one on, up to an `$INCLUDE`, and answers the file that is
    /// included there, or `None` where all is read.
    fn read_files(&mut self, alloc: Global) -> Result<Option<Text>, TextFault>
        requires { IsLexerOf self.old.lexer [] [] }
        ensures asked { (origin : Labels) (texts : List (List ℕ)) → IsPausing self.old origin texts self.old.file.entries.items
            → IfOk result (λ file. HasComeTo file self.new origin texts) }
        ensures fault { (origin : Labels) (texts : List (List ℕ)) → IsPausing self.old origin texts self.old.file.entries.items
            → IfErr result (λ fault. fault ≢ TextFault.NoMemory → texts_give self.old.limits origin texts ≡ Err (Faulty fault)) }
        ensures tells { IfErr result TellsOfText }
        ensures same { self.new ≡ record self.old { file = self.new.file; around = self.new.around; records = self.new.records } }
    {
        loop {
            read_ready(
                alloc,
                &mut self.records,
                self.limits.room,
                self.file.number,
                &mut self.file.entries,
            )?;
            if let Some(entry) = self.file.entries.pop_front() {
                return Ok(Some(self.include(alloc, &entry)?));
            }
            if !self.leave()? {
                return Ok(None);
            }
        }
    }

    /// Leaves the inmost file, of which no entry is left, and answers whether there is one around it.
    fn leave(&mut self) -> Result<bool, TextFault>
        requires { self.old.file.entries.items ≡ [] }
        ensures more { (origin : Labels) (texts : List (List ℕ)) → IsPausing self.old origin texts []
            → IfOk result (λ more. MatchBool more (IsPausing self.new origin texts self.new.file.entries.items) (HasReadAll self.new origin texts)) }
        ensures fault { (origin : Labels) (texts : List (List ℕ)) → IsPausing self.old origin texts []
            → IfErr result (λ fault. texts_give self.old.limits origin texts ≡ Err (Faulty fault)) }
        ensures fewer { IfOk result (λ more. more ≡ true → length self.new.around < length self.old.around) }
        ensures tells { IfErr result TellsOfText }
        ensures same { self.new ≡ record self.old { file = self.new.file; around = self.new.around; records = self.new.records } }
    {
        if let Some(fault) = self.file.fault {
            return Err(TextFault::of_spelling(self.file.number, fault));
        }
        let Some(file) = self.around.pop() else {
            return Ok(false);
        };
        let ended = mem::replace(&mut self.file, file);
        self.records.leave(ended.before);
        Ok(true)
    }

    /// Opens the file that an `$INCLUDE` of the inmost file names, and answers its name. A fault has the entry's line.
    fn include(&mut self, alloc: Global, entry: &Entry) -> Result<Text, TextFault>
        requires include { is_include entry.now ≡ true }
        requires lexer { IsLexerOf self.old.lexer [] [] }
        ensures asked { (origin : Labels) (texts : List (List ℕ)) → IsPausing self.old origin texts (entry.now ∷ self.old.file.entries.items)
            → IfOk result (λ file. (texts_give self.old.limits origin texts ≡ Err (Asks file)) × IsReading self.new origin texts []) }
        ensures fault { (origin : Labels) (texts : List (List ℕ)) → IsPausing self.old origin texts (entry.now ∷ self.old.file.entries.items)
            → IfErr result (λ fault. fault ≢ TextFault.NoMemory → texts_give self.old.limits origin texts ≡ Err (Faulty fault)) }
        ensures tells { IfErr result TellsOfText }
        ensures same { self.new ≡ record self.old { file = self.new.file; around = self.new.around; records = self.new.records } }
    {
        match self.read_ask(alloc, entry) {
            Ok(include) => Ok(self.open(alloc, include)?),
            Err(fault) => Err(fault.at(self.file.number, entry.line)),
        }
    }

    /// What an `$INCLUDE` of the inmost file asks for, where a file more may be included below it.
    fn read_ask(&self, alloc: Global, entry: &Entry) -> Result<Include, EntryFault>
        requires { is_include entry.now ≡ true }
        ensures ok { IfOk result (λ include. MayOpen self.now entry.now include.file include.origin) }
        ensures fault { IfErr result (λ fault. (texts : List (List ℕ)) → IsFaultOf (fault_at self.now.file.number entry.now.line fault) (entry_makes self.now entry.now texts)) }
    {
        let include = read_include(alloc, &self.records.context, entry.tokens.items())?;
        if self.file.levels == 0 {
            return Err(EntryFault::Cause(TextCause::IncludeDepth));
        }
        if self.limits.includes <= self.records.included {
            return Err(EntryFault::Cause(TextCause::TooManyIncludes));
        }
        Ok(include)
    }

    /// Opens a file, of which nothing was read, and answers its name.
    fn open(&mut self, alloc: Global, include: Include) -> Result<Text, NoMemory>
        requires levels { 0 < self.old.file.levels }
        requires room { self.old.records.included < self.old.limits.includes }
        ensures name { IfOk result (λ file. file ≡ include.file) }
        ensures opens { OnOk result (OpensFile include.origin self.old self.new) }
        ensures same { self.new ≡ record self.old { file = self.new.file; around = self.new.around; records = self.new.records } }
    {
        let before = self.records.enter(alloc, include.origin)?;
        let inner = File {
            number: self.records.included,
            levels: self.file.levels - 1,
            before,
            entries: VecDeque::new(alloc),
            fault: None,
        };
        if self
            .around
            .push(mem::replace(&mut self.file, inner))
            .is_err()
        {
            return Err(NoMemory);
        }
        Ok(include.file)
    }

    /// Says that all has ended.
    fn end(&mut self) -> AfterFile
        ensures done { result ≡ AfterFile.Done }
        ensures ended { self.new ≡ record self.old { ended = true } }
    {
        self.ended = true;
        AfterFile::Done
    }
}

/// How many octets stand in front up to the first line feed, with it, or all.
fn line_len(octets: &[u8]) -> usize
    ensures within { result ≤ length octets.now }
    ensures some { 0 < length octets.now → 0 < result }
{
    match octets.iter().position(|octet| *octet == b'\n') {
        Some(place) => place + 1,
        None => octets.len(),
    }
}

/// Whether more may be read after this fault: `NoMemory` comes again, and any other is kept for the end.
fn unless_failed(fault: TextFault) -> Result<(), NoMemory>
    ensures ok { OnOk result (fault ≢ TextFault.NoMemory) }
    ensures err { OnErr result (fault ≡ TextFault.NoMemory) }
    ensures failed { fault ≡ TextFault.NoMemory → IsErr result }
{
    match fault {
        TextFault::At { .. } => Ok(()),
        TextFault::NoMemory => Err(NoMemory),
    }
}
