//! What was read of texts so far.

ghost use Rattle.std.specs.Prelude.{◌≡◌, ◌+◌, ◌^◌, ◌<◌, false, Ok, Err, IfOk, IfErr, OnOk};
ghost use Rattle.dns_data.specs.Answers.{AnswersOr, with_fault};
ghost use Rattle.master_read.specs.Context.{no_context, under, back_at};
ghost use Rattle.master_read.specs.Directives.{is_directive, is_include};
ghost use Rattle.master_read.specs.ZoneText.{Leaves, no_records, effect_of, with_made, zone_text_of};

use crate::context::Context;
use crate::directive::{is_directive, read_directive};
use crate::fault::{EntryFault, TextCause};
use crate::rr::read_record;
use crate::zone_text::ZoneText;
use dns_data::{List, Name, NoMemory, Rr};
use master_lex::{Entry, TextEntry, tokens_in_text};
use std::alloc::Global;
use std::mem;

/// How much may be read.
#[derive(Clone, Copy, Debug)]
pub(crate) struct ReadLimits {
    /// How many record entries.
    pub room: u32,
    /// How many files may be included.
    pub includes: u32,
}

/// The records of the entries so far, and the context behind them.
#[derive(Debug, Drop)]
pub(crate) struct Records {
    /// What the entries leave for the next one.
    pub context: Context,
    /// The records in order.
    pub rrs: List<Rr>,
    /// How many record entries there were, those that are dropped among them.
    pub seen: u32,
    /// How many files were included.
    pub included: u32,
}

impl Records {
    /// Nothing was read, and names stand below an origin.
    pub(crate) fn new(alloc: Global, origin: Name) -> Records
        ensures { result ≡ record no_records { context = under origin no_context } }
    {
        Records {
            context: Context::new(origin),
            rrs: List::new(alloc),
            seen: 0,
            included: 0,
        }
    }

    /// Reads one entry more of the file of this number, which is no `$INCLUDE`.
    #[tactic(auto, unfolding(crate::specs::ZoneText::effect_of))]
    pub(crate) fn read(
        &mut self,
        alloc: Global,
        room: u32,
        file: u32,
        entry: &Entry,
    ) -> Result<(), EntryFault>
        requires { is_include entry.now ≡ false }
        ensures ok { OnOk result (effect_of room file self.old entry.now ≡ Ok (Leaves self.new)) }
        ensures fault { IfErr result (λ fault. AnswersOr EntryFault.NoMemory (Err fault) (with_fault EntryFault.Cause (effect_of room file self.old entry.now))) }
    {
        if is_directive(entry) {
            return read_directive(alloc, &mut self.context, entry.tokens.items());
        }
        let tokens = tokens_in_text(alloc, entry.tokens.items())?;
        let entry = TextEntry::new(entry.line, entry.blank_start, &tokens);
        self.read_record(alloc, room, file, &entry)
    }

    /// Reads one entry more of the file of this number, which is no directive.
    #[tactic(auto, unfolding(crate::specs::ZoneText::effect_of))]
    pub(crate) fn read_record(
        &mut self,
        alloc: Global,
        room: u32,
        file: u32,
        entry: &TextEntry<'_, '_>,
    ) -> Result<(), EntryFault>
        requires { is_directive entry.now ≡ false }
        ensures ok { OnOk result (effect_of room file self.old entry.now ≡ Ok (Leaves self.new)) }
        ensures fault { IfErr result (λ fault. AnswersOr EntryFault.NoMemory (Err fault) (with_fault EntryFault.Cause (effect_of room file self.old entry.now))) }
    {
        let rr = read_record(alloc, &mut self.context, file, entry)?;
        self.keep(room, rr)
    }

    /// Counts a record entry, and keeps its record, if it has one.
    fn keep(&mut self, room: u32, rr: Option<Rr>) -> Result<(), EntryFault>
        ensures ok { OnOk result (with_made room self.old (record { context = self.old.context; rr = rr }) ≡ Ok self.new) }
        ensures fault { IfErr result (λ fault. AnswersOr EntryFault.NoMemory (Err fault) (with_fault EntryFault.Cause (with_made room self.old (record { context = self.old.context; rr = rr })))) }
    {
        if room <= self.seen {
            return Err(EntryFault::Cause(TextCause::TooMany));
        }
        self.seen += 1;
        match rr {
            Some(rr) => Ok(self.rrs.push(rr)?),
            None => Ok(()),
        }
    }

    /// Begins a file more, which is included, under this origin, and gives the context before it.
    pub(crate) fn enter(&mut self, alloc: Global, origin: Name) -> Result<Context, NoMemory>
        requires { self.old.included + 1 < 2 ^ 32 }
        ensures before { IfOk result (λ before. before ≡ self.old.context) }
        ensures ok { OnOk result (self.new ≡ record self.old { context = under origin self.old.context; included = self.old.included + 1 }) }
    {
        let inner = self.context.under(alloc, origin)?;
        self.included += 1;
        Ok(mem::replace(&mut self.context, inner))
    }

    /// Ends a file that had this context before it: the origin and the last owner are again those before it.
    pub(crate) fn leave(&mut self, before: Context)
        ensures { self.new ≡ record self.old { context = back_at before self.old.context } }
    {
        self.context.origin = before.origin;
        self.context.owner = before.owner;
    }

    /// The records, and how many entries and files there were.
    pub(crate) fn into_text(self) -> ZoneText
        ensures { result ≡ zone_text_of self }
    {
        let Records {
            context: _,
            rrs,
            seen,
            included,
        } = self;
        ZoneText {
            rrs,
            seen,
            included,
        }
    }
}
