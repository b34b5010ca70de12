//! Passing over plain octets at once: those that begin a token or only go on with what is under way.

ghost use Rattle.std.specs.Prelude.{◌≡◌, ◌≤◌, length, not, OnErr, IfOk};
ghost use Rattle.std.specs.List.{prefix_len};
ghost use Rattle.master_lex.specs.declared.position.Mode.TheVariants.{Start, Between};
ghost use Rattle.master_lex.specs.Octets.{kind, is_blank, is_feed, stands};
ghost use Rattle.master_lex.specs.States.{state_of};
ghost use Rattle.master_lex.specs.Plain.{KeptPlain, PassedFirst};

use crate::octet::{is_blank_octet, is_feed_octet, is_plain_in_quotes, is_plain_in_word};
use crate::position::{Escape, Mode};
use crate::scanner::{MOST, Scanner};
use dns_data::NoMemory;
use std::alloc::Global;

/// How many octets in front stand for themselves in a token, in quotes or outside.
pub(crate) fn token_len(octets: &[u8], quoted: bool) -> usize
    ensures len { result ≡ prefix_len (λ octet. stands quoted (kind octet)) octets.now }
    ensures within { result ≤ length octets.now }
{
    let octets = octets.iter();
    if quoted {
        octets
            .take_while(|octet| is_plain_in_quotes(**octet))
            .count()
    } else {
        octets.take_while(|octet| is_plain_in_word(**octet)).count()
    }
}

/// How many octets in front are white space.
pub(crate) fn blank_len(octets: &[u8]) -> usize
    ensures len { result ≡ prefix_len (λ octet. is_blank (kind octet)) octets.now }
    ensures within { result ≤ length octets.now }
{
    octets
        .iter()
        .take_while(|octet| is_blank_octet(**octet))
        .count()
}

/// How many octets stand before the line's end.
pub(crate) fn line_len(octets: &[u8]) -> usize
    ensures { result ≡ prefix_len (λ octet. not (is_feed (kind octet))) octets.now }
{
    octets
        .iter()
        .take_while(|octet| !is_feed_octet(**octet))
        .count()
}

impl Scanner {
    /// Puts the octets in front that stand for themselves into a token, which they may begin, as
    /// many as it has room for, and says how many these are. After an error nothing has changed.
    fn keep_plain(&mut self, alloc: Global, octets: &[u8], quoted: bool) -> Result<usize, NoMemory>
        ensures ok { IfOk result (KeptPlain (state_of self.old) (state_of self.new) octets.now quoted) }
        ensures err { OnErr result (state_of self.new ≡ state_of self.old) }
    {
        let room = MOST.saturating_sub(self.raw.len());
        let count = token_len(octets, quoted).min(room);
        if count == 0 {
            return Ok(0);
        }
        self.raw.extend_from_slice(alloc, &octets[..count])?;
        self.position.mode = Mode::InToken {
            quoted,
            escape: Escape::Outside,
        };
        Ok(count)
    }

    /// Passes over the plain octets with which an entry begins, and says how many these are. After an error nothing has
    /// changed.
    fn begin_entry(&mut self, alloc: Global, octets: &[u8]) -> Result<usize, NoMemory>
        requires { self.old.position.mode ≡ Start }
        ensures ok { IfOk result (PassedFirst (state_of self.old) (state_of self.new) octets.now) }
        ensures err { OnErr result (state_of self.new ≡ state_of self.old) }
    {
        let count = self.keep_plain(alloc, octets, false)?;
        if count > 0 {
            self.position.blank_start = false;
        }
        Ok(count)
    }

    /// Passes over white space and the plain octets with which a token begins behind it, and says how many they are.
    /// After an error nothing has changed.
    fn begin_word(&mut self, alloc: Global, octets: &[u8]) -> Result<usize, NoMemory>
        requires { self.old.position.mode ≡ Between }
        ensures ok { IfOk result (PassedFirst (state_of self.old) (state_of self.new) octets.now) }
        ensures err { OnErr result (state_of self.new ≡ state_of self.old) }
    {
        let blank = blank_len(octets);
        let count = self.keep_plain(alloc, &octets[blank..], false)?;
        Ok(blank + count)
    }

    /// Passes over the octets in front that begin a token or only go on with what is under way, as far as the token has
    /// room for them, and says how many they are, which may be none. After an error nothing has changed.
    pub(crate) fn pass_plain(&mut self, alloc: Global, octets: &[u8]) -> Result<usize, NoMemory>
        ensures ok { IfOk result (PassedFirst (state_of self.old) (state_of self.new) octets.now) }
        ensures err { OnErr result (state_of self.new ≡ state_of self.old) }
    {
        match self.position.mode {
            Mode::Start => self.begin_entry(alloc, octets),
            Mode::Between => self.begin_word(alloc, octets),
            Mode::InToken {
                quoted,
                escape: Escape::Outside,
            } => self.keep_plain(alloc, octets, quoted),
            Mode::InToken { .. } => Ok(0),
            Mode::Comment => Ok(line_len(octets)),
            Mode::Faulty(_) => Ok(octets.len()),
        }
    }
}
