//! The query and the type of an entry.

ghost use Rattle.std.specs.Prelude.{◌≡◌, codes, IfOk, MatchOption, Some};
ghost use Rattle.dns_data.specs.Name.{IsName, Labels};
ghost use Rattle.dns_data.specs.RrType.{word_of};
ghost use Rattle.dns_data.specs.Spelling.{name_text};
ghost use Rattle.dns_data.specs.declared.rr_type.RrType.{RrType as TypeValue};
ghost use Rattle.report_json.specs.Json.{name_value};
ghost use Rattle.serde_json.specs.Data.{string};
ghost use Rattle.serde_json.specs.Find.{get};
ghost use Rattle.serde_json.specs.View.{view};
ghost use Rattle.report_check.specs.RightEntries.{NamesQuery};

use dns_data::{Name, NameFault, NoMemory, RrType};
use meta_read::text_at;
use serde_json::Value;
use std::alloc::Global;

/// A query and its type.
#[derive(Debug, Drop)]
pub(crate) struct EntryQuery {
    pub query: Name,
    pub rtype: RrType,
}

/// The query and the type that the value of an entry names, or `None` where it names none.
pub(crate) fn asked_in(alloc: Global, value: &Value) -> Result<Option<EntryQuery>, NoMemory>
    ensures { IfOk result (λ found. MatchOption found ((query : Labels) (rtype : TypeValue) → NamesQuery (view value.now) query rtype → ⊥)
        (λ asked. NamesQuery (view value.now) asked.query asked.rtype)) }
{
    let Some(rtype) = type_in(value) else {
        return Ok(None);
    };
    match query_in(alloc, value)? {
        Some(query) => Ok(Some(EntryQuery { query, rtype })),
        None => Ok(None),
    }
}

/// The type whose word stands at `type`.
fn type_in(value: &Value) -> Option<RrType>
    ensures { MatchOption result ((rtype : TypeValue) → get (codes "type") (view value.now) ≡ Some (string (word_of rtype)) → ⊥)
        (λ rtype. get (codes "type") (view value.now) ≡ Some (string (word_of rtype))) }
{
    match text_at(value, "type") {
        Some(word) => type_of(word),
        None => None,
    }
}

/// The type with this word, in upper case.
fn type_of(word: &str) -> Option<RrType>
    ensures { MatchOption result ((rtype : TypeValue) → word.now ≡ word_of rtype → ⊥) (λ rtype. word.now ≡ word_of rtype) }
{
    let rtype = RrType::from_word(word.as_bytes())?;
    if rtype.word() == word {
        Some(rtype)
    } else {
        None
    }
}

/// The name whose text stands at `query`.
fn query_in(alloc: Global, value: &Value) -> Result<Option<Name>, NoMemory>
    ensures { IfOk result (λ found. MatchOption found ((name : Labels) → IsName name → get (codes "query") (view value.now) ≡ Some (name_value name) → ⊥)
        (λ name. IsName name × (get (codes "query") (view value.now) ≡ Some (name_value name)))) }
{
    match text_at(value, "query") {
        Some(text) => name_of(alloc, text),
        None => Ok(None),
    }
}

/// The name that has this text. Another text of the same name has none.
fn name_of(alloc: Global, text: &str) -> Result<Option<Name>, NoMemory>
    ensures { IfOk result (λ found. MatchOption found ((name : Labels) → IsName name → text.now ≡ name_text name → ⊥)
        (λ name. IsName name × (text.now ≡ name_text name))) }
{
    match Name::from_text(alloc, text.as_bytes(), &Name::root()) {
        Ok(name) => if_its_own(alloc, name, text),
        Err(fault) => match fault {
            NameFault::NoMemory => Err(NoMemory),
            _ => Ok(None),
        },
    }
}

/// The name, if this is its text.
fn if_its_own(alloc: Global, name: Name, text: &str) -> Result<Option<Name>, NoMemory>
    ensures { IfOk result (λ found. MatchOption found (text.now ≡ name_text name → ⊥) (λ own. (own ≡ name) × IsName name × (text.now ≡ name_text name))) }
{
    let own = name.to_text(alloc)?;
    if own.as_str() == text {
        Ok(Some(name))
    } else {
        Ok(None)
    }
}
