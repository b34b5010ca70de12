//! The lines of the names of name servers.

ghost use Rattle.std.specs.Prelude.{◌≡◌, ◌++◌, ◌∷◌, [], false, map, IfOk, OnOk};
ghost use Rattle.std.specs.List.{flat_map};
ghost use Rattle.dns_data.specs.DataText.{separated};
ghost use Rattle.dns_data.specs.Name.{name_cmp};
ghost use Rattle.net_model.specs.Nearest.{is_configured};
ghost use Rattle.net_model.specs.Order.{in_order};
ghost use Rattle.name_ends.specs.Asked.{ends_in};
ghost use Rattle.map_run.specs.Columns.{tab};
ghost use Rattle.map_run.specs.NameLists.{Lists, listed_at};
ghost use Rattle.map_run.specs.Servers.{first_place, is_at, names_server, owner_count, owner_if, owners_of, server_columns, server_counts, server_line, server_text, server_word, servers_of, word_line};

use crate::columns::{put_name, put_number, put_tab};
use crate::lines::Line;
use crate::name_key::NameKey;
use crate::name_lists::{list_at, listed_at};
use crate::namings::{Naming, namings_of};
use config_load::RowFiles;
use dns_data::{List, Name, NoMemory, Octets};
use name_ends::{Asker, NameEnds};
use net_model::Server;
use std::alloc::Global;
use std::collections::{BTreeSet, HashMap};

/// The word of a name server's name.
#[derive(Clone, Copy, Debug)]
pub(crate) enum ServerWord {
    /// Nothing names it.
    Unnamed,
    /// No query finds an address of it.
    Dead,
    /// It is configured.
    Named,
    /// It isn't configured, though a query finds an address of it.
    NoRow,
    /// It is served elsewhere.
    Elsewhere,
}

/// The lines of the names of name servers, in the order of names.
pub(crate) fn servers_of(
    alloc: Global,
    asker: &mut Asker<'_, '_>,
    rows: &[RowFiles],
) -> Result<List<Line>, NoMemory>
    ensures { IfOk result (λ lines. lines ≡ servers_of (record { config = asker.old.config; rows = rows.now }) (ends_in asker.old)) }
{
    let hosts = asker.hosts();
    let namings = namings_of(alloc, hosts, rows)?;
    let names = listed_names(alloc, namings.items(), hosts.config().servers())?;
    let named = by_server(alloc, namings.items())?;
    lines_of(alloc, asker, &named, names.as_slice())
}

/// The names that are listed, in order: those of name servers, and those of the servers.
fn listed_names(
    alloc: Global,
    namings: &[Naming<'_, '_>],
    servers: &[Server],
) -> Result<Vec<Name>, NoMemory>
    ensures { IfOk result (λ names. names.items ≡ in_order name_cmp (map (λ naming. naming.server) namings.now ++ map (λ server. server.name) servers.now)) }
{
    let mut names = List::new(alloc);
    put_named(&mut names, namings)?;
    put_server_names(&mut names, servers)?;
    names_in_order(alloc, names.items())
}

/// Puts the names of name servers at the end.
fn put_named<'a>(names: &mut List<&'a Name>, namings: &[Naming<'a, '_>]) -> Result<(), NoMemory>
    ensures { OnOk result (map (λ name. name.now) names.new ≡ map (λ name. name.now) names.old ++ map (λ naming. naming.server) namings.now) }
{
    for naming in namings {
        names.push(naming.server())?;
    }
    Ok(())
}

/// Puts the names of servers at the end.
fn put_server_names<'a>(names: &mut List<&'a Name>, servers: &'a [Server]) -> Result<(), NoMemory>
    ensures { OnOk result (map (λ name. name.now) names.new ≡ map (λ name. name.now) names.old ++ map (λ server. server.name) servers.now) }
{
    for server in servers {
        names.push(&server.name)?;
    }
    Ok(())
}

/// What names each name server, in the order in which it was read.
fn by_server<'n, 'a, 'r>(
    alloc: Global,
    namings: &'n [Naming<'a, 'r>],
) -> Result<HashMap<NameKey, List<&'n Naming<'a, 'r>>>, NoMemory>
    ensures { IfOk result (Lists names_server namings.now) }
{
    let mut lists = HashMap::new(alloc);
    for naming in namings {
        list_at(alloc, &mut lists, naming.server(), naming)?;
    }
    Ok(lists)
}

/// The names in order, each once.
fn names_in_order(alloc: Global, names: &[&Name]) -> Result<Vec<Name>, NoMemory>
    ensures { IfOk result (λ ordered. ordered.items ≡ in_order name_cmp (map (λ name. name.now) names.now)) }
{
    let set = name_set(alloc, names)?;
    let ordered: Vec<Name> = set.into_iter().collect(alloc)?;
    Ok(ordered)
}

/// The set of the names. The last are looked at first.
fn name_set(alloc: Global, names: &[&Name]) -> Result<BTreeSet<Name>, NoMemory>
    ensures { IfOk result (λ set. set.keys ≡ in_order name_cmp (map (λ name. name.now) names.now)) }
{
    let mut set = BTreeSet::new(alloc);
    let mut left = names.len();
    while left > 0 {
        left -= 1;
        set.insert(names[left].copy(alloc)?)?;
    }
    Ok(set)
}

/// The lines of names, by what names each of them.
fn lines_of(
    alloc: Global,
    asker: &mut Asker<'_, '_>,
    named: &HashMap<NameKey, List<&Naming<'_, '_>>>,
    names: &[Name],
) -> Result<List<Line>, NoMemory>
    ensures { IfOk result (λ lines. lines ≡ map (λ name. server_line (ends_in asker.old name) (is_configured asker.old.config name) name (map (λ one. one.now) (listed_at named.now name))) names.now) }
{
    let mut lines = List::new(alloc);
    for name in names {
        put_server(alloc, &mut lines, asker, named, name)?;
    }
    Ok(lines)
}

/// Puts the line of a name at the end.
fn put_server(
    alloc: Global,
    lines: &mut List<Line>,
    asker: &mut Asker<'_, '_>,
    named: &HashMap<NameKey, List<&Naming<'_, '_>>>,
    name: &Name,
) -> Result<(), NoMemory>
    ensures lines { OnOk result (lines.new ≡ lines.old ++ server_line (ends_in asker.old name.now) (is_configured asker.old.config name.now) name.now (map (λ one. one.now) (listed_at named.now name.now)) ∷ []) }
    ensures kept { asker.new ≡ asker.old }
{
    let key = NameKey::of(alloc, name)?;
    let namings = listed_at(named, &key);
    let word = word_of(alloc, asker, name, namings.is_empty())?;
    let line = line_of(alloc, word, name, namings)?;
    lines.push(line)
}

/// The word of a name. One that nothing names isn't asked.
fn word_of(
    alloc: Global,
    asker: &mut Asker<'_, '_>,
    name: &Name,
    unnamed: bool,
) -> Result<ServerWord, NoMemory>
    ensures word { IfOk result (λ word. word ≡ server_word (ends_in asker.old name.now) (is_configured asker.old.config name.now) unnamed) }
    ensures kept { asker.new ≡ asker.old }
{
    if unnamed {
        return Ok(ServerWord::Unnamed);
    }
    let ends = asker.ends(alloc, name)?;
    Ok(named_word(&ends, asker.hosts().host(name).is_some()))
}

/// The line of a name with a word, by what names it.
fn line_of(
    alloc: Global,
    word: ServerWord,
    name: &Name,
    namings: &[&Naming<'_, '_>],
) -> Result<Line, NoMemory>
    ensures { IfOk result (λ line. line ≡ word_line word name.now (map (λ one. one.now) namings.now)) }
{
    let mut text = Octets::new();
    put_columns(alloc, &mut text, word.text(), name, namings)?;
    text.push(alloc, b'\n')?;
    Ok(Line {
        counts: word.counts(),
        text,
    })
}

/// Puts the columns of a line at the end: a word, a name, how many different origins and how many different zone cuts name
/// it, and the place of the first record that does.
fn put_columns(
    alloc: Global,
    text: &mut Octets,
    word: &str,
    name: &Name,
    namings: &[&Naming<'_, '_>],
) -> Result<(), NoMemory>
    ensures { OnOk result (text.new ≡ text.old ++ separated tab (server_columns word.now name.now (map (λ one. one.now) namings.now))) }
{
    text.extend_from_slice(alloc, word.as_bytes())?;
    put_tab(alloc, text)?;
    put_name(alloc, text, name)?;
    put_tab(alloc, text)?;
    let origins = owner_count(alloc, true, namings)?;
    put_number(alloc, text, origins as u64)?;
    put_tab(alloc, text)?;
    let cuts = owner_count(alloc, false, namings)?;
    put_number(alloc, text, cuts as u64)?;
    put_first_place(alloc, text, namings)
}

/// How many different origins, or zone cuts, name a server.
fn owner_count(
    alloc: Global,
    at_origin: bool,
    namings: &[&Naming<'_, '_>],
) -> Result<usize, NoMemory>
    ensures { IfOk result (λ count. count ≡ owner_count at_origin (map (λ one. one.now) namings.now)) }
{
    match namings {
        [only] => Ok(if is_at(at_origin, *only) { 1 } else { 0 }),
        _ => {
            let owners = owners_of(alloc, at_origin, namings)?;
            let ordered = names_in_order(alloc, owners.items())?;
            Ok(ordered.len())
        }
    }
}

/// The origins, or the zone cuts, of records.
fn owners_of<'a>(
    alloc: Global,
    at_origin: bool,
    namings: &[&Naming<'a, '_>],
) -> Result<List<&'a Name>, NoMemory>
    ensures { IfOk result (λ owners. map (λ name. name.now) owners ≡ owners_of at_origin (map (λ one. one.now) namings.now)) }
{
    let mut owners = List::new(alloc);
    for naming in namings {
        put_owner(&mut owners, at_origin, *naming)?;
    }
    Ok(owners)
}

/// Puts the owner of a record at the end, if it is an origin, or if it is a zone cut.
fn put_owner<'a>(
    owners: &mut List<&'a Name>,
    at_origin: bool,
    naming: &Naming<'a, '_>,
) -> Result<(), NoMemory>
    ensures { OnOk result (map (λ name. name.now) owners.new ≡ map (λ name. name.now) owners.old ++ owner_if at_origin naming.now) }
{
    if is_at(at_origin, naming) {
        owners.push(naming.owner())?;
    }
    Ok(())
}

/// Whether the owner of the record is an origin, or is a zone cut.
fn is_at(at_origin: bool, naming: &Naming<'_, '_>) -> bool
    ensures { result ≡ is_at at_origin naming.now }
{
    if at_origin {
        naming.at_origin()
    } else {
        !naming.at_origin()
    }
}

/// Puts the columns of the place of the first record that names a server at the end, each behind a tab, both empty where
/// there is none.
fn put_first_place(
    alloc: Global,
    text: &mut Octets,
    namings: &[&Naming<'_, '_>],
) -> Result<(), NoMemory>
    ensures { OnOk result (text.new ≡ text.old ++ flat_map (λ next. tab ++ next) (first_place (map (λ one. one.now) namings.now))) }
{
    match namings {
        [first, ..] => first.put_place(alloc, text),
        [] => {
            put_tab(alloc, text)?;
            put_tab(alloc, text)
        }
    }
}

/// The word of a name server's name that something names.
fn named_word(ends: &NameEnds, configured: bool) -> ServerWord
    ensures { result ≡ server_word ends.now configured false }
{
    if ends.is_dead() {
        ServerWord::Dead
    } else if configured {
        ServerWord::Named
    } else if ends.is_answered() {
        ServerWord::NoRow
    } else {
        ServerWord::Elsewhere
    }
}

impl ServerWord {
    /// The text of the word.
    fn text(&self) -> &'static str
        ensures { result.now ≡ server_text self.now }
    {
        match self {
            ServerWord::Unnamed => "unnamed",
            ServerWord::Dead => "dead",
            ServerWord::Named => "named",
            ServerWord::NoRow => "no-row",
            ServerWord::Elsewhere => "elsewhere",
        }
    }

    /// Whether its line counts for the status.
    fn counts(&self) -> bool
        ensures { result ≡ server_counts self.now }
    {
        matches!(self, ServerWord::Dead | ServerWord::NoRow)
    }
}
