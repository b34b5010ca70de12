//! Whether an entry is right.

ghost use Rattle.std.specs.Prelude.{◌≡◌, ◌↔◌, ◌≤◌, ◌∷◌, [], true, Contains, IfOk, IsErrOf, OnOk};
ghost use Rattle.net_model.specs.Shown.{MayShow, ShowsAnswers, WalksShow, with_sets};
ghost use Rattle.net_model.specs.Walk.{IsWalk};
ghost use Rattle.net_model.specs.declared.fault.Fault.{Fault as FaultValue};
ghost use Rattle.report_json.specs.Plain.{IsWritten};
ghost use Rattle.report_json.specs.Report.{entry_value};
ghost use Rattle.report_check.specs.Checked.{PassesWalks};
ghost use Rattle.report_check.specs.Entries.{ByOne, ByOther, ByTwo, ByWalks, IsShownBy, entry_with, first_repeats, is_of_representatives};
ghost use Rattle.report_check.specs.RightEntries.{IsRight};
ghost use Rattle.serde_json.specs.Data.{Data, depth};
ghost use Rattle.serde_json.specs.Read.{max_depth};
ghost use Rattle.serde_json.specs.View.{view};

use crate::asked::{EntryQuery, asked_in};
use crate::checker::Checker;
use crate::entry::is_entry_of;
use crate::texts::{is_walk_text, text_of};
use dns_data::{List, NoMemory};
use graph_form::{is_authoritative, is_same_answer};
use meta_read::list_at;
use net_model::{Fault, Walk};
use plain_resolver::ResolveFault;
use serde_json::Value;
use std::alloc::Global;

/// Whether the value is that of a right entry. It is `WalksPassed` where it names a query with a type that has more
/// than 10,000 walks, whatever else it holds.
pub(crate) fn is_right(
    alloc: Global,
    checker: &mut Checker<'_, '_>,
    value: &Value,
) -> Result<bool, ResolveFault>
    requires { depth (view value.now) ≤ max_depth }
    ensures right { IfOk result (λ right. (right ≡ true) ↔ IsRight checker.old.config checker.old.rewrites (view value.now)) }
    ensures few { OnOk result (PassesWalks checker.old.config checker.old.rewrites (view value.now) → ⊥) }
    ensures passed { IsErrOf result ResolveFault.WalksPassed → PassesWalks checker.old.config checker.old.rewrites (view value.now) }
    ensures kept { checker.new ≡ checker.old }
{
    let Some(asked) = asked_in(alloc, value)? else {
        return Ok(false);
    };
    checker.count_walks(alloc, &asked)?;
    Ok(is_shown(alloc, checker, &asked, value)?)
}

/// Whether the value is that of an entry of the query with one of its walks, or with two, that show the entry's fault.
fn is_shown(
    alloc: Global,
    checker: &mut Checker<'_, '_>,
    asked: &EntryQuery,
    value: &Value,
) -> Result<bool, NoMemory>
    requires nests { depth (view value.now) ≤ max_depth }
    ensures shown { IfOk result (λ shown. (shown ≡ true) ↔ ByWalks checker.old asked.now.query asked.now.rtype (view value.now)) }
    ensures kept { checker.new ≡ checker.old }
{
    let Some(steps) = list_at(value, "walks") else {
        return Ok(false);
    };
    let text = text_of(alloc, value)?;
    match steps {
        [one] => by_one(alloc, checker, asked, one, text.as_slice()),
        [one, other] => by_two(alloc, checker, asked, one, other, text.as_slice()),
        _ => Ok(false),
    }
}

/// Whether the text is that of an entry with the walk whose value this is, where that shows the fault.
fn by_one(
    alloc: Global,
    checker: &mut Checker<'_, '_>,
    asked: &EntryQuery,
    steps: &Value,
    text: &[u8],
) -> Result<bool, NoMemory>
    requires { depth (view steps.now) ≤ max_depth }
    ensures shown { IfOk result (λ shown. (value : Data) → IsWritten value text.now
        → (shown ≡ true) ↔ ByOne checker.old asked.now.query asked.now.rtype (view steps.now) value) }
    ensures kept { checker.new ≡ checker.old }
{
    let walks = checker.walks_with(alloc, asked, steps)?;
    let steps = text_of(alloc, steps)?;
    for walk in walks.items() {
        if is_walk_text(alloc, walk, steps.as_slice())?
            && shows_alone(alloc, checker, asked, walk, text)?
        {
            return Ok(true);
        }
    }
    Ok(false)
}

/// Whether the text is that of an entry with this walk of the query, which shows the fault.
fn shows_alone(
    alloc: Global,
    checker: &mut Checker<'_, '_>,
    asked: &EntryQuery,
    walk: &Walk,
    text: &[u8],
) -> Result<bool, NoMemory>
    requires { IsWalk checker.old asked.now.query asked.now.rtype walk.now }
    ensures shown { IfOk result (λ shown. (value : Data) → IsWritten value text.now
        → (shown ≡ true) ↔ IsShownBy checker.old asked.now.query asked.now.rtype (walk.now ∷ []) value) }
    ensures kept { checker.new ≡ checker.old }
{
    let faults = checker.faults_of(alloc, walk)?;
    is_one_of(alloc, checker, asked, walk, faults, text)
}

/// Whether the text is that of an entry with this walk and one of the faults, which are those that the walk shows by
/// itself.
fn is_one_of(
    alloc: Global,
    checker: &mut Checker<'_, '_>,
    asked: &EntryQuery,
    walk: &Walk,
    faults: List<Fault>,
    text: &[u8],
) -> Result<bool, NoMemory>
    requires { (fault : FaultValue) → Contains faults fault ↔ WalksShow (with_sets checker.old) (walk.now ∷ []) fault }
    ensures shown { IfOk result (λ shown. (value : Data) → IsWritten value text.now
        → (shown ≡ true) ↔ IsShownBy checker.old asked.now.query asked.now.rtype (walk.now ∷ []) value) }
    ensures kept { checker.new ≡ checker.old }
{
    for fault in faults {
        if shows_fault(alloc, checker, asked, walk, fault, text)? {
            return Ok(true);
        }
    }
    Ok(false)
}

/// Whether the text is that of an entry with this walk and this fault, which the walk shows by itself, and the query
/// may show it.
fn shows_fault(
    alloc: Global,
    checker: &mut Checker<'_, '_>,
    asked: &EntryQuery,
    walk: &Walk,
    fault: Fault,
    text: &[u8],
) -> Result<bool, NoMemory>
    requires { WalksShow (with_sets checker.old) (walk.now ∷ []) fault }
    ensures shown { IfOk result (λ shown. (value : Data) → IsWritten value text.now
        → (shown ≡ true) ↔ (MayShow checker.old.config asked.now.query asked.now.rtype fault
        × (value ≡ entry_value (entry_with asked.now.query asked.now.rtype (first_repeats (walk.now ∷ [])) (walk.now ∷ []) fault)))) }
    ensures kept { checker.new ≡ checker.old }
{
    let of_representatives = is_of_representatives(&fault);
    if !is_entry_of(alloc, asked, &[walk], fault, text)? {
        return Ok(false);
    }
    if of_representatives {
        checker.represents(alloc, &asked.query)
    } else {
        Ok(true)
    }
}

/// Whether the fault is told of the representatives of classes alone.
fn is_of_representatives(fault: &Fault) -> bool
    ensures { result ≡ is_of_representatives fault.now }
{
    matches!(fault, Fault::Overlong(_))
}

/// Whether the text is that of an entry with the two walks whose values these are, where their answers differ.
fn by_two(
    alloc: Global,
    checker: &mut Checker<'_, '_>,
    asked: &EntryQuery,
    one: &Value,
    other: &Value,
    text: &[u8],
) -> Result<bool, NoMemory>
    requires one { depth (view one.now) ≤ max_depth }
    requires other { depth (view other.now) ≤ max_depth }
    ensures shown { IfOk result (λ shown. (value : Data) → IsWritten value text.now
        → (shown ≡ true) ↔ ByTwo checker.old asked.now.query asked.now.rtype (view one.now) (view other.now) value) }
    ensures kept { checker.new ≡ checker.old }
{
    let walks = checker.walks_with(alloc, asked, one)?;
    let others = checker.walks_with(alloc, asked, other)?;
    let one = text_of(alloc, one)?;
    let other = text_of(alloc, other)?;
    for walk in walks.items() {
        if is_walk_text(alloc, walk, one.as_slice())?
            && by_other(
                alloc,
                checker,
                asked,
                walk,
                others.items(),
                other.as_slice(),
                text,
            )?
        {
            return Ok(true);
        }
    }
    Ok(false)
}

/// Whether the text is that of an entry with this walk and the one whose text this is, where their answers differ.
fn by_other(
    alloc: Global,
    checker: &mut Checker<'_, '_>,
    asked: &EntryQuery,
    one: &Walk,
    walks: &[Walk],
    steps: &[u8],
    text: &[u8],
) -> Result<bool, NoMemory>
    ensures shown { IfOk result (λ shown. (others value : Data) → IsWritten others steps.now → IsWritten value text.now
        → (shown ≡ true) ↔ ByOther checker.old asked.now.query asked.now.rtype one.now walks.now others value) }
    ensures kept { checker.new ≡ checker.old }
{
    for walk in walks {
        if is_walk_text(alloc, walk, steps)?
            && differ(one, walk)
            && shows_answers(alloc, checker, asked, one, walk, text)?
        {
            return Ok(true);
        }
    }
    Ok(false)
}

/// Whether the walks end in answers that differ.
fn differ(one: &Walk, other: &Walk) -> bool
    ensures { (result ≡ true) ↔ ShowsAnswers one.now other.now }
{
    is_authoritative(&one.leaf)
        && is_authoritative(&other.leaf)
        && !is_same_answer(&one.leaf, &other.leaf)
}

/// Whether the text is that of an entry with these two walks, the answers of which differ.
fn shows_answers(
    alloc: Global,
    checker: &mut Checker<'_, '_>,
    asked: &EntryQuery,
    one: &Walk,
    other: &Walk,
    text: &[u8],
) -> Result<bool, NoMemory>
    requires { ShowsAnswers one.now other.now }
    ensures shown { IfOk result (λ shown. (value : Data) → IsWritten value text.now
        → (shown ≡ true) ↔ IsShownBy checker.old asked.now.query asked.now.rtype (one.now ∷ other.now ∷ []) value) }
    ensures kept { checker.new ≡ checker.old }
{
    let class = checker.class_of(alloc, &asked.query)?;
    let fault = Fault::Answers(class, asked.rtype);
    is_entry_of(alloc, asked, &[one, other], fault, text)
}
