//! What checks of sites tell, alone and behind the report of a scope.

ghost use Rattle.std.specs.Prelude.{◌≡◌, IfOk, OnOk};
ghost use Rattle.serde_json.specs.Data.{string};
ghost use Rattle.serde_json.specs.Events.{SendsMembers};
ghost use Rattle.report_json.specs.Json.{json_members};
ghost use Rattle.report_json.specs.Sites.{site_value, sites_members, sites_value, sites_text, scope_value, scope_text};

use crate::object::send_name;
use crate::report::send_report_members;
use crate::written::{Written, line_of, send_list};
use dns_data::{Name, NoMemory, Octets};
use graph_form::Report;
use serde::Serializer;
use site_checks::{Line, SiteFindings};
use std::alloc::Global;

/// What all checks tell, in order.
#[derive(Drop)]
struct Sites<'a> {
    told: &'a [SiteFindings],
}

/// The report on the queries at or below a name, and what all checks tell of their classes.
#[derive(Drop)]
struct Scope<'a> {
    report: &'a Report,
    name: &'a Name,
    told: &'a [SiteFindings],
}

/// The text of what checks tell, in the order in which they are given: a line of JSON.
pub fn sites_text(alloc: Global, told: &[SiteFindings]) -> Result<Octets, NoMemory>
    ensures { IfOk result (λ text. text ≡ sites_text told.now) }
{
    line_of(alloc, &Sites { told })
}

/// The text of a report on the queries at or below a name, and of what checks tell of their classes, in the order in which
/// they are given: a line of JSON.
pub fn scope_text(
    alloc: Global,
    report: &Report,
    name: &Name,
    told: &[SiteFindings],
) -> Result<Octets, NoMemory>
    ensures { IfOk result (λ text. text ≡ scope_text report.now name.now told.now) }
{
    line_of(alloc, &Scope { report, name, told })
}

impl Written for Sites<'_> {
    ghost value = { λ sites. sites_value sites.told.now };

    fn send<S: Serializer>(&self, alloc: Global, out: &mut S) -> Result<(), S::Error> {
        out.begin_map(Some(1))?;
        send_sites(alloc, self.told, out)
    }
}

impl Written for Scope<'_> {
    ghost value = { λ scope. scope_value scope.report.now scope.name.now scope.told.now };

    fn send<S: Serializer>(&self, alloc: Global, out: &mut S) -> Result<(), S::Error> {
        out.begin_map(Some(6))?;
        send_report_members(alloc, self.report, out)?;
        out.key("scope")?;
        send_name(alloc, self.name, out)?;
        send_sites(alloc, self.told, out)
    }
}

/// Writes what checks tell, as the last member of an object.
fn send_sites<S: Serializer>(
    alloc: Global,
    told: &[SiteFindings],
    out: &mut S,
) -> Result<(), S::Error>
    ensures { OnOk result (SendsMembers (json_members (sites_members told.now)) (S.written out.old) (S.written out.new)) }
{
    out.key("sites")?;
    send_list(alloc, told, out)?;
    out.end_map()
}

impl Written for SiteFindings {
    ghost value = { site_value };

    fn send<S: Serializer>(&self, alloc: Global, out: &mut S) -> Result<(), S::Error> {
        out.begin_map(Some(2))?;
        out.key("findings")?;
        send_list(alloc, self.findings.items(), out)?;
        out.key("name")?;
        out.str(self.title.as_str())?;
        out.end_map()
    }
}

impl Written for Line {
    ghost value = { string };

    fn send<S: Serializer>(&self, alloc: Global, out: &mut S) -> Result<(), S::Error> {
        out.str(self.as_str())
    }
}
