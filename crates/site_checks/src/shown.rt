//! What checks tell at the end.

ghost use Rattle.std.specs.Prelude.{◌≡◌, IfOk};
ghost use Rattle.std.specs.List.{AllZip};
ghost use Rattle.site_checks.specs.Shown.{AreSiteFindings};

use crate::check::SiteCheck;
use crate::line::Line;
use dns_data::{List, NoMemory};
use std::alloc::Global;

/// What a check tells: its name and its findings.
#[derive(Debug, Drop)]
pub struct SiteFindings {
    pub title: Line,
    pub findings: List<Line>,
}

/// What all checks tell, in order. Each is asked once for its name and once for its findings.
pub fn all_findings(
    alloc: Global,
    sites: &[Box<dyn SiteCheck>],
) -> Result<List<SiteFindings>, NoMemory>
    ensures { IfOk result (λ found. AllZip (AreSiteFindings (λ b. name b) (λ b. held b)) sites.now found) }
{
    let mut found = List::new(alloc);
    for site in sites {
        found.push(findings_of_check(alloc, site)?)?;
    }
    Ok(found)
}

/// What a check tells.
fn findings_of_check(alloc: Global, site: &Box<dyn SiteCheck>) -> Result<SiteFindings, NoMemory>
    ensures { IfOk result (λ found. (found.title ≡ name site.now) × (found.findings ≡ held site.now)) }
{
    Ok(SiteFindings {
        title: site.title(alloc)?,
        findings: site.findings(alloc)?,
    })
}
