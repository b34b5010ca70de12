//! Checks that are shown views: those that an operator brings, and those that come with the library.

ghost use Rattle.std.specs.Prelude.{◌≡◌, ◌∷◌, [], ℕ, List, OnOk, IfOk, map};
ghost use Rattle.std.specs.List.{AllZip};
ghost use Rattle.site_checks.specs.Shown.{HasSeen};
ghost use Rattle.site_checks.specs.Views.{Site, site_findings};
ghost use Rattle.site_checks.specs.declared.views.View.{View as Seen};
ghost use Rattle.groot_run.specs.Outcome.{own_sites};
ghost use Rattle.groot_run.specs.ShownClasses.{SawViews, sites_of};

use dns_data::{List, NoMemory};
use site_checks::{AOnly, Answering, SiteCheck, SiteFindings, View, all_findings};
use std::alloc::Global;

/// Checks that no operator brings, in whatever number.
pub(crate) trait Watchers {
    /// What the checks mean, in order.
    ghost sites: { Self → List Site };

    /// Shows a view to all checks, in order. After an error some of them have seen it.
    fn show(&mut self, alloc: Global, view: &View) -> Result<(), NoMemory>
        ensures { OnOk result (SawViews (view.now ∷ []) (sites self.old) (sites self.new)) };

    /// What all checks tell, in order.
    fn findings(&self, alloc: Global) -> Result<List<SiteFindings>, NoMemory>
        ensures { IfOk result (λ found. found ≡ map (site_findings []) (sites self.now)) };
}

/// No check.
#[derive(Drop)]
pub(crate) struct NoChecks;

impl Watchers for NoChecks {
    ghost sites = { λ none. [] };

    fn show(&mut self, _alloc: Global, _view: &View) -> Result<(), NoMemory> {
        Ok(())
    }

    fn findings(&self, alloc: Global) -> Result<List<SiteFindings>, NoMemory> {
        Ok(List::new(alloc))
    }
}

/// The checks that come with the library.
#[derive(Drop)]
pub(crate) struct OwnChecks {
    a_only: AOnly,
    answering: Answering,
}

impl Watchers for OwnChecks {
    ghost sites = { λ own. record { name = ⟦<AOnly as SiteCheck>⟧.name own.a_only; held = ⟦<AOnly as SiteCheck>⟧.held own.a_only; step = ⟦<AOnly as SiteCheck>⟧.step own.a_only }
        ∷ record { name = ⟦<Answering as SiteCheck>⟧.name own.answering; held = ⟦<Answering as SiteCheck>⟧.held own.answering; step = ⟦<Answering as SiteCheck>⟧.step own.answering } ∷ [] };

    fn show(&mut self, alloc: Global, view: &View) -> Result<(), NoMemory> {
        self.a_only.see(alloc, view)?;
        self.answering.see(alloc, view)
    }

    fn findings(&self, alloc: Global) -> Result<List<SiteFindings>, NoMemory> {
        let mut found = List::new(alloc);
        found.push(findings_of(alloc, &self.a_only)?)?;
        found.push(findings_of(alloc, &self.answering)?)?;
        Ok(found)
    }
}

/// The findings of a check.
fn findings_of<C: SiteCheck>(alloc: Global, check: &C) -> Result<SiteFindings, NoMemory>
    ensures { IfOk result (λ found. found ≡ site_findings [] (record { name = C.name check.now; held = C.held check.now; step = C.step check.now })) }
{
    Ok(SiteFindings {
        title: check.title(alloc)?,
        findings: check.findings(alloc)?,
    })
}

/// Checks that are shown views: those that an operator brings, and others before them. A ghost member of an `impl` can't
/// name what boxed checks mean, so the boxes have no `impl` of `Watchers`.
#[derive(Drop)]
pub(crate) struct ShownChecks<W> {
    pub own: W,
    pub brought: Vec<Box<dyn SiteCheck>>,
}

/// The checks that come with the library, which were shown nothing. They take no memory.
pub(crate) fn own_checks(alloc: Global) -> ShownChecks<OwnChecks>
    ensures { sites_of (λ b. name b) (λ b. held b) (λ b. step b) (⟦<OwnChecks as Watchers>⟧.sites result.own) result.brought.items ≡ own_sites }
{
    ShownChecks {
        own: OwnChecks {
            a_only: AOnly::new(alloc),
            answering: Answering::new(alloc),
        },
        brought: Vec::new(alloc),
    }
}

/// Shows a view to all checks, in order. After an error some of them have seen it.
pub(crate) fn show<W: Watchers>(
    alloc: Global,
    sites: &mut ShownChecks<W>,
    view: &View,
) -> Result<(), NoMemory>
    ensures { OnOk result (SawViews (view.now ∷ []) (sites_of (λ b. name b) (λ b. held b) (λ b. step b) (W.sites sites.old.own) sites.old.brought.items)
        (sites_of (λ b. name b) (λ b. held b) (λ b. step b) (W.sites sites.new.own) sites.new.brought.items)) }
{
    sites.own.show(alloc, view)?;
    show_brought(alloc, &mut sites.brought, view)
}

/// What all checks tell, in order.
pub(crate) fn findings<W: Watchers>(
    alloc: Global,
    sites: &ShownChecks<W>,
) -> Result<List<SiteFindings>, NoMemory>
    ensures { IfOk result (λ found. found ≡ map (site_findings []) (sites_of (λ b. name b) (λ b. held b) (λ b. step b) (W.sites sites.now.own) sites.now.brought.items)) }
{
    let mut found = sites.own.findings(alloc)?.into_vec();
    found.append(&mut all_findings(alloc, sites.brought.as_slice())?.into_vec())?;
    Ok(List::from_vec(found))
}

/// Shows a view to checks that an operator brings, in order. After an error some of them have seen it.
fn show_brought(
    alloc: Global,
    sites: &mut Vec<Box<dyn SiteCheck>>,
    view: &View,
) -> Result<(), NoMemory>
    ensures { OnOk result (AllZip (HasSeen (λ b. name b) (λ b. held b) (λ b. step b) (view.now ∷ [])) sites.old.items sites.new.items) }
{
    for i in 0..sites.len() {
        show_one(alloc, &mut sites[i], view)?;
    }
    Ok(())
}

/// Shows a view to a check.
fn show_one(alloc: Global, site: &mut Box<dyn SiteCheck>, view: &View) -> Result<(), NoMemory>
    ensures name { name site.new ≡ name site.old }
    ensures step { (found : List (List ℕ)) (seen : Seen) → step site.new found seen ≡ step site.old found seen }
    ensures held { OnOk result (held site.new ≡ step site.old (held site.old) view.now) }
{
    site.see(alloc, view)
}
