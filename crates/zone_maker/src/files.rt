//! The files of a drill.

ghost use Rattle.std.specs.Prelude.{◌≡◌, ◌<◌, ◌≤◌, ◌∷◌, [], IfOk, OnOk};
ghost use Rattle.zone_maker.specs.Drill.{drill, with_files, zone_file, made_zone_text};

use crate::texts::{made_zone_text, meta_text, root_text, zone_name};
use dns_data::{List, NoMemory};
use io_edges::MemoryFiles;
use std::alloc::Global;

/// The files of a drill of this many zones, 1 to 5,000, with the metadata under the name `meta.json`.
pub fn make(alloc: Global, zones: u32) -> Result<MemoryFiles, NoMemory>
    requires some { 1 ≤ zones }
    requires few { zones ≤ 5000 }
    ensures { IfOk result (λ files. files ≡ drill zones) }
{
    let mut files = MemoryFiles::new(alloc, List::new(alloc));
    files.add("meta.json", meta_text(alloc, zones)?.as_bytes())?;
    files.add("root.zone", root_text(alloc, zones)?.as_bytes())?;
    for i in 0..zones {
        add_zone(alloc, &mut files, zones, i)?;
    }
    Ok(files)
}

/// Adds the file of a zone.
fn add_zone(alloc: Global, files: &mut MemoryFiles, zones: u32, i: u32) -> Result<(), NoMemory>
    requires within { i < zones }
    requires few { zones ≤ 5000 }
    ensures { OnOk result (files.new ≡ with_files files.old ((zone_file i, made_zone_text zones i) ∷ [])) }
{
    let name = zone_name(alloc, i)?;
    let text = made_zone_text(alloc, zones, i)?;
    files.add(name.as_str(), text.as_bytes())
}
