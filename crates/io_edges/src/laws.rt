//! What the definitions say of sources.

ghost use Rattle.io_edges.specs.Files.{TellsAll};
ghost use Rattle.io_edges.specs.MemoryFiles.{FilesInMemory, told_by};

/// Files in memory tell all names from the start.
pub fn memory_tells_all()
    ensures { (files : FilesInMemory) → TellsAll (told_by files) }
{}
