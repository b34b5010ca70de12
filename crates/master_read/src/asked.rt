//! What comes behind a file's end.

use dns_data::Text;

/// What comes behind the end of a file.
#[derive(Debug, Drop)]
pub enum AfterFile {
    /// A file of this name is included there, and is open from now on.
    Include {
        /// The name as it stands in the file, its escapes resolved.
        file: Text,
    },
    /// The records of the zone, or their first fault, are known.
    Done,
}
