//! From a metadata file's name to a configuration: the metadata are read, then each row's zone file with the files
//! that it includes, in row order, each zone by its rules.
//!
//! The layer above may rest on this: what `load` answers is what the definition `conf` says of what the files tell
//! after the call. A configuration, and each refusal with its file, line and code, is the one that the files give; a
//! failed read is of a file whose count of failures rose, and the reading comes to that file before any refusal. No
//! other file is opened than those to which the reading comes. What a source tells from the start is the same before
//! and after, so of such a source the same holds of what it told before. What was answered holds by whatever is told
//! later (`readings_stay`): so readings may follow one another. `load_with_files` gives the names of files beside a
//! configuration, which is the one that `load` gives (`rows_tell_files`); each row has the zone that was read from its
//! files, and each zone is that of one row (`rows_have_zones`). `load_taken` gives of each zone what a `ZoneTaker` leaves
//! of it, which takes it before the files of the next row are opened. No file is opened for rows whose origins it passes
//! over: the configuration is the same but for the records of their zones (`rows_may_be_skipped`). `shown_file` gives the
//! name of a file as lines for people show it.
//!
//! Costs: a zone file is read once for all rows that name it with the same origin, with the files that it includes, in
//! pieces of 4,096 octets, and one without `$INCLUDE` is never held whole. The first of these rows copies no record; each
//! later one gets a copy of the zone. Only where less may still be read than was read for an earlier row, or the numbers of
//! two rows' files are the same by chance, is a file read again. A row's server is found by its name in an ordered set, as
//! are a zone that its server had before and an earlier row of the same file, so that 10,000 rows of 10,000 servers take no
//! longer than their number times a logarithm.
#![tactic(auto)]

mod earlier;
mod fault;
mod file;
mod file_name;
mod joined;
mod laws;
mod limits;
mod loaded;
mod loading;
mod refusal;
mod rows;
mod servers;
mod taker;
mod zone;
mod zone_files;

pub use fault::LoadFault;
pub use file::read_file;
pub use file_name::{put_decimal_escape, put_shown_octet, shown_file};
pub use laws::{
    files_want_nothing, readings_stay, rows_have_zones, rows_may_be_skipped, rows_tell_files,
};
pub use limits::Limits;
pub use loaded::{Loaded, RowFiles};
pub use loading::{load, load_taken, load_with_files, load_within};
pub use taker::ZoneTaker;
