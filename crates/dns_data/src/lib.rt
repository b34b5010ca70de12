//! Domain names, record types and record data, and the small types that stand for a list, a text, a value in memory of
//! its own (`Boxed`) and `NoMemory` in the plain values of every crate above.
#![tactic(auto)]

mod boxed;
mod common;
mod fault;
mod label;
mod labels;
mod laws;
mod list;
mod list_iter;
mod memory;
mod name;
mod number;
mod octets;
mod printing;
mod rdata;
mod rr_type;
mod short;
mod spelling;
mod text;
mod to_text;
mod type_set;
mod words;

pub use boxed::Boxed;
pub use common::{octets_order, same_octets};
pub use fault::{JoinFault, NameFault};
pub use label::Label;
pub use labels::Labels;
pub use laws::{identical_records, texts_tell_data};
pub use list::List;
pub use list_iter::ListIter;
pub use memory::{NoMemory, WantOfMemory};
pub use name::Name;
pub use number::{read_number, with_digit};
pub use octets::Octets;
pub use printing::rdata_text;
pub use rdata::{Rdata, Rr, copied_data};
pub use rr_type::RrType;
pub use spelling::escaped_octet;
pub use text::Text;
pub use type_set::TypeSet;
pub use words::is_word;
