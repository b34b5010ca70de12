//! The answer of `ask`.

ghost use Rattle.std.specs.Prelude.{◌≡◌, IfOk};
ghost use Rattle.report_json.specs.Ask.{ask_value, ask_text};

use crate::object::send_name;
use crate::written::{Written, line_of, send_list};
use dns_data::{Name, NoMemory, Octets, RrType};
use net_model::Walk;
use serde::Serializer;
use std::alloc::Global;

/// A query with its walks.
#[derive(Drop)]
struct Ask<'a> {
    name: &'a Name,
    rtype: RrType,
    walks: &'a [Walk],
}

impl Written for Ask<'_> {
    ghost value = { λ ask. ask_value ask.name.now ask.rtype ask.walks.now };

    fn send<S: Serializer>(&self, alloc: Global, out: &mut S) -> Result<(), S::Error> {
        out.begin_map(Some(3))?;
        out.key("query")?;
        send_name(alloc, self.name, out)?;
        out.key("type")?;
        out.str(self.rtype.word())?;
        out.key("walks")?;
        send_list(alloc, self.walks, out)?;
        out.end_map()
    }
}

/// The text of a query's walks, in the order in which they are given: a line of JSON.
pub fn ask_text(alloc: Global, name: &Name, t: RrType, walks: &[Walk]) -> Result<Octets, NoMemory>
    ensures { IfOk result (λ text. text ≡ ask_text name.now t walks.now) }
{
    let ask = Ask {
        name,
        rtype: t,
        walks,
    };
    line_of(alloc, &ask)
}
