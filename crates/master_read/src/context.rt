//! What the entries before leave for an entry.

ghost use Rattle.std.specs.Prelude.{◌≡◌, IfOk};
ghost use Rattle.master_read.specs.Context.{no_context, under};

use dns_data::{Name, NoMemory};
use std::alloc::Global;

/// The context in which an entry is read (RFC 1035 section 5.1, RFC 2308 section 4).
#[derive(Debug, Drop)]
pub(crate) struct Context {
    /// Where names without a final dot stand below.
    pub origin: Name,
    /// The TTL of the last `$TTL`, in seconds.
    pub default_ttl: Option<u32>,
    /// The TTL that a record stated last, in seconds.
    pub stated_ttl: Option<u32>,
    /// The owner of the last record.
    pub owner: Option<Name>,
}

impl Context {
    /// The context before everything, under an origin: nothing is stated.
    pub(crate) fn new(origin: Name) -> Context
        ensures { result ≡ under origin no_context }
    {
        Context {
            origin,
            default_ttl: None,
            stated_ttl: None,
            owner: None,
        }
    }

    /// A copy of the context under another origin.
    pub(crate) fn under(&self, alloc: Global, origin: Name) -> Result<Context, NoMemory>
        ensures { IfOk result (λ inner. inner ≡ under origin self.now) }
    {
        let owner = match &self.owner {
            Some(owner) => Some(owner.copy(alloc)?),
            None => None,
        };
        Ok(Context {
            origin,
            default_ttl: self.default_ttl,
            stated_ttl: self.stated_ttl,
            owner,
        })
    }
}
