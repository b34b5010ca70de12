//! Data of records from tokens of their own, as other programs read them.

use super::configs::name;
use dns_data::{Rdata, RrType};
use master_lex::{Entry, read_entries};
use rdata_forms::{read_other, read_rdata};
use std::alloc::Global;
use std::test::Fail;

// An address (RFC 1035 section 3.4.1), and a datum of another type in the generic form (RFC 3597 section 5).
#[test]
fn data_are_read_from_the_tokens_of_entries(rt: HostRuntime) -> Result<(), Fail> {
    let pieces: [&[u8]; 1] = [b"192.0.2.1\n\\# 2 abcd\n"];
    let reading = read_entries(rt.alloc(), &pieces)?;
    let [address, generic] = reading.entries.items() else {
        assert!(rt; false);
        return Ok(());
    };
    assert!(rt; is_the_address(rt.alloc(), address)?);
    assert!(rt; has_three_tokens(rt.alloc(), generic));
    Ok(())
}

/// Whether the entry's tokens give the address as data of the type A.
fn is_the_address(alloc: Global, entry: &Entry) -> Result<bool, Fail> {
    let origin = name(alloc, "example.")?;
    match read_rdata(alloc, RrType::A, entry.tokens.items(), &origin) {
        Ok(Rdata::A(address)) => Ok(address == [192, 0, 2, 1]),
        _ => Ok(false),
    }
}

/// Whether the entry's tokens give data of another type, which keep all three.
fn has_three_tokens(alloc: Global, entry: &Entry) -> bool {
    match read_other(alloc, b"TYPE65280", entry.tokens.items()) {
        Ok(Rdata::Other { tokens, .. }) => tokens.items().len() == 3,
        _ => false,
    }
}
