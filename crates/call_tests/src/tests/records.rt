//! Records of a zone file that comes in pieces.

ghost use Rattle.std.specs.Prelude.{◌≡◌, ◌^◌, ◌<◌, length, false, true, OnOk, IfOk};
ghost use Rattle.master_read.specs.Reader.{is_over};

use super::configs::name;
use dns_data::{NoMemory, Rr, rdata_text};
use master_read::{AfterFile, TextFault, ZoneReader, ZoneText};
use std::alloc::Global;
use std::test::Fail;

/// A zone file as name servers have it (RFC 1035 section 5.1): a comment, parentheses, owners that are repeated, times with
/// units, a relative name, and a record of a type that is dropped.
const ZONE: &[u8] = b"$TTL 1d
$ORIGIN example.com.
@   IN  SOA ns1 hostmaster (
            2024010101 ; serial
            3h 15m 1w 1h )
    IN  NS  ns1
ns1     A   192.0.2.1
www 300 IN A 192.0.2.2
    IN 300 TXT \"v=x; y\" \"two\"
mail    MX  10 ns1
www RRSIG A 8 3 300 20240101000000 20231201000000 1 example.com. abcd
";

/// Its records: the line, the owner, the TTL, and the data.
const RECORDS: &str =
    "3 example.com. 86400 ns1.example.com. hostmaster.example.com. 2024010101 10800 900 604800 3600
6 example.com. 86400 ns1.example.com.
7 ns1.example.com. 86400 192.0.2.1
8 www.example.com. 300 192.0.2.2
9 www.example.com. 300 \"v=x; y\" \"two\"
10 mail.example.com. 86400 10 ns1.example.com.
";

#[test]
fn records_are_the_same_whole_and_in_pieces(rt: HostRuntime) -> Result<(), Fail> {
    for size in [ZONE.len(), 7, 1] {
        assert!(rt; are_read(rt.alloc(), size)?, "in pieces of {size}");
    }
    Ok(())
}

/// Whether the zone file in pieces of this size gives its records.
fn are_read(alloc: Global, size: usize) -> Result<bool, Fail> {
    let origin = name(alloc, "example.com.")?;
    let mut reader = ZoneReader::new(alloc, origin, 7, 0);
    match is_fed(alloc, &mut reader, size) {
        Ok(true) => given_are_records(alloc, reader.finish()),
        _ => Ok(false),
    }
}

/// Whether the zone file ends behind pieces of this size, and no other file is asked for.
fn is_fed(alloc: Global, reader: &mut ZoneReader, size: usize) -> Result<bool, NoMemory>
    requires open { reader.old.ended ≡ false }
    requires unfed { reader.old.fed ≡ 0 }
    ensures { IfOk result (λ fed. fed ≡ true → is_over reader.new ≡ true) }
{
    if size == 0 || ZONE.len() > 1_000_000 {
        return Ok(false);
    }
    feed(alloc, reader, ZONE, size)?;
    match reader.end_file(alloc)? {
        AfterFile::Done => Ok(true),
        AfterFile::Include { .. } => Ok(false),
    }
}

/// Whether these are the records of the zone file, and that of a dropped type was counted.
fn given_are_records(alloc: Global, given: Result<ZoneText, TextFault>) -> Result<bool, Fail> {
    match given {
        Ok(text) => are_records(alloc, &text),
        Err(_) => Ok(false),
    }
}

/// Whether it is so of what was read.
fn are_records(alloc: Global, text: &ZoneText) -> Result<bool, Fail> {
    let told = told(alloc, text.rrs.items())?;
    Ok(told.as_str() == RECORDS && text.seen == 7)
}

/// Feeds a text in pieces of this size.
fn feed(alloc: Global, reader: &mut ZoneReader, text: &[u8], size: usize) -> Result<(), NoMemory>
    requires size { 0 < size }
    requires small { length text.now < 2 ^ 20 }
    requires open { reader.old.ended ≡ false }
    requires unfed { reader.old.fed ≡ 0 }
    ensures { OnOk result (reader.new.ended ≡ false) }
{
    let mut fed = 0;
    while fed < text.len() {
        let end = if text.len() - fed < size {
            text.len()
        } else {
            fed + size
        };
        reader.feed(alloc, &text[fed..end])?;
        fed = end;
    }
    Ok(())
}

/// A line for each record.
fn told(alloc: Global, rrs: &[Rr]) -> Result<String, Fail> {
    let mut out = String::new(alloc);
    for rr in rrs {
        put_record(alloc, &mut out, rr)?;
    }
    Ok(out)
}

/// Puts the line of a record. One of none of the twelve types has no data there.
fn put_record(alloc: Global, out: &mut String, rr: &Rr) -> Result<(), Fail> {
    let owner = rr.owner.to_text(alloc)?;
    write!(out, "{} {owner} {}", rr.line, rr.ttl)?;
    if rr.rtype().is_some() {
        let data = rdata_text(alloc, &rr.rdata)?;
        write!(out, " {data}")?;
    }
    out.push_str("\n")?;
    Ok(())
}
