// The digest of a buffer: from 7 on, each entry and last the buffer's length are taken in.

ghost use Rattle.std.specs.Prelude.{◌≡◌, take};
ghost use Rattle.test_set.specs.Filmset.{mixed, digest_of};

use crate::whole::fitting;

const SPAN: u64 = 4294967296;

// The digest h with one entry more.
fn taken(h: u64, v: u64) -> u64
    ensures { result ≡ mixed h v }
{
    ((h % SPAN) * 31 + v % SPAN + 1) % SPAN
}

// Of the first n entries, or of all where there are no more.
pub(crate) fn first(entries: &[u16], n: u64) -> u64
    ensures { result ≡ digest_of (take n entries.now) }
{
    let end = fitting(n, entries.len());
    greys(&entries[..end])
}

pub fn greys(entries: &[u16]) -> u64
    ensures { result ≡ digest_of entries.now }
{
    let mut h = 7;
    for entry in entries {
        h = taken(h, *entry as u64);
    }
    taken(h, entries.len() as u64)
}

pub fn words(entries: &[u32]) -> u64
    ensures { result ≡ digest_of entries.now }
{
    let mut h = 7;
    for entry in entries {
        h = taken(h, *entry as u64);
    }
    taken(h, entries.len() as u64)
}

pub fn bytes(entries: &[u8]) -> u64
    ensures { result ≡ digest_of entries.now }
{
    let mut h = 7;
    for entry in entries {
        h = taken(h, *entry as u64);
    }
    taken(h, entries.len() as u64)
}

pub fn longs(entries: &[u64]) -> u64
    ensures { result ≡ digest_of entries.now }
{
    let mut h = 7;
    for entry in entries {
        h = taken(h, *entry);
    }
    taken(h, entries.len() as u64)
}
