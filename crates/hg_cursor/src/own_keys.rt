//! The keys of a range in one bucket.
//!
//!     range, in 4 buckets of table 0      6   7   8   9  10  11  12  13
//!     bucket 1's own                                  9              13
//!
//! Only the bucket's own keys are looked up. Where it may have many of them, its index leads over those that have no record.

ghost use Rattle.std.specs.Prelude.{◌≡◌, ◌+◌, ◌%◌, ◌<◌, ◌≤◌, IfSome, IsTrue};
ghost use Rattle.hg_core.specs.Contents.{has_own};
ghost use Rattle.hg_rule.specs.declared.view.View.{View};
ghost use Rattle.hg_rule.specs.Holding.{bucket as bucket_in};
ghost use Rattle.hg_store.specs.Stores.{Holds};
ghost use Rattle.hg_cursor.specs.Keys.{IsOwnKey, HasVersion, IsWithin, LeadsOn, IsFirstOwn};
ghost use Rattle.hg_cursor.specs.Looks.{WhereOwn};

use crate::range::Range;
use hg_base::TableId;
use hg_store::Held;

// How many buckets it is from `home` on to a bucket, round all of them.
fn ahead(bucket: u32, home: u32, count: u32) -> u32
    requires bucket { bucket < count }
    requires home { home < count }
    ensures round { (home + result) % count ≡ bucket }
    ensures within { result < count }
{
    if home <= bucket {
        bucket - home
    } else {
        count - home + bucket
    }
}

// Whether a bucket can have a key of a range, whose least is of the bucket `home`.
pub(crate) fn is_reached(bucket: u32, home: u32, count: u32, range: Range) -> bool
    requires bucket { bucket < count }
    requires home { IsOwnKey count home range.table range.low }
    ensures { result ≡ has_own count range.table range.low range.high bucket }
{
    range.reaches(u64::from(ahead(bucket, home, count)))
}

// The least key of a range that is a bucket's own, where it has one. The range's least is of the bucket `home`.
pub(crate) fn first_key(bucket: u32, home: u32, count: u32, range: Range) -> u64
    requires bucket { bucket < count }
    requires home { IsOwnKey count home range.table range.low }
    requires reached { IsTrue (has_own count range.table range.low range.high bucket) }
    ensures { IsFirstOwn count bucket range.table range.low range.high result }
{
    let ahead = u64::from(ahead(bucket, home, count));
    range.low + ahead
}

// The least key of a table from a number to `high`, of those that have a version in the bucket held.
fn next_there(held: &Held<'_>, table: TableId, from: u64, high: u64) -> Option<u64>
    ensures within { IsWithin from high result }
    ensures there { (v : View) → Holds v held.now →
        IfSome result (HasVersion (bucket_in v).content table) }
    // no key with a version is passed over
    ensures leads { (v : View) → Holds v held.now →
        LeadsOn (HasVersion (bucket_in v).content table) from high result }
{
    match held.next_key(table, from) {
        Some(key) if key <= high => Some(key),
        _ => None,
    }
}

// The first key to read of the bucket held, from one of its own keys to `high`. Where this is the bucket's only key there, it is
// not looked up.
pub(crate) fn next_from(
    held: &Held<'_>,
    table: TableId,
    count: u64,
    own: u64,
    high: u64,
) -> Option<u64>
    requires { own ≤ high }
    ensures within { IsWithin own high result }
    ensures own { WhereOwn held.now count table own
        (λ v b. IfSome result (IsOwnKey count b table)) }
    ensures leads { (v : View) → Holds v held.now →
        LeadsOn (HasVersion (bucket_in v).content table) own high result }
{
    if high - own < count {
        Some(own)
    } else {
        next_there(held, table, own, high)
    }
}

// The next key to read after one of the bucket's own keys. Own keys are `count` apart. Where the last ones that were read had rows
// and were next to each other (`is_dense`), the next own key is tried; else the index leads on.
pub(crate) fn next_after(
    held: &Held<'_>,
    table: TableId,
    count: u64,
    key: u64,
    high: u64,
    is_dense: bool,
) -> Option<u64>
    requires some { 0 < count }
    requires within { key ≤ high }
    ensures within { IsWithin (key + 1) high result }
    ensures own { WhereOwn held.now count table key
        (λ v b. IfSome result (IsOwnKey count b table)) }
    ensures leads { WhereOwn held.now count table key
        (λ v b. LeadsOn (HasVersion (bucket_in v).content table) (key + 1) high result) }
{
    if high - key < count {
        None
    } else if is_dense {
        Some(key + count)
    } else {
        next_from(held, table, count, key + count, high)
    }
}
