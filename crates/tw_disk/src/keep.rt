// How a shelf keeps a page: the one that was used longest ago goes where it is full.
ghost use Rattle.std.specs.Prelude.{◌≡◌};
ghost use Rattle.tw_disk.specs.Keeping.{AddsAtMost};

use lru::LruCache;
use tw_base::Page;

// Keeps a copy of a page under its number; in a full cache the page that was used longest ago goes. Where there is no memory, nothing changes.
pub(crate) fn keep(kept: &mut LruCache<u64, Box<Page>>, number: u64, page: &Page)
    ensures adds { AddsAtMost kept.old.entries kept.new.entries number page.now }
    ensures room { kept.new.cap ≡ kept.old.cap }
{
    let alloc = *kept.allocator();
    if let Ok(copy) = Box::new(alloc, *page) {
        let _replaced = kept.put(number, copy);
    }
}
