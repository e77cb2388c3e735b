// The bytes of pages, written and read from the front; `writers.rt` and `fixed.rt` write the fields of files.

ghost use Rattle.std.specs.Prelude.{◌≡◌, ◌↔◌, ◌+◌, ◌-◌, ◌^◌, ◌<◌, ◌++◌, ◌≤◌, [], length, replicate, IfOk, IsTrue};
ghost use Rattle.tw_base.specs.format.Fields.{number_bytes};
ghost use Rattle.tw_base.specs.format.PageBytes.{IsPageTo, padded};
ghost use Rattle.tw_base.specs.kinds.Bytes.{HasBytes};
ghost use Rattle.tw_base.specs.declared.kinds.limits.TheConstants.{PAGE_SIZE};

use crate::kinds::digest::{Digest, see_digest};
use crate::kinds::failure::ReadFault;
use crate::kinds::limits::PAGE_SIZE;
use std::marker::Model;

/// The bytes of a page.
pub type Page = [u8; PAGE_SIZE];

/// A page that is filled from its front. Contracts see the bytes that were put in.
#[derive(Drop)]
pub struct PageFront {
    page: Page,
    filled: usize,
}

impl Model for PageFront {
    ghost use Rattle.std.specs.Prelude.{◌≡◌, ◌-◌, ◌≤◌, ℕ, List, drop, replicate, take};

    ghost Value = { List ℕ };

    ghost view = { λ p. take p.filled p.page };

    ghost invariant = { λ p. (p.filled ≤ 4096) × (drop p.filled p.page ≡ replicate (4096 - p.filled) 0) };
}

impl PageFront {
    /// A page of zeros, into which nothing was put.
    pub fn new() -> Self
        ensures { result ≡ [] }
    {
        PageFront {
            page: [0; PAGE_SIZE],
            filled: 0,
        }
    }

    /// Puts these bytes behind those that were put in.
    pub fn put(&mut self, bytes: &[u8])
        requires { length self.old + length bytes.now ≤ PAGE_SIZE }
        // Bytes put into a page stand behind those that were put in before.
        ensures bytes { self.new ≡ self.old ++ bytes.now }
        ensures size { length self.new ≡ length self.old + length bytes.now }
    {
        let end = self.filled + bytes.len();
        self.page[self.filled..end].copy_from_slice(bytes);
        self.filled = end;
    }

    /// Puts a number that fits `width` bytes (at most 8), the highest byte first.
    pub fn put_number(&mut self, value: u64, width: u8)
        requires width { width ≤ 8 }
        requires fits { value < 256 ^ width }
        requires room { length self.old + width ≤ PAGE_SIZE }
        // So many bytes of a number stand behind those that were put in before, the highest first.
        ensures bytes { self.new ≡ self.old ++ number_bytes width value }
        ensures size { length self.new ≡ length self.old + width }
    {
        let bytes = value.to_be_bytes();
        self.put(&bytes[8 - width as usize..]);
    }

    /// Puts the 32 bytes of a digest.
    pub fn put_digest(&mut self, digest: &Digest)
        requires { length self.old + 32 ≤ PAGE_SIZE }
        // The bytes of a digest stand behind those that were put in before.
        ensures bytes { self.new ≡ self.old ++ digest.now }
        ensures size { length self.new ≡ length self.old + 32 }
        ensures fits { HasBytes 32 digest.now }
    {
        see_digest(digest);
        self.put(&digest.0);
    }

    /// The page: the bytes that were put in, and zeros.
    pub fn into_page(self) -> Page
        // The page is the bytes that were put in, and then zeros.
        ensures { result ≡ padded self }
    {
        self.page
    }
}

/// Whether the bytes, at most a page of them, are zeros; tw_disk/src/kept_page.rt has that of fewer.
fn are_zeros(bytes: &[u8]) -> bool
    requires { length bytes.now ≤ PAGE_SIZE }
    ensures { IsTrue result ↔ (bytes.now ≡ replicate (length bytes.now) 0) }
{
    let zeros = [0; PAGE_SIZE];
    bytes == &zeros[..bytes.len()]
}

/// The answer for a page of a reader that read it from the front up to a place, which is at most
/// 4,096: the value, where zeros follow to the page's end.
pub fn page_to<T: Drop>(page: &Page, after: u64, read: Result<T, ReadFault>) -> Option<T>
    requires { IfOk read (λ _. after ≤ PAGE_SIZE) }
    // What was read of a page's front is answered exactly where zeros follow to the page's end; of what wasn't read
    // nothing is answered.
    ensures { IsPageTo page.now after read result }
{
    match read {
        Ok(value) => {
            if are_zeros(&page[after as usize..]) {
                Some(value)
            } else {
                None
            }
        }
        Err(_) => None,
    }
}
