// A page as a disk in memory keeps it, without the zeros at its end; a shelf keeps whole pages.

ghost use Rattle.std.specs.Prelude.{◌≡◌, ◌↔◌, ◌-◌, ◌<◌, ◌≤◌, drop, length, replicate, IfOk, IsTrue};
ghost use Rattle.tw_base.specs.declared.kinds.limits.TheConstants.{PAGE_SIZE};
ghost use Rattle.tw_disk.specs.declared.kept_page.TheConstants.{LONG_PIECE};

use std::alloc::Global;
use std::marker::Model;
use tw_base::limits::PAGE_SIZE;
use tw_base::{NoMemory, Page};

// The zeros at a page's end are looked for, and left out, by so many at once, and the last ones by fewer.
const LONG_PIECE: usize = 512;

const SHORT_PIECE: usize = 64;

/// A page of 4,096 bytes, kept as its front and the byte that each one behind the front is: so one that ends in zeros takes little memory.
/// Contracts see the list of its bytes.
#[derive(Drop)]
pub struct KeptPage {
    front: Vec<u8>,
    rest: u8,
}

impl Model for KeptPage {
    ghost use Rattle.std.specs.Prelude.{◌≡◌, ◌-◌, ◌++◌, ◌≤◌, ℕ, List, length, replicate};

    ghost Value = { List ℕ };

    ghost view = { λ p. p.front.items ++ replicate (4096 - length p.front.items) p.rest };

    ghost invariant = { λ p. length p.front.items ≤ 4096 };
}

impl KeptPage {
    /// Keeps this page.
    pub fn of(alloc: Global, page: &Page) -> Result<KeptPage, NoMemory>
        ensures { IfOk result (λ kept. kept ≡ page.now) }
    {
        let size = front_size(page);
        let front = Vec::from_slice(alloc, &page[..size])?;
        Ok(KeptPage { front, rest: 0 })
    }

    /// The page whose bytes are all this one. It takes no memory.
    pub fn all_of(alloc: Global, byte: u8) -> KeptPage
        ensures { result ≡ replicate PAGE_SIZE byte }
    {
        KeptPage {
            front: Vec::new(alloc),
            rest: byte,
        }
    }

    /// Gives the bytes of the page.
    pub fn give(&self, into: &mut Page)
        ensures { into.new ≡ self.now }
    {
        let size = self.front.len();
        into[..size].copy_from_slice(self.front.as_slice());
        into[size..].fill(self.rest);
    }
}

/// Whether the bytes, at most a long piece, are zeros; tw_base/src/format/page_bytes.rt has that of up to a page.
fn are_zeros(bytes: &[u8]) -> bool
    requires { length bytes.now ≤ LONG_PIECE }
    ensures { IsTrue result ↔ (bytes.now ≡ replicate (length bytes.now) 0) }
{
    let zeros = [0; LONG_PIECE];
    bytes == &zeros[..bytes.len()]
}

/// Where the zeros at the end of a page begin that has zeros from `end` on, looked for by pieces of so many bytes.
fn zeros_from(page: &Page, end: usize, piece: usize) -> usize
    requires some { 0 < piece }
    requires few { piece ≤ LONG_PIECE }
    requires within { end ≤ PAGE_SIZE }
    requires zeros { drop end page.now ≡ replicate (PAGE_SIZE - end) 0 }
    ensures most { result ≤ PAGE_SIZE }
    ensures rest { drop result page.now ≡ replicate (PAGE_SIZE - result) 0 }
{
    let mut size = end;
    while size >= piece && are_zeros(&page[size - piece..size]) {
        size -= piece;
    }
    size
}

/// How many bytes of the page are kept: those behind them are zeros.
fn front_size(page: &Page) -> usize
    ensures most { result ≤ PAGE_SIZE }
    ensures rest { drop result page.now ≡ replicate (PAGE_SIZE - result) 0 }
{
    let size = zeros_from(page, PAGE_SIZE, LONG_PIECE);
    zeros_from(page, size, SHORT_PIECE)
}
