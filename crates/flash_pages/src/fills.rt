// Bytes written into the content of a flash in memory.
ghost use Rattle.std.specs.Prelude.{◌≡◌, ◌+◌, ◌≤◌, length, IfOk};
ghost use Rattle.flash_pages.specs.Bytes.{blank, patch, repeated};

use std::alloc::{AllocError as NoMemory, Global};

pub(crate) fn erased_bytes(alloc: Global, len: usize) -> Result<Vec<u8>, NoMemory>
    ensures { IfOk result (λ bytes. bytes.items ≡ blank len) }
{
    vec![in alloc; 0xff; len]
}

/// Puts bytes into their range.
pub(crate) fn put(content: &mut [u8], at: usize, bytes: &[u8])
    requires { at + length bytes.now ≤ length content.old }
    ensures { content.new ≡ patch content.old at bytes.now }
{
    content[at..at + bytes.len()].copy_from_slice(bytes);
}

/// Fills a range with the torn bytes, over and over, or with FF where there are none.
pub(crate) fn tear(content: &mut [u8], at: usize, len: usize, torn: &[u8])
    requires { at + len ≤ length content.old }
    ensures { content.new ≡ patch content.old at (repeated torn.now len) }
{
    let range = &mut content[at..at + len];
    repeat(range, torn);
}

fn repeat(range: &mut [u8], torn: &[u8])
    ensures { range.new ≡ repeated torn.now (length range.old) }
{
    'bytes: for place in 0..range.len() {
        range[place] = if torn.is_empty() {
            0xff
        } else {
            torn[place % torn.len()]
        };
    }
}
