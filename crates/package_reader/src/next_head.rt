ghost use Rattle.std.specs.Prelude.{None, Some};
ghost use Rattle.package_reader.specs.NextHead.{FindsHead};

use ber_tlv::{TlvFault, TlvHead, read_head};

/// What stands where a TLV is due.
pub(crate) enum NextHead {
    Whole(TlvHead),
    /// So far it may be a head.
    Wanting,
    /// The head of no TLV.
    Broken,
}

/// Looks for a head in the bytes that came, `left` being how many bytes the TLV around them has
/// left.
pub(crate) fn next_head(unread: &[u8], left: Option<usize>) -> NextHead
    ensures { FindsHead unread.now left result }
{
    match left {
        Some(left) => inner_head(unread, left),
        None => top_head(unread),
    }
}

fn top_head(unread: &[u8]) -> NextHead
    ensures { FindsHead unread.now None result }
{
    match read_head(unread) {
        Ok(head) => NextHead::Whole(head),
        Err(TlvFault::Short) => NextHead::Wanting,
        Err(TlvFault::BadTag) => NextHead::Broken,
        Err(TlvFault::BadLength) => NextHead::Broken,
    }
}

fn inner_head(unread: &[u8], left: usize) -> NextHead
    ensures { FindsHead unread.now (Some left) result }
{
    let count = left.min(unread.len());
    match read_head(&unread[..count]) {
        Ok(head) if head.size + head.length <= left => NextHead::Whole(head),
        Ok(_) => NextHead::Broken,
        Err(TlvFault::Short) if unread.len() < left => NextHead::Wanting,
        Err(_) => NextHead::Broken,
    }
}
