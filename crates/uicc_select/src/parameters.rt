ghost use Rattle.std.specs.Prelude.{◌≡◌, ◌≤◌, length};
ghost use Rattle.fcp_codec.specs.Writing.{written_fcp};
ghost use Rattle.uicc_tree.specs.Change.{AreRows};
ghost use Rattle.uicc_tree.specs.Files.{IsLive, file_of, rows_of};

use fcp_codec::put_fcp;
use file_rows::PinRow;
use plain_lists::ShortList;
use uicc_tree::Tree;

/// File control parameters.
pub(crate) type Parameters = ShortList<u8, 130>;

// The control parameters of a file.
pub(crate) fn parameters_of(tree: &Tree, pins: &[PinRow], node: u32) -> Parameters
    requires files { AreRows (rows_of tree.now) }
    requires live { IsLive tree.now node }
    ensures value { result ≡ written_fcp (file_of tree.now node).head pins.now }
    ensures some { 1 ≤ length result }
{
    put_fcp(tree.head(node), pins)
}
