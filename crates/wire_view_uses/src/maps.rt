//! A map of a view.
ghost use Rattle.std.specs.Prelude.{◌≡◌, ◌≢◌, IfOk, IfErr};
ghost use Rattle.wire_albums.specs.Bill.{Bill-Value, bill-shape, owed-of-bill};
ghost use Rattle.wire_codec.specs.DecodeError.TheVariants.{OutOfMemory};
ghost use Rattle.wire_fields.specs.Maps.{viewed};
ghost use Rattle.wire_fields.specs.Shape.{DecodesAs, NotDecodedAs};

use std::alloc::Global;
use wire_albums::BillView;
use wire_codec::DecodeError;
use wire_views::{MessageView, in_order};

/// What is owed by a bill, and by whom, in the order of their names.
pub fn owed<'a>(alloc: Global, bytes: &'a [u8]) -> Result<Vec<(&'a str, u64)>, DecodeError>
    ensures ok { IfOk result (λ owed. (bill : Bill-Value) × DecodesAs bill-shape bytes.now bill
        × (viewed (λ s. s.now) (λ v. v) owed.items ≡ owed-of-bill bill)) }
    ensures err { IfErr result (λ e. e ≢ OutOfMemory → NotDecodedAs bill-shape bytes.now) }
{
    match BillView::decode_view_by_default(alloc, bytes) {
        Ok(bill) => Ok(in_order(alloc, bill.owed)?),
        Err(why) => Err(why),
    }
}
