//! The number of an order.
ghost use Rattle.std.specs.Prelude.{◌≡◌, Some, IfOk, IfErr};
ghost use Rattle.wire_codec.specs.Options.{default_limits};
ghost use Rattle.wire_fields.specs.Shape.{DecodesAs};
ghost use Rattle.wire_orders.specs.Order.{number-of-order, order-missing, order-shape, order-value};
ghost use Rattle.wire_orders.specs.declared.order.Order.{Order};
ghost use Rattle.wire_required.specs.Parsing.{ParseIsRefused};

use std::alloc::Global;
use wire_orders::Order;
use wire_required::{Parse, ParseError};

/// The number of the order that the bytes are, which is a required field: an order that is parsed
/// has it.
pub fn number_of(alloc: Global, bytes: &[u8]) -> Result<u64, ParseError>
    ensures ok { IfOk result (λ number. (order : Order)
        × DecodesAs order-shape bytes.now (order-value order)
        × (number-of-order (order-value order) ≡ Some number)) }
    ensures err { IfErr result (ParseIsRefused order-shape.takes default_limits order-shape.default
        order-value (λ order. order-missing (order-value order)) bytes.now) }
{
    let order = Order::parse_from_slice(alloc, bytes)?;
    match order.number {
        Some(number) => Ok(number),
        None => unreachable!(),
    }
}
