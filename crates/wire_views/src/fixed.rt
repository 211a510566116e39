//! Packed fields of numbers of four or eight bytes each, which stay where they are read.
ghost use Rattle.std.specs.Prelude.{◌≡◌, ◌≢◌, OnErr, IfOk, IfErr};
ghost use Rattle.wire_codec.specs.DecodeError.TheVariants.{OutOfMemory};
ghost use Rattle.wire_codec.specs.Limits.{NoCountGrew};
ghost use Rattle.wire_codec.specs.TagView.{tag_number, tag_type};
ghost use Rattle.wire_codec.specs.Taking.{TakesRecord, IsCharged, NotTaken};
ghost use Rattle.wire_fields.specs.Packed.{adds_numbers};
ghost use Rattle.wire_views.specs.FixedLists.{list_values};
ghost use Rattle.wire_views.specs.FixedNumbers.{values_in};

use crate::fixed_list::{FixedList, values_of};
use crate::fixed_numbers::{are_whole, is_fixed};
use crate::view_kind::ViewKind;
use std::alloc::Global;
use std::marker::PhantomData;
use wire_codec::{DecodeContext, DecodeError, Tag, WireType, borrow_bytes, laws};
use wire_fields::{Kind, Number, Numeric, Packed, Scalar};

/// Repeated numbers in one payload, of `fixed32`, `fixed64`, `sfixed32`, `sfixed64`, `float` or
/// `double`, as `Packed`: the payload stays where it is read. Numbers of further records, and of
/// records of one number each, are read into a list, as `Packed` does, and so are those of types
/// that have no width of their own.
pub struct FixedIn<'a, S: Scalar> {
    scalar: PhantomData<S>,
    source: PhantomData<&'a [u8]>,
}

impl<'a, N: Number> ViewKind for FixedIn<'a, Numeric<N>> {
    ghost use Rattle.std.specs.Prelude.{List};
    ghost use Rattle.wire_fields.specs.Packed.{packed_kind};

    type Source = &'a [u8];

    type Held = FixedList<'a, Numeric<N>>;

    type Owned = Vec<N::Value>;

    ghost Value = { List N.Value };

    ghost view = { list_values N.form N.map };

    ghost owned = { λ v. v.items };

    ghost kind = { packed_kind N.form N.map };

    fn empty(_alloc: Global) -> FixedList<'a, Numeric<N>> {
        FixedList::InPlace(&[])
    }

    fn merge(
        alloc: Global,
        tag: Tag,
        held: &mut FixedList<'a, Numeric<N>>,
        buf: &mut &'a [u8],
        context: &mut DecodeContext,
    ) -> Result<(), DecodeError> {
        match held {
            FixedList::Listed(values) => {
                <Packed<Numeric<N>> as Kind>::merge(alloc, tag, values, buf, context)
            }
            FixedList::InPlace(payload) => {
                let payload = *payload;
                *held = merged::<N>(alloc, tag, payload, buf, context)?;
                Ok(())
            }
        }
    }

    fn own(alloc: Global, held: &FixedList<'a, Numeric<N>>) -> Result<Vec<N::Value>, DecodeError> {
        Ok(held.to_vec(alloc)?)
    }
}

// Takes the record behind a tag into the numbers of a payload.
fn merged<'a, N: Number>(
    alloc: Global,
    tag: Tag,
    payload: &'a [u8],
    buf: &mut &'a [u8],
    context: &mut DecodeContext,
) -> Result<FixedList<'a, Numeric<N>>, DecodeError>
    ensures ok { IfOk result (λ list. IsCharged context.old context.new (λ c.
        TakesRecord (adds_numbers N.form N.map) context.old (tag_number tag) (tag_type tag)
        (values_in N.form N.map payload.now) buf.old.now c
        (list_values N.form N.map list) buf.new.now)) }
    ensures err { IfErr result (λ e. e ≢ OutOfMemory → NotTaken
        (TakesRecord (adds_numbers N.form N.map) context.old (tag_number tag) (tag_type tag)
        (values_in N.form N.map payload.now) buf.old.now)) }
    ensures counts { OnErr result (NoCountGrew context.old context.new) }
{
    laws::records_in_order();
    laws::grammar::one_delimited();
    laws::grammar::no_delimited_beside_fault();
    let form = N::form();
    match tag.wire_type() {
        WireType::LengthDelimited if payload.is_empty() && is_fixed(form) => {
            let numbers = borrow_bytes(buf)?;
            if !are_whole(form, numbers) {
                return Err(DecodeError::UnexpectedEof);
            }
            Ok(FixedList::InPlace(numbers))
        }
        _ => {
            let mut values = values_of::<N>(alloc, payload)?;
            <Packed<Numeric<N>> as Kind>::merge(alloc, tag, &mut values, buf, context)?;
            Ok(FixedList::Listed(values))
        }
    }
}
