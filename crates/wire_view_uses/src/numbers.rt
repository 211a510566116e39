//! What a program does with packed numbers that stay where they are read.
ghost use Rattle.std.specs.Prelude.{◌≡◌, ◌≢◌, IfOk, IfErr, slice_get};
ghost use Rattle.wire_albums.specs.Parcel.{Parcel-Value, parcel-shape, weights-of-parcel};
ghost use Rattle.wire_codec.specs.DecodeError.TheVariants.{OutOfMemory};
ghost use Rattle.wire_fields.specs.Shape.{DecodesAs, NotDecodedAs};

use std::alloc::Global;
use wire_albums::ParcelView;
use wire_codec::DecodeError;
use wire_fields::FloatBits;
use wire_views::MessageView;

/// The weight of a parcel at a place, read where it stands.
pub fn weight_at(
    alloc: Global,
    bytes: &[u8],
    place: usize,
) -> Result<Option<FloatBits>, DecodeError>
    ensures ok { IfOk result (λ weight. (parcel : Parcel-Value)
        × DecodesAs parcel-shape bytes.now parcel
        × (weight ≡ slice_get (weights-of-parcel parcel) place)) }
    ensures err { IfErr result (λ e. e ≢ OutOfMemory → NotDecodedAs parcel-shape bytes.now) }
{
    match ParcelView::decode_view_by_default(alloc, bytes) {
        Ok(parcel) => Ok(parcel.weights.get(place)),
        Err(why) => Err(why),
    }
}
