//! The message `report.Report.Sample` as a struct.
use wire_codec::{DecodeContext, DecodeError, EncodeError, EncodeSink, Tag};
use wire_fields::Int64;
use wire_structs::{
    DoubleInC, FieldNumbers, MessageStruct, NumberInC, StructPart, TextInC, WrittenStruct,
    implicit_part, merge_optional, merge_value, optional_part, pass_by,
};

/// What was measured once.
#[repr(C)]
#[derive(Clone, Copy)]
pub struct ReportSampleInC<'a> {
    pub name: &'a [u8],
    /// The bits of a `double`.
    pub value: u64,
    pub has_count: bool,
    pub count: i64,
}

impl<'a> MessageStruct for ReportSampleInC<'a> {
    ghost use Rattle.wire_stations.specs.ReportSample.{ReportSample-Shown, report_sample-shown};
    ghost use Rattle.wire_stations.specs.ReportSample.{report_sample-struct, ReportSample-IsZero};

    type Source = &'a [u8];

    ghost Value = { ReportSample-Shown };

    ghost view = { report_sample-shown };

    ghost default = { report_sample-struct.default };

    ghost takes = { report_sample-struct.takes };

    ghost IsZero = { ReportSample-IsZero };

    ghost single = { report_sample-struct.single };

    fn zero() -> ReportSampleInC<'a> {
        ReportSampleInC {
            name: &[],
            value: 0,
            has_count: false,
            count: 0,
        }
    }

    fn merge_field(
        &mut self,
        tag: Tag,
        buf: &mut &'a [u8],
        context: &mut DecodeContext,
    ) -> Result<(), DecodeError> {
        match tag.field_number() {
            1 => merge_value::<TextInC<'a>>(tag, &mut self.name, buf),
            2 => merge_value::<DoubleInC<'a>>(tag, &mut self.value, buf),
            3 => merge_optional::<NumberInC<'a, Int64>>(
                tag,
                &mut self.has_count,
                &mut self.count,
                buf,
            ),
            _ => pass_by(tag, buf, context),
        }
    }
}

impl<'a> FieldNumbers for ReportSampleInC<'a> {
    ghost use Rattle.std.specs.Prelude.{◌≡◌};
    ghost use Rattle.wire_codec.specs.Field.{Payload};
    ghost use Rattle.wire_report.specs.ReportSample.{report_sample-known};

    ghost owns = { report_sample-known.owns };

    #[inline(always)]
    fn has(number: u32) -> bool
        ensures { (p : Payload) → report_sample-known.owns number p ≡ result }
    {
        matches!(number, 1..=3)
    }
}

/// The fields of a sample, as they are written.
#[derive(Drop)]
pub struct ReportSampleFields<'h, 'a> {
    pub message: &'h ReportSampleInC<'a>,
}

// The fields one by one.
macro_rules! parts {
    ($message:expr) => {
        (
            (
                implicit_part::<TextInC<'a>>(1, &$message.name),
                implicit_part::<DoubleInC<'a>>(2, &$message.value),
            ),
            optional_part::<NumberInC<'a, Int64>>(3, $message.has_count, &$message.count),
        )
    };
}

impl<'h, 'a> StructPart for ReportSampleFields<'h, 'a> {
    ghost use Rattle.wire_report.specs.ReportSample.{report_sample-known};
    ghost use Rattle.wire_stations.specs.ReportSample.{report_sample-shown};

    ghost records = { λ f. report_sample-known.records (report_sample-shown f.message.now).0 };

    #[inline(always)]
    fn len(&self) -> u64 {
        parts!(self.message).len()
    }

    #[inline(always)]
    fn put<E: EncodeSink>(&self, sink: &mut E) -> Result<(), EncodeError> {
        parts!(self.message).put(sink)
    }
}

impl<'a> WrittenStruct for ReportSampleInC<'a> {
    ghost use Rattle.wire_codec.specs.Field.{Fields};
    ghost use Rattle.wire_report.specs.ReportSample.{ReportSample-Value, report_sample-shape};
    ghost use Rattle.wire_stations.specs.ReportSample.{report_sample-written};

    ghost Value = { ReportSample-Value };

    ghost value = { λ m. report_sample-written m Fields.none };

    ghost records = { report_sample-shape.records };

    fn written_len(&self) -> u64 {
        (ReportSampleFields { message: self }, ()).len()
    }

    fn put_records<E: EncodeSink>(&self, sink: &mut E) -> Result<(), EncodeError> {
        (ReportSampleFields { message: self }, ()).put(sink)
    }
}
