//! A message whose field is always written.
use bytes::Buf;
use std::alloc::Global;
use wire_codec::{
    DecodeContext, DecodeError, EncodeError, EncodeSink, MessageFields, SizeCache, Tag,
    UnknownFields,
};
use wire_fields::{Always, Kind, Known, Rest, Sfixed32, keep, measure, write};

/// A gauge, whose level is written whatever it is, as a required field is.
#[derive(Clone, Debug, Drop, PartialEq)]
pub struct Gauge {
    pub level: i32,
    pub unknown: UnknownFields,
}

impl MessageFields for Gauge {
    ghost use Rattle.wire_samples.specs.Gauge.{GaugeValue, gauge_value, gauge};

    ghost Value = { GaugeValue };

    ghost view = { gauge_value };

    ghost records = { gauge.records };

    ghost default = { gauge.default };

    ghost takes = { gauge.takes };

    ghost single = { gauge.single };

    fn default_value(alloc: Global) -> Gauge {
        Gauge {
            level: <Always<Sfixed32> as Kind>::empty(alloc),
            unknown: UnknownFields::new(alloc),
        }
    }

    fn compute_size(&self, cache: &mut SizeCache) -> Result<u32, EncodeError> {
        let level: Known<Always<Sfixed32>> = Known {
            number: 1,
            held: &self.level,
        };
        measure(
            (
                level,
                Rest {
                    fields: &self.unknown,
                },
            ),
            cache,
        )
    }

    fn write_to<S: EncodeSink>(
        &self,
        cache: &mut SizeCache,
        sink: &mut S,
    ) -> Result<(), EncodeError> {
        let level: Known<Always<Sfixed32>> = Known {
            number: 1,
            held: &self.level,
        };
        write(
            (
                level,
                Rest {
                    fields: &self.unknown,
                },
            ),
            cache,
            sink,
        )
    }

    fn merge_field<B: Buf>(
        &mut self,
        alloc: Global,
        tag: Tag,
        buf: &mut B,
        context: &mut DecodeContext,
    ) -> Result<(), DecodeError> {
        match tag.field_number() {
            1 => <Always<Sfixed32> as Kind>::merge(alloc, tag, &mut self.level, buf, context),
            _ => keep(alloc, tag, &mut self.unknown, buf, context),
        }
    }

    fn clear(&mut self) {
        <Always<Sfixed32> as Kind>::clear(&mut self.level);
        self.unknown.clear();
    }
}
