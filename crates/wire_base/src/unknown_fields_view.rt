//! Unknown fields that stay where they were read.
ghost use Rattle.std.specs.Prelude.{◌≡◌, ◌≢◌, ◌↔◌, ◌+◌, ◌^◌, ◌<◌, ◌≤◌, ℕ, List, [], ◌∷◌, ◌++◌, length, map, IsTrue, Some, OnOk, OnErr, IfOk, IfErr, MatchResult};
ghost use Rattle.std.specs.Iterator.Adapters.{copied_source};
ghost use Rattle.std.specs.List.{concat};
ghost use Rattle.std.specs.Slice.Iter.{iter_rest};
ghost use Rattle.wire_base.specs.declared.error.DecodeError.TheVariants.{OutOfMemory};
ghost use Rattle.wire_base.specs.declared.error.EncodeError.TheVariants.{LengthOverflow};
ghost use Rattle.wire_base.specs.Charge.{charge};
ghost use Rattle.wire_base.specs.Field.{Fields};
ghost use Rattle.wire_base.specs.InRange.{AreFitting, AreNumbered};
ghost use Rattle.wire_base.specs.Items.{Item, TakesItems, flat_charge};
ghost use Rattle.wire_base.specs.Limits.{Charge, Fits, HasRoom, HaveRoom, NoCountGrew, left_after};
ghost use Rattle.wire_base.specs.Sink.{Writes};
ghost use Rattle.wire_base.specs.Spans.{AreCharged, PushRefusal, SpellEach, SpansRefusal, TooMany, exact_limits};
ghost use Rattle.wire_base.specs.Spells.{Spells};

use crate::decode_context::DecodeContext;
use crate::encode_sink::EncodeSink;
use crate::error::{DecodeError, EncodeError};
use crate::flat_walk::register_unknown_record;
use crate::unknown_fields::UnknownFields;
use std::alloc::Global;
use std::iter::Copied;
use std::marker::Model;
use std::slice;

/// Spans of unknown fields, borrowed from the input, with what `register_unknown_record` found in
/// them. A contract sees a value as its spans. See "Message Structure" of the encoding document.
///
/// A span is counted when it is pushed, and read when it is replayed: until then its end tags were
/// not compared with its start tags.
#[derive(Debug, Drop)]
pub struct UnknownFieldsView<'a> {
    spans: Vec<&'a [u8]>,
    fields: usize,
    depth: u32,
    bytes: usize,
}

impl<'a> Model for UnknownFieldsView<'a> {
    ghost use Rattle.std.specs.Prelude.{ℕ, List, map};
    ghost use Rattle.wire_base.specs.Spans.{AreCharged, fields_charge};

    ghost Value = { List (List ℕ) };

    ghost view = { λ v. map (λ s. s.now) v.spans.items };

    ghost invariant = { λ v. AreCharged (map (λ s. s.now) v.spans.items)
        (fields_charge v.depth v.fields v.bytes) };
}

impl<'a> UnknownFieldsView<'a> {
    /// No spans. Nothing is allocated before the first push.
    pub fn new(alloc: Global) -> UnknownFieldsView<'a>
        ensures { result ≡ [] }
    {
        UnknownFieldsView {
            spans: Vec::new(alloc),
            fields: 0,
            depth: 0,
            bytes: 0,
        }
    }

    /// Takes all spans out.
    pub fn clear(&mut self)
        ensures { self.new ≡ [] }
    {
        self.spans.clear();
        self.fields = 0;
        self.depth = 0;
        self.bytes = 0;
    }

    /// Whether there is no span.
    pub fn is_empty(&self) -> bool
        ensures { IsTrue result ↔ (self.now ≡ []) }
    {
        self.spans.is_empty()
    }

    /// How many spans there are.
    pub fn len(&self) -> usize
        ensures { result ≡ length self.now }
    {
        self.spans.len()
    }

    /// Adds a span at the end, and takes its slots and bytes from the context. No byte is copied:
    /// memory is wanted for the list of spans alone, and before all else, so that `OutOfMemory`
    /// changes nothing. Else refused as `register_unknown_record`, and the spans are as they were.
    /// `UnknownFieldLimitExceeded` also comes where the slots or the bytes of all spans would be
    /// more than `usize::MAX`; those of this one are then gone from the context.
    ///
    /// No level of the context is taken: the groups of a span may nest as deep as there are slots,
    /// as `depth` tells, and `to_owned_fields` recurses as deep.
    pub fn push_span(
        &mut self,
        span: &'a [u8],
        context: &mut DecodeContext,
    ) -> Result<(), DecodeError>
        ensures ok { OnOk result ((items : List Item) × TakesItems items context.old span.now []
            × (context.new ≡ left_after context.old (flat_charge items))) }
        ensures pushed { OnOk result (self.new ≡ self.old ++ span.now ∷ []) }
        ensures err { IfErr result (PushRefusal context.old self.old span.now) }
        ensures unchanged { OnErr result (self.new ≡ self.old) }
        ensures memory { IfErr result (λ e. e ≡ OutOfMemory → context.new ≡ context.old) }
        ensures counts { OnErr result (NoCountGrew context.old context.new) }
        ensures depth { context.new.depth ≡ context.old.depth }
        ensures taken { (items : List Item) → TakesItems items context.old span.now []
            → IfErr result (λ e. e ≢ OutOfMemory
            → context.new ≡ left_after context.old (flat_charge items)) }
        ensures records { (fs : Fields) → Spells fs span.now → (charge fs).depth < 2 ^ 32
            → MatchResult result (λ _. HaveRoom context.old.counts (charge fs).counts
            × (context.new ≡ left_after context.old (charge fs)))
            (λ e. HaveRoom context.old.counts (charge fs).counts
            → ¬ TooMany context.old self.old span.now → e ≡ OutOfMemory) }
    {
        self.spans.reserve(1)?;
        let charge = register_unknown_record(span, context)?;
        let Some(fields) = self.fields.checked_add(charge.fields) else {
            return Err(DecodeError::UnknownFieldLimitExceeded);
        };
        let Some(bytes) = self.bytes.checked_add(charge.bytes) else {
            return Err(DecodeError::UnknownFieldLimitExceeded);
        };
        self.spans.push(span)?;
        self.fields = fields;
        self.depth = self.depth.max(charge.depth);
        self.bytes = bytes;
        Ok(())
    }

    /// How many slots the spans took.
    pub fn fields(&self) -> usize
        ensures { (c : Charge) × AreCharged self.now c × (result ≡ c.counts.unknown_fields) }
    {
        self.fields
    }

    /// The greatest level of the walks over the spans.
    pub fn depth(&self) -> u32
        ensures { (c : Charge) × AreCharged self.now c × (result ≡ c.depth) }
    {
        self.depth
    }

    /// How many bytes the length-delimited payloads of the spans are.
    pub fn bytes(&self) -> usize
        ensures { (c : Charge) × AreCharged self.now c × (result ≡ c.counts.unknown_bytes) }
    {
        self.bytes
    }

    /// The spans in order. They live as long as the input, also when the view is gone.
    pub fn iter(&self) -> Copied<slice::Iter<'_, &'a [u8]>>
        ensures { map (λ s. s.now) (iter_rest (copied_source result)) ≡ self.now }
    {
        self.spans.iter().copied()
    }

    /// How many bytes `write_to` writes. `LengthOverflow` comes exactly where these are more than
    /// `usize::MAX`.
    pub fn encoded_len(&self) -> Result<usize, EncodeError>
        ensures ok { IfOk result (λ len. len ≡ length (concat self.now)) }
        ensures err { IfErr result (λ e. e ≡ LengthOverflow) }
        ensures over { OnErr result (2 ^ 64 ≤ length (concat self.now)) }
    {
        let mut len = 0usize;
        for span in &self.spans {
            len = len
                .checked_add(span.len())
                .ok_or(EncodeError::LengthOverflow)?;
        }
        Ok(len)
    }

    /// Writes the spans as they came, one put for each. Nothing is shortened. Refused where the
    /// sink refuses a put.
    pub fn write_to<S: EncodeSink>(&self, sink: &mut S) -> Result<(), EncodeError>
        ensures { Writes (concat self.now) (S.held sink.old) (S.held sink.new) result }
    {
        for span in &self.spans {
            sink.put_slice(span)?;
        }
        Ok(())
    }

    /// Reads each span as records to its own end, under the limits of the context. Refused as
    /// `UnknownFields::decode_from_slice_within` refuses the first span that does not spell records
    /// within what is left, or with `OutOfMemory`. A refused attempt may have used up slots and
    /// levels of the context.
    pub fn replay(&self, context: &mut DecodeContext) -> Result<UnknownFields, DecodeError>
        ensures each { IfOk result (λ fs. SpellEach self.now fs) }
        ensures spelled { IfOk result (λ fs. Spells fs (concat self.now)) }
        ensures within { IfOk result (λ fs. Fits (charge fs) context.old) }
        ensures in_range { IfOk result (λ fs. AreFitting fs × AreNumbered fs) }
        ensures charged { IfOk result (λ fs. context.new ≡ left_after context.old (charge fs)) }
        ensures fault { IfErr result (SpansRefusal context.old self.now) }
        ensures counts { OnErr result (NoCountGrew context.old context.new) }

        // What the spans spell within the limits is what is read, unless memory runs out.
        ensures only { (fs : Fields) → SpellEach self.now fs → Fits (charge fs) context.old
            → MatchResult result (λ read. read ≡ fs) (λ e. e ≡ OutOfMemory) }

        // Under just the levels and slots that the spans were charged, and as many bytes at least,
        // the records that they spell are read, unless memory runs out, and no slot is left. Of
        // just as many bytes none is left.
        ensures exact { (fs : Fields) (c : Charge) → SpellEach self.now fs
            → (charge fs).depth < 2 ^ 32 → AreCharged self.now c → context.old.depth ≡ c.depth
            → context.old.counts.unknown_fields ≡ Some c.counts.unknown_fields
            → HasRoom context.old.counts.unknown_bytes c.counts.unknown_bytes
            → MatchResult result
            (λ read. (read ≡ fs) × (context.new.counts.unknown_fields ≡ Some 0)
            × (context.old.counts.unknown_bytes ≡ Some c.counts.unknown_bytes
            → context.new.counts.unknown_bytes ≡ Some 0))
            (λ e. e ≡ OutOfMemory) }
    {
        self.read_spans(context)
    }

    // Reads each span as records.
    fn read_spans(&self, context: &mut DecodeContext) -> Result<UnknownFields, DecodeError>
        ensures each { IfOk result (λ fs. SpellEach self.now fs) }
        ensures within { IfOk result (λ fs. Fits (charge fs) context.old) }
        ensures fitting { IfOk result (λ fs. AreFitting fs) }
        ensures charged { IfOk result (λ fs. context.new ≡ left_after context.old (charge fs)) }
        ensures fault { IfErr result (SpansRefusal context.old self.now) }
        ensures counts { OnErr result (NoCountGrew context.old context.new) }
    {
        let alloc = *self.spans.allocator();
        let mut fields = UnknownFields::new(alloc);
        for span in &self.spans {
            fields.append_from_slice(alloc, span, context)?;
        }
        fields.widths_fit();
        Ok(fields)
    }

    /// Reads the spans as records under just the levels, slots and bytes that they were charged,
    /// which suffice where they spell records whose groups nest less than 2^32 deep. Refused as
    /// `replay`.
    ///
    /// It recurses as deep as `depth` says, which no limit bounds but the slots: 33,000 start tags,
    /// a byte each, overflow a stack of 8 MiB. Where the spans are not trusted look at `depth`
    /// first, or call `replay` under a context of 100 levels, which refuses deeper ones.
    pub fn to_owned_fields(&self) -> Result<UnknownFields, DecodeError>
        ensures each { IfOk result (λ fs. SpellEach self.now fs) }
        ensures spelled { IfOk result (λ fs. Spells fs (concat self.now)) }
        ensures within { IfOk result (λ fs. (c : Charge) × AreCharged self.now c
            × Fits (charge fs) (exact_limits c)) }
        ensures in_range { IfOk result (λ fs. AreFitting fs × AreNumbered fs) }
        ensures fault { IfErr result (λ e. (c : Charge) × AreCharged self.now c
            × SpansRefusal (exact_limits c) self.now e) }

        // The records that the spans spell are read, unless memory runs out.
        ensures only { (fs : Fields) → SpellEach self.now fs → (charge fs).depth < 2 ^ 32
            → MatchResult result (λ read. read ≡ fs) (λ e. e ≡ OutOfMemory) }
    {
        let context = DecodeContext::new(self.depth, self.fields);
        self.replay(&mut context.with_unknown_bytes(self.bytes))
    }
}
