//! The fields of a person that its type does not know, left where they were read.
ghost use Rattle.std.specs.Prelude.{◌≡◌, ℕ, ◌≤◌, IfOk, OnErr, MatchResult};
ghost use Rattle.wire_codec.specs.Charge.{charge};
ghost use Rattle.wire_codec.specs.DecodeError.TheVariants.{OutOfMemory};
ghost use Rattle.wire_codec.specs.Field.{Fields};
ghost use Rattle.wire_codec.specs.Limits.{Limits, HasRoom, NoCountGrew, left_after};
ghost use Rattle.wire_codec.specs.Spans.{SpellEach};
ghost use Rattle.wire_codec.specs.Taking.{Decodes};
ghost use Rattle.wire_samples.specs.Person.{PersonTakes, PersonValue, default_person};
ghost use Rattle.wire_samples.specs.PersonUnknowns.{HasOthers, OthersAre, is_known_number, others_of};

use std::alloc::Global;
use wire_codec::{DecodeContext, DecodeError, Tag, UnknownFieldsView, laws, skip_field_depth};

/// The records of a person's encoding that `Person` does not know, each as a span with its tag.
/// Those that it knows are passed over, whatever they hold. Groups nest at most as deep as the
/// context has levels, which it keeps, and the kept records take their slots and bytes from it.
///
/// Refused at the first record that cannot be read: with the fault of its tag, then that of its
/// payload as `skip_field_depth` names it, then with `UnknownFieldLimitExceeded` where a record
/// that is kept finds no slots or no room for its bytes; or with `OutOfMemory`.
pub fn person_unknowns<'a>(
    alloc: Global,
    bytes: &'a [u8],
    context: &mut DecodeContext,
) -> Result<UnknownFieldsView<'a>, DecodeError>
    ensures ok { IfOk result (λ view. (fs : Fields) × HasOthers context.old bytes.now fs
        × OthersAre fs view bytes.now
        × (context.new ≡ left_after context.old (charge (others_of fs)))) }
    ensures counts { OnErr result (NoCountGrew context.old context.new) }
    ensures depth { context.new.depth ≡ context.old.depth }

    // Such records are found where they are there, unless memory runs out.
    ensures only { (fs : Fields) → HasOthers context.old bytes.now fs
        → MatchResult result (λ view. SpellEach view (others_of fs)) (λ e. e ≡ OutOfMemory) }

    // Where a `Person` decodes within as many levels and slots, and within no more bytes, the spans
    // spell what it keeps.
    ensures decoded { (l : Limits) (z : PersonValue) → l.depth ≡ context.old.depth
        → l.counts.unknown_fields ≡ context.old.counts.unknown_fields
        → ((b : ℕ) → HasRoom l.counts.unknown_bytes b → HasRoom context.old.counts.unknown_bytes b)
        → Decodes PersonTakes l default_person bytes.now z
        → MatchResult result
        (λ view. SpellEach view z.unknown × ((charge z.unknown).depth ≤ l.depth))
        (λ e. e ≡ OutOfMemory) }
{
    laws::records_in_order();
    laws::grammar::whole_input();
    walk(alloc, bytes, context)
}

// Goes over the records.
fn walk<'a>(
    alloc: Global,
    bytes: &'a [u8],
    context: &mut DecodeContext,
) -> Result<UnknownFieldsView<'a>, DecodeError>
    ensures ok { IfOk result (λ view. (fs : Fields) × HasOthers context.old bytes.now fs
        × OthersAre fs view bytes.now
        × (context.new ≡ left_after context.old (charge (others_of fs)))) }
    ensures only { (fs : Fields) → HasOthers context.old bytes.now fs
        → MatchResult result (λ view. SpellEach view (others_of fs)) (λ e. e ≡ OutOfMemory) }
    ensures counts { OnErr result (NoCountGrew context.old context.new) }
    ensures depth { context.new.depth ≡ context.old.depth }
{
    laws::records_in_order();
    laws::levels_and_counts();
    laws::grammar::joined_adds_up();
    laws::grammar::joined_texts_spell();
    laws::grammar::no_payload_beside_fault();
    laws::grammar::one_spans_charge();
    laws::grammar::spans_charge_records();
    laws::grammar::payloads_inside();
    // The slots are a `usize`, so those of all spans can be counted.
    let _slots = context.remaining_unknown_fields();
    let mut view = UnknownFieldsView::new(alloc);
    let mut rest = bytes;
    while !rest.is_empty() {
        let record = rest;
        let tag = Tag::decode(&mut rest)?;
        skip_field_depth(tag, &mut rest, context.depth())?;
        if !is_known(tag.field_number()) {
            view.push_span(&record[..record.len() - rest.len()], context)?;
        }
    }
    Ok(view)
}

// Whether the type has a field of this number.
fn is_known(number: u32) -> bool
    ensures { result ≡ is_known_number number }
{
    1 <= number && number <= 3
}
