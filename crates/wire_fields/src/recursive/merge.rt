//! Messages that hold themselves or one another, from bytes.
ghost use Rattle.std.specs.Prelude.{◌≡◌, ◌≢◌, ◌-◌, ◌^◌, ◌<◌, OnOk, OnErr, IfOk, IfErr};
ghost use Rattle.wire_codec.specs.DecodeError.TheVariants.{OutOfMemory};
ghost use Rattle.wire_codec.specs.Limits.{Charge, NoCountGrew, left_after, outer};
ghost use Rattle.wire_codec.specs.Nested.{TakesEmbedded, TakesGroup};
ghost use Rattle.wire_codec.specs.TagView.{tag_number, tag_type};
ghost use Rattle.wire_codec.specs.Taking.{TakesRecord, IsCharged, NotTaken};
ghost use Rattle.wire_fields.specs.Messages.{length_prefixed, delimited, inside};
ghost use Rattle.wire_fields.specs.Nest.{Nest};
ghost use Rattle.wire_fields.specs.NestPayload.{Enters, TakesWithin};
ghost use Rattle.wire_fields.specs.NestTable.{family_takes};
ghost use Rattle.wire_fields.specs.declared.recursive.Place.TheVariants.{Once, Each, Grouped, EachGrouped};
ghost use Rattle.wire_fields.specs.NestTable.{IsThere};

use super::{Place, RecursiveHeld};
use bytes::Buf;
use std::alloc::Global;
use wire_codec::{
    DecodeContext, DecodeError, MAX_MESSAGE_BYTES, Tag, WireType, check_wire_type, decode_length,
    laws,
};

/// What `merge_field` of a message of a family does.
#[cycle(merge)]
#[inline(always)]
pub fn merge_held<T: RecursiveHeld<B>, B: Buf>(
    message: &mut T,
    alloc: Global,
    tag: Tag,
    buf: &mut B,
    context: &mut DecodeContext,
) -> Result<(), DecodeError>
    ensures ok { OnOk result (IsCharged context.old context.new (λ c.
        TakesRecord (family_takes T.family (T.sort message.old)) context.old (tag_number tag)
        (tag_type tag) (T.view message.old) (B.unread buf.old) c (T.view message.new)
        (B.unread buf.new))) }
    ensures err { IfErr result (λ e. e ≢ OutOfMemory → NotTaken
        (TakesRecord (family_takes T.family (T.sort message.old)) context.old (tag_number tag)
        (tag_type tag) (T.view message.old) (B.unread buf.old))) }
    ensures sort { T.sort message.new ≡ T.sort message.old }
    ensures counts { OnErr result (NoCountGrew context.old context.new) }
    ensures kept { B.kept buf.new ≡ B.kept buf.old }
{
    laws::records_in_order();
    match message.place(tag.field_number()) {
        Place::Leaf => message.merge_leaf(alloc, tag, buf, context),
        Place::Once(row) => merge_once(message, alloc, tag, row, buf, context),
        Place::Each(row, bytes) => merge_each(message, alloc, tag, row, bytes, buf, context),
        Place::Grouped(row) => merge_once_grouped(message, alloc, tag, row, buf, context),
        Place::EachGrouped(row, bytes) => {
            merge_each_grouped(message, alloc, tag, row, bytes, buf, context)
        }
    }
}

// Takes the record of a row that has one message at most. Apart, as `merge_each`, since the
// locals of a function are made ready where it begins.
#[cycle(merge)]
#[inline(always)]
fn merge_once<T: RecursiveHeld<B>, B: Buf>(
    message: &mut T,
    alloc: Global,
    tag: Tag,
    row: usize,
    buf: &mut B,
    context: &mut DecodeContext,
) -> Result<(), DecodeError>
    requires place { (T.family.table (T.sort message.old)).place (tag_number tag) ≡ Once row }
    requires there { IsThere (T.family.table (T.sort message.old)) (Once row) }
    ensures ok { OnOk result (IsCharged context.old context.new (λ c.
        TakesRecord (family_takes T.family (T.sort message.old)) context.old (tag_number tag)
        (tag_type tag) (T.view message.old) (B.unread buf.old) c (T.view message.new)
        (B.unread buf.new))) }
    ensures err { IfErr result (λ e. e ≢ OutOfMemory → NotTaken
        (TakesRecord (family_takes T.family (T.sort message.old)) context.old (tag_number tag)
        (tag_type tag) (T.view message.old) (B.unread buf.old))) }
    ensures sort { T.sort message.new ≡ T.sort message.old }
    ensures counts { OnErr result (NoCountGrew context.old context.new) }
    ensures kept { B.kept buf.new ≡ B.kept buf.old }
{
    laws::records_in_order();
    let mut own = message.take(alloc, row);
    merge_embedded(&mut own, alloc, tag, buf, context)?;
    message.put(alloc, row, own)
}

// Takes the record of a row that has many, and charges its place in memory.
#[cycle(merge)]
#[inline(always)]
fn merge_each<T: RecursiveHeld<B>, B: Buf>(
    message: &mut T,
    alloc: Global,
    tag: Tag,
    row: usize,
    bytes: usize,
    buf: &mut B,
    context: &mut DecodeContext,
) -> Result<(), DecodeError>
    requires place { (T.family.table (T.sort message.old)).place (tag_number tag) ≡ Each row bytes }
    requires there { IsThere (T.family.table (T.sort message.old)) (Each row bytes) }
    ensures ok { OnOk result (IsCharged context.old context.new (λ c.
        TakesRecord (family_takes T.family (T.sort message.old)) context.old (tag_number tag)
        (tag_type tag) (T.view message.old) (B.unread buf.old) c (T.view message.new)
        (B.unread buf.new))) }
    ensures err { IfErr result (λ e. e ≢ OutOfMemory → NotTaken
        (TakesRecord (family_takes T.family (T.sort message.old)) context.old (tag_number tag)
        (tag_type tag) (T.view message.old) (B.unread buf.old))) }
    ensures sort { T.sort message.new ≡ T.sort message.old }
    ensures counts { OnErr result (NoCountGrew context.old context.new) }
    ensures kept { B.kept buf.new ≡ B.kept buf.old }
{
    laws::records_in_order();
    laws::grammar::limits_add_up();
    context.register_element_memory(bytes)?;
    let mut own = message.new_in(alloc, row);
    merge_embedded(&mut own, alloc, tag, buf, context)?;
    message.push(row, own)
}

// The same of a row whose message stands in a group.
#[cycle(merge)]
#[inline(always)]
fn merge_once_grouped<T: RecursiveHeld<B>, B: Buf>(
    message: &mut T,
    alloc: Global,
    tag: Tag,
    row: usize,
    buf: &mut B,
    context: &mut DecodeContext,
) -> Result<(), DecodeError>
    requires place { (T.family.table (T.sort message.old)).place (tag_number tag) ≡ Grouped row }
    requires there { IsThere (T.family.table (T.sort message.old)) (Grouped row) }
    ensures ok { OnOk result (IsCharged context.old context.new (λ c.
        TakesRecord (family_takes T.family (T.sort message.old)) context.old (tag_number tag)
        (tag_type tag) (T.view message.old) (B.unread buf.old) c (T.view message.new)
        (B.unread buf.new))) }
    ensures err { IfErr result (λ e. e ≢ OutOfMemory → NotTaken
        (TakesRecord (family_takes T.family (T.sort message.old)) context.old (tag_number tag)
        (tag_type tag) (T.view message.old) (B.unread buf.old))) }
    ensures sort { T.sort message.new ≡ T.sort message.old }
    ensures counts { OnErr result (NoCountGrew context.old context.new) }
    ensures kept { B.kept buf.new ≡ B.kept buf.old }
{
    laws::records_in_order();
    let mut own = message.take(alloc, row);
    merge_grouped(&mut own, alloc, tag, buf, context)?;
    message.put(alloc, row, own)
}

// The same of a row that has many, and whose messages stand in groups.
#[cycle(merge)]
#[inline(always)]
fn merge_each_grouped<T: RecursiveHeld<B>, B: Buf>(
    message: &mut T,
    alloc: Global,
    tag: Tag,
    row: usize,
    bytes: usize,
    buf: &mut B,
    context: &mut DecodeContext,
) -> Result<(), DecodeError>
    requires place { (T.family.table (T.sort message.old)).place (tag_number tag) ≡ EachGrouped row bytes }
    requires there { IsThere (T.family.table (T.sort message.old)) (EachGrouped row bytes) }
    ensures ok { OnOk result (IsCharged context.old context.new (λ c.
        TakesRecord (family_takes T.family (T.sort message.old)) context.old (tag_number tag)
        (tag_type tag) (T.view message.old) (B.unread buf.old) c (T.view message.new)
        (B.unread buf.new))) }
    ensures err { IfErr result (λ e. e ≢ OutOfMemory → NotTaken
        (TakesRecord (family_takes T.family (T.sort message.old)) context.old (tag_number tag)
        (tag_type tag) (T.view message.old) (B.unread buf.old))) }
    ensures sort { T.sort message.new ≡ T.sort message.old }
    ensures counts { OnErr result (NoCountGrew context.old context.new) }
    ensures kept { B.kept buf.new ≡ B.kept buf.old }
{
    laws::records_in_order();
    laws::grammar::limits_add_up();
    context.register_element_memory(bytes)?;
    let mut own = message.new_in(alloc, row);
    merge_grouped(&mut own, alloc, tag, buf, context)?;
    message.push(row, own)
}

// Reads the payload behind this tag and takes its records into the message, one level down.
#[cycle(merge)]
fn merge_embedded<T: RecursiveHeld<B>, B: Buf>(
    message: &mut T,
    alloc: Global,
    tag: Tag,
    buf: &mut B,
    context: &mut DecodeContext,
) -> Result<(), DecodeError>
    ensures ok { OnOk result (IsCharged context.old context.new (λ c.
        TakesRecord (inside length_prefixed (family_takes T.family
        (T.sort message.old))) context.old (tag_number tag)
        (tag_type tag) (T.view message.old) (B.unread buf.old) c (T.view message.new)
        (B.unread buf.new))) }
    ensures err { IfErr result (λ e. e ≢ OutOfMemory → NotTaken
        (TakesRecord (inside length_prefixed (family_takes T.family
        (T.sort message.old))) context.old (tag_number tag)
        (tag_type tag) (T.view message.old) (B.unread buf.old))) }
    ensures sort { T.sort message.new ≡ T.sort message.old }
    ensures counts { OnErr result (NoCountGrew context.old context.new) }
    ensures kept { B.kept buf.new ≡ B.kept buf.old }
{
    laws::grammar::whole_input();
    laws::delimited_is_read();
    laws::levels_and_counts();
    check_wire_type(tag, WireType::LengthDelimited)?;
    let rest = enter_payload::<T, B>(buf, context)?;
    merge_payload(message, alloc, buf, context, rest)
}

// Takes a level, and reads the length of an embedded message: answers how many bytes stand behind
// its payload.
#[inline(always)]
fn enter_payload<T: RecursiveHeld<B>, B: Buf>(
    buf: &mut B,
    context: &mut DecodeContext,
) -> Result<usize, DecodeError>
    ensures ok { IfOk result (Enters context.old context.new (B.unread buf.old)
        (B.unread buf.new)) }
    ensures room { OnOk result (context.new.depth < 2 ^ 32 - 1) }
    ensures err { OnErr result ((s : T.Sort) (m : Nest T.Leaf)
        → NotTaken (TakesEmbedded (family_takes T.family s) context.old m (B.unread buf.old))) }
    ensures counts { OnErr result (NoCountGrew context.old context.new) }
    ensures kept { B.kept buf.new ≡ B.kept buf.old }
{
    laws::delimited_is_read();
    laws::levels_and_counts();
    context.descend()?;
    let len = decode_length(buf, Some(MAX_MESSAGE_BYTES as usize))?;
    Ok(buf.remaining() - len)
}

// Takes the records of a payload with `rest` bytes behind it, and gives its level back. A record
// that runs past the payload is refused.
#[cycle(merge)]
fn merge_payload<T: RecursiveHeld<B>, B: Buf>(
    message: &mut T,
    alloc: Global,
    buf: &mut B,
    context: &mut DecodeContext,
    rest: usize,
) -> Result<(), DecodeError>
    requires { context.old.depth < 2 ^ 32 - 1 }
    ensures ok { OnOk result ((c : Charge) × TakesWithin (family_takes T.family
        (T.sort message.old)) context.old rest
        (T.view message.old) (B.unread buf.old) c (T.view message.new) (B.unread buf.new)
        × (context.new ≡ outer (left_after context.old c))) }
    ensures err { IfErr result (λ e. e ≢ OutOfMemory → NotTaken (TakesWithin (family_takes T.family
        (T.sort message.old))
        context.old rest (T.view message.old) (B.unread buf.old))) }
    ensures sort { T.sort message.new ≡ T.sort message.old }
    ensures counts { OnErr result (NoCountGrew context.old context.new) }
    ensures kept { B.kept buf.new ≡ B.kept buf.old }
{
    laws::records_in_order();
    laws::grammar::one_list();
    while buf.remaining() > rest {
        let tag = Tag::decode(buf)?;
        merge_held(message, alloc, tag, buf, context)?;
    }
    if buf.remaining() < rest {
        return Err(DecodeError::UnexpectedEof);
    }
    context.ascend();
    Ok(())
}

// Takes the body of the group behind this tag into the message, one level down.
#[cycle(merge)]
fn merge_grouped<T: RecursiveHeld<B>, B: Buf>(
    message: &mut T,
    alloc: Global,
    tag: Tag,
    buf: &mut B,
    context: &mut DecodeContext,
) -> Result<(), DecodeError>
    ensures ok { OnOk result (IsCharged context.old context.new (λ c.
        TakesRecord (inside delimited (family_takes T.family (T.sort message.old))) context.old
        (tag_number tag)
        (tag_type tag) (T.view message.old) (B.unread buf.old) c (T.view message.new)
        (B.unread buf.new))) }
    ensures err { IfErr result (λ e. e ≢ OutOfMemory → NotTaken
        (TakesRecord (inside delimited (family_takes T.family (T.sort message.old))) context.old
        (tag_number tag)
        (tag_type tag) (T.view message.old) (B.unread buf.old))) }
    ensures sort { T.sort message.new ≡ T.sort message.old }
    ensures counts { OnErr result (NoCountGrew context.old context.new) }
    ensures kept { B.kept buf.new ≡ B.kept buf.old }
{
    laws::grammar::group_is_list();
    laws::levels_and_counts();
    check_wire_type(tag, WireType::StartGroup)?;
    merge_group(message, alloc, buf, context, tag.field_number())
}

// Takes the records of a group of this number up to its end tag, one level down.
#[cycle(merge)]
fn merge_group<T: RecursiveHeld<B>, B: Buf>(
    message: &mut T,
    alloc: Global,
    buf: &mut B,
    context: &mut DecodeContext,
    number: u32,
) -> Result<(), DecodeError>
    ensures ok { OnOk result (IsCharged context.old context.new (λ c.
        TakesGroup (family_takes T.family (T.sort message.old)) context.old number
        (T.view message.old)
        (B.unread buf.old) c (T.view message.new) (B.unread buf.new))) }
    ensures err { IfErr result (λ e. e ≢ OutOfMemory → NotTaken (TakesGroup (family_takes T.family
        (T.sort message.old))
        context.old number (T.view message.old) (B.unread buf.old))) }
    ensures sort { T.sort message.new ≡ T.sort message.old }
    ensures counts { OnErr result (NoCountGrew context.old context.new) }
    ensures kept { B.kept buf.new ≡ B.kept buf.old }
{
    laws::records_in_order();
    laws::levels_and_counts();
    context.descend()?;
    while let Some(tag) = Tag::decode_in_group(buf, number)? {
        merge_held(message, alloc, tag, buf, context)?;
    }
    context.ascend();
    Ok(())
}
