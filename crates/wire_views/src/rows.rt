//! The fields of a view as rows, from which its calls are read.

/// What is asked of the fields of a view: `empty`, `merge`, `own`, `row_len` or `put_row`. Behind
/// the call stand the rows, which a macro of the view's module puts there: each has its place, the
/// numbers of a field, its name and its kind, and the last says that all other records are kept
/// where they stand. A number is followed in brackets by the way its records are taken, where that
/// is not the kind's own. What is handed in are names and places, which stand in what is made more
/// than once, and to `empty` the fields that no row has, as those of a view's own type: each with
/// what it is in the value.
#[macro_export]
macro_rules! view_fields {
    // The value of no records.
    (empty($name:ident, $alloc:expr $(, $other:ident: $none:expr)*)
        $([$place:literal] $($number:literal $([$way:ident])?)|+ => $field:ident: $kind:ty,)+
        _ [$last:literal] => unknown) => {
        $name {
            $($field: <$kind as $crate::ViewKind>::empty($alloc),)+
            $($other: $none,)*
            unknown: Vec::new($alloc),
        }
    };
    // Takes the record behind a tag into its field.
    (merge($message:expr, $alloc:expr, $tag:expr, $buf:expr, $context:expr)
        $([$place:literal] $($number:literal $([$way:ident])?)|+ => $field:ident: $kind:ty,)+
        _ [$last:literal] => unknown) => {
        match $tag.field_number() {
            $($($number => $crate::view_merged!([$($way)?]
                $kind, $field, ($message, $alloc, $tag, $buf, $context)),)+)+
            _ => $crate::keep_span($tag, &mut $message.unknown, $buf, $context),
        }
    };
    // The message of this name, with memory of its own.
    (own($name:ident, $message:expr, $alloc:expr)
        $([$place:literal] $($number:literal $([$way:ident])?)|+ => $field:ident: $kind:ty,)+
        _ [$last:literal] => unknown) => {
        Ok($name {
            $($field: <$kind as $crate::ViewKind>::own($alloc, &$message.$field)?,)+
            unknown: $crate::own_spans($alloc, &$message.unknown)?,
        })
    };
    // How many bytes the records of the row at a place take.
    (row_len($message:expr, $at:expr, $cache:expr)
        $([$place:literal] $first:literal $([$way:ident])? $(| $number:literal $([$other:ident])?)*
            => $field:ident: $kind:ty,)+
        _ [$last:literal] => unknown) => {
        match $at {
            $($place => <$kind as $crate::WrittenKind>::len($first, &$message.$field, $cache),)+
            $last => $crate::spans_len(&$message.unknown, $cache),
            _ => Ok(0),
        }
    };
    // Writes the records of the row at a place.
    (put_row($message:expr, $at:expr, $cache:expr, $sink:expr)
        $([$place:literal] $first:literal $([$way:ident])? $(| $number:literal $([$other:ident])?)*
            => $field:ident: $kind:ty,)+
        _ [$last:literal] => unknown) => {
        match $at {
            $($place => {
                <$kind as $crate::WrittenKind>::put($first, &$message.$field, $cache, $sink)
            })+
            $last => $crate::put_spans(&$message.unknown, $cache, $sink),
            _ => Ok(()),
        }
    };
}

/// How the record of one number is taken: into its field, or in the way that the row says behind
/// the number. A way of another name than those here is a function of the type's module.
#[macro_export]
macro_rules! view_merged {
    ([] $kind:ty, $field:ident,
        ($message:expr, $alloc:expr, $tag:expr, $buf:expr, $context:expr)) => {
        <$kind as $crate::ViewKind>::merge($alloc, $tag, &mut $message.$field, $buf, $context)
    };
    ([closed] $kind:ty, $field:ident,
        ($message:expr, $alloc:expr, $tag:expr, $buf:expr, $context:expr)) => {
        $crate::merge_closed(
            $alloc,
            $tag,
            &mut $message.$field,
            &mut $message.unknown,
            $buf,
            $context,
        )
    };
    ([closed_each] $kind:ty, $field:ident,
        ($message:expr, $alloc:expr, $tag:expr, $buf:expr, $context:expr)) => {
        $crate::merge_closed_each(
            $alloc,
            $tag,
            &mut $message.$field,
            &mut $message.unknown,
            $buf,
            $context,
        )
    };
    ([closed_map] $kind:ty, $field:ident,
        ($message:expr, $alloc:expr, $tag:expr, $buf:expr, $context:expr)) => {
        <$kind as $crate::ViewClosedMap<'_>>::merge_closed(
            $alloc,
            $tag,
            &mut $message.$field,
            &mut $message.unknown,
            $buf,
            $context,
        )
    };
    ([$call:ident] $kind:ty, $field:ident,
        ($message:expr, $alloc:expr, $tag:expr, $buf:expr, $context:expr)) => {
        $call(
            $alloc,
            $tag,
            &mut $message.$field,
            &mut $message.unknown,
            $buf,
            $context,
        )
    };
}
