//! The fields of a message type as rows, from which its calls are read.

/// What is asked of the fields of a message type: `parts`, `empty`, `merge` or `clear`. Behind the
/// call stand the rows, which a macro of the type's module puts there: each has the numbers of a
/// field, its name and its kind, and the last says what becomes of all other numbers. A number is
/// followed in brackets by the way its records are taken, where that is not the kind's own; a row
/// `..Part(rows)` stands for the rows of a part, which are put between. What is handed in are names
/// and places, which stand in what is made more than once.
#[macro_export]
macro_rules! fields {
    // All fields, as `measure` and `write` take them.
    (parts($message:expr) $($rows:tt)+) => {
        $crate::parts!([$message] $($rows)+)
    };
    // The rows of a part by itself stand in a macro of its own.
    ($call:ident($($given:tt)*)
        $($($number:literal $([$($way:tt)+])?)|+ => $field:ident: $kind:ty,)*
        ..$part:ident($rows:ident), $($behind:tt)*) => {
        $rows!(put_between($call($($given)*)
            { $($($number $([$($way)+])?)|+ => $field: $kind,)* } { $($behind)* }))
    };
    (put_between($call:ident($($given:tt)*) { $($before:tt)* } { $($behind:tt)* })
        $($rows:tt)*) => {
        $crate::fields!($call($($given)*) $($before)* $($rows)* $($behind)*)
    };
    // The value of no records.
    (empty($name:ident, $alloc:expr)
        $($($number:literal $([$($way:tt)+])?)|+ => $field:ident: $kind:ty,)+
        _ => unknown) => {
        $name {
            $($field: <$kind as $crate::Kind>::empty($alloc),)+
            unknown: UnknownFields::new($alloc),
        }
    };
    (empty($name:ident, $alloc:expr)
        $($($number:literal $([$($way:tt)+])?)|+ => $field:ident: $kind:ty,)+
        _ => dropped) => {
        $name {
            $($field: <$kind as $crate::Kind>::empty($alloc),)+
        }
    };
    // Takes the record behind a tag into its field.
    (merge($message:expr, $alloc:expr, $tag:expr, $buf:expr, $context:expr)
        $($($number:literal $([$($way:tt)+])?)|+ => $field:ident: $kind:ty,)+
        _ => $others:ident) => {
        match $tag.field_number() {
            $($($number => $crate::merged!([$($($way)+)?]
                $kind, $field, ($message, $alloc, $tag, $buf, $context)),)+)+
            _ => $crate::merged!([$others] ($message, $alloc, $tag, $buf, $context)),
        }
    };
    (clear($message:expr)
        $($($number:literal $([$($way:tt)+])?)|+ => $field:ident: $kind:ty,)+
        _ => unknown) => {{
        $(<$kind as $crate::Kind>::clear(&mut $message.$field);)+
        $message.unknown.clear();
    }};
    (clear($message:expr)
        $($($number:literal $([$($way:tt)+])?)|+ => $field:ident: $kind:ty,)+
        _ => dropped) => {{
        $(<$kind as $crate::Kind>::clear(&mut $message.$field);)+
    }};
}

/// The rows of fields as a tree of pairs, of `Known` fields and of parts by themselves; what becomes
/// of all other numbers is the last part of that of a message.
#[macro_export]
macro_rules! parts {
    ([$message:expr]
        $($(..$part:ident($rows:ident))?
        $($number:literal $([$($way:tt)+])? $(| $other:literal $([$($other_way:tt)+])?)*
            => $field:ident: $kind:ty)?,)+
        $(_ => $others:ident)?) => {
        $crate::parts!($($others)? $message => [] $($($part { message: $message })?
            $($crate::Known::<$kind> { number: $number, held: &$message.$field })?),+)
    };
    (unknown $message:expr => $($parts:tt)+) => {
        ($crate::parts!($message => $($parts)+), $crate::Rest { fields: &$message.unknown })
    };
    (dropped $message:expr => $($parts:tt)+) => {
        ($crate::parts!($message => $($parts)+), $crate::Dropped)
    };
    ($message:expr => [] $all:expr) => {
        $all
    };
    ($message:expr => [$($pair:expr),*] $first:expr, $second:expr $(, $other:expr)*) => {
        $crate::parts!($message => [$($pair,)* ($first, $second)] $($other),*)
    };
    ($message:expr => [$($pair:expr),+] $($last:expr)?) => {
        $crate::parts!($message => [] $($pair),+ $(, $last)?)
    };
}

/// How the record of one number is taken: into its field, in the way that the row says behind the
/// number, or as all other numbers. A way of another name than those here is a function of the
/// type's module.
#[macro_export]
macro_rules! merged {
    ([unknown] ($message:expr, $alloc:expr, $tag:expr, $buf:expr, $context:expr)) => {
        $crate::keep($alloc, $tag, &mut $message.unknown, $buf, $context)
    };
    ([dropped] ($message:expr, $alloc:expr, $tag:expr, $buf:expr, $context:expr)) => {
        $crate::pass_over($tag, $buf, $context)
    };
    ([] $kind:ty, $field:ident,
        ($message:expr, $alloc:expr, $tag:expr, $buf:expr, $context:expr)) => {
        <$kind as $crate::Kind>::merge($alloc, $tag, &mut $message.$field, $buf, $context)
    };
    ([closed] $kind:ty, $field:ident,
        ($message:expr, $alloc:expr, $tag:expr, $buf:expr, $context:expr)) => {
        $crate::merge_closed($tag, &mut $message.$field, &mut $message.unknown, $buf, $context)
    };
    ([closed_each] $kind:ty, $field:ident,
        ($message:expr, $alloc:expr, $tag:expr, $buf:expr, $context:expr)) => {
        $crate::merge_closed_each(
            $alloc,
            $tag,
            &mut $message.$field,
            &mut $message.unknown,
            $buf,
            $context,
        )
    };
    ([closed_map] $kind:ty, $field:ident,
        ($message:expr, $alloc:expr, $tag:expr, $buf:expr, $context:expr)) => {
        <$kind as $crate::ClosedMap>::merge_closed(
            $alloc,
            $tag,
            &mut $message.$field,
            &mut $message.unknown,
            $buf,
            $context,
        )
    };
    ([types $types:expr] $kind:ty, $field:ident,
        ($message:expr, $alloc:expr, $tag:expr, $buf:expr, $context:expr)) => {
        $crate::merge_or_keep::<$kind, _>(
            $alloc,
            $tag,
            $types,
            &mut $message.$field,
            &mut $message.unknown,
            $buf,
            $context,
        )
    };
    ([$call:ident] $kind:ty, $field:ident,
        ($message:expr, $alloc:expr, $tag:expr, $buf:expr, $context:expr)) => {
        $call($tag, &mut $message.$field, &mut $message.unknown, $buf, $context)
    };
}
