//! The variants of a oneof of a view as rows, from which its calls are read.

/// What is asked of the variants of a oneof: `merge`, `own`, `len` or `put`. Behind the call stand
/// the rows, which a macro of the oneof's module puts there: each has the number of a variant, its
/// name and its kind, and the last has all other numbers too. What is handed in are names and
/// places, which stand in what is made more than once.
#[macro_export]
macro_rules! view_variants {
    // Takes the record behind a tag into the value of its variant where that stands, and else into
    // a new one, which then stands.
    (merge($name:ident, $alloc:expr, $tag:expr, $held:expr, $buf:expr, $context:expr)
        $($number:literal $(| $other:tt)? => $variant:ident: $kind:ty,)+) => {
        match $tag.field_number() {
            $($number $(| $other)? => match $held {
                Some($name::$variant(value)) => {
                    <$kind as $crate::ViewKind>::merge($alloc, $tag, value, $buf, $context)
                }
                _ => {
                    let mut value = <$kind as $crate::ViewKind>::empty($alloc);
                    <$kind as $crate::ViewKind>::merge($alloc, $tag, &mut value, $buf, $context)?;
                    *$held = Some($name::$variant(value));
                    Ok(())
                }
            },)+
        }
    };
    // The one that stands, with memory of its own, as a variant of this message's enum.
    (own($name:ident => $owned:ident, $alloc:expr, $held:expr)
        $($number:literal $(| $other:tt)? => $variant:ident: $kind:ty,)+) => {
        match $held {
            $(Some($name::$variant(value)) => {
                let value = <$kind as $crate::ViewKind>::own($alloc, value)?;
                Ok(Some($owned::$variant(value)))
            })+
            None => Ok(None),
        }
    };
    // How many bytes the record of the one that stands takes.
    (len($name:ident, $held:expr, $cache:expr)
        $($number:literal $(| $other:tt)? => $variant:ident: $kind:ty,)+) => {
        match $held {
            $(Some($name::$variant(value)) => {
                <$kind as $crate::WrittenKind>::len($number, value, $cache)
            })+
            None => Ok(0),
        }
    };
    // Writes the record of the one that stands.
    (put($name:ident, $held:expr, $cache:expr, $sink:expr)
        $($number:literal $(| $other:tt)? => $variant:ident: $kind:ty,)+) => {
        match $held {
            $(Some($name::$variant(value)) => {
                <$kind as $crate::WrittenKind>::put($number, value, $cache, $sink)
            })+
            None => Ok(()),
        }
    };
}
