//! The fields of a message type as rows, which are asked one after another.

/// The path to the first of some fields of a message that is missing, or within one; the answer of
/// `missing` of `Required`. A row has the name that a field has in its schema, its own, and its
/// requirement. Of many fields, best each eight are a part: a `Requirement` of its own, whose
/// `Held` is the message, and which has a row `..Part`.
#[macro_export]
macro_rules! first_missing {
    ($message:expr, $alloc:expr, $($name:literal => $field:ident: $requirement:ty,)+) => {{
        let found = None;
        $(
            let found =
                $crate::or_missing::<$requirement>(found, $alloc, $name, &$message.$field)?;
        )+
        Ok(found)
    }};
    ($message:expr, $alloc:expr, $(..$part:ident,)+) => {{
        let found = None;
        $(let found = $crate::or_missing::<$part>(found, $alloc, "", $message)?;)+
        Ok(found)
    }};
}
