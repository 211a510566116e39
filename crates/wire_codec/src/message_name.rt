//! The names of message types.

/// What a message type is called in its schema.
pub trait MessageName {
    /// The package of the schema, as `google.protobuf`.
    const PACKAGE: &'static str;

    /// The name within the package.
    const NAME: &'static str;

    /// The package and the name, joined by a dot.
    const FULL_NAME: &'static str;

    /// The URL that stands for the type in an `Any`.
    const TYPE_URL: &'static str;
}
