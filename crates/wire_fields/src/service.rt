//! The methods of services.
use wire_codec::MessageFields;

/// A method of a service, as a frame of a remote call names it.
#[derive(Clone, Copy, Debug, PartialEq, Eq)]
pub struct Method {
    /// The full name of the service and the name of the method, each behind a slash, as
    /// `/shop.Orders/Place`.
    pub path: &'static str,
    /// The full name of the message type that is sent, as `shop.Order`.
    pub request: &'static str,
    /// The full name of the one that is answered.
    pub response: &'static str,
    /// Whether a stream of requests is sent, and not one.
    pub is_client_streaming: bool,
    /// Whether a stream of responses is answered, and not one.
    pub is_server_streaming: bool,
}

/// A method of a service, as a type: what is sent and answered, by its message types.
pub trait ServiceMethod {
    type Request: MessageFields;

    type Response: MessageFields;

    const METHOD: Method;
}
